ghost use Rattle.std.specs.Prelude.{◌≡◌, IfOk};

use std::alloc::Global;
use support::{NoMemory, Sequence};

/// A local or global name, without its sign (LLVM Language Reference, "Identifiers").
///
/// A number differs from the same characters in quotes: `%5` is not `%"5"`.
#[derive(Debug, PartialEq, Eq, Hash)]
pub enum Name {
    /// An unsigned number of any size, as decimal digits without leading zeros.
    Number(Sequence<u8>),
    /// Any bytes, as they are after escapes.
    Word(Sequence<u8>),
}

// Dropped by one call: a derived drop is written out at each return.
impl Drop for Name {
    fn drop(self) {
        match self {
            Name::Number(digits) => {}
            Name::Word(bytes) => {}
        }
    }
}

/// A copy of the name.
pub fn copy_name(alloc: Global, name: &Name) -> Result<Name, NoMemory>
    ensures { IfOk result (λ copy. copy ≡ name.now) }
{
    match name {
        Name::Number(digits) => Ok(Name::Number(copy_bytes(alloc, digits)?)),
        Name::Word(bytes) => Ok(Name::Word(copy_bytes(alloc, bytes)?)),
    }
}

fn copy_bytes(alloc: Global, bytes: &Sequence<u8>) -> Result<Sequence<u8>, NoMemory>
    ensures { IfOk result (λ copy. copy ≡ bytes.now) }
{
    Ok(Sequence::from_vec(bytes.as_slice().to_vec(alloc)?))
}
