//! The bytes that a value is stored as, and the value that bytes are read as.

ghost use Rattle.std.specs.Prelude.{◌≡◌, IfOk, length};
ghost use Rattle.memory_access.specs.Bytes.{access_size, value_bytes, value_of_bytes};
ghost use Rattle.bv_terms.specs.Trees.{Keeps};
ghost use Rattle.mem_terms.specs.Values.{IsNaming, IsSymValue, Reading, value_at};
ghost use Rattle.mem_terms.specs.Memory.{AreSymBytes, places_at};

use crate::integer_bytes::{byte_count, integer_bytes, integer_of_bytes};
use crate::pointer_bytes::{pointer_bytes, pointer_of_bytes};
use bv_terms::Terms;
use mem_terms::{SymByte, SymValue};
use memory_access::Access;
use std::alloc::Global;
use support::{NoMemory, Sequence};

/// How many bytes an access has.
pub fn access_size(access: Access) -> usize
    ensures { result ≡ access_size access }
{
    match access {
        Access::Int(width) => byte_count(width),
        Access::Pointer => 8,
    }
}

/// The bytes that the value is stored as: a number little-endian, a pointer as its parts 0 to 7, and
/// a value of the other kind, like poison, as poison (LLVM Language Reference, "store Instruction").
pub fn bytes_of_value(
    alloc: Global,
    terms: &mut Terms,
    access: Access,
    value: SymValue,
) -> Result<Sequence<SymByte>, NoMemory>
    requires { IsSymValue terms.old value }
    ensures made { IfOk result (AreSymBytes terms.new) }
    ensures stands { IfOk result (λ bytes. (r : Reading) → places_at r terms.new bytes ≡ value_bytes access (value_at r terms.old value)) }
    ensures kept { Keeps terms.old terms.new }
{
    match access {
        Access::Int(width) => integer_bytes(alloc, terms, width, value),
        Access::Pointer => pointer_bytes(alloc, terms, value),
    }
}

/// The value that the bytes are read as: a number where no bit is poison and it is one of the
/// access's width, a pointer where they are its parts 0 to 7, else poison (LLVM Language
/// Reference, "load Instruction").
pub fn value_of_bytes(
    terms: &mut Terms,
    access: Access,
    bytes: &[SymByte],
) -> Result<SymValue, NoMemory>
    requires bytes { AreSymBytes terms.old bytes.now }
    requires count { length bytes.now ≡ access_size access }
    ensures made { IfOk result (IsSymValue terms.new) }
    ensures stands { IfOk result (λ s. (r : Reading) → IsNaming r.name → value_at r terms.new s ≡ value_of_bytes access (places_at r terms.old bytes.now)) }
    ensures kept { Keeps terms.old terms.new }
{
    match access {
        Access::Int(width) => integer_of_bytes(terms, width, bytes),
        Access::Pointer => pointer_of_bytes(terms, bytes),
    }
}
