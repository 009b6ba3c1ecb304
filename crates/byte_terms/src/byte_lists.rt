//! Lists of bytes.

ghost use Rattle.std.specs.Prelude.{◌≡◌, IfOk, cond, length, replicate};
ghost use Rattle.byte_block.specs.declared.value.Byte.TheVariants.{Bits};
ghost use Rattle.bv_terms.specs.Trees.{IsTerm, Keeps, bit_at};
ghost use Rattle.mem_terms.specs.Values.{Reading};
ghost use Rattle.mem_terms.specs.Memory.{AreSymBytes, places_at};

use bv_terms::{TermId, Terms};
use mem_terms::{SymByte, pick_byte, poison_byte};
use std::alloc::Global;
use support::{NoMemory, Sequence};

/// This number of bytes whose bits are all poison.
pub fn poison_bytes(
    alloc: Global,
    terms: &mut Terms,
    count: usize,
) -> Result<Sequence<SymByte>, NoMemory>
    ensures made { IfOk result (AreSymBytes terms.new) }
    ensures count { IfOk result (λ bytes. length bytes ≡ count) }
    ensures stands { IfOk result (λ bytes. (r : Reading) → places_at r terms.new bytes ≡ replicate count (Bits 0 255)) }
    ensures kept { Keeps terms.old terms.new }
{
    let byte = poison_byte(terms)?;
    let bytes = vec![in alloc; byte; count]?;
    Ok(Sequence::from_vec(bytes))
}

/// The first bytes where the condition is true, else the second.
pub fn pick_bytes(
    alloc: Global,
    terms: &mut Terms,
    c: TermId,
    a: &[SymByte],
    b: &[SymByte],
) -> Result<Sequence<SymByte>, NoMemory>
    requires c { IsTerm terms.old 1 c }
    requires a { AreSymBytes terms.old a.now }
    requires b { AreSymBytes terms.old b.now }
    requires count { length b.now ≡ length a.now }
    ensures made { IfOk result (AreSymBytes terms.new) }
    ensures count { IfOk result (λ bytes. length bytes ≡ length a.now) }
    ensures stands { IfOk result (λ bytes. (r : Reading) → places_at r terms.new bytes ≡ cond (bit_at r.v terms.old c) (places_at r terms.old a.now) (places_at r terms.old b.now)) }
    ensures kept { Keeps terms.old terms.new }
{
    let mut picked = Vec::new(alloc);
    for (i, byte) in a.iter().enumerate() {
        let one = pick_byte(terms, c, *byte, b[i])?;
        picked.push(one)?;
    }
    Ok(Sequence::from_vec(picked))
}
