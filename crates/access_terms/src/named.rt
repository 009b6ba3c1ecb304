//! Which block a pointer names.

ghost use Rattle.std.specs.Prelude.{◌≡◌, ◌<◌, ◌&&◌, ℕ, IfOk, true, false, length};
ghost use Rattle.memory_access.specs.Blocks.{names};
ghost use Rattle.bv_terms.specs.Trees.{IsTerm, Keeps, bit_at, term_at};
ghost use Rattle.mem_terms.specs.Values.{IsNaming, Reading};
ghost use Rattle.mem_terms.specs.Memory.{IsSymBlock, block_at};

use bv_terms::{Term, TermId, Terms};
use mem_terms::{SymBlock, both, equals, number};
use support::NoMemory;

/// True where the block exists and the number names it.
pub fn is_named(terms: &mut Terms, block: TermId, of: &SymBlock) -> Result<TermId, NoMemory>
    requires block { IsTerm terms.old 64 block }
    requires of { IsSymBlock terms.old of.now }
    ensures made { IfOk result (IsTerm terms.new 1) }
    ensures stands { IfOk result (λ id. (r : Reading) → IsNaming r.name → bit_at r.v terms.new id ≡ (bit_at r.v terms.old of.now.exists && names (r.name (term_at r.v terms.old block)) (block_at r terms.old of.now))) }
    ensures kept { Keeps terms.old terms.new }
{
    let known = number(terms, of.number)?;
    let is_same = equals(terms, block, known)?;
    let is_named = both(terms, of.exists, is_same)?;
    Ok(is_named)
}

/// Whether the term is the constant 0, so that nothing need be built under it.
pub fn is_never(terms: &Terms, a: TermId) -> bool
    requires { a.index < length terms.now }
    ensures { result ≡ true → (v : ℕ → ℕ → ℕ) → bit_at v terms.now a ≡ false }
{
    let term = terms.as_slice()[a.index];
    match term {
        Term::Constant { value, .. } => value == 0,
        _ => false,
    }
}
