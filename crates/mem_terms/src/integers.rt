//! Values as two terms.

ghost use Rattle.std.specs.Prelude.{◌≡◌, ℕ, IfOk, cond};
ghost use Rattle.byte_block.specs.declared.value.Value.TheVariants.{Num, Poison};
ghost use Rattle.bv_terms.specs.Trees.{IsTerm, Keeps, bit_at};
ghost use Rattle.mem_terms.specs.Values.{IsSymNumber, number_at};

use crate::numbers::{number, pick};
use crate::truths::truth;
use bv_terms::{TermId, Terms};
use support::NoMemory;

/// A value: poison where the first is true, else the number, of 64 bits (LLVM Language Reference,
/// "Poison Values").
#[derive(Clone, Copy, Debug, PartialEq, Eq)]
pub struct SymNumber {
    pub poison: TermId,
    pub number: TermId,
}

/// Always poison.
pub fn poison_number(terms: &mut Terms) -> Result<SymNumber, NoMemory>
    ensures made { IfOk result (IsSymNumber terms.new) }
    ensures stands { IfOk result (λ s. (v : ℕ → ℕ → ℕ) → number_at v terms.new s ≡ Poison) }
    ensures kept { Keeps terms.old terms.new }
{
    let number = number(terms, 0)?;
    let poison = truth(terms, true)?;
    Ok(SymNumber { poison, number })
}

/// Always this number.
pub fn known_number(terms: &mut Terms, n: u64) -> Result<SymNumber, NoMemory>
    ensures made { IfOk result (IsSymNumber terms.new) }
    ensures stands { IfOk result (λ s. (v : ℕ → ℕ → ℕ) → number_at v terms.new s ≡ Num n) }
    ensures kept { Keeps terms.old terms.new }
{
    let number = number(terms, n)?;
    let poison = truth(terms, false)?;
    Ok(SymNumber { poison, number })
}

/// The first value where the condition is true, else the second.
pub fn pick_number(
    terms: &mut Terms,
    c: TermId,
    a: SymNumber,
    b: SymNumber,
) -> Result<SymNumber, NoMemory>
    requires c { IsTerm terms.old 1 c }
    requires a { IsSymNumber terms.old a }
    requires b { IsSymNumber terms.old b }
    ensures made { IfOk result (IsSymNumber terms.new) }
    ensures stands { IfOk result (λ s. (v : ℕ → ℕ → ℕ) → number_at v terms.new s ≡ cond (bit_at v terms.old c) (number_at v terms.old a) (number_at v terms.old b)) }
    ensures kept { Keeps terms.old terms.new }
{
    let poison = pick(terms, c, a.poison, b.poison)?;
    let number = pick(terms, c, a.number, b.number)?;
    Ok(SymNumber { poison, number })
}
