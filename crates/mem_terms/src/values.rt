//! Values of both kinds, numbers and pointers.

ghost use Rattle.std.specs.Prelude.{◌≡◌, ℕ, IfOk, cond};
ghost use Rattle.byte_block.specs.declared.value.Value.TheVariants.{Num, Poison, Ptr};
ghost use Rattle.bv_terms.specs.Trees.{IsTerm, Keeps, bit_at, term_at};
ghost use Rattle.points.specs.Run.{address_value, null_pointer};
ghost use Rattle.mem_terms.specs.Values.{IsNaming, IsSymNumber, IsSymValue, Reading, as_integer, number_at, value_at};

use crate::integers::SymNumber;
use crate::numbers::{number, pick};
use crate::truths::{either, negation, truth};
use bv_terms::{TermId, Terms};
use support::NoMemory;

/// A value: poison where the first is true, else a pointer where the second is, else a number
/// (LLVM Language Reference, "Poison Values", "Pointer Type"). Where the kind is known its term is a
/// constant, and the fields that the kind doesn't use are constants.
#[derive(Clone, Copy, Debug, PartialEq, Eq)]
pub struct SymValue {
    pub poison: TermId,
    pub is_pointer: TermId,
    /// The pointer's block by its number, in 64 bits; 0 is the null block.
    pub block: TermId,
    /// The number, or the pointer's offset in bytes, in 64 bits.
    pub number: TermId,
}

/// Always poison.
pub fn poison_value(terms: &mut Terms) -> Result<SymValue, NoMemory>
    ensures made { IfOk result (IsSymValue terms.new) }
    ensures stands { IfOk result (λ s. (r : Reading) → value_at r terms.new s ≡ Poison) }
    ensures kept { Keeps terms.old terms.new }
{
    let zero = number(terms, 0)?;
    let is_pointer = truth(terms, false)?;
    let poison = truth(terms, true)?;
    Ok(SymValue {
        poison,
        is_pointer,
        block: zero,
        number: zero,
    })
}

/// A number, or poison, as a value.
pub fn integer_value(terms: &mut Terms, n: SymNumber) -> Result<SymValue, NoMemory>
    requires { IsSymNumber terms.old n }
    ensures made { IfOk result (IsSymValue terms.new) }
    ensures stands { IfOk result (λ s. (r : Reading) → value_at r terms.new s ≡ number_at r.v terms.old n) }
    ensures kept { Keeps terms.old terms.new }
{
    let block = number(terms, 0)?;
    let is_pointer = truth(terms, false)?;
    Ok(SymValue {
        poison: n.poison,
        is_pointer,
        block,
        number: n.number,
    })
}

/// Always a pointer, to this offset in the block with this number.
pub fn pointer_value(terms: &mut Terms, block: TermId, offset: TermId) -> Result<SymValue, NoMemory>
    requires block { IsTerm terms.old 64 block }
    requires offset { IsTerm terms.old 64 offset }
    ensures made { IfOk result (IsSymValue terms.new) }
    ensures stands { IfOk result (λ s. (r : Reading) → value_at r terms.new s ≡ Ptr (record { block = r.name (term_at r.v terms.old block); offset = term_at r.v terms.old offset })) }
    ensures kept { Keeps terms.old terms.new }
{
    let poison = truth(terms, false)?;
    let is_pointer = truth(terms, true)?;
    Ok(SymValue {
        poison,
        is_pointer,
        block,
        number: offset,
    })
}

/// `null`: offset 0 in the null block.
pub fn null_value(terms: &mut Terms) -> Result<SymValue, NoMemory>
    ensures made { IfOk result (IsSymValue terms.new) }
    ensures stands { IfOk result (λ s. (r : Reading) → IsNaming r.name → value_at r terms.new s ≡ Ptr null_pointer) }
    ensures kept { Keeps terms.old terms.new }
{
    let zero = number(terms, 0)?;
    pointer_value(terms, zero, zero)
}

/// The value where a number is used: a pointer is poison there.
pub fn as_number(terms: &mut Terms, s: SymValue) -> Result<SymNumber, NoMemory>
    requires { IsSymValue terms.old s }
    ensures made { IfOk result (IsSymNumber terms.new) }
    ensures stands { IfOk result (λ n. (r : Reading) → number_at r.v terms.new n ≡ as_integer (value_at r terms.old s)) }
    ensures kept { Keeps terms.old terms.new }
{
    let poison = either(terms, s.poison, s.is_pointer)?;
    Ok(SymNumber {
        poison,
        number: s.number,
    })
}

/// The value where a pointer is used: a number is poison there.
pub fn as_address(terms: &mut Terms, s: SymValue) -> Result<SymValue, NoMemory>
    requires { IsSymValue terms.old s }
    ensures made { IfOk result (IsSymValue terms.new) }
    ensures stands { IfOk result (λ a. (r : Reading) → value_at r terms.new a ≡ address_value (value_at r terms.old s)) }
    ensures kept { Keeps terms.old terms.new }
{
    let is_number = negation(terms, s.is_pointer)?;
    let poison = either(terms, s.poison, is_number)?;
    Ok(SymValue {
        poison,
        is_pointer: s.is_pointer,
        block: s.block,
        number: s.number,
    })
}

/// The first value where the condition is true, else the second.
pub fn pick_value(
    terms: &mut Terms,
    c: TermId,
    a: SymValue,
    b: SymValue,
) -> Result<SymValue, NoMemory>
    requires c { IsTerm terms.old 1 c }
    requires a { IsSymValue terms.old a }
    requires b { IsSymValue terms.old b }
    ensures made { IfOk result (IsSymValue terms.new) }
    ensures stands { IfOk result (λ s. (r : Reading) → value_at r terms.new s ≡ cond (bit_at r.v terms.old c) (value_at r terms.old a) (value_at r terms.old b)) }
    ensures kept { Keeps terms.old terms.new }
{
    let poison = pick(terms, c, a.poison, b.poison)?;
    let is_pointer = pick(terms, c, a.is_pointer, b.is_pointer)?;
    let block = pick(terms, c, a.block, b.block)?;
    let number = pick(terms, c, a.number, b.number)?;
    Ok(SymValue {
        poison,
        is_pointer,
        block,
        number,
    })
}
