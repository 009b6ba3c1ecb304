//! Casts between widths (LLVM Language Reference, "trunc .. to Instruction", "zext .. to
//! Instruction", "sext .. to Instruction").

ghost use Rattle.std.specs.Prelude.{◌≡◌, ◌%◌, ◌^◌, ◌&&◌, ◌||◌, ℕ, IfOk, false, pos};
ghost use Rattle.bv_terms.specs.Trees.{IsTerm, Keeps, Makes, Tests, term_at};
ghost use Rattle.tv_num.specs.Width.{is_outside_signed, is_outside_unsigned, signed_of, wrapped};
ghost use Rattle.points.specs.Table.{cast_number, cast_value, is_negative};
ghost use Rattle.mem_terms.specs.Values.{IsSymNumber, number_at};
ghost use Rattle.inst_terms.specs.Narrow.{IsNarrow, narrow_at};

use crate::narrow::{NarrowValue, narrowed, widened};
use crate::room::{is_outside_signed, is_outside_unsigned};
use crate::signs::sign;
use bv_terms::{TermId, Terms};
use ir_tree::{Cast, Flags};
use mem_terms::{SymNumber, either, resize, truth};
use support::NoMemory;
use term_rules::sext;
use tv_num::Width;

/// Whether the unsigned number is out of range at another width.
fn has_no_room(terms: &mut Terms, a: TermId, from: Width, to: Width) -> Result<TermId, NoMemory>
    requires { IsTerm terms.old from.bits a }
    ensures made { IfOk result (λ id. Tests terms.new id (λ v. is_outside_unsigned to.bits (pos (term_at v terms.old a)))) }
    ensures kept { Keeps terms.old terms.new }
{
    terms.values_fit();
    if to.bits() < from.bits() {
        is_outside_unsigned(terms, a, from.bits(), to.bits())
    } else {
        let never = truth(terms, false)?;
        Ok(never)
    }
}

/// Whether the number in two's complement is out of range at another width.
fn has_no_signed_room(
    terms: &mut Terms,
    a: TermId,
    from: Width,
    to: Width,
) -> Result<TermId, NoMemory>
    requires { IsTerm terms.old from.bits a }
    ensures made { IfOk result (λ id. Tests terms.new id (λ v. is_outside_signed to.bits (signed_of from.bits (term_at v terms.old a)))) }
    ensures kept { Keeps terms.old terms.new }
{
    terms.values_fit();
    if to.bits() < from.bits() {
        is_outside_signed(terms, a, from.bits(), to.bits())
    } else {
        let never = truth(terms, false)?;
        Ok(never)
    }
}

fn has_no_room_where(
    terms: &mut Terms,
    flag: bool,
    a: TermId,
    from: Width,
    to: Width,
) -> Result<TermId, NoMemory>
    requires { IsTerm terms.old from.bits a }
    ensures made { IfOk result (λ id. Tests terms.new id (λ v. flag && is_outside_unsigned to.bits (pos (term_at v terms.old a)))) }
    ensures kept { Keeps terms.old terms.new }
{
    if flag {
        has_no_room(terms, a, from, to)
    } else {
        truth(terms, false)
    }
}

fn has_no_signed_room_where(
    terms: &mut Terms,
    flag: bool,
    a: TermId,
    from: Width,
    to: Width,
) -> Result<TermId, NoMemory>
    requires { IsTerm terms.old from.bits a }
    ensures made { IfOk result (λ id. Tests terms.new id (λ v. flag && is_outside_signed to.bits (signed_of from.bits (term_at v terms.old a)))) }
    ensures kept { Keeps terms.old terms.new }
{
    if flag {
        has_no_signed_room(terms, a, from, to)
    } else {
        truth(terms, false)
    }
}

/// The low bits.
fn truncated(
    terms: &mut Terms,
    flags: Flags,
    a: TermId,
    from: Width,
    to: Width,
) -> Result<NarrowValue, NoMemory>
    requires { IsTerm terms.old from.bits a }
    ensures number { IfOk result (λ s. Makes terms.new s.number to.bits (λ v. term_at v terms.old a % 2 ^ to.bits)) }
    ensures poison { IfOk result (λ s. Tests terms.new s.poison (λ v. (flags.nuw && is_outside_unsigned to.bits (pos (term_at v terms.old a))) || (flags.nsw && is_outside_signed to.bits (signed_of from.bits (term_at v terms.old a))))) }
    ensures kept { Keeps terms.old terms.new }
{
    let number = resize(terms, a, to.bits())?;
    let unsigned = has_no_room_where(terms, flags.nuw, a, from, to)?;
    let signed = has_no_signed_room_where(terms, flags.nsw, a, from, to)?;
    let poison = either(terms, unsigned, signed)?;
    Ok(NarrowValue { poison, number })
}

fn is_negative_where(
    terms: &mut Terms,
    flag: bool,
    a: TermId,
    width: Width,
) -> Result<TermId, NoMemory>
    requires { IsTerm terms.old width.bits a }
    ensures made { IfOk result (λ id. Tests terms.new id (λ v. flag && is_negative width.bits (term_at v terms.old a))) }
    ensures kept { Keeps terms.old terms.new }
{
    if flag {
        sign(terms, a, width)
    } else {
        truth(terms, false)
    }
}

/// The number zero-extended.
fn zero_extended(
    terms: &mut Terms,
    non_negative: bool,
    a: TermId,
    from: Width,
    to: Width,
) -> Result<NarrowValue, NoMemory>
    requires { IsTerm terms.old from.bits a }
    ensures number { IfOk result (λ s. Makes terms.new s.number to.bits (λ v. term_at v terms.old a % 2 ^ to.bits)) }
    ensures poison { IfOk result (λ s. Tests terms.new s.poison (λ v. non_negative && is_negative from.bits (term_at v terms.old a))) }
    ensures kept { Keeps terms.old terms.new }
{
    let number = resize(terms, a, to.bits())?;
    let poison = is_negative_where(terms, non_negative, a, from)?;
    Ok(NarrowValue { poison, number })
}

/// The number sign-extended, or its low bits.
fn resized_signed(terms: &mut Terms, a: TermId, from: Width, to: Width) -> Result<TermId, NoMemory>
    requires { IsTerm terms.old from.bits a }
    ensures made { IfOk result (λ id. Makes terms.new id to.bits (λ v. wrapped to.bits (signed_of from.bits (term_at v terms.old a)))) }
    ensures kept { Keeps terms.old terms.new }
{
    terms.values_fit();
    if from.bits() <= to.bits() {
        let extended = sext(terms, a, to.bits())?;
        Ok(extended)
    } else {
        let low = resize(terms, a, to.bits())?;
        Ok(low)
    }
}

fn sign_extended(
    terms: &mut Terms,
    a: TermId,
    from: Width,
    to: Width,
) -> Result<NarrowValue, NoMemory>
    requires { IsTerm terms.old from.bits a }
    ensures number { IfOk result (λ s. Makes terms.new s.number to.bits (λ v. wrapped to.bits (signed_of from.bits (term_at v terms.old a)))) }
    ensures poison { IfOk result (λ s. Tests terms.new s.poison (λ _. false)) }
    ensures kept { Keeps terms.old terms.new }
{
    let number = resized_signed(terms, a, from, to)?;
    let poison = truth(terms, false)?;
    Ok(NarrowValue { poison, number })
}

/// The cast of a number of the width `from`.
fn on_number(
    terms: &mut Terms,
    cast: Cast,
    a: TermId,
    from: Width,
    to: Width,
) -> Result<NarrowValue, NoMemory>
    requires { IsTerm terms.old from.bits a }
    ensures made { IfOk result (IsNarrow terms.new to.bits) }
    ensures stands { IfOk result (λ s. (v : ℕ → ℕ → ℕ) → narrow_at v terms.new s ≡ cast_number cast from.bits to.bits (term_at v terms.old a)) }
    ensures kept { Keeps terms.old terms.new }
{
    match cast {
        Cast::Truncate(flags) => {
            let low = truncated(terms, flags, a, from, to)?;
            Ok(low)
        }
        Cast::ZeroExtend { non_negative } => {
            let zeros = zero_extended(terms, non_negative, a, from, to)?;
            Ok(zeros)
        }
        Cast::SignExtend => {
            let signs = sign_extended(terms, a, from, to)?;
            Ok(signs)
        }
    }
}

/// The value, read modulo 2^from, at the width `to`; the widths need not suit the cast. The only
/// error is out of memory, and the terms that were there stay.
pub fn cast(
    terms: &mut Terms,
    cast: Cast,
    from: Width,
    to: Width,
    operand: SymNumber,
) -> Result<SymNumber, NoMemory>
    requires { IsSymNumber terms.old operand }
    ensures made { IfOk result (IsSymNumber terms.new) }
    ensures stands { IfOk result (λ s. (v : ℕ → ℕ → ℕ) → number_at v terms.new s ≡ cast_value cast from.bits to.bits (number_at v terms.old operand)) }
    ensures kept { Keeps terms.old terms.new }
{
    let a = narrowed(terms, operand, from)?;
    let row = on_number(terms, cast, a.number, from, to)?;
    let poison = either(terms, a.poison, row.poison)?;
    let number = row.number;
    let value = widened(terms, NarrowValue { poison, number }, to)?;
    Ok(value)
}
