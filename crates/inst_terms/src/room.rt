//! Whether a number is in range at a smaller width.

ghost use Rattle.std.specs.Prelude.{◌<◌, ◌≤◌, IfOk, pos};
ghost use Rattle.bv_terms.specs.Trees.{IsTerm, Keeps, Tests, term_at};
ghost use Rattle.tv_num.specs.Width.{is_outside_signed, is_outside_unsigned, signed_of};

use bv_terms::{TermId, Terms};
use mem_terms::{equals, negation};
use support::NoMemory;
use term_rules::{constant, extract, sext};

/// Whether the unsigned number is out of range at the smaller width: a higher bit is 1.
pub fn is_outside_unsigned(
    terms: &mut Terms,
    a: TermId,
    from: u32,
    to: u32,
) -> Result<TermId, NoMemory>
    requires a { IsTerm terms.old from a }
    requires least { 1 ≤ to }
    requires less { to < from }
    ensures made { IfOk result (λ id. Tests terms.new id (λ v. is_outside_unsigned to (pos (term_at v terms.old a)))) }
    ensures kept { Keeps terms.old terms.new }
{
    terms.values_fit();
    let _whole = terms.width(a);
    let high = extract(terms, a, to, from - to)?;
    let zero = constant(terms, 0, from - to)?;
    let none = equals(terms, high, zero)?;
    let id = negation(terms, none)?;
    Ok(id)
}

/// Whether the number in two's complement is out of range at the smaller width: its low bits,
/// sign-extended, are another number.
pub fn is_outside_signed(
    terms: &mut Terms,
    a: TermId,
    from: u32,
    to: u32,
) -> Result<TermId, NoMemory>
    requires a { IsTerm terms.old from a }
    requires least { 1 ≤ to }
    requires less { to < from }
    ensures made { IfOk result (λ id. Tests terms.new id (λ v. is_outside_signed to (signed_of from (term_at v terms.old a)))) }
    ensures kept { Keeps terms.old terms.new }
{
    terms.values_fit();
    let _whole = terms.width(a);
    let low = extract(terms, a, 0, to)?;
    let back = sext(terms, low, from)?;
    let same = equals(terms, back, a)?;
    let id = negation(terms, same)?;
    Ok(id)
}
