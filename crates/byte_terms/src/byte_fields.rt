//! Fields of a byte.

ghost use Rattle.std.specs.Prelude.{◌≡◌, ◌<◌, ◌^◌, ℕ, IfOk, cond, nat_eq};
ghost use Rattle.bv_terms.specs.Trees.{IsTerm, IsWidth, Keeps, Makes, Tests, bit_at, term_at};

use bv_terms::{TermId, Terms};
use mem_terms::{equals, pick};
use support::NoMemory;
use term_rules::constant;

/// This mask where the condition is true, else 0.
pub fn mask_where(terms: &mut Terms, is_poison: TermId, mask: u8) -> Result<TermId, NoMemory>
    requires { IsTerm terms.old 1 is_poison }
    ensures made { IfOk result (λ id. Makes terms.new id 8 (λ v. cond (bit_at v terms.old is_poison) mask 0)) }
    ensures kept { Keeps terms.old terms.new }
{
    let poison = constant(terms, mask as u128, 8)?;
    let none = constant(terms, 0, 8)?;
    let id = pick(terms, is_poison, poison, none)?;
    Ok(id)
}

/// True where a field of this width has the value.
pub fn has_value(
    terms: &mut Terms,
    field: TermId,
    width: u32,
    value: u128,
) -> Result<TermId, NoMemory>
    requires field { IsTerm terms.old width field }
    requires wide { IsWidth width }
    requires fits { value < 2 ^ width }
    ensures made { IfOk result (λ id. Tests terms.new id (λ v. nat_eq (term_at v terms.old field) value)) }
    ensures kept { Keeps terms.old terms.new }
{
    let known = constant(terms, value, width)?;
    let is_same = equals(terms, field, known)?;
    Ok(is_same)
}
