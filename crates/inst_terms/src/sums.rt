//! Sums and differences (LLVM Language Reference, "add Instruction", "sub Instruction").
//!
//! The unsigned sum overflows where it is less than an operand, and the signed one where both
//! operands have the other sign.

ghost use Rattle.std.specs.Prelude.{◌+◌, ◌-◌, ◌%◌, ◌^◌, ◌&&◌, ◌||◌, IfOk, nat_lt};
ghost use Rattle.bv_terms.specs.Trees.{IsTerm, Keeps, Makes, Tests, term_at};
ghost use Rattle.inst_terms.specs.Rows.{is_sign_alone};

use crate::narrow::NarrowValue;
use crate::signs::is_sign_alone_where;
use bv_terms::{TermId, Terms};
use ir_tree::Flags;
use mem_terms::{either, less, truth};
use support::NoMemory;
use term_rules::{add, sub};
use tv_num::Width;

/// Where the flag is set, whether the first is less.
fn less_where(
    terms: &mut Terms,
    flag: bool,
    a: TermId,
    b: TermId,
    width: Width,
) -> Result<TermId, NoMemory>
    requires a { IsTerm terms.old width.bits a }
    requires b { IsTerm terms.old width.bits b }
    ensures made { IfOk result (λ id. Tests terms.new id (λ v. flag && nat_lt (term_at v terms.old a) (term_at v terms.old b))) }
    ensures kept { Keeps terms.old terms.new }
{
    if flag {
        less(terms, a, b)
    } else {
        truth(terms, false)
    }
}

/// The sum of two numbers.
pub fn sum(
    terms: &mut Terms,
    flags: Flags,
    a: TermId,
    b: TermId,
    width: Width,
) -> Result<NarrowValue, NoMemory>
    requires a { IsTerm terms.old width.bits a }
    requires b { IsTerm terms.old width.bits b }
    ensures number { IfOk result (λ s. Makes terms.new s.number width.bits (λ v. (term_at v terms.old a + term_at v terms.old b) % 2 ^ width.bits)) }
    ensures poison { IfOk result (λ s. Tests terms.new s.poison (λ v.
        (flags.nuw && nat_lt ((term_at v terms.old a + term_at v terms.old b) % 2 ^ width.bits) (term_at v terms.old a))
        || (flags.nsw && is_sign_alone width.bits ((term_at v terms.old a + term_at v terms.old b) % 2 ^ width.bits) (term_at v terms.old a) (term_at v terms.old b)))) }
    ensures kept { Keeps terms.old terms.new }
{
    let number = add(terms, a, b)?;
    let unsigned = less_where(terms, flags.nuw, number, a, width)?;
    let signed = is_sign_alone_where(terms, flags.nsw, number, a, b, width)?;
    let poison = either(terms, unsigned, signed)?;
    Ok(NarrowValue { poison, number })
}

/// The difference of two numbers.
pub fn difference(
    terms: &mut Terms,
    flags: Flags,
    a: TermId,
    b: TermId,
    width: Width,
) -> Result<NarrowValue, NoMemory>
    requires a { IsTerm terms.old width.bits a }
    requires b { IsTerm terms.old width.bits b }
    ensures number { IfOk result (λ s. Makes terms.new s.number width.bits (λ v. (term_at v terms.old a + (2 ^ width.bits - term_at v terms.old b)) % 2 ^ width.bits)) }
    ensures poison { IfOk result (λ s. Tests terms.new s.poison (λ v.
        (flags.nuw && nat_lt (term_at v terms.old a) (term_at v terms.old b))
        || (flags.nsw && is_sign_alone width.bits (term_at v terms.old a) (term_at v terms.old b) ((term_at v terms.old a + (2 ^ width.bits - term_at v terms.old b)) % 2 ^ width.bits)))) }
    ensures kept { Keeps terms.old terms.new }
{
    let number = sub(terms, a, b)?;
    let unsigned = less_where(terms, flags.nuw, a, b, width)?;
    let signed = is_sign_alone_where(terms, flags.nsw, a, b, number, width)?;
    let poison = either(terms, unsigned, signed)?;
    Ok(NarrowValue { poison, number })
}
