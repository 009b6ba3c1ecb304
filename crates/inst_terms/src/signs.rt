//! Signs in two's complement.

ghost use Rattle.std.specs.Prelude.{◌&&◌, ◌||◌, not, IfOk};
ghost use Rattle.bv_terms.specs.Trees.{IsTerm, Keeps, Tests, bit_at, term_at};
ghost use Rattle.points.specs.Table.{have_two_signs, is_negative};
ghost use Rattle.inst_terms.specs.Rows.{is_sign_alone};

use bv_terms::{TermId, Terms};
use mem_terms::{both, truth};
use support::NoMemory;
use term_rules::{extract, xor};
use tv_num::Width;

/// Whether the number is negative: its highest bit.
pub fn sign(terms: &mut Terms, a: TermId, width: Width) -> Result<TermId, NoMemory>
    requires { IsTerm terms.old width.bits a }
    ensures made { IfOk result (λ id. Tests terms.new id (λ v. is_negative width.bits (term_at v terms.old a))) }
    ensures kept { Keeps terms.old terms.new }
{
    terms.values_fit();
    let id = extract(terms, a, width.bits() - 1, 1)?;
    Ok(id)
}

/// True where exactly one is.
fn differ(terms: &mut Terms, a: TermId, b: TermId) -> Result<TermId, NoMemory>
    requires a { IsTerm terms.old 1 a }
    requires b { IsTerm terms.old 1 b }
    ensures made { IfOk result (λ id. Tests terms.new id (λ v. (bit_at v terms.old a && not (bit_at v terms.old b)) || (not (bit_at v terms.old a) && bit_at v terms.old b))) }
    ensures kept { Keeps terms.old terms.new }
{
    terms.values_fit();
    let id = xor(terms, a, b)?;
    Ok(id)
}

/// Whether one is negative and the other is not.
pub fn signs_differ(
    terms: &mut Terms,
    a: TermId,
    b: TermId,
    width: Width,
) -> Result<TermId, NoMemory>
    requires a { IsTerm terms.old width.bits a }
    requires b { IsTerm terms.old width.bits b }
    ensures made { IfOk result (λ id. Tests terms.new id (λ v. have_two_signs width.bits (term_at v terms.old a) (term_at v terms.old b))) }
    ensures kept { Keeps terms.old terms.new }
{
    let first = sign(terms, a, width)?;
    let second = sign(terms, b, width)?;
    differ(terms, first, second)
}

fn is_sign_alone(
    terms: &mut Terms,
    c: TermId,
    a: TermId,
    b: TermId,
    width: Width,
) -> Result<TermId, NoMemory>
    requires c { IsTerm terms.old width.bits c }
    requires a { IsTerm terms.old width.bits a }
    requires b { IsTerm terms.old width.bits b }
    ensures made { IfOk result (λ id. Tests terms.new id (λ v. is_sign_alone width.bits (term_at v terms.old c) (term_at v terms.old a) (term_at v terms.old b))) }
    ensures kept { Keeps terms.old terms.new }
{
    let first = signs_differ(terms, c, a, width)?;
    let second = signs_differ(terms, c, b, width)?;
    both(terms, first, second)
}

/// Where the flag is set, whether the sign of the first differs from those of both others.
pub fn is_sign_alone_where(
    terms: &mut Terms,
    flag: bool,
    c: TermId,
    a: TermId,
    b: TermId,
    width: Width,
) -> Result<TermId, NoMemory>
    requires c { IsTerm terms.old width.bits c }
    requires a { IsTerm terms.old width.bits a }
    requires b { IsTerm terms.old width.bits b }
    ensures made { IfOk result (λ id. Tests terms.new id (λ v. flag && is_sign_alone width.bits (term_at v terms.old c) (term_at v terms.old a) (term_at v terms.old b))) }
    ensures kept { Keeps terms.old terms.new }
{
    if flag {
        is_sign_alone(terms, c, a, b, width)
    } else {
        truth(terms, false)
    }
}
