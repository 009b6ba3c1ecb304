//! Numbers of a width, and what is asked of them.

ghost use Rattle.std.specs.Prelude.{◌≡◌, ◌<◌, ◌≤◌, ◌%◌, ◌^◌, IfOk, length, cond, nat_eq, nat_lt};
ghost use Rattle.bv_terms.specs.Tree.{is_less_signed, width_of};
ghost use Rattle.bv_terms.specs.Trees.{IsTerm, IsWidth, Keeps, Makes, Tests, bit_at, term_at, tree_in};

use bv_terms::{TermId, Terms};
use support::NoMemory;
use term_rules::{constant, eq, extract, ite, slt, ult, zext};

/// A known number of 64 bits.
pub fn number(terms: &mut Terms, n: u64) -> Result<TermId, NoMemory>
    ensures made { IfOk result (λ id. Makes terms.new id 64 (λ _. n)) }
    ensures kept { Keeps terms.old terms.new }
{
    constant(terms, n as u128, 64)
}

/// A number truncated or zero-extended to the width.
pub fn resize(terms: &mut Terms, a: TermId, width: u32) -> Result<TermId, NoMemory>
    requires within { a.index < length terms.old }
    requires wide { IsWidth width }
    ensures made { IfOk result (λ id. Makes terms.new id width (λ v. term_at v terms.old a % 2 ^ width)) }
    ensures kept { Keeps terms.old terms.new }
{
    terms.values_fit();
    if width <= terms.width(a) {
        let id = extract(terms, a, 0, width)?;
        Ok(id)
    } else {
        let id = zext(terms, a, width)?;
        Ok(id)
    }
}

/// The first of two numbers of the same width where the condition is true, else the second.
pub fn pick(terms: &mut Terms, c: TermId, a: TermId, b: TermId) -> Result<TermId, NoMemory>
    requires c { IsTerm terms.old 1 c }
    requires a { a.index < length terms.old }
    requires b { b.index < length terms.old }
    requires alike { width_of (tree_in terms.old a) ≡ width_of (tree_in terms.old b) }
    ensures made { IfOk result (λ id. Makes terms.new id (width_of (tree_in terms.old a)) (λ v. cond (bit_at v terms.old c) (term_at v terms.old a) (term_at v terms.old b))) }
    ensures kept { Keeps terms.old terms.new }
{
    let id = ite(terms, c, a, b)?;
    Ok(id)
}

/// Whether two numbers of the same width are equal.
pub fn equals(terms: &mut Terms, a: TermId, b: TermId) -> Result<TermId, NoMemory>
    requires a { a.index < length terms.old }
    requires b { b.index < length terms.old }
    requires alike { width_of (tree_in terms.old a) ≡ width_of (tree_in terms.old b) }
    ensures made { IfOk result (λ id. Tests terms.new id (λ v. nat_eq (term_at v terms.old a) (term_at v terms.old b))) }
    ensures kept { Keeps terms.old terms.new }
{
    let id = eq(terms, a, b)?;
    Ok(id)
}

/// Whether the first of two numbers of the same width is less, unsigned.
pub fn less(terms: &mut Terms, a: TermId, b: TermId) -> Result<TermId, NoMemory>
    requires a { a.index < length terms.old }
    requires b { b.index < length terms.old }
    requires alike { width_of (tree_in terms.old a) ≡ width_of (tree_in terms.old b) }
    ensures made { IfOk result (λ id. Tests terms.new id (λ v. nat_lt (term_at v terms.old a) (term_at v terms.old b))) }
    ensures kept { Keeps terms.old terms.new }
{
    let id = ult(terms, a, b)?;
    Ok(id)
}

/// Whether the first of two numbers of the same width is less, in two's complement.
pub fn less_signed(terms: &mut Terms, a: TermId, b: TermId) -> Result<TermId, NoMemory>
    requires a { a.index < length terms.old }
    requires b { b.index < length terms.old }
    requires alike { width_of (tree_in terms.old a) ≡ width_of (tree_in terms.old b) }
    ensures made { IfOk result (λ id. Tests terms.new id (λ v. is_less_signed (width_of (tree_in terms.old a)) (term_at v terms.old a) (term_at v terms.old b))) }
    ensures kept { Keeps terms.old terms.new }
{
    let id = slt(terms, a, b)?;
    Ok(id)
}
