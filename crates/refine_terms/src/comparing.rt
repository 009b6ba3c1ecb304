//! Numbers against known ones.

ghost use Rattle.std.specs.Prelude.{◌<◌, ◌≤◌, ◌^◌, All, IfOk, length, nat_eq, nat_le};
ghost use Rattle.bv_terms.specs.Tree.{width_of};
ghost use Rattle.bv_terms.specs.Trees.{Keeps, Tests, term_at, tree_in};
ghost use Rattle.mem_terms.specs.Values.{Each};
ghost use Rattle.refine_terms.specs.Deciding.{Decides, IsNarrow};

use bv_terms::{TermId, Terms};
use mem_terms::{both, equals, less, negation, number, resize, truth};
use support::NoMemory;
use term_rules::constant;

/// True where the term is this number.
pub fn is_number(a: TermId, n: u8, terms: &mut Terms) -> Result<TermId, NoMemory>
    requires within { a.index < length terms.old }
    requires fits { n < 2 ^ width_of (tree_in terms.old a) }
    ensures made { IfOk result (λ id. Tests terms.new id (λ v. nat_eq (term_at v terms.old a) n)) }
    ensures kept { Keeps terms.old terms.new }
{
    let width = terms.width(a);
    let known = constant(terms, n as u128, width)?;
    let id = equals(terms, a, known)?;
    Ok(id)
}

/// True where the term, of at most 64 bits, is at most this number.
pub fn at_most(a: TermId, most: u64, terms: &mut Terms) -> Result<TermId, NoMemory>
    requires { IsNarrow terms.old a }
    ensures made { IfOk result (λ id. Tests terms.new id (λ v. nat_le (term_at v terms.old a) most)) }
    ensures kept { Keeps terms.old terms.new }
{
    terms.values_fit();
    let wide = resize(terms, a, 64)?;
    let known = number(terms, most)?;
    let above = less(terms, known, wide)?;
    let id = negation(terms, above)?;
    Ok(id)
}

/// True where each of the terms, of at most 64 bits, is at most this number.
pub fn all_at_most(numbers: &[TermId], most: u64, terms: &mut Terms) -> Result<TermId, NoMemory>
    requires { Each (IsNarrow terms.old) numbers.now }
    ensures made { IfOk result (λ id. Decides terms.new id (λ v. Each (λ a. term_at v terms.old a ≤ most) numbers.now)) }
    ensures kept { Keeps terms.old terms.new }
{
    let mut all = truth(terms, true)?;
    for a in numbers {
        let one = at_most(*a, most, terms)?;
        all = both(terms, all, one)?;
    }
    Ok(all)
}
