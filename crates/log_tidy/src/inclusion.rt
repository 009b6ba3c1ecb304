//! Whether one clause has each literal of another.

ghost use Rattle.std.specs.Prelude.{◌≡◌, ◌↔◌, IsTrue};
ghost use Rattle.clause_lits.specs.Meaning.{IsClause};
ghost use Rattle.clause_search.specs.Outcome.{ContainsClause};
ghost use Rattle.clause_search.specs.Trail.{literal_eq};
ghost use Rattle.log_tidy.specs.Inclusion.{included};

use clause_lits::{Clause, Lit};

/// Whether the two are one literal.
fn is_same(a: Lit, b: Lit) -> bool
    ensures { result ≡ literal_eq a b }
{
    a.variable == b.variable && a.positive == b.positive
}

/// Whether a merge finds each literal of one list in the other.
fn merged(whole: &[Lit], part: &[Lit]) -> bool
    ensures { result ≡ included part.now whole.now }
{
    let mut left = part;
    let mut right = whole;
    while let [x, xs @ ..] = left {
        let [y, ys @ ..] = right else {
            return false;
        };
        if y.variable < x.variable {
            right = ys;
        } else if is_same(*x, *y) {
            left = xs;
            right = ys;
        } else {
            return false;
        }
    }
    true
}

/// Whether the first clause has each literal of the second.
pub fn includes(whole: &Clause, part: &Clause) -> bool
    ensures includes { IsTrue result ↔ ContainsClause whole.now part.now }
    ensures part { IsClause part.now }
{
    merged(whole.literals(), part.literals())
}
