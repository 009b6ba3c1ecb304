//! Values that a term never has.

ghost use Rattle.std.specs.Prelude.{◌≡◌, ◌<◌, ℕ, IsFalse, false, length, nat_eq};
ghost use Rattle.bv_terms.specs.Trees.{term_at};

use bv_terms::{Term, TermId, Terms};
use term_sums::term;

/// How many choices, one in an arm of the other, are looked into.
const DEPTH: u32 = 8;

/// Whether the term may have this value: no assignment gives it where the answer is `false`.
pub fn may_be(terms: &Terms, a: TermId, value: u128) -> bool
    requires { a.index < length terms.now }
    ensures { IsFalse result → (v : ℕ → ℕ → ℕ) → nat_eq (term_at v terms.now a) value ≡ false }
{
    may_be_within(terms, a, value, DEPTH)
}

/// The same, where at most `depth` choices, one in an arm of the other, are looked into.
fn may_be_within(terms: &Terms, a: TermId, value: u128, depth: u32) -> bool
    requires { a.index < length terms.now }
    ensures { IsFalse result → (v : ℕ → ℕ → ℕ) → nat_eq (term_at v terms.now a) value ≡ false }
{
    match term(terms, a) {
        // icmp eq C1, C2 --> false if C1 != C2
        Term::Constant { value: known, .. } => known == value,
        // icmp eq (select B, X, Y), C --> false if icmp eq X, C and icmp eq Y, C are false
        Term::Ite {
            a: first,
            b: second,
            ..
        } if depth > 0 => {
            may_be_within(terms, first, value, depth - 1)
                || may_be_within(terms, second, value, depth - 1)
        }
        _ => true,
    }
}
