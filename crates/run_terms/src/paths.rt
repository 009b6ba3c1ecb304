//! The tests on the way to a point of the function.

ghost use Rattle.std.specs.Prelude.{◌≡◌, ◌≤◌, ◌++◌, ◌∷◌, [], true, false, not, ℕ, IfOk, IfSome, length, take};
ghost use Rattle.run_terms.specs.Common.{Keeps, IsTerm, bit_at, HoldAll, LeadsBy, Separates};

use bv_terms::{TermId, Terms};
use mem_terms::negation;
use std::alloc::Global;
use support::{NoMemory, Sequence};

/// A test that a run passed: a bit of a branch or of a case, and which value it had.
#[derive(Clone, Copy, Debug, PartialEq, Eq)]
pub struct Test {
    pub bit: TermId,
    pub holds: bool,
}

/// The same bit with the other value.
fn opposite(test: Test) -> Test
    ensures { result ≡ record { bit = test.bit; holds = not test.holds } }
{
    Test {
        bit: test.bit,
        holds: !test.holds,
    }
}

/// The first test of a path that has the other value at the same index of the other path.
fn separating(path: &[Test], other: &[Test]) -> Option<Test>
    ensures { IfSome result (Separates path.now other.now) }
{
    for (i, test) in path.iter().enumerate() {
        if i < other.len() && other[i] == opposite(*test) {
            return Some(*test);
        }
    }
    None
}

/// A bit that is true where the condition is, and false where the condition is false and a run takes
/// the other path. The condition leads by the first path. It is the bit of the test that separates
/// the paths, so that it doesn't depend on what else the run did; the condition where none does.
pub fn choice_by_path(
    terms: &mut Terms,
    c: TermId,
    path: &[Test],
    other: &[Test],
) -> Result<TermId, NoMemory>
    requires c { IsTerm terms.old 1 c }
    requires path { LeadsBy terms.old c path.now }
    ensures made { IfOk result (IsTerm terms.new 1) }
    ensures goes { IfOk result (λ by. (v : ℕ → ℕ → ℕ) → bit_at v terms.old c ≡ true → bit_at v terms.new by ≡ true) }
    ensures stays { IfOk result (λ by. (v : ℕ → ℕ → ℕ) → bit_at v terms.old c ≡ false → HoldAll v terms.old other.now → bit_at v terms.new by ≡ false) }
    ensures kept { Keeps terms.old terms.new }
{
    match separating(path, other) {
        Some(test) => {
            if test.holds {
                Ok(test.bit)
            } else {
                let by = negation(terms, test.bit)?;
                Ok(by)
            }
        }
        None => Ok(c),
    }
}

/// With how many equal tests both paths begin.
fn common_length(a: &[Test], b: &[Test]) -> usize
    ensures within { result ≤ length a.now }
    ensures same { take result a.now ≡ take result b.now }
{
    let mut n = 0;
    while n < a.len() && n < b.len() && a[n] == b[n] {
        n += 1;
    }
    n
}

/// The tests that both paths begin with.
pub fn common(alloc: Global, a: &[Test], b: &[Test]) -> Result<Sequence<Test>, NoMemory>
    ensures { IfOk result (λ path. (n : ℕ) × (path ≡ take n a.now) × (path ≡ take n b.now)) }
{
    let n = common_length(a, b);
    let path = a[..n].to_vec(alloc)?;
    Ok(Sequence::from_vec(path))
}

/// The same tests.
pub fn copy_path(alloc: Global, path: &[Test]) -> Result<Sequence<Test>, NoMemory>
    ensures { IfOk result (λ copy. copy ≡ path.now) }
{
    let tests = path.to_vec(alloc)?;
    Ok(Sequence::from_vec(tests))
}

/// A path with one more test, of this bit.
pub fn with_test(
    alloc: Global,
    path: &[Test],
    bit: TermId,
    holds: bool,
) -> Result<Sequence<Test>, NoMemory>
    ensures { IfOk result (λ longer. longer ≡ path.now ++ record { bit = bit; holds = holds } ∷ []) }
{
    let mut tests = path.to_vec(alloc)?;
    tests.push(Test { bit, holds })?;
    Ok(Sequence::from_vec(tests))
}
