//! The resolvent of two clauses.

ghost use Rattle.std.specs.Prelude.{◌≡◌, IfOk};
ghost use Rattle.clause_lits.specs.Meaning.{IsClause};
ghost use Rattle.clause_log.specs.Resolution.{IsResolventOf, resolvent};

use clause_lits::Clause;
use smallvec::SmallVec;
use std::alloc::Global;
use std::cmp::Ordering;
use support::NoMemory;

/// The resolvent of two clauses: where exactly one variable occurs in both with opposite signs, all
/// their other literals. `None` exactly where there is none.
pub fn resolve(alloc: Global, a: &Clause, b: &Clause) -> Result<Option<Clause>, NoMemory>
    ensures resolvent { IfOk result (IsResolventOf a.now b.now) }
    ensures value { IfOk result (λ r. r ≡ resolvent a.now b.now) }
    ensures left { IsClause a.now }
    ensures right { IsClause b.now }
{
    merge(alloc, a, b)
}

/// The literals of both in order, but those of the variable that occurs in both with opposite
/// signs, if there is exactly one.
fn merge(alloc: Global, a: &Clause, b: &Clause) -> Result<Option<Clause>, NoMemory>
    ensures value { IfOk result (λ r. r ≡ resolvent a.now b.now) }
    ensures left { IsClause a.now }
    ensures right { IsClause b.now }
{
    let mut out = SmallVec::new(alloc);
    let mut clashed = false;
    let mut left = a.literals();
    let mut right = b.literals();
    while let [x, xs @ ..] = left {
        let [y, ys @ ..] = right else {
            break;
        };
        match x.variable.cmp(&y.variable) {
            Ordering::Less => {
                out.push(*x)?;
                left = xs;
            }
            Ordering::Greater => {
                out.push(*y)?;
                right = ys;
            }
            Ordering::Equal => {
                if x.positive == y.positive {
                    out.push(*x)?;
                } else if clashed {
                    return Ok(None);
                } else {
                    clashed = true;
                }
                left = xs;
                right = ys;
            }
        }
    }
    if !clashed {
        return Ok(None);
    }
    out.extend_from_slice(left)?;
    out.extend_from_slice(right)?;
    Ok(Some(Clause::new(out)))
}
