//! The question for a tape that covers a point.

ghost use Rattle.std.specs.Prelude.{◌<◌, IfOk, IfSome};
ghost use Rattle.verdicts.specs.Trail.{IsPoint};
ghost use Rattle.pair_questions.specs.Questions.{IsFoundTape};
ghost use Rattle.pair_questions.specs.Subjects.{IsSubject};

use crate::asking::{least_numbers, widths_of};
use crate::found::Found;
use crate::goals::covering;
use crate::inputs::tape_variables;
use crate::subject::Subject;
use bv_terms::Terms;
use points::Point;
use std::alloc::Global;
use support::{NoMemory, Sequence};

/// The least tape of the source that covers the point.
pub fn least_cover(
    alloc: Global,
    subject: &Subject,
    point: &Point,
    limit: Option<u64>,
) -> Result<Found<Sequence<u64>>, NoMemory>
    requires subject { IsSubject subject.now }
    requires point { IsPoint subject.now.pair.now subject.now.bounds.now point.now }
    requires limit { IfSome limit (λ n. 0 < n) }
    ensures { IfOk result (IsFoundTape subject.now.pair.now subject.now.bounds.now point.now limit) }
{
    let mut terms = Terms::new(alloc);
    let mut order = Vec::new(alloc);
    let tape = tape_variables(alloc, subject.need, &mut terms, &mut order)?;
    let widths = widths_of(alloc, &terms, order.as_slice())?;
    let goal = covering(alloc, subject, point, &tape, &mut terms)?;
    let found = least_numbers(
        alloc,
        &terms,
        goal,
        order.as_slice(),
        widths.as_slice(),
        limit,
    )?;
    Ok(found)
}
