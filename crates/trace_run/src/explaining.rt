//! What is written of a function.

ghost use Rattle.std.specs.Prelude.{◌≡◌, ◌≤◌, IfOk};
ghost use Rattle.std.specs.List.{IsDistinct, AllByRecursion};
ghost use Rattle.ir_tree.specs.Names.{same_name};
ghost use Rattle.ir_reader.specs.Judgeable.{IsJudgeableEntry};
ghost use Rattle.module_rows.specs.Searching.{entry_names};
ghost use Rattle.trace_run.specs.Explanations.{AreRuns, AreRunsOf, CanBeExplained, CanExplain, IsExplanation};

use ir_tree::{Entry, Module};
use module_rows::{OneRow, row_of};
use pair_judge::Real;
use pair_trace::{difference_of, trace_pair};
use points::{Bounds, Point};
use report::{Finding, push_row, status_of};
use std::alloc::Global;
use support::NoMemory;
use trace_text::text_of;
use verdicts::{Pair, incorrect_fails};

/// What is written of a function, and the status that goes with it.
#[derive(Drop)]
pub struct Explanation {
    pub text: Vec<u8>,
    pub status: u8,
    ghost known: { status ≤ 3 },
}

/// The row of a function of the source, and where that is incorrect the runs of both sides.
pub fn explanation_of(
    alloc: Global,
    judge: &Real,
    source: &Entry,
    target: &Module,
) -> Result<Explanation, NoMemory>
    requires target_names { IsDistinct same_name (entry_names target.now.entries) }
    requires source_judgeable { IsJudgeableEntry source.now }
    requires target_judgeable { AllByRecursion IsJudgeableEntry target.now.entries }
    ensures { IfOk result (λ e. IsExplanation judge.now.bounds judge.now.budget target.now.entries source.now e.text.items e.status) }
{
    // The law that no run of the source allows what an incorrect row shows; it does nothing.
    incorrect_fails();
    let OneRow { row, pair } = row_of(alloc, judge, source, target)?;
    let runs = runs_of(alloc, &judge.bounds, &row.finding, &pair)?;
    let mut text = Vec::new(alloc);
    push_row(alloc, &mut text, &row)?;
    text.extend_from_slice(runs.as_slice())?;
    let mut rows = Vec::new(alloc);
    rows.push(row)?;
    Ok(Explanation {
        text,
        status: status_of(rows.as_slice()),
    })
}

/// The runs of the pair at the point of an incorrect finding; nothing of another.
fn runs_of(
    alloc: Global,
    bounds: &Bounds,
    finding: &Finding,
    pair: &Option<Pair<'_>>,
) -> Result<Vec<u8>, NoMemory>
    requires { CanExplain bounds.now finding.now pair.now }
    ensures { IfOk result (λ text. AreRunsOf bounds.now finding.now pair.now text.items) }
{
    let Finding::Incorrect { point, .. } = finding else {
        return Ok(Vec::new(alloc));
    };
    let Some(pair) = pair else {
        unreachable!();
    };
    runs_at(alloc, pair, bounds, point)
}

/// The runs of a pair at a point whose target's outcome the source's does not allow, and how the
/// outcomes differ.
pub fn runs_at(
    alloc: Global,
    pair: &Pair<'_>,
    bounds: &Bounds,
    point: &Point,
) -> Result<Vec<u8>, NoMemory>
    requires { CanBeExplained pair.now bounds.now point.now }
    ensures { IfOk result (λ text. AreRuns pair.now bounds.now point.now text.items) }
{
    let traces = trace_pair(alloc, pair, bounds, point)?;
    let difference = difference_of(&traces.source.outcome, &traces.target.outcome);
    let Some(difference) = difference else {
        unreachable!();
    };
    text_of(alloc, pair, &traces, difference)
}
