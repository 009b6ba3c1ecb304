//! What a report shows of a function.

ghost use Rattle.std.specs.Prelude.{◌≡◌, IfOk, IfSome};
ghost use Rattle.std.specs.List.{IsDistinct, AllByRecursion};
ghost use Rattle.ir_tree.specs.Names.{same_name};
ghost use Rattle.ir_reader.specs.Judgeable.{IsJudgeableEntry};
ghost use Rattle.lowering.specs.Lowered.{CanBeLowered};
ghost use Rattle.verdicts.specs.Laws.{IsWithin};
ghost use Rattle.module_rows.specs.Searching.{entry_names};
ghost use Rattle.trace_run.specs.Reported.{IsShownAt, IsShownBy, ShowsPoint};

use crate::explaining::{Explanation, runs_at};
use ir_naming::push_name;
use ir_tree::{Entry, Module, Name, copy_name};
use module_rows::pair_named;
use points::{Bounds, Layout, Point, copy_point, refines};
use replay::replay;
use report::{Finding, Row, push_row};
use row_points::{begins_with_row, point_in, row_from};
use std::alloc::Global;
use support::NoMemory;
use verdicts::Pair;

/// The first line of the incorrect row of a function.
fn row_line(alloc: Global, name: &Name) -> Result<Vec<u8>, NoMemory> {
    let mut line = Vec::from_slice(alloc, b"@")?;
    push_name(&mut line, name)?;
    line.extend_from_slice(b" incorrect\n")?;
    Ok(line)
}

/// The point of a row, where its input is one of the pair within the bounds.
fn point_of(
    alloc: Global,
    row: &[u8],
    pair: &Pair<'_>,
    bounds: &Bounds,
) -> Result<Option<Point>, NoMemory>
    ensures { IfOk result (λ found. IfSome found (λ point. IsWithin pair.now bounds.now point.input)) }
{
    let layout = Layout {
        blocks: bounds.blocks,
        bytes: bounds.bytes,
    };
    let point = point_in(alloc, row, pair.target().parameters.as_slice(), &layout)?;
    Ok(point)
}

/// The incorrect row with what a point shows. `None` where the source's run on the tape of zeros
/// allows the target's.
fn row_at(
    alloc: Global,
    name: &Name,
    pair: &Pair<'_>,
    bounds: &Bounds,
    point: &Point,
) -> Result<Option<Row>, NoMemory>
    requires source { CanBeLowered pair.now.source }
    requires target { CanBeLowered pair.now.target }
    ensures { IfOk result (λ found. IfSome found (ShowsPoint pair.now bounds.now point.now name.now)) }
{
    let shown = replay(alloc, pair, bounds, point)?;
    if refines(&shown.source, &shown.target) {
        return Ok(None);
    }
    let name = copy_name(alloc, name)?;
    let point = copy_point(alloc, point)?;
    Ok(Some(Row {
        name,
        finding: Finding::Incorrect { point, shown },
    }))
}

/// The incorrect row with what a point shows, and the runs there, where `rest` begins with that row.
fn shown_at(
    alloc: Global,
    rest: &[u8],
    name: &Name,
    pair: &Pair<'_>,
    bounds: &Bounds,
    point: &Point,
) -> Result<Option<Explanation>, NoMemory>
    requires source { CanBeLowered pair.now.source }
    requires target { CanBeLowered pair.now.target }
    ensures { IfOk result (λ found. IfSome found (λ e. IsShownAt pair.now bounds.now point.now name.now rest.now e.text.items e.status)) }
{
    let Some(row) = row_at(alloc, name, pair, bounds, point)? else {
        return Ok(None);
    };
    let mut text = Vec::new(alloc);
    push_row(alloc, &mut text, &row)?;
    if !begins_with_row(rest, text.as_slice()) {
        return Ok(None);
    }
    let runs = runs_at(alloc, pair, bounds, point)?;
    text.extend_from_slice(runs.as_slice())?;
    Ok(Some(Explanation { text, status: 1 }))
}

/// What the report shows of a function of the source: the first incorrect row of its name, and the runs
/// at the point of that row. `None` where there is no such row, or where it is not what the runs show.
/// Nothing is judged: that no other choices of the source allow what the target does is what the report
/// says.
///
/// # Errors
/// Only out of memory.
pub fn shown_by(
    alloc: Global,
    report: &[u8],
    bounds: &Bounds,
    source: &Entry,
    target: &Module,
) -> Result<Option<Explanation>, NoMemory>
    requires target_names { IsDistinct same_name (entry_names target.now.entries) }
    requires source_judgeable { IsJudgeableEntry source.now }
    requires target_judgeable { AllByRecursion IsJudgeableEntry target.now.entries }
    ensures { IfOk result (λ found. IfSome found (λ e. IsShownBy report.now bounds.now target.now.entries source.now e.text.items e.status)) }
{
    let Some(pair) = pair_named(alloc, source, target)? else {
        return Ok(None);
    };
    let line = row_line(alloc, &source.name)?;
    let Some(rest) = row_from(report, line.as_slice()) else {
        return Ok(None);
    };
    let Some(point) = point_of(alloc, rest, &pair, bounds)? else {
        return Ok(None);
    };
    let shown = shown_at(alloc, rest, &source.name, &pair, bounds, &point)?;
    Ok(shown)
}
