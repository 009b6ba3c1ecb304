//! The check of two texts, on the caller's thread.

ghost use Rattle.std.specs.Prelude.{◌≡◌, ◌≢◌, ◌<◌, ◌≤◌, ◌⊎◌, codes, IfOk, IfErr};
ghost use Rattle.points.specs.Range.{AreInRange};
ghost use Rattle.module_files.specs.Reading.{StopsAtTexts};
ghost use Rattle.module_files.specs.Stops.{stop_status};
ghost use Rattle.tv_run.specs.Reports.{IsTheDefinedReport, Reports};
ghost use Rattle.tv_run.specs.Sound.{SaysRefinement};
ghost use Rattle.tv_run.specs.Texts.{AreModuleTexts, OfTexts, RefusesTexts, stop_line};

use crate::check::{Report, report_in_turn};
use crate::laws::{file_reports_are_defined, file_reports_are_sound};
use crate::line_sink::LineSink;
use ir_reader::is_one_module;
use module_files::{Stop, read_texts, refuse};
use points::{Bounds, Budget};
use std::alloc::Global;
use support::NoMemory;
use tv_cli::Check;

/// What a check of two texts gives: its status, and what it writes.
#[derive(Drop)]
pub struct CheckedTexts {
    pub status: u8,
    pub written: Vec<u8>,
}

/// What `tv check source target` writes within these bounds and this budget, and its status, where the
/// file `source` holds the one text and the file `target` the other. The pairs are judged one after the
/// other on the caller's thread.
///
/// The status is 0 to 3 for a report, 6 where a text has more than 16,777,216 bytes, and 9 where it is no
/// module. The only error is out of memory.
pub fn check_texts(
    alloc: Global,
    source: &[u8],
    target: &[u8],
    bounds: &Bounds,
    budget: &Budget,
) -> Result<CheckedTexts, NoMemory>
    requires in_range { AreInRange bounds.now budget.now }
    // It is what each check of files with these texts says: a row `correct` means that on every input
    // within the bounds each run of the target is allowed by a run of the source, a row `incorrect`
    // gives a counterexample, and each pair of functions has its row.
    ensures sound { IfOk result (λ checked. checked.status ≤ 3
        → OfTexts source.now target.now bounds.now budget.now
        (λ files c. SaysRefinement files c checked.written.items checked.status)) }
    // Without a limit on conflicts it is the defined report, the only one.
    ensures defined { IfOk result (λ checked. checked.status ≤ 3 → budget.now.conflicts ≡ 0
        → OfTexts source.now target.now bounds.now budget.now
        (λ files c. IsTheDefinedReport files c checked.written.items checked.status)) }
    // Two texts that are modules are judged.
    ensures complete { IfOk result (λ checked. AreModuleTexts source.now target.now
        → checked.status ≤ 3) }
    // Two other texts are not: the first cause, with its line and its status.
    ensures refused { IfOk result (λ checked. 3 < checked.status
        → RefusesTexts source.now target.now checked.status checked.written.items) }
    // There is no other status: 6 where a text is too long, 9 where it is no module.
    ensures known { IfOk result (λ checked. (checked.status ≤ 3)
        ⊎ (checked.status ≡ 6) ⊎ (checked.status ≡ 9)) }
{
    // The laws that `sound`, `defined` and `complete` rest on; they do nothing.
    file_reports_are_sound();
    file_reports_are_defined();
    is_one_module();
    match report_of_texts(alloc, source, target, bounds, budget) {
        Ok(report) => Ok(CheckedTexts {
            status: report.status,
            written: report.text,
        }),
        Err(stop) => stopped(alloc, stop),
    }
}

/// The report of two texts, or why there is none.
fn report_of_texts(
    alloc: Global,
    source: &[u8],
    target: &[u8],
    bounds: &Bounds,
    budget: &Budget,
) -> Result<Report, Stop>
    requires in_range { AreInRange bounds.now budget.now }
    ensures reports { IfOk result (λ r. OfTexts source.now target.now bounds.now budget.now
        (λ files c. Reports files c r.answers.items r.text.items r.status)) }
    ensures known { IfOk result (λ r. r.status ≤ 3) }
    ensures cause { IfErr result (StopsAtTexts source.now target.now) }
{
    let both = read_texts(alloc, source, target)?;
    let check = Check {
        source: "source",
        target: "target",
        bounds: *bounds,
        budget: *budget,
        workers: 1,
        proof: None,
        first: false,
    };
    let report = report_in_turn(alloc, &check, &both.source, &both.target)?;
    Ok(report)
}

/// The line of a text that is not judged, and its status.
fn stopped(alloc: Global, stop: Stop) -> Result<CheckedTexts, NoMemory>
    ensures status { IfOk result (λ checked. checked.status ≡ stop_status stop) }
    ensures fits { IfOk result (λ checked. checked.status ≢ 8) }
    ensures line { IfOk result (λ checked. checked.written.items ≡ stop_line (codes "source") (codes "target") stop) }
{
    let mut out = LineSink::new(alloc);
    let status = refuse(&mut out, stop, "source", "target");
    if status == 8 {
        return Err(NoMemory);
    }
    let written = out.finish()?;
    Ok(CheckedTexts { status, written })
}
