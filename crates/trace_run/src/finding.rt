//! What is found of a request.

ghost use Rattle.std.specs.Prelude.{◌≡◌, ◌≤◌, IfOk, IfErr, OnOk};
ghost use Rattle.std.specs.List.{IsDistinct, AllByRecursion};
ghost use Rattle.tv_io.specs.State.{ShelfState};
ghost use Rattle.ir_tree.specs.Names.{same_name};
ghost use Rattle.ir_reader.specs.Judgeable.{IsJudgeableEntry};
ghost use Rattle.points.specs.Range.{AreInRange};
ghost use Rattle.module_files.specs.Files.{WhereKnown};
ghost use Rattle.module_rows.specs.Searching.{entry_names};
ghost use Rattle.trace_cli.specs.Seen.{seen};
ghost use Rattle.trace_run.specs.Halts.{CountsHalt, HaltsAt, HasReport, report_in};
ghost use Rattle.trace_run.specs.Reported.{IsAnswered};
ghost use Rattle.trace_run.specs.Requests.{AreJudgeable, IsFound, IsFoundIn, bytes_of};

use crate::explaining::{Explanation, explanation_of};
use crate::halt::Halt;
use crate::named::entry_named;
use crate::reported::shown_by;
use ir_tree::{Entry, Module};
use module_files::{LoadFault, Modules, load, read_both};
use pair_judge::Real;
use std::alloc::Global;
use support::NoMemory;
use trace_cli::Request;
use tv_io::Shelf;

/// The explanation that is asked for, or `None` where the source has no function of the name.
pub fn found_of<S: Shelf>(
    alloc: Global,
    shelf: &mut S,
    request: &Request<'_>,
) -> Result<Option<Explanation>, Halt>
    requires { AreInRange request.now.bounds request.now.budget }
    ensures found { IfOk result (λ found. WhereKnown (S.state shelf.old).files (λ files. IsFound files (seen request.now) found)) }
    ensures cause { IfErr result (HaltsAt (seen request.now) (S.state shelf.old) (S.state shelf.new)) }
    ensures quiet { OnOk result ((S.state shelf.new).fetch_faults ≡ (S.state shelf.old).fetch_faults) }
    ensures counted { IfErr result (λ halt. CountsHalt halt (S.state shelf.old) (S.state shelf.new)) }
    ensures put_faults { (S.state shelf.new).put_faults ≡ (S.state shelf.old).put_faults }
    ensures same { (S.state shelf.new).files ≡ (S.state shelf.old).files }
{
    let report = report_of(alloc, shelf, request)?;
    let both = read_both(alloc, shelf, request.source, request.target)?;
    let found = found_in(alloc, request, &report, &both)?;
    Ok(found)
}

/// The report that is named, if one is.
fn report_of<S: Shelf>(
    alloc: Global,
    shelf: &mut S,
    request: &Request<'_>,
) -> Result<Option<Vec<u8>>, Halt>
    ensures report { IfOk result (λ report. WhereKnown (S.state shelf.old).files (λ files. bytes_of report ≡ report_in files (seen request.now).report)) }
    ensures read { OnOk result (HasReport (seen request.now).report (S.state shelf.old).files) }
    ensures cause { IfErr result (HaltsAt (seen request.now) (S.state shelf.old) (S.state shelf.new)) }
    ensures quiet { OnOk result ((S.state shelf.new).fetch_faults ≡ (S.state shelf.old).fetch_faults) }
    ensures counted { IfErr result (λ halt. CountsHalt halt (S.state shelf.old) (S.state shelf.new)) }
    ensures same { (S.state shelf.new).files ≡ (S.state shelf.old).files }
    ensures same_fails { (S.state shelf.new).may_fail ≡ (S.state shelf.old).may_fail }
    ensures put_faults { (S.state shelf.new).put_faults ≡ (S.state shelf.old).put_faults }
    ensures bytes_taken_stay { (S.state shelf.old).bytes_taken ≤ (S.state shelf.new).bytes_taken }
{
    let Some(name) = request.report else {
        return Ok(None);
    };
    match load(alloc, shelf, name) {
        Ok(text) => Ok(Some(text)),
        Err(LoadFault::Trouble(trouble)) => Err(Halt::Report(trouble)),
        Err(LoadFault::NoMemory) => Err(Halt::NoMemory),
    }
}

fn found_in(
    alloc: Global,
    request: &Request<'_>,
    report: &Option<Vec<u8>>,
    both: &Modules,
) -> Result<Option<Explanation>, NoMemory>
    requires in_range { AreInRange request.now.bounds request.now.budget }
    requires judgeable { AreJudgeable both.now }
    ensures { IfOk result (λ found. IsFoundIn (seen request.now) (bytes_of report.now) both.now found) }
{
    let judge = Real {
        bounds: request.bounds,
        budget: request.budget,
    };
    let entries = both.source.entries.as_slice();
    let Some(entry) = entry_named(alloc, entries, request.function.as_bytes())? else {
        return Ok(None);
    };
    let explanation = answer_of(alloc, &judge, report, entry, &both.target)?;
    Ok(Some(explanation))
}

/// What is written of a function of the source: what the report shows of it, where there is a report
/// that shows it, else its row by the judge and the runs.
fn answer_of(
    alloc: Global,
    judge: &Real,
    report: &Option<Vec<u8>>,
    source: &Entry,
    target: &Module,
) -> Result<Explanation, NoMemory>
    requires target_names { IsDistinct same_name (entry_names target.now.entries) }
    requires source_judgeable { IsJudgeableEntry source.now }
    requires target_judgeable { AllByRecursion IsJudgeableEntry target.now.entries }
    ensures { IfOk result (λ e. IsAnswered judge.now.bounds judge.now.budget (bytes_of report.now) target.now.entries source.now e.text.items e.status) }
{
    if let Some(report) = report {
        let shown = shown_by(alloc, report.as_slice(), &judge.bounds, source, target)?;
        if let Some(shown) = shown {
            return Ok(shown);
        }
    }
    let explanation = explanation_of(alloc, judge, source, target)?;
    Ok(explanation)
}
