//! The job `check`: two files to a report; and the report of two modules without a thread.

ghost use Rattle.std.specs.Prelude.{◌≡◌, ◌+◌, ◌*◌, ◌^◌, ◌<◌, ◌≤◌, false, All, length, map, take, IfOk, IfErr, OnOk};
ghost use Rattle.std.specs.List.{filter_map};
ghost use Rattle.tv_io.specs.State.{ShelfState};
ghost use Rattle.points.specs.Range.{AreInRange};
ghost use Rattle.report.specs.Rows.{AreRows};
ghost use Rattle.module_rows.specs.Judging.{AreAnswers, judged_pairs, may_answer, verdicts_answered, verdicts_of};
ghost use Rattle.proof_text.specs.Format.{IsHead};
ghost use Rattle.proof_files.specs.Parts.{IsCertified, IsReadName, parts_of};
ghost use Rattle.tv_cli.specs.Seen.{seen_check};
ghost use Rattle.tv_run.specs.Files.{WhereKnown};
ghost use Rattle.tv_run.specs.Reports.{head_of as head_said, part_heading, row_heading};
ghost use Rattle.tv_run.specs.Stops.{HasCause};
ghost use Rattle.tv_run.specs.Answers.{CountsStop, HasReport, IsProofAsked, IsReportOf, IsReportOn, IsJudgeableModule};

use ir_tree::Module;
use module_files::{Stop, give_back, read_both_beside};
use module_rows::{Judgements, all_rows, first_rows, rows_in_turn};
use pair_driver::{Gate, Judged};
use pair_judge::Real;
use points::{Bounds, Budget};
use proof_files::proof_of;
use proof_text::Head;
use report::{Row, status_of, text_of};
use std::alloc::Global;
use std::thread::Threads;
use support::NoMemory;
use tv_cli::Check;
use tv_io::Shelf;

/// The text of a report, its status, the judge's answers, and the text of the proof file where one is
/// asked for.
#[derive(Drop)]
pub struct Report {
    pub text: Vec<u8>,
    pub status: u8,
    pub answers: Vec<Judged>,
    pub proof: Option<Vec<u8>>,
    ghost known: { status ≤ 3 },
}

/// The report of the files that a check names, or why there is none.
pub fn report_of<S: Shelf, G: Gate, R: Threads + Sync>(
    rt: &R,
    alloc: Global,
    shelf: &mut S,
    gate: &G,
    check: &Check<'_>,
) -> Result<Report, Stop>
    requires in_range { AreInRange check.now.bounds check.now.budget }
    requires workers { (1 ≤ check.now.workers) × (check.now.workers ≤ 64) }
    ensures reports { IfOk result (λ r. WhereKnown (S.state shelf.old).files (λ files. HasReport files (seen_check check.now) r.answers.items r.text.items r.status r.proof)) }
    ensures cause { IfErr result (HasCause (S.state shelf.old) (S.state shelf.new) (seen_check check.now)) }
    ensures quiet { OnOk result ((S.state shelf.new).fetch_faults ≡ (S.state shelf.old).fetch_faults) }
    ensures counted { IfErr result (λ stop. CountsStop stop (S.state shelf.old) (S.state shelf.new)) }
    ensures put_faults { (S.state shelf.new).put_faults ≡ (S.state shelf.old).put_faults }
    ensures same { (S.state shelf.new).files ≡ (S.state shelf.old).files }
{
    let both = read_both_beside(rt, alloc, shelf, check.source, check.target, check.workers)?;
    let report = report_of_modules(rt, alloc, check, gate, &both.source, &both.target)?;
    give_back(rt, both, check.workers);
    Ok(report)
}

fn report_of_modules<G: Gate, R: Threads + Sync>(
    rt: &R,
    alloc: Global,
    check: &Check<'_>,
    gate: &G,
    source: &Module,
    target: &Module,
) -> Result<Report, NoMemory>
    requires in_range { AreInRange check.now.bounds check.now.budget }
    requires some_worker { 0 < check.now.workers }
    requires fits { check.now.workers * (length source.now.entries + 1) < 2 ^ 64 }
    requires source_is { IsJudgeableModule source.now }
    requires target_is { IsJudgeableModule target.now }
    ensures { IfOk result (λ r. IsReportOf (seen_check check.now) source.now target.now r.answers.items r.text.items r.status r.proof) }
{
    let judgements = judged_rows(rt, alloc, check, gate, source, target)?;
    let report = report_on(alloc, check, judgements)?;
    Ok(report)
}

/// The rows that a check asks for: all, or those up to the first incorrect one.
fn judged_rows<G: Gate, R: Threads + Sync>(
    rt: &R,
    alloc: Global,
    check: &Check<'_>,
    gate: &G,
    source: &Module,
    target: &Module,
) -> Result<Judgements, NoMemory>
    requires in_range { AreInRange check.now.bounds check.now.budget }
    requires some_worker { 0 < check.now.workers }
    requires fits { check.now.workers * (length source.now.entries + 1) < 2 ^ 64 }
    requires source_is { IsJudgeableModule source.now }
    requires target_is { IsJudgeableModule target.now }
    ensures rows { IfOk result (λ r. AreRows check.now.first (may_answer check.now.bounds check.now.budget) check.now.bounds source.now target.now r.rows.items) }
    ensures answered { IfOk result (λ r. AreAnswers check.now.bounds check.now.budget (take (length r.answers.items) (judged_pairs target.now.entries source.now.entries)) r.answers.items) }
    ensures reported { IfOk result (λ r. verdicts_of r.rows.items ≡ verdicts_answered r.answers.items) }
{
    let judge = Real {
        bounds: check.bounds,
        budget: check.budget,
    };
    if check.first {
        first_rows(rt, alloc, &judge, gate, source, target, check.workers)
    } else {
        all_rows(rt, alloc, &judge, gate, source, target, check.workers)
    }
}

/// The report of two modules, whose pairs are all judged, one after the other on the caller's thread,
/// however many workers are asked for.
pub fn report_in_turn(
    alloc: Global,
    check: &Check<'_>,
    source: &Module,
    target: &Module,
) -> Result<Report, NoMemory>
    requires in_range { AreInRange check.now.bounds check.now.budget }
    requires whole { check.now.first ≡ false }
    requires source_is { IsJudgeableModule source.now }
    requires target_is { IsJudgeableModule target.now }
    ensures { IfOk result (λ r. IsReportOf (seen_check check.now) source.now target.now r.answers.items r.text.items r.status r.proof) }
{
    let bounds = check.bounds;
    let budget = check.budget;
    let judge = Real { bounds, budget };
    let judgements = rows_in_turn(alloc, &judge, source, target)?;
    let report = report_on(alloc, check, judgements)?;
    Ok(report)
}

/// The report of rows, with the judge's answers.
fn report_on(alloc: Global, check: &Check<'_>, judgements: Judgements) -> Result<Report, NoMemory>
    requires in_range { AreInRange check.now.bounds check.now.budget }
    requires names { All (λ row. IsReadName row.name) judgements.rows.items }
    requires certified { All IsCertified (parts_of judgements.rows.items judgements.answers.items) }
    requires each { map part_heading (parts_of judgements.rows.items judgements.answers.items) ≡ filter_map row_heading judgements.rows.items }
    ensures { IfOk result (λ r. IsReportOn (seen_check check.now) judgements.rows.items judgements.answers.items r.answers.items r.text.items r.status r.proof) }
{
    let Judgements { rows, answers } = judgements;
    let proof = proof_asked(alloc, check, rows.as_slice(), answers.as_slice())?;
    let status = status_of(rows.as_slice());
    let text = text_of(
        alloc,
        rows.as_slice(),
        &check.bounds,
        &check.budget,
        check.first,
    )?;
    Ok(Report {
        text,
        status,
        answers,
        proof,
    })
}

/// The text of the proof file, where one is asked for.
fn proof_asked(
    alloc: Global,
    check: &Check<'_>,
    rows: &[Row],
    answers: &[Judged],
) -> Result<Option<Vec<u8>>, NoMemory>
    requires in_range { AreInRange check.now.bounds check.now.budget }
    requires names { All (λ row. IsReadName row.name) rows.now }
    requires certified { All IsCertified (parts_of rows.now answers.now) }
    requires each { map part_heading (parts_of rows.now answers.now) ≡ filter_map row_heading rows.now }
    ensures { IfOk result (IsProofAsked (seen_check check.now).proof check.now.bounds check.now.budget rows.now answers.now) }
{
    if check.proof.is_none() {
        return Ok(None);
    }
    let head = head_of(&check.bounds, &check.budget);
    let text = proof_of(alloc, &head, rows, answers)?;
    Ok(Some(text))
}

/// The bounds and the budget, as a proof file says them.
fn head_of(bounds: &Bounds, budget: &Budget) -> Head
    requires { AreInRange bounds.now budget.now }
    ensures value { result ≡ head_said bounds.now budget.now }
    ensures small { IsHead result }
{
    Head {
        turns: bounds.turns,
        blocks: bounds.blocks,
        bytes: bounds.bytes,
        rounds: budget.rounds,
        conflicts: budget.conflicts,
        weight: budget.weight,
    }
}
