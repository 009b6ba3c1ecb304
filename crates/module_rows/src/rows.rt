//! The rows of two modules, each with the verdict of its own pair.

ghost use Rattle.std.specs.Prelude.{◌≡◌, ◌+◌, ◌*◌, ◌^◌, ◌<◌, ◌++◌, ◌∷◌, [], true, false, drop, take, length, slice_index_or, if◌then◌else◌, IfOk, IfSome, OnOk, Ok, Some, None};
ghost use Rattle.std.specs.List.{IsDistinct, AllByRecursion, list_any};
ghost use Rattle.ir_tree.specs.Names.{same_name};
ghost use Rattle.ir_reader.specs.Judgeable.{IsJudgeableEntry};
ghost use Rattle.lowering.specs.Lowered.{CanBeLowered};
ghost use Rattle.report.specs.Rows.{IsJudged, IsFinding, IsRow, AreSourceRows, AreRows, ends as ends_report, extra_rows, function_named};
ghost use Rattle.module_rows.specs.Judging.{AreAnswers, AreAnswersUpTo, HasNext, IsTaken, IsUnjudged, ShowsVerdict, judged_pairs, pairs_in, listed, verdicts_answered, verdicts_in, verdicts_of};
ghost use Rattle.module_rows.specs.Judging.{may_answer};
ghost use Rattle.module_rows.specs.Searching.{entry_names, function_found};

use crate::index::{find, names_of};
use ir_tree::{Entry, Module, Names, copy_name};
use pair_driver::{Gate, Judged, drive, drive_first, judge_all};
use pair_judge::{Real, answers_are_verdicts};
use points::{Bounds, copy_point};
use replay::replay;
use report::{Finding, Row, Side};
use std::alloc::Global;
use std::thread::Threads;
use support::NoMemory;
use verdicts::{Pair, Verdict, has_same_signature};

/// The rows of two modules, and the judge's answers, one for each row with a verdict, in order.
#[derive(Drop)]
pub struct Judgements {
    pub rows: Vec<Row>,
    pub answers: Vec<Judged>,
}

/// A row for each function of the source, and for each of the target that the source does not define.
/// The pairs are judged by `workers` workers.
pub fn all_rows<G: Gate, R: Threads + Sync>(
    rt: &R,
    alloc: Global,
    judge: &Real,
    gate: &G,
    source: &Module,
    target: &Module,
    workers: u64,
) -> Result<Judgements, NoMemory>
    requires some_worker { 0 < workers }
    requires fits { workers * (length source.now.entries + 1) < 2 ^ 64 }
    requires source_names { IsDistinct same_name (entry_names source.now.entries) }
    requires target_names { IsDistinct same_name (entry_names target.now.entries) }
    requires source_judgeable { AllByRecursion IsJudgeableEntry source.now.entries }
    requires target_judgeable { AllByRecursion IsJudgeableEntry target.now.entries }
    ensures rows { IfOk result (λ r. AreRows false (may_answer judge.now.bounds judge.now.budget) judge.now.bounds source.now target.now r.rows.items) }
    ensures answered { IfOk result (λ r. AreAnswers judge.now.bounds judge.now.budget (judged_pairs target.now.entries source.now.entries) r.answers.items) }
    ensures reported { IfOk result (λ r. verdicts_of r.rows.items ≡ verdicts_answered r.answers.items) }
{
    let pairing = paired(alloc, source, target)?;
    let answers = drive(rt, alloc, judge, gate, pairing.pairs.as_slice(), workers)?;
    let judgements = judgements_of(alloc, judge, source, target, &pairing.names, answers, false)?;
    Ok(judgements)
}

/// The rows up to and with the first incorrect one, or all where none is incorrect. The pairs are judged
/// by `workers` workers, each of which begins no pair after one that it knows to be incorrect; the answers
/// are those of the pairs whose rows there are.
pub fn first_rows<G: Gate, R: Threads + Sync>(
    rt: &R,
    alloc: Global,
    judge: &Real,
    gate: &G,
    source: &Module,
    target: &Module,
    workers: u64,
) -> Result<Judgements, NoMemory>
    requires some_worker { 0 < workers }
    requires fits { workers * (length source.now.entries + 1) < 2 ^ 64 }
    requires source_names { IsDistinct same_name (entry_names source.now.entries) }
    requires target_names { IsDistinct same_name (entry_names target.now.entries) }
    requires source_judgeable { AllByRecursion IsJudgeableEntry source.now.entries }
    requires target_judgeable { AllByRecursion IsJudgeableEntry target.now.entries }
    ensures rows { IfOk result (λ r. AreRows true (may_answer judge.now.bounds judge.now.budget) judge.now.bounds source.now target.now r.rows.items) }
    ensures answered { IfOk result (λ r. AreAnswers judge.now.bounds judge.now.budget (take (length r.answers.items) (judged_pairs target.now.entries source.now.entries)) r.answers.items) }
    ensures reported { IfOk result (λ r. verdicts_of r.rows.items ≡ verdicts_answered r.answers.items) }
{
    let pairing = paired(alloc, source, target)?;
    let answers = drive_first(rt, alloc, judge, gate, pairing.pairs.as_slice(), workers)?;
    let judgements = judgements_of(alloc, judge, source, target, &pairing.names, answers, true)?;
    Ok(judgements)
}

/// The same as [`all_rows`], the pairs judged one after the other on the caller's thread.
pub fn rows_in_turn(
    alloc: Global,
    judge: &Real,
    source: &Module,
    target: &Module,
) -> Result<Judgements, NoMemory>
    requires source_names { IsDistinct same_name (entry_names source.now.entries) }
    requires target_names { IsDistinct same_name (entry_names target.now.entries) }
    requires source_judgeable { AllByRecursion IsJudgeableEntry source.now.entries }
    requires target_judgeable { AllByRecursion IsJudgeableEntry target.now.entries }
    ensures rows { IfOk result (λ r. AreRows false (may_answer judge.now.bounds judge.now.budget) judge.now.bounds source.now target.now r.rows.items) }
    ensures answered { IfOk result (λ r. AreAnswers judge.now.bounds judge.now.budget (judged_pairs target.now.entries source.now.entries) r.answers.items) }
    ensures reported { IfOk result (λ r. verdicts_of r.rows.items ≡ verdicts_answered r.answers.items) }
{
    let pairing = paired(alloc, source, target)?;
    let answers = judge_all(alloc, judge, pairing.pairs.as_slice())?;
    let judgements = judgements_of(alloc, judge, source, target, &pairing.names, answers, false)?;
    Ok(judgements)
}

/// The names of the target's functions, and the pairs that are judged, in the order of the source's
/// functions.
#[derive(Drop)]
struct Pairing<'m> {
    names: Names,
    pairs: Vec<Pair<'m>>,
}

fn paired<'m>(
    alloc: Global,
    source: &'m Module,
    target: &'m Module,
) -> Result<Pairing<'m>, NoMemory>
    requires { IsDistinct same_name (entry_names target.now.entries) }
    ensures names { IfOk result (λ pairing. pairing.names ≡ entry_names target.now.entries) }
    ensures pairs { IfOk result (λ pairing. pairing.pairs.items ≡ judged_pairs target.now.entries source.now.entries) }
{
    let targets = target.entries.as_slice();
    let names = names_of(alloc, targets)?;
    let pairs = pairs_of(alloc, source.entries.as_slice(), targets, &names)?;
    Ok(Pairing { names, pairs })
}

/// The rows of two modules whose pairs have these answers, and the answers. They end at the first
/// incorrect row where `first` says so.
fn judgements_of(
    alloc: Global,
    judge: &Real,
    source: &Module,
    target: &Module,
    names: &Names,
    answers: Vec<Judged>,
    first: bool,
) -> Result<Judgements, NoMemory>
    requires names { names.now ≡ entry_names target.now.entries }
    requires source_names { IsDistinct same_name (entry_names source.now.entries) }
    requires source_judgeable { AllByRecursion IsJudgeableEntry source.now.entries }
    requires target_judgeable { AllByRecursion IsJudgeableEntry target.now.entries }
    requires answered { AreAnswersUpTo first judge.now.bounds judge.now.budget (judged_pairs target.now.entries source.now.entries) answers.items }
    ensures rows { IfOk result (λ r. AreRows first (may_answer judge.now.bounds judge.now.budget) judge.now.bounds source.now target.now r.rows.items) }
    ensures answers { IfOk result (λ r. r.answers.items ≡ answers.items) }
    ensures reported { IfOk result (λ r. verdicts_of r.rows.items ≡ verdicts_answered answers.items) }
{
    let sources = source.entries.as_slice();
    let targets = target.entries.as_slice();
    let mut rows = source_rows(
        alloc,
        judge,
        sources,
        targets,
        names,
        answers.as_slice(),
        first,
    )?;
    push_rest(alloc, &mut rows, sources, targets, first)?;
    Ok(Judgements { rows, answers })
}

/// The pairs that are judged, in the order of the source's functions.
fn pairs_of<'m>(
    alloc: Global,
    sources: &'m [Entry],
    targets: &'m [Entry],
    names: &Names,
) -> Result<Vec<Pair<'m>>, NoMemory>
    requires names { names.now ≡ entry_names targets.now }
    ensures { IfOk result (λ pairs. pairs.items ≡ judged_pairs targets.now sources.now) }
{
    let mut pairs = Vec::new(alloc);
    for source in sources {
        push_pair(&mut pairs, source, find(targets, names, &source.name))?;
    }
    Ok(pairs)
}

fn push_pair<'m>(
    pairs: &mut Vec<Pair<'m>>,
    source: &'m Entry,
    target: Option<&'m Entry>,
) -> Result<(), NoMemory>
    ensures { OnOk result (pairs.new.items ≡ pairs.old.items ++ pairs_in source.now.function (function_found target.entry)) }
{
    if let Some(pair) = pair_of(source, target) {
        pairs.push(pair)?;
    }
    Ok(())
}

/// The pair of a source function and the target's function of its name, where it is judged.
pub fn pair_of<'m>(source: &'m Entry, target: Option<&'m Entry>) -> Option<Pair<'m>>
    ensures pairs { pairs_in source.now.function (function_found target.entry) ≡ listed result }
    ensures source { IfSome result (λ pair. source.now.function ≡ Ok pair.source) }
    ensures target { IfSome result (λ pair. function_found target.entry ≡ Some (Ok pair.target)) }
{
    let Some(target) = target else {
        return None;
    };
    let Ok(f) = &source.function else {
        return None;
    };
    let Ok(g) = &target.function else {
        return None;
    };
    if !has_same_signature(f, g) {
        return None;
    }
    Some(Pair::new(f, g))
}

/// The rows of the source's functions, with the verdicts of the answers, which are those of their pairs.
/// They end at the first incorrect row where `first` says so.
fn source_rows(
    alloc: Global,
    judge: &Real,
    sources: &[Entry],
    targets: &[Entry],
    names: &Names,
    answers: &[Judged],
    first: bool,
) -> Result<Vec<Row>, NoMemory>
    requires names { names.now ≡ entry_names targets.now }
    requires source_judgeable { AllByRecursion IsJudgeableEntry sources.now }
    requires target_judgeable { AllByRecursion IsJudgeableEntry targets.now }
    requires answered { AreAnswersUpTo first judge.now.bounds judge.now.budget (judged_pairs targets.now sources.now) answers.now }
    ensures rows { IfOk result (λ rows. AreSourceRows first (may_answer judge.now.bounds judge.now.budget) judge.now.bounds targets.now sources.now rows.items) }
    ensures reported { IfOk result (λ rows. verdicts_of rows.items ≡ verdicts_answered answers.now) }
{
    let mut rows = Vec::new(alloc);
    let mut left = answers;
    for source in sources {
        let row = next_row(alloc, judge, source, targets, names, &mut left)?;
        let ended = ends(first, &row);
        rows.push(row)?;
        if ended {
            return Ok(rows);
        }
    }
    Ok(rows)
}

/// Whether a report ends at the row.
fn ends(first: bool, row: &Row) -> bool
    ensures { result ≡ ends_report first row.now }
{
    first && matches!(row.finding, Finding::Incorrect { .. })
}

/// The row of a function of the source. Where its pair is judged, the first of the answers that are left
/// is its own, and is taken from them.
pub fn next_row(
    alloc: Global,
    judge: &Real,
    source: &Entry,
    targets: &[Entry],
    names: &Names,
    left: &mut &[Judged],
) -> Result<Row, NoMemory>
    requires names { names.now ≡ entry_names targets.now }
    requires source_judgeable { IsJudgeableEntry source.now }
    requires target_judgeable { AllByRecursion IsJudgeableEntry targets.now }
    requires answered { HasNext judge.now.bounds judge.now.budget (pairs_in source.now.function (function_named targets.now source.now.name)) left.old.now }
    ensures row { IfOk result (IsRow (may_answer judge.now.bounds judge.now.budget) judge.now.bounds targets.now source.now) }
    ensures left { IfOk result (λ row. IsTaken (pairs_in source.now.function (function_named targets.now source.now.name)) (verdicts_in row.finding) left.old.now left.new.now) }
{
    let target = find(targets, names, &source.name);
    let finding = found_of(alloc, judge, source, target, left)?;
    let name = copy_name(alloc, &source.name)?;
    Ok(Row { name, finding })
}

fn found_of(
    alloc: Global,
    judge: &Real,
    source: &Entry,
    target: Option<&Entry>,
    left: &mut &[Judged],
) -> Result<Finding, NoMemory>
    requires source_judgeable { IsJudgeableEntry source.now }
    requires target_judgeable { IfSome target (λ e. IsJudgeableEntry e.now) }
    requires answered { HasNext judge.now.bounds judge.now.budget (pairs_in source.now.function (function_found target)) left.old.now }
    ensures found { IfOk result (IsFinding (may_answer judge.now.bounds judge.now.budget) judge.now.bounds source.now.function (function_found target.entry)) }
    ensures left { IfOk result (λ finding. IsTaken (pairs_in source.now.function (function_found target.entry)) (verdicts_in finding) left.old.now left.new.now) }
{
    let Some(pair) = pair_of(source, target) else {
        return Ok(unjudged(source, target));
    };
    judged(alloc, judge, &pair, left)
}

/// What is found of a function whose pair is not judged.
fn unjudged(source: &Entry, target: Option<&Entry>) -> Finding
    ensures { IsUnjudged source.now.function (function_found target.entry) result }
{
    let Some(target) = target else {
        return Finding::Missing;
    };
    if let Err(refused) = &source.function {
        return Finding::Refused {
            side: Side::Source,
            refused: *refused,
        };
    }
    match &target.function {
        Ok(_) => Finding::Signature,
        Err(refused) => Finding::Refused {
            side: Side::Target,
            refused: *refused,
        },
    }
}

/// What is found of a pair: the verdict of the next answer, which is its own.
fn judged(
    alloc: Global,
    judge: &Real,
    pair: &Pair,
    left: &mut &[Judged],
) -> Result<Finding, NoMemory>
    requires source { CanBeLowered pair.now.source }
    requires target { CanBeLowered pair.now.target }
    requires answered { HasNext judge.now.bounds judge.now.budget (pair.now ∷ []) left.old.now }
    ensures found { IfOk result (IsJudged (may_answer judge.now.bounds judge.now.budget) judge.now.bounds pair.now) }
    ensures left { IfOk result (λ finding. IsTaken (pair.now ∷ []) (verdicts_in finding) left.old.now left.new.now) }
{
    // The law that what the judge answers is what a row may report; it does nothing.
    answers_are_verdicts();
    let answer = &left[0];
    let finding = finding_of(alloc, pair, &judge.bounds, &answer.verdict)?;
    *left = &left[1..];
    Ok(finding)
}

/// The finding of a verdict, with what a counterexample shows.
fn finding_of(
    alloc: Global,
    pair: &Pair,
    bounds: &Bounds,
    verdict: &Verdict,
) -> Result<Finding, NoMemory>
    requires source { CanBeLowered pair.now.source }
    requires target { CanBeLowered pair.now.target }
    ensures { IfOk result (ShowsVerdict pair.now bounds.now verdict.now) }
{
    match verdict {
        Verdict::Correct => Ok(Finding::Correct),
        Verdict::Incorrect(point) => {
            let shown = replay(alloc, pair, bounds, point)?;
            let point = copy_point(alloc, point)?;
            Ok(Finding::Incorrect { point, shown })
        }
        Verdict::Unknown(cause) => Ok(Finding::Unknown(*cause)),
    }
}

/// Adds the rows of the functions that only the target has, unless a row ends the report.
fn push_rest(
    alloc: Global,
    rows: &mut Vec<Row>,
    sources: &[Entry],
    targets: &[Entry],
    first: bool,
) -> Result<(), NoMemory>
    requires { IsDistinct same_name (entry_names sources.now) }
    ensures { OnOk result (rows.new.items ≡ rows.old.items ++ (if list_any (ends_report first) rows.old.items then [] else extra_rows sources.now targets.now)) }
{
    if has_ended(first, rows.as_slice()) {
        return Ok(());
    }
    push_extra_rows(alloc, rows, sources, targets)
}

/// Whether a report ends at one of the rows.
fn has_ended(first: bool, rows: &[Row]) -> bool
    ensures { result ≡ list_any (ends_report first) rows.now }
{
    for row in rows {
        if ends(first, row) {
            return true;
        }
    }
    false
}

fn push_extra_rows(
    alloc: Global,
    rows: &mut Vec<Row>,
    sources: &[Entry],
    targets: &[Entry],
) -> Result<(), NoMemory>
    requires { IsDistinct same_name (entry_names sources.now) }
    ensures { OnOk result (rows.new.items ≡ rows.old.items ++ extra_rows sources.now targets.now) }
{
    let names = names_of(alloc, sources)?;
    for target in targets {
        if find(sources, &names, &target.name).is_none() {
            let name = copy_name(alloc, &target.name)?;
            rows.push(Row {
                name,
                finding: Finding::Extra,
            })?;
        }
    }
    Ok(())
}
