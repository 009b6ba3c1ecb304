//! The row of one function.

ghost use Rattle.std.specs.Prelude.{◌≡◌, IfOk, IfSome, Ok, Some};
ghost use Rattle.std.specs.List.{IsDistinct, AllByRecursion};
ghost use Rattle.ir_tree.specs.Names.{same_name};
ghost use Rattle.ir_reader.specs.Judgeable.{IsJudgeableEntry};
ghost use Rattle.pair_judge.specs.Answers.{CanBeJudged};
ghost use Rattle.lowering.specs.Lowered.{CanBeLowered};
ghost use Rattle.report.specs.Rows.{IsRow, function_named};
ghost use Rattle.module_rows.specs.Judging.{HasNext, listed, may_answer, pairs_in};
ghost use Rattle.module_rows.specs.Searching.{entry_names};

use crate::index::{find, names_of};
use crate::rows::{next_row, pair_of};
use ir_tree::{Entry, Module};
use pair_driver::{Judge, Judged};
use pair_judge::Real;
use report::Row;
use std::alloc::Global;
use support::NoMemory;
use verdicts::Pair;

/// The row of a function of the source, and the pair that was judged for it, if one was.
#[derive(Drop)]
pub struct OneRow<'m> {
    pub row: Row,
    pub pair: Option<Pair<'m>>,
}

/// The row of one function of the source. No other function is judged.
///
/// # Errors
/// Only out of memory.
pub fn row_of<'m>(
    alloc: Global,
    judge: &Real,
    source: &'m Entry,
    target: &'m Module,
) -> Result<OneRow<'m>, NoMemory>
    requires target_names { IsDistinct same_name (entry_names target.now.entries) }
    requires source_judgeable { IsJudgeableEntry source.now }
    requires target_judgeable { AllByRecursion IsJudgeableEntry target.now.entries }
    ensures row { IfOk result (λ one. IsRow (may_answer judge.now.bounds judge.now.budget) judge.now.bounds target.now.entries source.now one.row) }
    ensures pair { IfOk result (λ one. pairs_in source.now.function (function_named target.now.entries source.now.name) ≡ listed one.pair) }
{
    let targets = target.entries.as_slice();
    let names = names_of(alloc, targets)?;
    let pair = pair_of(source, find(targets, &names, &source.name));
    let answers = answers_on(alloc, judge, &pair)?;
    let mut left = answers.as_slice();
    let row = next_row(alloc, judge, source, targets, &names, &mut left)?;
    Ok(OneRow { row, pair })
}

/// The pair of a function of the source and the target's function of its name, where it is judged.
///
/// # Errors
/// Only out of memory.
pub fn pair_named<'m>(
    alloc: Global,
    source: &'m Entry,
    target: &'m Module,
) -> Result<Option<Pair<'m>>, NoMemory>
    requires target_names { IsDistinct same_name (entry_names target.now.entries) }
    requires source_judgeable { IsJudgeableEntry source.now }
    requires target_judgeable { AllByRecursion IsJudgeableEntry target.now.entries }
    ensures pair { IfOk result (λ pair. pairs_in source.now.function (function_named target.now.entries source.now.name) ≡ listed pair) }
    ensures runnable { IfOk result (λ pair. IfSome pair (λ p. CanBeLowered p.source × CanBeLowered p.target)) }
{
    let targets = target.entries.as_slice();
    let names = names_of(alloc, targets)?;
    let pair = pair_of(source, find(targets, &names, &source.name));
    Ok(pair)
}

/// The judge's answer on a pair, where there is one.
fn answers_on(alloc: Global, judge: &Real, pair: &Option<Pair<'_>>) -> Result<Vec<Judged>, NoMemory>
    requires { IfSome pair.now CanBeJudged }
    ensures { IfOk result (λ answers. HasNext judge.now.bounds judge.now.budget (listed pair.now) answers.items) }
{
    let mut answers = Vec::new(alloc);
    if let Some(pair) = pair {
        answers.push(judge.judge(alloc, pair)?)?;
    }
    Ok(answers)
}
