//! The pair of modules that a seed makes, and its report.

ghost use Rattle.std.specs.Prelude.{◌≡◌, ◌+◌, ◌*◌, ◌^◌, ◌<◌, ◌≤◌, IfOk, length};
ghost use Rattle.points.specs.Range.{AreInRange};
ghost use Rattle.read_back.specs.ReadBack.{IsPrintable};
ghost use Rattle.tv_cli.specs.Seen.{seen_make};
ghost use Rattle.tv_run.specs.Answers.{IsJudgeableModule};
ghost use Rattle.tv_run.specs.Makes.{IsReadBack, IsSummary, SaysMade, make_line as line_of_make};

use crate::laws::reports_are_sound;
use ir_printer::{make, print};
use ir_reader::is_one_module;
use ir_tree::Module;
use itoa::Buffer;
use module_files::{LoadFault, module_of};
use module_rows::{Judgements, all_rows};
use pair_driver::{Gate, Judged};
use pair_judge::Real;
use read_back::{made_modules_are_printable, printed_modules_read_back};
use report::{status_of, summary_of};
use std::alloc::Global;
use std::thread::Threads;
use support::NoMemory;
use tv_cli::Make;

/// What `make` writes, its status, and the judge's answers.
#[derive(Drop)]
pub struct Made {
    pub text: Vec<u8>,
    pub status: u8,
    pub answers: Vec<Judged>,
    ghost known: { status ≤ 3 },
}

/// Makes the pair of modules of a seed, prints both and reads them back, and judges them.
pub fn made_of<G: Gate, R: Threads + Sync>(
    rt: &R,
    alloc: Global,
    gate: &G,
    job: &Make,
) -> Result<Made, NoMemory>
    requires seed { job.now.seed < 2 ^ 31 }
    requires sizes { (job.now.functions ≤ 4096) × (job.now.insts ≤ 64) }
    requires in_range { AreInRange job.now.bounds job.now.budget }
    requires workers { (1 ≤ job.now.workers) × (job.now.workers ≤ 64) }
    ensures { IfOk result (λ made. SaysMade (seen_make job.now) made.answers.items made.text.items made.status) }
{
    // The law that what is made can be printed; it does nothing.
    made_modules_are_printable();
    let (source, target) = make(alloc, job.seed, job.functions, job.insts)?;
    let source = read_again(alloc, &source)?;
    let target = read_again(alloc, &target)?;
    made_of_modules(rt, alloc, gate, job, &source, &target)
}

/// What is read of a module's text, which is the same module.
fn read_again(alloc: Global, module: &Module) -> Result<Module, NoMemory>
    requires { IsPrintable module.now }
    ensures read { IfOk result (IsReadBack module.now) }
    ensures judgeable { IfOk result IsJudgeableModule }
{
    // The laws that a printed module is read as the same, and that such a text has no fault.
    printed_modules_read_back();
    is_one_module();
    let text = print(alloc, module)?;
    match module_of(alloc, text.as_slice()) {
        Ok(read) => Ok(read),
        Err(LoadFault::NoMemory) => Err(NoMemory),
        Err(LoadFault::Trouble(_)) => unreachable!(),
    }
}

/// The line that says what was made.
fn make_line(alloc: Global, job: &Make) -> Result<Vec<u8>, NoMemory>
    ensures { IfOk result (λ line. line.items ≡ line_of_make (seen_make job.now)) }
{
    let mut seed = Buffer::new();
    let mut functions = Buffer::new();
    let mut insts = Buffer::new();
    let mut line = Vec::new(alloc);
    line.extend_from_slice(b"make seed ")?;
    line.extend_from_slice(seed.format(job.seed).as_bytes())?;
    line.extend_from_slice(b" functions ")?;
    line.extend_from_slice(functions.format(job.functions).as_bytes())?;
    line.extend_from_slice(b" insts ")?;
    line.extend_from_slice(insts.format(job.insts).as_bytes())?;
    line.extend_from_slice(b"\n")?;
    Ok(line)
}

/// The three lines of two modules.
fn made_of_modules<G: Gate, R: Threads + Sync>(
    rt: &R,
    alloc: Global,
    gate: &G,
    job: &Make,
    source: &Module,
    target: &Module,
) -> Result<Made, NoMemory>
    requires in_range { AreInRange job.now.bounds job.now.budget }
    requires some_worker { 0 < job.now.workers }
    requires fits { job.now.workers * (length source.now.entries + 1) < 2 ^ 64 }
    requires source_is { IsJudgeableModule source.now }
    requires target_is { IsJudgeableModule target.now }
    ensures { IfOk result (λ made. IsSummary (seen_make job.now) source.now target.now made.answers.items made.text.items made.status) }
{
    // The law that the rows are sound; it does nothing.
    reports_are_sound();
    let judge = Real {
        bounds: job.bounds,
        budget: job.budget,
    };
    let Judgements { rows, answers } = all_rows(
        rt,
        alloc,
        &judge,
        gate,
        source,
        target,
        job.workers,
    )?;
    let status = status_of(rows.as_slice());
    let line = make_line(alloc, job)?;
    let text = summary_of(
        alloc,
        rows.as_slice(),
        &job.bounds,
        &job.budget,
        line.as_slice(),
    )?;
    Ok(Made {
        text,
        status,
        answers,
    })
}
