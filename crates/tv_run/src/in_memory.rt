//! A whole run over files in memory.

ghost use Rattle.std.specs.Prelude.{◌≡◌, ◌≤◌, IfOk};
ghost use Rattle.tv_io.specs.MemoryShelf.{files_of};
ghost use Rattle.tv_run.specs.Answers.{FitsIn};
ghost use Rattle.tv_run.specs.Jobs.{OfCheck, job_in};
ghost use Rattle.tv_run.specs.Reports.{IsTheDefinedReport};
ghost use Rattle.tv_run.specs.Sound.{SaysRefinement};

use crate::top::run;
use pair_driver::{Judged, OpenGate};
use std::collections::BTreeMap;
use std::thread::Threads;
use support::NoMemory;
use tv_io::{MemoryShelf, MemorySink};

/// What a run over files in memory gives: its status, what it wrote, and the judge's answers.
#[derive(Drop)]
pub struct Checked {
    pub status: u8,
    pub written: Vec<u8>,
    pub answers: Vec<Judged>,
}

/// Runs over these files, by name, and writes at most `room` bytes.
pub fn run_in_memory<R: AllocGlobal + Threads + Sync>(
    rt: &R,
    arguments: &[String],
    files: BTreeMap<String, Vec<u8>>,
    room: usize,
) -> Result<Checked, NoMemory>
    ensures sound { IfOk result (λ checked. checked.status ≤ 3
        → OfCheck (job_in arguments.now) (λ c. SaysRefinement (files_of files) c checked.written.items checked.status)) }
    // Without a limit on conflicts it is the defined report, the only one.
    ensures defined { IfOk result (λ checked. checked.status ≤ 3
        → OfCheck (job_in arguments.now) (λ c. c.budget.conflicts ≡ 0
        → IsTheDefinedReport (files_of files) c checked.written.items checked.status)) }
    // Two files that are modules are judged, where the report fits.
    ensures complete { IfOk result (λ checked. FitsIn room (files_of files) (job_in arguments.now)
        → checked.status ≤ 3) }
{
    let mut shelf = MemoryShelf::new(files);
    let mut out = MemorySink::new(rt.alloc(), room)?;
    let mut answers = Vec::new(rt.alloc());
    let status = run(rt, arguments, &mut shelf, &mut out, &OpenGate, &mut answers);
    if status == 8 {
        return Err(NoMemory);
    }
    Ok(Checked {
        status,
        written: out.bytes,
        answers,
    })
}
