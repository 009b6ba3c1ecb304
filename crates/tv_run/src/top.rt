//! The program: the command line to an exit status.

ghost use Rattle.std.specs.Prelude.{◌≡◌, ◌≢◌, ◌≤◌, ◌<◌, ◌^◌, ◌⊎◌, ◌++◌, ◌∷◌, [], Some, codes, IfOk, OnErr, option_map};
ghost use Rattle.points.specs.Range.{AreInRange};
ghost use Rattle.tv_io.specs.Count.{Rose};
ghost use Rattle.tv_io.specs.Files.{SameFiles};
ghost use Rattle.tv_io.specs.State.{ShelfState, SinkState};
ghost use Rattle.tv_cli.specs.Seen.{seen_check, seen_make};
ghost use Rattle.tv_cli.specs.Words.Job.{check as check_job, log as log_job};
ghost use Rattle.tv_run.specs.Jobs.{ChangesOnlyProof, OfLog, OfMake, ProofChanges, WhereChecked, job_in};
ghost use Rattle.tv_run.specs.Files.{WhereKnown};
ghost use Rattle.tv_run.specs.Sound.{FilesRefine, WritesSound};
ghost use Rattle.tv_run.specs.Reports.{IsUnfinished, WritesDefinedReport, Written};
ghost use Rattle.tv_run.specs.Logs.{IsLogged};
ghost use Rattle.tv_run.specs.Makes.{IsMade};
ghost use Rattle.tv_run.specs.Stops.{CountsNoOther, IsNotPut, IsUnwritten, Refuses, RefusesJob, RefusesLog, RejectsWords, WritesLine, log_trouble_line, log_trouble_status};
ghost use Rattle.tv_run.specs.Answers.{AreModules, Completes, IsDelivered, IsKnownProof, IsSent};

use crate::check::{Report, report_of};
use crate::laws::{file_reports_are_defined, file_reports_are_sound, modules_have_no_fault};
use crate::lines::write_line_fault;
use crate::log::check_file;
use crate::made::made_of;
use crate::stop::{LogStop, LogTrouble};
use module_files::refuse;
use pair_driver::{Gate, Judged};
use std::alloc::Global;
use std::thread::Threads;
use support::NoMemory;
use tv_cli::{Check, Job, Make, read_job};
use tv_io::{PutFault, Shelf, Sink, write_line, write_whole};

/// Does what the command line asks for: `check` judges the functions of the target's module against the
/// source's and writes the report, `log` checks a proof file, `make` makes a pair of modules from a
/// seed, prints and reads them, judges them as `check` does, and writes the first and the last line of
/// their report, with a line between them that says what was made.
///
/// The arguments are the command line, the program's name first; `tv_cli` says which job they ask
/// for. The status is
///
/// - 0 where all rows are correct, 1 where one is incorrect, else 2 where one is unknown, else 3; for
///   `log` 0 where all parts are verified, else 1;
/// - 4 where the arguments ask for no job;
/// - 5 where a file can't be read, 6 where it has more than 16,777,216 bytes, a proof file more than
///   268,435,456; 9 where it is no module, which is reported with its line and column, or no proof file,
///   which is reported with the first line that no proof file has there;
/// - 7 where the sink fails while the report is written, or the proof file can't be written;
/// - 8 where memory runs out.
///
/// A function that isn't judged is a row of the report, with its reason and position. The first cause
/// counts, in the order arguments, read of the source, read of the target, source module, target
/// module, judging, write of the proof file, write of the report. The whole report is made before its
/// first byte is written, and the proof file is written before that. A line of a fault allocates
/// nothing. Each pair passes the gate before it is judged.
///
/// With `--first` the report ends at its first incorrect row, and its first line says so. No worker begins
/// a pair after one that it knows to be incorrect; one begun before it was known has no row.
///
/// With `--proof` the named file holds the bounds and the budget, and a part for each correct and each
/// incorrect row, in order, with the certificate of the row's answer. It may be one of the two files that
/// are judged.
///
/// After status 0 to 3, and 7, `judged` holds the judge's answer for each row with a verdict, in row
/// order: the trail and the certificate of the verdict; for `log` it is empty. After any other status it
/// is as before.
pub fn run<R: AllocGlobal + Threads + Sync, S: Shelf, K: Sink, G: Gate>(
    rt: &R,
    arguments: &[String],
    shelf: &mut S,
    out: &mut K,
    gate: &G,
    judged: &mut Vec<Judged>,
) -> u8
    // What is written of a check says how functions refine: `correct` means that on every input within
    // the bounds each run of the target is allowed by a run of the source, `incorrect` gives a
    // counterexample, and each pair of functions has its row, unless the report ends at a row before.
    // So does a report that is cut off.
    ensures sound { WhereChecked (S.state shelf.old).files (job_in arguments.now)
        (λ files c. WritesSound files c result
        (S.state shelf.old) (S.state shelf.new) (K.state out.old) (K.state out.new)) }
    // Status 0 of a check means that each function of either file has its partner in the other, and the
    // target's refines the source's.
    ensures zero { result ≡ 0 → WhereChecked (S.state shelf.old).files (job_in arguments.now)
        FilesRefine }
    // It is the report of the two files, each row the defined one, but `unknown conflicts` where the
    // limit was spent on the row's own answer in `judged`. The proof file that is asked for was put.
    ensures report { result ≤ 3 → WhereChecked (S.state shelf.old).files (job_in arguments.now)
        (λ files c. Written files c result judged.new.items
        (S.state shelf.new).files (K.state out.old) (K.state out.new)) }
    // Without a limit on conflicts the output is the text that `specs/` define for the two files, and
    // the status is its own; the files have no other.
    ensures defined { result ≤ 3 → WhereChecked (S.state shelf.old).files (job_in arguments.now)
        (λ files c. c.budget.conflicts ≡ 0
        → WritesDefinedReport files c result (K.state out.old) (K.state out.new)) }
    // After status 7 of a check the sink took a prefix of the report, or the proof file could not be put
    // and nothing of the report was written; `judged` has the answers of the report.
    ensures part { result ≡ 7 → WhereChecked (S.state shelf.old).files (job_in arguments.now)
        (λ files c. IsUnfinished files c judged.new.items
        (S.state shelf.old) (S.state shelf.new) (K.state out.old) (K.state out.new)) }
    // A proof file is checked: a part is verified exactly where its log refutes its clauses. The status
    // is 0 or 1, or 7 where the sink took a prefix.
    ensures logged { OfLog (job_in arguments.now)
        (λ name. IsLogged (S.state shelf.old).files name result judged.new.items
        (K.state out.old) (K.state out.new)) }
    // A pair of modules was made, printed, read back and judged: the counts of its rows, which are
    // sound, or with status 7 a prefix.
    ensures made { OfMake (job_in arguments.now)
        (λ m. IsMade m result judged.new.items (K.state out.old) (K.state out.new)) }
    // Status 4: the arguments ask for no job, and exactly then, unless memory runs out; with its line.
    ensures words { RejectsWords (job_in arguments.now) result (K.state out.old) (K.state out.new) }
    // A file was not judged, or not checked: 5 it can't be read, 6 it is too long, 9 it is no module, or
    // no proof file; with its line.
    ensures refused { 4 < result → result ≢ 7 → result ≢ 8 → RefusesJob (job_in arguments.now)
        (S.state shelf.old) (S.state shelf.new) (K.state out.old) (K.state out.new) result }
    // Status 7 comes only after a write that failed and was counted: the sink's, or the put of the proof
    // file, whose line was written then, and nothing of the report.
    ensures unwritten { result ≡ 7 → IsUnwritten (job_in arguments.now)
        (S.state shelf.old) (S.state shelf.new) (K.state out.old) (K.state out.new) }
    // Status 8: memory ran out, and nothing was written.
    ensures memory { result ≡ 8 → K.state out.new ≡ K.state out.old }
    // Without a report the earlier answers stay.
    ensures unjudged { 3 < result → result ≢ 7 → judged.new.items ≡ judged.old.items }
    // Two files that are modules are judged, a proof file is checked, and a pair is made and judged,
    // unless a read or a write fails, or memory runs out.
    ensures complete { Completes (S.state shelf.old).files (job_in arguments.now) result }
    // No failure of a read or a write is counted but the one that the status reports; after 4, 5, 6 and 9
    // the write of the line may have failed too.
    ensures quiet { CountsNoOther result
        (S.state shelf.old) (S.state shelf.new) (K.state out.old) (K.state out.new) }
    // No file changes but the one that `--proof` names, and none where there is no report.
    ensures files { ChangesOnlyProof (job_in arguments.now) result
        (S.state shelf.old).files (S.state shelf.new).files }
    // There is no other status.
    ensures known { result ≤ 9 }
{
    match read_job(rt.alloc(), arguments) {
        Ok(Some(Job::Check(check))) => run_check(rt, &check, shelf, out, gate, judged),
        Ok(Some(Job::Log { file })) => run_log(rt, file, shelf, out, judged),
        Ok(Some(Job::Make(job))) => run_make(rt, &job, out, gate, judged),
        Ok(None) => refuse_words(out),
        Err(NoMemory) => 8,
    }
}

/// Judges the functions of two files, and puts and writes what they give.
fn run_check<R: AllocGlobal + Threads + Sync, S: Shelf, K: Sink, G: Gate>(
    rt: &R,
    check: &Check<'_>,
    shelf: &mut S,
    out: &mut K,
    gate: &G,
    judged: &mut Vec<Judged>,
) -> u8
    requires in_range { AreInRange check.now.bounds check.now.budget }
    requires workers { (1 ≤ check.now.workers) × (check.now.workers ≤ 64) }
    ensures sound { WhereKnown (S.state shelf.old).files
        (λ files. WritesSound files (seen_check check.now) result
        (S.state shelf.old) (S.state shelf.new) (K.state out.old) (K.state out.new)) }
    ensures zero { result ≡ 0 → WhereKnown (S.state shelf.old).files
        (λ files. FilesRefine files (seen_check check.now)) }
    ensures report { result ≤ 3 → WhereKnown (S.state shelf.old).files
        (λ files. Written files (seen_check check.now) result judged.new.items
        (S.state shelf.new).files (K.state out.old) (K.state out.new)) }
    ensures defined { result ≤ 3 → WhereKnown (S.state shelf.old).files
        (λ files. check.now.budget.conflicts ≡ 0
        → WritesDefinedReport files (seen_check check.now) result (K.state out.old) (K.state out.new)) }
    ensures part { result ≡ 7 → WhereKnown (S.state shelf.old).files
        (λ files. IsUnfinished files (seen_check check.now) judged.new.items
        (S.state shelf.old) (S.state shelf.new) (K.state out.old) (K.state out.new)) }
    ensures refused { 4 < result → result ≢ 7 → result ≢ 8 → Refuses (seen_check check.now)
        (S.state shelf.old) (S.state shelf.new) (K.state out.old) (K.state out.new) result }
    ensures unwritten { result ≡ 7 → Rose (K.state out.old).faults (K.state out.new).faults
        ⊎ IsNotPut (seen_check check.now).proof
        (S.state shelf.old) (S.state shelf.new) (K.state out.old) (K.state out.new) }
    ensures memory { result ≡ 8 → K.state out.new ≡ K.state out.old }
    ensures unjudged { 3 < result → result ≢ 7 → judged.new.items ≡ judged.old.items }
    ensures complete { AreModules (S.state shelf.old).files (Some (check_job (seen_check check.now)))
        → (result ≤ 3) ⊎ (result ≡ 5) ⊎ (result ≡ 7) ⊎ (result ≡ 8) }
    ensures quiet { CountsNoOther result
        (S.state shelf.old) (S.state shelf.new) (K.state out.old) (K.state out.new) }
    ensures known { (result ≤ 9) × (result ≢ 4) }
    ensures files { ProofChanges (seen_check check.now).proof
        (S.state shelf.old).files (S.state shelf.new).files }
    ensures same { 3 < result → result ≢ 7
        → SameFiles (S.state shelf.old).files (S.state shelf.new).files }
{
    // The laws that `sound`, `defined` and `complete` rest on; they do nothing.
    file_reports_are_sound();
    file_reports_are_defined();
    modules_have_no_fault();
    match report_of(rt, rt.alloc(), shelf, gate, check) {
        Ok(report) => {
            let Ok(status) = deliver(rt.alloc(), shelf, out, check.proof, &report) else {
                return 8;
            };
            *judged = report.answers;
            status
        }
        Err(stop) => refuse(out, stop, check.source, check.target),
    }
}

/// Puts the proof file, if one is asked for, and writes the report. Answers the report's status, or 7
/// where a write failed. The only error is out of memory, before anything is written.
fn deliver<S: Shelf, K: Sink>(
    alloc: Global,
    shelf: &mut S,
    out: &mut K,
    asked: Option<&str>,
    report: &Report,
) -> Result<u8, NoMemory>
    ensures delivered { IfOk result (λ status. IsDelivered (option_map (λ name. name.now) asked.entry) report.now.proof report.now.text.items report.now.status status
        (S.state shelf.old) (S.state shelf.new) (K.state out.old) (K.state out.new)) }
    ensures memory { OnErr result (K.state out.new ≡ K.state out.old) }
    ensures unput { OnErr result ((S.state shelf.new).put_faults ≡ (S.state shelf.old).put_faults) }
    ensures same { OnErr result (SameFiles (S.state shelf.old).files (S.state shelf.new).files) }
    ensures files { ProofChanges (option_map (λ name. name.now) asked.entry) (S.state shelf.old).files (S.state shelf.new).files }
    ensures fetch_faults { (S.state shelf.new).fetch_faults ≡ (S.state shelf.old).fetch_faults }
    ensures known { report.now.status ≤ 3 }
{
    let Some(name) = asked else {
        return Ok(send(out, report.text.as_slice(), report.status));
    };
    let Some(proof) = &report.proof else {
        return Ok(send(out, report.text.as_slice(), report.status));
    };
    match shelf.put(alloc, name, proof.as_slice()) {
        Ok(()) => Ok(send(out, report.text.as_slice(), report.status)),
        Err(PutFault::Failed) => {
            let _ = write_line(out, b"cannot write ", name.as_bytes());
            Ok(7)
        }
        Err(PutFault::NoMemory) => Err(NoMemory),
    }
}

/// Checks a proof file, and writes what is found.
fn run_log<R: AllocGlobal + Threads + Sync, S: Shelf, K: Sink>(
    rt: &R,
    name: &str,
    shelf: &mut S,
    out: &mut K,
    judged: &mut Vec<Judged>,
) -> u8
    ensures logged { IsLogged (S.state shelf.old).files name.now result judged.new.items
        (K.state out.old) (K.state out.new) }
    ensures refused { 4 < result → result ≢ 7 → result ≢ 8 → RefusesLog name.now
        (S.state shelf.old) (S.state shelf.new) (K.state out.old) (K.state out.new) result }
    ensures unwritten { result ≡ 7 → Rose (K.state out.old).faults (K.state out.new).faults }
    ensures memory { result ≡ 8 → K.state out.new ≡ K.state out.old }
    ensures unjudged { 3 < result → result ≢ 7 → judged.new.items ≡ judged.old.items }
    ensures complete { IsKnownProof (S.state shelf.old).files (Some (log_job name.now))
        → (result ≤ 1) ⊎ (result ≡ 5) ⊎ (result ≡ 7) ⊎ (result ≡ 8) }
    ensures quiet { CountsNoOther result
        (S.state shelf.old) (S.state shelf.new) (K.state out.old) (K.state out.new) }
    ensures known { (result ≤ 1) ⊎ ((4 < result) × (result ≤ 9)) }
    ensures same { (S.state shelf.new).files ≡ (S.state shelf.old).files }
{
    match check_file(rt, rt.alloc(), shelf, name) {
        Ok(checked) => {
            judged.clear();
            send(out, checked.text.as_slice(), checked.status)
        }
        Err(LogStop::Trouble(trouble)) => refuse_log(out, name, trouble),
        Err(LogStop::NoMemory) => 8,
    }
}

/// Judges the pair of modules of a seed, and writes the counts of its rows.
fn run_make<R: AllocGlobal + Threads + Sync, K: Sink, G: Gate>(
    rt: &R,
    job: &Make,
    out: &mut K,
    gate: &G,
    judged: &mut Vec<Judged>,
) -> u8
    requires seed { job.now.seed < 2 ^ 31 }
    requires sizes { (job.now.functions ≤ 4096) × (job.now.insts ≤ 64) }
    requires in_range { AreInRange job.now.bounds job.now.budget }
    requires workers { (1 ≤ job.now.workers) × (job.now.workers ≤ 64) }
    ensures made { IsMade (seen_make job.now) result judged.new.items
        (K.state out.old) (K.state out.new) }
    ensures unwritten { result ≡ 7 → Rose (K.state out.old).faults (K.state out.new).faults }
    ensures unjudged { 3 < result → result ≢ 7 → judged.new.items ≡ judged.old.items }
    ensures memory { result ≡ 8 → K.state out.new ≡ K.state out.old }
    ensures quiet_sink { result ≤ 3 → (K.state out.new).faults ≡ (K.state out.old).faults }
    ensures known { (result ≤ 3) ⊎ (result ≡ 7) ⊎ (result ≡ 8) }
{
    match made_of(rt, rt.alloc(), gate, job) {
        Ok(made) => {
            let status = send(out, made.text.as_slice(), made.status);
            *judged = made.answers;
            status
        }
        Err(NoMemory) => 8,
    }
}

/// Writes a text, and answers the status, or 7 where the sink failed.
fn send<K: Sink>(out: &mut K, text: &[u8], status: u8) -> u8
    ensures { IsSent status result text.now (K.state out.old) (K.state out.new) }
{
    match write_whole(out, text) {
        Ok(()) => status,
        Err(_) => 7,
    }
}

/// Writes the line of a command line that is rejected, and answers its status.
fn refuse_words<K: Sink>(out: &mut K) -> u8
    ensures status { result ≡ 4 }
    ensures line { WritesLine (codes "words refused" ++ 10 ∷ []) (K.state out.old) (K.state out.new) }
{
    let _ = write_line(out, b"words refused", b"");
    4
}

/// Writes the line of a proof file that is not checked, and answers its status.
fn refuse_log<K: Sink>(out: &mut K, name: &str, trouble: LogTrouble) -> u8
    ensures status { result ≡ log_trouble_status trouble }
    ensures line { WritesLine (log_trouble_line name.now trouble) (K.state out.old) (K.state out.new) }
{
    match trouble {
        LogTrouble::CannotRead => {
            let _ = write_line(out, b"cannot read ", name.as_bytes());
            5
        }
        LogTrouble::TooLong => {
            let _ = write_line(out, b"too long ", name.as_bytes());
            6
        }
        LogTrouble::Line(line) => {
            let _ = write_line_fault(out, name, line, b"proof text");
            9
        }
    }
}
