//! The whole call.

ghost use Rattle.std.specs.Prelude.{◌≡◌, ◌≢◌, ◌≤◌, ◌<◌, ◌⊎◌, ◌++◌, ◌∷◌, [], codes, OnOk, OnErr};
ghost use Rattle.points.specs.Range.{AreInRange};
ghost use Rattle.tv_io.specs.Count.{Rose};
ghost use Rattle.tv_io.specs.State.{ShelfState, SinkState};
ghost use Rattle.tv_io.specs.Taken.{IsWritten, IsCutOff};
ghost use Rattle.module_files.specs.Files.{WhereKnown};
ghost use Rattle.module_files.specs.Stops.{WritesLine};
ghost use Rattle.trace_cli.specs.Seen.{seen};
ghost use Rattle.trace_run.specs.Requests.{request_in, WhereAsked, WritesExplanation, WritesPart, RejectsWords, Refuses, RefusesAsked, LacksFunction, LacksAsked, missing_line, CountsNoOther, IsSent};

use crate::finding::found_of;
use crate::halt::refuse_request;
use std::alloc::Global;
use support::NoMemory;
use trace_cli::{Request, read_request};
use tv_io::{Failed, Shelf, Sink, write_both, write_line, write_whole};

/// Explains the function of the source that the command line names: writes its row, as a report of both
/// files has it, and where that is `incorrect` the run of the source on the tape of zeros and the run of
/// the target at the point, step by step, and how their outcomes differ.
///
/// Where the command line names a report that has an incorrect row of the function, and both runs at
/// the point of that row show what it says, that row is written and nothing is judged: the runs are a
/// counterexample on the choices 0 of the source, and that none of its other choices allow what the
/// target does is what the report says. Another report costs the time to read it, and no more.
///
/// The arguments are the command line, the program's name first; `trace_cli` says what they ask for.
/// The status is
///
/// - that of a report with this row alone: 0 `correct`, 1 `incorrect`, 2 `unknown`, 3 not judged;
/// - 4 where the arguments are no request;
/// - 5 where a file can't be read, 6 where it has more than 16,777,216 bytes, the report's first, 9
///   where one of the two others is no module, which is reported with its line and column;
/// - 7 where the sink fails while the text is written;
/// - 8 where memory runs out;
/// - 10 where the source has no function of the name.
///
/// The whole text is made before its first byte is written. No other pair is judged.
pub fn run<S: Shelf, K: Sink>(alloc: Global, arguments: &[String], shelf: &mut S, out: &mut K) -> u8
    // What is written is the function's row, a row of the modules of both files, and where that is
    // incorrect the traces of both runs at its point, and a difference of their outcomes; or, where a
    // report is named, an incorrect row that this has and its runs show, with those.
    ensures explained { result ≤ 3 → WhereAsked (S.state shelf.old).files (request_in arguments.now)
        (λ files r. WritesExplanation files r result (K.state out.old) (K.state out.new)) }
    // After status 7 the sink took a prefix of such a text.
    ensures part { result ≡ 7 → WhereAsked (S.state shelf.old).files (request_in arguments.now)
        (λ files r. WritesPart files r (K.state out.old) (K.state out.new)) }
    // Status 4: the arguments are no request, and exactly then, unless memory runs out; with its line.
    ensures words { RejectsWords (request_in arguments.now) result (K.state out.old) (K.state out.new) }
    // A file was not read or not judged: 5 it can't be read, 6 it is too long, 9 it is no module; with its line.
    ensures refused { 4 < result → result ≢ 7 → result ≢ 8 → result ≢ 10 → Refuses (request_in arguments.now)
        (S.state shelf.old) (S.state shelf.new) (K.state out.old) (K.state out.new) result }
    // Status 10: both files are modules, and the source's has no function of the name; with its line.
    ensures missing { result ≡ 10 → LacksFunction (request_in arguments.now)
        (S.state shelf.old).files (K.state out.old) (K.state out.new) }
    // Status 7 comes only after a write that failed and was counted.
    ensures unwritten { result ≡ 7 → Rose (K.state out.old).faults (K.state out.new).faults }
    // Status 8: memory ran out, and nothing was written.
    ensures memory { result ≡ 8 → K.state out.new ≡ K.state out.old }
    // No failure of a read or a write is counted but the one that the status reports.
    ensures quiet { CountsNoOther result
        (S.state shelf.old) (S.state shelf.new) (K.state out.old) (K.state out.new) }
    // No file changes.
    ensures files { (S.state shelf.new).files ≡ (S.state shelf.old).files }
    // There is no other status.
    ensures known { result ≤ 10 }
{
    match read_request(alloc, arguments) {
        Ok(Some(request)) => run_request(alloc, &request, shelf, out),
        Ok(None) => refuse_words(out),
        Err(NoMemory) => 8,
    }
}

/// Explains the function that is asked for.
fn run_request<S: Shelf, K: Sink>(
    alloc: Global,
    request: &Request<'_>,
    shelf: &mut S,
    out: &mut K,
) -> u8
    requires { AreInRange request.now.bounds request.now.budget }
    ensures explained { result ≤ 3 → WhereKnown (S.state shelf.old).files
        (λ files. WritesExplanation files (seen request.now) result (K.state out.old) (K.state out.new)) }
    ensures part { result ≡ 7 → WhereKnown (S.state shelf.old).files
        (λ files. WritesPart files (seen request.now) (K.state out.old) (K.state out.new)) }
    ensures refused { 4 < result → result ≢ 7 → result ≢ 8 → result ≢ 10 → RefusesAsked (seen request.now)
        (S.state shelf.old) (S.state shelf.new) (K.state out.old) (K.state out.new) result }
    ensures missing { result ≡ 10 → LacksAsked (seen request.now)
        (S.state shelf.old).files (K.state out.old) (K.state out.new) }
    ensures unwritten { result ≡ 7 → Rose (K.state out.old).faults (K.state out.new).faults }
    ensures memory { result ≡ 8 → K.state out.new ≡ K.state out.old }
    ensures quiet { CountsNoOther result
        (S.state shelf.old) (S.state shelf.new) (K.state out.old) (K.state out.new) }
    ensures same { (S.state shelf.new).files ≡ (S.state shelf.old).files }
    ensures known { (result ≤ 10) × (result ≢ 4) }
{
    match found_of(alloc, shelf, request) {
        Ok(Some(explanation)) => send(out, explanation.text.as_slice(), explanation.status),
        Ok(None) => refuse_name(out, request),
        Err(halt) => refuse_request(out, request, halt),
    }
}

/// Writes a text, and answers the status, or 7 where the sink failed.
fn send<K: Sink>(out: &mut K, text: &[u8], status: u8) -> u8
    ensures { IsSent status result text.now (K.state out.old) (K.state out.new) }
{
    match write_whole(out, text) {
        Ok(()) => status,
        Err(_) => 7,
    }
}

/// Writes the line of a command line that is rejected, and answers its status.
fn refuse_words<K: Sink>(out: &mut K) -> u8
    ensures status { result ≡ 4 }
    ensures line { WritesLine (codes "words refused" ++ 10 ∷ []) (K.state out.old) (K.state out.new) }
{
    let _ = write_line(out, b"words refused", b"");
    4
}

/// Writes the line of a name that no function of the source has, and answers its status.
fn refuse_name<K: Sink>(out: &mut K, request: &Request<'_>) -> u8
    ensures status { result ≡ 10 }
    ensures line { WritesLine (missing_line (seen request.now)) (K.state out.old) (K.state out.new) }
{
    let _ = write_missing(out, request);
    10
}

fn write_missing<K: Sink>(out: &mut K, request: &Request<'_>) -> Result<(), Failed>
    ensures written { OnOk result (IsWritten (missing_line (seen request.now)) (K.state out.old) (K.state out.new)) }
    ensures cut_off { OnErr result (IsCutOff (missing_line (seen request.now)) (K.state out.old) (K.state out.new)) }
{
    write_both(out, b"no function ", request.function.as_bytes())?;
    write_line(out, b" in ", request.source.as_bytes())
}
