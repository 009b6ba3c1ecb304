//! What the arguments ask for.

ghost use Rattle.std.specs.Prelude.{◌≡◌, IfOk, IfSome, map, option_map, string_bytes};
ghost use Rattle.clap.specs.Words.{found_of, rows_of};
ghost use Rattle.points.specs.Range.{AreInRange};
ghost use Rattle.trace_cli.specs.Words.{request_in_rows, request_of};
ghost use Rattle.trace_cli.specs.Seen.{seen};

use crate::command::command;
use clap::ArgMatches;
use points::{Bounds, Budget};
use std::alloc::Global;
use support::NoMemory;
use tv_cli::{bounds_in, budget_in, is_memory};

/// What a command line asks for: the counterexample of the function of this name, of two files, and
/// what their pair is judged within.
#[derive(Drop)]
pub struct Request<'w> {
    pub source: &'w str,
    pub target: &'w str,
    /// As reports write it, without `@`.
    pub function: &'w str,
    /// A report that may have the counterexample.
    pub report: Option<&'w str>,
    pub bounds: Bounds,
    pub budget: Budget,
}

/// What the arguments of a command line ask for, the program's name first, or `None` where the command
/// line is rejected. The only error is out of memory.
pub fn read_request<'w>(alloc: Global, words: &'w [String]) -> Result<Option<Request<'w>>, NoMemory>
    ensures request { IfOk result (λ found. option_map seen found ≡ request_of (map string_bytes words.entry.now)) }
    ensures in_range { IfOk result (λ found. IfSome found (λ r. AreInRange r.bounds r.budget)) }
{
    let command = command(alloc)?;
    let matches = match command.try_get_matches_from(words) {
        Ok(matches) => matches,
        Err(error) => {
            if is_memory(&error) {
                return Err(NoMemory);
            }
            return Ok(None);
        }
    };
    Ok(request_in(&matches))
}

// What the matches ask for.
fn request_in<'w>(matches: &ArgMatches<'w>) -> Option<Request<'w>>
    ensures request { option_map seen result ≡ request_in_rows (rows_of (found_of matches.now)) }
    ensures in_range { IfSome result (λ r. AreInRange r.bounds r.budget) }
{
    let Some(source) = matches.get_str("A") else {
        return None;
    };
    let Some(target) = matches.get_str("B") else {
        return None;
    };
    let Some(function) = matches.get_str("function") else {
        return None;
    };
    let Some(bounds) = bounds_in(matches) else {
        return None;
    };
    let Some(budget) = budget_in(matches) else {
        return None;
    };
    let report = matches.get_str("report");
    Some(Request {
        source,
        target,
        function,
        report,
        bounds,
        budget,
    })
}
