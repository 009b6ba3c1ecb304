//! Why nothing is explained.

ghost use Rattle.std.specs.Prelude.{◌≡◌};
ghost use Rattle.tv_io.specs.State.{SinkState};
ghost use Rattle.module_files.specs.Stops.{WritesLine};
ghost use Rattle.trace_cli.specs.Seen.{seen};
ghost use Rattle.trace_run.specs.declared.halt.Halt.TheVariants.{Modules as NoModules, NoMemory as OutOfMemory};
ghost use Rattle.trace_run.specs.Halts.{SaysHalt, halt_status, report_name};

use module_files::{Stop, Trouble, refuse, refuse_file};
use support::NoMemory;
use trace_cli::Request;
use tv_io::Sink;

/// Why a request is not answered.
#[derive(Clone, Copy, Debug, PartialEq, Eq)]
pub enum Halt {
    /// The report is not read.
    Report(Trouble),
    /// The two modules are not judged.
    Modules(Stop),
    NoMemory,
}

impl From<NoMemory> for Halt {
    ghost from_gives = { λ _ halt. halt ≡ OutOfMemory };

    fn from(_error: NoMemory) -> Halt {
        Halt::NoMemory
    }
}

impl From<Stop> for Halt {
    ghost from_gives = { λ stop halt. halt ≡ NoModules stop };

    fn from(stop: Stop) -> Halt {
        Halt::Modules(stop)
    }
}

/// The report's name, empty where the request names none.
fn named_report<'w>(request: &Request<'w>) -> &'w str
    ensures { result.now ≡ report_name (seen request.now) }
{
    match request.report {
        Some(name) => name,
        None => "",
    }
}

/// Writes the line of a request that is not answered, and answers its status.
pub fn refuse_request<K: Sink>(out: &mut K, request: &Request<'_>, halt: Halt) -> u8
    ensures status { result ≡ halt_status halt }
    ensures line { SaysHalt (seen request.now) halt (K.state out.old) (K.state out.new) }
{
    match halt {
        Halt::Report(trouble) => refuse_file(out, named_report(request), trouble),
        Halt::Modules(stop) => refuse(out, stop, request.source, request.target),
        Halt::NoMemory => 8,
    }
}
