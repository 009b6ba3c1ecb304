//! The line of a file that is not judged.

ghost use Rattle.std.specs.Prelude.{◌≡◌};
ghost use Rattle.tv_io.specs.State.{SinkState};
ghost use Rattle.module_files.specs.Stops.{SaysStop, WritesLine, stop_status, trouble_line, trouble_status};

use crate::lines::{why_words, write_fault};
use crate::stop::{Stop, Trouble};
use tv_io::{Sink, write_line};

/// Writes the line of a stop, and answers its status. The names are those of both files.
pub fn refuse<K: Sink>(out: &mut K, stop: Stop, source: &str, target: &str) -> u8
    ensures status { result ≡ stop_status stop }
    ensures line { SaysStop source.now target.now stop (K.state out.old) (K.state out.new) }
{
    match stop {
        Stop::Source(trouble) => refuse_file(out, source, trouble),
        Stop::Target(trouble) => refuse_file(out, target, trouble),
        Stop::NoMemory => 8,
    }
}

/// Writes the line of a file that is not judged, and answers its status.
pub fn refuse_file<K: Sink>(out: &mut K, name: &str, trouble: Trouble) -> u8
    ensures status { result ≡ trouble_status trouble }
    ensures line { WritesLine (trouble_line name.now trouble) (K.state out.old) (K.state out.new) }
{
    match trouble {
        Trouble::CannotRead => {
            let _ = write_line(out, b"cannot read ", name.as_bytes());
            5
        }
        Trouble::TooLong => {
            let _ = write_line(out, b"too long ", name.as_bytes());
            6
        }
        Trouble::NoToken(place) => {
            let _ = write_fault(out, name, place, b"no token");
            9
        }
        Trouble::Item { why, place } => {
            let _ = write_fault(out, name, place, why_words(why));
            9
        }
    }
}
