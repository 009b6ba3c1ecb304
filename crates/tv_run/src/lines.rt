//! The line that a refusal writes.

ghost use Rattle.std.specs.Prelude.{OnOk, OnErr};
ghost use Rattle.tv_io.specs.State.{SinkState};
ghost use Rattle.tv_io.specs.Taken.{IsWritten, IsCutOff};
ghost use Rattle.tv_run.specs.Stops.{line_fault_line};

use itoa::Buffer;
use tv_io::{Failed, Sink, write_both, write_line, write_whole};

/// Writes the line of a fault that is at a line of a file: the file's name, the line's number, and what
/// is wrong. It allocates nothing. After an error the sink took some prefix of it.
pub fn write_line_fault<K: Sink>(
    out: &mut K,
    name: &str,
    line: u64,
    what: &[u8],
) -> Result<(), Failed>
    ensures written { OnOk result (IsWritten (line_fault_line name.now line what.now) (K.state out.old) (K.state out.new)) }
    ensures cut_off { OnErr result (IsCutOff (line_fault_line name.now line what.now) (K.state out.old) (K.state out.new)) }
{
    let mut number = Buffer::new();
    write_both(out, name.as_bytes(), b":")?;
    write_whole(out, number.format(line).as_bytes())?;
    write_line(out, b": ", what)
}
