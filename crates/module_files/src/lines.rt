ghost use Rattle.std.specs.Prelude.{◌≡◌, ◌≤◌, ◌++◌, codes, OnOk, OnErr};
ghost use Rattle.std.specs.Fmt.{decimal};
ghost use Rattle.tv_io.specs.State.{SinkState};
ghost use Rattle.tv_io.specs.Taken.{IsWritten, IsCutOff};
ghost use Rattle.module_files.specs.Stops.{why_text, fault_line};

use ir_items::Why;
use itoa::Buffer;
use text_places::Place;
use tv_io::{Failed, Sink, write_both, write_line, write_whole};

/// Writes the line of a fault: the file's name, the fault's line and column, and what is wrong. It
/// allocates nothing. After an error the sink took some prefix of the line.
pub fn write_fault<K: Sink>(
    out: &mut K,
    name: &str,
    place: Place,
    what: &[u8],
) -> Result<(), Failed>
    ensures written { OnOk result (IsWritten (fault_line name.now place what.now) (K.state out.old) (K.state out.new)) }
    ensures cut_off { OnErr result (IsCutOff (fault_line name.now place what.now) (K.state out.old) (K.state out.new)) }
{
    write_both(out, name.as_bytes(), b":")?;
    write_place(out, place)?;
    write_line(out, b": ", what)
}

fn write_place<K: Sink>(out: &mut K, place: Place) -> Result<(), Failed>
    ensures written { OnOk result (IsWritten (decimal place.line ++ codes ":" ++ decimal place.column) (K.state out.old) (K.state out.new)) }
    ensures cut_off { OnErr result (IsCutOff (decimal place.line ++ codes ":" ++ decimal place.column) (K.state out.old) (K.state out.new)) }
    ensures faults_stay { (K.state out.old).faults ≤ (K.state out.new).faults }
{
    let mut line = Buffer::new();
    let mut column = Buffer::new();
    write_both(out, line.format(place.line).as_bytes(), b":")?;
    write_whole(out, column.format(place.column).as_bytes())
}

/// What the line of a fault says of its reason.
pub fn why_words(why: Why) -> &'static [u8]
    ensures { result.now ≡ why_text why }
{
    match why {
        Why::NoItem => b"no item",
        Why::Bracket => b"bracket",
        Why::NoBody => b"no body",
        Why::TextEnds => b"text ends",
        Why::NameTwice => b"name twice",
        Why::TooManyFunctions => b"too many functions",
        Why::DataLayout => b"data layout",
    }
}
