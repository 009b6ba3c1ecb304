// The marks of the tokens of a part of a text.
ghost use Rattle.std.specs.Prelude.{◌≤◌, ◌<◌, ◌^◌, length};
ghost use Rattle.ir_lexer.specs.Part.{Finds};

use crate::cursor::Cursor;
use crate::lexing::LexFault;
use crate::mark::Mark;
use std::alloc::Global;

/// The marks of the tokens of a part of a text, and the offset of the position after them.
#[derive(Drop)]
pub struct Marking {
    pub marks: Vec<Mark>,
    pub after: usize,
}

// The room that is made at first: one token in this many bytes. More of them make the table grow.
const BYTES_PER_TOKEN: usize = 8;

/// The tokens from a position on that begin before an offset.
pub fn part_until(alloc: Global, start: Cursor<'_>, end: usize) -> Result<Marking, LexFault>
    requires end { end ≤ length start.text }
    requires small { length start.text < 2 ^ 32 }
    ensures { Finds start.entry end result }
{
    let room = end.saturating_sub(start.offset()) / BYTES_PER_TOKEN;
    let mut marks = Vec::with_capacity(alloc, room)?;
    let mut cursor = start;
    while cursor.offset() < end {
        let Some(token) = cursor.next()? else {
            break;
        };
        marks.push(Mark::of(&token))?;
    }
    let after = cursor.offset();
    Ok(Marking { marks, after })
}
