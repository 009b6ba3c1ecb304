ghost use Rattle.std.specs.Prelude.{◌≡◌, ◌+◌, ◌≤◌, length, IfOk, IfErr};
ghost use Rattle.ir_lexer.specs.Answer.{Fails};
ghost use Rattle.ir_lexer.specs.Position.{start_of, tokens_left};
ghost use Rattle.ir_lexer.specs.Part.{AreBetween, IsStart, later, position};

use crate::cursor::Cursor;
use crate::lexing::LexFault;
use crate::marking::{Marking, part_until};
use crate::tokens::Tokens;
use std::alloc::Global;

/// Where a part of a text begins: the number of bytes before it, and its line.
#[derive(Clone, Copy)]
pub struct Start {
    pub at: usize,
    pub line: u64,
}

impl Start {
    /// Before the first token of a text.
    pub fn first(text: &[u8]) -> Start
        ensures start { IsStart text.now result }
        ensures first { position text.now result.at ≡ start_of text.now }
    {
        Start::of(&Cursor::new(text))
    }

    /// Before the first token that is this many bytes or more after a start. It reads none of those
    /// that it passes: where the bytes end inside a string or a comment, what follows may be no token
    /// of the text.
    pub fn later(self, text: &[u8], len: usize) -> Start
        requires start { IsStart text.now self }
        requires within { self.at + len ≤ length text.now }
        ensures start { IsStart text.now result }
        ensures later { position text.now result.at ≡ later text.now (self.at + len) }
    {
        Start::of(&Cursor::at(text, self.at, self.line).skip(len))
    }

    // Where a cursor is.
    fn of(cursor: &Cursor<'_>) -> Start
        ensures start { IsStart cursor.now.text result }
        ensures position { cursor.now ≡ position cursor.now.text result.at }
    {
        Start {
            at: cursor.offset(),
            line: cursor.line(),
        }
    }
}

/// The tokens of a part of a text, and the number of bytes before what follows them.
#[derive(Drop)]
pub struct Part<'a> {
    pub tokens: Tokens<'a>,
    pub after: usize,
}

/// The tokens from a start on that begin before an offset.
///
/// `NoToken` is returned where no token begins, as by [`lex`](crate::lex). `NoMemory` is also
/// returned for a text of 2^32 bytes or more.
pub fn lex_part<'a>(
    alloc: Global,
    text: &'a [u8],
    start: Start,
    end: usize,
) -> Result<Part<'a>, LexFault>
    requires start { IsStart text.now start }
    requires end { end ≤ length text.now }
    ensures part { IfOk result (λ part. AreBetween text.now start.at part.after part.tokens) }
    ensures end { IfOk result (λ part. end ≤ part.after) }
    ensures fault { IfErr result (λ fault. Fails fault (tokens_left (position text.now start.at))) }
{
    if text.len() > u32::MAX as usize {
        return Err(LexFault::NoMemory);
    }
    let cursor = Cursor::at(text, start.at, start.line);
    let Marking { marks, after } = part_until(alloc, cursor, end)?;
    let tokens = Tokens::new(text, marks);
    Ok(Part { tokens, after })
}
