ghost use Rattle.std.specs.Prelude.{◌≡◌, ◌<◌, ◌≤◌, length, map, slice_get, slice_range, Some, IfOk};
ghost use Rattle.std.specs.List.{All};
ghost use Rattle.text_places.specs.Place.{place_at};
ghost use Rattle.ir_lexer.specs.Marks.{IsMark, lexeme_of};

use crate::cursor::column_behind;
use crate::mark::Mark;
use crate::token::Token;
use std::alloc::Global;
use std::marker::Model;
use support::{NoMemory, Sequence};
use text_places::Place;

// The token that a mark denotes. The offset and position of some other byte are passed in: where the
// token is after that byte on the same line, its column is as many bytes further; otherwise the column
// is counted.
fn token_after<'a>(text: &'a [u8], mark: Mark, at: usize, place: Place) -> Token<'a>
    requires mark { IsMark text.now mark }
    requires place { place ≡ place_at text.now at }
    ensures { result ≡ lexeme_of text.now mark }
{
    let start = mark.at as usize;
    let line = mark.line as u64;
    let (front, rest) = text.split_at(start);
    let column = if line == place.line && at <= start {
        place.column + (start - at) as u64
    } else {
        column_behind(front)
    };
    let bytes = rest.split_at(mark.len as usize).0;
    Token::new(mark.kind, bytes, start, Place { line, column })
}

/// Takes tokens out of a table, some at a time. Taken from left to right the time is linear in the
/// length of the text. Contracts see all tokens of the table.
#[derive(Drop)]
pub struct Walk<'t, 'a> {
    text: &'a [u8],
    marks: &'t [Mark],
    // The offset and the position of the last token that was taken; at first those of the text's start.
    at: usize,
    place: Place,
}

impl<'t, 'a> Model for Walk<'t, 'a> {
    ghost use Rattle.std.specs.Prelude.{List, map};
    ghost use Rattle.ir_lexer.specs.Lexeme.{Lexeme};
    ghost use Rattle.ir_lexer.specs.Marks.{IsWalk, lexeme_of};

    ghost Value = { List Lexeme };

    ghost view = { λ w. map (lexeme_of w.text.now) w.marks.now };

    ghost invariant = { λ w. IsWalk w.text.now w.marks.now w.at w.place };
}

impl<'t, 'a> Walk<'t, 'a> {
    /// A walk over the tokens of a text that these marks denote. It takes no memory.
    pub(crate) fn new(text: &'a [u8], marks: &'t [Mark]) -> Walk<'t, 'a>
        requires { All (IsMark text.now) marks.now }
        ensures { result ≡ map (lexeme_of text.now) marks.now }
    {
        Walk {
            text,
            marks,
            at: 0,
            place: Place::start(),
        }
    }

    // The token at an index, counted from 0.
    fn token(&mut self, index: usize) -> Token<'a>
        requires { index < length self.old }
        ensures token { slice_get self.old index ≡ Some result }
        ensures same { self.new ≡ self.old }
    {
        let token = token_after(self.text, self.marks[index], self.at, self.place);
        self.at = token.at();
        self.place = token.place();
        token
    }

    /// The tokens from an index up to another, counted from 0.
    pub fn take(
        &mut self,
        alloc: Global,
        from: usize,
        to: usize,
    ) -> Result<Sequence<Token<'a>>, NoMemory>
        requires order { from ≤ to }
        requires within { to ≤ length self.old }
        ensures taken { IfOk result (λ tokens. tokens ≡ slice_range self.old from to) }
        ensures same { self.new ≡ self.old }
    {
        let mut tokens = Vec::with_capacity(alloc, to - from)?;
        for index in from..to {
            tokens.push(self.token(index))?;
        }
        Ok(Sequence::from_vec(tokens))
    }
}
