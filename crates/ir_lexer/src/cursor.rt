ghost use Rattle.std.specs.Prelude.{◌≡◌, ◌+◌, ◌-◌, ◌<◌, ◌≤◌, ◌^◌, ◌++◌, ℕ, List, length, take, drop, count_by, false, Option, Some, None, IfSome};
ghost use Rattle.text_places.specs.Place.{place_behind, place_at, is_line_feed};
ghost use Rattle.ir_lexer.specs.Tokens.{longest_token, behind_blanks};
ghost use Rattle.ir_lexer.specs.Position.{start_of, bytes_before, IsWithin, Reads};
ghost use Rattle.ir_lexer.specs.Scan.{name_run};

use crate::blanks::blanks;
use crate::lexing::LexFault;
use crate::scan::{first_token, plain_token, run_at_front};
use crate::token::{Kind, Token};
use memchr::memchr_iter;
use std::marker::Model;
use text_places::Place;

// The line feeds among some bytes.
fn line_feeds(bytes: &[u8]) -> u64
    ensures { result ≡ count_by is_line_feed bytes.now }
{
    memchr_iter(b'\n', bytes).count() as u64
}

/// The column of what follows some bytes, which begin a text.
pub fn column_behind(bytes: &[u8]) -> u64
    ensures { result ≡ (place_behind bytes.now).column }
{
    let mut start = bytes.len();
    while 0 < start && bytes[start - 1] != b'\n' {
        start -= 1;
    }
    (bytes.len() - start) as u64 + 1
}

// The longest token at the start of a text: its class, its length, the position behind it, and what is
// known of the run of name bytes there.
#[derive(Clone, Copy)]
struct Front {
    kind: Kind,
    len: usize,
    after: Place,
    run: usize,
}

// The longest token at the start of a text, which begins at this position. The run is that of the
// leading name bytes, or 0 where it isn't known. Only a token that may have quotes is looked through
// for line feeds.
fn front_of(text: &[u8], known: usize, place: Place) -> Option<Front>
    requires known { 0 < known → known ≡ name_run text.now }
    requires line { place.line + length text.now < 2 ^ 64 }
    requires column { place.column + length text.now < 2 ^ 64 }
    ensures found { IfSome result (λ f. longest_token text.now ≡ Some (f.kind, f.len)) }
    ensures none { result ≡ None → longest_token text.now ≡ None }
    ensures bounds { IfSome result (λ f. (0 < f.len) × (f.len ≤ length text.now)) }
    ensures after { IfSome result (λ f. (before : List ℕ) → place ≡ place_behind before → f.after ≡ place_behind (before ++ take f.len text.now)) }
    ensures run { IfSome result (λ f. 0 < f.run → f.run ≡ name_run text.now - f.len) }
{
    if let Some((kind, len)) = plain_token(text, known) {
        let after = Place {
            line: place.line,
            column: place.column + len as u64,
        };
        let run = 0;
        return Some(Front {
            kind,
            len,
            after,
            run,
        });
    }
    let run = run_at_front(text, known);
    let (kind, len) = first_token(text, run)?;
    let after = place.behind(text.split_at(len).0);
    let run = run.saturating_sub(len);
    Some(Front {
        kind,
        len,
        after,
        run,
    })
}

/// A position in a text, before a token or at the end. Contracts see the text and what is left of
/// it.
#[derive(Drop)]
pub struct Cursor<'a> {
    text: &'a [u8],
    rest: &'a [u8],
    place: Place,
    // The leading run of name bytes of the rest, or 0 where it isn't known.
    run: usize,
}

impl<'a> Model for Cursor<'a> {
    ghost use Rattle.ir_lexer.specs.Position.{Position, IsCursor};

    ghost Value = { Position };

    ghost view = { λ c. record { text = c.text.now; rest = c.rest.now } };

    ghost invariant = { λ c. IsCursor c.text.now c.rest.now c.place c.run };
}

impl<'a> Cursor<'a> {
    /// Before the first token of a text.
    pub fn new(text: &'a [u8]) -> Cursor<'a>
        ensures { result ≡ start_of text.now }
    {
        let passed = blanks(text, Place::start());
        Cursor {
            text,
            rest: text.split_at(passed.len).1,
            place: passed.place,
            run: 0,
        }
    }

    /// Reads the token there, and moves past it and the blanks after it. At the end, and where no
    /// token begins, it does not move.
    pub fn next(&mut self) -> Result<Option<Token<'a>>, LexFault>
        ensures reads { Reads self.old result self.new }
        ensures within { IsWithin self.old }
    {
        if self.rest.is_empty() {
            return Ok(None);
        }
        let at = self.offset();
        let Some(front) = front_of(self.rest, self.run, self.place) else {
            return Err(LexFault::NoToken {
                at,
                place: self.place,
            });
        };
        let (bytes, after) = self.rest.split_at(front.len);
        let token = Token::new(front.kind, bytes, at, self.place);
        let passed = blanks(after, front.after);
        self.rest = after.split_at(passed.len).1;
        self.place = passed.place;
        self.run = front.run;
        Ok(Some(token))
    }

    /// Before the token at this offset of a text, which is on this line.
    pub fn at(text: &'a [u8], at: usize, line: u64) -> Cursor<'a>
        requires within { at ≤ length text.now }
        requires line { line ≡ (place_at text.now at).line }
        ensures { result ≡ record { text = text.now; rest = drop at text.now } }
    {
        let (front, rest) = text.split_at(at);
        let column = column_behind(front);
        Cursor {
            text,
            rest,
            place: Place { line, column },
            run: 0,
        }
    }

    /// After this many bytes more, and the blanks there. It reads no token.
    pub fn skip(&self, len: usize) -> Cursor<'a>
        requires { len ≤ length self.now.rest }
        ensures text { result.text ≡ self.now.text }
        ensures rest { result.rest ≡ behind_blanks false (drop len self.now.rest) }
    {
        let (skipped, rest) = self.rest.split_at(len);
        let line = self.place.line + line_feeds(skipped);
        let column = column_behind(self.text.split_at(self.offset() + len).0);
        let passed = blanks(rest, Place { line, column });
        Cursor {
            text: self.text,
            rest: rest.split_at(passed.len).1,
            place: passed.place,
            run: 0,
        }
    }

    /// The line where it is.
    pub fn line(&self) -> u64
        ensures { result ≡ (place_at self.now.text (bytes_before self.now)).line }
    {
        self.place.line
    }

    /// The number of bytes of the text before it.
    pub fn offset(&self) -> usize
        ensures value { result ≡ bytes_before self.now }
        ensures within { IsWithin self.now }
    {
        self.text.len() - self.rest.len()
    }
}
