//! Lines of a text, and words of a line.

ghost use Rattle.std.specs.Prelude.{◌≡◌, Contains, IfNone, IfSome, length};
ghost use Rattle.proof_text.specs.Words.{Parts};

use memchr::memchr;
use std::marker::Model;

/// What comes before the first of these bytes, and what comes after it.
fn split_at_first(byte: u8, text: &[u8]) -> Option<(&[u8], &[u8])>
    ensures some { IfSome result (λ parts. Parts byte text.now parts.0.now parts.1.now) }
    ensures none { IfNone result (Contains text.now byte → ⊥) }
{
    let place = memchr(byte, text)?;
    Some((&text[..place], &text[place + 1..]))
}

/// The next word of a line, which ends with a space, and the rest of the line.
pub fn next_word(line: &[u8]) -> Option<(&[u8], &[u8])>
    ensures some { IfSome result (λ parts. Parts 32 line.now parts.0.now parts.1.now) }
    ensures none { IfNone result (Contains line.now 32 → ⊥) }
{
    split_at_first(b' ', line)
}

/// A text that is read line by line. Contracts see what is left of it.
#[derive(Drop)]
pub struct Lines<'t> {
    rest: &'t [u8],
}

impl<'t> Model for Lines<'t> {
    ghost use Rattle.std.specs.Prelude.{List, ℕ};

    ghost Value = { List ℕ };

    ghost view = { λ lines. lines.rest.now };
}

impl<'t> Lines<'t> {
    /// The lines of a text, from the first one on.
    pub fn new(text: &'t [u8]) -> Lines<'t>
        ensures { result ≡ text.now }
    {
        Lines { rest: text }
    }

    /// How many bytes are left.
    pub fn left(&self) -> usize
        ensures { result ≡ length self.now }
    {
        self.rest.len()
    }

    /// The next line, without the newline that it ends with.
    pub fn next(&mut self) -> Option<&'t [u8]>
        ensures some { IfSome result (λ line. Parts 10 self.old line.now self.new) }
        ensures none { IfNone result ((Contains self.old 10 → ⊥) × (self.new ≡ self.old)) }
    {
        let (line, rest) = split_at_first(b'\n', self.rest)?;
        self.rest = rest;
        Some(line)
    }
}
