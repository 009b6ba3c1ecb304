ghost use Rattle.std.specs.Prelude.{◌≡◌, ◌<◌, length, map, slice_get, IsSomeAnd};
ghost use Rattle.std.specs.List.{All};
ghost use Rattle.ir_lexer.specs.Marks.{IsMark, lexeme_of};

use crate::mark::Mark;
use crate::token::Kind;
use crate::walk::Walk;
use std::marker::Model;

/// The tokens of a text, in 16 bytes each. Contracts see them as a list.
#[derive(Drop)]
pub struct Tokens<'a> {
    text: &'a [u8],
    marks: Vec<Mark>,
}

impl<'a> Model for Tokens<'a> {
    ghost use Rattle.std.specs.Prelude.{List, map};
    ghost use Rattle.std.specs.List.{All};
    ghost use Rattle.ir_lexer.specs.Lexeme.{Lexeme};
    ghost use Rattle.ir_lexer.specs.Marks.{IsMark, lexeme_of};

    ghost Value = { List Lexeme };

    ghost view = { λ t. map (lexeme_of t.text.now) t.marks.items };

    ghost invariant = { λ t. All (IsMark t.text.now) t.marks.items };
}

impl<'a> Tokens<'a> {
    /// The tokens of a text that these marks denote. It takes no memory.
    pub(crate) fn new(text: &'a [u8], marks: Vec<Mark>) -> Tokens<'a>
        requires { All (IsMark text.now) marks.items }
        ensures { result ≡ map (lexeme_of text.now) marks.items }
    {
        Tokens { text, marks }
    }

    /// How many tokens there are.
    pub fn len(&self) -> usize
        ensures { result ≡ length self.now }
    {
        self.marks.len()
    }

    /// The class of the token at an index, counted from 0.
    pub fn kind(&self, place: usize) -> Kind
        requires { place < length self.now }
        ensures { IsSomeAnd (slice_get self.now place) (λ t. result ≡ t.kind) }
    {
        self.marks[place].kind
    }

    /// The bytes of the token at an index, counted from 0.
    pub fn text(&self, place: usize) -> &'a [u8]
        requires { place < length self.now }
        ensures { IsSomeAnd (slice_get self.now place) (λ t. result.now ≡ t.text) }
    {
        let mark = self.marks[place];
        self.text
            .split_at(mark.at as usize)
            .1
            .split_at(mark.len as usize)
            .0
    }

    /// The line of the token at an index, counted from 0. Lines are counted from 1.
    pub fn line(&self, place: usize) -> u64
        requires { place < length self.now }
        ensures { IsSomeAnd (slice_get self.now place) (λ t. result ≡ t.place.line) }
    {
        self.marks[place].line as u64
    }

    /// Where the token at an index begins, counted from 0: the number of bytes of the text before it.
    pub fn at(&self, place: usize) -> usize
        requires { place < length self.now }
        ensures { IsSomeAnd (slice_get self.now place) (λ t. result ≡ t.at) }
    {
        self.marks[place].at as usize
    }

    /// What takes the tokens of the table.
    pub fn walk(&self) -> Walk<'_, 'a>
        ensures { result ≡ self.now }
    {
        Walk::new(self.text, &self.marks)
    }
}
