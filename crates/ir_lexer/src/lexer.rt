ghost use Rattle.std.specs.Prelude.{◌≡◌, ◌<◌, ◌≤◌, List, length, take, drop, Ok, IfOk, OnOk, IsOkAnd};
ghost use Rattle.ir_lexer.specs.Lexeme.{Lexeme};
ghost use Rattle.ir_lexer.specs.Tokens.{lexed};
ghost use Rattle.ir_lexer.specs.Answer.{IsNext};

use crate::cursor::Cursor;
use crate::lexing::LexFault;
use crate::token::Token;
use std::alloc::Global;
use std::marker::Model;
use support::{NoMemory, Sequence};

/// Reads the tokens of a text one after another. Contracts see the tokens that are left, or where
/// none begins.
#[derive(Drop)]
pub struct Lexer<'a> {
    cursor: Cursor<'a>,
}

impl<'a> Model for Lexer<'a> {
    ghost use Rattle.std.specs.Prelude.{List, Result};
    ghost use Rattle.ir_lexer.specs.Lexeme.{Lexeme};
    ghost use Rattle.ir_lexer.specs.Tokens.{Spot};
    ghost use Rattle.ir_lexer.specs.Position.{tokens_left};

    ghost Value = { Result (List Lexeme) Spot };

    ghost view = { λ l. tokens_left l.cursor };
}

impl<'a> Lexer<'a> {
    /// A lexer before the first token of a text. It takes no memory.
    pub fn new(text: &'a [u8]) -> Lexer<'a>
        ensures { result ≡ lexed text.now }
    {
        Lexer {
            cursor: Cursor::new(text),
        }
    }

    /// The next token, or `None` at the end. `NoToken` is returned where no token begins; the lexer
    /// stays there. `NoMemory` is never returned.
    pub fn next(&mut self) -> Result<Option<Token<'a>>, LexFault>
        ensures { IsNext self.old result self.new }
    {
        self.cursor.next()
    }

    /// The next `count` tokens. That many must be left. After an error the lexer is somewhere
    /// among them.
    pub fn take(&mut self, alloc: Global, count: usize) -> Result<Sequence<Token<'a>>, NoMemory>
        requires { IsOkAnd self.old (λ tokens. count ≤ length tokens) }
        ensures taken { IfOk result (λ part.
            (tokens : List Lexeme) → self.old ≡ Ok tokens → part ≡ take count tokens) }
        ensures left { OnOk result (
            (tokens : List Lexeme) → self.old ≡ Ok tokens → self.new ≡ Ok (drop count tokens)) }
    {
        let mut part = Vec::with_capacity(alloc, count)?;
        while part.len() < count {
            let Ok(next) = self.next() else {
                unreachable!();
            };
            let Some(token) = next else {
                unreachable!();
            };
            part.push(token)?;
        }
        Ok(Sequence::from_vec(part))
    }

    /// Skips the next `count` tokens. That many must be left.
    pub fn skip(&mut self, count: usize)
        requires { IsOkAnd self.old (λ tokens. count ≤ length tokens) }
        ensures { (tokens : List Lexeme) → self.old ≡ Ok tokens → self.new ≡ Ok (drop count tokens) }
    {
        for _ in 0..count {
            let _ = self.next();
        }
    }
}
