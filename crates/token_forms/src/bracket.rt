// Brackets.
ghost use Rattle.std.specs.Prelude.{◌≡◌, ◌↔◌, [], ◌∷◌, Some, None, true, IsTrue, IfOk, if◌then◌else◌};
ghost use Rattle.token_forms.specs.Brackets.{nesting_of};
ghost use Rattle.token_forms.specs.Form.{open_behind, balanced, read};
ghost use Rattle.token_forms.specs.Answer.{Passes};

use crate::fault::ReadFault;
use ir_lexer::{Kind, Token};
use ir_tree::Reason;
use std::alloc::Global;
use std::marker::Model;
use support::NoMemory;

/// A kind of bracket.
#[derive(Clone, Copy, Debug, PartialEq, Eq)]
pub enum Bracket {
    /// `(` and `)`.
    Round,
    /// `[` and `]`.
    Square,
    /// `{` and `}`.
    Curly,
}

/// What a token does to the brackets that are open.
#[derive(Clone, Copy, Debug, PartialEq, Eq)]
pub enum Nesting {
    /// It opens one.
    Opens(Bracket),
    /// It closes one.
    Closes(Bracket),
    /// It is no bracket.
    Plain,
}

/// What a token does to the brackets that are open.
pub fn nesting_of(token: &Token<'_>) -> Nesting
    ensures { result ≡ nesting_of token.now }
{
    match (token.kind(), token.text()) {
        (Kind::Mark, [b'(']) => Nesting::Opens(Bracket::Round),
        (Kind::Mark, [b')']) => Nesting::Closes(Bracket::Round),
        (Kind::Mark, [b'[']) => Nesting::Opens(Bracket::Square),
        (Kind::Mark, [b']']) => Nesting::Closes(Bracket::Square),
        (Kind::Mark, [b'{']) => Nesting::Opens(Bracket::Curly),
        (Kind::Mark, [b'}']) => Nesting::Closes(Bracket::Curly),
        _ => Nesting::Plain,
    }
}

/// Brackets that are open. Contracts see them as a list, the innermost first.
#[derive(Drop)]
pub struct OpenBrackets {
    outermost_first: Vec<Bracket>,
}

impl Model for OpenBrackets {
    ghost use Rattle.std.specs.Prelude.{List, reverse};
    ghost use Rattle.token_forms.specs.declared.bracket.Bracket.{Bracket};

    ghost Value = { List Bracket };

    ghost view = { λ b. reverse b.outermost_first.items };
}

impl OpenBrackets {
    /// One that is open.
    pub fn new(alloc: Global, bracket: Bracket) -> Result<Self, NoMemory>
        ensures { IfOk result (λ brackets. brackets ≡ bracket ∷ []) }
    {
        let mut outermost_first = Vec::new(alloc);
        outermost_first.push(bracket)?;
        Ok(OpenBrackets { outermost_first })
    }

    /// Whether none is open.
    pub fn is_empty(&self) -> bool
        ensures { IsTrue result ↔ (self.now ≡ []) }
    {
        self.outermost_first.is_empty()
    }

    /// Passes a token: true where it doesn't close another than the innermost one.
    pub fn pass(&mut self, token: &Token<'_>) -> Result<bool, NoMemory>
        ensures { IfOk result (λ fits. open_behind (nesting_of token.now) self.old ≡ (if fits then Some self.new else None)) }
    {
        match nesting_of(token) {
            Nesting::Opens(bracket) => {
                self.outermost_first.push(bracket)?;
                Ok(true)
            }
            Nesting::Closes(bracket) => Ok(self.outermost_first.pop() == Some(bracket)),
            Nesting::Plain => Ok(true),
        }
    }
}

/// Passes what is inside a bracket and the mark that closes it. After a fault the tokens that
/// are left begin where reading stopped.
pub fn pass_bracket<'a, 'b>(
    alloc: Global,
    bracket: Bracket,
    rest: &mut &'b [Token<'a>],
) -> Result<(), ReadFault>
    ensures { Passes result rest.new.now (read true (balanced bracket) rest.old.now) }
{
    let mut brackets = OpenBrackets::new(alloc, bracket)?;
    while !brackets.is_empty() {
        let [first, others @ ..] = *rest else {
            return Err(ReadFault::Unfit(Reason::Syntax));
        };
        if !brackets.pass(first)? {
            return Err(ReadFault::Unfit(Reason::Syntax));
        }
        *rest = others;
    }
    Ok(())
}
