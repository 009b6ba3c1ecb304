ghost use Rattle.std.specs.Prelude.{◌≡◌};
ghost use Rattle.ir_lexer.specs.Tokens.{lexed};
ghost use Rattle.ir_lexer.specs.Answer.{Gives};
ghost use Rattle.ir_lexer.specs.declared.lexing.LexFault.TheVariants.{NoMemory};

use crate::cursor::Cursor;
use crate::marking::part_until;
use crate::tokens::Tokens;
use std::alloc::{AllocError, AllocFailed, Global};
use text_places::Place;
use thiserror::Error;

/// Why a text has no tokens.
#[derive(Clone, Copy, Debug, PartialEq, Eq, Error)]
pub enum LexFault {
    /// No token begins at this position, which has this number of bytes before it.
    #[error("no token begins at byte {at}")]
    NoToken { at: usize, place: Place },
    /// There was no memory for the tokens.
    #[error("out of memory")]
    NoMemory,
}

impl From<AllocError> for LexFault {
    ghost from_gives = { λ _ e. e ≡ NoMemory };

    fn from(_: AllocError) -> Self {
        LexFault::NoMemory
    }
}

impl<T: Drop> From<AllocFailed<T>> for LexFault {
    ghost from_gives = { λ _ e. e ≡ NoMemory };

    fn from(_: AllocFailed<T>) -> Self {
        LexFault::NoMemory
    }
}

/// The tokens of a text: from the left the longest one each time, with blanks and comments between
/// them left out. A comment runs from `;` to the line feed or to the end.
///
/// `NoToken` is returned exactly where no token begins at a position that is reached so. A string
/// that isn't closed has no token at its quote, nor has a name that begins with one. `NoMemory` is
/// also returned for a text of 2^32 bytes or more: the table of its tokens keeps offsets in 32
/// bits. The time is linear in the text's length.
pub fn lex<'a>(alloc: Global, text: &'a [u8]) -> Result<Tokens<'a>, LexFault>
    ensures { Gives result (lexed text.now) }
{
    if text.len() > u32::MAX as usize {
        return Err(LexFault::NoMemory);
    }
    let part = part_until(alloc, Cursor::new(text), text.len())?;
    Ok(Tokens::new(text, part.marks))
}
