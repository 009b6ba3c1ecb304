ghost use Rattle.std.specs.Prelude.{◌≡◌, ◌<◌, ◌^◌, length};

use crate::token::{Kind, Token};

/// What is kept of a token, in 16 bytes: where its bytes begin, how many they are, their line, and
/// its class.
#[derive(Clone, Copy, Debug)]
pub struct Mark {
    pub at: u32,
    pub len: u32,
    pub line: u32,
    pub kind: Kind,
}

const _: () = prove!(std::mem::size_of::<Mark>() == 16);

impl Mark {
    ghost use Rattle.ir_lexer.specs.Marks.{mark_of};

    /// What is kept of a token.
    pub fn of(token: &Token<'_>) -> Mark
        requires at { token.now.at < 2 ^ 32 }
        requires len { length token.now.text < 2 ^ 32 }
        requires line { token.now.place.line < 2 ^ 32 }
        ensures { result ≡ mark_of token.now }
    {
        Mark {
            at: token.at() as u32,
            len: token.text().len() as u32,
            line: token.place().line as u32,
            kind: token.kind(),
        }
    }
}
