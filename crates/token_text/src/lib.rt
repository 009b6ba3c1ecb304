//! Text made of tokens: tokens with blanks before them, and their text.
//!
//! It promises that such a text is lexed back to its tokens, where each token ends at the next one's
//! first byte (`specs/Pieces.antt`; `texts_are_lexed`). It uses `ir_lexer`; the printer of
//! modules states what it writes in these terms.
#![tactic(auto)]

mod laws;

pub use laws::texts_are_lexed;
