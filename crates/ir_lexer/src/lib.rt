//! The tokens of LLVM IR.
//!
//! It promises that [`lex`] and [`Lexer`] give the longest token each time, from the left, with its
//! line and column, or the first position where no token begins, and nothing else; the class of a
//! token is a property of its whole spelling. [`lex`] returns a table of all tokens, in 16 bytes
//! each, and [`lex_part`] those of a part of the text, so that several workers can each read a part:
//! where each part ends at the start of the next, their tokens joined are those of the text. A
//! [`Walk`] takes tokens out of a table. A [`Lexer`] gives the tokens one after another and keeps
//! none of them. It uses `text_places` and `support`; the cut into items takes the table, and the
//! reader the tokens of one item at a time.
#![tactic(auto)]

mod blanks;
mod bytes;
mod cursor;
mod lexer;
mod lexing;
mod mark;
mod marking;
mod part;
mod parts;
mod scan;
mod token;
mod tokens;
mod walk;

pub use lexer::Lexer;
pub use lexing::{LexFault, lex};
pub use part::{Part, Start, lex_part};
pub use token::{Kind, Token};
pub use tokens::Tokens;
pub use walk::Walk;
