//! The grammar of a function, and a function as it is written.
//!
//! [`Cursor::define`] reads the tokens of one define from the left. It promises that what it reads is
//! what the grammar spells, with names, types and literals as they are written and the position of
//! each, and that a stop is the first token that isn't allowed, with its reason, or the first that
//! passes a limit. `specs/Grammar.antt` and `specs/Instructions.antt` have the grammar,
//! `specs/Classes.antt` its classes of tokens (LLVM Language Reference). It uses `token_forms` for the
//! laws of a grammar, `ir_words` for what one token denotes and `ir_lexer` for the tokens;
//! `ir_numbering` makes a function of what is written, and the reader uses both.
#![tactic(auto)]

mod blocks;
mod cursor;
mod define;
mod instructions;
mod laws;
mod lines;
mod lists;
mod memory;
mod objects;
mod parameters;
mod phis;
mod terminators;
mod written;

pub use cursor::Cursor;
pub use laws::{is_plain_grammar, is_read_grammar};
pub use written::WrittenFunction;
