//! Forms of tokens: a grammar as data, what it spells and how it is read.
//!
//! A form says which tokens follow one another and which value they spell; it is a `do` block over
//! classes of tokens. `specs/Spelling.antt` says what a form spells, `specs/Refusals.antt` where and
//! why tokens stop being the beginning of what it spells, `specs/Form.antt` how it is read from the
//! left with one token of lookahead. It promises that these agree, for every form: what is read is
//! spelled, what is spelled is read, and a stop is the first token that isn't allowed, with the
//! reason that the form gives, or the first that passes a limit. So a grammar above has its
//! readers' laws for free. `specs/Plain.antt` has the plain grammar of a form, which has no
//! lookahead, and which forms spell as it does. The only form with code of its own is what is
//! inside a bracket (`specs/Brackets.antt`, `pass_bracket`).
//!
//! It has no grammar itself. It uses `ir_lexer`, `ir_tree` for the reasons, and `support`; the
//! reader uses it.
#![tactic(auto)]

mod bracket;
mod fault;
mod reading;

pub use bracket::{Bracket, Nesting, OpenBrackets, nesting_of, pass_bracket};
pub use fault::ReadFault;
pub use reading::{Spelled, is_read_as_spelled};
