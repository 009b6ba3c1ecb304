//! Reading a module of LLVM IR.
//!
//! It promises that [`read`] reads every text: it returns the one module that a text is, with a
//! function for each define or the reason and the position at which it is refused, or the position
//! at which the text stops being tokens or items. The `places` of a function that is returned are
//! empty: the positions of its parts only say where it is refused, and are not kept.
//! `specs/Module.antt` says what a module of a text is, `specs/Functions.antt` what the tokens of
//! one define are. It uses `ir_lexer` for the tokens, `ir_items` for the defines, `ir_grammar` and
//! `ir_numbering` for a function of tokens, `ir_check`, `assigned_names` and `undef_uses` for what is
//! required of a function besides its grammar, and `ir_tree` for what it makes; the command uses it.
#![tactic(auto)]

mod beside;
mod fault;
mod functions;
mod laws;
mod reading;

pub use beside::read_beside;
pub use fault::ModuleFault;
pub use laws::{is_one_function, is_one_module};
pub use reading::read;
