//! Functions that are read and numbered, and not checked.
use crate::token_lists::tokens_of;
use ir_grammar::Cursor;
use ir_numbering::numbered;
use ir_tree::Function;
use std::alloc::Global;
use std::test::Fail;

/// The function that the tokens of a text begin with.
pub fn function_of(alloc: Global, text: &str) -> Result<Function, Fail> {
    let tokens = tokens_of(alloc, text.as_bytes())?;
    match Cursor::new(alloc, tokens.as_slice()).define() {
        Ok(written) => Ok(numbered(alloc, written)?),
        Err(_) => Err(Fail::from("no function")),
    }
}
