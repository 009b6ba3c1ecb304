//! The tokens of a module's text as a list.
use ir_lexer::{Lexer, Token};
use std::alloc::Global;
use std::test::Fail;

/// The tokens of a text, as the lexer gives them one after another.
pub fn tokens_of<'a>(alloc: Global, text: &'a [u8]) -> Result<Vec<Token<'a>>, Fail> {
    let mut lexer = Lexer::new(text);
    let mut tokens = Vec::new(alloc);
    // A text has no more tokens than bytes.
    for _ in 0..text.len() {
        match lexer.next()? {
            Some(token) => tokens.push(token)?,
            None => break,
        }
    }
    Ok(tokens)
}
