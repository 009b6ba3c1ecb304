// The reason at a token that isn't allowed where it is.
ghost use Rattle.std.specs.Prelude.{◌≡◌};
ghost use Rattle.ir_words.specs.Reasons.{is_type_mark, reason, type_reason};
ghost use Rattle.ir_words.specs.Spelling.{width_reason};

use crate::values::width_in;
use crate::word::is_spelled;
use ir_lexer::{Kind, Token};
use ir_tree::Reason;

fn is_type_mark(text: &[u8]) -> bool
    ensures { result ≡ is_type_mark text.now }
{
    is_spelled(text, b"<".as_slice())
        || is_spelled(text, b"{".as_slice())
        || is_spelled(text, b"...".as_slice())
}

/// The reason at a token that isn't allowed.
pub fn reason_at(token: &Token) -> Reason
    ensures { result ≡ reason token.now }
{
    match token.kind() {
        Kind::Word
        | Kind::Metadata
        | Kind::Hash
        | Kind::Global
        | Kind::Float
        | Kind::Hexadecimal
        | Kind::String => Reason::Unsupported,
        Kind::Mark => {
            if is_type_mark(token.text()) {
                Reason::Unsupported
            } else {
                Reason::Syntax
            }
        }
        Kind::Number | Kind::Local | Kind::Comdat | Kind::Caret | Kind::Label => Reason::Syntax,
    }
}

/// The reason at a token that isn't allowed where a type begins.
pub fn type_reason_at(token: &Token) -> Reason
    ensures { result ≡ type_reason token.now }
{
    match token.kind() {
        Kind::Local => Reason::Unsupported,
        _ => reason_at(token),
    }
}

/// The reason at a token that isn't allowed where only some types are: a limit where it spells a
/// type of a width that doesn't exist.
pub fn width_reason_at(token: &Token) -> Reason
    ensures { result ≡ width_reason token.now }
{
    match width_in(token) {
        Some(None) => Reason::Limit,
        _ => type_reason_at(token),
    }
}
