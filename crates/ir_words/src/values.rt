// The value that a word denotes, and the type that a token spells.
ghost use Rattle.std.specs.Prelude.{◌≡◌};
ghost use Rattle.ir_words.specs.Spelling.{bits_behind, spelled_width, width_in, type_in, is_pointer, word_of_type, word_value, truth_value, is_void};

use crate::numbers::{some_digits, width};
use crate::word::{is_spelled, is_word};
use crate::written::WrittenValue;
use ir_lexer::{Kind, Token};
use ir_tree::IrType;
use tv_num::Width;

/// The truth value that a word spells, where the type has one bit.
pub fn truth_value(width: Width, text: &[u8]) -> Option<u64>
    ensures { result ≡ truth_value width.bits text.now }
{
    if width.bits() == 1 && is_spelled(text, b"true".as_slice()) {
        Some(1)
    } else if width.bits() == 1 && is_spelled(text, b"false".as_slice()) {
        Some(0)
    } else {
        None
    }
}

// What a word denotes by its type only: a truth value of one bit, or the null pointer.
fn word_of_type(of_type: IrType, text: &[u8]) -> Option<WrittenValue>
    ensures { result ≡ word_of_type of_type text.now }
{
    match of_type {
        IrType::Int(width) => match truth_value(width, text) {
            Some(value) => Some(WrittenValue::Literal(value)),
            None => None,
        },
        IrType::Ptr => {
            if is_spelled(text, b"null".as_slice()) {
                Some(WrittenValue::Null)
            } else {
                None
            }
        }
    }
}

/// What a word denotes as an operand of a type: poison, undef, or a word of the type.
pub fn word_value(undef_too: bool, of_type: IrType, text: &[u8]) -> Option<WrittenValue>
    ensures { result ≡ word_value undef_too of_type text.now }
{
    if is_spelled(text, b"poison".as_slice()) {
        Some(WrittenValue::Poison)
    } else if undef_too && is_spelled(text, b"undef".as_slice()) {
        Some(WrittenValue::Undef)
    } else {
        word_of_type(of_type, text)
    }
}

/// Whether a token is the word `void`.
pub fn is_void(token: &Token) -> bool
    ensures { result ≡ is_void token.now }
{
    is_word(token, b"void".as_slice())
}

// The width of the type that a word spells: `None` where it spells none, `Some(None)` where there
// is no such width.
fn width_behind(text: &[u8]) -> Option<Option<Width>>
    ensures { result ≡ spelled_width (bits_behind text.now) }
{
    match text {
        [b'i', digits @ ..] if some_digits(digits) => Some(width(digits)),
        _ => None,
    }
}

/// The width of the type that a token spells: `None` where it spells none, `Some(None)` where there
/// is no such width.
pub fn width_in(token: &Token) -> Option<Option<Width>>
    ensures { result ≡ width_in token.now }
{
    match token.kind() {
        Kind::Word => width_behind(token.text()),
        _ => None,
    }
}

/// Whether a token is the word `ptr`.
pub fn is_pointer(token: &Token) -> bool
    ensures { result ≡ is_pointer token.now }
{
    is_word(token, b"ptr".as_slice())
}

/// The type of a value that a token spells: `None` where it spells none, `Some(None)` where there
/// is no such width.
pub fn type_in(token: &Token) -> Option<Option<IrType>>
    ensures { result ≡ type_in token.now }
{
    if is_pointer(token) {
        return Some(Some(IrType::Ptr));
    }
    match width_in(token) {
        None => None,
        Some(None) => Some(None),
        Some(Some(width)) => Some(Some(IrType::Int(width))),
    }
}
