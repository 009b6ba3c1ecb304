//! Names as a report prints them.

ghost use Rattle.std.specs.Prelude.{◌≡◌, ◌<◌, ◌↔◌, ◌++◌, ◌∷◌, [], ℕ, All, IfNone, IfOk, IfSome, IsTrue, List, length};
ghost use Rattle.std.specs.List.{flat_map};
ghost use Rattle.ir_tree.specs.declared.name.Name.TheVariants.{Word};
ghost use Rattle.ir_naming.specs.Naming.{escaped, hex_digit, name_text as text_of_name};
ghost use Rattle.proof_text.specs.Format.{IsPrintedName, IsPrintedWord};

use crate::words::is_printed_number;
use ir_naming::name_text;
use ir_tree::Name;
use std::alloc::Global;
use support::{NoMemory, Sequence};

/// The number of a hexadecimal digit in upper case.
fn hex_value(digit: u8) -> u8
    ensures small { result < 16 }
    ensures value { (n : ℕ) → n < 16 → digit ≡ hex_digit 65 n → result ≡ n }
{
    match digit {
        b'0'..=b'9' => digit - b'0',
        b'A'..=b'F' => digit - b'A' + 10,
        _ => 0,
    }
}

/// The byte that a text between quotes begins with, and the rest of the text.
fn next_byte(text: &[u8]) -> Option<(u8, &[u8])>
    ensures small { IfSome result (λ next. next.0 < 256) }
    ensures shorter { IfSome result (λ next. length next.1.now < length text.now) }
    ensures value { IfSome result (λ next. (b : ℕ) (more : List ℕ) → b < 256 → text.now ≡ escaped b ++ more → (next.0 ≡ b) × (next.1.now ≡ more)) }
    ensures none { IfNone result (text.now ≡ []) }
{
    match text {
        [b'\\', high, low, rest @ ..] => Some((hex_value(*high) * 16 + hex_value(*low), rest)),
        [first, rest @ ..] => Some((*first, rest)),
        [] => None,
    }
}

/// The bytes that are printed this way between quotes.
fn unescaped(alloc: Global, text: &[u8]) -> Result<Vec<u8>, NoMemory>
    ensures small { IfOk result (λ bytes. All (λ b. b < 256) bytes.items) }
    ensures only { IfOk result (λ bytes. (own : List ℕ) → All (λ b. b < 256) own → text.now ≡ flat_map escaped own → bytes.items ≡ own) }
{
    let mut bytes = Vec::new(alloc);
    let mut rest = text;
    while let Some((byte, after)) = next_byte(rest) {
        bytes.push(byte)?;
        rest = after;
    }
    Ok(bytes)
}

/// The text between two quotes.
fn between_quotes(text: &[u8]) -> Option<&[u8]>
    ensures some { IfSome result (λ inner. text.now ≡ 34 ∷ (inner.now ++ 34 ∷ [])) }
    ensures none { IfNone result ((inner : List ℕ) → text.now ≡ 34 ∷ (inner ++ 34 ∷ []) → ⊥) }
{
    text.strip_prefix(b"\"")?.strip_suffix(b"\"")
}

/// The only word that could be printed this way.
fn only_word(alloc: Global, text: &[u8]) -> Result<Vec<u8>, NoMemory>
    ensures small { IfOk result (λ bytes. All (λ b. b < 256) bytes.items) }
    ensures only { IfOk result (λ bytes. (own : List ℕ) → All (λ b. b < 256) own → text.now ≡ text_of_name (Word own) → bytes.items ≡ own) }
{
    let Some(inner) = between_quotes(text) else {
        return Ok(Vec::from_slice(alloc, text)?);
    };
    let bytes = unescaped(alloc, inner)?;
    Ok(bytes)
}

/// Whether a report prints some word this way.
fn is_printed_word(alloc: Global, text: &[u8]) -> Result<bool, NoMemory>
    ensures { IfOk result (λ r. IsTrue r ↔ IsPrintedWord text.now) }
{
    let word = Name::Word(Sequence::from_vec(only_word(alloc, text)?));
    Ok(name_text(alloc, &word)?.as_slice() == text)
}

/// Whether a report prints some name this way.
pub fn is_printed_name(alloc: Global, text: &[u8]) -> Result<bool, NoMemory>
    ensures { IfOk result (λ r. IsTrue r ↔ IsPrintedName text.now) }
{
    if is_printed_number(text) {
        return Ok(true);
    }
    is_printed_word(alloc, text)
}
