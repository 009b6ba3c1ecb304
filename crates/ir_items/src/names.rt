// Names as tokens spell them.
ghost use Rattle.std.specs.Prelude.{◌≡◌, ◌-◌, ◌<◌, ◌∷◌, length, take, drop, IfOk, true};
ghost use Rattle.std.specs.List.{list_all};
ghost use Rattle.ir_lexer.specs.Bytes.{is_digit, is_hexadecimal_digit};
ghost use Rattle.ir_lexer.specs.Spelling.{is_digits};
ghost use Rattle.ir_items.specs.Names as spec;

use ir_lexer::{Kind, Token};
use ir_tree::Name;
use std::alloc::Global;
use support::{NoMemory, Sequence};

/// Digits without leading zeros; the last one stays.
pub fn without_zeros(digits: &[u8]) -> &[u8]
    ensures { result.now ≡ spec.without_zeros digits.now }
{
    let mut rest = digits;
    while let [b'0', after @ ..] = rest {
        if after.is_empty() {
            break;
        }
        rest = after;
    }
    rest
}

/// Whether a byte is a decimal digit, `0` to `9` (LLVM Language Reference, "Identifiers").
pub fn is_digit(b: u8) -> bool
    ensures { result ≡ is_digit b }
{
    48 <= b && b <= 57
}

fn is_hexadecimal_digit(b: u8) -> bool
    ensures { result ≡ is_hexadecimal_digit b }
{
    is_digit(b) || 65 <= b && b <= 70 || 97 <= b && b <= 102
}

fn hexadecimal_value(b: u8) -> u8
    requires { is_hexadecimal_digit b ≡ true }
    ensures value { result ≡ spec.hexadecimal_value b }
    ensures below { result < 16 }
{
    if b <= 57 {
        b - 48
    } else if b <= 70 {
        b - 55
    } else {
        b - 87
    }
}

// The first byte that is meant, and what follows its spelling.
fn first_meant(text: &[u8]) -> (u8, &[u8])
    requires { 0 < length text.now }
    ensures value { spec.unescaped text.now ≡ result.0 ∷ spec.unescaped result.1.now }
    ensures within { length result.1.now < length text.now }
{
    match text {
        [b'\\', b'\\', rest @ ..] => (b'\\', rest),
        [b'\\', high, low, rest @ ..]
            if is_hexadecimal_digit(*high) && is_hexadecimal_digit(*low) => {
            (
                16 * hexadecimal_value(*high) + hexadecimal_value(*low),
                rest,
            )
        }
        [first, rest @ ..] => (*first, rest),
        [] => (0, text),
    }
}

fn unescaped(alloc: Global, text: &[u8]) -> Result<Vec<u8>, NoMemory>
    ensures { IfOk result (λ bytes. bytes.items ≡ spec.unescaped text.now) }
{
    let mut bytes = Vec::new(alloc);
    let mut rest = text;
    while !rest.is_empty() {
        let (byte, next) = first_meant(rest);
        bytes.push(byte)?;
        rest = next;
    }
    Ok(bytes)
}

fn all_digits(text: &[u8]) -> bool
    ensures { result ≡ list_all is_digit text.now }
{
    text.iter().all(|b| is_digit(*b))
}

fn some_digits(text: &[u8]) -> bool
    ensures { result ≡ is_digits text.now }
{
    match text {
        [] => false,
        _ => all_digits(text),
    }
}

fn without_last(text: &[u8]) -> &[u8]
    ensures { result.now ≡ take (length text.now - 1) text.now }
{
    match text {
        [] => text,
        _ => text.split_at(text.len() - 1).0,
    }
}

fn spelled_name(alloc: Global, text: &[u8]) -> Result<Name, NoMemory>
    ensures { IfOk result (λ name. name ≡ spec.name_of text.now) }
{
    if let [b'"', rest @ ..] = text {
        let bytes = unescaped(alloc, without_last(rest))?;
        Ok(Name::Word(Sequence::from_vec(bytes)))
    } else if some_digits(text) {
        let digits = without_zeros(text).to_vec(alloc)?;
        Ok(Name::Number(Sequence::from_vec(digits)))
    } else {
        Ok(Name::Word(Sequence::from_vec(text.to_vec(alloc)?)))
    }
}

/// The name after a token's sign.
pub fn name_behind_sign(alloc: Global, text: &[u8]) -> Result<Name, NoMemory>
    ensures { IfOk result (λ name. name ≡ spec.name_of (drop 1 text.now)) }
{
    match text {
        [] => spelled_name(alloc, text),
        [_, rest @ ..] => spelled_name(alloc, rest),
    }
}

/// The name before a label's colon.
pub fn name_before_colon(alloc: Global, text: &[u8]) -> Result<Name, NoMemory>
    ensures { IfOk result (λ name. name ≡ spec.name_of (take (length text.now - 1) text.now)) }
{
    spelled_name(alloc, without_last(text))
}

/// The name that a local, global or comdat name or a label spells; none for any other token. A
/// number goes by its value, a quoted string by its bytes after escapes.
pub fn name_of(alloc: Global, token: &Token<'_>) -> Result<Option<Name>, NoMemory>
    ensures { IfOk result (λ name. name ≡ spec.name_in token.now.kind token.now.text) }
{
    let text = token.text();
    match token.kind() {
        Kind::Local | Kind::Global | Kind::Comdat => Ok(Some(name_behind_sign(alloc, text)?)),
        Kind::Label => Ok(Some(name_before_colon(alloc, text)?)),
        Kind::Word
        | Kind::Number
        | Kind::Metadata
        | Kind::Hash
        | Kind::Caret
        | Kind::Float
        | Kind::Hexadecimal
        | Kind::String
        | Kind::Mark => Ok(None),
    }
}
