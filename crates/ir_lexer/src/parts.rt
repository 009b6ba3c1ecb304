// Parts of spellings: what follows some leading bytes.
ghost use Rattle.std.specs.Prelude.{◌≡◌, ◌==◌, ◌≤◌, length, take_while, IfSome};
ghost use Rattle.std.specs.Option.{option_copied};
ghost use Rattle.ir_lexer.specs.Bytes.{is_digit, begins_word, is_name_byte, begins_name, is_hexadecimal_digit, is_float_kind, is_sign, is_inside_quotes, is_mark_byte};
ghost use Rattle.ir_lexer.specs.Parts.{behind, behind_one};
ghost use Rattle.ir_lexer.specs.Scan.{name_run, after_one, after_byte, after_digits, shorter};

use crate::bytes;

fn digit_run(text: &[u8]) -> usize
    ensures value { result ≡ length (take_while is_digit text.now) }
    ensures within { result ≤ length text.now }
{
    text.iter().take_while(|b| bytes::is_digit(**b)).count()
}

/// After the leading digits.
#[tactic(auto, using(crate::proofs::Behind::runs))]
pub fn behind_digits(text: &[u8]) -> &[u8]
    ensures value { result.now ≡ behind is_digit text.now }
    ensures within { length result.now ≤ length text.now }
{
    text.split_at(digit_run(text)).1
}

/// The number of leading bytes that can be in a name.
pub fn name_run(text: &[u8]) -> usize
    ensures value { result ≡ name_run text.now }
    ensures within { result ≤ length text.now }
{
    let mut run = 0;
    while run < text.len() && bytes::is_name_byte(text[run]) {
        run += 1;
    }
    run
}

/// After the leading name bytes.
#[tactic(auto, using(crate::proofs::Behind::runs))]
pub fn behind_name_bytes(text: &[u8]) -> &[u8]
    ensures value { result.now ≡ behind is_name_byte text.now }
    ensures within { length result.now ≤ length text.now }
{
    text.split_at(name_run(text)).1
}

fn hexadecimal_run(text: &[u8]) -> usize
    ensures value { result ≡ length (take_while is_hexadecimal_digit text.now) }
    ensures within { result ≤ length text.now }
{
    text.iter()
        .take_while(|b| bytes::is_hexadecimal_digit(**b))
        .count()
}

/// After the leading hexadecimal digits.
#[tactic(auto, using(crate::proofs::Behind::runs))]
pub fn behind_hexadecimal_digits(text: &[u8]) -> &[u8]
    ensures value { result.now ≡ behind is_hexadecimal_digit text.now }
    ensures within { length result.now ≤ length text.now }
{
    text.split_at(hexadecimal_run(text)).1
}

fn quoted_run(text: &[u8]) -> usize
    ensures value { result ≡ length (take_while is_inside_quotes text.now) }
    ensures within { result ≤ length text.now }
{
    text.iter().take_while(|b| **b != b'"').count()
}

/// After the leading bytes that are no `"`.
#[tactic(auto, using(crate::proofs::Behind::runs))]
pub fn behind_quoted_bytes(text: &[u8]) -> &[u8]
    ensures value { result.now ≡ behind is_inside_quotes text.now }
    ensures within { length result.now ≤ length text.now }
{
    text.split_at(quoted_run(text)).1
}

/// After the first byte, if it is this one.
pub fn after_byte(wanted: u8, text: &[u8]) -> Option<&[u8]>
    ensures value { option_copied result ≡ after_byte wanted text.now }
    ensures within { IfSome result (λ rest. length rest.now ≤ length text.now) }
{
    match text {
        [first, rest @ ..] if *first == wanted => Some(rest),
        _ => None,
    }
}

/// After the first byte, if it is a sign.
pub fn after_sign(text: &[u8]) -> Option<&[u8]>
    ensures value { option_copied result ≡ after_one is_sign text.now }
    ensures within { IfSome result (λ rest. length rest.now ≤ length text.now) }
{
    match text {
        [first, rest @ ..] if bytes::is_sign(*first) => Some(rest),
        _ => None,
    }
}

/// After one or more digits.
#[tactic(auto, unfolding(crate::specs::Scan::after_digits))]
pub fn after_digits(text: &[u8]) -> Option<&[u8]>
    ensures value { option_copied result ≡ after_digits text.now }
    ensures within { IfSome result (λ rest. length rest.now ≤ length text.now) }
{
    match text {
        [first, rest @ ..] if bytes::is_digit(*first) => Some(behind_digits(rest)),
        _ => None,
    }
}

/// The shorter of two rests, which follows the longer prefix; the first where they are equal.
pub fn shorter<'a>(rest: Option<&'a [u8]>, other: Option<&'a [u8]>) -> Option<&'a [u8]>
    ensures { option_copied result ≡ shorter (option_copied rest.entry) (option_copied other.entry) }
{
    match (rest, other) {
        (Some(rest), Some(other)) => Some(if other.len() < rest.len() {
            other
        } else {
            rest
        }),
        (Some(rest), None) => Some(rest),
        (None, other) => other,
    }
}
