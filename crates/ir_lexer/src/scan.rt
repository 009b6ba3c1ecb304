// The token at the start of a text. Each class has a function that returns what follows its
// longest prefix; the longest of them all is the token. The first byte of most tokens leaves one or
// a few classes, and only those are looked at. Each looks at the bytes that it takes and at no more
// than two after them, except a label, which needs the end of its run of name bytes: that is passed
// in, so that the tokens of one run don't each look for it again.
ghost use Rattle.std.specs.Prelude.{◌≡◌, ◌+◌, ◌≤◌, ◌==◌, ◌<◌, ◌^◌, ◌∷◌, ℕ, length, take, get_or, count_by, true, Option, Some, IfSome};
ghost use Rattle.text_places.specs.Place.{is_line_feed};
ghost use Rattle.std.specs.Option.{option_copied, ForSome};
ghost use Rattle.ir_lexer.specs.Bytes.{is_digit, is_sign, is_float_kind, is_hexadecimal_digit, is_mark_byte};
ghost use Rattle.ir_lexer.specs.Parts.{behind_one};
ghost use Rattle.ir_lexer.specs.Scan as scan;
ghost use Rattle.ir_lexer.specs.Tokens.{longest_token};

use crate::bytes;
use crate::parts::{
    after_byte, after_digits, after_sign, behind_hexadecimal_digits, behind_name_bytes,
    behind_quoted_bytes, name_run, shorter,
};
use crate::token::Kind;

#[tactic(auto, unfolding(crate::specs::Scan::after_dots))]
fn after_dots(text: &[u8]) -> Option<&[u8]>
    ensures value { option_copied result ≡ scan.after_dots text.now }
    ensures within { IfSome result (λ rest. length rest.now ≤ length text.now) }
{
    after_byte(b'.', after_byte(b'.', after_byte(b'.', text)?)?)
}

fn after_mark_byte(text: &[u8]) -> Option<&[u8]>
    ensures value { option_copied result ≡ scan.after_one is_mark_byte text.now }
    ensures within { IfSome result (λ rest. length rest.now ≤ length text.now) }
{
    match text {
        [first, rest @ ..] if bytes::is_mark_byte(*first) => Some(rest),
        _ => None,
    }
}

#[tactic(auto, unfolding(crate::specs::Scan::after_mark))]
fn after_mark(text: &[u8]) -> Option<&[u8]>
    ensures value { option_copied result ≡ scan.after_mark text.now }
    ensures within { IfSome result (λ rest. length rest.now ≤ length text.now) }
{
    shorter(after_mark_byte(text), after_dots(text))
}

#[tactic(auto, unfolding(crate::specs::Scan::after_word))]
fn after_word(text: &[u8]) -> Option<&[u8]>
    ensures value { option_copied result ≡ scan.after_word text.now }
    ensures within { IfSome result (λ rest. length rest.now ≤ length text.now) }
{
    match text {
        [first, rest @ ..] if bytes::begins_word(*first) => Some(behind_name_bytes(rest)),
        _ => None,
    }
}

#[tactic(auto, unfolding(crate::specs::Scan::after_number))]
fn after_number(text: &[u8]) -> Option<&[u8]>
    ensures value { option_copied result ≡ scan.after_number text.now }
    ensures within { IfSome result (λ rest. length rest.now ≤ length text.now) }
{
    match text {
        [b'-', digits @ ..] => after_digits(digits),
        _ => after_digits(text),
    }
}

#[tactic(auto, unfolding(crate::specs::Scan::after_quoted))]
fn after_quoted(text: &[u8]) -> Option<&[u8]>
    ensures value { option_copied result ≡ scan.after_quoted text.now }
    ensures within { IfSome result (λ rest. length rest.now ≤ length text.now) }
{
    let inside = after_byte(b'"', text)?;
    after_byte(b'"', behind_quoted_bytes(inside))
}

#[tactic(auto, unfolding(crate::specs::Scan::after_plain_name))]
fn after_plain_name(text: &[u8]) -> Option<&[u8]>
    ensures value { option_copied result ≡ scan.after_plain_name text.now }
    ensures within { IfSome result (λ rest. length rest.now ≤ length text.now) }
{
    match text {
        [first, rest @ ..] if bytes::begins_name(*first) => Some(behind_name_bytes(rest)),
        _ => None,
    }
}

fn after_name(text: &[u8]) -> Option<&[u8]>
    ensures value { option_copied result ≡ scan.after_name text.now }
    ensures within { IfSome result (λ rest. length rest.now ≤ length text.now) }
{
    let [first, ..] = text else {
        return None;
    };
    if bytes::begins_name(*first) {
        after_plain_name(text)
    } else if bytes::is_digit(*first) {
        after_digits(text)
    } else {
        after_quoted(text)
    }
}

#[tactic(auto, unfolding(crate::specs::Scan::after_named))]
fn after_named(sign: u8, text: &[u8]) -> Option<&[u8]>
    ensures value { option_copied result ≡ scan.after_named sign text.now }
    ensures within { IfSome result (λ rest. length rest.now ≤ length text.now) }
{
    after_name(after_byte(sign, text)?)
}

#[tactic(auto, unfolding(crate::specs::Scan::after_tagged))]
fn after_tagged(sign: u8, text: &[u8]) -> Option<&[u8]>
    ensures value { option_copied result ≡ scan.after_tagged sign text.now }
    ensures within { IfSome result (λ rest. length rest.now ≤ length text.now) }
{
    let rest = after_byte(sign, text)?;
    shorter(after_word(rest), after_number(rest))
}

#[tactic(auto, unfolding(crate::specs::Scan::after_caret))]
fn after_caret(text: &[u8]) -> Option<&[u8]>
    ensures value { option_copied result ≡ scan.after_caret text.now }
    ensures within { IfSome result (λ rest. length rest.now ≤ length text.now) }
{
    after_number(after_byte(b'^', text)?)
}

// The run is that of the leading name bytes.
#[tactic(auto, unfolding(crate::specs::Scan::after_plain_label), using(crate::proofs::Behind::runs))]
fn after_plain_label(text: &[u8], run: usize) -> Option<&[u8]>
    requires { run ≡ scan.name_run text.now }
    ensures value { option_copied result ≡ scan.after_plain_label text.now }
    ensures within { IfSome result (λ rest. length rest.now ≤ length text.now) }
{
    if run == 0 {
        return None;
    }
    after_byte(b':', text.split_at(run).1)
}

#[tactic(auto, unfolding(crate::specs::Scan::after_quoted_label))]
fn after_quoted_label(text: &[u8]) -> Option<&[u8]>
    ensures value { option_copied result ≡ scan.after_quoted_label text.now }
    ensures within { IfSome result (λ rest. length rest.now ≤ length text.now) }
{
    after_byte(b':', after_quoted(text)?)
}

#[tactic(auto, unfolding(crate::specs::Scan::after_label))]
fn after_label(text: &[u8], run: usize) -> Option<&[u8]>
    requires { run ≡ scan.name_run text.now }
    ensures value { option_copied result ≡ scan.after_label text.now }
    ensures within { IfSome result (λ rest. length rest.now ≤ length text.now) }
{
    shorter(after_plain_label(text, run), after_quoted_label(text))
}

#[tactic(auto, unfolding(crate::specs::Scan::after_exponent))]
fn after_exponent(text: &[u8]) -> Option<&[u8]>
    ensures value { option_copied result ≡ scan.after_exponent text.now }
    ensures within { IfSome result (λ rest. length rest.now ≤ length text.now) }
{
    after_digits(after_sign(after_byte(b'e', text)?)?)
}

fn behind_sign(text: &[u8]) -> &[u8]
    ensures value { result.now ≡ behind_one is_sign text.now }
    ensures within { length result.now ≤ length text.now }
{
    match text {
        [first, rest @ ..] if bytes::is_sign(*first) => rest,
        _ => text,
    }
}

#[tactic(auto, unfolding(crate::specs::Scan::after_float))]
fn after_float(text: &[u8]) -> Option<&[u8]>
    ensures value { option_copied result ≡ scan.after_float text.now }
    ensures within { IfSome result (λ rest. length rest.now ≤ length text.now) }
{
    let whole = after_digits(behind_sign(text))?;
    let fraction = after_digits(after_byte(b'.', whole)?)?;
    Some(after_exponent(fraction).unwrap_or(fraction))
}

fn behind_float_kind(text: &[u8]) -> &[u8]
    ensures value { result.now ≡ behind_one is_float_kind text.now }
    ensures within { length result.now ≤ length text.now }
{
    match text {
        [first, rest @ ..] if bytes::is_float_kind(*first) => rest,
        _ => text,
    }
}

fn after_hexadecimal_digits(text: &[u8]) -> Option<&[u8]>
    ensures value { option_copied result ≡ scan.after_some is_hexadecimal_digit text.now }
    ensures within { IfSome result (λ rest. length rest.now ≤ length text.now) }
{
    match text {
        [first, rest @ ..] if bytes::is_hexadecimal_digit(*first) => {
            Some(behind_hexadecimal_digits(rest))
        }
        _ => None,
    }
}

#[tactic(auto, unfolding(crate::specs::Scan::after_hexadecimal))]
fn after_hexadecimal(text: &[u8]) -> Option<&[u8]>
    ensures value { option_copied result ≡ scan.after_hexadecimal text.now }
    ensures within { IfSome result (λ rest. length rest.now ≤ length text.now) }
{
    let digits = after_byte(b'x', after_byte(b'0', text)?)?;
    after_hexadecimal_digits(behind_float_kind(digits))
}

#[tactic(auto, unfolding(crate::specs::Scan::after_string))]
fn after_string(text: &[u8]) -> Option<&[u8]>
    ensures value { option_copied result ≡ scan.after_string text.now }
    ensures within { IfSome result (λ rest. length rest.now ≤ length text.now) }
{
    match text {
        [b'c', quoted @ ..] => after_quoted(quoted),
        _ => after_quoted(text),
    }
}

// The longer of what was found and the prefix of this class before a rest.
#[tactic(auto, unfolding(crate::specs::Scan::longer))]
fn longer(
    found: Option<(Kind, usize)>,
    kind: Kind,
    text: &[u8],
    rest: Option<&[u8]>,
) -> Option<(Kind, usize)>
    requires { ForSome rest (λ r. length r.now ≤ length text.now) }
    ensures { result ≡ scan.longer (length text.now) found kind (option_copied rest.entry) }
{
    let Some(rest) = rest else {
        return found;
    };
    let len = text.len() - rest.len();
    let longest = match found {
        Some((_, longest)) => longest,
        None => 0,
    };
    if longest < len {
        Some((kind, len))
    } else {
        found
    }
}

#[tactic(auto, unfolding(crate::specs::Scan::front_token))]
fn scanned(text: &[u8], run: usize) -> Option<(Kind, usize)>
    requires { run ≡ scan.name_run text.now }
    ensures { result ≡ scan.front_token text.now }
{
    let found = longer(None, Kind::Mark, text, after_mark(text));
    let found = longer(found, Kind::Word, text, after_word(text));
    let found = longer(found, Kind::Number, text, after_number(text));
    let found = longer(found, Kind::Local, text, after_named(b'%', text));
    let found = longer(found, Kind::Global, text, after_named(b'@', text));
    let found = longer(found, Kind::Comdat, text, after_named(b'$', text));
    let found = longer(found, Kind::Metadata, text, after_tagged(b'!', text));
    let found = longer(found, Kind::Hash, text, after_tagged(b'#', text));
    let found = longer(found, Kind::Caret, text, after_caret(text));
    let found = longer(found, Kind::Label, text, after_label(text, run));
    let found = longer(found, Kind::Float, text, after_float(text));
    let found = longer(found, Kind::Hexadecimal, text, after_hexadecimal(text));
    longer(found, Kind::String, text, after_string(text))
}

#[tactic(auto, unfolding(crate::specs::Scan::number_token))]
fn number_token(text: &[u8], run: usize) -> Option<(Kind, usize)>
    requires { run ≡ scan.name_run text.now }
    ensures { result ≡ scan.number_token text.now }
{
    let found = longer(None, Kind::Number, text, after_number(text));
    let found = longer(found, Kind::Label, text, after_label(text, run));
    let found = longer(found, Kind::Float, text, after_float(text));
    longer(found, Kind::Hexadecimal, text, after_hexadecimal(text))
}

/// The leading run of name bytes, which is scanned only where it isn't known, as 0.
pub fn run_at_front(text: &[u8], known: usize) -> usize
    requires { 0 < known → known ≡ scan.name_run text.now }
    ensures { result ≡ scan.name_run text.now }
{
    if known == 0 { name_run(text) } else { known }
}

// The token of a run of name bytes that begins neither with a digit nor with a mark, before a rest.
fn word_or_label(run: usize, rest: &[u8]) -> (Kind, usize)
    requires { run + length rest.now < 2 ^ 64 }
    ensures { result ≡ scan.word_or_label run rest.now }
{
    match rest {
        [b':', ..] => (Kind::Label, run + 1),
        _ => (Kind::Word, run),
    }
}

// The token at the start, where it is a local name without quotes that is no number. What follows the
// `%` is passed in.
fn plain_local(rest: &[u8]) -> Option<(Kind, usize)>
    requires { 1 + length rest.now < 2 ^ 64 }
    ensures token { IfSome result (λ found. scan.front_token (37 ∷ rest.now) ≡ Some found) }
    ensures line { IfSome result (λ found. count_by is_line_feed (take found.1 (37 ∷ rest.now)) ≡ 0) }
{
    match rest {
        [first, ..] if bytes::begins_name(*first) => Some((Kind::Local, 1 + name_run(rest))),
        _ => None,
    }
}

/// The token at the start, where its first bytes tell its class and no quotes begin there: a mark, a
/// local name, a word or a label. It has no line feed. The leading run of name bytes is scanned only
/// where it isn't known, as 0.
pub fn plain_token(text: &[u8], known: usize) -> Option<(Kind, usize)>
    requires { 0 < known → known ≡ scan.name_run text.now }
    ensures token { IfSome result (λ found. scan.front_token text.now ≡ Some found) }
    ensures line { IfSome result (λ found. count_by is_line_feed (take found.1 text.now) ≡ 0) }
{
    let [first, rest @ ..] = text else {
        return None;
    };
    let first = *first;
    if bytes::is_lone_mark(first) {
        Some((Kind::Mark, 1))
    } else if first == b'%' {
        plain_local(rest)
    } else if bytes::begins_plain_word(first) {
        let run = run_at_front(text, known);
        Some(word_or_label(run, text.split_at(run).1))
    } else {
        None
    }
}

// The longest token at the start.
#[tactic(auto, using(crate::proofs::Behind::runs))]
fn dispatched(text: &[u8], run: usize) -> Option<(Kind, usize)>
    requires { run ≡ scan.name_run text.now }
    ensures { result ≡ scan.front_token text.now }
{
    let [first, ..] = text else {
        return None;
    };
    let first = *first;
    if first == b'%' {
        longer(None, Kind::Local, text, after_named(b'%', text))
    } else if bytes::begins_number(first) {
        number_token(text, run)
    } else {
        scanned(text, run)
    }
}

/// The longest token at the start, and its length. The run is that of the leading name bytes.
pub fn first_token(text: &[u8], run: usize) -> Option<(Kind, usize)>
    requires { run ≡ scan.name_run text.now }
    ensures value { result ≡ longest_token text.now }
    ensures bounds { IfSome result (λ found. (0 < found.1) × (found.1 ≤ length text.now)) }
{
    dispatched(text, run)
}
