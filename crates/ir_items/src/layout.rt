// The data layout (LLVM Language Reference, "Data Layout").
ghost use Rattle.std.specs.Prelude.{◌≡◌, ◌-◌, ◌≤◌, not, List, [], ◌∷◌, ◌++◌, length, take, take_while, drop};
ghost use Rattle.ir_lexer.specs.Bytes.{is_digit};
ghost use Rattle.ir_lexer.specs.Parts.{behind};
ghost use Rattle.ir_items.specs.Items as spec;

use crate::names::{is_digit, without_zeros};

fn other_run(part: &[u8]) -> usize
    ensures value { result ≡ length (take_while (λ b. not (is_digit b)) part.now) }
    ensures within { result ≤ length part.now }
{
    part.iter().take_while(|b| !is_digit(**b)).count()
}

fn digit_run(part: &[u8]) -> usize
    ensures value { result ≡ length (take_while is_digit part.now) }
    ensures within { result ≤ length part.now }
{
    part.iter().take_while(|b| is_digit(**b)).count()
}

#[tactic(auto, using(crate::proofs::Passing::runs))]
fn behind_others(part: &[u8]) -> &[u8]
    ensures { result.now ≡ behind (λ b. not (is_digit b)) part.now }
{
    part.split_at(other_run(part)).1
}

#[tactic(auto, using(crate::proofs::Passing::runs))]
fn front_digits(part: &[u8]) -> &[u8]
    ensures { result.now ≡ take_while is_digit part.now }
{
    part.split_at(digit_run(part)).0
}

fn number_in(part: &[u8]) -> &[u8]
    ensures { result.now ≡ spec.number_in part.now }
{
    front_digits(behind_others(part))
}

fn begins_pointer(part: &[u8]) -> bool
    ensures { result ≡ spec.begins_pointer part.now }
{
    match part {
        [b'p', b':', ..] => true,
        _ => false,
    }
}

#[tactic(auto, unfolding(crate::specs::Items::is_bad_part))]
fn is_bad_part(part: &[u8]) -> bool
    ensures { result ≡ spec.is_bad_part part.now }
{
    part == b"E".as_slice()
        || begins_pointer(part)
            && !number_in(part).is_empty()
            && without_zeros(number_in(part)) != b"64".as_slice()
}

fn inside_quotes(text: &[u8]) -> &[u8]
    ensures { result.now ≡ spec.inside_quotes text.now }
{
    match text {
        [] => text,
        [_] => text.split_at(0).0,
        [_, rest @ ..] => rest.split_at(rest.len() - 1).0,
    }
}

#[tactic(auto, using(crate::proofs::LayoutParts::parts_of))]
fn some_bad_part(text: &[u8]) -> bool
    ensures { result ≡ spec.has_bad_part [] text.now }
{
    let mut start = 0;
    for (place, byte) in text.iter().enumerate() {
        if *byte == b'-' {
            if is_bad_part(&text[start..place]) {
                return true;
            }
            start = place + 1;
        }
    }
    is_bad_part(&text[start..])
}

/// Whether the layout in a string names big-endian bytes, or pointers of another width than 64.
#[tactic(auto, unfolding(crate::specs::Items::is_bad_layout))]
pub fn is_bad_layout(text: &[u8]) -> bool
    ensures { result ≡ spec.is_bad_layout text.now }
{
    some_bad_part(inside_quotes(text))
}
