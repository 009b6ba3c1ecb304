// Numbers as decimal digits spell them.
ghost use Rattle.std.specs.Prelude.{◌≡◌, ◌==◌, ◌^◌, true, false, if◌then◌else◌, Some, None, nat_eq};
ghost use Rattle.std.specs.List.{list_all, list_any};
ghost use Rattle.ir_tree.specs.Limits.{alignments};
ghost use Rattle.ir_lexer.specs.Bytes.{is_digit};
ghost use Rattle.ir_lexer.specs.Spelling.{is_digits};
ghost use Rattle.ir_words.specs.Numbers.{value_of, some_below, width_of, magnitude, in_range, wrapped, literal_in};
ghost use Rattle.ir_words.specs.Spelling.{is_alignment, is_length};

use tv_num::Width;

/// The number of these digits, if it is below two to the 64.
fn number(digits: &[u8]) -> Option<u64>
    ensures { result ≡ some_below (2 ^ 64) (value_of digits.now) }
{
    let mut value = 0u64;
    for digit in digits {
        value = value
            .checked_mul(10)?
            .checked_add(u64::from(digit.saturating_sub(48)))?;
    }
    Some(value)
}

fn is_digit_byte(b: u8) -> bool
    ensures { result ≡ is_digit b }
{
    48 <= b && b <= 57
}

fn all_digits(bytes: &[u8]) -> bool
    ensures { result ≡ list_all is_digit bytes.now }
{
    bytes.iter().all(|b| is_digit_byte(*b))
}

/// Whether these are digits, at least one.
pub fn some_digits(bytes: &[u8]) -> bool
    ensures { result ≡ is_digits bytes.now }
{
    match bytes {
        [] => false,
        _ => all_digits(bytes),
    }
}

/// The width of the number of bits that these digits spell, if there is one.
pub fn width(digits: &[u8]) -> Option<Width>
    ensures { result ≡ width_of (value_of digits.now) }
{
    let Some(bits) = number(digits) else {
        return None;
    };
    if bits < 1 {
        return None;
    }
    if 64 < bits {
        return None;
    }
    Some(Width::of(bits as u32))
}

/// The literal of a width that a number token spells, wrapped to the width, if it is in range.
pub fn literal(width: Width, text: &[u8]) -> Option<u64>
    ensures { result ≡ literal_in width.bits text.now }
{
    match text {
        [b'-', digits @ ..] => negative(width, digits),
        _ => positive(width, text),
    }
}

fn positive(width: Width, digits: &[u8]) -> Option<u64>
    ensures { result ≡ (if in_range width.bits false (value_of digits.now) then Some (value_of digits.now) else None) }
{
    let value = number(digits)?;
    if u128::from(value) < width.end() {
        Some(value)
    } else {
        None
    }
}

fn negative(width: Width, digits: &[u8]) -> Option<u64>
    ensures { result ≡ (if in_range width.bits true (value_of digits.now) then Some (wrapped width.bits true (value_of digits.now)) else None) }
{
    let magnitude = number(digits)?;
    if magnitude > width.half() {
        return None;
    }
    Some(((width.end() - u128::from(magnitude)) % width.end()) as u64)
}

fn is_power(align: u64) -> bool
    ensures { result ≡ list_any (nat_eq align) alignments }
{
    matches!(
        align,
        1 | 2 | 4 | 8 | 16 | 32 | 64 | 128 | 256 | 512 | 1024 | 2048 | 4096
    )
}

/// The alignment that a number token spells, if it is a power of two from 1 to 4,096.
pub fn alignment(text: &[u8]) -> Option<u64>
    ensures { result ≡ (if is_alignment text.now then Some (magnitude text.now) else None) }
{
    match text {
        [b'-', ..] => None,
        _ => power(text),
    }
}

fn power(digits: &[u8]) -> Option<u64>
    ensures { result ≡ (if list_any (nat_eq (value_of digits.now)) alignments then Some (value_of digits.now) else None) }
{
    let value = number(digits)?;
    if is_power(value) { Some(value) } else { None }
}

/// The length of an array that a number token spells, if it is in range.
pub fn array_length(text: &[u8]) -> Option<u64>
    ensures { result ≡ (if is_length text.now then Some (magnitude text.now) else None) }
{
    match text {
        [b'-', digits @ ..] => no_number(digits),
        _ => number(text),
    }
}

// Zero, if these digits spell it.
fn no_number(digits: &[u8]) -> Option<u64>
    ensures { result ≡ (if value_of digits.now == 0 then Some (value_of digits.now) else None) }
{
    match number(digits) {
        Some(0) => Some(0),
        _ => None,
    }
}
