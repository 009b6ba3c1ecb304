ghost use Rattle.std.specs.Prelude.{◌≡◌, ◌<◌, ◌≤◌, ◌++◌, OnOk, IfOk, if◌then◌else◌};
ghost use Rattle.std.specs.List.{flat_map, list_all};
ghost use Rattle.ir_naming.specs.Naming.{hex_digit as hex_digit_of, hex_byte, is_between, is_digit as is_digit_of, is_name_byte as is_name_byte_of, is_bare as is_bare_of, is_plain as is_plain_of, escaped, quoted, name_text as text_of_name};

use ir_tree::Name;
use std::alloc::Global;
use support::NoMemory;

/// What is printed of a name after its sign: a number's digits or a word as they are, and any other
/// name in quotes (LLVM Language Reference, "Identifiers"). Between quotes a byte outside 0x20 to 0x7e,
/// a quote and a backslash are written as a backslash and two hexadecimal digits in upper case.
pub fn name_text(alloc: Global, name: &Name) -> Result<Vec<u8>, NoMemory>
    ensures { IfOk result (λ text. text.items ≡ text_of_name name.now) }
{
    let mut text = Vec::new(alloc);
    push_name(&mut text, name)?;
    Ok(text)
}

/// Appends what is printed of a name.
pub fn push_name(out: &mut Vec<u8>, name: &Name) -> Result<(), NoMemory>
    ensures { OnOk result (out.new.items ≡ out.old.items ++ text_of_name name.now) }
{
    match name {
        Name::Number(digits) => out.extend_from_slice(digits.as_slice())?,
        Name::Word(bytes) => push_word(out, bytes.as_slice())?,
    }
    Ok(())
}

fn push_word(out: &mut Vec<u8>, bytes: &[u8]) -> Result<(), NoMemory>
    ensures { OnOk result (out.new.items ≡ out.old.items ++ (if is_bare_of bytes.now then bytes.now else quoted bytes.now)) }
{
    if is_bare(bytes) {
        out.extend_from_slice(bytes)?;
        return Ok(());
    }
    push_quoted(out, bytes)
}

fn push_quoted(out: &mut Vec<u8>, bytes: &[u8]) -> Result<(), NoMemory>
    ensures { OnOk result (out.new.items ≡ out.old.items ++ quoted bytes.now) }
{
    out.extend_from_slice(b"\"")?;
    push_escaped(out, bytes)?;
    out.extend_from_slice(b"\"")?;
    Ok(())
}

fn push_escaped(out: &mut Vec<u8>, bytes: &[u8]) -> Result<(), NoMemory>
    ensures { OnOk result (out.new.items ≡ out.old.items ++ flat_map escaped bytes.now) }
{
    for byte in bytes {
        push_escaped_byte(out, *byte)?;
    }
    Ok(())
}

fn push_escaped_byte(out: &mut Vec<u8>, byte: u8) -> Result<(), NoMemory>
    ensures { OnOk result (out.new.items ≡ out.old.items ++ escaped byte) }
{
    if is_plain(byte) {
        out.push(byte)?;
        return Ok(());
    }
    out.extend_from_slice(b"\\")?;
    push_hex_byte(out, byte, b'A')
}

/// Appends a byte as two hexadecimal digits; `ten` is the letter for ten.
pub fn push_hex_byte(out: &mut Vec<u8>, byte: u8, ten: u8) -> Result<(), NoMemory>
    requires { ten ≤ 97 }
    ensures { OnOk result (out.new.items ≡ out.old.items ++ hex_byte ten byte) }
{
    out.push(hex_digit(byte / 16, ten))?;
    out.push(hex_digit(byte % 16, ten))?;
    Ok(())
}

fn hex_digit(n: u8, ten: u8) -> u8
    requires digit { n < 16 }
    requires letter { ten ≤ 97 }
    ensures { result ≡ hex_digit_of ten n }
{
    if n < 10 { b'0' + n } else { ten + (n - 10) }
}

fn is_bare(bytes: &[u8]) -> bool
    ensures { result ≡ is_bare_of bytes.now }
{
    match bytes {
        [] => false,
        [first, ..] => !is_digit(*first) && are_name_bytes(bytes),
    }
}

fn are_name_bytes(bytes: &[u8]) -> bool
    ensures { result ≡ list_all is_name_byte_of bytes.now }
{
    bytes.iter().all(|byte| is_name_byte(*byte))
}

fn is_digit(byte: u8) -> bool
    ensures { result ≡ is_digit_of byte }
{
    is_in(b'0', b'9', byte)
}

fn is_name_byte(byte: u8) -> bool
    ensures { result ≡ is_name_byte_of byte }
{
    is_in(b'a', b'z', byte)
        || is_in(b'A', b'Z', byte)
        || is_digit(byte)
        || byte == b'-'
        || byte == b'$'
        || byte == b'.'
        || byte == b'_'
}

fn is_plain(byte: u8) -> bool
    ensures { result ≡ is_plain_of byte }
{
    is_in(b' ', b'~', byte) && byte != b'"' && byte != b'\\'
}

fn is_in(first: u8, last: u8, byte: u8) -> bool
    ensures { result ≡ is_between first last byte }
{
    first <= byte && byte <= last
}
