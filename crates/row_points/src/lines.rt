//! The lines of a report.

ghost use Rattle.std.specs.Prelude.{◌≢◌, ◌≤◌, ◌<◌, IfSome, IsTrue, IsFalse, Some, length, slice_get, take};
ghost use Rattle.row_points.specs.Lines.{BeginsWithRow, EndsLine, IsFromLine};

use memchr::memchr;

/// Whether a line begins at this index.
fn begins_line(text: &[u8], at: usize) -> bool
    requires { at ≤ length text.now }
    ensures { IsTrue result → EndsLine (take at text.now) }
{
    at == 0 || text[at - 1] == b'\n'
}

/// The bytes of a text from the first of its lines on that begins with these bytes.
pub fn row_from<'r>(text: &'r [u8], line: &[u8]) -> Option<&'r [u8]>
    ensures { IfSome result (λ row. IsFromLine text.now row.now) }
{
    for at in 0..text.len() {
        if begins_line(text, at) && text[at..].starts_with(line) {
            return Some(&text[at..]);
        }
    }
    None
}

/// Whether the first line is a further one of the row before it.
fn goes_on(text: &[u8]) -> bool
    ensures { IsFalse result → slice_get text.now 0 ≢ Some 32 }
{
    match text {
        [first, ..] => *first == b' ',
        [] => false,
    }
}

/// Whether the text begins with a row, and has no other line of that row after it.
pub fn begins_with_row(text: &[u8], row: &[u8]) -> bool
    ensures { IsTrue result → BeginsWithRow text.now row.now }
{
    let Some(after) = text.strip_prefix(row) else {
        return false;
    };
    if goes_on(after) {
        return false;
    }
    true
}

/// What comes before the first of these bytes, and what comes after it.
pub fn split_at_byte(byte: u8, text: &[u8]) -> Option<(&[u8], &[u8])>
    ensures { IfSome result (λ parts. length parts.1.now < length text.now) }
{
    let at = memchr(byte, text)?;
    Some((&text[..at], &text[at + 1..]))
}
