//! Lines and columns.

use crate::expecting::expect;
use std::test::Fail;
use text_places::Place;

/// Where a text ends that begins at line 1 and column 1.
fn end_of(text: &str) -> Option<(u64, u64)> {
    let bytes = text.as_bytes();
    if bytes.len() >= 100 {
        return None;
    }
    let end = Place { line: 1, column: 1 }.behind(bytes);
    Some((end.line, end.column))
}

#[test]
fn positions_are_counted() -> Result<(), Fail> {
    expect(Place::start() == Place { line: 1, column: 1 }, "the start")?;
    let rows = [
        ("", 1, 1),
        ("ab", 1, 3),
        ("ab\n", 2, 1),
        ("a\r\nbc", 2, 3),
        ("\n\n\tx", 3, 3),
    ];
    for &(text, line, column) in &rows {
        expect(end_of(text) == Some((line, column)), text)?;
    }
    Ok(())
}
