// Blanks and comments, and the position after them.
ghost use Rattle.std.specs.Prelude.{◌≡◌, ◌+◌, ◌<◌, ◌≤◌, ◌^◌, ◌++◌, ℕ, List, length, take, drop, true, false};
ghost use Rattle.text_places.specs.Place.{place_behind};
ghost use Rattle.ir_lexer.specs.Tokens.{behind_blanks};

use crate::bytes;
use text_places::Place;

/// How many bytes of a text were passed, and the position after them.
#[derive(Clone, Copy)]
pub struct Passed {
    pub len: usize,
    pub place: Place,
}

// To the end of a comment, of which this many bytes of the text were passed: behind the line feed, or
// to the end of the text.
fn comment(text: &[u8], from: usize, place: Place) -> Passed
    requires within { from < length text.now }
    requires line { place.line + length text.now < from + 2 ^ 64 }
    requires column { place.column + length text.now < from + 2 ^ 64 }
    ensures value { behind_blanks false (drop result.len text.now) ≡ behind_blanks true (drop from text.now) }
    ensures within { (from < result.len) × (result.len ≤ length text.now) }
    ensures line { result.place.line + from ≤ place.line + result.len }
    ensures column { result.place.column + from ≤ place.column + result.len }
    ensures place { (before : List ℕ) → place ≡ place_behind (before ++ take from text.now)
        → result.place ≡ place_behind (before ++ take result.len text.now) }
{
    let mut len = from;
    let mut column = place.column;
    while len < text.len() {
        if text[len] == b'\n' {
            return Passed {
                len: len + 1,
                place: Place {
                    line: place.line + 1,
                    column: 1,
                },
            };
        }
        len += 1;
        column += 1;
    }
    Passed {
        len,
        place: Place {
            line: place.line,
            column,
        },
    }
}

/// The leading blanks and comments of a text, which begins at this position. A comment runs from `;` to
/// the line feed or to the end.
pub fn blanks(text: &[u8], start: Place) -> Passed
    requires line { start.line + length text.now < 2 ^ 64 }
    requires column { start.column + length text.now < 2 ^ 64 }
    ensures value { drop result.len text.now ≡ behind_blanks false text.now }
    ensures within { result.len ≤ length text.now }
    ensures place { (before : List ℕ) → start ≡ place_behind before → result.place ≡ place_behind (before ++ take result.len text.now) }
{
    let mut len = 0;
    let mut place = start;
    while len < text.len() {
        let byte = text[len];
        if byte == b'\n' {
            place = Place {
                line: place.line + 1,
                column: 1,
            };
            len += 1;
        } else if bytes::is_blank(byte) {
            place.column += 1;
            len += 1;
        } else if byte == b';' {
            let passed = comment(text, len, place);
            place = passed.place;
            len = passed.len;
        } else {
            break;
        }
    }
    Passed { len, place }
}
