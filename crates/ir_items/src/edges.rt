// Where lists of tokens begin and end.
ghost use Rattle.std.specs.Prelude.{◌≡◌, ◌-◌, ◌<◌, ◌^◌, ◌++◌, List, length, min, slice_get, IsSomeAnd, true};
ghost use Rattle.ir_lexer.specs.Lexeme.{Lexeme};
ghost use Rattle.ir_items.specs.Items.{last_line};
ghost use Rattle.ir_items.specs.Joined as spec;
ghost use Rattle.ir_items.specs.Joined.{AreEdges, Meets};

use crate::heads::line_feeds;
use ir_lexer::Tokens;

/// The lines on which some tokens begin and end.
#[derive(Clone, Copy)]
pub struct Edges {
    /// The line on which the first token begins, counted from 1.
    pub first_line: u64,
    /// The line on which the last token ends. Where that doesn't fit in 64 bits it is `u64::MAX`.
    pub last_line: u64,
}

// The line on which the token at an index ends.
fn last_line(tokens: &Tokens<'_>, place: usize) -> u64
    requires { place < length tokens.now }
    ensures { IsSomeAnd (slice_get tokens.now place) (λ t. result ≡ min (last_line t) (2 ^ 64 - 1)) }
{
    let lines = line_feeds(tokens.text(place)) as u64;
    tokens.line(place).saturating_add(lines)
}

/// The edges of some tokens; none where there is no token.
pub fn edges_of(tokens: &Tokens<'_>) -> Option<Edges>
    ensures { AreEdges tokens.now result }
{
    let count = tokens.len();
    if count == 0 {
        return None;
    }
    Some(Edges {
        first_line: tokens.line(0),
        last_line: last_line(tokens, count - 1),
    })
}

/// Whether tokens begin on a later line than others end, by the edges of both.
pub fn do_meet(front: Option<Edges>, back: Option<Edges>) -> bool
    ensures value { result ≡ spec.do_meet front back }
    ensures meets { result ≡ true → (ours theirs : List Lexeme) → AreEdges ours front → AreEdges theirs back → Meets ours theirs }
{
    match (front, back) {
        (Some(front), Some(back)) => front.last_line < back.first_line,
        _ => true,
    }
}

/// The edges of tokens and of others after them, by the edges of both.
pub fn joined_edges(front: Option<Edges>, back: Option<Edges>) -> Option<Edges>
    ensures { (ours theirs : List Lexeme) → AreEdges ours front → AreEdges theirs back → AreEdges (ours ++ theirs) result }
{
    match (front, back) {
        (Some(front), Some(back)) => Some(Edges {
            first_line: front.first_line,
            last_line: back.last_line,
        }),
        (None, edges) | (edges, None) => edges,
    }
}
