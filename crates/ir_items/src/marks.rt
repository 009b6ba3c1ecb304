// Brackets.
ghost use Rattle.std.specs.Prelude.{◌≡◌, ◌<◌, List, ℕ, length, IfOk, IfErr, if◌then◌else◌, Some, None, slice_get, IsSomeAnd};
ghost use Rattle.ir_items.specs.Marks.{mark_in, mark_of, opens, closes, closing, marks_after, IsPiece};
ghost use Rattle.ir_items.specs.Pieces.{PieceStops};

use crate::fault::{ItemFault, Why};
use ir_lexer::{Kind, Tokens};
use std::alloc::{AllocError, Global};

// The byte of a mark of one byte, 0 for any other token.
fn mark_in(kind: Kind, text: &[u8]) -> u8
    ensures { result ≡ mark_in kind text.now }
{
    match (kind, text) {
        (Kind::Mark, [mark]) => *mark,
        _ => 0,
    }
}

// The mark at an index, 0 where another token is.
pub fn mark_at(tokens: &Tokens<'_>, place: usize) -> u8
    requires { place < length tokens.now }
    ensures { IsSomeAnd (slice_get tokens.now place) (λ t. result ≡ mark_of t) }
{
    let kind = tokens.kind(place);
    if kind != Kind::Mark {
        return 0;
    }
    mark_in(kind, tokens.text(place))
}

fn opens(mark: u8) -> bool
    ensures { result ≡ opens mark }
{
    mark == b'(' || mark == b'[' || mark == b'{'
}

fn closes(mark: u8) -> bool
    ensures { result ≡ closes mark }
{
    mark == b')' || mark == b']' || mark == b'}'
}

fn closing(mark: u8) -> u8
    ensures { result ≡ closing mark }
{
    if mark == b'(' {
        b')'
    } else if mark == b'[' {
        b']'
    } else {
        b'}'
    }
}

// Takes a mark in: true where it fits what is open.
fn fits(open: &mut Vec<u8>, mark: u8) -> Result<bool, AllocError>
    ensures { IfOk result (λ fits. marks_after (Some open.old.items) mark ≡ (if fits then Some open.new.items else None)) }
{
    if opens(mark) {
        open.push(closing(mark))?;
        return Ok(true);
    }
    if closes(mark) {
        return Ok(open.pop() == Some(mark));
    }
    Ok(true)
}

/// The index after the piece that begins at an index: a token that is no bracket, or an opening
/// mark and everything up to the mark that closes it.
pub fn piece_end(alloc: Global, tokens: &Tokens<'_>, from: usize) -> Result<usize, ItemFault>
    requires { from < length tokens.now }
    ensures ok { IfOk result (λ end. IsPiece tokens.now from end) }
    ensures stops { IfErr result (PieceStops tokens.now from) }
{
    let end = tokens.len();
    let mut open = Vec::new(alloc);
    for place in from..end {
        if !fits(&mut open, mark_at(tokens, place))? {
            let why = Why::Bracket;
            return Err(ItemFault::Stop { at: place, why });
        }
        if open.is_empty() {
            return Ok(place + 1);
        }
    }
    let why = Why::TextEnds;
    Err(ItemFault::Stop { at: end, why })
}
