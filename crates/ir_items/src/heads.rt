// What is at an index of the list of tokens.
ghost use Rattle.std.specs.Prelude.{◌≡◌, ◌+◌, ◌-◌, ◌<◌, ◌==◌, ◌&&◌, length, slice_get, codes, count_by};
ghost use Rattle.text_places.specs.Place.{is_line_feed};
ghost use Rattle.ir_items.specs.Items as spec;

use crate::layout::is_bad_layout;
use crate::marks::mark_at;
use ir_lexer::{Kind, Tokens};

fn is_word(kind: Kind, text: &[u8], word: &[u8]) -> bool
    ensures { result ≡ spec.is_word_of kind text.now word.now }
{
    match kind {
        Kind::Word => text == word,
        _ => false,
    }
}

fn is_head_word(kind: Kind, text: &[u8]) -> bool
    ensures { result ≡ spec.is_head_word_of kind text.now }
{
    is_word(kind, text, b"define")
        || is_word(kind, text, b"declare")
        || is_word(kind, text, b"source_filename")
        || is_word(kind, text, b"target")
        || is_word(kind, text, b"attributes")
        || is_word(kind, text, b"module")
        || is_word(kind, text, b"uselistorder")
        || is_word(kind, text, b"uselistorder_bb")
}

fn is_global(kind: Kind) -> bool
    ensures { result ≡ spec.is_global_kind kind }
{
    match kind {
        Kind::Global => true,
        _ => false,
    }
}

fn is_name(kind: Kind) -> bool
    ensures { result ≡ spec.is_name_kind kind }
{
    match kind {
        Kind::Local | Kind::Global | Kind::Comdat | Kind::Metadata | Kind::Caret => true,
        Kind::Word
        | Kind::Number
        | Kind::Hash
        | Kind::Label
        | Kind::Float
        | Kind::Hexadecimal
        | Kind::String
        | Kind::Mark => false,
    }
}

#[tactic(auto, using(crate::proofs::Passing::passing))]
fn is_word_at(tokens: &Tokens<'_>, place: usize, word: &[u8]) -> bool
    ensures { result ≡ spec.token_passes tokens.now (spec.is_word word.now) place }
{
    place < tokens.len() && is_word(tokens.kind(place), tokens.text(place), word)
}

#[tactic(auto, using(crate::proofs::Passing::passing))]
fn is_head_word_at(tokens: &Tokens<'_>, place: usize) -> bool
    ensures { result ≡ spec.token_passes tokens.now spec.is_head_word place }
{
    place < tokens.len() && is_head_word(tokens.kind(place), tokens.text(place))
}

#[tactic(auto, using(crate::proofs::Passing::passing))]
fn is_name_at(tokens: &Tokens<'_>, place: usize) -> bool
    ensures { result ≡ spec.token_passes tokens.now spec.is_name place }
{
    place < tokens.len() && is_name(tokens.kind(place))
}

#[tactic(auto, using(crate::proofs::Passing::passing))]
fn is_global_at(tokens: &Tokens<'_>, place: usize) -> bool
    ensures { result ≡ spec.token_passes tokens.now spec.is_global place }
{
    place < tokens.len() && is_global(tokens.kind(place))
}

#[tactic(auto, using(crate::proofs::Passing::passing))]
fn is_mark_at(tokens: &Tokens<'_>, place: usize, mark: u8) -> bool
    ensures { result ≡ spec.token_passes tokens.now (spec.is_mark mark) place }
{
    place < tokens.len() && mark_at(tokens, place) == mark
}

// Whether the token after an index is this mark.
#[tactic(auto, using(crate::proofs::Passing::passing))]
fn is_next_mark(tokens: &Tokens<'_>, place: usize, mark: u8) -> bool
    requires { place < length tokens.now }
    ensures { result ≡ spec.token_passes tokens.now (spec.is_mark mark) (place + 1) }
{
    place < tokens.len() - 1 && mark_at(tokens, place + 1) == mark
}

/// Whether a head is here: a word that begins an item, or a name with `=` after it.
#[tactic(auto, unfolding(crate::specs::Items::is_head))]
pub fn is_head(tokens: &Tokens<'_>, place: usize) -> bool
    requires { place < length tokens.now }
    ensures { result ≡ spec.is_head tokens.now place }
{
    is_head_word_at(tokens, place) || is_name_at(tokens, place) && is_next_mark(tokens, place, b'=')
}

/// Whether the word `define` is here.
#[tactic(auto, unfolding(crate::specs::Items::is_define))]
pub fn is_define(tokens: &Tokens<'_>, place: usize) -> bool
    ensures { result ≡ spec.is_define tokens.now place }
{
    is_word_at(tokens, place, b"define")
}

/// Whether a global name with `(` after it is here.
#[tactic(auto, unfolding(crate::specs::Items::is_called))]
pub fn is_called(tokens: &Tokens<'_>, place: usize) -> bool
    requires { place < length tokens.now }
    ensures { result ≡ spec.is_called tokens.now place }
{
    is_global_at(tokens, place) && is_next_mark(tokens, place, b'(')
}

/// Whether `{` is here.
#[tactic(auto, unfolding(crate::specs::Items::is_brace))]
pub fn is_brace(tokens: &Tokens<'_>, place: usize) -> bool
    ensures { result ≡ spec.is_brace tokens.now place }
{
    is_mark_at(tokens, place, b'{')
}

/// The number of line feeds in some bytes.
pub fn line_feeds(text: &[u8]) -> usize
    ensures { result ≡ count_by is_line_feed text.now }
{
    text.iter().filter(|b| **b == b'\n').count()
}

// Whether the token before an index ends on an earlier line than the one at the index begins.
fn begins_behind_line(tokens: &Tokens<'_>, place: usize) -> bool
    requires some { 0 < place }
    requires within { place < length tokens.now }
    ensures { result ≡ spec.token_passes tokens.now (spec.is_behind_line (slice_get tokens.now (place - 1))) place }
{
    let lines = line_feeds(tokens.text(place - 1)) as u64;
    lines < tokens.line(place).saturating_sub(tokens.line(place - 1))
}

#[tactic(auto, unfolding(crate::specs::Items::is_first_on_line), using(crate::proofs::Passing::passing))]
fn is_first_on_line(tokens: &Tokens<'_>, place: usize) -> bool
    requires { place < length tokens.now }
    ensures { result ≡ spec.is_first_on_line tokens.now place }
{
    place == 0 || begins_behind_line(tokens, place)
}

/// Whether a head is here as the first token of its line.
#[tactic(auto, unfolding(crate::specs::Items::begins_item))]
pub fn begins_item(tokens: &Tokens<'_>, place: usize) -> bool
    requires { place < length tokens.now }
    ensures { result ≡ spec.begins_item tokens.now place }
{
    is_head(tokens, place) && is_first_on_line(tokens, place)
}

fn has_bad_layout(kind: Kind, text: &[u8]) -> bool
    ensures { result ≡ (spec.is_plain_string kind text.now && spec.is_bad_layout text.now) }
{
    match (kind, text) {
        (Kind::String, [b'"', ..]) => is_bad_layout(text),
        _ => false,
    }
}

#[tactic(auto, using(crate::proofs::Passing::passing))]
fn has_bad_layout_at(tokens: &Tokens<'_>, place: usize) -> bool
    ensures { result ≡ spec.token_passes tokens.now spec.has_bad_layout place }
{
    place < tokens.len() && has_bad_layout(tokens.kind(place), tokens.text(place))
}

/// Whether a data layout begins here that isn't little-endian with pointers of 64 bits.
#[tactic(auto, unfolding(crate::specs::Items::is_wrong_layout))]
pub fn is_wrong_layout(tokens: &Tokens<'_>, place: usize) -> bool
    requires { place < length tokens.now }
    ensures { result ≡ spec.is_wrong_layout tokens.now place }
{
    4 <= tokens.len() - place
        && is_word_at(tokens, place, b"target")
        && is_word_at(tokens, place + 1, b"datalayout")
        && is_mark_at(tokens, place + 2, b'=')
        && has_bad_layout_at(tokens, place + 3)
}
