// Reading a module by several workers, each in its part of the text.
ghost use Rattle.std.specs.Prelude.{◌≡◌, ◌+◌, ◌<◌, ◌≤◌, ℕ, List, length, map, true, IfOk, IfErr, IfSome};
ghost use Rattle.std.specs.List.{AllByRecursion, IsDistinct};
ghost use Rattle.std.specs.Thread.{IsSync};
ghost use Rattle.ir_lexer.specs.Part.{IsStart};
ghost use Rattle.ir_items.specs.Items.{IsCut};
ghost use Rattle.ir_reader.specs.Beside.{IsSpan};
ghost use Rattle.ir_reader.specs.Module.{IsModule, IsFault, AreEntries};
ghost use Rattle.ir_reader.specs.Judgeable.{IsJudgeableEntry};
ghost use Rattle.ir_tree.specs.Names.{same_name};

use crate::fault::ModuleFault;
use crate::reading::{answer, read};
use ir_items::{Define, Edges, MOST_FUNCTIONS, cut, do_meet, edges_of, joined_edges};
use ir_lexer::{Part, Start, Tokens, lex_part};
use ir_tree::{Entry, Module, Names, copy_name};
use memchr::memmem;
use std::alloc::Global;
use std::thread::{Threads, join};
use support::{NoMemory, Sequence};

// The least number of bytes for a worker: to start a thread takes as long as to read some of them.
const BLOCK: u64 = 65_536;

// What was read of a part of a text: the entries of its defines, the edges of its tokens, and the
// number of bytes before what follows.
#[derive(Drop)]
struct Span {
    entries: Vec<Entry>,
    edges: Option<Edges>,
    after: usize,
}

/// The same module or fault as [`read`](crate::read) returns, by this many workers: each reads a part
/// of the text, in pieces, and what they read is joined. Where the parts don't fit together, as where
/// one begins inside a string, the text is read by [`read`](crate::read). Where a thread can't be
/// started its work is done by the caller.
///
/// # Errors
/// As [`read`](crate::read).
pub fn read_beside<R: Threads + Sync>(
    rt: &R,
    alloc: Global,
    text: &[u8],
    workers: u64,
) -> Result<Module, ModuleFault>
    ensures module { IfOk result (λ m. IsModule text.now m) }
    ensures fault { IfErr result (IsFault text.now) }
    ensures judgeable { IfOk result (λ m. AllByRecursion IsJudgeableEntry m.entries) }
    ensures different { IfOk result (λ m. IsDistinct same_name (map (λ e. e.name) m.entries)) }
{
    let workers = workers.min(text.len() as u64 / BLOCK).max(1);
    match module_beside(rt, alloc, text, workers) {
        Some(module) => Ok(module),
        None => read(alloc, text),
    }
}

// The module that the parts of a text are together. None where they are none for themselves, as
// where a part begins inside a string, and where memory runs out.
fn module_beside<R: Threads + Sync>(
    rt: &R,
    alloc: Global,
    text: &[u8],
    workers: u64,
) -> Option<Module>
    ensures module { IfSome result (λ m. IsModule text.now m) }
    ensures judgeable { IfSome result (λ m. AllByRecursion IsJudgeableEntry m.entries) }
    ensures different { IfSome result (λ m. IsDistinct same_name (map (λ e. e.name) m.entries)) }
{
    let span = span_beside(rt, alloc, text, Start::first(text), text.len(), workers)?;
    if span.after != text.len() || span.entries.len() > MOST_FUNCTIONS {
        return None;
    }
    if !have_own_names(alloc, span.entries.as_slice()).ok()? {
        return None;
    }
    Some(Module {
        entries: Sequence::from_vec(span.entries),
    })
}

// Whether no two entries have the same name.
fn have_own_names(alloc: Global, entries: &[Entry]) -> Result<bool, NoMemory>
    ensures { IfOk result (λ own. own ≡ true → IsDistinct same_name (map (λ e. e.name) entries.now)) }
{
    let mut names = Names::new(alloc);
    for entry in entries {
        if names.find(&entry.name).is_some() {
            return Ok(false);
        }
        names.number(copy_name(alloc, &entry.name)?)?;
    }
    Ok(true)
}

// The entries of the defines among some tokens.
fn entries_of(
    alloc: Global,
    tokens: &Tokens<'_>,
    defines: Sequence<Define>,
) -> Result<Vec<Entry>, NoMemory>
    requires { IsCut tokens.now (length tokens.now) defines }
    ensures { IfOk result (λ entries. AreEntries tokens.now defines entries.items) }
{
    let mut entries = Vec::with_capacity(alloc, defines.len())?;
    let mut walk = tokens.walk();
    for define in defines.into_vec() {
        // So the index after the last one is a `usize`.
        prove!(define.last < tokens.len());
        let taken = walk.take(alloc, define.first, define.last + 1)?;
        let function = answer(alloc, taken.as_slice())?;
        entries.push(Entry {
            name: define.name,
            function,
        })?;
    }
    Ok(entries)
}

// The least number of bytes of a piece, where its part has so many. The table of their tokens takes
// some four times as many.
const PIECE: usize = 1 << 20;

// What a piece of a text is, from a start on up to the first token that begins at an offset or after
// it.
fn piece_of(alloc: Global, text: &[u8], start: Start, end: usize) -> Option<Span>
    requires start { IsStart text.now start }
    requires end { end ≤ length text.now }
    ensures { IfSome result (IsSpan text.now start.at) }
{
    let Part { tokens, after } = lex_part(alloc, text, start, end).ok()?;
    let defines = cut(alloc, &tokens).ok()?;
    let entries = entries_of(alloc, &tokens, defines).ok()?;
    let edges = edges_of(&tokens);
    Some(Span {
        entries,
        edges,
        after,
    })
}

// What was read of the first pieces of a part, and where the last of them begins.
#[derive(Drop)]
struct Pieces {
    last: Start,
    span: Span,
}

// These pieces and the next one of a part that ends at an offset. None where they don't meet, and
// where the next one has no token.
fn with_piece(alloc: Global, text: &[u8], pieces: Pieces, end: usize) -> Option<Pieces>
    requires last { IsStart text.now pieces.last }
    requires within { pieces.span.after ≤ length text.now }
    requires end { end ≤ length text.now }
    ensures last { IfSome result (λ more. IsStart text.now more.last) }
    ensures span { (from : ℕ) → IsSpan text.now from pieces.span → IfSome result (λ more. IsSpan text.now from more.span) }
    ensures further { IfSome result (λ more. pieces.span.after < more.span.after) }
{
    let Pieces { last, span } = pieces;
    let before = span.after;
    // From the start of the part each piece would count the lines of all before it.
    let start = last.later(text, before.checked_sub(last.at)?);
    let until = line_of_define(text, start.at.saturating_add(PIECE).min(end), end);
    let piece = Second {
        from: start.at,
        span: piece_of(alloc, text, start, until),
    };
    let span = joined(span, piece)?;
    if span.after <= before {
        return None;
    }
    Some(Pieces { last: start, span })
}

// What a part of a text is, from a start on up to the first token that begins at an offset or after
// it, piece by piece.
fn span_of(alloc: Global, text: &[u8], start: Start, end: usize) -> Option<Span>
    requires start { IsStart text.now start }
    requires end { end ≤ length text.now }
    ensures { IfSome result (IsSpan text.now start.at) }
{
    let mut pieces = Pieces {
        last: start,
        span: Span {
            entries: Vec::new(alloc),
            edges: None,
            after: start.at,
        },
    };
    while pieces.span.after < end {
        pieces = with_piece(alloc, text, pieces, end)?;
    }
    Some(pieces.span)
}

// The offset of the first line that begins with `define` after an offset and before another one;
// where there is none, that one.
fn line_of_define(text: &[u8], from: usize, end: usize) -> usize
    requires order { from ≤ end }
    requires within { end ≤ length text.now }
    ensures from { from ≤ result }
    ensures end { result ≤ end }
{
    match memmem::find(&text[from..end], b"\ndefine") {
        Some(line_feed) => from + line_feed + 1,
        None => end,
    }
}

// How many bytes after an offset the part of the first `front` of `workers` workers has, of those
// before another one: about their share, up to a line that begins with `define`.
fn share_of(text: &[u8], start: usize, end: usize, front: u64, workers: u64) -> usize
    requires order { start ≤ end }
    requires within { end ≤ length text.now }
    requires some_worker { 0 < workers }
    ensures { start + result ≤ end }
{
    let len = end - start;
    let share = (len as u64 / workers).saturating_mul(front);
    let share = (share as usize).min(len);
    line_of_define(text, start + share, end) - start
}

// What the second part of a text is, and the offset where it begins.
#[derive(Drop)]
struct Second {
    from: usize,
    span: Option<Span>,
}

// What was read of two parts of a text, if the one ends where the other begins.
fn joined(front: Span, back: Second) -> Option<Span>
    ensures { (text : List ℕ) (from : ℕ) → IsSpan text from front → IfSome back.span (IsSpan text back.from) → IfSome result (IsSpan text from) }
{
    if front.after != back.from {
        return None;
    }
    let mut others = back.span?;
    if !do_meet(front.edges, others.edges) {
        return None;
    }
    let mut entries = front.entries;
    entries.append(&mut others.entries).ok()?;
    Some(Span {
        entries,
        edges: joined_edges(front.edges, others.edges),
        after: others.after,
    })
}

// What a part of a text is that begins this many bytes after a start, and where.
#[cycle(workers)]
fn second_span<R: Threads + Sync>(
    rt: &R,
    alloc: Global,
    text: &[u8],
    start: Start,
    len: usize,
    end: usize,
    workers: u64,
) -> Second
    requires start { IsStart text.now start }
    requires len { start.at + len ≤ length text.now }
    requires end { end ≤ length text.now }
    ensures { IfSome result.span (IsSpan text.now result.from) }
{
    let middle = start.later(text, len);
    let from = middle.at;
    let span = span_beside(rt, alloc, text, middle, end, workers);
    Second { from, span }
}

// What a part of a text is, as `span_of` returns it, by this many workers.
#[cycle(workers)]
fn span_beside<R: Threads + Sync>(
    rt: &R,
    alloc: Global,
    text: &[u8],
    start: Start,
    end: usize,
    workers: u64,
) -> Option<Span>
    requires start { IsStart text.now start }
    requires end { end ≤ length text.now }
    ensures { IfSome result (IsSpan text.now start.at) }
{
    if workers < 2 || end < start.at {
        return span_of(alloc, text, start, end);
    }
    let others = workers / 2;
    let rest = workers - others;
    let len = share_of(text, start.at, end, others, workers);
    let until = start.at + len;
    let (front, back) = join(
        rt,
        || -> Option<Span>
            requires { IsSync R.row × IsStart text.now start × (until ≤ length text.now) }
            ensures { IfSome result (IsSpan text.entry.now start.at) }
        { span_beside(rt, alloc, text, start, until, others) },
        || -> Second
            requires { IsSync R.row × IsStart text.now start × (start.at + len ≤ length text.now) × (end ≤ length text.now) }
            ensures { IfSome result.span (IsSpan text.entry.now result.from) }
        { second_span(rt, alloc, text, start, len, end, rest) },
    );
    joined(front?, back)
}
