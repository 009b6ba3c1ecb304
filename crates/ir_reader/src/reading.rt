// Reading a module.
ghost use Rattle.std.specs.Prelude.{◌≡◌, ◌+◌, ◌<◌, ◌≤◌, ◌^◌, ℕ, List, drop, length, map, slice_get, Ok, IfOk, IfErr, IsOkAnd, OnOk};
ghost use Rattle.std.specs.List.{AllByRecursion, IsDistinct};
ghost use Rattle.text_places.specs.Place.{place_at};
ghost use Rattle.ir_lexer.specs.Lexeme.{Lexeme};
ghost use Rattle.ir_lexer.specs.Tokens.{lexed};
ghost use Rattle.ir_lexer.specs.Answer.{Gives};
ghost use Rattle.ir_reader.specs.Answer.{AreDefines};
ghost use Rattle.ir_reader.specs.Functions.{IsFunction};
ghost use Rattle.ir_reader.specs.Module as spec;
ghost use Rattle.ir_reader.specs.Module.{IsModule, IsFault, IsEntry, AreEntries};
ghost use Rattle.ir_reader.specs.Judgeable.{IsJudgeableEntry};
ghost use Rattle.ir_tree.specs.Names.{same_name};

use crate::fault::ModuleFault;
use crate::functions::function;
use ir_items::{Define, ItemFault, cut};
use ir_lexer::{LexFault, Lexer, Token, Tokens, lex};
use ir_tree::{CheckFault, Entry, Function, Module, Refused};
use std::alloc::Global;
use support::{NoMemory, Sequence};
use text_places::Place;

/// The module that a text is (LLVM Language Reference, "Module Structure", "Functions",
/// "Identifiers"): an entry for each function with a body, in text order, with the function, whose
/// `places` are empty, or the reason and the position at which it is refused.
///
/// # Errors
/// `NoToken` at the first position where no token begins. Where the text is tokens, `Item` at the
/// first token at which they stop being items, or at the end of the text, directly after its last
/// byte.
pub fn read(alloc: Global, text: &[u8]) -> Result<Module, ModuleFault>
    ensures module { IfOk result (λ m. IsModule text.now m) }
    ensures fault { IfErr result (IsFault text.now) }
    ensures judgeable { IfOk result (λ m. AllByRecursion IsJudgeableEntry m.entries) }
    ensures different { IfOk result (λ m. IsDistinct same_name (map (λ e. e.name) m.entries)) }
{
    let defines = defines(alloc, text)?;
    let entries = entries(alloc, text, defines)?;
    Ok(Module { entries })
}

// The tokens of a text, or its fault, as the lexer returns them.
fn tokens<'a>(found: Result<Tokens<'a>, LexFault>) -> Result<Tokens<'a>, ModuleFault>
    ensures tokens { IfOk result (λ tokens. (text : List ℕ) → Gives found.entry (lexed text) → lexed text ≡ Ok tokens) }
    ensures fault { IfErr result (λ fault. (text : List ℕ) → Gives found.entry (lexed text) → IsFault text fault) }
{
    match found {
        Ok(tokens) => Ok(tokens),
        Err(LexFault::NoToken { at: _, place }) => Err(ModuleFault::NoToken(place)),
        Err(LexFault::NoMemory) => Err(ModuleFault::NoMemory),
    }
}

// The end of a text, directly after its last byte.
fn end_of(text: &[u8]) -> Place
    ensures { result ≡ place_at text.now (length text.now) }
{
    Place::start().behind(text)
}

// The position of the token at an index; after the last one the end of the text.
fn place_or_end(text: &[u8], at: usize) -> Place
    requires { IsOkAnd (lexed text.now) (λ tokens. at ≤ length tokens) }
    ensures { (tokens : List Lexeme) → lexed text.now ≡ Ok tokens
        → result ≡ spec.place_or_end text.now (slice_get tokens at) }
{
    let mut lexer = Lexer::new(text);
    lexer.skip(at);
    let Ok(next) = lexer.next() else {
        unreachable!();
    };
    match next {
        Some(token) => token.place(),
        None => end_of(text),
    }
}

// The defines of a text. The table of its tokens is not kept.
fn defines(alloc: Global, text: &[u8]) -> Result<Sequence<Define>, ModuleFault>
    ensures defines { IfOk result (λ defines. (tokens : List Lexeme) × AreDefines text.now tokens defines) }
    ensures fault { IfErr result (IsFault text.now) }
{
    let tokens = tokens(lex(alloc, text))?;
    defines_of(alloc, text, &tokens)
}

// The defines among the tokens of a text.
fn defines_of(
    alloc: Global,
    text: &[u8],
    tokens: &Tokens<'_>,
) -> Result<Sequence<Define>, ModuleFault>
    requires { lexed text.now ≡ Ok tokens.now }
    ensures defines { IfOk result (AreDefines text.now tokens.now) }
    ensures fault { IfErr result (IsFault text.now) }
{
    let count = tokens.len();
    match cut(alloc, tokens) {
        Ok(defines) => Ok(defines),
        Err(ItemFault::Stop { at, why }) => {
            let place = place_or_end(text, at.min(count));
            Err(ModuleFault::Item { why, place })
        }
        Err(ItemFault::NoMemory) => Err(ModuleFault::NoMemory),
    }
}

/// What the tokens of a define are.
pub fn answer(alloc: Global, tokens: &[Token]) -> Result<Result<Function, Refused>, NoMemory>
    ensures { IfOk result (IsFunction tokens.now) }
{
    match function(alloc, tokens) {
        Ok(function) => Ok(Ok(function)),
        Err(CheckFault::Refused(refused)) => Ok(Err(refused)),
        Err(CheckFault::NoMemory) => Err(NoMemory),
    }
}

// The entry of a define. The lexer has passed `done` tokens, and afterwards those of the define too.
fn entry(
    alloc: Global,
    lexer: &mut Lexer<'_>,
    done: usize,
    define: Define,
) -> Result<Entry, NoMemory>
    requires behind { done ≤ define.first }
    requires spans { define.first ≤ define.last + 1 }
    requires small { define.last + 1 < 2 ^ 64 }
    requires left { IsOkAnd lexer.old (λ tokens. define.last + 1 ≤ done + length tokens) }
    ensures entry { IfOk result (λ e. (tokens : List Lexeme) → lexer.old ≡ Ok (drop done tokens) → IsEntry tokens define e) }
    ensures left { OnOk result ((tokens : List Lexeme) → lexer.old ≡ Ok (drop done tokens)
        → lexer.new ≡ Ok (drop (define.last + 1) tokens)) }
{
    let Define { name, first, last } = define;
    lexer.skip(first - done);
    let tokens = lexer.take(alloc, last + 1 - first)?;
    let function = answer(alloc, tokens.as_slice())?;
    Ok(Entry { name, function })
}

// The entries of the defines. The text is lexed once more, and the tokens of one define are kept at
// a time.
fn entries(
    alloc: Global,
    text: &[u8],
    defines: Sequence<Define>,
) -> Result<Sequence<Entry>, NoMemory>
    requires { (tokens : List Lexeme) × AreDefines text.now tokens defines }
    ensures { IfOk result (λ entries. (tokens : List Lexeme) × AreDefines text.now tokens defines × AreEntries tokens defines entries) }
{
    let mut entries = Vec::with_capacity(alloc, defines.len())?;
    let mut lexer = Lexer::new(text);
    let mut done = 0;
    for define in defines.into_vec() {
        let end = define.last + 1;
        entries.push(entry(alloc, &mut lexer, done, define)?)?;
        done = end;
    }
    Ok(Sequence::from_vec(entries))
}
