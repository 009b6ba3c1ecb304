ghost use Rattle.std.specs.Prelude.{◌≡◌, ◌+◌, ◌<◌, ◌≤◌, ℕ, List, length, map, IfOk, IfErr, OnOk, true, false};
ghost use Rattle.ir_lexer.specs.Lexeme.{Lexeme};
ghost use Rattle.ir_items.specs.declared.fault.Why.{Why as TheWhy};
ghost use Rattle.ir_items.specs.declared.item.Define.{Define as TheDefine};
ghost use Rattle.ir_items.specs.Marks.{IsBalanced};
ghost use Rattle.ir_items.specs.Items as spec;
ghost use Rattle.ir_items.specs.Items.{IsCut};
ghost use Rattle.ir_items.specs.Pieces.{ItemStops, IsAdded};
ghost use Rattle.ir_items.specs.Stops.{Stops, IsNew, IsStop};

use crate::fault::{ItemFault, Why};
use crate::heads::{begins_item, is_brace, is_called, is_define, is_head, is_wrong_layout};
use crate::item::Define;
use crate::marks::piece_end;
use crate::names::name_behind_sign;
use ir_lexer::Tokens;
use ir_tree::Names;
use std::alloc::Global;
use support::Sequence;

/// The most functions with a body that a module may have.
pub const MOST_FUNCTIONS: usize = 4096;

// The index after an item that is no define.
fn other_end(alloc: Global, tokens: &Tokens<'_>, first: usize) -> Result<usize, ItemFault>
    requires within { first < length tokens.now }
    requires head { spec.is_head tokens.now first ≡ true }
    requires other { spec.is_define tokens.now first ≡ false }
    ensures ok { IfOk result (λ end. spec.IsOther tokens.now first end) }
    ensures stops { IfErr result (λ fault. (defines : List TheDefine) → ItemStops tokens.now defines first fault) }
{
    let end = tokens.len();
    if is_wrong_layout(tokens, first) {
        let why = Why::DataLayout;
        return Err(ItemFault::Stop { at: first + 3, why });
    }
    let mut place = first + 1;
    while place < end && !begins_item(tokens, place) {
        place = piece_end(alloc, tokens, place)?;
    }
    Ok(place)
}

// The index of the name of the define that begins at an index.
fn name_place(alloc: Global, tokens: &Tokens<'_>, first: usize) -> Result<usize, ItemFault>
    requires within { first < length tokens.now }
    requires head { spec.is_head tokens.now first ≡ true }
    requires define { spec.is_define tokens.now first ≡ true }
    ensures ok { IfOk result (λ name. spec.IsNamed tokens.now first name) }
    ensures stops { IfErr result (λ fault. (defines : List TheDefine) → length defines < MOST_FUNCTIONS → ItemStops tokens.now defines first fault) }
{
    let end = tokens.len();
    let mut place = first + 1;
    while place < end {
        if begins_item(tokens, place) {
            let why = Why::NoBody;
            return Err(ItemFault::Stop { at: place, why });
        }
        if is_called(tokens, place) {
            return Ok(place);
        }
        place = piece_end(alloc, tokens, place)?;
    }
    let why = Why::TextEnds;
    Err(ItemFault::Stop { at: end, why })
}

// The index of the body of a define, from after its parameters on.
fn body_place(alloc: Global, tokens: &Tokens<'_>, behind: usize) -> Result<usize, ItemFault>
    ensures ok { IfOk result (λ body. (first name : ℕ) → spec.BeforeBody tokens.now first name behind → IsBalanced tokens.now first behind → spec.HasBody tokens.now first name body) }
    ensures within { IfOk result (λ body. body < length tokens.now) }
    ensures stops { IfErr result (λ fault. (defines : List TheDefine) (first name : ℕ) → IsNew tokens.now defines first name → spec.BeforeBody tokens.now first name behind → IsBalanced tokens.now first behind → ItemStops tokens.now defines first fault) }
{
    let end = tokens.len();
    let mut place = behind;
    while place < end {
        if begins_item(tokens, place) {
            let why = Why::NoBody;
            return Err(ItemFault::Stop { at: place, why });
        }
        if is_brace(tokens, place) {
            return Ok(place);
        }
        place = piece_end(alloc, tokens, place)?;
    }
    let why = Why::TextEnds;
    Err(ItemFault::Stop { at: end, why })
}

// The index after the define whose name is at an index.
fn define_end(alloc: Global, tokens: &Tokens<'_>, name: usize) -> Result<usize, ItemFault>
    requires { name + 1 < length tokens.now }
    ensures ok { IfOk result (λ end. (first : ℕ) → spec.IsNamed tokens.now first name → spec.IsDefine tokens.now first name end) }
    ensures stops { IfErr result (λ fault. (defines : List TheDefine) (first : ℕ) → IsNew tokens.now defines first name → ItemStops tokens.now defines first fault) }
{
    // So the index after the name is a `usize`.
    prove!(name < tokens.len());
    let behind = piece_end(alloc, tokens, name + 1)?;
    let body = body_place(alloc, tokens, behind)?;
    piece_end(alloc, tokens, body)
}

// The index after a define, which is added to those before it.
fn define(
    alloc: Global,
    tokens: &Tokens<'_>,
    first: usize,
    defines: &mut Vec<Define>,
    names: &mut Names,
) -> Result<usize, ItemFault>
    requires within { first < length tokens.now }
    requires head { spec.is_head tokens.now first ≡ true }
    requires define { spec.is_define tokens.now first ≡ true }
    requires few { length defines.old.items ≤ MOST_FUNCTIONS }
    requires names { names.old ≡ map (λ d. d.name) defines.old.items }
    ensures ok { IfOk result (λ end. IsAdded tokens.now first end defines.old.items defines.new.items) }
    ensures names { OnOk result (names.new ≡ map (λ d. d.name) defines.new.items) }
    ensures stops { IfErr result (ItemStops tokens.now defines.old.items first) }
{
    if defines.len() == MOST_FUNCTIONS {
        let why = Why::TooManyFunctions;
        return Err(ItemFault::Stop { at: first, why });
    }
    let place = name_place(alloc, tokens, first)?;
    let text = tokens.text(place);
    let name = name_behind_sign(alloc, text)?;
    if names.find(&name).is_some() {
        let why = Why::NameTwice;
        return Err(ItemFault::Stop { at: place, why });
    }
    let end = define_end(alloc, tokens, place)?;
    let last = end - 1;
    names.number(name_behind_sign(alloc, text)?)?;
    defines.push(Define { name, first, last })?;
    Ok(end)
}

// The index after the item that begins at an index, which is added if it is a define.
fn next_item(
    alloc: Global,
    tokens: &Tokens<'_>,
    first: usize,
    defines: &mut Vec<Define>,
    names: &mut Names,
) -> Result<usize, ItemFault>
    requires within { first < length tokens.now }
    requires few { length defines.old.items ≤ MOST_FUNCTIONS }
    requires names { names.old ≡ map (λ d. d.name) defines.old.items }
    ensures cut { IfOk result (λ end. IsCut tokens.now first defines.old.items → IsCut tokens.now end defines.new.items) }
    ensures on { IfOk result (λ end. (first < end) × (end ≤ length tokens.now)) }
    ensures few { OnOk result (length defines.new.items ≤ MOST_FUNCTIONS) }
    ensures names { OnOk result (names.new ≡ map (λ d. d.name) defines.new.items) }
    ensures stops { IfErr result (ItemStops tokens.now defines.old.items first) }
{
    if !is_head(tokens, first) {
        let why = Why::NoItem;
        return Err(ItemFault::Stop { at: first, why });
    }
    if is_define(tokens, first) {
        return define(alloc, tokens, first, defines, names);
    }
    other_end(alloc, tokens, first)
}

/// The functions with a body in a module, in order, from its tokens. All other items are skipped.
///
/// A `Stop` is returned exactly where the text stops being items one after another: at the first
/// such token, with the reason. The time is linear in the number of tokens.
pub fn cut(alloc: Global, tokens: &Tokens<'_>) -> Result<Sequence<Define>, ItemFault>
    ensures items { IfOk result (λ defines. IsCut tokens.now (length tokens.now) defines) }
    ensures stops { IfErr result (Stops tokens.now) }
{
    let mut defines = Vec::new(alloc);
    let mut names = Names::new(alloc);
    let mut at = 0;
    while at < tokens.len() {
        at = next_item(alloc, tokens, at, &mut defines, &mut names)?;
    }
    Ok(Sequence::from_vec(defines))
}

/// The items of a list of tokens, or its stop, are unique.
pub fn is_one_cut()
    ensures items { (tokens : List Lexeme) (d e : List TheDefine) → IsCut tokens (length tokens) d → IsCut tokens (length tokens) e → d ≡ e }
    ensures apart { (tokens : List Lexeme) (d : List TheDefine) (place : ℕ) (why : TheWhy) → IsCut tokens (length tokens) d → IsStop tokens place why → ⊥ }
    ensures stops { (tokens : List Lexeme) (p q : ℕ) (v w : TheWhy) → IsStop tokens p v → IsStop tokens q w → (p ≡ q) × (v ≡ w) }
{}
