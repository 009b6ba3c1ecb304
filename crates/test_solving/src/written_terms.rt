//! Terms in postfix notation, built by the rules: `x` and `y` are variables 0 and 1 of 3 bits, a
//! figure is a number of 3 bits, and each other letter is an operation over the terms before it.

ghost use Rattle.std.specs.Prelude.{◌≡◌, ◌<◌, ◌≤◌, length};
ghost use Rattle.bv_terms.specs.Tree.{width_of};
ghost use Rattle.bv_terms.specs.Trees.{tree_in};

use bv_terms::{TermId, Terms};
use std::alloc::Global;
use support::NoMemory;
use term_rules as rules;

/// The last term of the stack, taken off it, or the first term where there is none.
fn taken(terms: &Terms, stack: &mut Vec<TermId>) -> TermId
    requires { 0 < length terms.now }
    ensures { result.index < length terms.now }
{
    match stack.pop() {
        Some(id) if id.index < terms.as_slice().len() => id,
        _ => TermId { index: 0 },
    }
}

/// A term that is over no other: a variable, or a number.
fn leaf(terms: &mut Terms, letter: u8) -> Result<TermId, NoMemory> {
    match letter {
        b'x' => rules::variable(terms, 0, 3),
        b'y' => rules::variable(terms, 1, 3),
        _ => rules::constant(terms, (letter & 7) as u128, 3),
    }
}

/// The low 3 bits of a term of more.
fn low_bits(terms: &mut Terms, a: TermId) -> Result<TermId, NoMemory>
    requires { a.index < length terms.old }
{
    if terms.width(a) < 4 {
        return Err(NoMemory);
    }
    rules::extract(terms, a, 0, 3)
}

/// An operation over one term: `~` its bits inverted, `p` its bits from bit 1 on, `z` and `s` the
/// term at 6 bits, `t` its low 3 bits.
fn over_one(terms: &mut Terms, letter: u8, a: TermId) -> Result<TermId, NoMemory>
    requires { a.index < length terms.old }
{
    let width = terms.width(a);
    match letter {
        b'~' => rules::not(terms, a),
        b'p' if width > 1 => rules::extract(terms, a, 1, width - 1),
        b'z' if width < 6 => rules::zext(terms, a, 6),
        b's' if width < 6 => rules::sext(terms, a, 6),
        b't' => low_bits(terms, a),
        _ => Err(NoMemory),
    }
}

/// An operation over two terms of one width: `/` and `%` the quotient and the remainder, `l`, `r`
/// and `a` shifts to the left, to the right and to the right with the sign, `<` and `i` whether the
/// first is less, as unsigned and as signed numbers.
fn over_two(terms: &mut Terms, letter: u8, a: TermId, b: TermId) -> Result<TermId, NoMemory>
    requires a { a.index < length terms.old }
    requires b { b.index < length terms.old }
    requires alike { width_of (tree_in terms.old a) ≡ width_of (tree_in terms.old b) }
{
    match letter {
        b'&' => rules::and(terms, a, b),
        b'|' => rules::or(terms, a, b),
        b'^' => rules::xor(terms, a, b),
        b'+' => rules::add(terms, a, b),
        b'-' => rules::sub(terms, a, b),
        b'*' => rules::mul(terms, a, b),
        b'/' => rules::udiv(terms, a, b),
        b'%' => rules::urem(terms, a, b),
        b'l' => rules::shl(terms, a, b),
        b'r' => rules::lshr(terms, a, b),
        b'a' => rules::ashr(terms, a, b),
        b'=' => rules::eq(terms, a, b),
        b'<' => rules::ult(terms, a, b),
        _ => rules::slt(terms, a, b),
    }
}

/// An operation over the last terms of the stack, which it takes off: `:` the first term's bits and
/// then the second's, `?` the second or the third by the first, or one of those over two.
fn over_more(
    terms: &mut Terms,
    stack: &mut Vec<TermId>,
    letter: u8,
    b: TermId,
) -> Result<TermId, NoMemory>
    requires { b.index < length terms.old }
{
    let a = taken(terms, stack);
    if letter == b':' && terms.width(a) + terms.width(b) <= 128 {
        return rules::concat(terms, a, b);
    }
    if terms.width(a) != terms.width(b) {
        return Err(NoMemory);
    }
    if letter == b'?' {
        let c = taken(terms, stack);
        if terms.width(c) != 1 {
            return Err(NoMemory);
        }
        return rules::ite(terms, c, a, b);
    }
    over_two(terms, letter, a, b)
}

/// The term of a letter over the last ones of the stack, which it takes off. An error where the
/// widths do not allow it.
fn next(terms: &mut Terms, stack: &mut Vec<TermId>, letter: u8) -> Result<TermId, NoMemory> {
    if matches!(letter, b'x' | b'y' | b'0'..=b'7') {
        return leaf(terms, letter);
    }
    if terms.as_slice().is_empty() {
        return Err(NoMemory);
    }
    let last = taken(terms, stack);
    if matches!(letter, b'~' | b'p' | b't' | b'z' | b's') {
        over_one(terms, letter, last)
    } else {
        over_more(terms, stack, letter, last)
    }
}

/// The term that a text writes. An error where it writes none.
pub fn written(alloc: Global, terms: &mut Terms, text: &str) -> Result<TermId, NoMemory> {
    let mut stack = Vec::new(alloc);
    for letter in text.as_bytes() {
        let made = next(terms, &mut stack, *letter)?;
        stack.push(made)?;
    }
    stack.pop().ok_or(NoMemory)
}
