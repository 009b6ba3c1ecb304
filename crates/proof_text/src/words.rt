//! Numbers, literals, clauses, chains and heads of a line.

ghost use Rattle.std.specs.Prelude.{◌≡◌, ◌<◌, ◌↔◌, ◌++◌, IfNone, IfOk, IfSome, IsTrue, List, slice_get, Some, length, ℕ};
ghost use Rattle.std.specs.Fmt.{decimal};
ghost use Rattle.clause_lits.specs.declared.lit.Lit.{Lit as LitValue};
ghost use Rattle.proof_text.specs.Format.{IsClauseOver, IsHead, IsPrintedNumber, IsSmall, IsStepOver, clause_line, counts_line, head_line, literal_text, log_line, step_line};
ghost use Rattle.proof_text.specs.Words.{HasNoChain, IsChain, IsNamed, IsRead, chain_text};

use crate::cursor::next_word;
use crate::part::Head;
use clause_lits::{Clause, Lit, is_clause};
use clause_log::Step;
use smallvec::SmallVec;
use std::alloc::Global;
use std::str;
use support::{NoMemory, Sequence};

/// Whether the first digit is not a 0, or the only one.
fn has_no_leading_zero(digits: &[u8]) -> bool
    ensures { IsTrue result ↔ (slice_get digits.now 0 ≡ Some 48 → length digits.now ≡ 1) }
{
    match digits {
        [b'0', _, ..] => false,
        _ => true,
    }
}

/// Whether these are digits without a leading zero.
pub fn is_printed_number(text: &[u8]) -> bool
    ensures { IsTrue result ↔ IsPrintedNumber text.now }
{
    !text.is_empty() && text.iter().all(|byte| byte.is_ascii_digit()) && has_no_leading_zero(text)
}

/// The number below a limit that has these digits.
fn number_below(limit: u64, digits: &[u8]) -> Option<u64>
    ensures { IsRead (λ (n : ℕ). n < limit) decimal digits.now result }
{
    if !is_printed_number(digits) {
        return None;
    }
    let text = str::from_utf8(digits).ok()?;
    let number = text.parse::<u64>().ok()?;
    if number < limit { Some(number) } else { None }
}

/// The number below 2^62 that has these digits.
fn number_in(digits: &[u8]) -> Option<u64>
    ensures { IsRead IsSmall decimal digits.now result }
{
    number_below(1 << 62, digits)
}

/// The literal of a word.
fn literal_in(word: &[u8]) -> Option<Lit>
    ensures { IsRead (λ (l : LitValue). IsSmall l.variable) literal_text word.now result }
{
    match word {
        [b'-', digits @ ..] => Some(Lit {
            variable: number_in(digits)?,
            positive: false,
        }),
        digits => Some(Lit {
            variable: number_in(digits)?,
            positive: true,
        }),
    }
}

/// Whether the literals are a clause over the variables 1 to `variables`.
fn is_clause_over(variables: u64, literals: &[Lit]) -> bool
    ensures { IsTrue result ↔ IsClauseOver variables literals.now }
{
    is_clause(literals) && literals.iter().all(|literal| literal.variable <= variables)
}

/// The clause of a line.
pub fn clause_in(alloc: Global, variables: u64, line: &[u8]) -> Result<Option<Clause>, NoMemory>
    requires { IsSmall variables }
    ensures { IfOk result (λ found. IsRead (IsClauseOver variables) clause_line line.now found) }
{
    let mut literals: SmallVec<Lit, 4> = SmallVec::new(alloc);
    let mut rest = line;
    while let Some((word, after)) = next_word(rest) {
        let Some(literal) = literal_in(word) else {
            return Ok(None);
        };
        literals.push(literal)?;
        rest = after;
    }
    if rest == b"0".as_slice() && is_clause_over(variables, literals.as_slice()) {
        Ok(Some(Clause::new(literals)))
    } else {
        Ok(None)
    }
}

/// The positive number of a word.
fn clause_number_in(word: &[u8]) -> Option<u64>
    ensures { IsRead (λ (n : ℕ). (0 < n) × IsSmall n) decimal word.now result }
{
    let number = number_in(word)?;
    if number > 0 { Some(number) } else { None }
}

/// The chain that a line begins with, up to the word 0, and the rest of the line.
fn chain_in<'a>(
    alloc: Global,
    line: &'a [u8],
) -> Result<Option<(Sequence<u64>, &'a [u8])>, NoMemory>
    ensures some { IfOk result (λ found. IfSome found (λ parts. IsChain parts.0 × (line.now ≡ chain_text parts.0 ++ parts.1.now))) }
    ensures none { IfOk result (λ found. IfNone found (HasNoChain line.now)) }
{
    let mut chain = Vec::new(alloc);
    let mut rest = line;
    while let Some((word, after)) = next_word(rest) {
        if word == b"0".as_slice() {
            return Ok(Some((Sequence::from_vec(chain), after)));
        }
        let Some(number) = clause_number_in(word) else {
            return Ok(None);
        };
        chain.push(number)?;
        rest = after;
    }
    Ok(None)
}

/// The step of a line.
pub fn step_in(alloc: Global, variables: u64, line: &[u8]) -> Result<Option<Step>, NoMemory>
    requires { IsSmall variables }
    ensures { IfOk result (λ found. IsRead (IsStepOver variables) step_line line.now found) }
{
    let Some((chain, rest)) = chain_in(alloc, line)? else {
        return Ok(None);
    };
    let Some(clause) = clause_in(alloc, variables, rest)? else {
        return Ok(None);
    };
    Ok(Some(Step { chain, clause }))
}

/// The numbers of variables and of clauses of a line.
#[derive(Clone, Copy, Debug, PartialEq, Eq)]
pub struct Counts {
    pub variables: u64,
    pub clauses: u64,
}

/// The counts of a line.
pub fn counts_in(line: &[u8]) -> Option<Counts>
    ensures { IsRead (λ (n : Counts). IsSmall n.variables × IsSmall n.clauses) (λ (n : Counts). counts_line n.variables n.clauses) line.now result }
{
    let words = line.strip_prefix(b"p cnf ")?;
    let (variables, clauses) = next_word(words)?;
    Some(Counts {
        variables: number_in(variables)?,
        clauses: number_in(clauses)?,
    })
}

/// The number of steps of a line.
pub fn log_in(line: &[u8]) -> Option<u64>
    ensures { IsRead IsSmall log_line line.now result }
{
    number_in(line.strip_prefix(b"log ")?)
}

/// The number below 2^63 that follows a name, and the rest of the line after the space behind it.
fn named_number_in<'a>(name: &[u8], line: &'a [u8]) -> Option<(u64, &'a [u8])>
    ensures some { IfSome result (λ parts. IsNamed name.now line.now parts.0 parts.1.now) }
    ensures none { IfNone result ((n : ℕ) (rest : List ℕ) → IsNamed name.now line.now n rest → ⊥) }
{
    let (digits, rest) = next_word(line.strip_prefix(name)?)?;
    Some((number_below(1 << 63, digits)?, rest))
}

/// The head of a line.
pub fn head_in(line: &[u8]) -> Option<Head>
    ensures { IsRead IsHead head_line line.now result }
{
    let (turns, line) = named_number_in(b"turns ", line)?;
    let (blocks, line) = named_number_in(b"blocks ", line)?;
    let (bytes, line) = named_number_in(b"bytes ", line)?;
    let (rounds, line) = named_number_in(b"rounds ", line)?;
    let (conflicts, line) = named_number_in(b"conflicts ", line)?;
    let weight = number_below(1 << 63, line.strip_prefix(b"weight ")?)?;
    Some(Head {
        turns,
        blocks,
        bytes,
        rounds,
        conflicts,
        weight,
    })
}
