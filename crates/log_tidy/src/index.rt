//! The index that finds a clause within another one, which it subsumes.
//!
//! Each earlier clause is listed under one of its literals, the one whose list is shortest so far,
//! with a signature of two words: each of its literals sets a bit in each. A clause that it lies within
//! has each of them set in its own signature, so most of the entries in the lists of a clause's literals
//! are passed over without a look at their clauses.

ghost use Rattle.std.specs.Prelude.{◌≡◌, ◌<◌, ◌≤◌, ◌+◌, ◌↔◌, [], true, IfOk, IsTrue, OnOk, length};
ghost use Rattle.clause_log.specs.Members.{Has};
ghost use Rattle.clause_search.specs.Searching.{standing};
ghost use Rattle.log_tidy.specs.Inclusion as inclusion;
ghost use Rattle.log_tidy.specs.Indexed as spec;
ghost use Rattle.log_tidy.specs.Indexed.{Covers, IsEntered, IsFirst, IsFound, IsHit, IsIndexed, IsPut, IsSized};

use crate::inclusion::includes;
use clause_lits::{Clause, Lit};
use clause_log::{Step, clause_numbered};
use std::alloc::Global;
use support::{NoMemory, Sequence};

/// Bits of a clause's literals: each literal sets one in each word, by its sign and its variable's
/// remainder. The two remainders differ, since one word of a long clause has most of its bits set.
#[derive(Clone, Copy, Debug, PartialEq, Eq)]
pub struct Signature {
    pub first: u64,
    pub second: u64,
}

/// The number of a clause, and its signature.
#[derive(Clone, Copy, Debug, PartialEq, Eq)]
pub struct Entry {
    pub number: u64,
    pub signature: Signature,
}

/// Entries of clauses, each in the slot of one of its literals.
#[derive(Drop)]
pub struct Index {
    pub half: usize,
    pub lists: Vec<Sequence<Entry>>,
}

/// The slot of a literal among twice `half` slots.
fn slot(half: usize, literal: Lit) -> usize
    requires some { 0 < half }
    requires small { half + half < 18446744073709551616 }
    ensures value { result ≡ spec.slot half literal }
    ensures within { result < half + half }
{
    let rest = (literal.variable % half as u64) as usize;
    if literal.positive { rest } else { half + rest }
}

/// How many remainders a variable has in a signature's first word.
const FIRST_REMAINDERS: usize = 32;

/// How many remainders a variable has in a signature's second word.
const SECOND_REMAINDERS: usize = 31;

/// The bits of a clause's literals in one word of a signature.
fn bits(half: usize, clause: &Clause) -> u64
    requires some { 0 < half }
    requires small { half ≤ 32 }
    ensures { result ≡ spec.bits half clause.now }
{
    let mut bits = 0;
    for literal in clause.literals() {
        bits |= 1 << slot(half, *literal);
    }
    bits
}

/// The signature of a clause. That of a clause within another has no bit that the other's has not.
fn signature_of(clause: &Clause) -> Signature
    ensures { result ≡ spec.signature clause.now }
{
    Signature {
        first: bits(FIRST_REMAINDERS, clause),
        second: bits(SECOND_REMAINDERS, clause),
    }
}

/// Whether a signature has each bit of another.
fn covers(whole: Signature, part: Signature) -> bool
    ensures { IsTrue result ↔ Covers whole part }
{
    part.first | whole.first == whole.first && part.second | whole.second == whole.second
}

/// Whether the number is of an earlier clause within this one.
fn is_within(clauses: &[Clause], steps: &[Step], number: u64, clause: &Clause) -> bool
    ensures { IsTrue result ↔ inclusion.IsWithin (standing clauses.now steps.now) clause.now number }
{
    match clause_numbered(clauses, steps, number) {
        Some(standing) => includes(clause, standing),
        None => false,
    }
}

/// Whether the entry is of an earlier clause within the one that has this signature.
fn is_hit(
    clauses: &[Clause],
    steps: &[Step],
    entry: Entry,
    signature: Signature,
    clause: &Clause,
) -> bool
    ensures { IsTrue result ↔ IsHit (standing clauses.now steps.now) signature clause.now entry }
{
    if covers(signature, entry.signature) {
        is_within(clauses, steps, entry.number, clause)
    } else {
        false
    }
}

/// The first of the entries that is of an earlier clause within the one that has this signature.
fn first_within(
    clauses: &[Clause],
    steps: &[Step],
    entries: &[Entry],
    signature: Signature,
    clause: &Clause,
) -> Option<u64>
    ensures { IsFirst (standing clauses.now steps.now) entries.now signature clause.now result }
{
    for entry in entries {
        if is_hit(clauses, steps, *entry, signature, clause) {
            return Some(entry.number);
        }
    }
    None
}

impl Index {
    /// No entries.
    pub fn new(alloc: Global, half: usize) -> Result<Index, NoMemory>
        requires some { 0 < half }
        requires small { half + half < 18446744073709551616 }
        ensures { IfOk result (IsIndexed []) }
    {
        let count = half + half;
        let mut lists = Vec::new(alloc);
        for _slot in 0..count {
            lists.push(Sequence::from_vec(Vec::new(alloc)))?;
        }
        Ok(Index { half, lists })
    }

    /// The literal of a clause whose list is shortest.
    fn rarest(&self, clause: &Clause, first: Lit) -> Lit
        requires sized { IsSized self.now }
        requires has { Has clause.now first }
        ensures { Has clause.now result }
    {
        let mut rarest = first;
        for literal in clause.literals() {
            if self.count(*literal) < self.count(rarest) {
                rarest = *literal;
            }
        }
        rarest
    }

    /// How many entries are in the slot of a literal.
    fn count(&self, literal: Lit) -> usize
        requires { IsSized self.now }
    {
        self.lists[slot(self.half, literal)].len()
    }

    /// Enters one more clause, which isn't empty.
    pub fn add(&mut self, number: u64, clause: &Clause) -> Result<(), NoMemory>
        requires sized { IsSized self.old }
        requires some { clause.now ≡ [] → ⊥ }
        ensures { OnOk result (IsEntered self.old self.new number clause.now) }
    {
        let [first, ..] = clause.literals() else {
            unreachable!()
        };
        let literal = self.rarest(clause, *first);
        self.enter(
            literal,
            Entry {
                number,
                signature: signature_of(clause),
            },
        )
    }

    /// Enters a clause in the slot of a literal.
    fn enter(&mut self, literal: Lit, entry: Entry) -> Result<(), NoMemory>
        requires { IsSized self.old }
        ensures { OnOk result (IsPut self.old self.new literal entry) }
    {
        let place = slot(self.half, literal);
        self.lists[place].push(entry)
    }

    /// The number of an earlier clause that lies within this one, if there is one.
    pub fn find(&self, clauses: &[Clause], steps: &[Step], clause: &Clause) -> Option<u64>
        requires { IsIndexed (standing clauses.now steps.now) self.now }
        ensures { IsFound (standing clauses.now steps.now) clause.now result }
    {
        let signature = signature_of(clause);
        for literal in clause.literals() {
            let list = self.lists[slot(self.half, *literal)].as_slice();
            if let Some(number) = first_within(clauses, steps, list, signature, clause) {
                return Some(number);
            }
        }
        None
    }
}
