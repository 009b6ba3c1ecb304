//! Values of all variables under 64 assignments of the inputs at once, to tell variables apart.
//!
//! A pattern is such a word for each variable. Variables that have the same word in each pattern, or
//! opposite ones, have the same signature. Variable 0 is false.

use crate::tables::{at, put, short, zeros};
use std::alloc::Global;
use support::NoMemory;

/// Where the generator of random words begins.
const SEED: u64 = 0x9e37_79b9_7f4a_7c15;

/// An odd factor, to mix the bits of a word.
const FACTOR: u64 = 0xff51_afd7_ed55_8ccd;

/// The assignments but the first one.
const NOT_FIRST: u64 = u64::MAX - 1;

/// The last pattern, and a hash of all patterns for each variable.
pub struct Patterns {
    random: u64,
    words: Vec<u64>,
    /// All ones for a variable that is true in the first assignment, else 0.
    turned: Vec<u64>,
    signatures: Vec<u64>,
    /// How many patterns there were.
    count: u64,
    /// The first variable of each signature, by the signature's hash; 0 for none.
    table: Vec<u32>,
    /// Variables below this one are in the table.
    entered: u32,
}

// Dropped by one call: a derived drop is written out at each return.
impl Drop for Patterns {
    fn drop(self) {
        let Patterns {
            random,
            words,
            turned,
            signatures,
            count,
            table,
            entered,
        } = self;
    }
}

/// A number at an index, or 0.
fn word_at(words: &[u64], index: u32) -> u64 {
    words.get(index as usize).copied().unwrap_or(0)
}

/// Writes the number at an index.
fn put_word(words: &mut [u64], index: u32, word: u64) {
    if let Some(cell) = words.get_mut(index as usize) {
        *cell = word;
    }
}

/// Mixes the bits of a word.
fn mixed(word: u64) -> u64 {
    let product = (word ^ word >> 32).wrapping_mul(FACTOR);
    product ^ product >> 29
}

impl Patterns {
    /// No pattern, of this many variables and 0.
    pub fn new(alloc: Global, variables: usize) -> Result<Patterns, NoMemory> {
        Ok(Patterns {
            random: SEED,
            words: vec![in alloc; 0; variables]?,
            turned: vec![in alloc; 0; variables]?,
            signatures: vec![in alloc; 0; variables]?,
            count: 0,
            table: zeros(alloc, variables.saturating_mul(2).saturating_add(1))?,
            entered: 1,
        })
    }

    /// The next random word (G. Marsaglia, "Xorshift RNGs", 2003).
    pub fn random(&mut self) -> u64 {
        self.random ^= self.random << 13;
        self.random ^= self.random >> 7;
        self.random ^= self.random << 17;
        self.random
    }

    /// A random word for the next pattern: every second pattern has few ones or few zeros.
    pub fn any_word(&mut self) -> u64 {
        let word = self.random();
        match self.count & 3 {
            1 => word & self.random() & self.random(),
            3 => word | self.random() | self.random(),
            _ => word,
        }
    }

    /// A word with a one in few of the assignments, but not in the first one.
    pub fn few(&mut self) -> u64 {
        let few = self.random() & self.random() & self.random() & self.random();
        few & self.random() & NOT_FIRST
    }

    /// The word of a literal.
    pub fn literal_word(&self, literal: u32) -> u64 {
        let word = word_at(&self.words, literal >> 1);
        if literal & 1 == 0 { word } else { !word }
    }

    /// Sets a variable's word in the pattern.
    pub fn set(&mut self, variable: u32, word: u64) {
        put_word(&mut self.words, variable, word);
    }

    /// Ends a pattern: the signatures tell its words apart.
    pub fn end(&mut self) {
        for index in 0..self.words.len() {
            let variable = short(index);
            let word = word_at(&self.words, variable);
            if self.count == 0 && word & 1 == 1 {
                put_word(&mut self.turned, variable, u64::MAX);
            }
            let same = word ^ word_at(&self.turned, variable);
            let before = word_at(&self.signatures, variable);
            put_word(&mut self.signatures, variable, mixed(before ^ mixed(same)));
        }
        self.count = self.count.wrapping_add(1);
        self.forget_table();
    }

    /// Takes all variables out of the table.
    fn forget_table(&mut self) {
        for cell in self.table.iter_mut() {
            *cell = 0;
        }
        self.entered = 1;
    }

    /// The literal of a variable that is false in the first assignment.
    pub fn false_literal(&self, variable: u32) -> u32 {
        let sign = if word_at(&self.turned, variable) == 0 {
            0
        } else {
            1
        };
        variable.wrapping_mul(2).wrapping_add(sign)
    }

    /// Where a signature is in the table, or where it would be.
    fn place_of(&self, signature: u64) -> u32 {
        let length = self.table.len() as u64;
        let mut place = 0;
        if length > 0 {
            place = short((signature % length) as usize);
        }
        for _ in 0..self.table.len() {
            let owner = at(&self.table, place);
            if owner == 0 || word_at(&self.signatures, owner) == signature {
                break;
            }
            place = place.wrapping_add(1);
            if place as usize >= self.table.len() {
                place = 0;
            }
        }
        place
    }

    /// The first variable of the same signature before this one; variable 0 comes first.
    pub fn first_like(&mut self, variable: u32) -> Option<u32> {
        for before in self.entered..variable {
            self.enter(before);
        }
        self.entered = self.entered.max(variable);
        let signature = word_at(&self.signatures, variable);
        if signature == word_at(&self.signatures, 0) {
            return Some(0);
        }
        let first = at(&self.table, self.place_of(signature));
        if first == 0 { None } else { Some(first) }
    }

    /// Puts a variable into the table, if none of its signature is there.
    fn enter(&mut self, variable: u32) {
        let place = self.place_of(word_at(&self.signatures, variable));
        if at(&self.table, place) == 0 {
            put(&mut self.table, place, variable);
        }
    }
}
