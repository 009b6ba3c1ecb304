//! A set of names, one bit a name.

ghost use Rattle.std.specs.Prelude.{◌≡◌, ◌≢◌, ◌<◌, length, slice_set, replicate, true, false, IfOk};
ghost use Rattle.std.specs.List.{All};
ghost use Rattle.definite_assignment.specs.Sets.{both, has_name, places_for};
ghost use Rattle.definite_assignment.specs.Work.{IsLeaving};

use crate::words;
use std::alloc::Global;
use std::marker::Model;
use support::NoMemory;

/// A set of names from 0 on. Contracts see it as a list: for each name that it has an entry for,
/// whether it is in the set.
#[derive(Drop)]
pub struct NameSet {
    words: Vec<u64>,
}

impl Model for NameSet {
    ghost use Rattle.std.specs.Prelude.{List, Bool};
    ghost use Rattle.definite_assignment.specs.Sets.{names_in};

    ghost Value = { List Bool };

    ghost view = { λ s. names_in s.words.items };
}

impl NameSet {
    /// The empty set, with entries for at least this number of names.
    pub fn none(alloc: Global, names: usize) -> Result<NameSet, NoMemory>
        ensures { IfOk result (λ set. set ≡ replicate (places_for names) false) }
    {
        Ok(NameSet {
            words: words::alike(alloc, 0, names)?,
        })
    }

    /// The set of all names, with entries for at least this number.
    pub fn every(alloc: Global, names: usize) -> Result<NameSet, NoMemory>
        ensures { IfOk result (λ set. set ≡ replicate (places_for names) true) }
    {
        Ok(NameSet {
            words: words::alike(alloc, u64::MAX, names)?,
        })
    }

    /// Whether a name is in the set; a name that the set has no entry for isn't.
    pub fn has(&self, name: usize) -> bool
        ensures { result ≡ has_name self.now name }
    {
        words::has(&self.words, name)
    }

    /// Puts a name into the set.
    pub fn add(&mut self, name: usize)
        requires { name < length self.old }
        ensures { self.new ≡ slice_set self.old name true }
    {
        words::add(&mut self.words, name);
    }

    /// Makes the set like another one with the same number of entries.
    fn copy(&mut self, other: &NameSet)
        requires { length self.old ≡ length other.now }
        ensures { self.new ≡ other.now }
    {
        self.words.copy_from_slice(&other.words);
    }

    /// Makes the set the names of another one and some more: what is assigned after a block.
    pub fn fill(&mut self, set: &NameSet, assigned: &[usize])
        requires alike { length self.old ≡ length set.now }
        requires within { All (λ name. name < length set.now) assigned.now }
        ensures { IsLeaving set.now assigned.now self.new }
    {
        self.copy(set);
        for name in assigned {
            self.add(*name);
        }
    }

    /// Takes each name out that another set lacks, and returns whether there was one.
    pub fn cut(&mut self, other: &NameSet) -> bool
        requires { length self.old ≡ length other.now }
        ensures both { self.new ≡ both self.old other.now }
        ensures same { result ≡ false → self.new ≡ self.old }
        ensures changed { result ≡ true → self.new ≢ self.old }
    {
        words::cut(&mut self.words, &other.words)
    }
}
