//! Which clauses watch a literal.

ghost use Rattle.std.specs.Prelude.{◌≡◌, ◌<◌, ◌≤◌, ◌*◌, ◌+◌, ◌++◌, ◌∷◌, [], List, length, slice_get, slice_set, IfOk, IfSome, OnOk, Some, ℕ};
ghost use Rattle.std.specs.List.{swap_remove};
ghost use Rattle.watch_solver.specs.Codes.{index_of, lit_of};
ghost use Rattle.watch_solver.specs.Lists.{list_of, with_list, with_watch};

use crate::code::Code;
use std::alloc::Global;
use std::marker::Model;
use support::NoMemory;

/// A clause that watches a literal, and a literal of the clause: where that one is true the clause
/// needs no look. Clauses are counted from 0.
#[derive(Clone, Copy, PartialEq, Eq, Debug)]
pub struct Watch {
    pub clause: u32,
    pub blocker: Code,
}

/// The clauses that watch a literal. Contracts see the list of watches.
#[derive(Drop)]
pub struct WatchList {
    watches: Vec<Watch>,
}

impl Model for WatchList {
    ghost use Rattle.std.specs.Prelude.{List};
    ghost use Rattle.watch_solver.specs.declared.watches.Watch.{Watch};

    ghost Value = { List Watch };

    ghost view = { λ w. w.watches.items };
}

impl WatchList {
    /// No watches.
    fn new(alloc: Global) -> Self
        ensures { result ≡ [] }
    {
        WatchList {
            watches: Vec::new(alloc),
        }
    }

    /// The watch at an index, if there is one.
    fn get(&self, place: usize) -> Option<Watch>
        ensures value { result ≡ slice_get self.now place }
        ensures within { IfSome result (λ _. place < usize.MAX) }
    {
        self.watches.get(place).copied()
    }

    /// Adds a watch.
    fn push(&mut self, watch: Watch) -> Result<(), NoMemory>
        ensures { OnOk result (self.new ≡ self.old ++ watch ∷ []) }
    {
        self.watches.push(watch)?;
        Ok(())
    }

    /// Replaces the watch at an index.
    fn set(&mut self, place: usize, watch: Watch)
        requires { place < length self.old }
        ensures { self.new ≡ slice_set self.old place watch }
    {
        self.watches[place] = watch;
    }

    /// Removes the watch at an index and puts the last one there.
    fn remove(&mut self, place: usize) -> Watch
        requires { place < length self.old }
        ensures { self.new ≡ swap_remove self.old place result }
    {
        self.watches.swap_remove(place)
    }
}

/// The two watched literals of a clause, or twice the same for a clause that watches none.
#[derive(Clone, Copy, PartialEq, Eq, Debug)]
pub struct Pair {
    pub first: Code,
    pub second: Code,
}

/// The watched literals of each clause, and the clauses that watch each literal.
pub struct Watches {
    pub pairs: Vec<Pair>,
    pub lists: Vec<WatchList>,
}

// Dropped by one call: a derived drop is written out at each return.
impl Drop for Watches {
    fn drop(self) {
        let Watches { pairs, lists } = self;
    }
}

impl Watches {
    /// No clauses, and an empty list for each literal of the variables up to this one.
    pub fn new(alloc: Global, variables: u64) -> Result<Watches, NoMemory>
        requires { variables < 2147483648 }
        ensures pairs { IfOk result (λ w. w.pairs.items ≡ []) }
        ensures length { IfOk result (λ w. length w.lists.items ≡ 2 * variables + 2) }
        ensures empty { IfOk result (λ w. (k : ℕ) (ws : _) → slice_get w.lists.items k ≡ Some ws → ws ≡ []) }
    {
        let count = variables as usize * 2 + 2;
        let mut lists = Vec::new(alloc);
        for _literal in 0..count {
            lists.push(WatchList::new(alloc))?;
        }
        Ok(Watches {
            pairs: Vec::new(alloc),
            lists,
        })
    }

    /// The watch of a literal at an index, if there is one.
    pub fn get(&self, code: Code, place: usize) -> Option<Watch>
        ensures value { result ≡ slice_get (list_of self.now.lists.items (lit_of code)) place }
        ensures within { IfSome result (λ _. place < usize.MAX) }
    {
        self.lists.get(code.index())?.get(place)
    }

    /// Replaces the watch at an index.
    pub fn set(&mut self, code: Code, place: usize, watch: Watch)
        requires { place < length (list_of self.old.lists.items (lit_of code)) }
        ensures lists { self.new.lists.items ≡ with_list self.old.lists.items (lit_of code) (slice_set (list_of self.old.lists.items (lit_of code)) place watch) }
        ensures pairs { self.new.pairs.items ≡ self.old.pairs.items }
    {
        self.lists[code.index()].set(place, watch);
    }

    /// Removes the watch at an index and puts the last one there.
    pub fn remove(&mut self, code: Code, place: usize) -> Watch
        requires { place < length (list_of self.old.lists.items (lit_of code)) }
        ensures lists { self.new.lists.items ≡ with_list self.old.lists.items (lit_of code) (swap_remove (list_of self.old.lists.items (lit_of code)) place result) }
        ensures pairs { self.new.pairs.items ≡ self.old.pairs.items }
    {
        self.lists[code.index()].remove(place)
    }

    /// Adds a watch.
    fn push(&mut self, code: Code, watch: Watch) -> Result<(), NoMemory>
        requires { index_of (lit_of code) < length self.old.lists.items }
        ensures lists { OnOk result (self.new.lists.items ≡ with_watch self.old.lists.items (lit_of code) watch) }
        ensures pairs { OnOk result (self.new.pairs.items ≡ self.old.pairs.items) }
    {
        self.lists[code.index()].push(watch)?;
        Ok(())
    }

    /// Has a clause watch another pair, whose first literal it did not watch.
    pub fn watch_pair(&mut self, clause: u32, pair: Pair) -> Result<(), NoMemory>
        requires clause { clause < length self.old.pairs.items }
        requires room { index_of (lit_of pair.first) < length self.old.lists.items }
        ensures lists { OnOk result (self.new.lists.items ≡ with_watch self.old.lists.items (lit_of pair.first) (record { clause = clause; blocker = pair.second })) }
        ensures pairs { OnOk result (self.new.pairs.items ≡ slice_set self.old.pairs.items clause pair) }
    {
        self.push(
            pair.first,
            Watch {
                clause,
                blocker: pair.second,
            },
        )?;
        self.pairs[clause as usize] = pair;
        Ok(())
    }

    /// Adds a clause that watches this pair.
    pub fn add_pair(&mut self, pair: Pair) -> Result<(), NoMemory>
        requires count { length self.old.pairs.items < 4294967296 }
        requires first { index_of (lit_of pair.first) < length self.old.lists.items }
        requires second { index_of (lit_of pair.second) < length self.old.lists.items }
        ensures lists { OnOk result (self.new.lists.items ≡ with_watch (with_watch self.old.lists.items (lit_of pair.first) (record { clause = length self.old.pairs.items; blocker = pair.second })) (lit_of pair.second) (record { clause = length self.old.pairs.items; blocker = pair.first })) }
        ensures pairs { OnOk result (self.new.pairs.items ≡ self.old.pairs.items ++ pair ∷ []) }
    {
        let clause = self.pairs.len() as u32;
        self.push(
            pair.first,
            Watch {
                clause,
                blocker: pair.second,
            },
        )?;
        self.push(
            pair.second,
            Watch {
                clause,
                blocker: pair.first,
            },
        )?;
        self.pairs.push(pair)?;
        Ok(())
    }

    /// Adds a clause that watches no literal.
    pub fn add_none(&mut self, code: Code) -> Result<(), NoMemory>
        ensures lists { OnOk result (self.new.lists.items ≡ self.old.lists.items) }
        ensures pairs { OnOk result (self.new.pairs.items ≡ self.old.pairs.items ++ record { first = code; second = code } ∷ []) }
    {
        self.pairs.push(Pair {
            first: code,
            second: code,
        })?;
        Ok(())
    }
}
