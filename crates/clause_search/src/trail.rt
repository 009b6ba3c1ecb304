//! The assigned literals, in order of assignment.

ghost use Rattle.std.specs.Prelude.{◌≡◌, ◌<◌, ◌≤◌, ◌↔◌, ◌++◌, ◌∷◌, [], IfSome, IsTrue, OnOk, OnErr, length, take, slice_get, Some, ℕ};
ghost use Rattle.clause_search.specs.Trail.{IsAssigned, IsUnassigned, Stands, literal_eq};
ghost use Rattle.clause_search.specs.Assigning.{IsLastBelow, IsLastPlace};
ghost use Rattle.clause_search.specs.Placing.{IsPlaceOf};

use clause_lits::Lit;
use std::alloc::Global;
use std::marker::Model;
use support::NoMemory;

/// An assigned literal, and the number of the clause that is its reason, or 0 for a decision.
#[derive(Clone, Copy, PartialEq, Eq, Debug)]
pub struct Entry {
    pub literal: Lit,
    pub reason: u64,
}

/// An entry, and the position of the last decision up to it.
#[derive(Clone, Copy)]
struct Mark {
    entry: Entry,
    last: Option<usize>,
}

/// The assigned literals, in order of assignment. Contracts see the list of entries.
///
/// `places` has for each assigned variable the position of its literal. A position that is out of
/// date shows by the entry there, so going back leaves the positions as they are.
pub struct Trail {
    marks: Vec<Mark>,
    places: Vec<usize>,
}

// Dropped by one call: a derived drop is written out at each return.
impl Drop for Trail {
    fn drop(self) {
        let Trail { marks, places } = self;
    }
}

impl Model for Trail {
    ghost use Rattle.std.specs.Prelude.{List};
    ghost use Rattle.clause_search.specs.declared.trail.Entry.{Entry};
    ghost use Rattle.clause_search.specs.Placing.{AreLast, ArePlaced, entries_of};

    ghost Value = { List Entry };

    ghost view = { λ t. entries_of t.marks.items };

    ghost invariant = { λ t. ArePlaced (entries_of t.marks.items) t.places.items × AreLast t.marks.items };
}

impl Trail {
    /// The empty trail.
    pub fn new(alloc: Global) -> Self
        ensures { result ≡ [] }
    {
        Trail {
            marks: Vec::new(alloc),
            places: Vec::new(alloc),
        }
    }

    /// How many literals are assigned.
    pub fn len(&self) -> usize
        ensures { result ≡ length self.now }
    {
        self.marks.len()
    }

    /// The entry at a position, counted from 0.
    pub fn get(&self, place: usize) -> Entry
        requires { place < length self.now }
        ensures { slice_get self.now place ≡ Some result }
    {
        self.marks[place].entry
    }

    /// Puts an entry after the others. Where memory runs out, they are as before.
    pub fn push(&mut self, entry: Entry) -> Result<(), NoMemory>
        requires { IsUnassigned self.old entry.literal.variable }
        ensures ok { OnOk result (self.new ≡ self.old ++ entry ∷ []) }
        ensures err { OnErr result (self.new ≡ self.old) }
    {
        let place = self.len();
        let last = if entry.reason == 0 {
            Some(place)
        } else {
            self.decision_before(place)
        };
        put_place(&mut self.places, entry.literal.variable as usize, place)?;
        self.marks.push(Mark { entry, last })?;
        Ok(())
    }

    /// Removes all entries from a position on.
    pub fn truncate(&mut self, place: usize)
        ensures { self.new ≡ take place self.old }
    {
        self.marks.truncate(place);
    }

    /// The position of the variable's literal, if it is assigned.
    pub(crate) fn place_of(&self, variable: u64) -> Option<usize>
        ensures place { IsPlaceOf self.now variable result }
        ensures within { IfSome result (λ place. place < usize.MAX) }
    {
        let place = *self.places.get(variable as usize)?;
        let mark = self.marks.get(place)?;
        if mark.entry.literal.variable == variable {
            Some(place)
        } else {
            None
        }
    }

    /// Whether the literal is true before the position.
    pub fn stands_before(&self, place: usize, literal: Lit) -> bool
        requires { place ≤ length self.now }
        ensures { IsTrue result ↔ Stands (take place self.now) literal }
    {
        let Some(at) = self.place_of(literal.variable) else {
            return false;
        };
        at < place && is_same(self.get(at).literal, literal)
    }

    /// Whether the literal is true.
    pub fn stands(&self, literal: Lit) -> bool
        ensures { IsTrue result ↔ Stands self.now literal }
    {
        self.stands_before(self.len(), literal)
    }

    /// Whether the variable is assigned.
    pub fn is_assigned(&self, variable: u64) -> bool
        ensures { IsTrue result ↔ IsAssigned self.now variable }
    {
        self.place_of(variable).is_some()
    }

    /// The last decision before a position.
    pub fn decision_before(&self, place: usize) -> Option<usize>
        requires { place ≤ length self.now }
        ensures { IsLastBelow self.now result place }
    {
        if place == 0 {
            return None;
        }
        self.marks[place - 1].last
    }

    /// The position of the last decision.
    pub fn last_decision(&self) -> Option<usize>
        ensures { IsLastPlace self.now result }
    {
        self.decision_before(self.len())
    }
}

/// Sets the position at an index, making room where there is none.
fn put_place(places: &mut Vec<usize>, index: usize, place: usize) -> Result<(), NoMemory>
    ensures ok { OnOk result (slice_get places.new.items index ≡ Some place) }
    ensures err { OnErr result (places.new.items ≡ places.old.items) }
    ensures kept { (i n : ℕ) → (i ≡ index → ⊥) → slice_get places.old.items i ≡ Some n → slice_get places.new.items i ≡ Some n }
{
    if places.len() <= index {
        let length = index.checked_add(1).ok_or(NoMemory)?;
        places.resize(length, 0)?;
    }
    places[index] = place;
    Ok(())
}

/// Whether the two are the same.
pub fn is_same(a: Lit, b: Lit) -> bool
    ensures { result ≡ literal_eq a b }
{
    a.variable == b.variable && a.positive == b.positive
}
