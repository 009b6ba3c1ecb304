//! The literals of a clause as marks on their variables.

ghost use Rattle.std.specs.Prelude.{◌≡◌, ◌<◌, ◌≤◌, All, count_by, length, nat_eq};
ghost use Rattle.clause_log.specs.declared.mark.Mark.{Mark as SpecMark};

use crate::mark::Mark;
use crate::places::Places;
use clause_lits::Clause;
use std::alloc::Global;
use support::NoMemory;

/// How many variables of a clause are marked with the other sign.
#[derive(Clone, Copy)]
pub enum Clashes {
    Zero,
    One,
    Several,
}

/// The literals of a clause, as marks on their variables.
#[derive(Drop)]
pub struct Marks {
    /// The mark at each place. It is there if it has the present stamp.
    pub by_place: Vec<Mark>,
    /// The present stamp.
    pub stamp: u32,
    /// How many marks there are.
    pub count: usize,
    pub ghost counted: { count ≡ count_by (λ (m : SpecMark). nat_eq m.stamp stamp) by_place.items },
    pub ghost begun: { 0 < stamp },
    pub ghost none_later: { All (λ (m : SpecMark). m.stamp ≤ stamp) by_place.items },
}

impl Marks {
    ghost use Rattle.std.specs.Prelude.{[], ◌-◌, ◌+◌, None, Some, false, IfOk, OnOk, IsTrue, ◌↔◌, List, slice_index_or, slice_set};
    ghost use Rattle.std.specs.Option.{is_some};
    ghost use Rattle.clause_lits.specs.declared.lit.Lit.{Lit as SpecLit};
    ghost use Rattle.clause_log.specs.declared.places.Places.{Places as SpecPlaces};
    ghost use Rattle.clause_log.specs.Marking.{AreMarks, AreJoined, sign_at, sign_of};

    /// No mark, and this many places, or none where memory is short.
    pub fn new(alloc: Global, room: usize) -> Marks {
        let unmarked = Mark {
            stamp: 0,
            positive: false,
        };
        let by_place = match vec![in alloc; unmarked; room] {
            Ok(by_place) => by_place,
            Err(_) => Vec::new(alloc),
        };
        Marks {
            by_place,
            stamp: 1,
            count: 0,
        }
    }

    /// Takes all marks away, by the next stamp. It fails if the stamps are used up.
    pub fn begin(&mut self) -> Result<(), NoMemory>
        ensures { OnOk result ((places : SpecPlaces) → AreMarks places self.new []) }
    {
        let Some(stamp) = self.stamp.checked_add(1) else {
            return Err(NoMemory);
        };
        self.stamp = stamp;
        self.count = 0;
        Ok(())
    }

    /// The sign of the mark at a place, or `None` if there is no mark.
    fn sign(&self, place: usize) -> Option<bool>
        ensures { result ≡ sign_at self.now.stamp self.now.by_place.items place }
    {
        match self.by_place.get(place) {
            Some(mark) if mark.stamp == self.stamp => Some(mark.positive),
            _ => None,
        }
    }

    /// The sign with which a variable is marked, or `None` if it is not marked.
    fn sign_of(&self, places: &Places, variable: u64) -> Option<bool>
        ensures { result ≡ sign_of places.now self.now variable }
    {
        let place = places.find(variable)?;
        self.sign(place)
    }

    /// Marks a place that has no mark.
    fn put(&mut self, place: usize, positive: bool)
        requires within { place < length self.old.by_place.items }
        requires none { sign_at self.old.stamp self.old.by_place.items place ≡ None }
        ensures marks { self.new.by_place.items ≡ slice_set self.old.by_place.items place (record { stamp = self.old.stamp; positive = positive }) }
        ensures stamp { self.new.stamp ≡ self.old.stamp }
        ensures count { self.new.count ≡ self.old.count + 1 }
    {
        let mark = &mut self.by_place[place];
        mark.stamp = self.stamp;
        mark.positive = positive;
        self.count += 1;
    }

    /// Takes the mark at a place away.
    fn remove(&mut self, place: usize)
        requires within { place < length self.old.by_place.items }
        requires some { IsTrue (is_some (sign_at self.old.stamp self.old.by_place.items place)) }
        ensures marks { self.new.by_place.items ≡ slice_set self.old.by_place.items place (record { stamp = 0; positive = false }) }
        ensures stamp { self.new.stamp ≡ self.old.stamp }
        ensures count { self.new.count + 1 ≡ self.old.count }
    {
        self.by_place[place] = Mark {
            stamp: 0,
            positive: false,
        };
        self.count -= 1;
    }

    /// Joins the literals of another clause to those that are marked, and says how many variables
    /// clash. After several clashes the marks are those of no clause. It fails if a variable has no
    /// place.
    pub fn join(&mut self, places: &Places, clause: &Clause) -> Result<Clashes, NoMemory>
        ensures { IfOk result (λ clashes. (c : List SpecLit) → AreMarks places.now self.old c → AreJoined places.now self.new c clause.now clashes) }
    {
        let mut clashed = false;
        for literal in clause.literals() {
            let Some(place) = places.find(literal.variable) else {
                return Err(NoMemory);
            };
            if place >= self.by_place.len() {
                return Err(NoMemory);
            }
            match self.sign(place) {
                None => self.put(place, literal.positive),
                Some(positive) => {
                    if positive != literal.positive {
                        if clashed {
                            return Ok(Clashes::Several);
                        }
                        clashed = true;
                        self.remove(place);
                    }
                }
            }
        }
        Ok(if clashed { Clashes::One } else { Clashes::Zero })
    }

    /// Whether the marks are the literals of this clause.
    pub fn are_of(&self, places: &Places, clause: &Clause) -> bool
        ensures { (c : List SpecLit) → AreMarks places.now self.now c → IsTrue result ↔ (c ≡ clause.now) }
    {
        let literals = clause.literals();
        if literals.len() != self.count {
            return false;
        }
        for literal in literals {
            if self.sign_of(places, literal.variable) != Some(literal.positive) {
                return false;
            }
        }
        true
    }
}
