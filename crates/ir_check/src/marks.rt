//! Marks of names, which a new round clears all at once.

ghost use Rattle.std.specs.Prelude.{◌≡◌, ◌<◌, length, replicate, slice_index_or, slice_set, IfOk};
ghost use Rattle.ir_check.specs.declared.marks.Mark.TheVariants.{Stranger};
ghost use Rattle.ir_check.specs.Marks.{is_awaited, mark_in};

use ir_tree::Operand;
use std::alloc::Global;
use std::marker::Model;
use support::NoMemory;

/// What is known of a label while the entries of a phi are walked.
#[derive(Clone, Copy, Debug, PartialEq, Eq)]
pub enum Mark {
    /// No predecessor has it.
    Stranger,
    /// A predecessor has it, and no entry came from there so far.
    Awaited,
    /// A predecessor has it, and this is the operand of the first entry from there.
    Given(Operand),
}

/// A mark, and the round in which it was set.
#[derive(Clone, Copy, Debug, PartialEq, Eq)]
pub struct Slot {
    pub round: u64,
    pub mark: Mark,
}

/// A mark for each name from 0 on. Contracts see the list of the marks.
///
/// To clear them begins a new round, and costs one step: a mark of an earlier round counts as
/// `Stranger`.
#[derive(Drop)]
pub struct Marks {
    round: u64,
    slots: Vec<Slot>,
}

impl Model for Marks {
    ghost use Rattle.std.specs.Prelude.{List, ◌≤◌};
    ghost use Rattle.std.specs.List.{All};
    ghost use Rattle.ir_check.specs.declared.marks.Mark.{Mark as Held};
    ghost use Rattle.ir_check.specs.Marks.{marks_in};

    ghost Value = { List Held };

    ghost view = { λ m. marks_in m.round m.slots.items };

    ghost invariant = { λ m. All (λ slot. slot.round ≤ m.round) m.slots.items };
}

impl Marks {
    /// The marks of this number of names, all `Stranger`.
    pub fn new(alloc: Global, names: usize) -> Result<Marks, NoMemory>
        ensures { IfOk result (λ marks. marks ≡ replicate names Stranger) }
    {
        Ok(Marks {
            round: 0,
            slots: vec![in alloc; UNMARKED; names]?,
        })
    }

    /// Clears all marks.
    pub fn clear(&mut self)
        ensures { self.new ≡ replicate (length self.old) Stranger }
    {
        match self.round.checked_add(1) {
            Some(round) => self.round = round,
            None => {
                self.slots.fill(UNMARKED);
                self.round = 0;
            }
        }
    }

    /// The mark of a name; a name that has no entry here is a stranger.
    pub fn get(&self, name: usize) -> Mark
        ensures { result ≡ slice_index_or self.now name Stranger }
    {
        match self.slots.get(name) {
            Some(slot) => mark_in(self.round, *slot),
            None => Mark::Stranger,
        }
    }

    /// Marks a name.
    pub fn set(&mut self, name: usize, mark: Mark)
        requires { name < length self.old }
        ensures { self.new ≡ slice_set self.old name mark }
    {
        self.slots[name] = Slot {
            round: self.round,
            mark,
        };
    }
}

const UNMARKED: Slot = Slot {
    round: 0,
    mark: Mark::Stranger,
};

fn mark_in(round: u64, slot: Slot) -> Mark
    ensures { result ≡ mark_in round slot }
{
    if slot.round == round {
        slot.mark
    } else {
        Mark::Stranger
    }
}

/// Whether a predecessor has the label, and no entry came from there.
pub fn is_awaited(mark: Mark) -> bool
    ensures { result ≡ is_awaited mark }
{
    match mark {
        Mark::Awaited => true,
        Mark::Stranger | Mark::Given(_) => false,
    }
}
