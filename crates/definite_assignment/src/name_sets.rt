//! The result: a set of names for each block.

ghost use Rattle.std.specs.Prelude.{◌≡◌, ◌<◌, length, slice_index_or, []};
ghost use Rattle.definite_assignment.specs.Sets.{by_columns, has};

use crate::name_set::NameSet;
use std::marker::Model;
use support::Sequence;

/// A set of names for each block, and for each name its bit in the sets. Contracts see the list of the
/// sets, each as the list of whether it has a name.
#[derive(Drop)]
pub struct NameSets {
    sets: Sequence<NameSet>,
    columns: Vec<usize>,
}

impl Model for NameSets {
    ghost use Rattle.std.specs.Prelude.{List, Bool};
    ghost use Rattle.definite_assignment.specs.Sets.{by_columns};

    ghost Value = { List (List Bool) };

    ghost view = { λ s. by_columns s.columns.items s.sets };
}

impl NameSets {
    /// The sets, in the order of the blocks, with the column of each name in them.
    pub(crate) fn new(sets: Sequence<NameSet>, columns: Vec<usize>) -> NameSets
        ensures { result ≡ by_columns columns.items sets }
    {
        NameSets { sets, columns }
    }

    /// Whether a block's set has a name.
    pub fn has(&self, block: usize, name: usize) -> bool
        requires block { block < length self.now }
        requires name { name < length (slice_index_or self.now block []) }
        ensures { result ≡ has self.now block name }
    {
        self.sets.get(block).has(self.columns[name])
    }
}
