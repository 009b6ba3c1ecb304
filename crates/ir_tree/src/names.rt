ghost use Rattle.std.specs.Prelude.{◌≡◌, ◌<◌, List, [], length, IfOk, IfSome, OnErr, slice_get, Some, position};
ghost use Rattle.std.specs.Option.{option_copied};
ghost use Rattle.ir_tree.specs.Names.{same_name, with_name, number_of};

use crate::name::Name;
use indexmap::IndexSet;
use std::alloc::Global;
use std::marker::Model;
use support::NoMemory;

/// A table of different names. A name's number is its index in the order of first appearance.
/// Contracts see the names in that order.
#[derive(Drop)]
pub struct Names {
    table: IndexSet<Name>,
}

impl Model for Names {
    ghost use Rattle.std.specs.Prelude.{List};
    ghost use Rattle.ir_tree.specs.declared.name.Name.{Name};

    ghost Value = { List Name };

    ghost view = { λ n. n.table.keys };
}

impl Names {
    /// The empty table. It takes no memory.
    pub fn new(alloc: Global) -> Names
        ensures { result ≡ [] }
    {
        Names {
            table: IndexSet::new(alloc),
        }
    }

    /// How many names there are.
    pub fn len(&self) -> usize
        ensures { result ≡ length self.now }
    {
        self.table.len()
    }

    /// The name of a number.
    pub fn get(&self, number: usize) -> Option<&Name>
        ensures { option_copied result ≡ slice_get self.now number }
    {
        self.table.get_index(number)
    }

    /// The number of a name, if the table has it.
    pub fn find(&self, name: &Name) -> Option<usize>
        ensures value { result ≡ position (same_name name.now) self.now }
        ensures within { IfSome result (λ number. number < length self.now) }
    {
        self.table.get_index_of(name)
    }

    /// The number of a name, which is added to the table if it isn't there yet. Where memory runs
    /// out, the table is as before.
    pub fn number(&mut self, name: Name) -> Result<usize, NoMemory>
        ensures names { IfOk result (λ number. self.new ≡ with_name self.old name) }
        ensures value { IfOk result (λ number. number ≡ number_of self.old name) }
        ensures within { IfOk result (λ number. number < length self.new) }
        ensures kept { OnErr result (self.new ≡ self.old) }
    {
        let (number, _added) = self.table.insert_full(name)?;
        Ok(number)
    }

    /// Gives back what memory the table doesn't need for its names. They stay.
    pub fn shrink_to_fit(&mut self)
        ensures { self.new ≡ self.old }
    {
        self.table.shrink_to_fit();
    }
}
