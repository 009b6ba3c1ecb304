//! The fold whose answer for a term is its bits.

ghost use Rattle.std.specs.Prelude.{◌≡◌, ◌<◌, [], IfOk, IfSome, List, OnErr, OnOk, length};
ghost use Rattle.std.specs.Option.{option_copied};
ghost use Rattle.bv_terms.specs.Tree.{Tree};
ghost use Rattle.bv_terms.specs.Trees.{IsFit, IsWithin, tree_of};
ghost use Rattle.gates.specs.Encoding.{AreAllNamed, AreInputs};
ghost use Rattle.gates.specs.Numbering.{AreApart};
ghost use Rattle.bit_blast.specs.Bits.{AreBits, AreStanding};
ghost use Rattle.bit_blast.specs.Table.{Adds, Follows, HasInputs, IsTable, all_digits, digits_of};
ghost use Rattle.bit_blast.specs.Written.{HasVariable};

use crate::step::{add_variable, all_inputs, find, written};
use bv_terms::{Term, TermFold, Variable};
use gates::{Circuit, GateId};
use indexmap::IndexMap;
use std::alloc::Global;
use std::marker::Model;
use support::{NoMemory, Sequence};

/// A circuit in which terms are built, and the inputs that are the bits of each variable. Contracts
/// see the gates and the table of bits, in the order in which the variables were added.
pub struct Blast {
    alloc: Global,
    circuit: Circuit,
    table: IndexMap<Variable, Sequence<GateId>>,
}

// Dropped by one call: a derived drop is written out at each return.
impl Drop for Blast {
    fn drop(self) {
        let Blast {
            alloc,
            circuit,
            table,
        } = self;
    }
}

impl Model for Blast {
    ghost use Rattle.bit_blast.specs.Table.{Blasted, IsTable};

    ghost Value = { Blasted };

    ghost view = { λ b. record { gates = b.circuit; table = b.table.entries } };

    ghost invariant = { λ b. IsTable b.circuit b.table.entries };
}

impl Blast {
    /// No gates and no variables. It takes no memory.
    pub fn new(alloc: Global) -> Self
        ensures gates { result.gates ≡ [] }
        ensures table { result.table ≡ [] }
    {
        Blast {
            alloc,
            circuit: Circuit::new(alloc),
            table: IndexMap::new(alloc),
        }
    }

    /// The circuit. Each of its inputs is one bit of one variable.
    pub fn circuit(&self) -> &Circuit
        ensures value { result.now ≡ self.now.gates }
        ensures table { IsTable self.now.gates self.now.table }
    {
        &self.circuit
    }

    /// The inputs that are a variable's bits, most significant first, or `None` if it has none yet.
    pub fn digits(&self, variable: Variable) -> Option<&Sequence<GateId>>
        ensures { option_copied result ≡ digits_of self.now.table variable }
    {
        find(&self.table, variable)
    }

    /// All inputs of the circuit, the bits of each variable together, in the order in which the
    /// variables were added.
    pub fn inputs(&self) -> Result<Vec<GateId>, NoMemory>
        ensures digits { IfOk result (λ r. r.items ≡ all_digits self.now.table) }
        ensures inputs { IfOk result (λ r. AreInputs self.now.gates r.items) }
        ensures apart { IfOk result (λ r. AreApart r.items) }
        ensures named { IfOk result (λ r. AreAllNamed self.now.gates r.items) }
    {
        let digits = all_inputs(self.alloc, &self.table)?;
        Ok(digits)
    }

    /// For each assignment of the variables some values of the inputs agree with it. This computes
    /// nothing: its caller learns it.
    pub fn agreement(&self)
        ensures { HasInputs self.now.table }
    {
        self.circuit();
    }

    /// Gives a variable inputs, one per bit, unless it has them. Out of memory, all is as before.
    pub fn add(&mut self, variable: Variable) -> Result<(), NoMemory>
        ensures added { OnOk result (Adds self.old.table self.new.table variable) }
        ensures follows { Follows self.old self.new }
        ensures err { OnErr result (self.new ≡ self.old) }
    {
        if self.digits(variable).is_some() {
            return Ok(());
        }
        add_variable(self.alloc, &mut self.circuit, &mut self.table, variable)
    }

    /// Gives a term that is a variable inputs, unless it has them.
    fn prepare(&mut self, term: &Term) -> Result<(), NoMemory>
        ensures known { OnOk result (HasVariable self.new.table term.now) }
        ensures follows { Follows self.old self.new }
        ensures table { HasVariable self.old.table term.now → self.new.table ≡ self.old.table }
    {
        match *term {
            Term::Variable { number, width } => self.add(Variable { number, width }),
            _ => Ok(()),
        }
    }

    /// The bits of a term over those of the terms that it names; nothing is asked of the others. A
    /// variable that has no inputs gets them.
    pub fn term(
        &mut self,
        term: &Term,
        done: &[Sequence<GateId>],
    ) -> Result<Sequence<GateId>, NoMemory>
        requires within { IsWithin (length done.now) term.now }
        requires stood { (trees : List Tree) × AreStanding self.old.gates self.old.table trees done.now term.now × IsFit trees term.now }
        ensures stands { (trees : List Tree) → AreStanding self.old.gates self.old.table trees done.now term.now → IsFit trees term.now →
            IfOk result (AreBits self.new.gates self.new.table (tree_of trees term.now)) }
        ensures follows { Follows self.old self.new }
        ensures table { HasVariable self.old.table term.now → self.new.table ≡ self.old.table }
    {
        self.prepare(term)?;
        let digits = written(self.alloc, &mut self.circuit, &self.table, term, done)?;
        Ok(Sequence::from_vec(digits))
    }
}

impl TermFold for Blast {
    ghost use Rattle.bit_blast.specs.Following.{bits_kept, follows_self, follows_trans};

    type Out = Sequence<GateId>;

    type Fault = NoMemory;

    ghost stands = { λ b tree digits. AreBits b.gates b.table tree digits };

    ghost follows = { Follows };

    ghost gives = { λ _ _. Unit {0} };

    fn node(
        &mut self,
        term: &Term,
        done: &[Sequence<GateId>],
    ) -> Result<Sequence<GateId>, NoMemory> {
        self.term(term, done)
    }

    ghost stays = { follows_self };

    ghost goes_on = { follows_trans };

    ghost keeps = { bits_kept };
}
