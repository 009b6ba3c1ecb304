//! A list of literals in order of their variables.

ghost use Rattle.std.specs.Prelude.{◌≡◌, ◌↔◌, IfOk, IsTrue, [], length};
ghost use Rattle.clause_lits.specs.Meaning.{IsClause};

use crate::lit::Lit;
use smallvec::SmallVec;
use std::alloc::Global;
use std::marker::Model;
use support::NoMemory;

/// Literals in order of their variables, each variable once. Contracts see the list of literals.
#[derive(Drop)]
pub struct Clause {
    literals: SmallVec<Lit, 4>,
}

impl Model for Clause {
    ghost use Rattle.std.specs.Prelude.{List};
    ghost use Rattle.clause_lits.specs.declared.lit.Lit.{Lit};
    ghost use Rattle.clause_lits.specs.Meaning.{IsClause};

    ghost Value = { List Lit };

    ghost view = { λ c. c.literals.items };

    ghost invariant = { λ c. IsClause c.literals.items };
}

impl Clause {
    ghost use Rattle.clause_lits.specs.Meaning.{IsClause};

    /// The clause of these literals. [`is_clause`] is the test that they are in order.
    pub fn new(literals: SmallVec<Lit, 4>) -> Self
        requires { IsClause literals.items }
        ensures { result ≡ literals.items }
    {
        Clause { literals }
    }

    /// The literals, in order.
    pub fn literals(&self) -> &[Lit]
        ensures value { result.now ≡ self.now }
        ensures clause { IsClause self.now }
    {
        self.literals.as_slice()
    }

    /// Whether there is no literal in it.
    pub fn is_empty(&self) -> bool
        ensures { IsTrue result ↔ (self.now ≡ []) }
    {
        self.literals.is_empty()
    }

    /// Another clause of the same literals.
    pub fn duplicate(&self, alloc: Global) -> Result<Clause, NoMemory>
        ensures { IfOk result (λ other. other ≡ self.now) }
    {
        Ok(Clause::new(SmallVec::from_slice(alloc, self.literals())?))
    }

    /// Whether the two are the same list of literals.
    pub fn is_same(&self, other: &Clause) -> bool
        ensures { IsTrue result ↔ (self.now ≡ other.now) }
    {
        self.literals() == other.literals()
    }
}

/// Whether the literals are in order of their variables, each variable once and none of them 0.
pub fn is_clause(literals: &[Lit]) -> bool
    ensures { IsTrue result ↔ IsClause literals.now }
{
    let mut below = 0;
    for literal in literals {
        if literal.variable <= below {
            return false;
        }
        below = literal.variable;
    }
    true
}
