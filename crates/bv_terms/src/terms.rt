//! Terms, each stored once.

ghost use Rattle.std.specs.Prelude.{◌≡◌, ◌<◌, [], IfOk, Some, slice_get, length};

use crate::term::{Term, TermId};
use indexmap::IndexSet;
use std::alloc::Global;
use std::marker::Model;
use support::NoMemory;

/// Terms, each once and after those that it names. Contracts see the list of terms.
pub struct Terms {
    terms: IndexSet<Term>,
}

// Dropped by one call: a derived drop is written out at each return.
impl Drop for Terms {
    fn drop(self) {
        let Terms { terms } = self;
    }
}

impl Model for Terms {
    ghost use Rattle.std.specs.Prelude.{List, []};
    ghost use Rattle.bv_terms.specs.declared.term.Term.{Term};
    ghost use Rattle.bv_terms.specs.Trees.{AreFit};

    ghost Value = { List Term };

    ghost view = { λ t. t.terms.keys };

    ghost invariant = { λ t. AreFit [] t.terms.keys };
}

impl Terms {
    ghost use Rattle.bv_terms.specs.Tree.{value_of, width_of};
    ghost use Rattle.bv_terms.specs.Trees.{AreDistinct, AreFit, AreInRange, AreMatched, Extends, Gains, IsNoVariable, IsWidth, IsWithin, Keeps, Makes, term_width, trees_of, tree_in, tree_of, variable_in};

    /// No terms.
    pub fn new(alloc: Global) -> Self
        ensures { result ≡ [] }
    {
        Terms {
            terms: IndexSet::new(alloc),
        }
    }

    /// The term's index, as a term id: the bare step.
    fn insert(&mut self, term: Term) -> Result<TermId, NoMemory>
        requires within { IsWithin (length self.old) term }
        requires matched { AreMatched (trees_of self.old) term }
        ensures stored { IfOk result (λ id. slice_get self.new id.index ≡ Some term) }
        ensures fit { AreFit [] self.new }
        ensures kept { Extends self.old self.new }
        ensures gains { Gains self.old self.new (variable_in term) }
    {
        let (index, _) = self.terms.insert_full(term)?;
        Ok(TermId { index })
    }

    /// The index of the term, which is stored unless it is there.
    pub fn store(&mut self, term: Term) -> Result<TermId, NoMemory>
        requires within { IsWithin (length self.old) term }
        requires matched { AreMatched (trees_of self.old) term }
        ensures stored { IfOk result (λ id. slice_get self.new id.index ≡ Some term) }
        ensures made { IfOk result (λ id. Makes self.new id (term_width term) (λ v. value_of v (tree_of (trees_of self.old) term))) }
        ensures kept { Extends self.old self.new }
        ensures gains { Gains self.old self.new (variable_in term) }
    {
        let id = self.insert(term)?;
        Ok(id)
    }

    /// The index of an operation or constant, which is stored unless it is there. Adds no variable.
    pub(crate) fn apply(&mut self, term: Term) -> Result<TermId, NoMemory>
        requires within { IsWithin (length self.old) term }
        requires matched { AreMatched (trees_of self.old) term }
        requires operation { IsNoVariable term }
        ensures stored { IfOk result (λ id. slice_get self.new id.index ≡ Some term) }
        ensures made { IfOk result (λ id. Makes self.new id (term_width term) (λ v. value_of v (tree_of (trees_of self.old) term))) }
        ensures kept { Keeps self.old self.new }
    {
        let id = self.insert(term)?;
        Ok(id)
    }

    /// Each value fits its width. This computes nothing: its caller learns it.
    pub fn values_fit(&self)
        ensures { AreInRange self.now }
    {
        self.as_slice();
    }

    /// The terms, in order.
    pub fn as_slice(&self) -> &[Term]
        ensures value { result.now ≡ self.now }
        ensures fit { AreFit [] self.now }
        ensures distinct { AreDistinct self.now }
    {
        self.terms.as_slice()
    }

    /// How many bits a term has, from 1 to 128.
    pub fn width(&self, a: TermId) -> u32
        requires { a.index < length self.now }
        ensures width { result ≡ width_of (tree_in self.now a) }
        ensures range { IsWidth result }
    {
        self.as_slice()[a.index].width()
    }
}
