//! Terms with others substituted for variables.

ghost use Rattle.std.specs.Prelude.{◌≡◌, ◌<◌, [], IfOk, List, OnErr, OnOk, length};
ghost use Rattle.bv_terms.specs.Tree.{width_of};
ghost use Rattle.bv_terms.specs.Trees.{IsWithin, tree_in};
ghost use Rattle.term_folds.specs.Over.{replacement_in, term_over};
ghost use Rattle.term_folds.specs.Substitution.{Follows, IsSubstituted, Replaces};

use bv_terms::{Term, TermFold, TermId, Terms, Variable};
use indexmap::IndexMap;
use std::alloc::Global;
use std::marker::Model;
use support::NoMemory;

/// A store of terms into which others are written, each variable of these replaced by a term of the
/// store, or kept where it has no replacement. Contracts see the terms of the store and the
/// replacements. The answer for a term is a term of the store.
#[derive(Drop)]
pub struct Substitute {
    terms: Terms,
    replacements: IndexMap<Variable, TermId>,
}

impl Model for Substitute {
    ghost use Rattle.term_folds.specs.Substitution.{AreReplacements, Substituting};

    ghost Value = { Substituting };

    ghost view = { λ s. record { terms = s.terms; replacements = s.replacements.entries } };

    ghost invariant = { λ s. AreReplacements s.terms s.replacements.entries };
}

impl Substitute {
    /// Writes into these terms, after those that are there. No variable has a replacement. It takes
    /// no memory.
    pub fn new(alloc: Global, terms: Terms) -> Self
        ensures terms { result.terms ≡ terms }
        ensures replacements { result.replacements ≡ [] }
    {
        Substitute {
            terms,
            replacements: IndexMap::new(alloc),
        }
    }

    /// Gives a variable the term of the store that replaces it, which is as wide. Out of memory,
    /// all is as before.
    pub fn replace(&mut self, variable: Variable, by: TermId) -> Result<(), NoMemory>
        requires within { by.index < length self.old.terms }
        requires wide { width_of (tree_in self.old.terms by) ≡ variable.width }
        ensures ok { OnOk result (Replaces self.old.replacements self.new.replacements variable by) }
        ensures terms { self.new.terms ≡ self.old.terms }
        ensures err { OnErr result (self.new ≡ self.old) }
    {
        self.replacements.insert(variable, by)?;
        Ok(())
    }

    /// The store.
    pub fn terms(&self) -> &Terms
        ensures { result.now ≡ self.now.terms }
    {
        &self.terms
    }

    /// The store, without the replacements. It takes no memory.
    pub fn into_terms(self) -> Terms
        ensures { result ≡ self.terms }
    {
        let Substitute { terms, .. } = self;
        terms
    }
}

/// What replaces a term, which is something only for a variable.
fn replacement(replacements: &IndexMap<Variable, TermId>, term: &Term) -> Option<TermId>
    ensures { result ≡ replacement_in replacements.now.entries term.now }
{
    match *term {
        Term::Variable { number, width } => replacements.get(&Variable { number, width }).copied(),
        _ => None,
    }
}

/// The same operation over the answers for what it names.
fn over(term: &Term, done: &[TermId]) -> Term
    requires { IsWithin (length done.now) term.now }
    ensures { result ≡ term_over done.now term.now }
{
    match *term {
        Term::Constant { value, width } => Term::Constant { value, width },
        Term::Variable { number, width } => Term::Variable { number, width },
        Term::Not { a, width } => Term::Not {
            a: done[a.index],
            width,
        },
        Term::Binary(op, a, b, width) => Term::Binary(op, done[a.index], done[b.index], width),
        Term::Ite { c, a, b, width } => Term::Ite {
            c: done[c.index],
            a: done[a.index],
            b: done[b.index],
            width,
        },
        Term::Extract { a, from, width } => Term::Extract {
            a: done[a.index],
            from,
            width,
        },
        Term::Concat {
            high,
            low,
            below,
            width,
        } => Term::Concat {
            high: done[high.index],
            low: done[low.index],
            below,
            width,
        },
        Term::Zext { a, width } => Term::Zext {
            a: done[a.index],
            width,
        },
        Term::Sext { a, from, width } => Term::Sext {
            a: done[a.index],
            from,
            width,
        },
    }
}

impl TermFold for Substitute {
    ghost use Rattle.term_folds.specs.Standing.{follows_self, follows_trans, stands_later};

    type Out = TermId;

    type Fault = NoMemory;

    ghost stands = { IsSubstituted };

    ghost follows = { Follows };

    ghost gives = { λ _ _. Unit {0} };

    fn node(&mut self, term: &Term, done: &[TermId]) -> Result<TermId, NoMemory> {
        match replacement(&self.replacements, term) {
            Some(by) => {
                self.terms.values_fit();
                Ok(by)
            }
            None => {
                let id = self.terms.store(over(term, done))?;
                Ok(id)
            }
        }
    }

    ghost stays = { follows_self };

    ghost goes_on = { follows_trans };

    ghost keeps = { stands_later };
}
