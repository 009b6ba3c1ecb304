//! A fold over terms, from the first to the last.

ghost use Rattle.std.specs.Prelude.{◌≡◌, List, IfOk, IfErr, length};
ghost use Rattle.std.specs.List.{AllZip};
ghost use Rattle.bv_terms.specs.Faults.{IsFaultOf};
ghost use Rattle.bv_terms.specs.Tree.{Tree};
ghost use Rattle.bv_terms.specs.Trees.{IsFit, IsWithin, tree_of, trees_of};
ghost use Rattle.bv_terms.specs.declared.term.Term.{Term};

use crate::term::Term;
use crate::terms::Terms;
use std::alloc::Global;

/// What is done at each term, given what was answered for the earlier ones.
pub trait TermFold {
    type Out: Drop;

    type Fault: Drop;

    /// This answer denotes this tree.
    ghost stands: { Self → Tree → Self.Out → Type 0 };

    /// The second may come after the first in one fold.
    ghost follows: { Self → Self → Type 0 };

    /// The term gives this fault.
    ghost gives: { Term → Self.Fault → Type 0 };

    /// The answer for a term over earlier ones, whose answers are given.
    fn node(&mut self, term: &Term, done: &[Self::Out]) -> Result<Self::Out, Self::Fault>
        requires within { IsWithin (length done.now) term.now }
        requires stood { (trees : List Tree) × AllZip (stands self.old) trees done.now × IsFit trees term.now }
        ensures stands { (trees : List Tree) → AllZip (stands self.old) trees done.now → IsFit trees term.now →
            IfOk result (stands self.new (tree_of trees term.now)) }
        ensures follows { follows self.old self.new }
        ensures fault { IfErr result (gives term.now) };

    /// `follows` is reflexive.
    ghost stays: { (a : Self) → follows a a };

    /// `follows` is transitive.
    ghost goes_on: { (a b c : Self) → follows a b → follows b c → follows a c };

    /// An answer that denotes a tree denotes it from then on.
    ghost keeps: { (a b : Self) (tree : Tree) (out : Self.Out) → follows a b → stands a tree out → stands b tree out };
}

/// Why a fold gave no answers: out of memory, or a fault that the step gave at one of the terms.
#[derive(Drop)]
pub enum FoldFault<E> {
    NoMemory,
    Node(E),
}

/// The answers for the terms, in order: each denotes the term at its index. It takes one step per
/// term.
pub fn fold<F: TermFold>(
    alloc: Global,
    terms: &Terms,
    folder: &mut F,
) -> Result<Vec<F::Out>, FoldFault<F::Fault>>
    ensures ok { IfOk result (λ outs. AllZip (F.stands folder.new) (trees_of terms.now) outs.items) }
    ensures follows { F.follows folder.old folder.new }
    ensures err { IfErr result (IsFaultOf F.gives terms.now) }
{
    let mut outs = Vec::new(alloc);
    for term in terms.as_slice() {
        match folder.node(term, &outs) {
            Ok(out) => {
                if outs.push(out).is_err() {
                    return Err(FoldFault::NoMemory);
                }
            }
            Err(fault) => return Err(FoldFault::Node(fault)),
        }
    }
    Ok(outs)
}
