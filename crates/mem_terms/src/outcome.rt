use crate::blocks::SymBlock;
use crate::values::SymValue;
use bv_terms::TermId;
use support::Sequence;

/// How a run ends: in undefined behaviour where `ub` is true, else past the bound on jumps where
/// `beyond` is, else in a return, with a value unless the function is `void`, which leaves these
/// given blocks; how many words of the tape it read, as a term of 64 bits; and whether the tape is
/// plain for it.
#[derive(Drop)]
pub struct OutcomeTerms {
    pub ub: TermId,
    pub beyond: TermId,
    pub value: Option<SymValue>,
    pub blocks: Sequence<SymBlock>,
    pub read: TermId,
    pub plain: TermId,
}
