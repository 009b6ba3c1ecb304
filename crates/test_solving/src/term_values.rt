//! The values of terms that have no variables.

use bv_terms::{TermId, Terms, fold};
use std::alloc::Global;
use support::{NoMemory, Sequence};
use term_folds::Evaluate;

/// The value of a term, or `None` where there is no such term.
pub fn value_of(alloc: Global, terms: &Terms, id: TermId) -> Result<Option<u128>, NoMemory> {
    let mut evaluate = Evaluate {
        values: Sequence::from_vec(Vec::new(alloc)),
    };
    match fold(alloc, terms, &mut evaluate) {
        Ok(values) => Ok(values.get(id.index).copied()),
        Err(_) => Err(NoMemory),
    }
}
