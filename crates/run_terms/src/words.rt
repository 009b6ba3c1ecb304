//! Words of a tape.

ghost use Rattle.std.specs.Prelude.{◌≡◌, ◌+◌, IfOk, slice_index, take};
ghost use Rattle.run_terms.specs.Common.{Keeps, IsTerm, Makes, term_at, AreWords, words_at};

use bv_terms::{TermId, Terms};
use mem_terms::{equals, number, pick};
use support::NoMemory;

/// The words at the indices up to one.
pub fn words_up_to(tape: &[TermId], most: usize) -> &[TermId]
    ensures { result.now ≡ take (most + 1) tape.now }
{
    if most < tape.len() {
        &tape[..most + 1]
    } else {
        tape
    }
}

/// The word at an index that is itself a term, and 0 past the end of the words.
pub fn word_at(terms: &mut Terms, words: &[TermId], place: TermId) -> Result<TermId, NoMemory>
    requires words { AreWords terms.old words.now }
    requires place { IsTerm terms.old 64 place }
    ensures made { IfOk result (λ id. Makes terms.new id 64 (λ v. slice_index (words_at v terms.old words.now) (term_at v terms.old place))) }
    ensures kept { Keeps terms.old terms.new }
{
    let mut word = number(terms, 0)?;
    for (i, next) in words.iter().enumerate() {
        let at = number(terms, i as u64)?;
        let here = equals(terms, place, at)?;
        word = pick(terms, here, *next, word)?;
    }
    Ok(word)
}
