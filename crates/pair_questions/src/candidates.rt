//! The tapes that are tried for every point, each once.

ghost use Rattle.std.specs.Prelude.{◌↔◌, ℕ, Contains, IfOk, IsTrue, map};
ghost use Rattle.bv_terms.specs.Trees.{Keeps};
ghost use Rattle.mem_terms.specs.Inputs.{AreWords, words_at};
ghost use Rattle.mem_terms.specs.declared.inputs.TapeTerms.{TapeTerms};
ghost use Rattle.pair_questions.specs.Candidates.{AreSameTapes, AreTapes, tapes_at, words_of_each};

use crate::tapes::candidate_tape;
use bv_terms::{TermId, Terms};
use candidate_runs::Candidate;
use mem_terms::TapeTerms;
use std::alloc::Global;
use support::NoMemory;

/// Whether one of the tapes has these words.
fn has_tape(tapes: &[TapeTerms], words: &[TermId]) -> bool
    ensures { IsTrue result ↔ Contains (map (λ (tape : TapeTerms). tape.words) tapes.now) words.now }
{
    for tape in tapes {
        if tape.words.as_slice() == words {
            return true;
        }
    }
    false
}

/// The tapes of these candidates. One with the same words as one before it is left out: where the
/// target reads no choice, or the source none, all shifts have the same words.
pub fn candidate_tapes(
    alloc: Global,
    candidates: &[Candidate],
    numbers: &[TermId],
    words: &[TermId],
    need: usize,
    terms: &mut Terms,
) -> Result<Vec<TapeTerms>, NoMemory>
    requires numbers { AreWords terms.old numbers.now }
    requires words { AreWords terms.old words.now }
    ensures are { IfOk result (λ tapes. AreTapes terms.new tapes.items) }
    ensures same { IfOk result (λ tapes. (v : ℕ → ℕ → ℕ) → AreSameTapes (tapes_at v terms.new tapes.items) (words_of_each need (words_at v terms.old numbers.now) (words_at v terms.old words.now) candidates.now)) }
    ensures kept { Keeps terms.old terms.new }
{
    let mut tapes: Vec<TapeTerms> = Vec::new(alloc);
    for candidate in candidates {
        let tape = candidate_tape(alloc, *candidate, numbers, words, need, terms)?;
        if !has_tape(tapes.as_slice(), tape.words.as_slice()) {
            tapes.push(tape)?;
        }
    }
    Ok(tapes)
}
