//! Tapes of the source, as terms.

ghost use Rattle.std.specs.Prelude.{◌≡◌, IfOk, List, ℕ, slice_index};
ghost use Rattle.bv_terms.specs.declared.term.Term.{Term};
ghost use Rattle.bv_terms.specs.Trees.{Keeps, Makes};
ghost use Rattle.candidate_runs.specs.Candidates.{function_of};
ghost use Rattle.mem_terms.specs.Inputs.{AreArgs, AreWords, words_at};
ghost use Rattle.ir_tree.specs.declared.tree.Parameter.{Parameter};
ghost use Rattle.verdicts.specs.Covers.{words_of, word_behind};
ghost use Rattle.pair_questions.specs.Tapes.{integers_at};

use bv_terms::{TermId, Terms};
use candidate_runs::Candidate;
use mem_terms::{ArgTerms, TapeTerms, number};
use std::alloc::Global;
use support::{NoMemory, Sequence};
use term_rules::{add, sub, xor, zext};

/// How many bits a word has.
const WORD_WIDTH: u32 = 64;

/// The numbers of the integer arguments, each as a word.
pub fn integer_words(
    alloc: Global,
    args: &[ArgTerms],
    terms: &mut Terms,
) -> Result<Sequence<TermId>, NoMemory>
    requires { (ps : List Parameter) × AreArgs terms.old ps args.now }
    ensures are { IfOk result (AreWords terms.new) }
    ensures stands { IfOk result (λ numbers. (v : ℕ → ℕ → ℕ) → words_at v terms.new numbers ≡ integers_at v terms.old args.now) }
    ensures kept { Keeps terms.old terms.new }
{
    let mut numbers = Vec::new(alloc);
    for arg in args {
        match arg {
            ArgTerms::Int { number, .. } => {
                let word = zext(terms, *number, WORD_WIDTH)?;
                numbers.push(word)?;
            }
            ArgTerms::Ptr { .. } => {}
        }
    }
    Ok(Sequence::from_vec(numbers))
}

/// The word at an index, the zero outside the list.
fn word_in(words: &[TermId], place: usize, zero: TermId) -> TermId
    ensures { (terms : List Term) → AreWords terms words.now → Makes terms zero 64 (λ _. 0) → Makes terms result 64 (λ v. slice_index (words_at v terms words.now) place) }
{
    if place < words.len() {
        words[place]
    } else {
        zero
    }
}

/// The word this many positions after an index.
fn word_after(words: &[TermId], by: usize, place: usize, zero: TermId) -> TermId
    ensures { (terms : List Term) → AreWords terms words.now → Makes terms zero 64 (λ _. 0) → Makes terms result 64 (λ v. word_behind (words_at v terms words.now) by place) }
{
    if place < words.len() && by < words.len() - place {
        words[place + by]
    } else {
        zero
    }
}

/// The word at an index of a candidate.
fn candidate_word(
    candidate: Candidate,
    numbers: &[TermId],
    words: &[TermId],
    place: usize,
    zero: TermId,
    terms: &mut Terms,
) -> Result<TermId, NoMemory>
    requires numbers { AreWords terms.old numbers.now }
    requires words { AreWords terms.old words.now }
    requires zero { Makes terms.old zero 64 (λ _. 0) }
    ensures made { IfOk result (λ id. Makes terms.new id 64 (λ v. function_of (words_at v terms.old numbers.now) (words_at v terms.old words.now) candidate place)) }
    ensures kept { Keeps terms.old terms.new }
{
    let here = word_in(words, place, zero);
    match candidate {
        Candidate::Later(by) => Ok(word_after(words, by, place, zero)),
        Candidate::Earlier(by) => {
            if place < by {
                Ok(zero)
            } else {
                Ok(word_in(words, place - by, zero))
            }
        }
        Candidate::Plus(of) => add(terms, here, word_in(numbers, of, zero)),
        Candidate::Minus(of) => sub(terms, here, word_in(numbers, of, zero)),
        Candidate::Xor(of) => xor(terms, here, word_in(numbers, of, zero)),
    }
}

/// The first `need` words of a candidate.
pub fn candidate_tape(
    alloc: Global,
    candidate: Candidate,
    numbers: &[TermId],
    words: &[TermId],
    need: usize,
    terms: &mut Terms,
) -> Result<TapeTerms, NoMemory>
    requires numbers { AreWords terms.old numbers.now }
    requires words { AreWords terms.old words.now }
    ensures are { IfOk result (λ tape. AreWords terms.new tape.words) }
    ensures stands { IfOk result (λ tape. (v : ℕ → ℕ → ℕ) → words_at v terms.new tape.words ≡ words_of need (function_of (words_at v terms.old numbers.now) (words_at v terms.old words.now) candidate)) }
    ensures kept { Keeps terms.old terms.new }
{
    let zero = number(terms, 0)?;
    let mut tape = Vec::new(alloc);
    for place in 0..need {
        let word = candidate_word(candidate, numbers, words, place, zero, terms)?;
        tape.push(word)?;
    }
    Ok(TapeTerms {
        words: Sequence::from_vec(tape),
    })
}

/// A tape of these words.
pub fn known(alloc: Global, words: &[u64], terms: &mut Terms) -> Result<TapeTerms, NoMemory>
    ensures are { IfOk result (λ tape. AreWords terms.new tape.words) }
    ensures stands { IfOk result (λ tape. (v : ℕ → ℕ → ℕ) → words_at v terms.new tape.words ≡ words.now) }
    ensures kept { Keeps terms.old terms.new }
{
    let mut tape = Vec::new(alloc);
    for word in words {
        let id = number(terms, *word)?;
        tape.push(id)?;
    }
    Ok(TapeTerms {
        words: Sequence::from_vec(tape),
    })
}
