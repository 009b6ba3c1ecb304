//! The words of a candidate.

ghost use Rattle.std.specs.Prelude.{◌≡◌, OnOk, length, slice_index};
ghost use Rattle.verdicts.specs.Covers.{integer, integers, number_or_0, words_of, word_behind};
ghost use Rattle.candidate_runs.specs.Candidates.{function_of};

use crate::candidate::Candidate;
use byte_block::Value;
use ir_tree::{IrType, Parameter};
use support::{NoMemory, Sequence};

/// An argument's number, 0 where it is poison.
fn number_or_0(arg: Value) -> u64
    ensures { result ≡ number_or_0 arg }
{
    match arg {
        Value::Num(number) => number,
        Value::Poison | Value::Ptr(_) => 0,
    }
}

/// Writes the numbers of the integer arguments into a list.
pub fn write_integers(
    numbers: &mut Vec<u64>,
    parameters: &[Parameter],
    args: &[Value],
) -> Result<(), NoMemory>
    ensures { OnOk result (numbers.new.items ≡ integers parameters.now args.now) }
{
    numbers.clear();
    for i in 0..parameters.len().min(args.len()) {
        match parameters[i].of_type {
            IrType::Int(_) => {
                numbers.push(number_or_0(args[i]))?;
            }
            IrType::Ptr => {}
        }
    }
    Ok(())
}

/// The word at an index, 0 outside the list.
fn word_or_0(words: &[u64], i: usize) -> u64
    ensures { result ≡ slice_index words.now i }
{
    words.get(i).copied().unwrap_or(0)
}

fn word_after(tape: &[u64], by: usize, i: usize) -> u64
    ensures { result ≡ word_behind tape.now by i }
{
    if i < tape.len() && by < tape.len() - i {
        tape[i + by]
    } else {
        0
    }
}

/// The candidate's word at an index.
fn word_at(candidate: Candidate, numbers: &[u64], tape: &[u64], i: usize) -> u64
    ensures { result ≡ function_of numbers.now tape.now candidate i }
{
    match candidate {
        Candidate::Later(by) => word_after(tape, by, i),
        Candidate::Earlier(by) => { if i < by { 0 } else { word_or_0(tape, i - by) } }
        Candidate::Plus(place) => word_or_0(tape, i).wrapping_add(word_or_0(numbers, place)),
        Candidate::Minus(place) => word_or_0(tape, i).wrapping_sub(word_or_0(numbers, place)),
        Candidate::Xor(place) => word_or_0(tape, i) ^ word_or_0(numbers, place),
    }
}

/// Writes the candidate's words into a list, as many as it has.
pub fn write_words(words: &mut Sequence<u64>, candidate: Candidate, numbers: &[u64], tape: &[u64])
    ensures value { words.new ≡ words_of (length words.old) (function_of numbers.now tape.now candidate) }
    ensures count { length words.new ≡ length words.old }
{
    for i in 0..words.len() {
        words.set(i, word_at(candidate, numbers, tape, i));
    }
}
