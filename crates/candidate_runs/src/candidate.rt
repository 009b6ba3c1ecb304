//! The functions that are tried for every point, by name.

ghost use Rattle.std.specs.Prelude.{◌≡◌, ◌+◌, IfOk};
ghost use Rattle.candidate_runs.specs.Candidates.{AreTemplates, integer_count};

use ir_tree::{IrType, Parameter};
use std::alloc::Global;
use support::NoMemory;

/// A function of the target's tape: the word this many positions after an index or before it, or the
/// word at the index plus, minus or xor the number of an integer argument, by its place among them.
#[derive(Clone, Copy)]
pub enum Candidate {
    Later(usize),
    Earlier(usize),
    Plus(usize),
    Minus(usize),
    Xor(usize),
}

/// The target's tape as it is, and shifted by one or two positions either way.
pub const SHIFTS: [Candidate; 5] = [
    Candidate::Later(0),
    Candidate::Later(1),
    Candidate::Later(2),
    Candidate::Earlier(1),
    Candidate::Earlier(2),
];

/// How many of the parameters are integers.
fn integer_count(parameters: &[Parameter]) -> usize
    ensures { result ≡ integer_count parameters.now }
{
    let mut count = 0;
    for parameter in parameters {
        match parameter.of_type {
            IrType::Int(_) => count += 1,
            IrType::Ptr => {}
        }
    }
    count
}

/// The three templates of each integer parameter, in order.
pub fn templates_for(alloc: Global, parameters: &[Parameter]) -> Result<Vec<Candidate>, NoMemory>
    ensures { IfOk result (λ templates. AreTemplates (integer_count parameters.now) templates.items) }
{
    let mut templates = Vec::new(alloc);
    for place in 0..integer_count(parameters) {
        templates.push(Candidate::Plus(place))?;
        templates.push(Candidate::Minus(place))?;
        templates.push(Candidate::Xor(place))?;
    }
    Ok(templates)
}
