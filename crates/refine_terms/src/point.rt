//! Whether numbers are those of a point.

ghost use Rattle.std.specs.Prelude.{◌≡◌, IfOk, true};
ghost use Rattle.points.specs.Codes.{IsCode};
ghost use Rattle.bv_terms.specs.Trees.{Keeps, bit_at};
ghost use Rattle.mem_terms.specs.Outcomes.{IsOutcome};
ghost use Rattle.refine_terms.specs.Deciding.{Decides};
ghost use Rattle.refine_terms.specs.Numbers.{IsInputOf, IsTapeOf, numbers_at};

use crate::args::args_code;
use crate::comparing::all_at_most;
use crate::places::blocks_code;
use bv_terms::{TermId, Terms};
use mem_terms::{InputTerms, OutcomeTerms, TapeTerms, both};
use points::Shape;
use support::NoMemory;

/// True where the numbers of the terms are a code of the shape.
fn code(
    shape: &Shape,
    input: &InputTerms,
    tape: &TapeTerms,
    terms: &mut Terms,
) -> Result<TermId, NoMemory>
    requires input { IsInputOf shape.now terms.old input.now }
    requires tape { IsTapeOf shape.now terms.old tape.now }
    ensures made { IfOk result (λ id. Decides terms.new id (λ v. IsCode shape.now (numbers_at v terms.old input.now tape.now))) }
    ensures kept { Keeps terms.old terms.new }
{
    let args = args_code(
        input.args.as_slice(),
        shape.parameters.as_slice(),
        &shape.layout,
        terms,
    )?;
    let sizes = all_at_most(input.sizes.as_slice(), shape.layout.bytes, terms)?;
    let places = blocks_code(
        input.places.as_slice(),
        input.sizes.as_slice(),
        &shape.layout,
        terms,
    )?;
    let words = all_at_most(tape.words.as_slice(), shape.word_width.mask(), terms)?;
    let behind = both(terms, places, words)?;
    let rest = both(terms, sizes, behind)?;
    let id = both(terms, args, rest)?;
    Ok(id)
}

/// True where the numbers of the terms are those of a point: a code of the shape, with a tape that
/// is plain for the run that ends in this outcome.
pub fn well_point(
    shape: &Shape,
    input: &InputTerms,
    tape: &TapeTerms,
    outcome: &OutcomeTerms,
    terms: &mut Terms,
) -> Result<TermId, NoMemory>
    requires input { IsInputOf shape.now terms.old input.now }
    requires tape { IsTapeOf shape.now terms.old tape.now }
    requires outcome { IsOutcome terms.old outcome.now }
    ensures made { IfOk result (λ id. Decides terms.new id (λ v. IsCode shape.now (numbers_at v terms.old input.now tape.now) × (bit_at v terms.old outcome.now.plain ≡ true))) }
    ensures kept { Keeps terms.old terms.new }
{
    let is_code = code(shape, input, tape, terms)?;
    let id = both(terms, is_code, outcome.plain)?;
    Ok(id)
}
