//! Which outcomes allow which is read off Alive2 (PLDI 2021), and which numbers are codes off the
//! order of points; neither is taken from the definitions.

ghost use Rattle.std.specs.Prelude.{◌≡◌, [], IfOk};
ghost use Rattle.bv_terms.specs.Trees.{Keeps};
ghost use Rattle.mem_terms.specs.Outcomes.{IsOutcome};

use crate::expecting::expect;
use crate::term_values::value_of;
use bv_terms::{TermId, Terms};
use byte_block::Value;
use ir_tree::{IrType, Parameter};
use mem_terms::{ArgTerms, InputTerms, OutcomeTerms, TapeTerms, number, truth};
use points::{Layout, Outcome, Shape, refines};
use refine_terms::{covered, well_point};
use std::alloc::Global;
use std::test::Fail;
use support::{NoMemory, Sequence};
use tv_num::Width;

fn nothing<T>(alloc: Global) -> Sequence<T>
    ensures { result ≡ [] }
{
    Sequence::from_vec(Vec::new(alloc))
}

/// Undefined behaviour, a run past the bounds, poison, 3 and 4, by their indices.
fn end(alloc: Global, place: usize) -> Outcome {
    match place {
        0 => Outcome::Ub,
        1 => Outcome::Beyond,
        2 => Outcome::Return(Some(Value::Poison), nothing(alloc)),
        3 => Outcome::Return(Some(Value::Num(3)), nothing(alloc)),
        _ => Outcome::Return(Some(Value::Num(4)), nothing(alloc)),
    }
}

/// A row for each end of the source, and in it 1 for each end of the target that it allows.
const ALLOWS: [&str; 5] = ["11111", "11111", "01111", "01010", "01001"];

#[test]
fn ends_allow_what_alive2_says(rt: HostRuntime) -> Result<(), Fail> {
    for (source, row) in ALLOWS.iter().enumerate() {
        for (target, want) in row.as_bytes().iter().enumerate() {
            let found = refines(&end(rt.alloc(), source), &end(rt.alloc(), target));
            assert!(rt; found == (*want == b'1'));
        }
    }
    Ok(())
}

/// The outcome of a run that returns nothing and reads nothing, on a tape that is plain or isn't.
fn outcome(alloc: Global, terms: &mut Terms, is_plain: bool) -> Result<OutcomeTerms, NoMemory>
    ensures made { IfOk result (IsOutcome terms.new) }
    ensures kept { Keeps terms.old terms.new }
{
    let never = truth(terms, false)?;
    let read = number(terms, 0)?;
    let plain = truth(terms, is_plain)?;
    Ok(OutcomeTerms {
        ub: never,
        beyond: never,
        value: None,
        blocks: nothing(alloc),
        read,
        plain,
    })
}

/// Whether a term without a variable is true.
fn is_true(alloc: Global, terms: &Terms, id: TermId) -> Result<bool, NoMemory> {
    Ok(value_of(alloc, terms, id)? == Some(1))
}

/// Whether an outcome allows itself.
fn is_covered_by_itself(alloc: Global, terms: &mut Terms) -> Result<bool, NoMemory> {
    let end = outcome(alloc, terms, true)?;
    let id = covered(&end, &end, terms)?;
    is_true(alloc, terms, id)
}

#[test]
fn an_outcome_is_covered_by_itself(rt: HostRuntime) -> Result<(), Fail> {
    let mut terms = Terms::new(rt.alloc());
    expect(
        is_covered_by_itself(rt.alloc(), &mut terms)?,
        "an outcome is covered by itself",
    )
}

/// Whether a flag and a number of 8 bits are all numbers of a point, on a tape that is plain or
/// isn't.
fn is_point(
    alloc: Global,
    terms: &mut Terms,
    flag: bool,
    byte: u8,
    is_plain: bool,
) -> Result<bool, NoMemory> {
    let outcome = outcome(alloc, terms, is_plain)?;
    let flag = truth(terms, flag)?;
    let number = terms.constant(u128::from(byte), 8)?;
    let parameter = Parameter {
        of_type: IrType::Int(Width::of(8)),
        no_undef: false,
        non_null: false,
        name: 0,
    };
    let shape = Shape {
        parameters: Sequence::from_vec(Vec::from_array(alloc, [parameter])?),
        layout: Layout {
            blocks: 0,
            bytes: 0,
        },
        words: 0,
        word_width: Width::of(1),
    };
    let input = InputTerms {
        args: Sequence::from_vec(Vec::from_array(alloc, [ArgTerms::Int { flag, number }])?),
        sizes: nothing(alloc),
        places: nothing(alloc),
    };
    let tape = TapeTerms {
        words: nothing(alloc),
    };
    let id = well_point(&shape, &input, &tape, &outcome, terms)?;
    is_true(alloc, terms, id)
}

/// Poison has the flag 1 and the number 0, and a number the flag 0.
#[test]
fn poison_has_no_number(rt: HostRuntime) -> Result<(), Fail> {
    let rows = [
        (false, 0, true, true),
        (false, 255, true, true),
        (true, 0, true, true),
        (true, 1, true, false),
        (false, 255, false, false),
        (true, 0, false, false),
    ];
    let mut terms = Terms::new(rt.alloc());
    for &(flag, byte, is_plain, want) in &rows {
        let found = is_point(rt.alloc(), &mut terms, flag, byte, is_plain)?;
        assert!(rt; found == want);
    }
    Ok(())
}
