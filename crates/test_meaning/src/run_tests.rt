//! Runs of one function, whose one choice is added to its argument, by `interpret`.

use crate::expecting::expect;
use crate::functions::run;
use crate::words::{numbers_in, value_in};
use byte_block::Value;
use choice_interp::Ran;
use points::{Bounds, Input, Outcome};
use std::alloc::Global;
use std::test::Fail;
use support::{NoMemory, Sequence};

const SUM: &str =
    "define i8 @f(i8 %x) {\n  %a = freeze i8 poison\n  %r = add i8 %x, %a\n  ret i8 %r\n}\n";

const BOUNDS: Bounds = Bounds {
    turns: 0,
    blocks: 0,
    bytes: 0,
};

/// An argument, what is returned, whether the tape holds exactly the choice that was taken, and the
/// tape.
const ROWS: &str = "\
200 44 plain: 100
200 200 plain:
1 3 plain: 2 0
1 3 other: 2 7
1 3 other: 258
poison poison plain: 2
";

fn input_of(alloc: Global, arg: Value) -> Result<Input, NoMemory> {
    Ok(Input {
        args: Sequence::from_vec(vec![in alloc; arg; 1]?),
        blocks: Sequence::from_vec(Vec::new(alloc)),
    })
}

fn run_on(alloc: Global, arg: &str, tape: &[u64]) -> Result<Ran, Fail> {
    let arg = value_in(arg).ok_or("an argument")?;
    let input = input_of(alloc, arg)?;
    run(alloc, SUM, &BOUNDS, &input, tape)
}

fn is_ran(ran: &Ran, returned: &str, is_plain: bool) -> bool {
    match &ran.outcome {
        Outcome::Return(Some(value), _) => {
            value_in(returned) == Some(*value) && ran.read == 1 && ran.plain == is_plain
        }
        _ => false,
    }
}

/// The argument of a row, what is returned, the kind of the tape, and the tape.
fn row_in(line: &str) -> Option<(&str, &str, &str, &str)> {
    let (run_so, tape) = line.split_once(":")?;
    let (arg, ending) = run_so.split_once(" ")?;
    let (returned, kind) = ending.split_once(" ")?;
    Some((arg, returned, kind, tape))
}

fn holds(alloc: Global, line: &str) -> Result<bool, Fail> {
    let (arg, returned, kind, tape) = row_in(line).ok_or("a row")?;
    let tape = numbers_in(alloc, tape)?;
    let ran = run_on(alloc, arg, &tape)?;
    Ok(is_ran(&ran, returned, kind == "plain"))
}

#[test]
fn a_run_takes_its_choices_from_the_tape(rt: HostRuntime) -> Result<(), Fail> {
    for line in ROWS.lines() {
        expect(holds(rt.alloc(), line)?, line)?;
    }
    Ok(())
}
