// Reading the tokens of one define.
ghost use Rattle.std.specs.Prelude.{◌≡◌};
ghost use Rattle.ir_tree.specs.Sites.{AreNumbered, no_place};
ghost use Rattle.ir_reader.specs.Functions as spec;
ghost use Rattle.ir_reader.specs.Functions.{Answers};
ghost use Rattle.ir_reader.specs.Answer.{Writes, Tests, fault_at};

use assigned_names::check_assigned_with;
use ir_check::{check_edges_with, check_names_with, check_types_with};
use ir_grammar::{Cursor, WrittenFunction};
use ir_lexer::Token;
use ir_numbering::numbered;
use ir_tree::{CheckFault, Function, Reason, Refused, first_definitions, sites_of};
use ir_words::reason_at;
use std::alloc::Global;
use support::Sequence;
use text_places::Place;
use token_forms::ReadFault;
use undef_uses::check_undef;

fn refused_at(reason: Reason, place: Place) -> Refused
    ensures { result ≡ spec.refused_at reason place }
{
    Refused {
        reason,
        line: place.line,
        column: place.column,
    }
}

// The position of the last of these tokens.
fn last_place(tokens: &[Token]) -> Place
    ensures { result ≡ spec.last_place no_place tokens.now }
{
    let mut place = Place { line: 0, column: 0 };
    for token in tokens {
        place = token.place();
    }
    place
}

// The position of the first token that is left; where none is left, of the last of all tokens.
fn stop_place(tokens: &[Token], rest: &[Token]) -> Place
    ensures { result ≡ spec.stop_place tokens.now rest.now }
{
    match rest {
        [] => last_place(tokens),
        [first, ..] => first.place(),
    }
}

// The fault of a stop before these tokens.
fn fault_at(fault: ReadFault, tokens: &[Token], rest: &[Token]) -> CheckFault
    ensures { result ≡ fault_at fault tokens.now rest.now }
{
    let reason = match fault {
        ReadFault::Unfit(reason) => reason,
        ReadFault::PastLimit => Reason::Limit,
        ReadFault::NoMemory => return CheckFault::NoMemory,
    };
    CheckFault::Refused(refused_at(reason, stop_place(tokens, rest)))
}

// The function as the tokens write it.
fn written(alloc: Global, tokens: &[Token]) -> Result<WrittenFunction, CheckFault>
    ensures { Writes tokens.now result }
{
    let mut cursor = Cursor::new(alloc, tokens);
    match cursor.define() {
        Ok(function) => match cursor.left() {
            [] => Ok(function),
            [first, ..] => Err(fault_at(ReadFault::Unfit(reason_at(first)), tokens, cursor.left())),
        },
        Err(fault) => Err(fault_at(fault, tokens, cursor.left())),
    }
}

// Whether a function is right in its names, types, edges, assignments and uses of undef.
fn test(alloc: Global, f: &Function) -> Result<(), CheckFault>
    requires { AreNumbered f.now }
    ensures { Tests f.now result }
{
    let list = sites_of(alloc, f)?;
    let firsts = first_definitions(alloc, list.all.as_slice(), f.names.len())?;
    check_names_with(f, &list, firsts.as_slice())?;
    check_types_with(f, &list, firsts.as_slice())?;
    check_edges_with(alloc, f, &list)?;
    check_assigned_with(alloc, f, &list, firsts.as_slice())?;
    check_undef(alloc, f)?;
    Ok(())
}

// The positions of a function's parts take as much memory as the parts, and only a refusal needs them.
fn without_places(alloc: Global, mut function: Function) -> Function
    ensures { result ≡ spec.without_places function }
{
    function.places = Sequence::from_vec(Vec::new(alloc));
    function
}

/// The function that the tokens of a define are, its word first, or why it is refused and where
/// (LLVM Language Reference, "Functions", "Well-Formedness"). The function is without the positions
/// of its parts: its `places` are empty.
pub fn function(alloc: Global, tokens: &[Token]) -> Result<Function, CheckFault>
    ensures { Answers tokens.now result }
{
    let written = written(alloc, tokens)?;
    let function = numbered(alloc, written)?;
    test(alloc, &function)?;
    Ok(without_places(alloc, function))
}
