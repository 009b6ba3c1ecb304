//! Phis and terminators.

ghost use Rattle.std.specs.Prelude.{◌≡◌, ◌∷◌, ◌++◌, [], OnOk, codes};
ghost use Rattle.std.specs.List.{flat_map};
ghost use Rattle.ir_tree.specs.declared.tree.PhiEntry.{PhiEntry};
ghost use Rattle.ir_tree.specs.declared.tree.Terminator.TheVariants as of;
ghost use Rattle.token_text.specs.Pieces.{text_of};
ghost use Rattle.ir_printer.specs.Pieces.{comma, mark, space};
ghost use Rattle.ir_printer.specs.Instructions.{case_pieces, entries_pieces, entry_pieces, phi_pieces, returned_pieces, terminator_pieces};

use crate::instructions::push_result;
use crate::pieces::{
    push_comma, push_local, push_number, push_operand, push_spaced_type, push_target, push_token,
    push_typed, push_width, push_word,
};
use ir_tree::{Case, Names, Operand, Phi, PhiEntry, Terminator, TypedOperand};
use support::NoMemory;
use tv_num::Width;

// ---- phis

fn push_entry(out: &mut Vec<u8>, names: &Names, entry: PhiEntry) -> Result<(), NoMemory>
    ensures { OnOk result (out.new.items ≡ out.old.items ++ text_of (entry_pieces names.now entry)) }
{
    push_token(out, b" ", b"[")?;
    push_operand(out, names, entry.operand)?;
    push_comma(out)?;
    push_local(out, names, entry.from)?;
    push_token(out, b" ", b"]")
}

/// Entries, each after a comma.
#[tactic(auto, using(crate::proofs::Texts::texts))]
fn push_more_entries(out: &mut Vec<u8>, names: &Names, entries: &[PhiEntry]) -> Result<(), NoMemory>
    ensures { OnOk result (out.new.items ≡ out.old.items ++ text_of (flat_map (λ (other : PhiEntry). comma ∷ entry_pieces names.now other) entries.now)) }
{
    for entry in entries {
        push_comma(out)?;
        push_entry(out, names, *entry)?;
    }
    Ok(())
}

fn push_entries(out: &mut Vec<u8>, names: &Names, entries: &[PhiEntry]) -> Result<(), NoMemory>
    ensures { OnOk result (out.new.items ≡ out.old.items ++ text_of (entries_pieces names.now entries.now)) }
{
    match entries {
        [] => Ok(()),
        [first, others @ ..] => {
            push_entry(out, names, *first)?;
            push_more_entries(out, names, others)
        }
    }
}

/// A phi on a line of its own.
pub fn push_phi(out: &mut Vec<u8>, names: &Names, phi: &Phi) -> Result<(), NoMemory>
    ensures { OnOk result (out.new.items ≡ out.old.items ++ text_of (phi_pieces names.now phi.now)) }
{
    push_result(out, names, phi.into)?;
    push_word(out, b"phi")?;
    push_spaced_type(out, phi.of_type)?;
    push_entries(out, names, phi.entries.as_slice())
}

// ---- terminators

fn push_case(out: &mut Vec<u8>, names: &Names, case: Case) -> Result<(), NoMemory>
    ensures { OnOk result (out.new.items ≡ out.old.items ++ text_of (case_pieces names.now case)) }
{
    push_width(out, case.width)?;
    push_number(out, case.value)?;
    push_comma(out)?;
    push_target(out, names, case.to)
}

#[tactic(auto, using(crate::proofs::Texts::texts))]
fn push_cases(out: &mut Vec<u8>, names: &Names, cases: &[Case]) -> Result<(), NoMemory>
    ensures { OnOk result (out.new.items ≡ out.old.items ++ text_of (flat_map (case_pieces names.now) cases.now)) }
{
    for case in cases {
        push_case(out, names, *case)?;
    }
    Ok(())
}

fn push_returned(
    out: &mut Vec<u8>,
    names: &Names,
    returned: &Option<TypedOperand>,
) -> Result<(), NoMemory>
    ensures { OnOk result (out.new.items ≡ out.old.items ++ text_of (returned_pieces names.now returned.now)) }
{
    match returned {
        None => push_word(out, b"void"),
        Some(typed) => push_typed(out, names, *typed),
    }
}

fn push_switch(
    out: &mut Vec<u8>,
    names: &Names,
    width: Width,
    operand: Operand,
    default: usize,
    cases: &[Case],
) -> Result<(), NoMemory>
    ensures { OnOk result (out.new.items ≡ out.old.items ++ text_of (terminator_pieces names.now (of.Switch width operand default cases.now))) }
{
    push_token(out, b"\n  ", b"switch")?;
    push_width(out, width)?;
    push_operand(out, names, operand)?;
    push_comma(out)?;
    push_target(out, names, default)?;
    push_case_list(out, names, cases)?;
    Ok(())
}

/// The cases of a `switch` between their marks.
fn push_case_list(out: &mut Vec<u8>, names: &Names, cases: &[Case]) -> Result<(), NoMemory>
    ensures { OnOk result (out.new.items ≡ out.old.items
        ++ text_of (mark space (codes "[") ∷ (flat_map (case_pieces names.now) cases.now ++ mark space (codes "]") ∷ []))) }
{
    push_token(out, b" ", b"[")?;
    push_cases(out, names, cases)?;
    push_token(out, b" ", b"]")?;
    Ok(())
}

fn push_cond_branch(
    out: &mut Vec<u8>,
    names: &Names,
    condition: Operand,
    if_true: usize,
    if_false: usize,
) -> Result<(), NoMemory>
    ensures { OnOk result (out.new.items ≡ out.old.items ++ text_of (terminator_pieces names.now (of.CondBranch condition if_true if_false))) }
{
    push_token(out, b"\n  ", b"br")?;
    push_word(out, b"i1")?;
    push_operand(out, names, condition)?;
    push_comma(out)?;
    push_target(out, names, if_true)?;
    push_comma(out)?;
    push_target(out, names, if_false)
}

/// A terminator on a line of its own.
pub fn push_terminator(
    out: &mut Vec<u8>,
    names: &Names,
    terminator: &Terminator,
) -> Result<(), NoMemory>
    ensures { OnOk result (out.new.items ≡ out.old.items ++ text_of (terminator_pieces names.now terminator.now)) }
{
    match terminator {
        Terminator::Return(returned) => {
            push_token(out, b"\n  ", b"ret")?;
            push_returned(out, names, returned)
        }
        Terminator::Branch { to } => {
            push_token(out, b"\n  ", b"br")?;
            push_target(out, names, *to)
        }
        Terminator::CondBranch {
            condition,
            if_true,
            if_false,
        } => push_cond_branch(out, names, *condition, *if_true, *if_false),
        Terminator::Switch {
            width,
            operand,
            default,
            cases,
        } => push_switch(out, names, *width, *operand, *default, cases.as_slice()),
        Terminator::Unreachable => push_token(out, b"\n  ", b"unreachable"),
    }
}
