//! Functions whose registers carry undef, as they are run. Names go by their numbers, in the order of
//! the text, the parameters and the block's label first; those behind them are the registers that
//! trees are computed in.
use crate::expecting::expect;
use crate::made_functions::function_of;
use ir_tree::{Function, Inst, Operand, Terminator, TypedOperand, are_numbered, sites_of};
use lowering::lower;
use std::alloc::Global;
use std::fmt::Write;
use std::test::Fail;
use undef_uses::check_undef;

fn push_operand(text: &mut String, operand: Operand) -> Result<(), Fail> {
    match operand {
        Operand::Local(name) => write!(text, " %{}", name)?,
        Operand::Number(number) => write!(text, " {}", number)?,
        Operand::Null => write!(text, " null")?,
        Operand::Poison => write!(text, " poison")?,
        Operand::Undef => write!(text, " undef")?,
    }
    Ok(())
}

/// The result of an instruction, its kind, and its operands.
fn push_inst(text: &mut String, inst: &Inst) -> Result<(), Fail> {
    match inst {
        Inst::Binary {
            into,
            left,
            right,
            ..
        } => {
            write!(text, "%{} = binary", into)?;
            push_operand(text, *left)?;
            push_operand(text, *right)
        }
        Inst::Icmp {
            into,
            left,
            right,
            ..
        } => {
            write!(text, "%{} = icmp", into)?;
            push_operand(text, *left)?;
            push_operand(text, *right)
        }
        Inst::Cast { into, operand, .. } => {
            write!(text, "%{} = cast", into)?;
            push_operand(text, *operand)
        }
        Inst::Select {
            into,
            condition,
            if_true,
            if_false,
        } => {
            write!(text, "%{} = select", into)?;
            push_operand(text, *condition)?;
            push_operand(text, if_true.operand)?;
            push_operand(text, if_false.operand)
        }
        Inst::Freeze { into, operand, .. } => {
            write!(text, "%{} = freeze", into)?;
            push_operand(text, *operand)
        }
        Inst::Alloca { .. } | Inst::Load { .. } => Err(Fail::from("memory")),
        Inst::Store { .. } | Inst::GetElementPtr { .. } => Err(Fail::from("memory")),
    }
}

fn returned_in(end: &Terminator) -> Option<Operand> {
    match end {
        Terminator::Return(returned) => returned.map(|typed: TypedOperand| typed.operand),
        _ => None,
    }
}

fn push_end(text: &mut String, end: &Terminator) -> Result<(), Fail> {
    let operand = returned_in(end).ok_or("another end")?;
    write!(text, "ret")?;
    push_operand(text, operand)
}

/// The text of a function of one block.
fn text_of(alloc: Global, f: &Function) -> Result<String, Fail> {
    let mut text = String::new(alloc);
    for block in f.blocks.as_slice() {
        for inst in block.insts.as_slice() {
            push_inst(&mut text, inst)?;
            write!(text, "; ")?;
        }
        push_end(&mut text, &block.terminator)?;
    }
    Ok(text)
}

/// The function that is run, `None` where it is this one.
#[tactic(auto, using(lowering::proofs::Makers::few_leaves))]
fn lowered_of(alloc: Global, f: &Function) -> Result<Option<Function>, Fail> {
    let list = sites_of(alloc, f)?;
    if !are_numbered(list.all.as_slice(), f.names.len()) {
        return Err(Fail::from("a name without a number"));
    }
    match check_undef(alloc, f) {
        Ok(()) => Ok(lower(alloc, f)?),
        Err(_) => Err(Fail::from("a use of undef that is refused")),
    }
}

/// The function that is run, `None` where it is the one that was read.
fn lowered(alloc: Global, text: &str) -> Result<Option<Function>, Fail> {
    let f = function_of(alloc, text)?;
    lowered_of(alloc, &f)
}

const ROWS: &str = "\
%3 = freeze undef; %3 = binary %3 0; %4 = freeze undef; %4 = binary %4 0; %3 = binary %3 %4; ret %3
define i8 @f() { l: %a = add i8 undef, 0 %b = sub i8 %a, %a ret i8 %b }

%5 = freeze undef; %5 = binary %0 %5; %6 = freeze undef; %6 = binary %0 %6; %5 = binary %5 %6; %4 = freeze %5; ret %4
define i8 @f(i8 %x) { l: %a = and i8 %x, undef %b = xor i8 %a, %a %c = freeze i8 %b ret i8 %c }

%5 = freeze undef; %5 = icmp %5 %0; %6 = freeze undef; %5 = select %5 %0 %6; %5 = cast %5; ret %5
define i4 @f(i8 %x) { l: %c = icmp eq i8 undef, %x %s = select i1 %c, i8 %x, i8 undef %t = trunc i8 %s to i4 ret i4 %t }

%2 = binary %0 1; %5 = freeze undef; %5 = binary %5 %2; %4 = freeze %5; ret %4
define i8 @f(i8 %x) { l: %b = add i8 %x, 1 %a = add i8 undef, %b %c = freeze i8 %a ret i8 %c }";

fn is_lowered(alloc: Global, row: &str) -> Result<(), Fail> {
    let (wanted, text) = row.split_once("\n").ok_or("a text")?;
    let made = lowered(alloc, text)?.ok_or("a lowered function")?;
    let found = text_of(alloc, &made)?;
    if found.as_str() == wanted {
        Ok(())
    } else {
        Err(Fail::new(format_args!("{text}: {found}")))
    }
}

#[test]
fn each_use_has_choices_of_its_own(rt: HostRuntime) -> Result<(), Fail> {
    for row in ROWS.split("\n\n") {
        is_lowered(rt.alloc(), row)?;
    }
    Ok(())
}

const PLAIN: &str = "define i8 @f(i8 %x) { l: %a = freeze i8 undef %b = add i8 %a, %x ret i8 %b }";

#[test]
fn a_function_without_trees_is_its_own(rt: HostRuntime) -> Result<(), Fail> {
    expect(lowered(rt.alloc(), PLAIN)?.is_none(), PLAIN)
}
