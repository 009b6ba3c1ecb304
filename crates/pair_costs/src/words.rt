//! How many words of its tape a run reads.

ghost use Rattle.std.specs.Prelude.{◌≡◌, ◌≤◌, ◌+◌, ◌*◌, sum_by, length, IfOk};
ghost use Rattle.points.specs.Run.{undef_type};
ghost use Rattle.points.specs.Runnable.{IsRunnable};
ghost use Rattle.points.specs.Tapes.{word_widths, inst_widths, widths_of, returned_widths, end_widths, block_widths, choice_widths, need_of};

use ir_tree::{Block, Function, Inst, IrType, Operand, Terminator, TypedOperand};
use support::NoMemory;

/// How many words a choice of a type is.
fn choice_words(of_type: IrType) -> usize
    ensures value { result ≡ length (word_widths of_type) }
    ensures most { result ≤ 2 }
{
    match of_type {
        IrType::Int(_) => 1,
        IrType::Ptr => 2,
    }
}

/// How many words the choices of an instruction are.
fn words(inst: &Inst) -> usize
    ensures { result ≡ length (inst_widths inst.now) }
{
    match inst {
        Inst::Freeze { of_type, .. } => choice_words(*of_type),
        Inst::Binary { .. } | Inst::Icmp { .. } | Inst::Cast { .. } | Inst::Select { .. } => 0,
        Inst::Alloca { .. } | Inst::Load { .. } => 0,
        Inst::Store { .. } | Inst::GetElementPtr { .. } => 0,
    }
}

/// How many words the choices of these instructions are.
fn words_in(insts: &[Inst]) -> usize
    requires { sum_by (λ inst. length (inst_widths inst)) insts.now ≤ 4259840 }
    ensures { result ≡ sum_by (λ inst. length (inst_widths inst)) insts.now }
{
    let mut total = 0;
    for inst in insts {
        total += words(inst);
    }
    total
}

/// The type of the choice that an operand of a `ret` is, if it is one.
fn operand_choice(returned: TypedOperand) -> Option<IrType>
    ensures { result ≡ undef_type returned.of_type returned.operand }
{
    match returned.operand {
        Operand::Undef => Some(returned.of_type),
        Operand::Local(_) | Operand::Number(_) | Operand::Null | Operand::Poison => None,
    }
}

/// The type of the choice that a `ret` makes, if it makes one.
fn returned_choice(returned: Option<TypedOperand>) -> Option<IrType>
    ensures { widths_of result ≡ returned_widths returned }
{
    match returned {
        Some(returned) => operand_choice(returned),
        None => None,
    }
}

/// The type of the choice that a block ends in, if it ends in one.
pub fn end_choice(terminator: &Terminator) -> Option<IrType>
    ensures { widths_of result ≡ end_widths terminator.now }
{
    match terminator {
        Terminator::Return(returned) => returned_choice(*returned),
        Terminator::Branch { .. } | Terminator::CondBranch { .. } => None,
        Terminator::Switch { .. } | Terminator::Unreachable => None,
    }
}

/// How many words the choice is that a block ends in.
fn end_words(terminator: &Terminator) -> usize
    ensures value { result ≡ length (end_widths terminator.now) }
    ensures most { result ≤ 2 }
{
    match end_choice(terminator) {
        Some(of_type) => choice_words(of_type),
        None => 0,
    }
}

/// How many words the choices of a block are.
fn words_of_block(block: &Block) -> usize
    requires { length (block_widths block.now) ≤ 4259840 }
    ensures { result ≡ length (block_widths block.now) }
{
    words_in(block.insts.as_slice()) + end_words(&block.terminator)
}

/// How many words the choices of a function are.
fn words_of(f: &Function) -> usize
    requires { IsRunnable f.now }
    ensures { result ≡ length (choice_widths f.now) }
{
    let mut total = 0;
    for block in f.blocks.as_slice() {
        total += words_of_block(block);
    }
    total
}

/// How many words of its tape a run with this number of backward jumps reads at most: for each
/// count of backward jumps, those of each choice of the function. The only error is out of memory,
/// and nothing is allocated.
pub fn need(f: &Function, turns: u64) -> Result<u64, NoMemory>
    requires runnable { IsRunnable f.now }
    requires turns { turns ≤ 64 }
    ensures value { IfOk result (λ need. need ≡ need_of turns f.now) }
    ensures most { IfOk result (λ need. need ≤ 276889600) }
{
    Ok((turns + 1) * words_of(f) as u64)
}
