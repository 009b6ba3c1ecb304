//! How wide the words of a tape are.

ghost use Rattle.std.specs.Prelude.{◌≡◌, max};
ghost use Rattle.points.specs.Tapes.{word_widths, inst_widths, end_widths, block_widths, widest, widest_choice};

use crate::words::end_choice;
use ir_tree::{Block, Function, Inst, IrType, Terminator};
use tv_num::Width;

/// The greater of the width and of those of a choice's words.
#[tactic(auto, unfolding(points::specs::Tapes::widest))]
fn wider_choice(width: Width, of_type: IrType) -> Width
    ensures { result.bits ≡ max width.bits (widest (word_widths of_type)) }
{
    match of_type {
        IrType::Int(choice) if width.bits() < choice.bits() => choice,
        IrType::Int(_) => width,
        IrType::Ptr => Width::of(64),
    }
}

/// The greater of the width and of those of an instruction's words.
#[tactic(auto, unfolding(points::specs::Tapes::widest))]
fn wider(width: Width, inst: &Inst) -> Width
    ensures { result.bits ≡ max width.bits (widest (inst_widths inst.now)) }
{
    match inst {
        Inst::Freeze { of_type, .. } => wider_choice(width, *of_type),
        Inst::Binary { .. } | Inst::Icmp { .. } | Inst::Cast { .. } | Inst::Select { .. } => width,
        Inst::Alloca { .. } | Inst::Load { .. } => width,
        Inst::Store { .. } | Inst::GetElementPtr { .. } => width,
    }
}

/// The greater of the width and of those of the words that a block ends in.
#[tactic(auto, unfolding(points::specs::Tapes::widest))]
fn wider_end(width: Width, terminator: &Terminator) -> Width
    ensures { result.bits ≡ max width.bits (widest (end_widths terminator.now)) }
{
    match end_choice(terminator) {
        Some(of_type) => wider_choice(width, of_type),
        None => width,
    }
}

/// The greatest of the width and of those of a block's words.
fn widest_in_block(best: Width, block: &Block) -> Width
    ensures { result.bits ≡ max best.bits (widest (block_widths block.now)) }
{
    let mut best = best;
    for inst in block.insts.as_slice() {
        best = wider(best, inst);
    }
    wider_end(best, &block.terminator)
}

/// The width of a function's widest word of a choice, and 1 where there is none.
pub fn widest_of(f: &Function) -> Width
    ensures { result.bits ≡ widest_choice f.now }
{
    let mut best = Width::of(1);
    for block in f.blocks.as_slice() {
        best = widest_in_block(best, block);
    }
    best
}
