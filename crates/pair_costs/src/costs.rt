//! What an instruction, a phi and a block's end cost.

ghost use Rattle.std.specs.Prelude.{◌≡◌, ◌≤◌, ◌+◌, ◌*◌, length};
ghost use Rattle.ir_tree.specs.Limits.{cases_in, HasSmallTypes};
ghost use Rattle.verdicts.specs.Weight.{type_width, op_cost, inst_cost, phi_cost, end_cost};

use ir_tree::{Inst, IrType, Op, Phi, Terminator, indexed_size, store_size};
use tv_num::Width;

/// What an operation of this width costs.
pub fn op_cost(op: Op, width: Width) -> u64
    ensures { result ≡ op_cost op width.bits }
{
    let bits = width.bits() as u64;
    match op {
        Op::Mul(_) | Op::UnsignedDiv { .. } | Op::UnsignedRem => bits * bits,
        Op::SignedDiv { .. } | Op::SignedRem => bits * bits,
        Op::Add(_) | Op::Sub(_) | Op::ShiftLeft(_) => bits,
        Op::LogicalShiftRight { .. } | Op::ArithmeticShiftRight { .. } => bits,
        Op::And | Op::Or { .. } | Op::Xor => bits,
    }
}

/// How many bits a value of the type has, 64 for a pointer.
pub fn width_of(of_type: IrType) -> u64
    ensures { result ≡ type_width of_type }
{
    match of_type {
        IrType::Int(width) => width.bits() as u64,
        IrType::Ptr => 64,
    }
}

/// What an instruction costs with this many bytes of memory.
#[tactic(auto, using(crate::proofs::Sizes::small_access, crate::proofs::Sizes::small_object))]
pub fn cost(inst: &Inst, memory: u64) -> u64
    requires types { HasSmallTypes inst.now }
    requires memory { memory ≤ 272629888 }
    ensures value { result ≡ inst_cost memory inst.now }
    ensures most { result ≤ 2181039168 }
{
    match inst {
        Inst::Binary { op, width, .. } => op_cost(*op, *width),
        Inst::Icmp { width, .. } => width.bits() as u64,
        Inst::Cast { to, .. } => to.bits() as u64,
        Inst::Select { if_true, .. } => width_of(if_true.of_type),
        Inst::Freeze { of_type, .. } => width_of(*of_type),
        Inst::Alloca { of_type, .. } => 1 + indexed_size(of_type, 0),
        Inst::Load { of_type, .. } => 64 + store_size(*of_type) * memory,
        Inst::Store { value, .. } => 64 + store_size(value.of_type) * memory,
        Inst::GetElementPtr { indices, .. } => 64 * (indices.len() as u64 + 1),
    }
}

/// What the end of a block costs.
pub fn cost_of_end(terminator: &Terminator) -> u64
    requires { cases_in terminator.now ≤ 256 }
    ensures value { result ≡ end_cost terminator.now }
    ensures most { result ≤ 16385 }
{
    match terminator {
        Terminator::Switch { width, cases, .. } => switch_cost(*width, cases.len()),
        Terminator::Return(_) | Terminator::Branch { .. } => 1,
        Terminator::CondBranch { .. } | Terminator::Unreachable => 1,
    }
}

/// What a switch with this many cases costs.
#[tactic(auto, using(crate::proofs::Sizes::small_switch))]
fn switch_cost(width: Width, cases: usize) -> u64
    requires { cases ≤ 256 }
    ensures value { result ≡ 1 + cases * width.bits }
    ensures most { result ≤ 16385 }
{
    1 + cases as u64 * width.bits() as u64
}

/// What a phi costs.
#[tactic(auto, using(crate::proofs::Sizes::small_phi))]
pub fn cost_of_phi(phi: &Phi) -> u64
    requires { length phi.now.entries ≤ 16777216 }
    ensures { result ≡ phi_cost phi.now }
{
    width_of(phi.of_type) * phi.entries.len() as u64
}
