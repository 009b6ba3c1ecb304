//! Whether a function has no pointers and uses no memory.

ghost use Rattle.std.specs.Prelude.{◌↔◌, IsTrue, All};
ghost use Rattle.ir_tree.specs.declared.tree.Parameter.{Parameter as Declared};
ghost use Rattle.ir_tree.specs.Pointers.{IsInteger, AreIntegers, IsIntegerOrVoid, IsOnIntegers, IsPhiOfIntegers, ReturnsInteger, EndsOnIntegers, IsBlockOnIntegers, HasNoPointers};
ghost use Rattle.slow_judge.specs.Search.{HaveNoPointers};

use ir_tree::{Block, Function, Inst, IrType, Parameter, Phi, Terminator, TypedOperand};
use verdicts::RunPair;

fn is_integer(of_type: IrType) -> bool
    ensures { IsTrue result ↔ IsInteger of_type }
{
    match of_type {
        IrType::Int(_) => true,
        IrType::Ptr => false,
    }
}

fn is_integer_parameter(parameter: &Parameter) -> bool
    ensures { IsTrue result ↔ IsInteger parameter.now.of_type }
{
    is_integer(parameter.of_type)
}

fn is_each_integer(parameters: &[Parameter]) -> bool
    ensures { IsTrue result ↔ All (λ (p : Declared). IsInteger p.of_type) parameters.now }
{
    parameters
        .iter()
        .all(|parameter| is_integer_parameter(parameter))
}

fn are_integers(parameters: &[Parameter]) -> bool
    ensures { IsTrue result ↔ AreIntegers parameters.now }
{
    is_each_integer(parameters)
}

fn is_integer_or_void(returns: Option<IrType>) -> bool
    ensures { IsTrue result ↔ IsIntegerOrVoid returns }
{
    match returns {
        Some(of_type) => is_integer(of_type),
        None => true,
    }
}

fn is_on_integers(inst: &Inst) -> bool
    ensures { IsTrue result ↔ IsOnIntegers inst.now }
{
    match inst {
        Inst::Binary { .. } | Inst::Icmp { .. } | Inst::Cast { .. } => true,
        Inst::Select {
            if_true,
            if_false,
            ..
        } => is_integer(if_true.of_type) && is_integer(if_false.of_type),
        Inst::Freeze { of_type, .. } => is_integer(*of_type),
        Inst::Alloca { .. } | Inst::Load { .. } => false,
        Inst::Store { .. } | Inst::GetElementPtr { .. } => false,
    }
}

fn is_phi_of_integers(phi: &Phi) -> bool
    ensures { IsTrue result ↔ IsPhiOfIntegers phi.now }
{
    is_integer(phi.of_type)
}

fn returns_integer(returned: Option<TypedOperand>) -> bool
    ensures { IsTrue result ↔ ReturnsInteger returned }
{
    match returned {
        Some(returned) => is_integer(returned.of_type),
        None => true,
    }
}

fn ends_on_integers(terminator: &Terminator) -> bool
    ensures { IsTrue result ↔ EndsOnIntegers terminator.now }
{
    match terminator {
        Terminator::Return(returned) => returns_integer(*returned),
        Terminator::Branch { .. } | Terminator::CondBranch { .. } => true,
        Terminator::Switch { .. } | Terminator::Unreachable => true,
    }
}

fn is_block_on_integers(block: &Block) -> bool
    ensures { IsTrue result ↔ IsBlockOnIntegers block.now }
{
    block
        .phis
        .as_slice()
        .iter()
        .all(|phi| is_phi_of_integers(phi))
        && block
            .insts
            .as_slice()
            .iter()
            .all(|inst| is_on_integers(inst))
        && ends_on_integers(&block.terminator)
}

fn has_no_pointers(f: &Function) -> bool
    ensures { IsTrue result ↔ HasNoPointers f.now }
{
    are_integers(f.parameters.as_slice())
        && is_integer_or_void(f.returns)
        && f.blocks
            .as_slice()
            .iter()
            .all(|block| is_block_on_integers(block))
}

/// Whether neither function of the pair has pointers or uses memory.
pub fn have_no_pointers(pair: &RunPair) -> bool
    ensures { IsTrue result ↔ HaveNoPointers pair.now }
{
    has_no_pointers(pair.source()) && has_no_pointers(pair.target())
}
