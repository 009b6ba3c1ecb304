//! The uses of names that carry undef, each with whether it may be one.

ghost use Rattle.std.specs.Prelude.{◌≡◌, ◌<◌, ◌↔◌, IsTrue, length, slice_get, Some};
ghost use Rattle.ir_tree.specs.declared.tree.Block.{Block};
ghost use Rattle.ir_tree.specs.declared.tree.Inst.{Inst};
ghost use Rattle.ir_tree.specs.Carrying.{RefusesUndef, UsesUndef, end_refuses_undef, is_division, is_pointer, leaf_count, refuses_undef};
ghost use Rattle.ir_tree.specs.WellFormed.{IsFirstFailure};
ghost use Rattle.undef_uses.specs.Counts.{AreCounts, IsListed, count_at};

use ir_tree::{Function, Inst, IrType, Op, Part, Site, SiteList, Terminator};

/// The most leaves that a name may have.
const MOST_LEAVES: u8 = 64;

/// The first use of a name that carries undef where none may, or the first name that has more than 64
/// leaves, by the counts of all names.
pub fn first_undef_use(f: &Function, list: &SiteList, counts: &[u8]) -> Option<usize>
    requires listed { IsListed f.now list.now }
    requires counts { AreCounts f.now counts.now }
    ensures { IsFirstFailure (UsesUndef f.now) result }
{
    for n in 0..list.all.len() {
        if uses_undef(f, list, counts, n) {
            return Some(n);
        }
    }
    None
}

fn uses_undef(f: &Function, list: &SiteList, counts: &[u8], n: usize) -> bool
    requires listed { IsListed f.now list.now }
    requires counts { AreCounts f.now counts.now }
    requires within { n < length list.now.all }
    ensures { IsTrue result ↔ UsesUndef f.now n }
{
    match *list.all.get(n) {
        Site::Uses { of_type: _, name } => {
            leaves_of(counts, name) > 0 && refuses_undef(f, *list.parts.get(n))
        }
        Site::Defines {
            of_type: Some(_),
            name,
        } => leaves_of(counts, name) > MOST_LEAVES,
        Site::Defines { of_type: None, .. } | Site::Enters { .. } | Site::Written { .. } => false,
    }
}

fn leaves_of(counts: &[u8], name: usize) -> u8
    ensures { result ≡ count_at counts.now name }
{
    counts.get(name).copied().unwrap_or(0)
}

// Whether no operand in a part may carry undef.
fn refuses_undef(f: &Function, part: Part) -> bool
    ensures { IsTrue result ↔ RefusesUndef f.now part }
{
    match part {
        Part::Header | Part::Parameter | Part::Label { .. } => false,
        Part::Phi { .. } => true,
        Part::Inst { block, inst } => inst_refuses(f, block, inst),
        Part::End { block } => end_refuses(f, block),
    }
}

fn inst_refuses(f: &Function, block: usize, inst: usize) -> bool
    ensures { IsTrue result ↔ ((b : Block) × (slice_get f.now.blocks block ≡ Some b) × (i : Inst) × (slice_get b.insts inst ≡ Some i) × IsTrue (refuses_undef i)) }
{
    match f.blocks.as_slice().get(block) {
        Some(b) => match b.insts.as_slice().get(inst) {
            Some(i) => refuses(i),
            None => false,
        },
        None => false,
    }
}

fn end_refuses(f: &Function, block: usize) -> bool
    ensures { IsTrue result ↔ ((b : Block) × (slice_get f.now.blocks block ≡ Some b) × IsTrue (end_refuses_undef f.now.returns_no_undef b.terminator)) }
{
    match f.blocks.as_slice().get(block) {
        Some(b) => match b.terminator {
            Terminator::Return(_) => f.returns_no_undef,
            Terminator::CondBranch { .. } | Terminator::Switch { .. } => true,
            Terminator::Branch { .. } | Terminator::Unreachable => false,
        },
        None => false,
    }
}

// Whether no operand of an instruction may carry undef.
fn refuses(inst: &Inst) -> bool
    ensures { result ≡ refuses_undef inst.now }
{
    match inst {
        Inst::Binary { op, .. } => is_division(*op),
        Inst::Select {
            if_true,
            if_false,
            ..
        } => is_pointer(if_true.of_type) || is_pointer(if_false.of_type),
        Inst::Icmp { .. } | Inst::Cast { .. } | Inst::Freeze { .. } | Inst::Alloca { .. } => false,
        Inst::Load { .. } | Inst::Store { .. } | Inst::GetElementPtr { .. } => true,
    }
}

fn is_division(op: Op) -> bool
    ensures { result ≡ is_division op }
{
    match op {
        Op::UnsignedDiv { .. } | Op::UnsignedRem => true,
        Op::SignedDiv { .. } | Op::SignedRem => true,
        Op::Add(_) | Op::Sub(_) | Op::Mul(_) => false,
        Op::ShiftLeft(_) | Op::LogicalShiftRight { .. } | Op::ArithmeticShiftRight { .. } => false,
        Op::And | Op::Or { .. } | Op::Xor => false,
    }
}

fn is_pointer(of_type: IrType) -> bool
    ensures { result ≡ is_pointer of_type }
{
    match of_type {
        IrType::Int(_) => false,
        IrType::Ptr => true,
    }
}
