//! Which flag makes a result poison.

ghost use Rattle.std.specs.Prelude.{◌≡◌, ◌≢◌, ◌<◌, ◌^◌, nat_le, true, false, IsSomeAnd, All};
ghost use Rattle.memory_access.specs.Offsets.{IndexFits, gep_result};
ghost use Rattle.points.specs.Run.{is_poison};
ghost use Rattle.points.specs.Table.{is_flagged, is_poisoned, cast_number};
ghost use Rattle.run_trace.specs.Reasons.{is_flag, flags_kept};
ghost use Rattle.run_trace.specs.Causes.{IsPoisonCause, IsCastCause};

use crate::steps::{Flag, Reason};
use byte_block::{Memory, Value};
use ir_tree::{Cast, Flags, Op};
use memory_access::{Index, gep};
use tv_num::{Width, add_over, mul_over, shl_lost, sub_over, trunc_lost};

/// The flag that forbids a result, where one of the two does; `over` says whether the exact result
/// is out of the unsigned and of the signed range.
fn wrap_flag(flags: Flags, over: (bool, bool)) -> Flag
    ensures { is_flagged flags over.0 over.1 ≡ true → is_flagged (flags_kept (is_flag result) flags) over.0 over.1 ≡ true }
{
    if flags.nuw && over.0 {
        Flag::NoUnsignedWrap
    } else {
        Flag::NoSignedWrap
    }
}

fn is_past(amount: u64, width: Width) -> bool
    ensures { result ≡ nat_le width.bits amount }
{
    width.bits() as u64 <= amount
}

fn shift_left_cause(flags: Flags, width: Width, a: u64, amount: u64) -> Reason
    requires left { a < 2 ^ width.bits }
    ensures { is_poisoned (Op.ShiftLeft flags) width.bits a amount ≡ true → IsPoisonCause result (Op.ShiftLeft flags) width.bits a amount }
{
    if is_past(amount, width) {
        return Reason::ShiftPastWidth;
    }
    Reason::Flag(wrap_flag(flags, shl_lost(a, amount, width)))
}

fn shift_right_cause(amount: u64, width: Width) -> Reason
    ensures past { nat_le width.bits amount ≡ true → result ≡ Reason.ShiftPastWidth }
    ensures exact { nat_le width.bits amount ≡ false → result ≡ Reason.Flag Flag.Exact }
{
    if is_past(amount, width) {
        Reason::ShiftPastWidth
    } else {
        Reason::Flag(Flag::Exact)
    }
}

/// Why an operation on numbers of the width gives poison, where it does.
pub fn poison_cause(op: Op, width: Width, a: u64, b: u64) -> Option<Reason>
    requires left { a < 2 ^ width.bits }
    requires right { b < 2 ^ width.bits }
    ensures { is_poisoned op width.bits a b ≡ true → IsSomeAnd result (λ r. IsPoisonCause r op width.bits a b) }
{
    match op {
        Op::Add(flags) => Some(Reason::Flag(wrap_flag(flags, add_over(a, b, width)))),
        Op::Sub(flags) => Some(Reason::Flag(wrap_flag(flags, sub_over(a, b, width)))),
        Op::Mul(flags) => Some(Reason::Flag(wrap_flag(flags, mul_over(a, b, width)))),
        Op::ShiftLeft(flags) => Some(shift_left_cause(flags, width, a, b)),
        Op::LogicalShiftRight { .. } | Op::ArithmeticShiftRight { .. } => {
            Some(shift_right_cause(b, width))
        }
        Op::UnsignedDiv { .. } | Op::SignedDiv { .. } => Some(Reason::Flag(Flag::Exact)),
        Op::Or { .. } => Some(Reason::Flag(Flag::Disjoint)),
        Op::UnsignedRem | Op::SignedRem | Op::And | Op::Xor => None,
    }
}

/// The flag by which a cast of a number of the width `from` gives poison, where it does.
pub fn cast_flag(cast: Cast, from: Width, to: Width, a: u64) -> Option<Flag>
    requires { a < 2 ^ from.bits }
    ensures { is_poison (cast_number cast from.bits to.bits a) ≡ true → IsSomeAnd result (λ flag. IsCastCause flag cast from.bits to.bits a) }
{
    match cast {
        Cast::Truncate(flags) => Some(wrap_flag(flags, trunc_lost(a, from, to))),
        Cast::ZeroExtend { .. } => Some(Flag::NonNegative),
        Cast::SignExtend => None,
    }
}

/// The flag by which a `getelementptr` gives poison, where it does.
pub fn gep_flag(memory: &Memory, base: Value, indices: &[Index], inbounds: bool) -> Flag
    requires { All IndexFits indices.now }
    ensures inbounds { result ≡ Flag.Inbounds → is_poison (gep_result memory.now base indices.now inbounds false) ≡ true }
    ensures nuw { result ≢ Flag.Inbounds → (result ≡ Flag.NoUnsignedWrap) × (is_poison (gep_result memory.now base indices.now inbounds false) ≡ false) }
{
    match gep(memory, base, indices, inbounds, false) {
        Value::Poison => Flag::Inbounds,
        Value::Num(_) | Value::Ptr(_) => Flag::NoUnsignedWrap,
    }
}
