//! The instruction table: what an operation on values gives.

ghost use Rattle.std.specs.Prelude.{◌≡◌, ◌<◌, ◌^◌, ◌%◌, ◌-◌, ◌*◌, pos, ◌+ℤ◌, ◌-ℤ◌, ◌*ℤ◌, nat_le, false};
ghost use Rattle.tv_num.specs.Width.{signed_of, is_outside_unsigned, is_outside_signed};
ghost use Rattle.points.specs.Table.{poison_if, is_flagged, is_zero_or_poison, is_minus_1, is_least_or_poison, has_no_quotient, is_undefined, is_poisoned, number_result, defined_result, value_result, holds_of, is_negative, are_unlike, truth, compared, cast_number, cast_value, selected};

use byte_block::Value;
use ir_tree::{Cast, Flags, Op, Predicate};
use tv_num::{
    Width, add_over, div_signed, mul_over, shl_lost, shl_wrap, shr_lost, shr_signed, signed,
    sub_over, sub_wrap, trunc_lost, wrap, wrap_signed,
};

/// The number modulo 2^width.
pub fn low_bits(n: u64, width: Width) -> u64
    ensures { result ≡ n % 2 ^ width.bits }
{
    n & width.mask()
}

fn unless(is_poison: bool, number: u64) -> Value
    ensures { result ≡ poison_if is_poison (Value.Num number) }
{
    if is_poison {
        Value::Poison
    } else {
        Value::Num(number)
    }
}

fn has_flag(flags: Flags, over: (bool, bool)) -> bool
    ensures { result ≡ is_flagged flags over.0 over.1 }
{
    (flags.nuw && over.0) || (flags.nsw && over.1)
}

/// Whether a flag forbids the sum. An addition without flags computes no exact sum.
fn is_sum_flagged(flags: Flags, width: Width, a: u64, b: u64) -> bool
    requires left { a < 2 ^ width.bits }
    requires right { b < 2 ^ width.bits }
    ensures { result ≡ is_flagged flags (is_outside_unsigned width.bits (pos a +ℤ pos b)) (is_outside_signed width.bits (signed_of width.bits a +ℤ signed_of width.bits b)) }
{
    (flags.nuw || flags.nsw) && has_flag(flags, add_over(a, b, width))
}

/// Whether a flag forbids the difference.
fn is_difference_flagged(flags: Flags, width: Width, a: u64, b: u64) -> bool
    requires left { a < 2 ^ width.bits }
    requires right { b < 2 ^ width.bits }
    ensures { result ≡ is_flagged flags (is_outside_unsigned width.bits (pos a -ℤ pos b)) (is_outside_signed width.bits (signed_of width.bits a -ℤ signed_of width.bits b)) }
{
    (flags.nuw || flags.nsw) && has_flag(flags, sub_over(a, b, width))
}

/// Whether a flag forbids the product.
fn is_product_flagged(flags: Flags, width: Width, a: u64, b: u64) -> bool
    requires left { a < 2 ^ width.bits }
    requires right { b < 2 ^ width.bits }
    ensures { result ≡ is_flagged flags (is_outside_unsigned width.bits (pos (a * b))) (is_outside_signed width.bits (signed_of width.bits a *ℤ signed_of width.bits b)) }
{
    (flags.nuw || flags.nsw) && has_flag(flags, mul_over(a, b, width))
}

/// Whether a flag forbids the shift to the left.
fn is_shift_flagged(flags: Flags, width: Width, a: u64, amount: u64) -> bool
    requires number { a < 2 ^ width.bits }
    requires amount { amount < width.bits }
    ensures { result ≡ is_flagged flags (is_outside_unsigned width.bits (pos a *ℤ pos (2 ^ amount))) (is_outside_signed width.bits (signed_of width.bits a *ℤ pos (2 ^ amount))) }
{
    (flags.nuw || flags.nsw) && has_flag(flags, shl_lost(a, amount, width))
}

/// Whether a flag forbids the truncation.
fn is_cut_flagged(flags: Flags, from: Width, to: Width, a: u64) -> bool
    requires { a < 2 ^ from.bits }
    ensures { result ≡ is_flagged flags (is_outside_unsigned to.bits (pos a)) (is_outside_signed to.bits (signed_of from.bits a)) }
{
    (flags.nuw || flags.nsw) && has_flag(flags, trunc_lost(a, from, to))
}

fn is_zero_or_poison(width: Width, value: Value) -> bool
    ensures { result ≡ is_zero_or_poison width.bits value }
{
    match value {
        Value::Num(n) => low_bits(n, width) == 0,
        Value::Poison | Value::Ptr(_) => true,
    }
}

fn is_minus_1(width: Width, value: Value) -> bool
    ensures { result ≡ is_minus_1 width.bits value }
{
    match value {
        Value::Num(n) => low_bits(n, width) == width.mask(),
        Value::Poison | Value::Ptr(_) => false,
    }
}

fn is_least_or_poison(width: Width, value: Value) -> bool
    ensures { result ≡ is_least_or_poison width.bits value }
{
    match value {
        Value::Num(n) => low_bits(n, width) == width.half(),
        Value::Poison | Value::Ptr(_) => true,
    }
}

fn has_no_quotient(width: Width, left: Value, right: Value) -> bool
    ensures { result ≡ has_no_quotient width.bits left right }
{
    is_zero_or_poison(width, right) || (is_minus_1(width, right) && is_least_or_poison(width, left))
}

/// Whether the operation is undefined behaviour.
fn is_undefined(op: Op, width: Width, left: Value, right: Value) -> bool
    ensures { result ≡ is_undefined op width.bits left right }
{
    match op {
        Op::UnsignedDiv { .. } | Op::UnsignedRem => is_zero_or_poison(width, right),
        Op::SignedDiv { .. } | Op::SignedRem => has_no_quotient(width, left, right),
        Op::Add(_) | Op::Sub(_) | Op::Mul(_) | Op::ShiftLeft(_) => false,
        Op::LogicalShiftRight { .. } | Op::ArithmeticShiftRight { .. } => false,
        Op::And | Op::Or { .. } | Op::Xor => false,
    }
}

/// Whether a shift by the amount is poison at the width.
fn is_past(amount: u64, width: Width) -> bool
    ensures { result ≡ nat_le width.bits amount }
{
    width.bits() as u64 <= amount
}

/// Whether an operation on numbers of the width gives poison.
#[tactic(auto, using(crate::proofs::Defined::divisor_some, crate::proofs::Defined::quotient_some, crate::proofs::Defined::quotient_room))]
fn is_poisoned(op: Op, width: Width, a: u64, b: u64) -> bool
    requires left { a < 2 ^ width.bits }
    requires right { b < 2 ^ width.bits }
    requires defined { is_undefined op width.bits (Value.Num a) (Value.Num b) ≡ false }
    ensures { result ≡ is_poisoned op width.bits a b }
{
    match op {
        Op::Add(flags) => is_sum_flagged(flags, width, a, b),
        Op::Sub(flags) => is_difference_flagged(flags, width, a, b),
        Op::Mul(flags) => is_product_flagged(flags, width, a, b),
        Op::UnsignedDiv { exact } => exact && a % b != 0,
        Op::SignedDiv { exact } => exact && div_signed(a, b, width).1 != 0,
        Op::ShiftLeft(flags) => is_past(b, width) || is_shift_flagged(flags, width, a, b),
        Op::LogicalShiftRight { exact } | Op::ArithmeticShiftRight { exact } => {
            is_past(b, width) || (exact && shr_lost(a, b, width))
        }
        Op::Or { disjoint } => disjoint && a & b != 0,
        Op::UnsignedRem | Op::SignedRem | Op::And | Op::Xor => false,
    }
}

/// The result of an operation on numbers of the width that is neither undefined nor poison.
#[tactic(auto, using(crate::proofs::Defined::divisor_some, crate::proofs::Defined::quotient_some, crate::proofs::Defined::quotient_room, crate::proofs::Defined::amount_below))]
fn number_of(op: Op, width: Width, a: u64, b: u64) -> u64
    requires left { a < 2 ^ width.bits }
    requires right { b < 2 ^ width.bits }
    requires defined { is_undefined op width.bits (Value.Num a) (Value.Num b) ≡ false }
    requires no_poison { is_poisoned op width.bits a b ≡ false }
    ensures { result ≡ number_result op width.bits a b }
{
    match op {
        Op::Add(_) => wrap(a as u128 + b as u128, width),
        Op::Sub(_) => sub_wrap(a, b, width),
        Op::Mul(_) => wrap(a as u128 * b as u128, width),
        Op::UnsignedDiv { .. } => a / b,
        Op::UnsignedRem => a % b,
        Op::SignedDiv { .. } => wrap_signed(div_signed(a, b, width).0, width),
        Op::SignedRem => wrap_signed(div_signed(a, b, width).1, width),
        Op::ShiftLeft(_) => shl_wrap(a, b, width),
        Op::LogicalShiftRight { .. } => a >> b,
        Op::ArithmeticShiftRight { .. } => shr_signed(a, b, width),
        Op::And => a & b,
        Op::Or { .. } => a | b,
        Op::Xor => a ^ b,
    }
}

fn on_numbers(op: Op, width: Width, a: u64, b: u64) -> Value
    requires left { a < 2 ^ width.bits }
    requires right { b < 2 ^ width.bits }
    requires defined { is_undefined op width.bits (Value.Num a) (Value.Num b) ≡ false }
    ensures { result ≡ poison_if (is_poisoned op width.bits a b) (Value.Num (number_result op width.bits a b)) }
{
    if is_poisoned(op, width, a, b) {
        Value::Poison
    } else {
        Value::Num(number_of(op, width, a, b))
    }
}

#[tactic(auto, using(crate::proofs::Defined::undefined_again))]
fn on_defined(op: Op, width: Width, left: Value, right: Value) -> Value
    requires { is_undefined op width.bits left right ≡ false }
    ensures { result ≡ defined_result op width.bits left right }
{
    match (left, right) {
        (Value::Num(a), Value::Num(b)) => {
            on_numbers(op, width, low_bits(a, width), low_bits(b, width))
        }
        _ => Value::Poison,
    }
}

/// The result of an operation; `None` is undefined behaviour.
pub fn on_values(op: Op, width: Width, left: Value, right: Value) -> Option<Value>
    ensures { result ≡ value_result op width.bits left right }
{
    if is_undefined(op, width, left, right) {
        None
    } else {
        Some(on_defined(op, width, left, right))
    }
}

/// Whether the predicate holds at this width (LLVM Language Reference, "icmp Instruction").
fn compare(predicate: Predicate, width: Width, a: u64, b: u64) -> bool
    requires left { a < 2 ^ width.bits }
    requires right { b < 2 ^ width.bits }
    ensures { result ≡ holds_of predicate width.bits a b }
{
    match predicate {
        Predicate::Equal => a == b,
        Predicate::NotEqual => a != b,
        Predicate::UnsignedGreater => a > b,
        Predicate::UnsignedGreaterOrEqual => a >= b,
        Predicate::UnsignedLess => a < b,
        Predicate::UnsignedLessOrEqual => a <= b,
        Predicate::SignedGreater => signed(a, width) > signed(b, width),
        Predicate::SignedGreaterOrEqual => signed(a, width) >= signed(b, width),
        Predicate::SignedLess => signed(a, width) < signed(b, width),
        Predicate::SignedLessOrEqual => signed(a, width) <= signed(b, width),
    }
}

fn is_negative(width: Width, a: u64) -> bool
    ensures { result ≡ is_negative width.bits a }
{
    width.half() <= a
}

/// Whether `samesign` forbids the comparison.
fn are_unlike(same_sign: bool, width: Width, a: u64, b: u64) -> bool
    ensures { result ≡ are_unlike same_sign width.bits a b }
{
    same_sign && is_negative(width, a) != is_negative(width, b)
}

fn compare_numbers(predicate: Predicate, same_sign: bool, width: Width, a: u64, b: u64) -> Value
    requires left { a < 2 ^ width.bits }
    requires right { b < 2 ^ width.bits }
    ensures { result ≡ poison_if (are_unlike same_sign width.bits a b) (Value.Num (truth (holds_of predicate width.bits a b))) }
{
    unless(
        are_unlike(same_sign, width, a, b),
        compare(predicate, width, a, b) as u64,
    )
}

/// The result of a comparison: 1 or 0, and poison where an operand is, or where `samesign` forbids it.
pub fn compare_values(
    predicate: Predicate,
    same_sign: bool,
    width: Width,
    left: Value,
    right: Value,
) -> Value
    ensures { result ≡ compared predicate same_sign width.bits left right }
{
    match (left, right) {
        (Value::Num(a), Value::Num(b)) => compare_numbers(
            predicate,
            same_sign,
            width,
            low_bits(a, width),
            low_bits(b, width),
        ),
        _ => Value::Poison,
    }
}

fn cast_number(cast: Cast, from: Width, to: Width, a: u64) -> Value
    requires { a < 2 ^ from.bits }
    ensures { result ≡ cast_number cast from.bits to.bits a }
{
    match cast {
        Cast::Truncate(flags) => unless(is_cut_flagged(flags, from, to, a), low_bits(a, to)),
        Cast::ZeroExtend { non_negative } => {
            unless(non_negative && is_negative(from, a), low_bits(a, to))
        }
        Cast::SignExtend => Value::Num(wrap_signed(signed(a, from), to)),
    }
}

/// The value at another width.
pub fn cast_value(cast: Cast, from: Width, to: Width, value: Value) -> Value
    ensures { result ≡ cast_value cast from.bits to.bits value }
{
    match value {
        Value::Num(n) => cast_number(cast, from, to, low_bits(n, from)),
        Value::Poison | Value::Ptr(_) => Value::Poison,
    }
}

/// The arm that the condition chooses; the other one has no effect.
pub fn select(condition: Value, if_true: Value, if_false: Value) -> Value
    ensures { result ≡ selected condition if_true if_false }
{
    match condition {
        Value::Num(n) if n % 2 == 1 => if_true,
        Value::Num(_) => if_false,
        Value::Poison | Value::Ptr(_) => Value::Poison,
    }
}
