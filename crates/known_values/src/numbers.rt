//! The operations on numbers of a width.

ghost use Rattle.std.specs.Prelude.{◌≡◌, cond, nat_eq, nat_lt, ◌+◌, ◌-◌, ◌*◌, ◌/◌, ◌%◌, ◌^◌, ◌<◌, ◌≤◌};
ghost use Rattle.bv_terms.specs.Tree.{binary_value, digit, extended_signed, is_less_signed, is_negative, quotient, remainder, shifted_left, shifted_right, shifted_signed, truth};
ghost use Rattle.bv_terms.specs.Trees.{IsWidth};

use bv_terms::BinaryOp;

/// The number cut to the width.
pub fn cut(n: u128, width: u32) -> u128
    requires { IsWidth width }
    ensures { result ≡ n % 2 ^ width }
{
    if width == 128 { n } else { n % (1 << width) }
}

/// The greatest number of the width.
pub fn ones(width: u32) -> u128
    requires { IsWidth width }
    ensures { result ≡ 2 ^ width - 1 }
{
    if width == 128 {
        u128::MAX
    } else {
        (1 << width) - 1
    }
}

/// Each bit inverted.
pub fn inverse(a: u128, width: u32) -> u128
    requires width { IsWidth width }
    requires a { a < 2 ^ width }
    ensures { result ≡ 2 ^ width - 1 - a }
{
    ones(width) - a
}

/// The sum, cut to the width.
pub fn sum(a: u128, b: u128, width: u32) -> u128
    requires { IsWidth width }
    ensures { result ≡ (a + b) % 2 ^ width }
{
    cut(a.wrapping_add(b), width)
}

/// The difference, cut to the width.
pub fn difference(a: u128, b: u128, width: u32) -> u128
    requires width { IsWidth width }
    requires b { b < 2 ^ width }
    ensures { result ≡ (a + (2 ^ width - b)) % 2 ^ width }
{
    sum(sum(a, ones(width) - b, width), 1, width)
}

/// The product, cut to the width.
pub fn product(a: u128, b: u128, width: u32) -> u128
    requires { IsWidth width }
    ensures { result ≡ (a * b) % 2 ^ width }
{
    cut(a.wrapping_mul(b), width)
}

/// The quotient, or all ones where the divisor is 0.
pub fn divided(a: u128, b: u128, width: u32) -> u128
    requires { IsWidth width }
    ensures { result ≡ quotient width a b }
{
    if b == 0 { ones(width) } else { a / b }
}

/// What the division leaves, or the dividend where the divisor is 0.
pub fn left_over(a: u128, b: u128) -> u128
    ensures { result ≡ remainder a b }
{
    if b == 0 { a } else { a % b }
}

/// The number shifted left.
pub fn moved_up(a: u128, b: u128, width: u32) -> u128
    requires { IsWidth width }
    ensures { result ≡ shifted_left width a b }
{
    if b < width as u128 {
        product(a, 1 << b as u32, width)
    } else {
        0
    }
}

/// The number shifted right.
pub fn moved_down(a: u128, b: u128, width: u32) -> u128
    requires { IsWidth width }
    ensures { result ≡ shifted_right width a b }
{
    if b < width as u128 { a >> b as u32 } else { 0 }
}

/// Whether the sign bit is 1.
pub fn has_sign(a: u128, width: u32) -> bool
    requires { IsWidth width }
    ensures { result ≡ is_negative width a }
{
    1 << (width - 1) <= a
}

/// The number shifted right with copies of its sign.
pub fn moved_down_signed(a: u128, b: u128, width: u32) -> u128
    requires width { IsWidth width }
    requires a { a < 2 ^ width }
    ensures { result ≡ shifted_signed width a b }
{
    if has_sign(a, width) {
        let turned = moved_down(ones(width) - a, b, width);
        ones(width) - turned
    } else {
        moved_down(a, b, width)
    }
}

/// 1 for true and 0 for false.
pub fn digit_of(b: bool) -> u128
    ensures { result ≡ digit b }
{
    if b { 1 } else { 0 }
}

/// Whether the first is less in two's complement.
pub fn less_signed(a: u128, b: u128, width: u32) -> bool
    requires { IsWidth width }
    ensures { result ≡ is_less_signed width a b }
{
    if has_sign(a, width) {
        if has_sign(b, width) { a < b } else { true }
    } else {
        if has_sign(b, width) { false } else { a < b }
    }
}

/// The value of an operation on two numbers of the width.
pub fn binary(op: BinaryOp, a: u128, b: u128, width: u32) -> u128
    requires width { IsWidth width }
    requires a { a < 2 ^ width }
    requires b { b < 2 ^ width }
    ensures { result ≡ binary_value op width a b }
{
    match op {
        BinaryOp::And => a & b,
        BinaryOp::Or => a | b,
        BinaryOp::Xor => a ^ b,
        BinaryOp::Add => sum(a, b, width),
        BinaryOp::Sub => difference(a, b, width),
        BinaryOp::Mul => product(a, b, width),
        BinaryOp::Udiv => divided(a, b, width),
        BinaryOp::Urem => left_over(a, b),
        BinaryOp::Shl => moved_up(a, b, width),
        BinaryOp::Lshr => moved_down(a, b, width),
        BinaryOp::Ashr => moved_down_signed(a, b, width),
        BinaryOp::Eq => digit_of(a == b),
        BinaryOp::Ult => digit_of(a < b),
        BinaryOp::Slt => digit_of(less_signed(a, b, width)),
    }
}

/// The first where the condition is not 0, and else the second.
pub fn choice(c: u128, a: u128, b: u128) -> u128
    ensures { result ≡ cond (truth c) a b }
{
    if c == 0 { b } else { a }
}

/// `width` bits from bit `from` on.
pub fn part(a: u128, from: u32, width: u32) -> u128
    requires width { IsWidth width }
    requires from { from < 128 }
    ensures { result ≡ a / 2 ^ from % 2 ^ width }
{
    cut(a >> from, width)
}

/// Two numbers, one after the other.
pub fn joined(high: u128, low: u128, below: u32) -> u128
    requires below { below < 128 }
    requires fits { high * 2 ^ below + low < 2 ^ 128 }
    ensures { result ≡ high * 2 ^ below + low }
{
    high * (1 << below) + low
}

/// Copies of the sign and then the number.
pub fn extended(a: u128, from: u32, width: u32) -> u128
    requires from { IsWidth from }
    requires width { IsWidth width }
    requires wider { from ≤ width }
    requires a { a < 2 ^ from }
    ensures { result ≡ extended_signed from width a }
{
    if has_sign(a, from) {
        ones(width) - ones(from) + a
    } else {
        a
    }
}
