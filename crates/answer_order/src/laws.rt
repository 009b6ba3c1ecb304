//! The order of answers as digits is the order of points as numbers.

ghost use Rattle.answer_order.specs.Laws.{LeastDigitsAreLeastNumbers, NoDigitsAreNoNumbers};

/// Where bits are the least that pass a test of the numbers that they write, these numbers are the
/// least that pass it, in the order of codes.
pub fn least_digits_are_least_numbers()
    ensures { LeastDigitsAreLeastNumbers }
{}

/// Where no bits pass a test of the numbers that they write, no numbers of these widths pass it.
pub fn no_digits_are_no_numbers()
    ensures { NoDigitsAreNoNumbers }
{}
