//! Numbers from bits.

ghost use Rattle.std.specs.Prelude.{◌≡◌, ◌≤◌, IfOk, length};
ghost use Rattle.gate_arith.specs.Numbers.{number_of};
ghost use Rattle.answer_order.specs.Fronts.{AreWidths, numbers_of, total};

use std::alloc::Global;
use support::NoMemory;

/// The number that at most 64 bits write, most significant bit first.
fn number_of(digits: &[bool]) -> u64
    requires { length digits.now ≤ 64 }
    ensures { result ≡ number_of digits.now }
{
    let mut number = 0;
    for digit in digits {
        number = number * 2 + u64::from(*digit);
    }
    number
}

/// The numbers of these widths, each at most 64, that the bits write one after the other, most
/// significant bit of each first.
pub fn numbers_of(alloc: Global, widths: &[u32], digits: &[bool]) -> Result<Vec<u64>, NoMemory>
    requires widths { AreWidths widths.now }
    requires digits { length digits.now ≡ total widths.now }
    ensures { IfOk result (λ numbers. numbers.items ≡ numbers_of widths.now digits.now) }
{
    let mut numbers = Vec::new(alloc);
    let mut rest = digits;
    for width in widths {
        let (first, behind) = rest.split_at(*width as usize);
        numbers.push(number_of(first))?;
        rest = behind;
    }
    Ok(numbers)
}
