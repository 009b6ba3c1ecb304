//! When the search begins anew.

/// The sequence of M. Luby, A. Sinclair and D. Zuckerman, "Optimal Speedup of Las Vegas Algorithms"
/// (1993), in the form of D. Knuth: 1 1 2 1 1 2 4 1 1 2 1 1 2 4 8 ..
#[derive(Clone, Copy)]
pub struct Luby {
    index: u64,
    number: u64,
}

impl Luby {
    /// The beginning of the sequence.
    pub fn new() -> Luby {
        Luby {
            index: 1,
            number: 1,
        }
    }

    /// The number of the sequence; the next one comes after it.
    pub fn next(&mut self) -> u64 {
        let number = self.number;
        let lowest = self.index & self.index.wrapping_neg();
        if lowest == number {
            self.index = self.index.wrapping_add(1);
            self.number = 1;
        } else {
            self.number = number.wrapping_mul(2);
        }
        number
    }
}
