//! How many conflicts guesses may have.

/// More conflicts than this are no limit.
const MOST: u64 = 1 << 63;

/// How many conflicts guesses may still have.
#[derive(Clone, Copy, Debug, PartialEq, Eq)]
pub struct Budget {
    left: u64,
}

impl Budget {
    /// As many conflicts as a limit allows; without a limit 2^64 - 1.
    pub fn new(limit: Option<u64>) -> Budget {
        Budget {
            left: limit.unwrap_or(u64::MAX),
        }
    }

    /// Takes this many conflicts out of the budget, or all that are left.
    pub fn take(&mut self, most: u64) -> u64 {
        let taken = most.min(self.left);
        self.left = self.left.wrapping_sub(taken);
        taken
    }

    /// Whether conflicts are counted.
    pub fn is_limited(&self) -> bool {
        self.left < MOST
    }

    /// Whether nothing is left.
    pub fn is_spent(&self) -> bool {
        self.left == 0
    }
}
