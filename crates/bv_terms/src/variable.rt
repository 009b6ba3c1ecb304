//! Variables of terms.

/// A variable of terms, which is its number and its width, in bits, together.
#[derive(Clone, Copy, PartialEq, Eq, Hash, Debug)]
pub struct Variable {
    pub number: u64,
    pub width: u32,
}
