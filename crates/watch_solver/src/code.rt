//! Literals as numbers.

ghost use Rattle.std.specs.Prelude.{◌≡◌, ◌<◌, ◌↔◌, IsTrue};
ghost use Rattle.watch_solver.specs.Codes.{index_of, lit_of};

use clause_lits::Lit;

/// A literal as a number: twice its variable, and 1 more where it is positive.
#[derive(Clone, Copy, PartialEq, Eq, Debug)]
pub struct Code {
    number: u32,
}

impl Code {
    /// The code of a literal.
    pub fn of(literal: Lit) -> Code
        requires { literal.variable < 2147483648 }
        ensures { lit_of result ≡ literal }
    {
        let sign = if literal.positive { 1 } else { 0 };
        Code {
            number: literal.variable as u32 * 2 + sign,
        }
    }

    /// The literal.
    pub fn literal(self) -> Lit
        ensures { result ≡ lit_of self }
    {
        Lit {
            variable: u64::from(self.number / 2),
            positive: self.number % 2 == 1,
        }
    }

    /// The index of what is kept for the literal.
    pub fn index(self) -> usize
        ensures { result ≡ index_of (lit_of self) }
    {
        self.number as usize
    }

    /// Whether the two are of the same literal.
    pub fn is_same(self, other: Code) -> bool
        ensures { IsTrue result ↔ (lit_of self ≡ lit_of other) }
    {
        self.number == other.number
    }
}
