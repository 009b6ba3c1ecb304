//! A variable with a sign.

ghost use Rattle.std.specs.Prelude.{◌≡◌};

/// A variable, from 1 on in a clause, and a sign.
#[derive(Clone, Copy, PartialEq, Eq, Hash, Default, Debug)]
pub struct Lit {
    pub variable: u64,
    pub positive: bool,
}

impl Lit {
    ghost use Rattle.clause_lits.specs.Meaning.{opposite_of};

    /// The literal of the same variable and the other sign.
    pub fn opposite(self) -> Lit
        ensures { result ≡ opposite_of self }
    {
        Lit {
            variable: self.variable,
            positive: !self.positive,
        }
    }
}
