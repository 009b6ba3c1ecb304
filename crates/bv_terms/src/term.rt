//! One term over earlier ones.

ghost use Rattle.std.specs.Prelude.{◌≡◌};

/// The index of a term in its list, counted from 0.
#[derive(Clone, Copy, PartialEq, Eq, Hash, Debug)]
pub struct TermId {
    pub index: usize,
}

/// An operation on two numbers of one width. The comparisons answer 1 bit, the others the width
/// of their operands.
#[derive(Clone, Copy, PartialEq, Eq, Hash, Debug)]
pub enum BinaryOp {
    And,
    Or,
    Xor,
    Add,
    Sub,
    Mul,
    Udiv,
    Urem,
    Shl,
    Lshr,
    Ashr,
    Eq,
    Ult,
    Slt,
}

impl BinaryOp {
    ghost use Rattle.bv_terms.specs.Tree.{binary_width};

    /// How many bits the operation answers for operands of this width.
    pub fn width(self, operands: u32) -> u32
        ensures { result ≡ binary_width self operands }
    {
        match self {
            BinaryOp::Eq | BinaryOp::Ult | BinaryOp::Slt => 1,
            _ => operands,
        }
    }
}

/// A term over earlier ones, with its width in bits; at a binary operation it is the width of the two
/// operands.
#[derive(Clone, Copy, PartialEq, Eq, Hash, Debug)]
pub enum Term {
    Constant {
        value: u128,
        width: u32,
    },
    Variable {
        number: u64,
        width: u32,
    },
    Not {
        a: TermId,
        width: u32,
    },
    /// The operation, its two operands, and their width.
    Binary(BinaryOp, TermId, TermId, u32),
    Ite {
        c: TermId,
        a: TermId,
        b: TermId,
        width: u32,
    },
    Extract {
        a: TermId,
        from: u32,
        width: u32,
    },
    Concat {
        high: TermId,
        low: TermId,
        below: u32,
        width: u32,
    },
    Zext {
        a: TermId,
        width: u32,
    },
    Sext {
        a: TermId,
        from: u32,
        width: u32,
    },
}

impl Term {
    ghost use Rattle.bv_terms.specs.Trees.{term_width};

    /// How many bits the term has.
    pub fn width(&self) -> u32
        ensures { result ≡ term_width self.now }
    {
        match *self {
            Term::Constant { width, .. } | Term::Variable { width, .. } | Term::Not { width, .. } =>
                width,
            Term::Binary(op, _, _, width) => op.width(width),
            Term::Ite { width, .. } | Term::Extract { width, .. } => width,
            Term::Concat { width, .. } | Term::Zext { width, .. } | Term::Sext { width, .. } =>
                width,
        }
    }
}
