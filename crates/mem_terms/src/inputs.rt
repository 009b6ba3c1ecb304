use bv_terms::TermId;
use support::Sequence;

/// The numbers of an argument in a point's code.
#[derive(Clone, Copy, Debug, PartialEq, Eq)]
pub enum ArgTerms {
    /// The flag, 1 for poison, and the number at the parameter's width.
    Int {
        flag: TermId,
        number: TermId,
    },
    /// The flag, 1 for poison, the given block by its number in 3 bits, 0 for null, and the offset
    /// in 64 bits.
    Ptr {
        flag: TermId,
        block: TermId,
        offset: TermId,
    },
}

/// The six numbers of a byte of a given block: kind, mask, number, block, offset and part.
#[derive(Clone, Copy, Debug, PartialEq, Eq)]
pub struct ByteTerms {
    pub kind: TermId,
    pub mask: TermId,
    pub number: TermId,
    pub block: TermId,
    pub offset: TermId,
    pub part: TermId,
}

/// One term for each number of a point's code before the tape, in the code's order.
pub struct InputTerms {
    pub args: Sequence<ArgTerms>,
    pub sizes: Sequence<TermId>,
    pub places: Sequence<Sequence<ByteTerms>>,
}

// Dropped by one call: a derived drop is written out at each return.
impl Drop for InputTerms {
    fn drop(self) {
        let InputTerms {
            args,
            sizes,
            places,
        } = self;
    }
}

/// One term of 64 bits for each word of a tape.
#[derive(Drop)]
pub struct TapeTerms {
    pub words: Sequence<TermId>,
}
