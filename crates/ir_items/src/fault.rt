ghost use Rattle.std.specs.Prelude.{◌≡◌};
ghost use Rattle.ir_items.specs.declared.fault.ItemFault.TheVariants as fault;

use std::alloc::{AllocError, AllocFailed};
use thiserror::Error;

/// Why a text isn't items. At one token the earlier reason counts.
#[derive(Clone, Copy, Debug, PartialEq, Eq, Error)]
pub enum Why {
    /// A token that begins no item, where no item is open.
    #[error("no item")]
    NoItem,
    /// A closing mark doesn't match.
    #[error("bracket")]
    Bracket,
    /// Inside a define, before its body, an item begins at depth 0 as the first of its line.
    #[error("no body")]
    NoBody,
    /// The text ends inside a bracket or a define.
    #[error("text ends")]
    TextEnds,
    /// A define has the name of an earlier one.
    #[error("name twice")]
    NameTwice,
    /// A define is the 4,097th.
    #[error("too many functions")]
    TooManyFunctions,
    /// The data layout isn't little-endian with pointers of 64 bits.
    #[error("data layout")]
    DataLayout,
}

/// Where a text stops being items.
#[derive(Clone, Copy, Debug, PartialEq, Eq, Error)]
pub enum ItemFault {
    /// It stops at the token that has `at` tokens before it; at the end where that is all of them.
    #[error("{why}, at token {at}")]
    Stop { at: usize, why: Why },
    /// There was no memory for the items.
    #[error("out of memory")]
    NoMemory,
}

impl From<AllocError> for ItemFault {
    ghost from_gives = { λ _ e. e ≡ fault.NoMemory };

    fn from(_: AllocError) -> Self {
        ItemFault::NoMemory
    }
}

impl<T: Drop> From<AllocFailed<T>> for ItemFault {
    ghost from_gives = { λ _ e. e ≡ fault.NoMemory };

    fn from(_: AllocFailed<T>) -> Self {
        ItemFault::NoMemory
    }
}

impl From<support::NoMemory> for ItemFault {
    ghost from_gives = { λ _ e. e ≡ fault.NoMemory };

    fn from(_: support::NoMemory) -> Self {
        ItemFault::NoMemory
    }
}
