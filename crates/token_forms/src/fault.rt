ghost use Rattle.std.specs.Prelude.{◌≡◌};
ghost use Rattle.token_forms.specs.declared.fault.ReadFault.TheVariants.{NoMemory};

use ir_tree::Reason;
use std::alloc::{AllocError, AllocFailed};
use thiserror::Error;

/// Why reading stopped, at the first token that is left.
#[derive(Clone, Copy, Debug, PartialEq, Eq, Error)]
pub enum ReadFault {
    /// The token isn't allowed there, for this reason, or there is none, which is Syntax.
    #[error("{0}")]
    Unfit(Reason),
    /// The token is allowed there, and a limit is passed.
    #[error("a limit is passed")]
    PastLimit,
    /// There was no memory for what was read.
    #[error("out of memory")]
    NoMemory,
}

impl From<AllocError> for ReadFault {
    ghost from_gives = { λ _ e. e ≡ NoMemory };

    fn from(_: AllocError) -> Self {
        ReadFault::NoMemory
    }
}

impl<T: Drop> From<AllocFailed<T>> for ReadFault {
    ghost from_gives = { λ _ e. e ≡ NoMemory };

    fn from(_: AllocFailed<T>) -> Self {
        ReadFault::NoMemory
    }
}

impl From<support::NoMemory> for ReadFault {
    ghost from_gives = { λ _ e. e ≡ NoMemory };

    fn from(_: support::NoMemory) -> Self {
        ReadFault::NoMemory
    }
}
