ghost use Rattle.std.specs.Prelude.{◌≡◌};
ghost use Rattle.ir_reader.specs.declared.fault.ModuleFault.TheVariants.{NoMemory};

use ir_items::Why;
use std::alloc::{AllocError, AllocFailed};
use text_places::Place;
use thiserror::Error;

/// Why a text gives no module.
#[derive(Clone, Copy, Debug, PartialEq, Eq, Error)]
pub enum ModuleFault {
    /// No token begins at this position.
    #[error("no token begins here")]
    NoToken(Place),
    /// The tokens stop being items one after another at this position: at a token, or after the
    /// last byte of the text.
    #[error("{why}")]
    Item { why: Why, place: Place },
    /// There was no memory for the module.
    #[error("out of memory")]
    NoMemory,
}

impl From<support::NoMemory> for ModuleFault {
    ghost from_gives = { λ _ e. e ≡ NoMemory };

    fn from(_: support::NoMemory) -> Self {
        ModuleFault::NoMemory
    }
}

impl From<AllocError> for ModuleFault {
    ghost from_gives = { λ _ e. e ≡ NoMemory };

    fn from(_: AllocError) -> Self {
        ModuleFault::NoMemory
    }
}

impl<T: Drop> From<AllocFailed<T>> for ModuleFault {
    ghost from_gives = { λ _ e. e ≡ NoMemory };

    fn from(_: AllocFailed<T>) -> Self {
        ModuleFault::NoMemory
    }
}
