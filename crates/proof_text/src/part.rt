//! What a proof file consists of.

use clause_log::Cert;
use std::alloc::{AllocError, AllocFailed};
use support::{NoMemory, Sequence};
use thiserror::Error;

/// What a proof file has for one row: the clauses of the row's last question, and a log that is to
/// refute them. Nothing here says that it does: `clause_log::check_log` does.
#[derive(Drop)]
pub struct Part {
    /// The function's name as a report prints it after `@`.
    pub name: Sequence<u8>,
    /// Whether the row is `correct`; else it is `incorrect`.
    pub is_correct: bool,
    pub cert: Cert,
}

/// What a report was made with, as its first line says: the bounds `turns`, `blocks` and `bytes`, and
/// the budget of a pair, `rounds`, `conflicts` and `weight`. A text has only numbers below 2^63.
#[derive(Clone, Copy, Debug, PartialEq, Eq)]
pub struct Head {
    pub turns: u64,
    pub blocks: u64,
    pub bytes: u64,
    pub rounds: u64,
    pub conflicts: u64,
    pub weight: u64,
}

/// What a proof file has: in format 2 a head, in format 1 none, and in both a part for each row.
#[derive(Drop)]
pub struct Proof {
    pub head: Option<Head>,
    pub parts: Sequence<Part>,
}

/// Why a text is rejected.
#[derive(Clone, Copy, Debug, PartialEq, Eq, Error)]
pub enum ProofFault {
    #[error("out of memory")]
    NoMemory,
    /// The first line, counted from 1, that no proof file has there.
    #[error("line {0} is not of a proof file")]
    Line(u64),
}

/// Why the reader stops.
#[derive(Clone, Copy, Debug, PartialEq, Eq)]
pub(crate) enum Stop {
    NoMemory,
    /// The line that begins the last `left` bytes is wrong, or isn't there.
    At { left: usize },
}

impl From<NoMemory> for Stop {
    ghost use Rattle.std.specs.Prelude.{◌≡◌};
    ghost use Rattle.proof_text.specs.declared.part.Stop.TheVariants.{NoMemory};

    ghost from_gives = { λ _ stop. stop ≡ NoMemory };

    fn from(_error: NoMemory) -> Stop {
        Stop::NoMemory
    }
}

impl From<AllocError> for Stop {
    ghost use Rattle.std.specs.Prelude.{◌≡◌};
    ghost use Rattle.proof_text.specs.declared.part.Stop.TheVariants.{NoMemory};

    ghost from_gives = { λ _ stop. stop ≡ NoMemory };

    fn from(_error: AllocError) -> Stop {
        Stop::NoMemory
    }
}

impl<T: Drop> From<AllocFailed<T>> for Stop {
    ghost use Rattle.std.specs.Prelude.{◌≡◌};
    ghost use Rattle.proof_text.specs.declared.part.Stop.TheVariants.{NoMemory};

    ghost from_gives = { λ _ stop. stop ≡ NoMemory };

    fn from(_failed: AllocFailed<T>) -> Stop {
        Stop::NoMemory
    }
}
