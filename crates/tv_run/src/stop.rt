//! Why a run stops without a report.

use support::NoMemory;

/// What keeps a proof file from being checked.
#[derive(Clone, Copy, Debug, PartialEq, Eq)]
pub enum LogTrouble {
    /// The shelf failed to read it.
    CannotRead,
    /// It has more bytes than the limit.
    TooLong,
    /// The first line, counted from 1, that no proof file has there.
    Line(u64),
}

/// Why a proof file is not checked.
#[derive(Clone, Copy, Debug, PartialEq, Eq)]
pub enum LogStop {
    Trouble(LogTrouble),
    NoMemory,
}

impl From<NoMemory> for LogStop {
    ghost use Rattle.std.specs.Prelude.{◌≡◌};
    ghost use Rattle.tv_run.specs.declared.stop.LogStop.TheVariants.{NoMemory};

    ghost from_gives = { λ _ stop. stop ≡ NoMemory };

    fn from(_error: NoMemory) -> LogStop {
        LogStop::NoMemory
    }
}
