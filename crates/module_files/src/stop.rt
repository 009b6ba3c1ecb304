ghost use Rattle.std.specs.Prelude.{◌≡◌};
ghost use Rattle.module_files.specs.declared.stop.Stop.TheVariants.{NoMemory as OutOfMemory};
ghost use Rattle.module_files.specs.Reading.{stop_at_source, stop_at_target};

use ir_items::Why;
use support::NoMemory;
use text_places::Place;

/// What keeps a file from being judged.
#[derive(Clone, Copy, Debug, PartialEq, Eq)]
pub enum Trouble {
    /// The shelf failed to read it.
    CannotRead,
    /// It has more bytes than the limit.
    TooLong,
    /// No token begins at this position.
    NoToken(Place),
    /// Its tokens stop being items at this position.
    Item { why: Why, place: Place },
}

/// Why a file gave no text, or its text is not a module.
#[derive(Clone, Copy, Debug, PartialEq, Eq)]
pub enum LoadFault {
    Trouble(Trouble),
    NoMemory,
}

/// Why two files are not judged.
#[derive(Clone, Copy, Debug, PartialEq, Eq)]
pub enum Stop {
    Source(Trouble),
    Target(Trouble),
    NoMemory,
}

impl LoadFault {
    /// Why two files are not judged where the source's file has this fault.
    pub fn at_source(self) -> Stop
        ensures { result ≡ stop_at_source self }
    {
        match self {
            LoadFault::Trouble(trouble) => Stop::Source(trouble),
            LoadFault::NoMemory => Stop::NoMemory,
        }
    }

    /// Why two files are not judged where the target's file has this fault.
    pub fn at_target(self) -> Stop
        ensures { result ≡ stop_at_target self }
    {
        match self {
            LoadFault::Trouble(trouble) => Stop::Target(trouble),
            LoadFault::NoMemory => Stop::NoMemory,
        }
    }
}

impl From<NoMemory> for Stop {
    ghost from_gives = { λ _ stop. stop ≡ OutOfMemory };

    fn from(_error: NoMemory) -> Stop {
        Stop::NoMemory
    }
}
