ghost use Rattle.std.specs.Prelude.{◌≡◌};
ghost use Rattle.ir_tree.specs.declared.module.CheckFault.TheVariants.{NoMemory};

use crate::name::Name;
use crate::tree::Function;
use std::alloc::AllocError;
use support::Sequence;
use thiserror::Error;

/// Why a function is not judged, in the order in which the reasons are tested.
#[derive(Clone, Copy, Debug, PartialEq, Eq, Error)]
pub enum Reason {
    /// A token that isn't allowed where it is.
    #[error("a token that cannot stand here")]
    Syntax,
    /// A form of the language that the program doesn't read.
    #[error("a form of the language that is not read")]
    Unsupported,
    /// A quantity that is past its limit.
    #[error("a limit is passed")]
    Limit,
    /// A name that is defined twice.
    #[error("a name is defined twice")]
    NameTwice,
    /// A name that is not defined, or not as it is used.
    #[error("a name is not defined, or not as it is used")]
    NameUnknown,
    /// A type that isn't the required one.
    #[error("a type that is not the one that must stand here")]
    TypeClash,
    /// A phi whose blocks aren't its predecessors, or a jump to the entry.
    #[error("the blocks of a phi are not its block's predecessors, or a jump leads to the entry")]
    PhiEdges,
    /// A use that some path reaches without a definition.
    #[error("some path reaches a use before the definition")]
    Unassigned,
    /// A use of a name that carries undef, where none may, or a name that carries too many.
    #[error("a name that carries undef is used where none may be, or carries too many")]
    UndefUse,
}

/// A refusal, with the line and the column, both from 1, of what it is about.
#[derive(Clone, Copy, Debug, PartialEq, Eq, Error)]
#[error("{line}:{column}: {reason}")]
pub struct Refused {
    pub reason: Reason,
    pub line: u64,
    pub column: u64,
}

/// Why a check of a function didn't pass it.
#[derive(Clone, Copy, Debug, PartialEq, Eq, Error)]
pub enum CheckFault {
    /// The function is refused.
    #[error("{0}")]
    Refused(Refused),
    /// There was no memory for the check, and nothing is said of the function.
    #[error("out of memory")]
    NoMemory,
}

impl From<AllocError> for CheckFault {
    ghost from_gives = { λ _ e. e ≡ NoMemory };

    fn from(_: AllocError) -> Self {
        CheckFault::NoMemory
    }
}

impl From<support::NoMemory> for CheckFault {
    ghost from_gives = { λ _ e. e ≡ NoMemory };

    fn from(_: support::NoMemory) -> Self {
        CheckFault::NoMemory
    }
}

/// A function with a body in a module: its name, and the function or why it was refused.
#[derive(Drop)]
pub struct Entry {
    pub name: Name,
    pub function: Result<Function, Refused>,
}

/// A module: its functions with a body, in text order.
#[derive(Drop)]
pub struct Module {
    pub entries: Sequence<Entry>,
}
