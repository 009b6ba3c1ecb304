//! Files and output as the program sees them: a shelf of named files, and a sink of bytes.
//!
//! It promises that a failed call is counted and no other, that a fetch gives exactly the file that
//! the shelf reports, and that a sink holds what it took and nothing else. [`MemoryShelf`] and
//! [`MemorySink`] report their bytes, and fail only at an absent file and at a full sink;
//! [`FileShelf`] and [`StandardSink`] are the system's, report nothing, and may fail at any call. It
//! uses `support`; `tv_run::run` takes any shelf and any sink.
#![tactic(auto)]

mod failing;
mod memory;
mod real;
mod shelf;
mod sink;

pub use failing::{Calls, FailingShelf, FailingSink};
pub use memory::{MemoryShelf, MemorySink};
pub use real::{FileShelf, StandardSink};
pub use shelf::{FetchFault, PutFault, Shelf, Size};
pub use sink::{Failed, Sink, write_both, write_line, write_whole};
