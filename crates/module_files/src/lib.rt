//! The modules of two files, or why they are not judged, with the line that says so.
//!
//! It promises that [`read_both`] gives the one module of each file, or the first cause that keeps a
//! file from being judged: it can't be read, it is longer than the limit, or its text is no module,
//! with the first fault; and that [`refuse`] writes the line of that cause and answers its status.
//! [`read_texts`] is the same of two texts in memory, [`load`] and [`refuse_file`] of one file, whatever
//! its text is. It builds on `tv_io` and `ir_reader`; `tv_run` and `trace_run` use it.
#![tactic(auto)]

mod both;
mod lines;
mod refusals;
mod stop;
mod texts;

pub use both::{Modules, give_back, read_both, read_both_beside, read_texts};
pub use refusals::{refuse, refuse_file};
pub use stop::{LoadFault, Stop, Trouble};
pub use texts::{load, module_of};
