//! The tree of a module: functions, their blocks and instructions, and the names in them.
//!
//! It promises plain data: two functions with the same parts are equal. Limits of a function are
//! stated here, with their test, and what is required of a function besides its spelling
//! (`specs/WellFormed.antt`), with the list of what it is required of: the function's sites
//! (`sites_of`), and where its blocks lead (`targets_of`, `successors`). It stands on `tv_num`
//! and `text_places`.
#![tactic(auto)]

mod definitions;
mod flow;
mod laws;
mod limits;
mod module;
mod name;
mod names;
mod sites;
mod tree;

pub use definitions::{are_numbered, first_definitions, is_defined_before};
pub use flow::{BlockIndex, result_of, successors, targets_of};
pub use laws::{are_least_counts, is_one_refusal};
pub use limits::{indexed_size, is_within_limits, store_size, type_align};
pub use module::{CheckFault, Entry, Module, Reason, Refused};
pub use name::{Name, copy_name};
pub use names::Names;
pub use sites::{Part, Site, SiteList, is_same_type, one_bit, refusal_at, sites_of};
pub use tree::{
    Block, Case, Cast, Flags, Function, GepIndex, Inst, IrType, MemoryType, Op, Operand, Parameter,
    Phi, PhiEntry, Predicate, Terminator, TypedOperand,
};
