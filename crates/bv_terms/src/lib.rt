//! Terms over bit vectors, each stored once, and folds over them.
//!
//! A term is an operation over earlier terms; the operations are those of the theory of fixed-size
//! bit vectors of SMT-LIB. Contracts see each term as the tree that it denotes. It promises that
//! equal terms get equal ids, that the terms of a list stay as more are made, and that the answers
//! of [`fold`] denote the terms in order, for each [`TermFold`]. It uses `support`;
//! evaluation, substitution and circuits are folds over it.
#![tactic(auto)]

mod builders;
mod folding;
mod term;
mod terms;
mod variable;

pub use folding::{FoldFault, TermFold, fold};
pub use term::{BinaryOp, Term, TermId};
pub use terms::Terms;
pub use variable::Variable;
