//! Builders of terms that simplify.
//!
//! Each builder answers a term with the value of its operation under every assignment and with at
//! most as many nodes as the operation itself. A rule is a function that looks at terms and answers
//! a form: a term that is there, or one over terms that are there. Where a rule makes two
//! operations, one over the other (`factors`, `low_bits`, `magnitudes`, `shrinking`,
//! `signed_divisions`), it finds their operands first and makes both by rules. The rules are those
//! that solvers of bit vectors rewrite by (Bitwuzla, CAV 2023; Z3's rewriter; LLVM's InstCombine).
//! The divisions of `wrapping` and the comparisons of `comparing` have their value only where a
//! condition is false, that of poison; a shift of a constant stands for some quotients.
//! A comment at a rule gives its pattern in the syntax of LLVM IR, `before --> after`: C is a
//! constant, N and M are widths. Unlike LLVM's, the operations are total: `udiv X, 0` is all ones,
//! `urem X, 0` is X, and `shl` and `lshr` by the width or more are 0.
//! It uses `bv_terms`, `known_values` for operations on known numbers and for weights, and
//! `term_sums` for what terms plainly are; the encoding of runs uses it.
#![tactic(auto)]

mod arithmetic;
mod bitwise;
mod bounds;
mod builders;
mod building;
mod choices;
mod comparing;
mod comparisons;
mod divisions;
mod equalities;
mod factors;
mod form;
mod low_bits;
mod magnitudes;
mod multiples;
mod nested_divisions;
mod possible;
mod shifts;
mod shrinking;
mod signed_divisions;
mod widths;
mod wrapping;

pub use builders::{
    add, and, ashr, concat, constant, eq, extract, ite, lshr, mul, not, or, sext, shl, slt, sub,
    udiv, ult, urem, variable, xor, zext,
};
pub use comparing::ordered_where;
pub use possible::may_be;
pub use wrapping::{Pair, udiv_where, urem_where};
