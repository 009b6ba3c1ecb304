//! Circuits of ands, exclusive ors and choices, and the clauses that say what they do.
//!
//! A [`Circuit`] is an and-inverter graph (Kuehlmann, Paruthi, Krohm, Ganai, "Robust Boolean reasoning
//! for equivalence checking and functional property verification", 2002) in which an exclusive or and
//! a choice are gates too: a negation is a sign and costs no gate, constants are folded, an and absorbs
//! what is one level below it, and of equal gates only one is kept. It promises that [`to_cnf`] gives
//! clauses with exactly one model over each assignment of the inputs (Tseitin's encoding), in which
//! the last clause, one literal, has the value of the output; besides the inputs only gates that the
//! output needs have variables. It uses `clause_lits`; the bits of terms and the questions to a
//! solver are made of it.
#![tactic(auto)]

mod circuit;
mod cone;
mod encoding;
mod numbering;

pub use circuit::{Circuit, Gate, GateId};
pub use encoding::to_cnf;
