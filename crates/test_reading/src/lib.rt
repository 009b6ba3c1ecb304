//! Modules and functions with answers that are known, for the reader and the checks that it makes.
//!
//! These are the tests of the crates from `text_places` to `ir_printer`. The crates that they test
//! have no tests of their own, so that each is proved once. No crate uses this one.
#![tactic(auto)]

#[cfg(test)]
mod answers;
#[cfg(test)]
mod assigned_tests;
#[cfg(test)]
mod beside_tests;
#[cfg(test)]
mod blocks_tests;
#[cfg(test)]
mod check_tests;
#[cfg(test)]
mod damaged_tests;
#[cfg(test)]
mod definite_assignment_tests;
#[cfg(test)]
mod expecting;
#[cfg(test)]
mod item_tests;
#[cfg(test)]
mod lexing_tests;
#[cfg(test)]
mod lowering_tests;
#[cfg(test)]
mod made_functions;
#[cfg(test)]
mod memory_tests;
#[cfg(test)]
mod pointer_tests;
#[cfg(test)]
mod position_tests;
#[cfg(test)]
mod print_tests;
#[cfg(test)]
mod tests;
#[cfg(test)]
mod token_lists;
#[cfg(test)]
mod undef_functions;
#[cfg(test)]
mod undef_operand_tests;
#[cfg(test)]
mod undef_tests;
