//! What an answered question says of a pair.

use clause_log::Cert;

/// The answer to a question: the least solution; that there is none, with a refutation of clauses
/// that ask for one; or that the limit was spent, with such clauses and what was learned.
#[derive(Drop)]
pub enum Found<T> {
    Least(T),
    None(Cert),
    Spent(Cert),
}
