//! What a question is answered.

use clause_log::Cert;

/// The answer to which bits of its variables make a term true.
#[derive(Drop)]
pub enum Asked {
    /// The least bits that do, those of each variable most significant first, in the order of the
    /// question.
    Least(Vec<bool>),
    /// None do: clauses that ask which do, and a log that refutes them.
    None(Cert),
    /// Not known: clauses that ask which do, and a log of as many steps as the limit allows.
    Spent(Cert),
}
