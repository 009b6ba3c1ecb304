//! What a text says of its proof.

ghost use Rattle.proof_text.specs.OneReading.{ProofsAreOne};

/// Two proofs with the same text agree: they have the same head or none, the same number of parts, and
/// in each the same name, verdict, clauses, number of variables and log. Only `front` is not in the text.
pub fn proofs_are_one()
    ensures { ProofsAreOne }
{}
