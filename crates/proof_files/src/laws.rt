//! What checks say.

ghost use Rattle.std.specs.Prelude.{ℕ, ◌≡◌, List, map};
ghost use Rattle.clause_lits.specs.declared.lit.Lit.{Lit};
ghost use Rattle.clause_log.specs.declared.step.Step.{Step};
ghost use Rattle.clause_log.specs.Refutation.{Refutes, IsFirstBad};
ghost use Rattle.proof_text.specs.declared.part.Part.{Part};
ghost use Rattle.proof_files.specs.Laws.{ProofsAreVerified, TextsAreVerified};

use proof_text::proofs_are_one;

/// A log that refutes its clauses has no first bad step: each part is said to be verified or bad, and
/// never both.
pub fn refuted_has_no_bad_step()
    ensures { (clauses : List (List Lit)) (log : List Step) (index : ℕ) → Refutes clauses log
        → IsFirstBad clauses log index → ⊥ }
{}

/// A proof whose logs refute is verified whole: whatever a check of its parts says, it has a line
/// `verified` for each and names no bad step, and its status is 0.
pub fn proofs_are_verified()
    ensures { ProofsAreVerified }
{}

/// And so is its text: whatever a check says of the parts of a proof that is read of it, it is that.
pub fn texts_are_verified()
    ensures { TextsAreVerified }
{
    proofs_are_one();
}
