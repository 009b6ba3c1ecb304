//! Variables in the order of a question's numbers.

ghost use Rattle.std.specs.Prelude.{◌∷◌, ◌++◌, ◌≡◌, [], IfOk, List, OnOk, ℕ};
ghost use Rattle.bv_terms.specs.Trees.{Extends, IsTerm, IsWidth};
ghost use Rattle.pair_questions.specs.Orders.{IsOrder};

use bv_terms::{TermId, Terms};
use support::NoMemory;

/// A new variable, which comes after the others.
pub fn variable(terms: &mut Terms, order: &mut Vec<TermId>, width: u32) -> Result<TermId, NoMemory>
    requires { IsWidth width }
    ensures added { IfOk result (λ id. order.new.items ≡ order.old.items ++ id ∷ []) }
    ensures order { OnOk result ((widths : List ℕ) → IsOrder terms.old order.old.items widths → IsOrder terms.new order.new.items (widths ++ width ∷ [])) }
    ensures term { IfOk result (IsTerm terms.new width) }
    ensures kept { Extends terms.old terms.new }
{
    let id = terms.variable(order.len() as u64, width)?;
    order.push(id)?;
    Ok(id)
}
