//! Questions in numbers.

ghost use Rattle.std.specs.Prelude.{[], ◌≡◌, ◌<◌, All, IfOk, IfSome, length, map};
ghost use Rattle.bv_terms.specs.declared.term.TermId.{TermId};
ghost use Rattle.bv_terms.specs.Tree.{width_of};
ghost use Rattle.bv_terms.specs.Trees.{AreFit, IsTerm, tree_in};
ghost use Rattle.answer_order.specs.Fronts.{AreWidths};
ghost use Rattle.pair_questions.specs.Numbers.{IsFoundNumbers, number_test};
ghost use Rattle.pair_questions.specs.Orders.{IsOrder};

use crate::found::Found;
use answer_order::numbers_of;
use bv_terms::{TermId, Terms};
use sat_ask::{Asked, ask};
use std::alloc::Global;
use support::{NoMemory, Sequence};

/// How many bits each of these terms has.
pub fn widths_of(alloc: Global, terms: &Terms, ids: &[TermId]) -> Result<Vec<u32>, NoMemory>
    requires { All (λ (id : TermId). id.index < length terms.now) ids.now }
    ensures widths { IfOk result (λ widths. widths.items ≡ map (λ (id : TermId). width_of (tree_in terms.now id)) ids.now) }
    ensures fit { AreFit [] terms.now }
{
    terms.as_slice();
    let mut widths = Vec::new(alloc);
    for id in ids {
        widths.push(terms.width(*id))?;
    }
    Ok(widths)
}

/// The least numbers that make the goal true, one for each variable of the order, which has all
/// variables of the terms, with these widths, each at most 64 bits.
pub fn least_numbers(
    alloc: Global,
    terms: &Terms,
    goal: TermId,
    order: &[TermId],
    widths: &[u32],
    limit: Option<u64>,
) -> Result<Found<Sequence<u64>>, NoMemory>
    requires goal { IsTerm terms.now 1 goal }
    requires order { IsOrder terms.now order.now widths.now }
    requires widths { AreWidths widths.now }
    requires limit { IfSome limit (λ n. 0 < n) }
    ensures { IfOk result (IsFoundNumbers (number_test terms.now goal) widths.now limit) }
{
    terms.as_slice();
    match ask(alloc, terms, goal, order, limit)? {
        Asked::Least(digits) => {
            let numbers = numbers_of(alloc, widths, digits.as_slice())?;
            Ok(Found::Least(Sequence::from_vec(numbers)))
        }
        Asked::None(cert) => Ok(Found::None(cert)),
        Asked::Spent(cert) => Ok(Found::Spent(cert)),
    }
}
