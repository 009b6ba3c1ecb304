//! Selections (LLVM Language Reference, "select Instruction").

ghost use Rattle.std.specs.Prelude.{◌≡◌, IfOk};
ghost use Rattle.bv_terms.specs.Trees.{Keeps};
ghost use Rattle.points.specs.Table.{selected};
ghost use Rattle.mem_terms.specs.Values.{IsSymNumber, IsSymValue, Reading, number_at, value_at};

use bv_terms::Terms;
use mem_terms::{SymNumber, SymValue, either, pick_value};
use support::NoMemory;
use term_rules::extract;

/// The value of either kind that the condition's lowest bit chooses, and poison where the condition
/// is; the other value has no effect. The only error is out of memory, and the terms that were
/// there stay.
pub fn select(
    terms: &mut Terms,
    condition: SymNumber,
    if_true: SymValue,
    if_false: SymValue,
) -> Result<SymValue, NoMemory>
    requires condition { IsSymNumber terms.old condition }
    requires if_true { IsSymValue terms.old if_true }
    requires if_false { IsSymValue terms.old if_false }
    ensures made { IfOk result (IsSymValue terms.new) }
    ensures stands { IfOk result (λ s. (r : Reading) → value_at r terms.new s ≡ selected (number_at r.v terms.old condition) (value_at r terms.old if_true) (value_at r terms.old if_false)) }
    ensures kept { Keeps terms.old terms.new }
{
    let lowest = extract(terms, condition.number, 0, 1)?;
    let chosen = pick_value(terms, lowest, if_true, if_false)?;
    let poison = either(terms, condition.poison, chosen.poison)?;
    Ok(SymValue {
        poison,
        is_pointer: chosen.is_pointer,
        block: chosen.block,
        number: chosen.number,
    })
}
