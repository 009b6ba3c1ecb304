//! The phis of a block, on an edge to it (LLVM Language Reference, "phi Instruction").

ghost use Rattle.std.specs.Prelude.{◌≡◌, ℕ, IfOk, length, nat_eq};
ghost use Rattle.std.specs.List.{find};
ghost use Rattle.points.specs.Run.{entry_value, phi_value, with_phis};
ghost use Rattle.run_terms.specs.Common.{Machine, Keeps, AreSymValues, IsNaming, IsSymValue, Reading, value_at, values_at};

use crate::operands::{operand_of, typed};
use crate::state::assign;
use bv_terms::Terms;
use ir_tree::{Phi, PhiEntry};
use mem_terms::{SymValue, poison_value};
use std::alloc::Global;
use support::{NoMemory, Sequence};

fn entry_from(entries: &[PhiEntry], from: usize) -> Option<PhiEntry>
    ensures { result ≡ find (λ e. nat_eq e.from from) entries.now }
{
    entries.iter().copied().find(|entry| entry.from == from)
}

/// The value of the entry for the block that is left, which has this label.
fn entry_value(
    terms: &mut Terms,
    registers: &[SymValue],
    label: usize,
    entries: &[PhiEntry],
) -> Result<SymValue, NoMemory>
    requires { AreSymValues terms.old registers.now }
    ensures made { IfOk result (IsSymValue terms.new) }
    ensures stands { IfOk result (λ s. (r : Reading) (m : Machine) → IsNaming r.name → values_at r terms.old registers.now ≡ m.registers → m.block ≡ label → value_at r terms.new s ≡ entry_value m entries.now) }
    ensures kept { Keeps terms.old terms.new }
{
    match entry_from(entries, label) {
        Some(entry) => {
            let value = operand_of(terms, registers, entry.operand)?;
            Ok(value)
        }
        None => {
            let value = poison_value(terms)?;
            Ok(value)
        }
    }
}

fn phi_value(
    terms: &mut Terms,
    registers: &[SymValue],
    label: usize,
    phi: &Phi,
) -> Result<SymValue, NoMemory>
    requires { AreSymValues terms.old registers.now }
    ensures made { IfOk result (IsSymValue terms.new) }
    ensures stands { IfOk result (λ s. (r : Reading) (m : Machine) → IsNaming r.name → values_at r terms.old registers.now ≡ m.registers → m.block ≡ label → value_at r terms.new s ≡ phi_value m phi.now) }
    ensures kept { Keeps terms.old terms.new }
{
    let entry = entry_value(terms, registers, label, phi.entries.as_slice())?;
    let value = typed(terms, phi.of_type, entry)?;
    Ok(value)
}

/// The registers after the phis of a block that is entered from the one with this label. All phis
/// read the registers before them.
pub fn registers_after(
    alloc: Global,
    terms: &mut Terms,
    registers: &[SymValue],
    label: usize,
    phis: &[Phi],
) -> Result<Sequence<SymValue>, NoMemory>
    requires { AreSymValues terms.old registers.now }
    ensures made { IfOk result (AreSymValues terms.new) }
    ensures count { IfOk result (λ after. length after ≡ length registers.now) }
    ensures stands { IfOk result (λ after. (r : Reading) (m : Machine) → IsNaming r.name → values_at r terms.old registers.now ≡ m.registers → m.block ≡ label → record m { registers = values_at r terms.new after } ≡ with_phis m phis.now m) }
    ensures kept { Keeps terms.old terms.new }
{
    let mut after = Sequence::from_vec(registers.to_vec(alloc)?);
    for phi in phis {
        let value = phi_value(terms, registers, label, phi)?;
        assign(&mut after, phi.into, value);
    }
    Ok(after)
}
