//! Which names the phis read where a block is left.

ghost use Rattle.std.specs.Prelude.{IfOk, IfSome, IsTrue, OnOk};
ghost use Rattle.std.specs.List.{AllByRecursion};
ghost use Rattle.register_slots.specs.PhiReads.{Grows, IsReadNoted, IsEntryNoted, IsPhiNoted, IsBlockNoted};

use crate::rows::{empty_rows, push_at};
use ir_tree::{Function, Operand, Phi, PhiEntry};
use std::alloc::Global;
use support::{NoMemory, Sequence};

fn note_read(
    rows: &mut Sequence<Sequence<usize>>,
    from: usize,
    operand: Operand,
) -> Result<bool, NoMemory>
    ensures grows { OnOk result (Grows rows.old rows.new) }
    ensures noted { IfOk result (λ yes. IsTrue yes → IsReadNoted rows.new from operand) }
{
    match operand {
        Operand::Local(name) => push_at(rows, from, name),
        Operand::Number(_) | Operand::Null | Operand::Poison | Operand::Undef => Ok(true),
    }
}

fn note_entries(
    rows: &mut Sequence<Sequence<usize>>,
    entries: &[PhiEntry],
) -> Result<bool, NoMemory>
    ensures grows { OnOk result (Grows rows.old rows.new) }
    ensures noted { IfOk result (λ yes. IsTrue yes → AllByRecursion (IsEntryNoted rows.new) entries.now) }
{
    for entry in entries {
        if !note_read(rows, entry.from, entry.operand)? {
            return Ok(false);
        }
    }
    Ok(true)
}

fn note_phis(rows: &mut Sequence<Sequence<usize>>, phis: &[Phi]) -> Result<bool, NoMemory>
    ensures grows { OnOk result (Grows rows.old rows.new) }
    ensures noted { IfOk result (λ yes. IsTrue yes → AllByRecursion (IsPhiNoted rows.new) phis.now) }
{
    for phi in phis {
        if !note_entries(rows, phi.entries.as_slice())? {
            return Ok(false);
        }
    }
    Ok(true)
}

/// For each label the names that phis read where its block is left; none where an entry comes from no
/// label of the function. A block that is left reads only its own row, so no entry is searched for.
pub fn phi_reads(alloc: Global, f: &Function) -> Result<Option<Sequence<Sequence<usize>>>, NoMemory>
    ensures { IfOk result (λ reads. IfSome reads (λ rows. AllByRecursion (IsBlockNoted rows) f.now.blocks)) }
{
    let mut rows = empty_rows(alloc, f.names.len())?;
    let blocks = f.blocks.as_slice();
    for block in blocks {
        if !note_phis(&mut rows, block.phis.as_slice())? {
            return Ok(None);
        }
    }
    Ok(Some(rows))
}
