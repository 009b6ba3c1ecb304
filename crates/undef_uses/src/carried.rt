//! For each name of a function the operands whose undef it carries.

ghost use Rattle.std.specs.Prelude.{◌≡◌, ◌<◌, ◌∷◌, ◌++◌, ℕ, List, length, IfOk};
ghost use Rattle.std.specs.List.{Contains};
ghost use Rattle.ir_tree.specs.declared.tree.Inst.{Inst};
ghost use Rattle.ir_tree.specs.declared.tree.Operand.TheVariants.{Poison};
ghost use Rattle.ir_tree.specs.Carrying.{insts_of};
ghost use Rattle.ir_tree.specs.Flow.{results_of};
ghost use Rattle.ir_tree.specs.Sites.{AreNumbered};
ghost use Rattle.undef_uses.specs.Counts.{AreCarried, HasResultsBelow, carried_in, nothing};

use ir_tree::{Function, Inst, Operand, result_of};
use std::alloc::Global;
use support::NoMemory;

/// The operands whose undef a name carries. Where there are fewer than three, the others are poison.
#[derive(Clone, Copy)]
pub struct Carried {
    pub first: Operand,
    pub second: Operand,
    pub third: Operand,
}

/// For each name the operands whose undef it carries, those of the first instruction that makes it.
pub fn carried_of(alloc: Global, f: &Function) -> Result<Vec<Carried>, NoMemory>
    requires { AreNumbered f.now }
    ensures len { IfOk result (λ table. length table.items ≡ length f.now.names) }
    ensures carried { IfOk result (λ table. AreCarried (insts_of f.now) table.items) }
{
    let mut table = vec![in alloc; nothing(); f.names.len()]?;
    let blocks = f.blocks.as_slice();
    for place in (0..blocks.len()).rev() {
        note_all(&mut table, blocks[place].insts.as_slice());
    }
    Ok(table)
}

// What a name carries that no instruction makes.
fn nothing() -> Carried
    ensures { result ≡ nothing }
{
    Carried {
        first: Operand::Poison,
        second: Operand::Poison,
        third: Operand::Poison,
    }
}

// Puts these instructions before those that the table has.
fn note_all(table: &mut [Carried], insts: &[Inst])
    requires { HasResultsBelow (length table.old) insts.now }
    ensures { (rest : List Inst) → AreCarried rest table.old → AreCarried (insts.now ++ rest) table.new }
{
    for place in (0..insts.len()).rev() {
        note(table, &insts[place]);
    }
}

fn note(table: &mut [Carried], inst: &Inst)
    requires { (name : ℕ) → Contains (results_of inst.now) name → name < length table.old }
    ensures { (rest : List Inst) → AreCarried rest table.old → AreCarried (inst.now ∷ rest) table.new }
{
    if let Some(into) = result_of(inst) {
        table[into] = carried_in(inst);
    }
}

// The operands whose undef the result of an instruction carries.
fn carried_in(inst: &Inst) -> Carried
    ensures { result ≡ carried_in inst.now }
{
    match inst {
        Inst::Binary { left, right, .. } => pair(*left, *right),
        Inst::Icmp { left, right, .. } => pair(*left, *right),
        Inst::Cast { operand, .. } => pair(*operand, Operand::Poison),
        Inst::Select {
            condition,
            if_true,
            if_false,
            ..
        } => Carried {
            first: *condition,
            second: if_true.operand,
            third: if_false.operand,
        },
        Inst::Freeze { .. } | Inst::Alloca { .. } | Inst::Load { .. } => nothing(),
        Inst::Store { .. } | Inst::GetElementPtr { .. } => nothing(),
    }
}

fn pair(first: Operand, second: Operand) -> Carried
    ensures { result ≡ record { first = first; second = second; third = Poison } }
{
    Carried {
        first,
        second,
        third: Operand::Poison,
    }
}
