ghost use Rattle.std.specs.Prelude.{◌≡◌, ◌⊎◌, ◌↔◌, ◌<◌, ◌++◌, ◌∷◌, [], ℕ, List, IsTrue, true, false, length, slice_get, slice_index_or, Some, OnOk, IfErr};
ghost use Rattle.std.specs.List.{All, list_any};
ghost use Rattle.ir_tree.specs.declared.tree.IrType.{IrType};
ghost use Rattle.ir_tree.specs.declared.tree.PhiEntry.{PhiEntry};
ghost use Rattle.ir_tree.specs.declared.tree.Block.{Block};
ghost use Rattle.ir_tree.specs.declared.module.Reason.TheVariants.{PhiEdges};
ghost use Rattle.ir_tree.specs.Sites.{AreNumbered, sites, parts};
ghost use Rattle.ir_tree.specs.WellFormed.{Passes, PassesNames, IfRefused, IsFirstFailure, HasWrongEdge, is_same_operand};
ghost use Rattle.ir_check.specs.declared.marks.Mark.TheVariants.{Stranger};
ghost use Rattle.ir_check.specs.Told.{IsToldAt};
ghost use Rattle.ir_check.specs.Marks.{ArePredecessors, AreMarked, HasUnfitEntry, IsUnfit, IsUnfitAt, IsUnfitEntry, is_awaited};

use crate::marks::{Mark, Marks, is_awaited};
use crate::predecessors::predecessors_of;
use ir_tree::{
    CheckFault, Function, IrType, Operand, Part, Phi, PhiEntry, Reason, Site, SiteList, refusal_at,
    sites_of,
};
use std::alloc::Global;
use support::Sequence;
use tv_num::wrap;

/// Accepts a function in which the blocks of each phi are, as a set, those that may be left for its
/// own, entries of one block have one operand, and no jump leads to the entry (LLVM Language
/// Reference, "phi Instruction", "Functions").
///
/// # Errors
/// Refused with `PhiEdges` at the first site where this fails: a phi's result, or the label in a
/// jump.
pub fn check_edges(alloc: Global, f: &Function) -> Result<(), CheckFault>
    requires numbered { AreNumbered f.now }
    requires names { PassesNames f.now }
    ensures passes { OnOk result (Passes PhiEdges f.now) }
    ensures refused { IfErr result (IfRefused (IsToldAt PhiEdges f.now)) }
{
    let list = sites_of(alloc, f)?;
    check_edges_with(alloc, f, &list)
}

/// Answers as [`check_edges`], from the sites of the function.
pub fn check_edges_with(alloc: Global, f: &Function, list: &SiteList) -> Result<(), CheckFault>
    requires numbered { AreNumbered f.now }
    requires names { PassesNames f.now }
    requires sites { list.now.all ≡ sites f.now }
    requires parts { list.now.parts ≡ parts f.now }
    requires alike { length list.now.parts ≡ length list.now.all }
    ensures passes { OnOk result (Passes PhiEdges f.now) }
    ensures refused { IfErr result (IfRefused (IsToldAt PhiEdges f.now)) }
{
    let predecessors = predecessors_of(alloc, f)?;
    let mut marks = Marks::new(alloc, f.names.len())?;
    match first_wrong(f, list, predecessors.as_slice(), &mut marks) {
        Some(site) => Err(CheckFault::Refused(refusal_at(f, Reason::PhiEdges, site))),
        None => Ok(()),
    }
}

// The first site of a wrong edge.
fn first_wrong(
    f: &Function,
    list: &SiteList,
    predecessors: &[Sequence<usize>],
    marks: &mut Marks,
) -> Option<usize>
    requires numbered { AreNumbered f.now }
    requires all { list.now.all ≡ sites f.now }
    requires parts { list.now.parts ≡ parts f.now }
    requires alike { length list.now.parts ≡ length list.now.all }
    requires len { length predecessors.now ≡ length f.now.names }
    requires each { ArePredecessors f.now.blocks predecessors.now }
    requires marks { length marks.old ≡ length f.now.names }
    ensures { IsFirstFailure (HasWrongEdge f.now) result }
{
    for n in 0..list.all.len() {
        if has_wrong_edge(f, list, predecessors, marks, n) {
            return Some(n);
        }
    }
    None
}

fn has_wrong_edge(
    f: &Function,
    list: &SiteList,
    predecessors: &[Sequence<usize>],
    marks: &mut Marks,
    n: usize,
) -> bool
    requires numbered { AreNumbered f.now }
    requires all { list.now.all ≡ sites f.now }
    requires parts { list.now.parts ≡ parts f.now }
    requires alike { length list.now.parts ≡ length list.now.all }
    requires within { n < length list.now.all }
    requires len { length predecessors.now ≡ length f.now.names }
    requires each { ArePredecessors f.now.blocks predecessors.now }
    requires marks { length marks.old ≡ length f.now.names }
    ensures wrong { IsTrue result ↔ HasWrongEdge f.now n }
    ensures marks { length marks.new ≡ length marks.old }
{
    match (*list.all.get(n), *list.parts.get(n)) {
        (Site::Defines { .. }, Part::Phi { block, phi }) => {
            is_unfit_at(f, predecessors, marks, block, phi)
        }
        (Site::Enters { name }, Part::End { .. }) => is_entry(f, name),
        _ => false,
    }
}

// Whether the entry has this label.
fn is_entry(f: &Function, name: usize) -> bool
    ensures { IsTrue result ↔ ((entry : Block) × (slice_get f.now.blocks 0 ≡ Some entry) × (name ≡ entry.label)) }
{
    match f.blocks.as_slice().get(0) {
        Some(entry) => name == entry.label,
        None => false,
    }
}

// Whether the block has such a phi, and that doesn't fit the block's predecessors.
fn is_unfit_at(
    f: &Function,
    predecessors: &[Sequence<usize>],
    marks: &mut Marks,
    block: usize,
    phi: usize,
) -> bool
    requires numbered { AreNumbered f.now }
    requires len { length predecessors.now ≡ length f.now.names }
    requires each { ArePredecessors f.now.blocks predecessors.now }
    requires marks { length marks.old ≡ length f.now.names }
    ensures unfit { IsTrue result ↔ IsUnfitAt f.now block phi }
    ensures marks { length marks.new ≡ length marks.old }
{
    let Some(holder) = f.blocks.as_slice().get(block) else {
        return false;
    };
    let Some(phi) = holder.phis.as_slice().get(phi) else {
        return false;
    };
    is_unfit(marks, predecessors[holder.label].as_slice(), phi)
}

// Whether the phi's blocks aren't these predecessors, or one of them has two operands.
fn is_unfit(marks: &mut Marks, predecessors: &[usize], phi: &Phi) -> bool
    requires within { All (λ label. label < length marks.old) predecessors.now }
    ensures unfit { IsTrue result ↔ IsUnfit predecessors.now phi.now }
    ensures marks { length marks.new ≡ length marks.old }
{
    await_all(marks, predecessors);
    if !meet_all(marks, phi.of_type, phi.entries.as_slice()) {
        return true;
    }
    has_awaited(marks, predecessors)
}

// Begins with the predecessors, before an entry was seen.
fn await_all(marks: &mut Marks, predecessors: &[usize])
    requires within { All (λ label. label < length marks.old) predecessors.now }
    ensures marked { (of_type : IrType) → AreMarked predecessors.now of_type [] marks.new }
    ensures marks { length marks.new ≡ length marks.old }
{
    marks.clear();
    for label in predecessors {
        marks.set(*label, Mark::Awaited);
    }
}

// Whether each entry comes from a predecessor, and with the operand of those from there before it.
fn meet_all(marks: &mut Marks, of_type: IrType, entries: &[PhiEntry]) -> bool
    ensures fit { result ≡ true → (predecessors : List ℕ) → AreMarked predecessors of_type [] marks.old → AreMarked predecessors of_type entries.now marks.new }
    ensures unfit { result ≡ false → (predecessors : List ℕ) → AreMarked predecessors of_type [] marks.old → HasUnfitEntry predecessors of_type entries.now }
    ensures marks { length marks.new ≡ length marks.old }
{
    for entry in entries {
        if !meet(marks, of_type, *entry) {
            return false;
        }
    }
    true
}

// Whether an entry comes from a predecessor, and with the operand of those from there before it.
fn meet(marks: &mut Marks, of_type: IrType, entry: PhiEntry) -> bool
    ensures fits { result ≡ true → (predecessors : List ℕ) (seen : List PhiEntry) → AreMarked predecessors of_type seen marks.old → AreMarked predecessors of_type (seen ++ entry ∷ []) marks.new }
    ensures unfit { result ≡ false → (predecessors : List ℕ) (seen : List PhiEntry) → AreMarked predecessors of_type seen marks.old → IsUnfitEntry predecessors of_type seen entry }
    ensures marks { length marks.new ≡ length marks.old }
{
    match marks.get(entry.from) {
        Mark::Stranger => false,
        Mark::Awaited => {
            marks.set(entry.from, Mark::Given(entry.operand));
            true
        }
        Mark::Given(operand) => is_same_operand(of_type, operand, entry.operand),
    }
}

// Whether no entry came from one of the predecessors.
fn has_awaited(marks: &Marks, predecessors: &[usize]) -> bool
    ensures { result ≡ list_any (λ label. is_awaited (slice_index_or marks.now label Stranger)) predecessors.now }
{
    predecessors
        .iter()
        .any(|label| is_awaited(marks.get(*label)))
}

// Whether both operands are the same: literals are compared as numbers of their type.
fn is_same_operand(of_type: IrType, a: Operand, b: Operand) -> bool
    ensures { result ≡ is_same_operand of_type a b }
{
    match (a, b) {
        (Operand::Local(a), Operand::Local(b)) => a == b,
        (Operand::Number(a), Operand::Number(b)) => is_same_number(of_type, a, b),
        (Operand::Null, Operand::Null) => true,
        (Operand::Poison, Operand::Poison) => true,
        (Operand::Undef, Operand::Undef) => true,
        _ => false,
    }
}

fn is_same_number(of_type: IrType, a: u64, b: u64) -> bool
    ensures { result ≡ is_same_operand of_type (Operand.Number a) (Operand.Number b) }
{
    match of_type {
        IrType::Int(width) => wrap(a as u128, width) == wrap(b as u128, width),
        IrType::Ptr => a == b,
    }
}
