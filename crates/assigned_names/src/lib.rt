//! Whether each name of a function has its value where it is used.
//!
//! It promises that a function is accepted exactly where no path from the entry reaches a use
//! without its name's definition, by the rule of `ir_tree`'s `specs/WellFormed.antt`, and that
//! otherwise the refusal reports the first use that some path reaches so. So each use in an
//! unreachable block is accepted, and an operand of a phi is used at the end of the block that it
//! comes from. The rule is that of the LLVM Language Reference, "Well-Formedness": a definition
//! must dominate its uses. It uses `ir_tree`, `definite_assignment`, which finds the names that
//! every path assigns, and `ir_check`, whose checks come first; the reader of functions uses it.
#![tactic(auto)]

ghost use Rattle.std.specs.Prelude.{◌≡◌, ◌<◌, ◌↔◌, IsTrue, length, OnOk, IfErr, IfOk};
ghost use Rattle.ir_tree.specs.declared.module.Reason.TheVariants.{Unassigned};
ghost use Rattle.ir_tree.specs.Sites.{AreNumbered, sites, parts};
ghost use Rattle.ir_tree.specs.Definitions.{HasFirsts};
ghost use Rattle.ir_tree.specs.WellFormed.{Passes, PassesNames, IfRefused};
ghost use Rattle.ir_check.specs.Told.{IsToldAt};
ghost use Rattle.assigned_names.specs.Known.{AreBefore};

mod assigning;
mod definers;
mod uses;

use assigning::assigns_of;
use definite_assignment::{NameSets, assigned_before};
use ir_tree::{
    CheckFault, Function, Reason, SiteList, first_definitions, refusal_at, sites_of, successors,
};
use std::alloc::Global;
use support::NoMemory;
use uses::first_unassigned;

/// Accepts a function in which each path from the entry to a use of a name assigns that name (LLVM
/// Language Reference, "Well-Formedness").
///
/// # Errors
/// Refused with `Unassigned` at the first use for which this fails.
pub fn check_assigned(alloc: Global, f: &Function) -> Result<(), CheckFault>
    requires numbered { AreNumbered f.now }
    requires names { PassesNames f.now }
    ensures passes { OnOk result (Passes Unassigned f.now) }
    ensures refused { IfErr result (IfRefused (IsToldAt Unassigned f.now)) }
{
    let list = sites_of(alloc, f)?;
    let firsts = first_definitions(alloc, list.all.as_slice(), f.names.len())?;
    check_assigned_with(alloc, f, &list, firsts.as_slice())
}

/// Answers as [`check_assigned`], from the sites of the function and the first definition of each
/// name.
pub fn check_assigned_with(
    alloc: Global,
    f: &Function,
    list: &SiteList,
    firsts: &[Option<usize>],
) -> Result<(), CheckFault>
    requires numbered { AreNumbered f.now }
    requires names { PassesNames f.now }
    requires sites { list.now.all ≡ sites f.now }
    requires parts { list.now.parts ≡ parts f.now }
    requires alike { length list.now.parts ≡ length list.now.all }
    requires len { length firsts.now ≡ length f.now.names }
    requires firsts { HasFirsts list.now.all firsts.now }
    ensures passes { OnOk result (Passes Unassigned f.now) }
    ensures refused { IfErr result (IfRefused (IsToldAt Unassigned f.now)) }
{
    let before = names_before(alloc, f)?;
    match first_unassigned(f, list, firsts, &before) {
        Some(site) => Err(CheckFault::Refused(refusal_at(f, Reason::Unassigned, site))),
        None => Ok(()),
    }
}

// For each block the names that every path before it assigns.
fn names_before(alloc: Global, f: &Function) -> Result<NameSets, NoMemory>
    requires numbered { AreNumbered f.now }
    requires names { PassesNames f.now }
    ensures { IfOk result (λ sets. AreBefore f.now sets) }
{
    let successors = successors(alloc, f)?;
    let assigns = assigns_of(alloc, f)?;
    let sets = assigned_before(
        alloc,
        successors.as_slice(),
        assigns.as_slice(),
        f.names.len(),
    )?;
    Ok(sets)
}
