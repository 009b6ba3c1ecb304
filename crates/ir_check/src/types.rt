ghost use Rattle.std.specs.Prelude.{◌≡◌, ◌<◌, ◌↔◌, IsTrue, ℕ, length, false, OnOk, IfErr, IsSomeAnd};
ghost use Rattle.ir_tree.specs.declared.module.Reason.TheVariants.{TypeClash};
ghost use Rattle.ir_tree.specs.Sites.{AreNumbered, is_same_type, sites};
ghost use Rattle.ir_tree.specs.WellFormed.{Passes, PassesNames, IfRefused, IsFirstFailure, DefinesAgain, ClashesType};
ghost use Rattle.ir_tree.specs.Definitions.{HasFirsts};
ghost use Rattle.ir_check.specs.Told.{IsToldAt};

use crate::values::value_type;
use ir_tree::{
    CheckFault, Function, IrType, Reason, Site, SiteList, first_definitions, is_same_type,
    refusal_at, sites_of,
};
use std::alloc::Global;

/// Accepts a function in which each type and each literal is allowed where it is written, and each
/// name is used at the type of its value: the widths of a cast are in its order, the arms of a
/// `select` have the same type, the cases of a `switch` have its type and differ, and what a `ret`
/// gives has the type of the header (LLVM Language Reference, "Conversion Operations", "select
/// Instruction", "switch Instruction", "ret Instruction").
///
/// # Errors
/// Refused with `TypeClash` at the first site where this fails.
pub fn check_types(alloc: Global, f: &Function) -> Result<(), CheckFault>
    requires numbered { AreNumbered f.now }
    requires names { PassesNames f.now }
    ensures passes { OnOk result (Passes TypeClash f.now) }
    ensures refused { IfErr result (IfRefused (IsToldAt TypeClash f.now)) }
{
    let list = sites_of(alloc, f)?;
    let firsts = first_definitions(alloc, list.all.as_slice(), f.names.len())?;
    check_types_with(f, &list, firsts.as_slice())
}

/// Answers as [`check_types`], from the sites of the function and the first definition of each name.
pub fn check_types_with(
    f: &Function,
    list: &SiteList,
    firsts: &[Option<usize>],
) -> Result<(), CheckFault>
    requires names { PassesNames f.now }
    requires sites { list.now.all ≡ sites f.now }
    requires firsts { HasFirsts list.now.all firsts.now }
    ensures passes { OnOk result (Passes TypeClash f.now) }
    ensures refused { IfErr result (IfRefused (IsToldAt TypeClash f.now)) }
{
    match first_clash(list.all.as_slice(), firsts) {
        Some(site) => Err(CheckFault::Refused(refusal_at(f, Reason::TypeClash, site))),
        None => Ok(()),
    }
}

// The first site where a type is not the required one.
fn first_clash(sites: &[Site], firsts: &[Option<usize>]) -> Option<usize>
    requires firsts { HasFirsts sites.now firsts.now }
    requires once { (n : ℕ) → DefinesAgain sites.now n → ⊥ }
    ensures { IsFirstFailure (ClashesType sites.now) result }
{
    for n in 0..sites.len() {
        if clashes(sites, firsts, n) {
            return Some(n);
        }
    }
    None
}

fn clashes(sites: &[Site], firsts: &[Option<usize>], n: usize) -> bool
    requires firsts { HasFirsts sites.now firsts.now }
    requires once { (n : ℕ) → DefinesAgain sites.now n → ⊥ }
    requires within { n < length sites.now }
    ensures { IsTrue result ↔ ClashesType sites.now n }
{
    match sites[n] {
        Site::Defines { .. } | Site::Enters { .. } => false,
        Site::Uses { of_type, name } => is_other(value_type(sites, firsts, name), of_type),
        Site::Written { fits } => !fits,
    }
}

// Whether a value has another type than this.
fn is_other(value: Option<IrType>, of_type: IrType) -> bool
    ensures { IsTrue result ↔ IsSomeAnd value (λ type. is_same_type type of_type ≡ false) }
{
    match value {
        Some(value) => !is_same_type(value, of_type),
        None => false,
    }
}
