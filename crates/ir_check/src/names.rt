ghost use Rattle.std.specs.Prelude.{◌≡◌, ◌<◌, ◌↔◌, IsTrue, ℕ, length, OnOk, IfErr};
ghost use Rattle.ir_tree.specs.Sites.{AreNumbered, sites};
ghost use Rattle.ir_tree.specs.WellFormed.{PassesNames, IfRefused, IsFirstFailure, DefinesAgain, UsesUnknown};
ghost use Rattle.ir_tree.specs.Definitions.{HasFirsts};
ghost use Rattle.ir_check.specs.Told.{AreNamesToldAt};

use crate::values::{is_label, value_type};
use ir_tree::{
    CheckFault, Function, Reason, Site, SiteList, first_definitions, is_defined_before, refusal_at,
    sites_of,
};
use std::alloc::Global;

/// Accepts a function in which no name is defined twice, each name that is used as a value gets
/// one, and each that is used as a block is a block's label (LLVM Language Reference,
/// "Identifiers", "Functions").
///
/// # Errors
/// Refused with `NameTwice` at the second definition of a name, the first in the text; where there
/// is none, with `NameUnknown` at the first use of a name as a value that nothing gives one, or as a
/// block where no block has it.
pub fn check_names(alloc: Global, f: &Function) -> Result<(), CheckFault>
    requires numbered { AreNumbered f.now }
    ensures passes { OnOk result (PassesNames f.now) }
    ensures refused { IfErr result (IfRefused (AreNamesToldAt f.now)) }
{
    let list = sites_of(alloc, f)?;
    let firsts = first_definitions(alloc, list.all.as_slice(), f.names.len())?;
    check_names_with(f, &list, firsts.as_slice())
}

/// Answers as [`check_names`], from the sites of the function and the first definition of each name,
/// which the checks of types and of assignments take too.
pub fn check_names_with(
    f: &Function,
    list: &SiteList,
    firsts: &[Option<usize>],
) -> Result<(), CheckFault>
    requires sites { list.now.all ≡ sites f.now }
    requires firsts { HasFirsts list.now.all firsts.now }
    ensures passes { OnOk result (PassesNames f.now) }
    ensures refused { IfErr result (IfRefused (AreNamesToldAt f.now)) }
{
    let sites = list.all.as_slice();
    if let Some(site) = first_again(sites, firsts) {
        return Err(CheckFault::Refused(refusal_at(f, Reason::NameTwice, site)));
    }
    if let Some(site) = first_unknown(sites, firsts) {
        return Err(CheckFault::Refused(refusal_at(f, Reason::NameUnknown, site)));
    }
    Ok(())
}

// The first site that defines a name again.
fn first_again(sites: &[Site], firsts: &[Option<usize>]) -> Option<usize>
    requires { HasFirsts sites.now firsts.now }
    ensures { IsFirstFailure (DefinesAgain sites.now) result }
{
    for n in 0..sites.len() {
        if defines_again(sites, firsts, n) {
            return Some(n);
        }
    }
    None
}

fn defines_again(sites: &[Site], firsts: &[Option<usize>], n: usize) -> bool
    requires firsts { HasFirsts sites.now firsts.now }
    requires within { n < length sites.now }
    ensures { IsTrue result ↔ DefinesAgain sites.now n }
{
    match sites[n] {
        Site::Defines { of_type: _, name } => is_defined_before(firsts, name, n),
        Site::Uses { .. } | Site::Enters { .. } | Site::Written { .. } => false,
    }
}

// The first site that uses a name as what it isn't.
fn first_unknown(sites: &[Site], firsts: &[Option<usize>]) -> Option<usize>
    requires firsts { HasFirsts sites.now firsts.now }
    requires once { (n : ℕ) → DefinesAgain sites.now n → ⊥ }
    ensures { IsFirstFailure (UsesUnknown sites.now) result }
{
    for n in 0..sites.len() {
        if uses_unknown(sites, firsts, n) {
            return Some(n);
        }
    }
    None
}

fn uses_unknown(sites: &[Site], firsts: &[Option<usize>], n: usize) -> bool
    requires firsts { HasFirsts sites.now firsts.now }
    requires once { (n : ℕ) → DefinesAgain sites.now n → ⊥ }
    requires within { n < length sites.now }
    ensures { IsTrue result ↔ UsesUnknown sites.now n }
{
    match sites[n] {
        Site::Uses { of_type: _, name } => value_type(sites, firsts, name).is_none(),
        Site::Enters { name } => !is_label(sites, firsts, name),
        Site::Defines { .. } | Site::Written { .. } => false,
    }
}
