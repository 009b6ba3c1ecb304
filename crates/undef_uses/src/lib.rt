//! Whether names that carry undef are used only where they may be.
//!
//! It promises that a function is accepted exactly where no use that may not carry undef does, and no
//! name has more than 64 undef leaves, by the rule of `ir_tree`'s `specs/Carrying.antt`, and that
//! otherwise the refusal reports the first use or name for which this fails. Each use of undef may be
//! another value (LLVM Language Reference, "Undefined Values"), and so may each use of a register that
//! an operation makes from it. It uses `ir_tree`, and `ir_check`, whose checks come first; the reader
//! of functions uses it, and `lowering` the counts of leaves.
#![tactic(auto)]

ghost use Rattle.std.specs.Prelude.{OnOk, IfErr};
ghost use Rattle.ir_tree.specs.declared.module.Reason.TheVariants.{UndefUse};
ghost use Rattle.ir_tree.specs.Sites.{AreNumbered};
ghost use Rattle.ir_tree.specs.WellFormed.{Passes, IfRefused};
ghost use Rattle.ir_check.specs.Told.{IsToldAt};

mod carried;
mod counting;
mod users;
mod uses;

pub use counting::leaf_counts;
use ir_tree::{CheckFault, Function, Reason, refusal_at, sites_of};
use std::alloc::Global;
use uses::first_undef_use;

/// Accepts a function in which no name that carries undef is used where none may be (LLVM Language
/// Reference, "Undefined Values"), and no name carries more than 64 leaves. It counts the leaves of
/// each name once, and looks at an instruction again only when the count of one of its operands rose,
/// at most 65 times for each operand.
///
/// # Errors
/// Refused with `UndefUse` at the first use or result for which this fails.
pub fn check_undef(alloc: Global, f: &Function) -> Result<(), CheckFault>
    requires { AreNumbered f.now }
    ensures passes { OnOk result (Passes UndefUse f.now) }
    ensures refused { IfErr result (IfRefused (IsToldAt UndefUse f.now)) }
{
    let counts = leaf_counts(alloc, f)?;
    if counts.iter().all(|count| *count == 0) {
        return Ok(());
    }
    let list = sites_of(alloc, f)?;
    match first_undef_use(f, &list, &counts) {
        Some(site) => Err(CheckFault::Refused(refusal_at(f, Reason::UndefUse, site))),
        None => Ok(()),
    }
}
