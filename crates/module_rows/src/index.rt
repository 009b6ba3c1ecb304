//! The functions of a module by name.

ghost use Rattle.std.specs.Prelude.{◌≡◌, IfOk, IfSome};
ghost use Rattle.std.specs.List.{IsDistinct, AllByRecursion};
ghost use Rattle.ir_reader.specs.Judgeable.{IsJudgeableEntry};
ghost use Rattle.ir_tree.specs.Names.{same_name};
ghost use Rattle.report.specs.Rows.{function_named};
ghost use Rattle.module_rows.specs.Searching.{entry_names, function_found};

use ir_tree::{Entry, Name, Names, copy_name};
use std::alloc::Global;
use support::NoMemory;

/// The names of a module's functions, numbered in order.
pub fn names_of(alloc: Global, entries: &[Entry]) -> Result<Names, NoMemory>
    requires { IsDistinct same_name (entry_names entries.now) }
    ensures { IfOk result (λ names. names ≡ entry_names entries.now) }
{
    let mut names = Names::new(alloc);
    for entry in entries {
        names.number(copy_name(alloc, &entry.name)?)?;
    }
    Ok(names)
}

/// The function of a name.
pub fn find<'m>(entries: &'m [Entry], names: &Names, name: &Name) -> Option<&'m Entry>
    requires { names.now ≡ entry_names entries.now }
    ensures value { function_found result ≡ function_named entries.now name.now }
    ensures judgeable { AllByRecursion IsJudgeableEntry entries.now → IfSome result (λ e. IsJudgeableEntry e.now) }
{
    match names.find(name) {
        Some(number) => Some(&entries[number]),
        None => None,
    }
}
