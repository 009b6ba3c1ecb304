//! The function of a name.

ghost use Rattle.std.specs.Prelude.{◌≡◌, Some, None, IfOk, IfSome, IfNone};
ghost use Rattle.std.specs.List.{AllByRecursion};
ghost use Rattle.ir_reader.specs.Judgeable.{IsJudgeableEntry};
ghost use Rattle.trace_run.specs.Named.{is_named, entry_named};

use ir_naming::name_text;
use ir_tree::Entry;
use std::alloc::Global;
use support::NoMemory;

/// Whether a function's name is written so in reports.
fn is_named(alloc: Global, entry: &Entry, name: &[u8]) -> Result<bool, NoMemory>
    ensures { IfOk result (λ is. is ≡ is_named name.now entry.now) }
{
    let text = name_text(alloc, &entry.name)?;
    Ok(text.as_slice() == name)
}

/// The first function whose name is written so in reports.
pub fn entry_named<'m>(
    alloc: Global,
    entries: &'m [Entry],
    name: &[u8],
) -> Result<Option<&'m Entry>, NoMemory>
    requires { AllByRecursion IsJudgeableEntry entries.now }
    ensures found { IfOk result (λ found. IfSome found (λ entry. entry_named entries.now name.now ≡ Some entry.now)) }
    ensures judgeable { IfOk result (λ found. IfSome found (λ entry. IsJudgeableEntry entry.now)) }
    ensures none { IfOk result (λ found. IfNone found (entry_named entries.now name.now ≡ None)) }
{
    for entry in entries {
        if is_named(alloc, entry, name)? {
            return Ok(Some(entry));
        }
    }
    Ok(None)
}
