//! Modules.

ghost use Rattle.std.specs.Prelude.{◌≡◌, ◌∷◌, ◌++◌, [], false, IfOk, OnOk};
ghost use Rattle.token_text.specs.Pieces.{text_of};
ghost use Rattle.ir_printer.specs.ModuleText.{accepted, accepted_first, functions_pieces, gap_behind as gap_of, has_any, last_end, module_text};

use crate::functions::push_function;
use ir_tree::{Entry, Module};
use std::alloc::Global;
use support::NoMemory;

/// The blanks before a function: none before the first, and an empty line before each other.
fn gap_behind(is_behind: bool) -> &'static [u8]
    ensures { result.now ≡ gap_of is_behind }
{
    if is_behind { b"\n\n" } else { b"" }
}

/// A function that is not refused, and whether there is one, here or before.
fn push_entry(out: &mut Vec<u8>, entry: &Entry, any: bool) -> Result<bool, NoMemory>
    ensures any { IfOk result (λ after. after ≡ has_any any (accepted_first entry.now.function [])) }
    ensures text { OnOk result (out.new.items ≡ out.old.items ++ text_of (functions_pieces any (accepted_first entry.now.function []))) }
{
    match &entry.function {
        Ok(function) => {
            push_function(out, gap_behind(any), function)?;
            Ok(true)
        }
        Err(_) => Ok(any),
    }
}

/// The functions that are not refused, and whether there is one.
fn push_functions(out: &mut Vec<u8>, entries: &[Entry]) -> Result<bool, NoMemory>
    ensures any { IfOk result (λ any. any ≡ has_any false (accepted entries.now)) }
    ensures text { OnOk result (out.new.items ≡ out.old.items ++ text_of (functions_pieces false (accepted entries.now))) }
{
    let mut any = false;
    for entry in entries {
        any = push_entry(out, entry, any)?;
    }
    Ok(any)
}

/// The end of the last line, where there is one.
fn push_end(out: &mut Vec<u8>, any: bool) -> Result<(), NoMemory>
    ensures { OnOk result (out.new.items ≡ out.old.items ++ last_end any) }
{
    if any {
        out.extend_from_slice(b"\n")?;
    }
    Ok(())
}

/// The text of a module as the LLVM assembly reader takes it: its functions in order, each instruction
/// on a line, flags in the order of the Language Reference's forms, alignments and all labels written,
/// and an empty line between two functions. A function that was refused is left out.
pub fn print(alloc: Global, module: &Module) -> Result<Vec<u8>, NoMemory>
    ensures { IfOk result (λ text. text.items ≡ module_text module.now) }
{
    let mut out = Vec::new(alloc);
    let any = push_functions(&mut out, module.entries.as_slice())?;
    push_end(&mut out, any)?;
    Ok(out)
}
