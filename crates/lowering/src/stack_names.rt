//! Names for the registers of a lowered function.

ghost use Rattle.std.specs.Prelude.{◌≡◌, ◌<◌, ◌≤◌, ◌+◌, ◌++◌, ◌∷◌, ◌^◌, [], length, IfOk, OnOk};
ghost use Rattle.lowering.specs.Lowered.{longest, spelling_length, stack_height, stack_names, words_from};
ghost use Rattle.lowering.specs.Plan.{IsPlan};

use crate::plan::Plan;
use ir_tree::{Name, Names, copy_name};
use std::alloc::Global;
use support::{NoMemory, Sequence};

/// The names of the function, and those of the registers that its trees take.
pub fn lowered_names(alloc: Global, plan: &Plan) -> Result<Names, NoMemory>
    requires { IsPlan plan.now }
    ensures { IfOk result (λ names. names ≡ plan.now.f.now.names ++ stack_names plan.now.f.now) }
{
    let mut names = copy_names(alloc, &plan.f.names)?;
    let height = stack_height(plan);
    let first = longest(&plan.f.names) + 1;
    push_words(alloc, &mut names, height, first)?;
    Ok(names)
}

fn copy_names(alloc: Global, names: &Names) -> Result<Names, NoMemory>
    ensures { IfOk result (λ copy. copy ≡ names.now) }
{
    let mut copy = Names::new(alloc);
    for at in 0..names.len() {
        if let Some(name) = names.get(at) {
            push_name(&mut copy, at, copy_name(alloc, name)?)?;
        }
    }
    Ok(copy)
}

// Appends a name to a table of this many.
fn push_name(names: &mut Names, count: usize, name: Name) -> Result<(), NoMemory>
    requires { length names.old ≡ count }
    ensures { OnOk result (names.new ≡ names.old ++ name ∷ []) }
{
    let number = names.number(name)?;
    if number != count {
        // The table had the name. Those that are copied differ, but no contract says so.
        return Err(NoMemory);
    }
    Ok(())
}

// The most leaves of a name.
fn stack_height(plan: &Plan) -> usize
    requires { IsPlan plan.now }
    ensures height { result ≡ stack_height plan.now.f.now }
    ensures most { result ≤ 255 }
{
    let mut most = 0u8;
    for name in 0..plan.f.names.len() {
        most = most.max(plan.count(name));
    }
    usize::from(most)
}

fn longest(names: &Names) -> usize
    ensures longest { result ≡ longest names.now }
    ensures most { result < 2 ^ 63 }
{
    let mut longest = 0usize;
    for at in (0..names.len()).rev() {
        if let Some(name) = names.get(at) {
            longest = longest.max(spelling_length(name));
        }
    }
    longest
}

fn spelling_length(name: &Name) -> usize
    ensures length { result ≡ spelling_length name.now }
    ensures most { result < 2 ^ 63 }
{
    match name {
        Name::Number(digits) => digits.as_slice().len(),
        Name::Word(bytes) => bytes.as_slice().len(),
    }
}

// Appends this many words of letters u, the first of this many and each next one of one more.
fn push_words(alloc: Global, names: &mut Names, count: usize, first: usize) -> Result<(), NoMemory>
    requires longer { longest names.old < first }
    requires room { first + count < 2 ^ 64 }
    ensures { OnOk result (names.new ≡ names.old ++ words_from count first) }
{
    for word in 0..count {
        let bytes = vec![in alloc; b'u'; first + word]?;
        names.number(Name::Word(Sequence::from_vec(bytes)))?;
    }
    Ok(())
}
