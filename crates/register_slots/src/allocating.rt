//! A function with its values in slots.

ghost use Rattle.std.specs.Prelude.{◌≡◌, IfOk, IfSome, length};
ghost use Rattle.register_slots.specs.Slotted.{IsSlotted};
ghost use Rattle.register_slots.specs.StandIn.{IsStandIn};

use crate::checking::is_allocation;
use crate::colouring::{LiveRanges, Slots, slots_for};
use crate::liveness::{Definition, definitions_of, live_names, predecessors_of};
use crate::naming::first_names;
use crate::occurrences::{Occurrence, Span, occurrences_of, spans_of};
use crate::renaming::function_in;
use ir_tree::{BlockIndex, Function};
use std::alloc::Global;
use support::{NoMemory, Sequence};

/// The slots of a function's names, and for each block the names that are held at its entry.
#[derive(Drop)]
struct Allocation {
    slots: Slots,
    lives: Sequence<Sequence<usize>>,
}

/// The occurrences of names in a function whose blocks have these spans.
fn occurrences_in(
    alloc: Global,
    f: &Function,
    spans: &[Span],
) -> Result<Vec<Occurrence>, NoMemory> {
    let index = BlockIndex::of(alloc, f)?;
    occurrences_of(alloc, f, &index, spans)
}

/// Slots for the names with these occurrences; none where too many names are live.
fn allocation_for(
    alloc: Global,
    spans: &[Span],
    predecessors: &[Sequence<usize>],
    definitions: &[Option<Definition>],
    occurrences: &[Occurrence],
) -> Result<Option<Allocation>, NoMemory> {
    let Some(lives) = live_names(alloc, predecessors, definitions, occurrences)? else {
        return Ok(None);
    };
    let live = LiveRanges {
        spans,
        predecessors,
        definitions,
        occurrences,
        lives: lives.as_slice(),
    };
    let slots = slots_for(alloc, &live)?;
    Ok(Some(Allocation { slots, lives }))
}

/// Slots for the names of a function; none where too many names are live. The check decides whether
/// they are right.
fn allocation_of(alloc: Global, f: &Function) -> Result<Option<Allocation>, NoMemory> {
    let spans = spans_of(alloc, f)?;
    let occurrences = occurrences_in(alloc, f, &spans)?;
    let predecessors = predecessors_of(alloc, f)?;
    let definitions = definitions_of(alloc, f.names.len(), &occurrences)?;
    allocation_for(
        alloc,
        &spans,
        predecessors.as_slice(),
        &definitions,
        &occurrences,
    )
}

/// The function with its values in the slots that are found, if these are right.
fn slotted(alloc: Global, f: &Function) -> Result<Option<Function>, NoMemory>
    ensures { IfOk result (λ slotted. IfSome slotted (IsSlotted f.now)) }
{
    let Some(Allocation { slots, lives }) = allocation_of(alloc, f)? else {
        return Ok(None);
    };
    if slots.count >= f.names.len() {
        return Ok(None);
    }
    if !is_allocation(alloc, f, &slots.of, slots.count, lives.as_slice())? {
        return Ok(None);
    }
    let names = first_names(alloc, &f.names, slots.count)?;
    if names.len() != slots.count {
        return Ok(None);
    }
    Ok(Some(function_in(alloc, f, &slots.of, names)?))
}

/// The function with its values in slots, where that leaves fewer names: names that are never needed
/// at the same time share a slot, and the slots have the first names of the function.
///
/// It answers none where there would be as many slots as names, where there are far more live names
/// than the function is long, and where the slots that it finds are not right, as where a name is
/// assigned twice or is read before it is assigned.
///
/// # Errors
/// Out of memory.
pub fn with_slots(alloc: Global, f: &Function) -> Result<Option<Function>, NoMemory>
    ensures { IfOk result (λ slotted. IfSome slotted (IsStandIn f.now)) }
{
    let slotted = slotted(alloc, f)?;
    Ok(slotted)
}
