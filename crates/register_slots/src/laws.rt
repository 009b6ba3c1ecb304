//! A function over slots runs as the function does.

ghost use Rattle.register_slots.specs.Laws.{AllocationsKeepRuns};

/// A function with its values in slots has the runs of the function, on every input and tape, where
/// each name's slot holds it wherever the name is read. It does nothing.
pub fn allocations_keep_runs()
    ensures { AllocationsKeepRuns }
{}
