ghost use Rattle.std.specs.Prelude.{◌≡◌, ◌≤◌, ℕ, List, Err};
ghost use Rattle.ir_reader.specs.Module.{IsFault};
ghost use Rattle.tv_io.specs.State.{ShelfState};
ghost use Rattle.module_files.specs.Reading.{Loads, CountsLoad, Parses};

use crate::stop::{LoadFault, Trouble};
use ir_reader::{ModuleFault, read, read_beside};
use ir_tree::Module;
use std::alloc::Global;
use std::thread::Threads;
use tv_io::{FetchFault, Shelf, Size};

/// The most bytes of a file.
pub const TEXT_LIMIT: u64 = 16_777_216;

/// The bytes of a file, at most the limit.
pub fn load<S: Shelf>(alloc: Global, shelf: &mut S, name: &str) -> Result<Vec<u8>, LoadFault>
    ensures loads { Loads (S.state shelf.old) (S.state shelf.new) name.now result }
    ensures counted { CountsLoad result (S.state shelf.old) (S.state shelf.new) }

    ensures same { (S.state shelf.new).files ≡ (S.state shelf.old).files }
    ensures same_fails { (S.state shelf.new).may_fail ≡ (S.state shelf.old).may_fail }
    ensures put_faults { (S.state shelf.new).put_faults ≡ (S.state shelf.old).put_faults }
    ensures bytes_taken_stay { (S.state shelf.old).bytes_taken ≤ (S.state shelf.new).bytes_taken }
{
    let mut text = Vec::new(alloc);
    match shelf.fetch(name, TEXT_LIMIT, &mut text) {
        Ok(Size::Whole) => Ok(text),
        Ok(Size::Longer) => Err(LoadFault::Trouble(Trouble::TooLong)),
        Err(FetchFault::Failed) => Err(LoadFault::Trouble(Trouble::CannotRead)),
        Err(FetchFault::NoMemory) => Err(LoadFault::NoMemory),
    }
}

// The same fault as one of loading.
fn load_fault(fault: ModuleFault) -> LoadFault
    ensures { (text : List ℕ) → IsFault text fault → Parses text (Err result) }
{
    match fault {
        ModuleFault::NoToken(place) => LoadFault::Trouble(Trouble::NoToken(place)),
        ModuleFault::Item { why, place } => LoadFault::Trouble(Trouble::Item { why, place }),
        ModuleFault::NoMemory => LoadFault::NoMemory,
    }
}

/// The module of a text, or its fault.
pub fn module_of(alloc: Global, text: &[u8]) -> Result<Module, LoadFault>
    ensures { Parses text.now result }
{
    match read(alloc, text) {
        Ok(module) => Ok(module),
        Err(fault) => Err(load_fault(fault)),
    }
}

/// The module of a text, or its fault. The text is freed: a module holds none of it.
pub fn module_from(alloc: Global, text: Vec<u8>) -> Result<Module, LoadFault>
    ensures { Parses text.items result }
{
    module_of(alloc, text.as_slice())
}

/// The same, read by this many workers beside each other.
pub fn module_beside<R: Threads + Sync>(
    rt: &R,
    alloc: Global,
    text: Vec<u8>,
    workers: u64,
) -> Result<Module, LoadFault>
    ensures { Parses text.items result }
{
    match read_beside(rt, alloc, text.as_slice(), workers) {
        Ok(module) => Ok(module),
        Err(fault) => Err(load_fault(fault)),
    }
}
