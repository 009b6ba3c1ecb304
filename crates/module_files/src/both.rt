//! Two files.

ghost use Rattle.std.specs.Prelude.{◌≡◌, IfOk, IfErr, OnOk};
ghost use Rattle.tv_io.specs.State.{ShelfState};
ghost use Rattle.module_files.specs.Stops.{StopsAt};
ghost use Rattle.module_files.specs.Reading.{AreParsed, AreRead, AreWithin, CountsStop, IsUnread, StopsAtTexts};

use crate::stop::{LoadFault, Stop, Trouble};
use crate::texts::{TEXT_LIMIT, load, module_beside, module_from, module_of};
use ir_tree::{Entry, Module};
use std::alloc::Global;
use std::thread::{Threads, join};
use tv_io::Shelf;

/// The modules of a source and a target.
#[derive(Drop)]
pub struct Modules {
    pub source: Module,
    pub target: Module,
}

/// The modules of two files, or why they are not judged. Each text is freed as soon as its module is
/// read, since judging takes long and needs the memory.
///
/// # Errors
/// The first cause, in the order read of the source, read of the target, source module, target
/// module.
pub fn read_both<S: Shelf>(
    alloc: Global,
    shelf: &mut S,
    source: &str,
    target: &str,
) -> Result<Modules, Stop>
    ensures modules { IfOk result (AreRead (S.state shelf.old).files source.now target.now) }
    ensures cause { IfErr result (StopsAt (S.state shelf.old) (S.state shelf.new) source.now target.now) }
    ensures quiet { OnOk result ((S.state shelf.new).fetch_faults ≡ (S.state shelf.old).fetch_faults) }
    ensures counted { IfErr result (λ stop. CountsStop stop (S.state shelf.old) (S.state shelf.new)) }
    ensures put_faults { (S.state shelf.new).put_faults ≡ (S.state shelf.old).put_faults }
    ensures same { (S.state shelf.new).files ≡ (S.state shelf.old).files }
{
    let source = load(alloc, shelf, source).map_err(LoadFault::at_source)?;
    let target = load(alloc, shelf, target).map_err(LoadFault::at_target)?;
    modules_of(alloc, source, target)
}

/// The modules of two texts, or the fault of the first that is no module.
fn modules_of(alloc: Global, source: Vec<u8>, target: Vec<u8>) -> Result<Modules, Stop>
    ensures parsed { IfOk result (AreParsed source.items target.items) }
    ensures unread { IfErr result (IsUnread source.items target.items) }
{
    let source = module_from(alloc, source).map_err(LoadFault::at_source)?;
    let target = module_from(alloc, target).map_err(LoadFault::at_target)?;
    Ok(Modules { source, target })
}

/// The same as [`read_both`], the functions of each module read by this many workers beside each other.
///
/// # Errors
/// As [`read_both`].
pub fn read_both_beside<S: Shelf, R: Threads + Sync>(
    rt: &R,
    alloc: Global,
    shelf: &mut S,
    source: &str,
    target: &str,
    workers: u64,
) -> Result<Modules, Stop>
    ensures modules { IfOk result (AreRead (S.state shelf.old).files source.now target.now) }
    ensures cause { IfErr result (StopsAt (S.state shelf.old) (S.state shelf.new) source.now target.now) }
    ensures quiet { OnOk result ((S.state shelf.new).fetch_faults ≡ (S.state shelf.old).fetch_faults) }
    ensures counted { IfErr result (λ stop. CountsStop stop (S.state shelf.old) (S.state shelf.new)) }
    ensures put_faults { (S.state shelf.new).put_faults ≡ (S.state shelf.old).put_faults }
    ensures same { (S.state shelf.new).files ≡ (S.state shelf.old).files }
{
    let source = load(alloc, shelf, source).map_err(LoadFault::at_source)?;
    let target = load(alloc, shelf, target).map_err(LoadFault::at_target)?;
    modules_beside(rt, alloc, source, target, workers)
}

fn modules_beside<R: Threads + Sync>(
    rt: &R,
    alloc: Global,
    source: Vec<u8>,
    target: Vec<u8>,
    workers: u64,
) -> Result<Modules, Stop>
    ensures parsed { IfOk result (AreParsed source.items target.items) }
    ensures unread { IfErr result (IsUnread source.items target.items) }
{
    let source = module_beside(rt, alloc, source, workers).map_err(LoadFault::at_source)?;
    let target = module_beside(rt, alloc, target, workers).map_err(LoadFault::at_target)?;
    Ok(Modules { source, target })
}

/// The modules of two texts, or why they are not judged: the same as [`read_both`] of files that hold
/// them.
///
/// # Errors
/// The first cause, in the order length of the source, length of the target, source module, target
/// module.
pub fn read_texts(alloc: Global, source: &[u8], target: &[u8]) -> Result<Modules, Stop>
    ensures modules { IfOk result (AreParsed source.now target.now) }
    ensures within { OnOk result (AreWithin source.now target.now) }
    ensures cause { IfErr result (StopsAtTexts source.now target.now) }
{
    if source.len() as u64 > TEXT_LIMIT {
        return Err(Stop::Source(Trouble::TooLong));
    }
    if target.len() as u64 > TEXT_LIMIT {
        return Err(Stop::Target(Trouble::TooLong));
    }
    modules_in(alloc, source, target)
}

/// The modules of two texts, or the fault of the first that is no module.
fn modules_in(alloc: Global, source: &[u8], target: &[u8]) -> Result<Modules, Stop>
    ensures parsed { IfOk result (AreParsed source.now target.now) }
    ensures unread { IfErr result (IsUnread source.now target.now) }
{
    let source = module_of(alloc, source).map_err(LoadFault::at_source)?;
    let target = module_of(alloc, target).map_err(LoadFault::at_target)?;
    Ok(Modules { source, target })
}

/// Gives back the memory of the modules, by this many workers: a module may be some hundred thousand
/// parts, which take a thread nearly as long as it took to read them.
pub fn give_back<R: Threads + Sync>(rt: &R, modules: Modules, workers: u64) {
    entries_back(rt, modules.source.entries.into_vec(), workers);
    entries_back(rt, modules.target.entries.into_vec(), workers);
}

// So few entries are given back by one worker: to start a thread takes as long.
const FEW: usize = 128;

// Gives back some entries, by this many workers.
#[cycle(workers)]
fn entries_back<R: Threads + Sync>(rt: &R, mut entries: Vec<Entry>, workers: u64) {
    if workers < 2 || entries.len() < FEW {
        return;
    }
    let others = workers / 2;
    let rest = workers - others;
    let Ok(back) = entries.split_off(entries.len() / 2) else {
        return;
    };
    let ((), ()) = join(
        rt,
        || { entries_back(rt, entries, others) },
        || { entries_back(rt, back, rest) },
    );
}
