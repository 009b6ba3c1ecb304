ghost use Rattle.std.specs.Prelude.{◌≡◌, ◌↔◌, ◌⊎◌, [], ◌+◌, ◌-◌, ◌<◌, ◌≤◌, min, length, take, true, Some, None, IsTrue, IfOk, OnOk, OnErr, IsErrOf, IsErr, vec_len};
ghost use Rattle.tv_io.specs.Count.{Rose, RoseBy, CountsFetch, CountsPut, IsListed};
ghost use Rattle.tv_io.specs.Files.{IsFetchedFrom, SameFiles, SameElsewhere, HoldsFile, HasNoFile};
ghost use Rattle.tv_io.specs.State.{ShelfState, SinkState};
ghost use Rattle.tv_io.specs.Taken.{then_taken};

use crate::memory::{MemoryShelf, MemorySink};
use crate::shelf::{FetchFault, PutFault, Shelf, Size};
use crate::sink::{Failed, Sink};
use std::alloc::Global;
use std::collections::BTreeMap;
use support::NoMemory;

/// How many calls were made, and the numbers of those that fail, counted from 1.
#[derive(Drop)]
pub struct Calls {
    pub fails: Vec<u64>,
    pub made: u64,
}

impl Calls {
    // Counts a call, and says whether it fails.
    fn next_fails(&mut self) -> bool
        ensures listed { IsTrue result ↔ IsListed self.old.fails.items self.old.made }
        ensures counted { self.new ≡ record self.old { made = min (self.old.made + 1) u64.MAX } }
    {
        self.made = self.made.saturating_add(1);
        self.fails.contains(&self.made)
    }
}

/// Files in memory, where the calls of a list fail. Calls of both kinds are counted together,
/// from 1.
#[derive(Drop)]
pub struct FailingShelf {
    pub shelf: MemoryShelf,
    pub calls: Calls,
}

impl FailingShelf {
    ghost use Rattle.tv_io.specs.MemoryShelf.{memory_state};

    /// A shelf with these files, by name, where the calls with these numbers fail. No call was made.
    pub fn new(files: BTreeMap<String, Vec<u8>>, fails: Vec<u64>) -> FailingShelf
        ensures shelf { ⟦<MemoryShelf as Shelf>⟧.state result.shelf ≡ memory_state files 0 0 0 }
        ensures calls { result.calls ≡ record { fails = fails; made = 0 } }
    {
        FailingShelf {
            shelf: MemoryShelf::new(files),
            calls: Calls { fails, made: 0 },
        }
    }
}

impl Shelf for FailingShelf {
    // A fetch of any name may fail.
    ghost state = { λ s. record (⟦<MemoryShelf as Shelf>⟧.state s.shelf) { may_fail = λ _. true } };

    fn fetch(&mut self, name: &str, most: u64, into: &mut Vec<u8>) -> Result<Size, FetchFault>
        ensures fetched { IfOk result (λ size. IsFetchedFrom (⟦<MemoryShelf as Shelf>⟧.state self.old.shelf).files name.now most size into.new.items) }
        ensures longer { result ≡ Ok Size.Longer → RoseBy (most + 1) (⟦<MemoryShelf as Shelf>⟧.state self.old.shelf).bytes_taken (⟦<MemoryShelf as Shelf>⟧.state self.new.shelf).bytes_taken }
        ensures taken { result ≡ Ok Size.Whole → RoseBy (length into.new.items) (⟦<MemoryShelf as Shelf>⟧.state self.old.shelf).bytes_taken (⟦<MemoryShelf as Shelf>⟧.state self.new.shelf).bytes_taken }
        ensures most { (⟦<MemoryShelf as Shelf>⟧.state self.new.shelf).bytes_taken ≤ (⟦<MemoryShelf as Shelf>⟧.state self.old.shelf).bytes_taken + (most + 1) }
        ensures failed { IsErrOf result FetchFault.Failed → (⟦<FailingShelf as Shelf>⟧.state self.old).may_fail name.now ≡ true }
        ensures counted { CountsFetch result (⟦<MemoryShelf as Shelf>⟧.state self.old.shelf).fetch_faults (⟦<MemoryShelf as Shelf>⟧.state self.new.shelf).fetch_faults }

        ensures same { (⟦<MemoryShelf as Shelf>⟧.state self.new.shelf).files ≡ (⟦<MemoryShelf as Shelf>⟧.state self.old.shelf).files }
        ensures same_fails { (⟦<FailingShelf as Shelf>⟧.state self.new).may_fail ≡ (⟦<FailingShelf as Shelf>⟧.state self.old).may_fail }
        ensures put_faults { (⟦<MemoryShelf as Shelf>⟧.state self.new.shelf).put_faults ≡ (⟦<MemoryShelf as Shelf>⟧.state self.old.shelf).put_faults }
        ensures fetch_faults_stay { (⟦<MemoryShelf as Shelf>⟧.state self.old.shelf).fetch_faults ≤ (⟦<MemoryShelf as Shelf>⟧.state self.new.shelf).fetch_faults }
        ensures bytes_taken_stay { (⟦<MemoryShelf as Shelf>⟧.state self.old.shelf).bytes_taken ≤ (⟦<MemoryShelf as Shelf>⟧.state self.new.shelf).bytes_taken }

        ensures only { IsErrOf result FetchFault.Failed → IsListed self.old.calls.fails.items self.old.calls.made ⊎ HasNoFile (⟦<MemoryShelf as Shelf>⟧.state self.old.shelf).files name.now }
        ensures listed { IsListed self.old.calls.fails.items self.old.calls.made → IsErrOf result FetchFault.Failed }
        ensures calls { self.new.calls ≡ record self.old.calls { made = min (self.old.calls.made + 1) u64.MAX } }
    {
        if self.calls.next_fails() {
            self.shelf.count_fetch_fault();
            into.clear();
            return Err(FetchFault::Failed);
        }
        self.shelf.fetch(name, most, into)
    }

    fn put(&mut self, alloc: Global, name: &str, bytes: &[u8]) -> Result<(), PutFault>
        ensures put { OnOk result (HoldsFile (⟦<MemoryShelf as Shelf>⟧.state self.new.shelf).files name.now bytes.now) }
        ensures no_memory { IsErrOf result PutFault.NoMemory → SameFiles (⟦<MemoryShelf as Shelf>⟧.state self.old.shelf).files (⟦<MemoryShelf as Shelf>⟧.state self.new.shelf).files }
        ensures counted { CountsPut result (⟦<MemoryShelf as Shelf>⟧.state self.old.shelf).put_faults (⟦<MemoryShelf as Shelf>⟧.state self.new.shelf).put_faults }

        ensures same_elsewhere { SameElsewhere name.now (⟦<MemoryShelf as Shelf>⟧.state self.old.shelf).files (⟦<MemoryShelf as Shelf>⟧.state self.new.shelf).files }
        ensures fetch_faults { (⟦<MemoryShelf as Shelf>⟧.state self.new.shelf).fetch_faults ≡ (⟦<MemoryShelf as Shelf>⟧.state self.old.shelf).fetch_faults }
        ensures put_faults_stay { (⟦<MemoryShelf as Shelf>⟧.state self.old.shelf).put_faults ≤ (⟦<MemoryShelf as Shelf>⟧.state self.new.shelf).put_faults }
        ensures bytes_taken_stay { (⟦<MemoryShelf as Shelf>⟧.state self.old.shelf).bytes_taken ≤ (⟦<MemoryShelf as Shelf>⟧.state self.new.shelf).bytes_taken }

        ensures only { IsErrOf result PutFault.Failed → IsListed self.old.calls.fails.items self.old.calls.made }
        ensures listed { IsListed self.old.calls.fails.items self.old.calls.made → IsErrOf result PutFault.Failed }
        ensures calls { self.new.calls ≡ record self.old.calls { made = min (self.old.calls.made + 1) u64.MAX } }
    {
        if self.calls.next_fails() {
            self.shelf.count_put_fault();
            return Err(PutFault::Failed);
        }
        self.shelf.put(alloc, name, bytes)
    }
}

/// Output in memory, which takes at most `most` bytes a call, and where the calls of a list fail,
/// counted from 1.
#[derive(Drop)]
pub struct FailingSink {
    pub sink: MemorySink,
    pub most: usize,
    pub calls: Calls,
    ghost takes_some: { 0 < most },
}

impl FailingSink {
    /// An empty sink with room for `room` bytes, which takes at most `most` bytes a call, and where the
    /// calls with these numbers fail. `NoMemory` where the room can't be allocated.
    pub fn new(
        alloc: Global,
        room: usize,
        most: usize,
        fails: Vec<u64>,
    ) -> Result<FailingSink, NoMemory>
        requires { 0 < most }
        ensures empty { IfOk result (λ s. s.sink.bytes.items ≡ []) }
        ensures limits { IfOk result (λ s. (s.sink.room ≡ room) × (s.most ≡ most)) }
        ensures calls { IfOk result (λ s. s.calls ≡ record { fails = fails; made = 0 }) }
    {
        Ok(FailingSink {
            sink: MemorySink::new(alloc, room)?,
            most,
            calls: Calls { fails, made: 0 },
        })
    }
}

impl Sink for FailingSink {
    // It has no room for certain, since the next call may fail.
    ghost state = { λ s. record (⟦<MemorySink as Sink>⟧.state s.sink) { room = 0 } };

    fn write(&mut self, piece: &[u8]) -> Result<usize, Failed>
        ensures count { IfOk result (λ n. (n ≤ length piece.now) × (0 < length piece.now → 0 < n)) }
        ensures took { IfOk result (λ n. Some self.new.sink.bytes.items ≡ then_taken (Some self.old.sink.bytes.items) (take n piece.now)) }
        ensures used { IfOk result (λ n. 0 ≤ 0 + n) }
        ensures counted { OnOk result ((⟦<MemorySink as Sink>⟧.state self.new.sink).faults ≡ (⟦<MemorySink as Sink>⟧.state self.old.sink).faults) }
        ensures failed { OnErr result (Rose (⟦<MemorySink as Sink>⟧.state self.old.sink).faults (⟦<MemorySink as Sink>⟧.state self.new.sink).faults) }
        ensures failed_took { OnErr result (Some self.new.sink.bytes.items ≡ Some self.old.sink.bytes.items) }
        ensures full { OnErr result (0 < length piece.now → 0 < length piece.now) }
        ensures faults_stay { (⟦<MemorySink as Sink>⟧.state self.old.sink).faults ≤ (⟦<MemorySink as Sink>⟧.state self.new.sink).faults }

        ensures only { OnErr result (IsListed self.old.calls.fails.items self.old.calls.made ⊎ ((vec_len self.old.sink.bytes ≡ self.old.sink.room) × (0 < length piece.now))) }
        ensures listed { IsListed self.old.calls.fails.items self.old.calls.made → IsErr result }
        ensures most { IfOk result (λ n. n ≡ min (min (length piece.now) self.old.most) (self.old.sink.room - vec_len self.old.sink.bytes)) }
        ensures calls { self.new.calls ≡ record self.old.calls { made = min (self.old.calls.made + 1) u64.MAX } }
        ensures same { (self.new.most ≡ self.old.most) × (self.new.sink.room ≡ self.old.sink.room) }
    {
        if self.calls.next_fails() {
            self.sink.count_fault();
            return Err(Failed);
        }
        let count = piece.len().min(self.most);
        self.sink.write(&piece[..count])
    }
}
