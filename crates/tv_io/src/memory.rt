ghost use Rattle.std.specs.Prelude.{◌≡◌, ◌+◌, ◌-◌, ◌<◌, ◌≤◌, [], min, length, take, true, is_none, IfOk, OnOk, OnErr, IsErrOf, IsOkUnless, vec_len, vec_capacity, Some, None};
ghost use Rattle.tv_io.specs.Count.{Rose, RoseBy, CountsFetch, CountsPut};
ghost use Rattle.tv_io.specs.Files.{IsFetchedFrom, SameFiles, SameElsewhere, HoldsFile};
ghost use Rattle.tv_io.specs.State.{ShelfState, SinkState};
ghost use Rattle.tv_io.specs.Taken.{then_taken};

use crate::shelf::{FetchFault, PutFault, Shelf, Size};
use crate::sink::{Failed, Sink};
use std::alloc::Global;
use std::collections::BTreeMap;
use support::NoMemory;

/// Files in memory.
#[derive(Drop)]
pub struct MemoryShelf {
    files: BTreeMap<String, Vec<u8>>,
    fetch_faults: u64,
    put_faults: u64,
    bytes_taken: u64,
}

impl MemoryShelf {
    ghost use Rattle.tv_io.specs.MemoryShelf.{memory_state};

    /// A shelf with these files, by name. Nothing was counted.
    pub fn new(files: BTreeMap<String, Vec<u8>>) -> MemoryShelf
        ensures { ⟦<MemoryShelf as Shelf>⟧.state result ≡ memory_state files 0 0 0 }
    {
        MemoryShelf {
            files,
            fetch_faults: 0,
            put_faults: 0,
            bytes_taken: 0,
        }
    }

    pub(crate) fn count_fetch_fault(&mut self)
        ensures rose { Rose self.old.fetch_faults self.new.fetch_faults }
        ensures stays { self.old.fetch_faults ≤ self.new.fetch_faults }
        ensures others { self.new ≡ record self.old { fetch_faults = self.new.fetch_faults } }
    {
        self.fetch_faults = self.fetch_faults.saturating_add(1);
    }

    pub(crate) fn count_put_fault(&mut self)
        ensures rose { Rose self.old.put_faults self.new.put_faults }
        ensures stays { self.old.put_faults ≤ self.new.put_faults }
        ensures others { self.new ≡ record self.old { put_faults = self.new.put_faults } }
    {
        self.put_faults = self.put_faults.saturating_add(1);
    }
}

impl Shelf for MemoryShelf {
    ghost use Rattle.tv_io.specs.MemoryShelf.{files_of, fails_absent, memory_state};

    ghost state = { λ s. memory_state s.files s.fetch_faults s.put_faults s.bytes_taken };

    fn fetch(&mut self, name: &str, most: u64, into: &mut Vec<u8>) -> Result<Size, FetchFault>
        ensures fetched { IfOk result (λ size. IsFetchedFrom (Some (files_of self.old.files)) name.now most size into.new.items) }
        ensures longer { result ≡ Ok Size.Longer → RoseBy (most + 1) self.old.bytes_taken self.new.bytes_taken }
        ensures taken { result ≡ Ok Size.Whole → RoseBy (length into.new.items) self.old.bytes_taken self.new.bytes_taken }
        ensures most { self.new.bytes_taken ≤ self.old.bytes_taken + (most + 1) }
        ensures failed { IsErrOf result FetchFault.Failed → fails_absent (files_of self.old.files) name.now ≡ true }
        ensures counted { CountsFetch result self.old.fetch_faults self.new.fetch_faults }

        ensures same { Some (files_of self.new.files) ≡ Some (files_of self.old.files) }
        ensures same_fails { fails_absent (files_of self.new.files) ≡ fails_absent (files_of self.old.files) }
        ensures put_faults { self.new.put_faults ≡ self.old.put_faults }
        ensures fetch_faults_stay { self.old.fetch_faults ≤ self.new.fetch_faults }
        ensures bytes_taken_stay { self.old.bytes_taken ≤ self.new.bytes_taken }
    {
        into.clear();
        let Some(bytes) = self.files.get(name) else {
            self.count_fetch_fault();
            return Err(FetchFault::Failed);
        };
        if bytes.len() as u64 > most {
            self.bytes_taken = self.bytes_taken.saturating_add(most + 1);
            return Ok(Size::Longer);
        }
        if into.extend_from_slice(bytes.as_slice()).is_err() {
            return Err(FetchFault::NoMemory);
        }
        self.bytes_taken = self.bytes_taken.saturating_add(bytes.len() as u64);
        Ok(Size::Whole)
    }

    fn put(&mut self, alloc: Global, name: &str, bytes: &[u8]) -> Result<(), PutFault>
        ensures put { OnOk result (HoldsFile (Some (files_of self.new.files)) name.now bytes.now) }
        ensures no_memory { IsErrOf result PutFault.NoMemory → SameFiles (Some (files_of self.old.files)) (Some (files_of self.new.files)) }

        ensures counted { CountsPut result self.old.put_faults self.new.put_faults }

        ensures same_elsewhere { SameElsewhere name.now (Some (files_of self.old.files)) (Some (files_of self.new.files)) }
        ensures fetch_faults { self.new.fetch_faults ≡ self.old.fetch_faults }
        ensures put_faults_stay { self.old.put_faults ≤ self.new.put_faults }
        ensures bytes_taken_stay { self.old.bytes_taken ≤ self.new.bytes_taken }

        // It fails only out of memory.
        ensures failed { IsOkUnless result PutFault.NoMemory }
    {
        let Ok(key) = String::from_str(alloc, name) else {
            return Err(PutFault::NoMemory);
        };
        let Ok(held) = Vec::from_slice(alloc, bytes) else {
            return Err(PutFault::NoMemory);
        };
        match self.files.insert(key, held) {
            Ok(_) => Ok(()),
            Err(_) => Err(PutFault::NoMemory),
        }
    }
}

/// Output in memory, with room for a fixed number of bytes.
#[derive(Drop)]
pub struct MemorySink {
    pub bytes: Vec<u8>,
    pub room: usize,
    faults: u64,
    ghost has_room: { room ≤ vec_capacity bytes },
    ghost fits: { vec_len bytes ≤ room },
}

impl MemorySink {
    /// An empty sink with room for `room` bytes. `NoMemory` where the room can't be allocated.
    pub fn new(alloc: Global, room: usize) -> Result<MemorySink, NoMemory>
        ensures { IfOk result (λ sink. (sink.bytes.items ≡ []) × (sink.room ≡ room) × (⟦<MemorySink as Sink>⟧.state sink ≡ record { taken = Some []; room = room; faults = 0 })) }
    {
        Ok(MemorySink {
            bytes: Vec::with_capacity(alloc, room)?,
            room,
            faults: 0,
        })
    }

    pub(crate) fn count_fault(&mut self)
        ensures rose { Rose self.old.faults self.new.faults }
        ensures stays { self.old.faults ≤ self.new.faults }
        ensures others { self.new ≡ record self.old { faults = self.new.faults } }
    {
        self.faults = self.faults.saturating_add(1);
    }
}

impl Sink for MemorySink {
    ghost state = { λ s. record { taken = Some s.bytes.items; room = s.room - vec_len s.bytes; faults = s.faults } };

    fn write(&mut self, piece: &[u8]) -> Result<usize, Failed>
        ensures count { IfOk result (λ n. (n ≤ length piece.now) × (0 < length piece.now → 0 < n)) }
        ensures took { IfOk result (λ n. Some self.new.bytes.items ≡ then_taken (Some self.old.bytes.items) (take n piece.now)) }
        ensures used { IfOk result (λ n. self.old.room - vec_len self.old.bytes ≤ (self.new.room - vec_len self.new.bytes) + n) }
        ensures counted { OnOk result (self.new.faults ≡ self.old.faults) }
        ensures failed { OnErr result (Rose self.old.faults self.new.faults) }
        ensures failed_took { OnErr result (Some self.new.bytes.items ≡ Some self.old.bytes.items) }
        ensures full { OnErr result (0 < length piece.now → self.old.room - vec_len self.old.bytes < length piece.now) }
        ensures faults_stay { self.old.faults ≤ self.new.faults }

        ensures no_room { OnErr result ((vec_len self.old.bytes ≡ self.old.room) × (0 < length piece.now)) }
        ensures most { IfOk result (λ n. n ≡ min (length piece.now) (self.old.room - vec_len self.old.bytes)) }
        ensures same_room { self.new.room ≡ self.old.room }
    {
        let count = piece.len().min(self.room - self.bytes.len());
        if count == 0 && !piece.is_empty() {
            self.count_fault();
            return Err(Failed);
        }
        self.bytes.extend_from_slice(&piece[..count]).unwrap();
        Ok(count)
    }
}
