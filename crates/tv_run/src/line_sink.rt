//! A sink in memory that grows.

ghost use Rattle.std.specs.Prelude.{◌≡◌, [], IfOk, OnOk, Some};
ghost use Rattle.tv_io.specs.State.{SinkState};

use std::alloc::Global;
use support::NoMemory;
use tv_io::{Failed, Sink};

/// The bytes of a line. A write fails only out of memory.
#[derive(Drop)]
pub struct LineSink {
    pub bytes: Vec<u8>,
    faults: u64,
}

impl LineSink {
    /// A sink with no bytes. No write failed.
    pub fn new(alloc: Global) -> LineSink
        ensures empty { result.bytes.items ≡ [] }
        ensures quiet { result.faults ≡ 0 }
    {
        LineSink {
            bytes: Vec::new(alloc),
            faults: 0,
        }
    }

    /// The bytes, where no write failed.
    pub fn finish(self) -> Result<Vec<u8>, NoMemory>
        ensures bytes { IfOk result (λ bytes. bytes.items ≡ self.bytes.items) }
        ensures whole { OnOk result (self.faults ≡ 0) }
    {
        if self.faults != 0 {
            return Err(NoMemory);
        }
        Ok(self.bytes)
    }
}

impl Sink for LineSink {
    ghost state = { λ s. record { taken = Some s.bytes.items; room = 0; faults = s.faults } };

    fn write(&mut self, piece: &[u8]) -> Result<usize, Failed> {
        match self.bytes.extend_from_slice(piece) {
            Ok(()) => Ok(piece.len()),
            Err(_) => {
                self.faults = self.faults.saturating_add(1);
                Err(Failed)
            }
        }
    }
}
