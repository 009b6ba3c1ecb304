ghost use Rattle.std.specs.Prelude.{◌≡◌, ℕ, ◌+◌, ◌≤◌, length, true, Ok, IfOk, OnOk, IsErrOf};
ghost use Rattle.tv_io.specs.Count.{RoseBy, CountsFetch, CountsPut};
ghost use Rattle.tv_io.specs.Files.{IsFetchedFrom, SameFiles, SameElsewhere, HoldsFile};
ghost use Rattle.tv_io.specs.State.{ShelfState};
ghost use Rattle.tv_io.specs.declared.shelf.Size.TheVariants.{Longer, Whole};

use std::alloc::Global;
use thiserror::Error;

/// Whether a fetch read the whole file, or found it too long.
#[derive(Clone, Copy, Debug, PartialEq, Eq)]
pub enum Size {
    Whole,
    Longer,
}

/// Why a fetch gave nothing.
#[derive(Clone, Copy, Debug, PartialEq, Eq, Error)]
pub enum FetchFault {
    #[error("the file can't be read")]
    Failed,
    #[error("out of memory")]
    NoMemory,
}

/// Why a put was not done.
#[derive(Clone, Copy, Debug, PartialEq, Eq, Error)]
pub enum PutFault {
    #[error("the file can't be written")]
    Failed,
    #[error("out of memory")]
    NoMemory,
}

/// Named files.
pub trait Shelf {
    // The files, which fetches may fail, and the counts of faults and bytes.
    ghost state: { Self → ShelfState };

    /// Empties `into` and reads a file of at most `most` bytes into it. After an error or
    /// `Longer`, `into` holds some prefix of the file.
    fn fetch(&mut self, name: &str, most: u64, into: &mut Vec<u8>) -> Result<Size, FetchFault>
        ensures fetched { IfOk result (λ size. IsFetchedFrom (state self.old).files name.now most size into.new.items) }
        ensures longer { result ≡ Ok Longer → RoseBy (most + 1) (state self.old).bytes_taken (state self.new).bytes_taken }
        ensures taken { result ≡ Ok Whole → RoseBy (length into.new.items) (state self.old).bytes_taken (state self.new).bytes_taken }
        ensures most { (state self.new).bytes_taken ≤ (state self.old).bytes_taken + (most + 1) }
        ensures failed { IsErrOf result FetchFault.Failed → (state self.old).may_fail name.now ≡ true }
        ensures counted { CountsFetch result (state self.old).fetch_faults (state self.new).fetch_faults }

        ensures same { (state self.new).files ≡ (state self.old).files }
        ensures same_fails { (state self.new).may_fail ≡ (state self.old).may_fail }
        ensures put_faults { (state self.new).put_faults ≡ (state self.old).put_faults }
        ensures fetch_faults_stay { (state self.old).fetch_faults ≤ (state self.new).fetch_faults }
        ensures bytes_taken_stay { (state self.old).bytes_taken ≤ (state self.new).bytes_taken };

    /// Makes the file of that name hold `bytes`.
    fn put(&mut self, alloc: Global, name: &str, bytes: &[u8]) -> Result<(), PutFault>
        ensures put { OnOk result (HoldsFile (state self.new).files name.now bytes.now) }
        ensures no_memory { IsErrOf result PutFault.NoMemory → SameFiles (state self.old).files (state self.new).files }
        ensures counted { CountsPut result (state self.old).put_faults (state self.new).put_faults }

        ensures same_elsewhere { SameElsewhere name.now (state self.old).files (state self.new).files }
        ensures fetch_faults { (state self.new).fetch_faults ≡ (state self.old).fetch_faults }
        ensures put_faults_stay { (state self.old).put_faults ≤ (state self.new).put_faults }
        ensures bytes_taken_stay { (state self.old).bytes_taken ≤ (state self.new).bytes_taken };
}
