ghost use Rattle.std.specs.Prelude.{◌≡◌, ◌≤◌, ◌+◌, [], ◌++◌, length, true, None, IfOk, IfErr, string_bytes};
ghost use Rattle.tv_io.specs.Count.{RoseBy};
ghost use Rattle.tv_io.specs.State.{ShelfState, SinkState};

use crate::shelf::{FetchFault, PutFault, Shelf, Size};
use crate::sink::{Failed, Sink};
use std::alloc::Global;
use std::fs;
use std::fs::{OpenFile, OpenOptions, Permissions};
use std::io::{ErrorKind, Read, Write};
use std::os::unix::fs::{OpenOptionsExt, PermissionsExt};
use std::rt::Files;

const BUFFER: usize = 4096;

/// How many names are tried for the file that is written beside another.
const BESIDE_NAMES: usize = 10;

/// What is added to a name for the file that is written beside it, in the order of the tries.
const BESIDE: [&str; BESIDE_NAMES] = [
    ".tv-new", ".tv-new1", ".tv-new2", ".tv-new3", ".tv-new4", ".tv-new5", ".tv-new6", ".tv-new7",
    ".tv-new8", ".tv-new9",
];

/// The files of the system. It reports nothing of what they hold, and any fetch or put may fail.
///
/// A put changes the file of its name, and no other. The bytes are written to a new file beside it,
/// which is then renamed: the name with `.tv-new` added, or with `.tv-new1` to `.tv-new9` where
/// something has the names before. So the name holds what it held before or all of the bytes, also
/// where the put fails, which removes the new file, or the program is killed, which leaves it; that
/// a rename is one step is the system's promise. The new file has the permissions of the old one,
/// and is never open to more than these. The old owner and extended attributes are lost, and other
/// hard links keep the old bytes.
///
/// The bytes are written in place where that can't be done: to what is no regular file (a device, a
/// pipe, the file that a symbolic link leads to), and where no file can be made beside the old one
/// (all ten names are taken, the folder can't be written, the name is too long) or have its
/// permissions. There a put that fails after the file was opened, or a killed program, leaves a
/// prefix of the bytes.
///
/// A put waits until the system has stored the bytes, so that an error that it would report later is
/// one of the put. Where two programs put a name at the same time, it holds all that one of them
/// wrote, unless both write in place. Nothing is said of a system that stops, nor of another program
/// that moves or links these names meanwhile.
#[derive(Drop)]
pub struct FileShelf<'a, R: Files> {
    rt: &'a R,
    fetch_faults: u64,
    put_faults: u64,
    bytes_taken: u64,
}

impl<'a, R: Files> FileShelf<'a, R> {
    /// The files that the runtime reaches by name.
    pub fn new(rt: &'a R) -> FileShelf<'a, R>
        ensures fetch_faults { result.fetch_faults ≡ 0 }
        ensures put_faults { result.put_faults ≡ 0 }
        ensures bytes_taken { result.bytes_taken ≡ 0 }
    {
        FileShelf {
            rt,
            fetch_faults: 0,
            put_faults: 0,
            bytes_taken: 0,
        }
    }
}

impl<'a, R: Files> Shelf for FileShelf<'a, R> {
    ghost state = { λ s. record { files = None; may_fail = λ _. true; fetch_faults = s.fetch_faults; put_faults = s.put_faults; bytes_taken = s.bytes_taken } };

    fn fetch(&mut self, name: &str, most: u64, into: &mut Vec<u8>) -> Result<Size, FetchFault> {
        into.clear();
        let fetched = match fs::open(self.rt, name) {
            Ok(mut file) => read_up_to(&mut file, most, into, &mut self.bytes_taken),
            Err(_) => Err(FetchFault::Failed),
        };
        if let Err(FetchFault::Failed) = fetched {
            self.fetch_faults = self.fetch_faults.saturating_add(1);
        }
        fetched
    }

    fn put(&mut self, alloc: Global, name: &str, bytes: &[u8]) -> Result<(), PutFault> {
        let put = replace(self.rt, alloc, name, bytes);
        if let Err(PutFault::Failed) = put {
            self.put_faults = self.put_faults.saturating_add(1);
        }
        put
    }
}

/// Makes the name hold the bytes, by a new file beside it or in place.
fn replace<R: Files>(rt: &R, alloc: Global, name: &str, bytes: &[u8]) -> Result<(), PutFault> {
    let old = match fs::symlink_metadata(rt, name) {
        Ok(metadata) if metadata.is_file() => Some(metadata.permissions()),
        Err(error) if matches!(error.kind(), ErrorKind::NotFound) => None,
        _ => return write_in_place(rt, name, bytes),
    };
    let Some((beside, mut file)) = create_beside(rt, alloc, name, &old)? else {
        return write_in_place(rt, name, bytes);
    };
    if !is_permitted(&file, old) {
        let _ = fs::remove_file(rt, beside.as_str());
        return write_in_place(rt, name, bytes);
    }
    if !is_written(&mut file, bytes) || fs::rename(rt, beside.as_str(), name).is_err() {
        let _ = fs::remove_file(rt, beside.as_str());
        return Err(PutFault::Failed);
    }
    Ok(())
}

/// A new file beside the one of that name, and its name; nothing where all names for it are taken
/// or the system makes none. It is open to no more than the permissions of the old file, if any.
fn create_beside<R: Files>(
    rt: &R,
    alloc: Global,
    name: &str,
    old: &Option<Permissions>,
) -> Result<Option<(String, R::File)>, PutFault>
    ensures { IfErr result (λ fault. fault ≡ PutFault.NoMemory) }
{
    let mut options = OpenOptions::new();
    options.write(true).create_new(true);
    if let Some(permissions) = old {
        options.mode(permissions.mode());
    }
    'names: for &ending in &BESIDE {
        let beside = name_beside(alloc, name, ending)?;
        match options.open(rt, beside.as_str()) {
            Ok(file) => return Ok(Some((beside, file))),
            Err(error) if matches!(error.kind(), ErrorKind::AlreadyExists) => {}
            Err(_) => return Ok(None),
        }
    }
    Ok(None)
}

/// The name with the ending added.
fn name_beside(alloc: Global, name: &str, ending: &str) -> Result<String, PutFault>
    ensures name { IfOk result (λ beside. string_bytes beside ≡ name.now ++ ending.now) }
    ensures fault { IfErr result (λ fault. fault ≡ PutFault.NoMemory) }
{
    let Ok(mut beside) = String::from_str(alloc, name) else {
        return Err(PutFault::NoMemory);
    };
    if beside.push_str(ending).is_err() {
        return Err(PutFault::NoMemory);
    }
    Ok(beside)
}

/// Gives the file the permissions of the old one, if there is one: whether the system did.
fn is_permitted<F: OpenFile>(file: &F, old: Option<Permissions>) -> bool
    ensures { old ≡ None → result ≡ true }
{
    match old {
        Some(permissions) => file.set_permissions(permissions).is_ok(),
        None => true,
    }
}

/// Writes the bytes over the file of that name, or that it leads to; it is made if it isn't there.
fn write_in_place<R: Files>(rt: &R, name: &str, bytes: &[u8]) -> Result<(), PutFault>
    ensures { IfErr result (λ fault. fault ≡ PutFault.Failed) }
{
    let Ok(mut file) = fs::create(rt, name) else {
        return Err(PutFault::Failed);
    };
    if !is_written(&mut file, bytes) {
        return Err(PutFault::Failed);
    }
    Ok(())
}

/// Writes the bytes to the file: whether the system took them and keeps no error for later. It keeps
/// none for what it can't sync, as a pipe.
fn is_written<F: Write + OpenFile>(file: &mut F, bytes: &[u8]) -> bool {
    if file.write_all(bytes).is_err() {
        return false;
    }
    match file.sync_all() {
        Ok(()) => true,
        Err(error) => matches!(
            error.kind(),
            ErrorKind::InvalidInput | ErrorKind::Unsupported
        ),
    }
}

// Reads the file to its end, or one byte more than `most`.
fn read_up_to<F: Read>(
    file: &mut F,
    most: u64,
    into: &mut Vec<u8>,
    bytes_taken: &mut u64,
) -> Result<Size, FetchFault>
    requires { into.old.items ≡ [] }
    ensures longer { result ≡ Ok Size.Longer → RoseBy (most + 1) bytes_taken.old bytes_taken.new }
    ensures taken { result ≡ Ok Size.Whole → RoseBy (length into.new.items) bytes_taken.old bytes_taken.new }
    ensures most { bytes_taken.new ≤ bytes_taken.old + (most + 1) }
    ensures bytes_taken_stay { bytes_taken.old ≤ bytes_taken.new }
{
    let mut buffer = [0u8; BUFFER];
    let mut left = most;
    'pieces: loop {
        let want = left.min(BUFFER as u64 - 1) as usize + 1;
        let Ok(count) = file.read(&mut buffer[..want]) else {
            return Err(FetchFault::Failed);
        };
        *bytes_taken = bytes_taken.saturating_add(count as u64);
        if count == 0 {
            return Ok(Size::Whole);
        }
        if count as u64 > left {
            return Ok(Size::Longer);
        }
        if into.extend_from_slice(&buffer[..count]).is_err() {
            return Err(FetchFault::NoMemory);
        }
        left -= count as u64;
    }
}

/// Standard output. It reports nothing of what it took, and any write may fail.
#[derive(Drop)]
pub struct StandardSink<'a, R: Print> {
    rt: &'a R,
    faults: u64,
}

impl<'a, R: Print> StandardSink<'a, R> {
    /// The standard output of the runtime.
    pub fn new(rt: &'a R) -> StandardSink<'a, R>
        ensures { result.faults ≡ 0 }
    {
        StandardSink { rt, faults: 0 }
    }
}

impl<'a, R: Print> Sink for StandardSink<'a, R> {
    ghost state = { λ s. record { taken = None; room = 0; faults = s.faults } };

    fn write(&mut self, piece: &[u8]) -> Result<usize, Failed> {
        let count = self.rt.write_some(piece).unwrap_or(0);
        if count == 0 && !piece.is_empty() {
            self.faults = self.faults.saturating_add(1);
            return Err(Failed);
        }
        Ok(count)
    }
}
