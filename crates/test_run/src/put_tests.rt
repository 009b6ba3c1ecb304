//! What a put of the system's shelf asks of the system, call by call, where a name is taken or one of
//! the calls fails.
//!
//! The system here has no files. It writes down each call as a digit: 1 a file beside is made, 2 a
//! file is written, 3 the file beside is renamed, 4 it is removed, 5 a file is synced, 6 the file
//! beside gets the permissions of the old one, 7 the file of the name is opened in place, and 9 any
//! other; reads of what a name is are left out.

use std::alloc::{Allocator, Global};
use std::cell::Cell;
use std::fs::{Metadata, OpenFile, OpenOptions, Permissions};
use std::io;
use std::io::{Error, ErrorKind, Read, Seek, SeekFrom, Write};
use std::os::unix::fs::PermissionsExt;
use std::rt::Files;
use std::test::*;
use tv_io::{FileShelf, PutFault, Shelf};

/// The name that is put.
const OLD: &str = "old";

/// What is tried beside it, in this order.
const BESIDE: &str = "old.tv-new old.tv-new1 old.tv-new2 old.tv-new3 old.tv-new4 \
old.tv-new5 old.tv-new6 old.tv-new7 old.tv-new8 old.tv-new9";

/// The permissions of a `Metadata::of_file`, with its type.
const OLD_MODE: u32 = 0o100_644;

/// What has the name that is put, how many of the names beside it are taken, and the digit of the
/// call that fails, 0 for none.
#[derive(Clone, Copy)]
struct Case<'t> {
    found: &'t str,
    taken: usize,
    fails: u64,
}

/// The system: its case, the calls so far, and how many names beside were tried.
#[derive(Drop)]
struct Watched<'c> {
    case: Case<'c>,
    calls: &'c Cell<u64>,
    tries: &'c Cell<usize>,
}

impl Watched<'_> {
    fn call(&self, digit: u64) -> io::Result<()> {
        write_down(self.calls, digit);
        if digit == self.case.fails {
            return Err(Error::from(ErrorKind::PermissionDenied));
        }
        Ok(())
    }

    /// The call is the next try of a name beside.
    fn try_beside(&self, path: &str) -> io::Result<()> {
        let tries = self.tries.get();
        self.tries.set(tries.saturating_add(1));
        let is_next = BESIDE.split(' ').nth(tries) == Some(path);
        self.call(if is_next { 1 } else { 9 })?;
        if tries < self.case.taken {
            return Err(Error::from(ErrorKind::AlreadyExists));
        }
        Ok(())
    }

    /// Whether the path is that of the file beside, the last that was tried.
    fn is_beside(&self, path: &str) -> bool {
        let last = self.tries.get().saturating_sub(1);
        BESIDE.split(' ').nth(last) == Some(path)
    }
}

fn write_down(calls: &Cell<u64>, digit: u64) {
    calls.set(calls.get().saturating_mul(10).saturating_add(digit));
}

impl<'c> Files for Watched<'c> {
    type File = Opened<'c>;

    type Dir = Nothing;

    fn open_file(&self, how: &OpenOptions, path: &str) -> io::Result<Opened<'c>> {
        let whole = how.asks_truncate() && how.asks_create() && !how.asks_create_new();
        if how.asks_write() && how.asks_create_new() {
            self.try_beside(path)?;
        } else {
            self.call(if whole && path == OLD { 7 } else { 9 })?;
        }
        Ok(Opened {
            case: self.case,
            calls: self.calls,
        })
    }

    fn open_dir(&self, _path: &str) -> io::Result<Nothing> {
        Err(Error::from(ErrorKind::Unsupported))
    }

    fn metadata(&self, _path: &str) -> io::Result<Metadata> {
        Err(Error::from(ErrorKind::NotFound))
    }

    fn symlink_metadata(&self, path: &str) -> io::Result<Metadata> {
        match self.case.found {
            "file" if path == OLD => Ok(Metadata::of_file(5)),
            "link" if path == OLD => Ok(Metadata::of_symlink(5)),
            "folder" if path == OLD => Ok(Metadata::of_dir()),
            "secret" => Err(Error::from(ErrorKind::PermissionDenied)),
            _ => Err(Error::from(ErrorKind::NotFound)),
        }
    }

    fn copy(&self, _from: &str, _to: &str) -> io::Result<u64> {
        self.call(9)?;
        Ok(0)
    }

    fn rename(&self, from: &str, to: &str) -> io::Result<()> {
        self.call(if self.is_beside(from) && to == OLD {
            3
        } else {
            9
        })
    }

    fn remove_file(&self, path: &str) -> io::Result<()> {
        self.call(if self.is_beside(path) { 4 } else { 9 })
    }

    fn create_dir(&self, _path: &str) -> io::Result<()> {
        self.call(9)
    }

    fn remove_dir(&self, _path: &str) -> io::Result<()> {
        self.call(9)
    }

    fn remove_dir_all<B: Allocator>(&self, _alloc: B, _path: &str) -> io::Result<()> {
        self.call(9)
    }

    fn set_permissions(&self, _path: &str, _perm: Permissions) -> io::Result<()> {
        self.call(9)
    }
}

/// A file that is open. It takes four bytes at a write, and the second write is the one that may
/// fail; a link leads to a pipe, which can't be synced.
#[derive(Drop)]
struct Opened<'c> {
    case: Case<'c>,
    calls: &'c Cell<u64>,
}

impl Write for Opened<'_> {
    fn write(&mut self, buf: &[u8]) -> io::Result<usize> {
        let before = self.calls.get();
        write_down(self.calls, 2);
        if self.case.fails == 2 && before % 10 == 2 {
            return Err(Error::from(ErrorKind::Other));
        }
        Ok(buf.len().min(4))
    }

    fn flush(&mut self) -> io::Result<()> {
        Ok(())
    }
}

impl Read for Opened<'_> {
    fn read(&mut self, _buf: &mut [u8]) -> io::Result<usize> {
        Ok(0)
    }
}

impl Seek for Opened<'_> {
    fn seek(&mut self, _to: SeekFrom) -> io::Result<u64> {
        Ok(0)
    }
}

impl OpenFile for Opened<'_> {
    fn metadata(&self) -> io::Result<Metadata> {
        Err(Error::from(ErrorKind::Unsupported))
    }

    fn set_len(&self, _size: u64) -> io::Result<()> {
        Ok(())
    }

    fn sync_all(&self) -> io::Result<()> {
        write_down(self.calls, 5);
        if self.case.fails == 5 {
            return Err(Error::from(ErrorKind::StorageFull));
        }
        if self.case.found == "link" {
            return Err(Error::from(ErrorKind::InvalidInput));
        }
        Ok(())
    }

    fn sync_data(&self) -> io::Result<()> {
        Ok(())
    }

    fn set_permissions(&self, perm: Permissions) -> io::Result<()> {
        write_down(self.calls, if perm.mode() == OLD_MODE { 6 } else { 9 });
        if self.case.fails == 6 {
            return Err(Error::from(ErrorKind::PermissionDenied));
        }
        Ok(())
    }
}

/// No folder.
#[derive(Drop)]
struct Nothing;

impl Read for Nothing {
    fn read(&mut self, _buf: &mut [u8]) -> io::Result<usize> {
        Ok(0)
    }
}

/// What has the name, how many names beside are taken, the call that fails, the calls that are
/// made, and what the put answers. Eight bytes take two writes.
const PUTS: &str = "\
nothing 0 0 12253 done
nothing 0 1 17225 done
nothing 0 2 1224 failed
nothing 0 3 122534 failed
nothing 0 4 12253 done
nothing 0 5 12254 failed
nothing 0 6 12253 done
nothing 1 0 112253 done
nothing 9 0 11111111112253 done
nothing 10 0 11111111117225 done
nothing 10 7 11111111117 failed
nothing 10 2 1111111111722 failed
file 0 0 162253 done
file 0 1 17225 done
file 0 2 16224 failed
file 0 3 1622534 failed
file 0 5 162254 failed
file 0 6 1647225 done
file 1 0 1162253 done
file 1 3 11622534 failed
file 1 6 11647225 done
file 10 0 11111111117225 done
file 10 5 11111111117225 failed
link 0 0 7225 done
link 0 2 722 failed
link 0 5 7225 failed
link 0 7 7 failed
folder 0 7 7 failed
secret 0 0 7225 done
secret 0 7 7 failed
";

/// A row's case, the calls, and whether the put is done.
fn row_in(row: &str) -> Option<(Case<'_>, u64, bool)> {
    let (found, row) = row.split_once(" ")?;
    let (taken, row) = row.split_once(" ")?;
    let (fails, row) = row.split_once(" ")?;
    let (calls, answer) = row.split_once(" ")?;
    let case = Case {
        found,
        taken: taken.parse::<usize>().ok()?,
        fails: fails.parse::<u64>().ok()?,
    };
    Some((case, calls.parse::<u64>().ok()?, answer == "done"))
}

/// Fails where a put makes other calls than the row says, or answers another thing.
fn is_made(alloc: Global, row: &str) -> Result<(), Fail> {
    let (case, wanted, is_done) = row_in(row).ok_or("a row")?;
    let calls = Cell::new(0u64);
    let tries = Cell::new(0usize);
    let files = Watched {
        case,
        calls: &calls,
        tries: &tries,
    };
    let put = FileShelf::new(&files).put(alloc, OLD, b"new text");
    let answer = if is_done {
        Ok(())
    } else {
        Err(PutFault::Failed)
    };
    if calls.get() == wanted && put == answer {
        Ok(())
    } else {
        Err(Fail::new(format_args!("{} at {row}", calls.get())))
    }
}

#[test]
fn no_file_but_the_named_one_is_changed(rt: HostRuntime) -> Result<(), Fail> {
    for row in PUTS.lines() {
        is_made(rt.alloc(), row)?;
    }
    Ok(())
}
