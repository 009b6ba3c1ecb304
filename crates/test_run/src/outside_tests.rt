//! What no table of reports shows: files at the limit of their size, sinks that fail, and the gate.

use crate::asking::{run_with, shelf_of, written, written_until};
use pair_driver::Gate;
use std::sync::atomic::{AtomicU64, Ordering};
use std::test::*;
use std::thread::Threads;

/// The most bytes that a file may have.
const LIMIT: usize = 16_777_216;

/// The report of two empty modules.
const EMPTY: &str = "tv 2 turns 4 blocks 2 bytes 8 rounds 64 conflicts 0 weight 100000
correct 0 incorrect 0 unknown 0 refused 0 signature 0 missing 0 extra 0
";

/// Fails where a file of this number of spaces has another status or output.
fn is_answered<R: AllocGlobal + Threads + Sync>(
    rt: &R,
    size: usize,
    output: &str,
    status: u8,
) -> Result<(), Fail> {
    let spaces = vec![in rt.alloc(); b' '; size]?;
    let mut shelf = shelf_of(rt.alloc(), spaces.as_slice(), b"")?;
    let (bytes, answer) = written(rt, &mut shelf, "tv check A B")?;
    if answer == status && bytes.as_slice() == output.as_bytes() {
        Ok(())
    } else {
        Err(Fail::new(format_args!("status {answer} at {size}")))
    }
}

#[test]
fn files_end_at_their_limit(rt: HostRuntime) -> Result<(), Fail> {
    is_answered(&rt, LIMIT, EMPTY, 0)?;
    is_answered(&rt, LIMIT + 1, "too long A\n", 6)
}

/// Fails where a run over the source A and an empty target, whose sink takes ten bytes a call and
/// fails at one of its calls, has another status or output.
fn is_cut<R: AllocGlobal + Threads + Sync>(
    rt: &R,
    source: &[u8],
    line: &str,
    failing: u64,
    written: &[u8],
    status: u8,
) -> Result<(), Fail> {
    let mut shelf = shelf_of(rt.alloc(), source, b"")?;
    let (bytes, answer) = written_until(rt, &mut shelf, line, failing)?;
    if answer == status && bytes.as_slice() == written {
        Ok(())
    } else {
        Err(Fail::new(format_args!("{line}: status {answer} where call {failing} fails")))
    }
}

/// The report of two empty modules has 138 bytes, so it takes fourteen calls. A call that fails cuts it
/// short there, and the status says so.
#[test]
fn a_report_is_cut_where_the_sink_fails(rt: HostRuntime) -> Result<(), Fail> {
    for calls in 0..14u8 {
        let whole = EMPTY.as_bytes();
        let prefix = whole.get(..usize::from(calls) * 10).unwrap_or(whole);
        is_cut(&rt, b"", "tv check A B", u64::from(calls) + 1, prefix, 7)?;
    }
    is_cut(&rt, b"", "tv check A B", 15, EMPTY.as_bytes(), 0)
}

/// The status of a file without a module stays where its line is cut short, and so does that of a
/// file that is not there.
#[test]
fn a_fault_keeps_its_status(rt: HostRuntime) -> Result<(), Fail> {
    is_cut(
        &rt,
        b"define i8 @f(i8 %x) {\n  ret i8",
        "tv check A B",
        1,
        b"",
        9,
    )?;
    is_cut(&rt, b"", "tv check A C", 1, b"", 5)
}

/// A gate that adds up the numbers of the pairs that passed, counted from 1.
#[derive(Drop)]
struct CountingGate {
    sum: AtomicU64,
}

impl Gate for CountingGate {
    fn pass(&self, pair: u64) {
        self.sum.fetch_add(pair.saturating_add(1), Ordering::SeqCst);
    }
}

#[test]
fn each_judged_pair_passes_the_gate(rt: HostRuntime) -> Result<(), Fail> {
    let module = b"define i1 @a() {\n  ret i1 0\n}\ndefine i1 @b() {\n  ret i1 0\n}\n";
    let gate = CountingGate {
        sum: AtomicU64::new(0),
    };
    let mut shelf = shelf_of(rt.alloc(), module, module)?;
    let ran = run_with(&rt, &mut shelf, &gate, "tv check A B")?;
    if ran.status == 0 && ran.judged == 2 && gate.sum.load(Ordering::SeqCst) == 3 {
        Ok(())
    } else {
        Err(Fail::new("other pairs passed the gate"))
    }
}
