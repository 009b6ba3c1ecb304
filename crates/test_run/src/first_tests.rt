//! Reports that end at their first incorrect row, for each number of workers.

use crate::asking::{Asked, is_answered, run_with, shelf_of, written};
use crate::pairs::pair_in;
use ir_reader::read;
use pair_driver::{Gate, Judge, Judged, OpenGate, drive_first};
use points::{Input, Point};
use std::alloc::Global;
use std::sync::atomic::{AtomicU64, Ordering};
use std::test::*;
use std::thread::Threads;
use support::{NoMemory, Sequence};
use verdicts::{Kept, Pair, Verdict};

/// Four functions, the second and the fourth of which the target changes, and one that only it has.
const SOURCE: &str = "define i8 @r2(i8 %x) {\n  ret i8 %x\n}\n\
     define i8 @r3(i8 %x) {\n  ret i8 %x\n}\n\
     define i8 @r4(i8 %x) {\n  ret i8 %x\n}\n\
     define i8 @r5(i8 %x) {\n  ret i8 %x\n}\n";

const TARGET: &str = "define i8 @r2(i8 %x) {\n  ret i8 %x\n}\n\
     define i8 @r3(i8 %x) {\n  ret i8 7\n}\n\
     define i8 @r4(i8 %x) {\n  ret i8 %x\n}\n\
     define i8 @r5(i8 %x) {\n  ret i8 7\n}\n\
     define i8 @r6(i8 %x) {\n  ret i8 %x\n}\n";

const FIRST: &str = "tv 2 turns 4 blocks 2 bytes 8 rounds 64 conflicts 0 weight 100000 first
@r2 correct
@r3 incorrect
  arg 0 = 0
  source returns 0
  target returns 7
correct 1 incorrect 1 unknown 0 refused 0 signature 0 missing 0 extra 0
";

/// The same command line with 1, 2 and 64 workers.
fn is_first<R: AllocGlobal + Threads + Sync>(rt: &R, line: &str) -> Result<(), Fail> {
    is_answered(
        rt,
        &Asked {
            line,
            source: SOURCE,
            target: TARGET,
            status: 1,
            output: FIRST,
        },
    )
}

#[test]
fn the_first_incorrect_row_is_the_last(rt: HostRuntime) -> Result<(), Fail> {
    is_first(&rt, "tv check --first --workers 1 A B")?;
    is_first(&rt, "tv check --workers 2 A B --first")?;
    is_first(&rt, "tv check A --first B --workers 64")
}

/// A gate that adds up the numbers of the pairs that passed, counted from 1.
#[derive(Drop)]
struct CountingGate {
    sum: AtomicU64,
}

impl Gate for CountingGate {
    fn pass(&self, pair: u64) {
        self.sum.fetch_add(pair.saturating_add(1), Ordering::SeqCst);
    }
}

/// One worker begins the first two pairs, of numbers 1 and 2, and no other.
#[test]
fn no_pair_is_begun_after_the_first_incorrect_one(rt: HostRuntime) -> Result<(), Fail> {
    let gate = CountingGate {
        sum: AtomicU64::new(0),
    };
    let mut shelf = shelf_of(rt.alloc(), SOURCE.as_bytes(), TARGET.as_bytes())?;
    let ran = run_with(&rt, &mut shelf, &gate, "tv check --first --workers 1 A B")?;
    if ran.status == 1 && ran.judged == 2 && gate.sum.load(Ordering::SeqCst) == 3 {
        Ok(())
    } else {
        Err(Fail::new("other pairs were begun"))
    }
}

/// The proof file has the parts of the rows that are written.
#[test]
fn the_proof_file_has_the_written_rows(rt: HostRuntime) -> Result<(), Fail> {
    let mut shelf = shelf_of(rt.alloc(), SOURCE.as_bytes(), TARGET.as_bytes())?;
    let (bytes, status) = written(&rt, &mut shelf, "tv check --first --proof P A B")?;
    if status != 1 || bytes.as_slice() != FIRST.as_bytes() {
        return Err(Fail::new("another report"));
    }
    let (bytes, status) = written(&rt, &mut shelf, "tv log P")?;
    let wanted = b"@r2 correct verified\n@r3 incorrect verified\nverified 2 bad 0\n";
    if status == 0 && bytes.as_slice() == wanted.as_slice() {
        Ok(())
    } else {
        Err(Fail::new("other parts"))
    }
}

/// A judge whose second answer is incorrect, and each other one correct.
#[derive(Drop)]
struct SecondIsWrong {
    answered: AtomicU64,
}

impl Judge for SecondIsWrong {
    ghost takes = { λ judge pair. Unit {0} };

    ghost allows = { λ judge pair answer. Unit {0} };

    fn judge(&self, alloc: Global, _pair: &Pair) -> Result<Judged, NoMemory> {
        let verdict = if self.answered.fetch_add(1, Ordering::SeqCst) == 1 {
            Verdict::Incorrect(Point {
                input: Input {
                    args: Sequence::from_vec(Vec::new(alloc)),
                    blocks: Sequence::from_vec(Vec::new(alloc)),
                },
                tape: Sequence::from_vec(Vec::new(alloc)),
            })
        } else {
            Verdict::Correct
        };
        Ok(Judged {
            verdict,
            kept: Kept {
                tapes: Sequence::from_vec(Vec::new(alloc)),
                points: Sequence::from_vec(Vec::new(alloc)),
            },
            cert: None,
        })
    }
}

#[test]
fn no_answer_comes_after_the_first_incorrect_one(rt: HostRuntime) -> Result<(), Fail> {
    let alloc = rt.alloc();
    let text = "define i8 @s() {\n  ret i8 7\n}\ndefine i8 @t() {\n  ret i8 7\n}\n";
    let module = read(alloc, text.as_bytes())
        .ok()
        .ok_or("the module is read")?;
    let pairs = [
        pair_in(&module).ok_or("a pair")?,
        pair_in(&module).ok_or("a pair")?,
        pair_in(&module).ok_or("a pair")?,
    ];
    let judge = SecondIsWrong {
        answered: AtomicU64::new(0),
    };
    let answers = drive_first(&rt, alloc, &judge, &OpenGate, &pairs, 1)?;
    match answers.as_slice() {
        [first, last] => {
            if matches!(first.verdict, Verdict::Correct)
                && matches!(last.verdict, Verdict::Incorrect(_))
            {
                Ok(())
            } else {
                Err(Fail::new("other answers"))
            }
        }
        _ => Err(Fail::new("more answers, or fewer")),
    }
}
