//! Workers: that they judge beside each other, and that the report is the same for each number.

use crate::asking::{Asked, is_answered, run_with, shelf_of};
use pair_driver::Gate;
use std::sync::atomic::{AtomicU64, Ordering};
use std::test::*;
use std::thread::Threads;

const NO_FUNCTION: &str = "; no function\n";

const ONE_FUNCTION: &str = "define i8 @f() {\n  ret i8 7\n}\n";

const THREE_FUNCTIONS: &str = "define i8 @f() {\n  ret i8 7\n}\n\
     define i8 @g() {\n  ret i8 7\n}\n\
     define i8 @h() {\n  ret i8 7\n}\n";

const OTHER_SECOND: &str = "define i8 @f() {\n  ret i8 7\n}\n\
     define i8 @g() {\n  ret i8 6\n}\n\
     define i8 @h() {\n  ret i8 7\n}\n";

const FOUR_FUNCTIONS: &str = "define i8 @a() {\n  ret i8 7\n}\n\
     define i8 @b() {\n  ret i8 7\n}\n\
     define i8 @c() {\n  ret i8 7\n}\n\
     define i8 @d() {\n  ret i8 7\n}\n";

const NO_ROWS: &str = "tv 2 turns 4 blocks 2 bytes 8 rounds 64 conflicts 0 weight 100000
correct 0 incorrect 0 unknown 0 refused 0 signature 0 missing 0 extra 0
";

const ONE_ROW: &str = "tv 2 turns 4 blocks 2 bytes 8 rounds 64 conflicts 0 weight 100000
@f correct
correct 1 incorrect 0 unknown 0 refused 0 signature 0 missing 0 extra 0
";

const SECOND_WRONG: &str = "tv 2 turns 4 blocks 2 bytes 8 rounds 64 conflicts 0 weight 100000
@f correct
@g incorrect
  source returns 7
  target returns 6
@h correct
correct 2 incorrect 1 unknown 0 refused 0 signature 0 missing 0 extra 0
";

/// Fails where a command line gives another report: of no pairs, of one that holds, and of three of
/// which the second is wrong.
fn are_reported<R: AllocGlobal + Threads + Sync>(rt: &R, line: &str) -> Result<(), Fail> {
    for (source, target, status, output) in [
        (NO_FUNCTION, NO_FUNCTION, 0, NO_ROWS),
        (ONE_FUNCTION, ONE_FUNCTION, 0, ONE_ROW),
        (THREE_FUNCTIONS, OTHER_SECOND, 1, SECOND_WRONG),
    ] {
        let asked = Asked {
            line,
            source,
            target,
            status,
            output,
        };
        is_answered(rt, &asked)?;
    }
    Ok(())
}

#[test]
fn reports_do_not_depend_on_the_number_of_workers(rt: HostRuntime) -> Result<(), Fail> {
    are_reported(&rt, "tv check --workers 1 A B")?;
    are_reported(&rt, "tv check --workers 2 A B")?;
    are_reported(&rt, "tv check --workers 64 A B")
}

/// A gate that holds the first pair until this number of others has passed, or gives up.
#[derive(Drop)]
struct HoldsFirst {
    others: u64,
    passed: AtomicU64,
    gave_up: AtomicU64,
}

impl Gate for HoldsFirst {
    fn pass(&self, pair: u64) {
        if pair != 0 {
            self.passed.fetch_add(1, Ordering::SeqCst);
            return;
        }
        for _ in 0..2_000_000_000u64 {
            if self.passed.load(Ordering::SeqCst) >= self.others {
                return;
            }
        }
        self.gave_up.store(1, Ordering::SeqCst);
    }
}

/// While one worker is held at the first pair, another judges all the others: a split of the pairs
/// in advance would give up at three.
#[test]
fn a_free_worker_takes_the_rest(rt: HostRuntime) -> Result<(), Fail> {
    let gate = HoldsFirst {
        others: 3,
        passed: AtomicU64::new(0),
        gave_up: AtomicU64::new(0),
    };
    let module = FOUR_FUNCTIONS.as_bytes();
    let mut shelf = shelf_of(rt.alloc(), module, module)?;
    let ran = run_with(&rt, &mut shelf, &gate, "tv check --workers 2 A B")?;
    if ran.status == 0 && ran.judged == 4 && gate.gave_up.load(Ordering::SeqCst) == 0 {
        Ok(())
    } else {
        Err(Fail::new("the free worker did not take the rest"))
    }
}
