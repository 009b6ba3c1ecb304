//! The C library: a check of two texts, on the caller's thread, for programs that are not Rattle's.
//! `include/tv.h` declares its functions for C, `docs/C_API.md` says how to use them.
//!
//! It promises of each call what `tv_run::check_texts` promises of two texts, and that as much of the
//! report as fits is in the caller's buffer. A C caller has to keep what the header asks of it, which
//! nothing checks. It builds on `tv_run`; no crate builds on it.
#![tactic(auto)]

ghost use Rattle.std.specs.Prelude.{◌≡◌, ◌≢◌, ◌≤◌, ◌⊎◌, codes, length};
ghost use Rattle.points.specs.Range.{AreInRange};
ghost use Rattle.tv_c.specs.Calls.{IsAnswer, bounds_in, budget_in, copied};

mod options;
mod room;

pub use options::TvOptions;
use room::copy_out;
use std::alloc::Global;
use tv_run::check_texts;

/// The status of a call that ran out of memory.
const NO_MEMORY: u32 = 8;
/// The status of a call whose options are out of their ranges.
const BAD_OPTIONS: u32 = 16;

/// Checks two texts, and copies as much of the report as fits into the room for it. The whole report has
/// `report_length` bytes, also where the room is smaller; it is 0 where there is none.
///
/// The status is that of `tv check` on two files with these texts, by which 0 to 3 come with a report,
/// and 6 and 9 with the line that says why there is none; 8 out of memory; 16 options out of range.
#[unsafe(no_mangle)]
pub extern "C" fn tv_check_into(
    alloc: Global,
    source: &[u8],
    target: &[u8],
    options: &TvOptions,
    report: &mut [u8],
    report_length: &mut usize,
) -> u32
    // The report or the line is that of the two texts, as `check_texts` says.
    ensures answer { result ≢ 8 → result ≢ 16 → IsAnswer source.now target.now options.now result
        report.old report.new report_length.new }
    // 16 comes where the options are out of range, and only there.
    ensures in_range { AreInRange (bounds_in options.now) (budget_in options.now) → result ≢ 16 }
    ensures out_of_range { (AreInRange (bounds_in options.now) (budget_in options.now) → ⊥)
        → result ≡ 16 }
    // There is no other status.
    ensures known { (result ≤ 3) ⊎ (result ≡ 6) ⊎ (result ≡ 8) ⊎ (result ≡ 9) ⊎ (result ≡ 16) }
{
    *report_length = 0;
    if !options.are_in_range() {
        return BAD_OPTIONS;
    }
    let (bounds, budget) = (options.bounds(), options.budget());
    let Ok(checked) = check_texts(alloc, source, target, &bounds, &budget) else {
        return NO_MEMORY;
    };
    *report_length = checked.written.len();
    copy_out(checked.written.as_slice(), report);
    checked.status as u32
}

/// Copies as much as fits of the version of the report's form, and answers its length. A report begins
/// with `tv` and that version.
#[unsafe(no_mangle)]
pub extern "C" fn tv_version(version: &mut [u8]) -> usize
    ensures count { result ≡ length (codes "1") }
    ensures copied { version.new ≡ copied (codes "1") version.old }
{
    copy_out(b"1", version);
    1
}
