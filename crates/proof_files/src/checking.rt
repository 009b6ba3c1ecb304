//! The check of a proof file's parts.

ghost use Rattle.std.specs.Prelude.{◌≡◌, ◌≤◌, ◌<◌, ◌++◌, IfOk, OnOk, codes, length};
ghost use Rattle.std.specs.Fmt.{decimal};
ghost use Rattle.proof_text.specs.Format.{status_text};
ghost use Rattle.proof_files.specs.Checks.{AreChecked, IsBadStep, counts_line, outcome_line, outcome_text};

use clause_log::{LogFault, check_log};
use proof_text::Part;
use std::alloc::Global;
use std::thread::Threads;
use support::NoMemory;

/// What is written of a proof file, and the status: 1 where some part is bad, else 0.
#[derive(Drop)]
pub struct Checked {
    pub text: Vec<u8>,
    pub status: u8,
    ghost known: { status ≤ 1 },
}

/// Checks the log of each part. There is a line for each, `@NAME correct verified` or `@NAME correct bad
/// step I`, with `incorrect` instead of `correct` for an incorrect row, and a last line with the
/// two counts. Steps are counted from 0.
pub fn check_parts<R: Threads + Sync>(
    rt: &R,
    alloc: Global,
    parts: &[Part],
) -> Result<Checked, NoMemory>
    ensures { IfOk result (λ checked. AreChecked parts.now checked.text.items checked.status) }
{
    let mut text = Vec::new(alloc);
    let mut verified = 0;
    let mut bad = 0;
    for part in parts {
        let step = bad_step(rt, alloc, part)?;
        push_outcome(alloc, &mut text, part, step)?;
        match step {
            None => verified += 1,
            Some(_) => bad += 1,
        }
    }
    push_counts(alloc, &mut text, verified, bad)?;
    let status = if bad == 0 { 0 } else { 1 };
    Ok(Checked { text, status })
}

/// The first bad step of a part's log, or `None` where it refutes its clauses.
fn bad_step<R: Threads + Sync>(
    rt: &R,
    alloc: Global,
    part: &Part,
) -> Result<Option<usize>, NoMemory>
    ensures { IfOk result (IsBadStep part.now) }
{
    match check_log(rt, alloc, &part.cert.cnf, &part.cert.log) {
        Ok(()) => Ok(None),
        Err(LogFault::BadStep { index }) => Ok(Some(index)),
        Err(LogFault::NoMemory) => Err(NoMemory),
    }
}

fn push_outcome(
    alloc: Global,
    text: &mut Vec<u8>,
    part: &Part,
    step: Option<usize>,
) -> Result<(), NoMemory>
    ensures { OnOk result (text.new.items ≡ text.old.items ++ outcome_line part.now step) }
{
    text.extend_from_slice(b"@")?;
    text.extend_from_slice(part.name.as_slice())?;
    push_status(text, part.is_correct)?;
    push_step(alloc, text, step)?;
    text.extend_from_slice(b"\n")?;
    Ok(())
}

fn push_status(text: &mut Vec<u8>, is_correct: bool) -> Result<(), NoMemory>
    ensures { OnOk result (text.new.items ≡ text.old.items ++ status_text is_correct) }
{
    if is_correct {
        text.extend_from_slice(b" correct")?;
    } else {
        text.extend_from_slice(b" incorrect")?;
    }
    Ok(())
}

fn push_step(alloc: Global, text: &mut Vec<u8>, step: Option<usize>) -> Result<(), NoMemory>
    ensures { OnOk result (text.new.items ≡ text.old.items ++ outcome_text step) }
{
    match step {
        None => text.extend_from_slice(b" verified")?,
        Some(index) => {
            text.extend_from_slice(b" bad step ")?;
            push_number(alloc, text, index)?;
        }
    }
    Ok(())
}

fn push_counts(
    alloc: Global,
    text: &mut Vec<u8>,
    verified: usize,
    bad: usize,
) -> Result<(), NoMemory>
    ensures { OnOk result (text.new.items ≡ text.old.items ++ counts_line verified bad) }
{
    text.extend_from_slice(b"verified ")?;
    push_number(alloc, text, verified)?;
    text.extend_from_slice(b" bad ")?;
    push_number(alloc, text, bad)?;
    text.extend_from_slice(b"\n")?;
    Ok(())
}

fn push_number(alloc: Global, text: &mut Vec<u8>, number: usize) -> Result<(), NoMemory>
    ensures { OnOk result (text.new.items ≡ text.old.items ++ decimal number) }
{
    text.extend_from_slice(number.to_string(alloc)?.as_bytes())?;
    Ok(())
}
