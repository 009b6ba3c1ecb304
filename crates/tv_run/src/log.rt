//! The job `log`: a proof file is checked.

ghost use Rattle.std.specs.Prelude.{◌≡◌, IfOk, IfErr, OnOk};
ghost use Rattle.tv_io.specs.State.{ShelfState};
ghost use Rattle.proof_text.specs.declared.part.Proof.{Proof};
ghost use Rattle.proof_text.specs.Format.{IsProof};
ghost use Rattle.proof_files.specs.Checks.{AreChecked};
ghost use Rattle.tv_run.specs.Files.{WhereKnown};
ghost use Rattle.tv_run.specs.Logs.{SaysVerified};
ghost use Rattle.tv_run.specs.Answers.{CountsLog, IsLogStop, IsNoProof, LoadsProof};

use crate::stop::{LogStop, LogTrouble};
use proof_files::{Checked, check_parts};
use proof_text::{ProofFault, parse};
use std::alloc::Global;
use std::thread::Threads;
use tv_io::{FetchFault, Shelf, Size};

/// The most bytes of a proof file.
const PROOF_LIMIT: u64 = 268_435_456;

/// What is written of the proof file of this name, or why it is not checked.
pub fn check_file<S: Shelf, R: Threads + Sync>(
    rt: &R,
    alloc: Global,
    shelf: &mut S,
    name: &str,
) -> Result<Checked, LogStop>
    ensures says { IfOk result (λ checked. WhereKnown (S.state shelf.old).files (λ files. SaysVerified files name.now checked.text.items checked.status)) }
    ensures cause { IfErr result (IsLogStop (S.state shelf.old) (S.state shelf.new) name.now) }
    ensures quiet { OnOk result ((S.state shelf.new).fetch_faults ≡ (S.state shelf.old).fetch_faults) }
    ensures counted { IfErr result (λ stop. CountsLog stop (S.state shelf.old) (S.state shelf.new)) }
    ensures put_faults { (S.state shelf.new).put_faults ≡ (S.state shelf.old).put_faults }
    ensures same { (S.state shelf.new).files ≡ (S.state shelf.old).files }
{
    let text = load_proof(alloc, shelf, name)?;
    let checked = check_text(rt, alloc, text.as_slice())?;
    Ok(checked)
}

/// The bytes of a proof file, at most the limit.
fn load_proof<S: Shelf>(alloc: Global, shelf: &mut S, name: &str) -> Result<Vec<u8>, LogStop>
    ensures loads { IfOk result (LoadsProof (S.state shelf.old) name.now) }
    ensures cause { IfErr result (IsLogStop (S.state shelf.old) (S.state shelf.new) name.now) }
    ensures quiet { OnOk result ((S.state shelf.new).fetch_faults ≡ (S.state shelf.old).fetch_faults) }
    ensures counted { IfErr result (λ stop. CountsLog stop (S.state shelf.old) (S.state shelf.new)) }
    ensures put_faults { (S.state shelf.new).put_faults ≡ (S.state shelf.old).put_faults }
    ensures same { (S.state shelf.new).files ≡ (S.state shelf.old).files }
{
    let mut text = Vec::new(alloc);
    match shelf.fetch(name, PROOF_LIMIT, &mut text) {
        Ok(Size::Whole) => Ok(text),
        Ok(Size::Longer) => Err(LogStop::Trouble(LogTrouble::TooLong)),
        Err(FetchFault::Failed) => Err(LogStop::Trouble(LogTrouble::CannotRead)),
        Err(FetchFault::NoMemory) => Err(LogStop::NoMemory),
    }
}

/// What is written of the parts of a text, or the first line that no proof file has there.
fn check_text<R: Threads + Sync>(rt: &R, alloc: Global, text: &[u8]) -> Result<Checked, LogStop>
    ensures checked { IfOk result (λ checked. (proof : Proof) × IsProof text.now proof × AreChecked proof.parts checked.text.items checked.status) }
    ensures no_proof { IfErr result (IsNoProof text.now) }
{
    match parse(alloc, text) {
        Ok(proof) => Ok(check_parts(rt, alloc, proof.parts.as_slice())?),
        Err(ProofFault::Line(line)) => Err(LogStop::Trouble(LogTrouble::Line(line))),
        Err(ProofFault::NoMemory) => Err(LogStop::NoMemory),
    }
}
