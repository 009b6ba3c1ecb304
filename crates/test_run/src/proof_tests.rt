//! Proof files that are read and written back, and damaged ones with the line that is reported.
//!
//! The clauses and steps are worked out by hand; what a number, a name or a line may look like is
//! that of the DIMACS CNF format and of LRAT, as `proof_text` narrows them. The heads are those
//! of the first lines of reports, and these with one thing changed.

use proof_text::{Head, ProofFault, parse, write};
use std::alloc::Global;
use std::test::*;

/// The clauses `1` and `-1`, and the one step that refutes them.
const ONE_PART: &str = "tvproof 1\nrow @f correct\np cnf 1 2\n1 0\n-1 0\nlog 1\n1 2 0 0\n";

/// Files that are taken: what is read from them is written as the same bytes.
const TAKEN: [&str; 8] = [
    "tvproof 1\n",
    ONE_PART,
    "tvproof 1\nrow @\"a b\" incorrect\np cnf 3 1\n1 -2 3 0\nlog 0\n",
    "tvproof 1\nrow @0 correct\np cnf 0 0\nlog 1\n0 0\nrow @\"\\22\" correct\np cnf 0 0\nlog 0\n",
    "tvproof 1\nrow @f correct\np cnf 4611686018427387903 1\n4611686018427387903 0\nlog 0\n",
    "tvproof 2\nturns 4 blocks 2 bytes 8 rounds 64 conflicts 0 weight 100000\n",
    "tvproof 2\nturns 0 blocks 0 bytes 0 rounds 0 conflicts 9223372036854775807 weight 0\n",
    "tvproof 2\nturns 1 blocks 2 bytes 3 rounds 4 conflicts 5 weight 6\nrow @f correct\np cnf 0 0\nlog 0\n",
];

/// Files that are not taken, and the first line that no proof file has there.
const REFUSED: [(&str, u64); 32] = [
    ("", 1),
    ("tvproof 1", 1),
    ("tvproof 2", 1),
    ("tvproof 3\n", 1),
    ("tvproof 12\n", 1),
    ("tvproof 2\n", 2),
    ("tvproof 2\nrow @f correct\n", 2),
    (
        "tvproof 1\nturns 4 blocks 2 bytes 8 rounds 64 conflicts 0 weight 9\n",
        2,
    ),
    (
        "tvproof 2\nturns 4 blocks 2 bytes 8 rounds 64 conflicts 0 weight 9223372036854775808\n",
        2,
    ),
    (
        "tvproof 2\nturns 4 blocks 07 bytes 8 rounds 64 conflicts 0 weight 9\n",
        2,
    ),
    (
        "tvproof 2\nturns 4 blocks 2 bytes 8 rounds 64 conflicts 0 weight 9 \n",
        2,
    ),
    (
        "tvproof 2\nturns 4 blocks 2 bytes 8 rounds 64 conflicts 0\n",
        2,
    ),
    (
        "tvproof 2\nblocks 2 turns 4 bytes 8 rounds 64 conflicts 0 weight 9\n",
        2,
    ),
    (
        "tvproof 2\nturns 4 blocks 2 bytes 8 rounds 64 conflicts 0 weight 9",
        2,
    ),
    (
        "tvproof 2\nturns 4 blocks 2 bytes 8 rounds 64 conflicts 0 weight 9\nrow @f verified\n",
        3,
    ),
    ("tvproof 1\nrow @\"f\" correct\n", 2),
    ("tvproof 1\nrow @a b correct\n", 2),
    ("tvproof 1\nrow @00 correct\n", 2),
    ("tvproof 1\nrow @f verified\n", 2),
    ("tvproof 1\nrow @f correct\n", 3),
    (
        "tvproof 1\nrow @f correct\np cnf 4611686018427387904 0\n",
        3,
    ),
    ("tvproof 1\nrow @f correct\np cnf 01 0\n", 3),
    (
        "tvproof 1\nrow @f correct\np cnf 1 4611686018427387903\n1 0\n",
        5,
    ),
    ("tvproof 1\nrow @f correct\np cnf 2 1\n2 1 0\n", 4),
    ("tvproof 1\nrow @f correct\np cnf 1 1\n2 0\n", 4),
    ("tvproof 1\nrow @f correct\np cnf 1 1\n+1 0\n", 4),
    ("tvproof 1\nrow @f correct\np cnf 1 1\n1  0\n", 4),
    ("tvproof 1\nrow @f correct\np cnf 1 1\nc\n1 0\n", 4),
    ("tvproof 1\nrow @f correct\np cnf 0 0\nlog 1\n0 2 0 0\n", 5),
    ("tvproof 1\nrow @f correct\np cnf 0 0\nlog 1\n1 0\n", 5),
    ("tvproof 1\nrow @f correct\np cnf 0 0\nlog 1\n1 0 0", 5),
    ("tvproof 1\nrow @f correct\np cnf 0 0\nlog 0\n\n", 5),
];

fn is_taken(alloc: Global, text: &str) -> Result<(), Fail> {
    let proof = parse(alloc, text.as_bytes())?;
    let written = write(alloc, &proof)?;
    if written.as_slice() == text.as_bytes() {
        Ok(())
    } else {
        Err(Fail::new(text))
    }
}

#[test]
fn a_head_has_its_numbers(rt: HostRuntime) -> Result<(), Fail> {
    let text = b"tvproof 2\nturns 1 blocks 2 bytes 3 rounds 4 conflicts 5 weight 6\n";
    let head = Head {
        turns: 1,
        blocks: 2,
        bytes: 3,
        rounds: 4,
        conflicts: 5,
        weight: 6,
    };
    let found = parse(rt.alloc(), text)?.head;
    if found == Some(head) {
        Ok(())
    } else {
        Err(Fail::new("another head"))
    }
}

#[test]
fn files_are_written_as_they_were_read(rt: HostRuntime) -> Result<(), Fail> {
    for text in &TAKEN {
        is_taken(rt.alloc(), text)?;
    }
    Ok(())
}

fn is_refused(alloc: Global, text: &str, line: u64) -> Result<(), Fail> {
    match parse(alloc, text.as_bytes()) {
        Err(ProofFault::NoMemory) => Err(ProofFault::NoMemory.into()),
        Err(ProofFault::Line(found)) if found == line => Ok(()),
        Err(ProofFault::Line(found)) => Err(Fail::new(format_args!("line {found} of {text}"))),
        Ok(_) => Err(Fail::new(format_args!("taken: {text}"))),
    }
}

#[test]
fn the_first_wrong_line_is_reported(rt: HostRuntime) -> Result<(), Fail> {
    for &(text, line) in &REFUSED {
        is_refused(rt.alloc(), text, line)?;
    }
    Ok(())
}
