//! From a text to the proof that it has.

ghost use Rattle.std.specs.Prelude.{◌≡◌, ◌==◌, ◌<◌, ◌≤◌, ◌-◌, ◌++◌, ◌∷◌, [], ◌+◌, ℕ, All, Bool, IfErr, IfNone, IfOk, IfSome, List, OnOk, codes, count_by, length, map, take};
ghost use Rattle.proof_text.specs.Format.{IsClauseOver, IsHead, IsPart, IsPrintedName, IsProof, IsSmall, IsStepOver, clause_line, counts_line, head_line, head_lines, log_line, part_lines, row_line, status_text, step_line};
ghost use Rattle.proof_text.specs.declared.part.Proof.{Proof};
ghost use Rattle.proof_text.specs.FirstFault.{IsFaultOf};
ghost use Rattle.proof_text.specs.OneReading.{IsSameProof};
ghost use Rattle.proof_text.specs.Following as follow;
ghost use Rattle.proof_text.specs.Following.{IsStopped, Moves};

use crate::cursor::Lines;
use crate::names::is_printed_name;
use crate::part::{Head, Part, Proof, ProofFault, Stop};
use crate::words::{Counts, clause_in, counts_in, head_in, log_in, step_in};
use clause_lits::{Clause, Cnf};
use clause_log::{Cert, Log, Step};
use std::alloc::Global;
use support::{NoMemory, Sequence};

/// A row's name, and whether it is `correct`.
#[derive(Drop)]
struct Row {
    name: Sequence<u8>,
    is_correct: bool,
}

/// What comes before a row's status, and whether that is `correct`.
fn split_status(text: &[u8]) -> Option<(&[u8], bool)>
    ensures some { IfSome result (λ parts. text.now ≡ parts.0.now ++ status_text parts.1) }
    ensures none { IfNone result ((name : List ℕ) (is_correct : Bool) → text.now ≡ name ++ status_text is_correct → ⊥) }
{
    if let Some(name) = text.strip_suffix(b" correct") {
        return Some((name, true));
    }
    let name = text.strip_suffix(b" incorrect")?;
    Some((name, false))
}

/// The row of a line.
fn row_in(alloc: Global, line: &[u8]) -> Result<Option<Row>, NoMemory>
    ensures { IfOk result (λ found. follow.IsRowRead line.now found) }
{
    let Some(rest) = line.strip_prefix(b"row @") else {
        return Ok(None);
    };
    let Some((name, is_correct)) = split_status(rest) else {
        return Ok(None);
    };
    if !is_printed_name(alloc, name)? {
        return Ok(None);
    }
    let name = Sequence::from_vec(Vec::from_slice(alloc, name)?);
    Ok(Some(Row { name, is_correct }))
}

/// Reads the line of a row.
fn read_row(alloc: Global, lines: &mut Lines) -> Result<Row, Stop>
    requires { 0 < length lines.old }
    ensures ok { IfOk result (λ r. IsPrintedName r.name × Moves follow.Rows lines.old (row_line r.name r.is_correct ∷ []) follow.Counts lines.new) }
    ensures err { IfErr result (IsStopped follow.Rows lines.old) }
{
    let stop = Stop::At { left: lines.left() };
    let Some(line) = lines.next() else {
        return Err(stop);
    };
    match row_in(alloc, line)? {
        Some(row) => Ok(row),
        None => Err(stop),
    }
}

/// Reads the line of the counts.
fn read_counts(lines: &mut Lines) -> Result<Counts, Stop>
    ensures ok { IfOk result (λ r. IsSmall r.variables × IsSmall r.clauses
        × Moves follow.Counts lines.old (counts_line r.variables r.clauses ∷ []) (follow.Clauses r.variables r.clauses) lines.new) }
    ensures err { IfErr result (IsStopped follow.Counts lines.old) }
{
    let stop = Stop::At { left: lines.left() };
    let Some(line) = lines.next() else {
        return Err(stop);
    };
    match counts_in(line) {
        Some(counts) => Ok(counts),
        None => Err(stop),
    }
}

/// Reads the line of a clause, with `left` clauses still to come.
fn read_clause(alloc: Global, variables: u64, left: u64, lines: &mut Lines) -> Result<Clause, Stop>
    requires variables { IsSmall variables }
    requires left { 0 < left }
    ensures ok { IfOk result (λ c. IsClauseOver variables c
        × Moves (follow.Clauses variables left) lines.old (clause_line c ∷ []) (follow.Clauses variables (left - 1)) lines.new) }
    ensures err { IfErr result (IsStopped (follow.Clauses variables left) lines.old) }
{
    let stop = Stop::At { left: lines.left() };
    let Some(line) = lines.next() else {
        return Err(stop);
    };
    match clause_in(alloc, variables, line)? {
        Some(clause) => Ok(clause),
        None => Err(stop),
    }
}

/// Reads this number of clauses.
fn read_clauses(alloc: Global, counts: Counts, lines: &mut Lines) -> Result<Sequence<Clause>, Stop>
    requires variables { IsSmall counts.variables }
    ensures ok { IfOk result (λ cs. (length cs ≡ counts.clauses) × All (IsClauseOver counts.variables) cs
        × Moves (follow.Clauses counts.variables counts.clauses) lines.old (map clause_line cs) (follow.Log counts.variables) lines.new) }
    ensures err { IfErr result (IsStopped (follow.Clauses counts.variables counts.clauses) lines.old) }
{
    let mut all = Sequence::from_vec(Vec::new(alloc));
    for index in 0..counts.clauses {
        all.push(read_clause(alloc, counts.variables, counts.clauses - index, lines)?)?;
    }
    Ok(all)
}

/// Reads the line of the log.
fn read_step_count(variables: u64, lines: &mut Lines) -> Result<u64, Stop>
    ensures ok { IfOk result (λ n. IsSmall n × Moves (follow.Log variables) lines.old (log_line n ∷ []) (follow.Steps variables n) lines.new) }
    ensures err { IfErr result (IsStopped (follow.Log variables) lines.old) }
{
    let stop = Stop::At { left: lines.left() };
    let Some(line) = lines.next() else {
        return Err(stop);
    };
    match log_in(line) {
        Some(steps) => Ok(steps),
        None => Err(stop),
    }
}

/// Reads the line of a step, with `left` steps still to come.
fn read_step(alloc: Global, variables: u64, left: u64, lines: &mut Lines) -> Result<Step, Stop>
    requires variables { IsSmall variables }
    requires left { 0 < left }
    ensures ok { IfOk result (λ s. IsStepOver variables s
        × Moves (follow.Steps variables left) lines.old (step_line s ∷ []) (follow.Steps variables (left - 1)) lines.new) }
    ensures err { IfErr result (IsStopped (follow.Steps variables left) lines.old) }
{
    let stop = Stop::At { left: lines.left() };
    let Some(line) = lines.next() else {
        return Err(stop);
    };
    match step_in(alloc, variables, line)? {
        Some(step) => Ok(step),
        None => Err(stop),
    }
}

/// Reads this number of steps.
fn read_steps(alloc: Global, variables: u64, count: u64, lines: &mut Lines) -> Result<Log, Stop>
    requires variables { IsSmall variables }
    ensures ok { IfOk result (λ log. (length log ≡ count) × All (IsStepOver variables) log
        × Moves (follow.Steps variables count) lines.old (map step_line log) follow.Rows lines.new) }
    ensures err { IfErr result (IsStopped (follow.Steps variables count) lines.old) }
{
    let mut all = Sequence::from_vec(Vec::new(alloc));
    for index in 0..count {
        all.push(read_step(alloc, variables, count - index, lines)?)?;
    }
    Ok(all)
}

/// Reads a part.
fn read_part(alloc: Global, lines: &mut Lines) -> Result<Part, Stop>
    requires { 0 < length lines.old }
    ensures ok { IfOk result (λ p. IsPart p × (p.cert.cnf.front ≡ 0) × Moves follow.Rows lines.old (part_lines p) follow.Rows lines.new) }
    ensures err { IfErr result (IsStopped follow.Rows lines.old) }
{
    let Row { name, is_correct } = read_row(alloc, lines)?;
    let counts = read_counts(lines)?;
    let clauses = read_clauses(alloc, counts, lines)?;
    let count = read_step_count(counts.variables, lines)?;
    let log = read_steps(alloc, counts.variables, count, lines)?;
    let cnf = Cnf::new(counts.variables, clauses, 0);
    Ok(Part {
        name,
        is_correct,
        cert: Cert { cnf, log },
    })
}

/// Reads the first line, and answers whether a head follows: whether the format is 2.
fn read_format(lines: &mut Lines) -> Result<bool, Stop>
    ensures ok { IfOk result (λ has_head. Moves follow.File lines.old (follow.first_line has_head ∷ []) (follow.Rest has_head) lines.new) }
    ensures err { IfErr result (IsStopped follow.File lines.old) }
{
    let stop = Stop::At { left: lines.left() };
    let Some(line) = lines.next() else {
        return Err(stop);
    };
    if line == b"tvproof 1".as_slice() {
        Ok(false)
    } else if line == b"tvproof 2".as_slice() {
        Ok(true)
    } else {
        Err(stop)
    }
}

/// Reads the line of a head.
fn read_head(lines: &mut Lines) -> Result<Head, Stop>
    ensures ok { IfOk result (λ h. IsHead h × Moves follow.Limits lines.old (head_line h ∷ []) follow.Rows lines.new) }
    ensures err { IfErr result (IsStopped follow.Limits lines.old) }
{
    let stop = Stop::At { left: lines.left() };
    let Some(line) = lines.next() else {
        return Err(stop);
    };
    match head_in(line) {
        Some(head) => Ok(head),
        None => Err(stop),
    }
}

/// Reads the lines before the first part.
fn read_header(lines: &mut Lines) -> Result<Option<Head>, Stop>
    ensures ok { IfOk result (λ head. IfSome head IsHead × Moves follow.File lines.old (head_lines head) follow.Rows lines.new) }
    ensures err { IfErr result (IsStopped follow.File lines.old) }
{
    if read_format(lines)? {
        Ok(Some(read_head(lines)?))
    } else {
        Ok(None)
    }
}

/// Reads a whole text.
fn read_proof(alloc: Global, text: &[u8]) -> Result<Proof, Stop>
    ensures ok { IfOk result (λ proof. IsProof text.now proof × All (λ p. p.cert.cnf.front ≡ 0) proof.parts) }
    ensures err { IfErr result (IsStopped follow.File text.now) }
{
    let mut lines = Lines::new(text);
    let head = read_header(&mut lines)?;
    let mut parts = Sequence::from_vec(Vec::new(alloc));
    while lines.left() > 0 {
        parts.push(read_part(alloc, &mut lines)?)?;
    }
    Ok(Proof { head, parts })
}

/// The head and the parts of a proof file of either format, with `front` 0 in their clauses, or the
/// first line, counted from 1, that no proof file has there; where text is missing, the line at which
/// it ends.
pub fn parse(alloc: Global, text: &[u8]) -> Result<Proof, ProofFault>
    // The text is that of this proof.
    ensures proof { IfOk result (IsProof text.now) }
    ensures fronts { IfOk result (λ proof. All (λ p. p.cert.cnf.front ≡ 0) proof.parts) }
    // It is the proof that it was written of, except `front`.
    ensures written { (proof : Proof) → IsProof text.now proof → IfOk result (IsSameProof proof) }
    // It is not the text of any proof, and this is the first line that shows it.
    ensures fault { IfErr result (IsFaultOf text.now) }
{
    match read_proof(alloc, text) {
        Ok(proof) => Ok(proof),
        Err(Stop::NoMemory) => Err(ProofFault::NoMemory),
        Err(Stop::At { left }) => Err(ProofFault::Line(line_of(text, text.len() - left))),
    }
}

/// The line, counted from 1, that a byte is in.
fn line_of(text: &[u8], at: usize) -> u64
    requires { at ≤ length text.now }
    ensures { result ≡ 1 + count_by (λ b. b == 10) (take at text.now) }
{
    1 + text[..at].iter().filter(|byte| **byte == b'\n').count() as u64
}
