//! Rows of tables, and how they are asked of `run`.

use pair_driver::{Gate, OpenGate};
use std::alloc::Global;
use std::collections::BTreeMap;
use std::test::*;
use std::thread::Threads;
use support::NoMemory;
use tv_io::{FailingSink, MemoryShelf, MemorySink, Shelf};
use tv_run::run;

/// The arguments of a command line, separated by spaces.
pub fn arguments_of(alloc: Global, line: &str) -> Result<Vec<String>, NoMemory> {
    let mut arguments = Vec::new(alloc);
    for argument in line.split_whitespace() {
        arguments.push(String::from_str(alloc, argument)?)?;
    }
    Ok(arguments)
}

/// The files A and B.
pub fn files_of(
    alloc: Global,
    source: &[u8],
    target: &[u8],
) -> Result<BTreeMap<String, Vec<u8>>, NoMemory> {
    let mut files = BTreeMap::new(alloc);
    files.insert(
        String::from_str(alloc, "A")?,
        Vec::from_slice(alloc, source)?,
    )?;
    files.insert(
        String::from_str(alloc, "B")?,
        Vec::from_slice(alloc, target)?,
    )?;
    Ok(files)
}

/// A shelf with the files A and B.
pub fn shelf_of(alloc: Global, source: &[u8], target: &[u8]) -> Result<MemoryShelf, NoMemory> {
    Ok(MemoryShelf::new(files_of(alloc, source, target)?))
}

/// What a run writes, its status, and how many pairs it judged.
#[derive(Drop)]
pub struct Ran {
    pub bytes: Vec<u8>,
    pub status: u8,
    pub judged: usize,
}

/// A run of a command line over a shelf, with a gate for its pairs.
pub fn run_with<R: AllocGlobal + Threads + Sync, S: Shelf, G: Gate>(
    rt: &R,
    shelf: &mut S,
    gate: &G,
    line: &str,
) -> Result<Ran, NoMemory> {
    let arguments = arguments_of(rt.alloc(), line)?;
    let mut out = MemorySink::new(rt.alloc(), 1_000)?;
    let mut judged = Vec::new(rt.alloc());
    let status = run(rt, arguments.as_slice(), shelf, &mut out, gate, &mut judged);
    Ok(Ran {
        bytes: out.bytes,
        status,
        judged: judged.len(),
    })
}

/// What a run of a command line over a shelf writes, and its status.
pub fn written<R: AllocGlobal + Threads + Sync, S: Shelf>(
    rt: &R,
    shelf: &mut S,
    line: &str,
) -> Result<(Vec<u8>, u8), NoMemory> {
    let Ran { bytes, status, .. } = run_with(rt, shelf, &OpenGate, line)?;
    Ok((bytes, status))
}

/// What a run writes to a sink that takes ten bytes a call and fails at one of its calls, and its status.
pub fn written_until<R: AllocGlobal + Threads + Sync>(
    rt: &R,
    shelf: &mut MemoryShelf,
    line: &str,
    failing: u64,
) -> Result<(Vec<u8>, u8), NoMemory> {
    let alloc = rt.alloc();
    let mut out = FailingSink::new(alloc, 1_000, 10, vec![in alloc; failing]?)?;
    let arguments = arguments_of(alloc, line)?;
    let mut judged = Vec::new(alloc);
    let status = run(
        rt,
        arguments.as_slice(),
        shelf,
        &mut out,
        &OpenGate,
        &mut judged,
    );
    let taken = Vec::from_slice(alloc, out.sink.bytes.as_slice())?;
    Ok((taken, status))
}

/// A command line over the files A and B, and what it must answer.
#[derive(Clone, Copy, Drop)]
pub struct Asked<'a> {
    pub line: &'a str,
    pub source: &'a str,
    pub target: &'a str,
    pub status: u8,
    pub output: &'a str,
}

/// What a row asks: its name, the command line, after `--- A` and `--- B` the two files, and after
/// `--- ` the status and on the lines that follow what is written.
pub fn asked_in(row: &str) -> Option<Asked<'_>> {
    let (_, row) = row.split_once("\n")?;
    let (line, row) = row.split_once("\n--- A\n")?;
    let (source, row) = row.split_once("--- B\n")?;
    let (target, row) = row.split_once("--- ")?;
    let (status, output) = row.split_once("\n")?;
    Some(Asked {
        line,
        source,
        target,
        status: status.parse::<u8>().ok()?,
        output,
    })
}

/// Fails where `run` gives another status or output.
pub fn is_answered<R: AllocGlobal + Threads + Sync>(rt: &R, asked: &Asked) -> Result<(), Fail> {
    let mut shelf = shelf_of(rt.alloc(), asked.source.as_bytes(), asked.target.as_bytes())?;
    let (bytes, status) = written(rt, &mut shelf, asked.line)?;
    if status == asked.status && bytes.as_slice() == asked.output.as_bytes() {
        Ok(())
    } else {
        Err(Fail::new(format_args!("{}: status {status} for\n{}", asked.line, asked.source)))
    }
}
