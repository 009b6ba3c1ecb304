ghost use Rattle.std.specs.Prelude.{◌≡◌, ◌≤◌, ◌<◌, ◌^◌, IfOk, IfSome, codes, map, option_map, string_bytes};
ghost use Rattle.clap.specs.Words.{first_of, found_of, rows_of};
ghost use Rattle.points.specs.Range.{AreInRange};
ghost use Rattle.tv_cli.specs.Words.{job_of, range, workers_range};
ghost use Rattle.tv_cli.specs.Walked.{bounds_in_rows, budget_in_rows, check_in_rows, is_set, job_in_rows, job_walked, make_in_rows, number_or_usual};
ghost use Rattle.tv_cli.specs.Seen.{seen, seen_check, seen_make, IsInRange};

use crate::command::{command, is_memory};
use crate::number::{Range, number_in};
use clap::ArgMatches;
use points::{Bounds, Budget};
use std::alloc::Global;
use support::NoMemory;

/// What a command line asks for.
#[derive(Drop)]
pub enum Job<'w> {
    /// `check A B`: the report of two files.
    Check(Check<'w>),
    /// `log FILE`: check a proof file.
    Log { file: &'w str },
    /// `make`: make a pair of modules, and count the rows of its report.
    Make(Make),
}

/// The files that are checked, what their pairs are judged within, how many workers judge them, the
/// file that the proof is written to, if any, and whether the report ends at its first incorrect row.
#[derive(Drop)]
pub struct Check<'w> {
    pub source: &'w str,
    pub target: &'w str,
    pub bounds: Bounds,
    pub budget: Budget,
    pub workers: u64,
    pub proof: Option<&'w str>,
    /// `--first`: no row after the first incorrect one.
    pub first: bool,
}

/// A pair of modules that is made from a seed, below 2^31: how many functions it has, at most 4,096,
/// each of how many instructions, at most 64; what its pairs are judged within, and by how many workers.
#[derive(Clone, Copy, Drop)]
pub struct Make {
    pub seed: u64,
    pub functions: u64,
    pub insts: u64,
    pub bounds: Bounds,
    pub budget: Budget,
    pub workers: u64,
}

/// The job that the arguments of a command line ask for, the program's name first, or `None` where
/// the command line is rejected. The only error is out of memory.
pub fn read_job<'w>(alloc: Global, words: &'w [String]) -> Result<Option<Job<'w>>, NoMemory>
    ensures job { IfOk result (λ found. option_map seen found ≡ job_of (map string_bytes words.entry.now)) }
    ensures in_range { IfOk result (λ found. IfSome found IsInRange) }
{
    walked(alloc, words)
}

// The job that a walk of the arguments gives.
fn walked<'w>(alloc: Global, words: &'w [String]) -> Result<Option<Job<'w>>, NoMemory>
    ensures job { IfOk result (λ found. option_map seen found ≡ job_walked (map string_bytes words.entry.now)) }
    ensures in_range { IfOk result (λ found. IfSome found IsInRange) }
{
    let command = command(alloc)?;
    let matches = match command.try_get_matches_from(words) {
        Ok(matches) => matches,
        Err(error) => {
            if is_memory(&error) {
                return Err(NoMemory);
            }
            return Ok(None);
        }
    };
    let Some((name, inner)) = matches.subcommand() else {
        return Ok(None);
    };
    Ok(job_in(name, inner))
}

// What the matches of a command ask for.
fn job_in<'w>(name: &str, matches: &ArgMatches<'w>) -> Option<Job<'w>>
    ensures job { option_map seen result ≡ job_in_rows (name.now, rows_of (found_of matches.now)) }
    ensures in_range { IfSome result IsInRange }
{
    if name == "check" {
        let Some(check) = check_in(matches) else {
            return None;
        };
        return Some(Job::Check(check));
    }
    if name == "log" {
        let Some(file) = matches.get_str("FILE") else {
            return None;
        };
        return Some(Job::Log { file });
    }
    let Some(make) = make_in(matches) else {
        return None;
    };
    Some(Job::Make(make))
}

// What the matches of `check` ask for.
fn check_in<'w>(matches: &ArgMatches<'w>) -> Option<Check<'w>>
    ensures check { option_map seen_check result ≡ check_in_rows (rows_of (found_of matches.now)) }
    ensures in_range { IfSome result (λ c. AreInRange c.bounds c.budget) }
    ensures workers { IfSome result (λ c. (1 ≤ c.workers) × (c.workers ≤ 64)) }
{
    let Some(source) = matches.get_str("A") else {
        return None;
    };
    let Some(target) = matches.get_str("B") else {
        return None;
    };
    let Some(bounds) = bounds_in(matches) else {
        return None;
    };
    let Some(budget) = budget_in(matches) else {
        return None;
    };
    let Some(workers) = workers_in(matches) else {
        return None;
    };
    let proof = matches.get_str("proof");
    let first = is_set(matches, "first");
    Some(Check {
        source,
        target,
        bounds,
        budget,
        workers,
        proof,
        first,
    })
}

// Whether a flag is set.
fn is_set(matches: &ArgMatches<'_>, name: &str) -> bool
    ensures { result ≡ is_set name.now (rows_of (found_of matches.now)) }
{
    matches.get_one::<bool>(name).unwrap_or(false)
}

// What the matches of `make` ask for.
fn make_in(matches: &ArgMatches<'_>) -> Option<Make>
    ensures make { option_map seen_make result ≡ make_in_rows (rows_of (found_of matches.now)) }
    ensures seed { IfSome result (λ m. m.seed ≤ 2147483647) }
    ensures sizes { IfSome result (λ m. (1 ≤ m.functions) × (m.functions ≤ 4096) × (1 ≤ m.insts) × (m.insts ≤ 64)) }
    ensures in_range { IfSome result (λ m. AreInRange m.bounds m.budget) }
    ensures workers { IfSome result (λ m. (1 ≤ m.workers) × (m.workers ≤ 64)) }
{
    let Some(seed) = ranged(matches, "seed", 0, 2_147_483_647, 1) else {
        return None;
    };
    let Some(functions) = ranged(matches, "functions", 1, 4_096, 16) else {
        return None;
    };
    let Some(insts) = ranged(matches, "insts", 1, 64, 8) else {
        return None;
    };
    let Some(bounds) = bounds_in(matches) else {
        return None;
    };
    let Some(budget) = budget_in(matches) else {
        return None;
    };
    let Some(workers) = workers_in(matches) else {
        return None;
    };
    Some(Make {
        seed,
        functions,
        insts,
        bounds,
        budget,
        workers,
    })
}

fn workers_in(matches: &ArgMatches<'_>) -> Option<u64>
    ensures value { result ≡ number_or_usual workers_range (first_of (codes "workers") (rows_of (found_of matches.now))) }
    ensures within { IfSome result (λ n. (1 ≤ n) × (n ≤ 64)) }
{
    ranged(matches, "workers", 1, 64, 4)
}

// The number of an option between these two, or the default where it is not given.
fn ranged(matches: &ArgMatches<'_>, name: &str, least: u64, most: u64, usual: u64) -> Option<u64>
    requires { (least ≤ usual) × (usual ≤ most) }
    ensures value { result ≡ number_or_usual (range least most usual) (first_of name.now (rows_of (found_of matches.now))) }
    ensures within { IfSome result (λ n. (least ≤ n) × (n ≤ most)) }
{
    number_of(matches, name, Range { least, most, usual })
}

/// The bounds that the options `turns`, `blocks` and `bytes` give, or their defaults; `None` where one is
/// no number of its range.
pub fn bounds_in(matches: &ArgMatches<'_>) -> Option<Bounds>
    ensures value { result ≡ bounds_in_rows (rows_of (found_of matches.now)) }
    ensures within { IfSome result (λ b. (b.turns ≤ 64) × (b.blocks ≤ 4) × (b.bytes ≤ 32)) }
{
    let Some(turns) = ranged(matches, "turns", 0, 64, 4) else {
        return None;
    };
    let Some(blocks) = ranged(matches, "blocks", 0, 4, 2) else {
        return None;
    };
    let Some(bytes) = ranged(matches, "bytes", 0, 32, 8) else {
        return None;
    };
    Some(Bounds {
        turns,
        blocks,
        bytes,
    })
}

/// The budget that the options `rounds`, `conflicts` and `weight` give, or their defaults; `None` where
/// one is no number of its range.
pub fn budget_in(matches: &ArgMatches<'_>) -> Option<Budget>
    ensures value { result ≡ budget_in_rows (rows_of (found_of matches.now)) }
    ensures within { IfSome result (λ b. (b.rounds ≤ 4096) × (b.conflicts < 2 ^ 63) × (1 ≤ b.weight) × (b.weight ≤ 10000000)) }
{
    let Some(rounds) = ranged(matches, "rounds", 0, 4_096, 64) else {
        return None;
    };
    let Some(conflicts) = ranged(matches, "conflicts", 0, 9_223_372_036_854_775_807, 0) else {
        return None;
    };
    let Some(weight) = ranged(matches, "weight", 1, 10_000_000, 100_000) else {
        return None;
    };
    Some(Budget {
        rounds,
        conflicts,
        weight,
    })
}

// The number of an option, or the default where it is not given.
fn number_of(matches: &ArgMatches<'_>, name: &str, range: Range) -> Option<u64>
    requires { (range.least ≤ range.usual) × (range.usual ≤ range.most) }
    ensures value { result ≡ number_or_usual range (first_of name.now (rows_of (found_of matches.now))) }
    ensures within { IfSome result (λ n. (range.least ≤ n) × (n ≤ range.most)) }
{
    match matches.get_str(name) {
        Some(text) => number_in(text, range),
        None => Some(range.usual),
    }
}
