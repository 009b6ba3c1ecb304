//! What command lines ask for.
//!
//! A row is a line of arguments, separated by single spaces (two spaces in a row hold the empty
//! argument), and after `=>` what it asks for: the two files, the bounds (turns, blocks, bytes), the
//! budget (rounds, conflicts, weight) and the workers, where there is one `to` and the file for the
//! proof, and `first` where the report ends at the first incorrect row; or `log` and the file; or
//! `make`, the seed, the functions and the instructions, and the bounds, the budget and the workers;
//! or `-` where it is rejected.

use points::{Bounds, Budget};
use std::test::*;
use tv_cli::{Check, Job, Make, read_job};

/// Bounds are taken up to their ends.
const BOUNDS: &str = "\
tv check A B => A B 4 2 8 64 0 100000 4
tv check --turns 0 A B => A B 0 2 8 64 0 100000 4
tv check --turns 64 A B => A B 64 2 8 64 0 100000 4
tv check --turns 65 A B => -
tv check --blocks 0 A B => A B 4 0 8 64 0 100000 4
tv check --blocks 4 A B => A B 4 4 8 64 0 100000 4
tv check --blocks 5 A B => -
tv check --bytes 0 A B => A B 4 2 0 64 0 100000 4
tv check --bytes 32 A B => A B 4 2 32 64 0 100000 4
tv check --bytes 33 A B => -";

/// And so are budgets.
const BUDGETS: &str = "\
tv check --rounds 0 A B => A B 4 2 8 0 0 100000 4
tv check --rounds 4096 A B => A B 4 2 8 4096 0 100000 4
tv check --rounds 4097 A B => -
tv check --conflicts 9223372036854775807 A B => A B 4 2 8 64 9223372036854775807 100000 4
tv check --conflicts 9223372036854775808 A B => -
tv check --weight 0 A B => -
tv check --weight 1 A B => A B 4 2 8 64 0 1 4
tv check --weight 10000000 A B => A B 4 2 8 64 0 10000000 4
tv check --weight 10000001 A B => -
tv check --workers 0 A B => -
tv check --workers 1 A B => A B 4 2 8 64 0 100000 1
tv check --workers 64 A B => A B 4 2 8 64 0 100000 64
tv check --workers 65 A B => -";

/// An option comes before, between or after the files, and once.
const OPTIONS: &str = "\
tv check --turns=3 A B => A B 3 2 8 64 0 100000 4
tv check A --turns 3 B => A B 3 2 8 64 0 100000 4
tv check A B --turns=3 => A B 3 2 8 64 0 100000 4
tv check --weight 5 A --turns=1 B --bytes 2 => A B 1 2 2 64 0 5 4
tv check --turns 3 --turns 3 A B => -
tv check --turns=3 A B --turns 4 => -
tv check --workers=2 A B --workers=2 => -
tv check --turns => -
tv check A B --turns => -
tv check --turn 3 A B => -
tv check -t 3 A B => -
tv --turns 3 check A B => -";

/// Numbers are read as `parse` reads them.
const NUMBERS: &str = "\
tv check --turns +5 A B => A B 5 2 8 64 0 100000 4
tv check --turns 007 A B => A B 7 2 8 64 0 100000 4
tv check --turns= A B => -
tv check --turns  A B => -
tv check --turns=-1 A B => -
tv check --turns -1 A B => -
tv check --turns=++5 A B => -
tv check --turns 1x A B => -
tv check --turns 18446744073709551620 A B => -
tv check --turns==5 A B => -";

/// There are two files, and `--` ends the options.
const FILES: &str = "\
tv check -- -a --turns => -a --turns 4 2 8 64 0 100000 4
tv check --turns 3 -- A -- => A -- 3 2 8 64 0 100000 4
tv check A -- --turns=3 => A --turns=3 4 2 8 64 0 100000 4
tv check --turns -- A B => -
tv check --turns -- 3 A B => -
tv check - - => - - 4 2 8 64 0 100000 4
tv check  B =>  B 4 2 8 64 0 100000 4
tv check -A B => -
tv check A => -
tv check A B C => -
tv check A B -- C => -
tv check check check => check check 4 2 8 64 0 100000 4
tv check B A => B A 4 2 8 64 0 100000 4";

/// The proof goes to one file, which may have any name.
const PROOFS: &str = "\
tv check --proof P A B => A B 4 2 8 64 0 100000 4 to P
tv check A B --turns 3 --proof=P => A B 3 2 8 64 0 100000 4 to P
tv check A B --proof= => A B 4 2 8 64 0 100000 4 to\x20
tv check A B --proof  => A B 4 2 8 64 0 100000 4 to\x20
tv check A B --proof - => A B 4 2 8 64 0 100000 4 to -
tv check A B --proof=--turns=3 => A B 4 2 8 64 0 100000 4 to --turns=3
tv check A B --proof==P => A B 4 2 8 64 0 100000 4 to =P
tv check -- --proof P => --proof P 4 2 8 64 0 100000 4
tv check A B --proof P --proof P => -
tv check A B --proof=P --proof=Q => -
tv check A B --proof => -
tv check A B --proof --turns 3 => -";

/// The report may end at the first incorrect row. The flag has no value, comes once, and only `check`
/// has it.
const FIRSTS: &str = "\
tv check --first A B => A B 4 2 8 64 0 100000 4 first
tv check A --first B => A B 4 2 8 64 0 100000 4 first
tv check A B --first => A B 4 2 8 64 0 100000 4 first
tv check --turns 3 --first A -- B => A B 3 2 8 64 0 100000 4 first
tv check --first --proof P A B => A B 4 2 8 64 0 100000 4 to P first
tv check --proof=--first A B => A B 4 2 8 64 0 100000 4 to --first
tv check -- --first B => --first B 4 2 8 64 0 100000 4
tv check --first -- --first B => --first B 4 2 8 64 0 100000 4 first
tv check --first A --first B => -
tv check --first=1 A B => -
tv check --first= A B => -
tv check --first true A B => -
tv check --turns --first A B => -
tv check --firsts A B => -
tv make --first => -
tv make --first=1 => -
tv log --first FILE => -
tv log -- --first => log --first
tv --first check A B => -";

/// A proof file is checked by itself.
const LOGS: &str = "\
tv log FILE => log FILE
tv log  => log\x20
tv log - => log -
tv log -- --turns => log --turns
tv log -- -h => log -h
tv log log => log log
tv log => -
tv log -- => -
tv log A B => -
tv log --proof P FILE => -
tv log --turns=3 FILE => -
tv log FILE --FILE=F => -
tv log -h => -
tv -- log FILE => -";

/// A pair of modules is made from a seed, with functions and instructions up to their ends.
const MADE_SIZES: &str = "\
tv make => make 1 16 8 4 2 8 64 0 100000 4
tv make --seed 0 => make 0 16 8 4 2 8 64 0 100000 4
tv make --seed 2147483647 => make 2147483647 16 8 4 2 8 64 0 100000 4
tv make --seed 2147483648 => -
tv make --functions 0 => -
tv make --functions 1 => make 1 1 8 4 2 8 64 0 100000 4
tv make --functions 4096 => make 1 4096 8 4 2 8 64 0 100000 4
tv make --functions 4097 => -
tv make --insts 0 => -
tv make --insts 1 => make 1 16 1 4 2 8 64 0 100000 4
tv make --insts 64 => make 1 16 64 4 2 8 64 0 100000 4
tv make --insts 65 => -";

/// It is judged within bounds, a budget and workers up to their ends.
const MADE_LIMITS: &str = "\
tv make --turns 0 => make 1 16 8 0 2 8 64 0 100000 4
tv make --turns 64 => make 1 16 8 64 2 8 64 0 100000 4
tv make --turns 65 => -
tv make --blocks 0 => make 1 16 8 4 0 8 64 0 100000 4
tv make --blocks 4 => make 1 16 8 4 4 8 64 0 100000 4
tv make --blocks 5 => -
tv make --bytes 0 => make 1 16 8 4 2 0 64 0 100000 4
tv make --bytes 32 => make 1 16 8 4 2 32 64 0 100000 4
tv make --bytes 33 => -
tv make --rounds 0 => make 1 16 8 4 2 8 0 0 100000 4
tv make --rounds 4096 => make 1 16 8 4 2 8 4096 0 100000 4
tv make --rounds 4097 => -
tv make --conflicts 0 => make 1 16 8 4 2 8 64 0 100000 4
tv make --conflicts 9223372036854775807 => make 1 16 8 4 2 8 64 9223372036854775807 100000 4
tv make --conflicts 9223372036854775808 => -
tv make --weight 0 => -
tv make --weight 1 => make 1 16 8 4 2 8 64 0 1 4
tv make --weight 10000000 => make 1 16 8 4 2 8 64 0 10000000 4
tv make --weight 10000001 => -
tv make --workers 0 => -
tv make --workers 1 => make 1 16 8 4 2 8 64 0 100000 1
tv make --workers 64 => make 1 16 8 4 2 8 64 0 100000 64
tv make --workers 65 => -";

/// Each option of `make` comes once.
const MADE_ONCE: &str = "\
tv make --seed 1 --seed 1 => -
tv make --functions 16 --functions 16 => -
tv make --insts 8 --insts 8 => -
tv make --turns 4 --turns 4 => -
tv make --blocks 2 --blocks 2 => -
tv make --bytes 8 --bytes 8 => -
tv make --rounds 64 --rounds 64 => -
tv make --conflicts 0 --conflicts 0 => -
tv make --weight 1 --weight 1 => -
tv make --workers 4 --workers 4 => -
tv make --seed=7 --turns 3 --seed=8 => -";

/// `make` has only options, and its own; no other command has those.
const MAKES: &str = "\
tv make --seed=7 => make 7 16 8 4 2 8 64 0 100000 4
tv make --seed +7 => make 7 16 8 4 2 8 64 0 100000 4
tv make --seed 007 => make 7 16 8 4 2 8 64 0 100000 4
tv make --seed 7 --functions=3 --insts 2 --turns=1 --blocks 0 --bytes=4 => make 7 3 2 1 0 4 64 0 100000 4
tv make --rounds 5 --conflicts=6 --weight 9 --workers=2 => make 1 16 8 4 2 8 5 6 9 2
tv make -- => make 1 16 8 4 2 8 64 0 100000 4
tv make --seed 7 -- => make 7 16 8 4 2 8 64 0 100000 4
tv -- make => -
tv make -- --seed=7 => -
tv make A => -
tv make -- A => -
tv make - => -
tv make  => -
tv make make => -
tv make --seed 7 A => -
tv make --proof P => -
tv make --proof=P => -
tv make --seed => -
tv make --seed -- => -
tv make --seed= => -
tv make --seed -1 => -
tv make --seed=x => -
tv make --seeds 7 => -
tv make -s 7 => -
tv make --help => -
tv --seed 7 make => -
tv check --seed 7 A B => -
tv check --functions=3 A B => -
tv check --insts 2 A B => -
tv log --seed=7 FILE => -";

/// There are three commands, and no help.
const COMMANDS: &str = "\
tv => -
tv help => -
tv --help => -
tv -h => -
tv --version => -
tv check --help A B => -
tv check -h => -
tv checks A B => -
tv logs A => -
tv makes => -
tv -- check A B => -
tv -- => -";

/// What a line of arguments asks for, as the rows write it.
fn asked<R: AllocGlobal>(rt: &R, line: &str) -> Result<String, Fail> {
    let mut arguments = Vec::new(rt.alloc());
    for argument in line.split(' ') {
        arguments.push(String::from_str(rt.alloc(), argument)?)?;
    }
    match read_job(rt.alloc(), arguments.as_slice())? {
        Some(job) => shown(rt, &job),
        None => Ok(String::from_str(rt.alloc(), "-")?),
    }
}

fn shown<R: AllocGlobal>(rt: &R, job: &Job<'_>) -> Result<String, Fail> {
    match job {
        Job::Check(check) => shown_check(rt, check),
        Job::Log { file } => Ok(format!(in rt.alloc(); "log {file}")?),
        Job::Make(make) => shown_make(rt, make),
    }
}

/// The bounds, the budget and the workers.
fn limits<R: AllocGlobal>(
    rt: &R,
    bounds: &Bounds,
    budget: &Budget,
    workers: u64,
) -> Result<String, Fail> {
    let Bounds {
        turns,
        blocks,
        bytes,
    } = *bounds;
    let Budget {
        rounds,
        conflicts,
        weight,
    } = *budget;
    Ok(format!(in rt.alloc(); "{turns} {blocks} {bytes} {rounds} {conflicts} {weight} {workers}")?)
}

fn shown_check<R: AllocGlobal>(rt: &R, check: &Check<'_>) -> Result<String, Fail> {
    let limits = limits(rt, &check.bounds, &check.budget, check.workers)?;
    let (to, proof) = match check.proof {
        Some(proof) => (" to ", proof),
        None => ("", ""),
    };
    let first = if check.first { " first" } else { "" };
    let (source, target) = (check.source, check.target);
    Ok(format!(in rt.alloc(); "{source} {target} {limits}{to}{proof}{first}")?)
}

fn shown_make<R: AllocGlobal>(rt: &R, make: &Make) -> Result<String, Fail> {
    let limits = limits(rt, &make.bounds, &make.budget, make.workers)?;
    let (seed, functions, insts) = (make.seed, make.functions, make.insts);
    Ok(format!(in rt.alloc(); "make {seed} {functions} {insts} {limits}")?)
}

/// Fails where the line of a row asks for something else.
fn is_asked<R: AllocGlobal>(rt: &R, row: &str) -> Result<(), Fail> {
    let (line, wanted) = row.split_once(" => ").ok_or("a line and what it asks for")?;
    let found = asked(rt, line)?;
    if found.as_str() == wanted {
        Ok(())
    } else {
        Err(Fail::new(format_args!("{found} for {row}")))
    }
}

fn are_asked<R: AllocGlobal>(rt: &R, table: &str) -> Result<(), Fail> {
    for row in table.lines() {
        is_asked(rt, row)?;
    }
    Ok(())
}

#[test]
fn command_lines_are_read(rt: HostRuntime) -> Result<(), Fail> {
    are_asked(&rt, BOUNDS)?;
    are_asked(&rt, BUDGETS)?;
    are_asked(&rt, OPTIONS)?;
    are_asked(&rt, NUMBERS)?;
    are_asked(&rt, FILES)?;
    are_asked(&rt, PROOFS)?;
    are_asked(&rt, FIRSTS)?;
    are_asked(&rt, LOGS)?;
    are_asked(&rt, COMMANDS)
}

#[test]
fn command_lines_of_make_are_read(rt: HostRuntime) -> Result<(), Fail> {
    are_asked(&rt, MADE_SIZES)?;
    are_asked(&rt, MADE_LIMITS)?;
    are_asked(&rt, MADE_ONCE)?;
    are_asked(&rt, MAKES)
}
