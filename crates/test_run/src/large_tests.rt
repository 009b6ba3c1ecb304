//! A loop at the greatest bound on backward jumps, and a module with too many functions.

use crate::asking::{Asked, is_answered};
use std::alloc::Global;
use std::test::*;
use support::NoMemory;

/// The most functions of a module.
const MOST_FUNCTIONS: u64 = 4_096;

/// Lines that each define a function.
fn functions(alloc: Global, count: u64) -> Result<String, NoMemory> {
    let mut text = String::new(alloc);
    for number in 1..=count {
        let line = format!(in alloc; "define void @f{number}() {{ ret void }}\n")?;
        text.push_str(line.as_str())?;
    }
    Ok(text)
}

#[test]
fn a_module_ends_at_its_limit(rt: HostRuntime) -> Result<(), Fail> {
    let source = functions(rt.alloc(), MOST_FUNCTIONS + 1)?;
    let asked = Asked {
        line: "tv check A B",
        source: source.as_str(),
        target: "",
        status: 9,
        output: "A:4097:1: too many functions\n",
    };
    is_answered(&rt, &asked)
}
