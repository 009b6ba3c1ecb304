//! Modules that several workers read.

use crate::expecting::expect;
use ir_reader::{ModuleFault, read, read_beside};
use ir_tree::Module;
use std::alloc::Global;
use std::test::Fail;
use std::thread::Threads;

/// A text of 4,000 functions, so of some parts, with another text after each of the first half of them.
fn long_text(alloc: Global, between: &str) -> Result<Vec<u8>, Fail> {
    let mut text = Vec::new(alloc);
    for number in 0..4_000 {
        let function = format!(in alloc;
            "define void @f{number}() {{\n  ret void ; nothing else\n}}\n"
        )?;
        text.extend_from_slice(function.as_bytes())?;
        if number < 2_000 {
            text.extend_from_slice(between.as_bytes())?;
        }
    }
    Ok(text)
}

/// Whether two answers are the same: functions of the same names, read or refused, or the same fault.
fn is_same(one: &Result<Module, ModuleFault>, other: &Result<Module, ModuleFault>) -> bool {
    match (one, other) {
        (Ok(one), Ok(other)) => {
            let (ours, theirs) = (one.entries.as_slice(), other.entries.as_slice());
            ours.len() == theirs.len()
                && ours.iter().zip(theirs).all(|(a, b)| a.name == b.name
                    && a.function.is_ok() == b.function.is_ok())
        }
        (Err(one), Err(other)) => one == other,
        _ => false,
    }
}

/// Fails where one and several workers don't read the same.
fn is_read_alike<R: AllocGlobal + Threads + Sync>(rt: &R, between: &str) -> Result<(), Fail> {
    let text = long_text(rt.alloc(), between)?;
    let one = read(rt.alloc(), text.as_slice());
    for workers in [2, 3, 64] {
        let several = read_beside(rt, rt.alloc(), text.as_slice(), workers);
        expect(is_same(&one, &several), between)?;
    }
    Ok(())
}

/// Also where a line that begins with `define` is within a comment's string or a string, where a name is
/// there twice, and where the text is no module.
#[test]
fn several_workers_read_what_one_reads(rt: HostRuntime) -> Result<(), Fail> {
    for between in [
        "",
        "declare void @g()\n",
        "@s = constant [9 x i8] c\"\ndefine ;\"\n",
        "; \"\n",
        "define void @f3999() { ret void }\n",
        "}\n",
        "\"\n",
    ] {
        is_read_alike(&rt, between)?;
    }
    Ok(())
}
