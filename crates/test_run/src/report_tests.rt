//! The text and the status of a report, and how names are printed.

use ir_naming::name_text;
use ir_tree::Name;
use points::{Bounds, Budget};
use report::{Finding, Row, status_of, text_of};
use std::alloc::Global;
use std::test::Fail;
use support::{NoMemory, Sequence};

const BOUNDS: Bounds = Bounds {
    turns: 4,
    blocks: 2,
    bytes: 8,
};

const BUDGET: Budget = Budget {
    rounds: 64,
    conflicts: 0,
    weight: 100_000,
};

const TEXT: &str = "tv 2 turns 4 blocks 2 bytes 8 rounds 64 conflicts 0 weight 100000
@f correct
@\"g h\" missing
correct 1 incorrect 0 unknown 0 refused 0 signature 0 missing 1 extra 0
";

fn row(alloc: Global, name: &str, finding: Finding) -> Result<Row, NoMemory> {
    let name = Name::Word(Sequence::from_vec(Vec::from_slice(alloc, name.as_bytes())?));
    Ok(Row { name, finding })
}

#[test]
fn a_report_has_a_line_for_each_row(rt: HostRuntime) -> Result<(), Fail> {
    let alloc = rt.alloc();
    let mut rows = Vec::new(alloc);
    rows.push(row(alloc, "f", Finding::Correct)?)?;
    rows.push(row(alloc, "g h", Finding::Missing)?)?;
    let text = text_of(alloc, rows.as_slice(), &BOUNDS, &BUDGET, false)?;
    if text.as_slice() == TEXT.as_bytes() && status_of(rows.as_slice()) == 3 {
        Ok(())
    } else {
        Err(Fail::new("another report"))
    }
}

fn is_named(alloc: Global, name: &Name, wanted: &str) -> Result<(), Fail> {
    let text = name_text(alloc, name)?;
    if text.as_slice() == wanted.as_bytes() {
        Ok(())
    } else {
        Err(Fail::new(wanted))
    }
}

fn is_word_named(alloc: Global, word: &str, wanted: &str) -> Result<(), Fail> {
    let name = Name::Word(Sequence::from_vec(Vec::from_slice(alloc, word.as_bytes())?));
    is_named(alloc, &name, wanted)
}

#[test]
fn names_are_printed_bare_or_quoted(rt: HostRuntime) -> Result<(), Fail> {
    let alloc = rt.alloc();
    let number = Name::Number(Sequence::from_vec(Vec::from_slice(alloc, b"5")?));
    is_named(alloc, &number, "5")?;
    is_word_named(alloc, "f.1", "f.1")?;
    is_word_named(alloc, "5", "\"5\"")?;
    is_word_named(alloc, "a \x7f\"", "\"a \\7F\\22\"")
}
