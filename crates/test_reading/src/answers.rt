//! What the reader answers to a text.
use ir_items::Why;
use ir_reader::{ModuleFault, read};
use ir_tree::Reason;
use std::alloc::{AllocError, Global};
use std::test::Fail;

fn why_word(why: Why) -> &'static str {
    match why {
        Why::NoItem => "no-item",
        Why::Bracket => "bracket",
        Why::NoBody => "no-body",
        Why::TextEnds => "text-ends",
        Why::NameTwice => "name-twice",
        Why::TooManyFunctions => "too-many-functions",
        Why::DataLayout => "data-layout",
    }
}

fn reason_word(reason: Reason) -> &'static str {
    match reason {
        Reason::Syntax => "Syntax",
        Reason::Unsupported => "Unsupported",
        Reason::Limit => "Limit",
        Reason::NameTwice => "NameTwice",
        Reason::NameUnknown => "NameUnknown",
        Reason::TypeClash => "TypeClash",
        Reason::PhiEdges => "PhiEdges",
        Reason::Unassigned => "Unassigned",
        Reason::UndefUse => "UndefUse",
    }
}

fn at(alloc: Global, word: &str, line: u64, column: u64) -> Result<String, AllocError> {
    format!(in alloc; "{word}@{line}:{column}")
}

/// `read`, or why and where the first function of a text is refused; `nothing` where there is no
/// function, or why and where the text is no module.
pub fn answer(alloc: Global, text: &[u8]) -> Result<String, AllocError> {
    let module = match read(alloc, text) {
        Ok(module) => module,
        Err(ModuleFault::NoToken(place)) => return at(alloc, "no-token", place.line, place.column),
        Err(ModuleFault::Item { why, place }) => return at(
            alloc,
            why_word(why),
            place.line,
            place.column,
        ),
        Err(ModuleFault::NoMemory) => return Err(AllocError),
    };
    match module.entries.as_slice().first() {
        None => format!(in alloc; "nothing"),
        Some(entry) => match entry.function {
            Ok(_) => format!(in alloc; "read"),
            Err(refused) => at(
                alloc,
                reason_word(refused.reason),
                refused.line,
                refused.column,
            ),
        },
    }
}

/// Fails where the reader gives another answer to the text of a row. The row's first line is the
/// answer, and after `: ` what the row is about; the text follows.
fn is_answered(alloc: Global, row: &str) -> Result<(), Fail> {
    let (head, text) = row.split_once("\n").ok_or("an answer and a text")?;
    let want = match head.split_once(": ") {
        Some((want, _)) => want,
        None => head,
    };
    let found = answer(alloc, text.as_bytes())?;
    if found.as_str() == want {
        Ok(())
    } else {
        Err(Fail::new(format_args!("{found} for {row}")))
    }
}

/// Fails at the first row whose text gets another answer. An empty line ends a row.
pub fn are_answered(alloc: Global, rows: &str) -> Result<(), Fail> {
    for row in rows.split("\n\n") {
        is_answered(alloc, row)?;
    }
    Ok(())
}
