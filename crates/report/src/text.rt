ghost use Rattle.std.specs.Prelude.{◌≡◌, ◌++◌, OnOk, IfOk};
ghost use Rattle.std.specs.List.{flat_map};
ghost use Rattle.report.specs.Text.{cause_text, side_text, reason_text, refused_text, finding_text, row_text, counted, bounds_text, budget_text, first_word, first_line, judged_counts, other_counts, last_line, newline, report_text, summary_text};

use crate::counterexample::push_shown;
use crate::row::{Finding, Row, Side};
use crate::status::{Class, count};
use crate::value_text::push_number;
use ir_naming::push_name;
use ir_tree::{Reason, Refused};
use points::{Bounds, Budget};
use std::alloc::Global;
use support::NoMemory;
use verdicts::Cause;

/// The text of a report: a first line with the bounds and the budget, a row for each function with its
/// counterexample below it, and a last line with the number of rows of each class. The first line also
/// says whether the report ends at its first incorrect row. Each line ends with a newline. The text is
/// ASCII where the digits of names are.
pub fn text_of(
    alloc: Global,
    rows: &[Row],
    bounds: &Bounds,
    budget: &Budget,
    first: bool,
) -> Result<Vec<u8>, NoMemory>
    ensures { IfOk result (λ text. text.items ≡ report_text bounds.now budget.now first rows.now) }
{
    let mut out = Vec::new(alloc);
    push_first_line(alloc, &mut out, bounds, budget, first)?;
    push_rows(alloc, &mut out, rows)?;
    push_last_line(alloc, &mut out, rows)?;
    Ok(out)
}

/// The first and the last line of a report of all rows, with these bytes between them.
pub fn summary_of(
    alloc: Global,
    rows: &[Row],
    bounds: &Bounds,
    budget: &Budget,
    between: &[u8],
) -> Result<Vec<u8>, NoMemory>
    ensures { IfOk result (λ text. text.items ≡ summary_text bounds.now budget.now between.now rows.now) }
{
    let mut out = Vec::new(alloc);
    push_first_line(alloc, &mut out, bounds, budget, false)?;
    out.extend_from_slice(between)?;
    push_last_line(alloc, &mut out, rows)?;
    Ok(out)
}

fn push_rows(alloc: Global, out: &mut Vec<u8>, rows: &[Row]) -> Result<(), NoMemory>
    ensures { OnOk result (out.new.items ≡ out.old.items ++ flat_map row_text rows.now) }
{
    for row in rows {
        push_row(alloc, out, row)?;
    }
    Ok(())
}

/// A row, with its counterexample below it.
pub fn push_row(alloc: Global, out: &mut Vec<u8>, row: &Row) -> Result<(), NoMemory>
    ensures { OnOk result (out.new.items ≡ out.old.items ++ row_text row.now) }
{
    out.extend_from_slice(b"@")?;
    push_name(out, &row.name)?;
    push_finding(alloc, out, &row.finding)
}

fn push_finding(alloc: Global, out: &mut Vec<u8>, finding: &Finding) -> Result<(), NoMemory>
    ensures { OnOk result (out.new.items ≡ out.old.items ++ finding_text finding.now) }
{
    match finding {
        Finding::Correct => out.extend_from_slice(b" correct\n")?,
        Finding::Incorrect { point, shown } => {
            out.extend_from_slice(b" incorrect\n")?;
            push_shown(alloc, out, point, shown)?;
        }
        Finding::Unknown(cause) => push_unknown(out, *cause)?,
        Finding::Refused { side, refused } => push_refused_row(alloc, out, *side, *refused)?,
        Finding::Signature => out.extend_from_slice(b" signature\n")?,
        Finding::Missing => out.extend_from_slice(b" missing\n")?,
        Finding::Extra => out.extend_from_slice(b" extra\n")?,
    }
    Ok(())
}

fn push_unknown(out: &mut Vec<u8>, cause: Cause) -> Result<(), NoMemory>
    ensures { OnOk result (out.new.items ≡ out.old.items ++ finding_text (Finding.Unknown cause)) }
{
    out.extend_from_slice(b" unknown ")?;
    out.extend_from_slice(cause_word(cause))?;
    out.extend_from_slice(b"\n")?;
    Ok(())
}

fn push_refused_row(
    alloc: Global,
    out: &mut Vec<u8>,
    side: Side,
    refused: Refused,
) -> Result<(), NoMemory>
    ensures { OnOk result (out.new.items ≡ out.old.items ++ finding_text (Finding.Refused side refused)) }
{
    out.extend_from_slice(b" refused ")?;
    out.extend_from_slice(side_word(side))?;
    out.extend_from_slice(b" ")?;
    push_refused(alloc, out, refused)?;
    out.extend_from_slice(b"\n")?;
    Ok(())
}

fn push_refused(alloc: Global, out: &mut Vec<u8>, refused: Refused) -> Result<(), NoMemory>
    ensures { OnOk result (out.new.items ≡ out.old.items ++ refused_text refused) }
{
    out.extend_from_slice(reason_word(refused.reason))?;
    out.extend_from_slice(b" ")?;
    push_number(alloc, out, refused.line)?;
    out.extend_from_slice(b":")?;
    push_number(alloc, out, refused.column)
}

fn cause_word(cause: Cause) -> &'static [u8]
    ensures { result.now ≡ cause_text cause }
{
    match cause {
        Cause::Weight => b"weight",
        Cause::Rounds => b"rounds",
        Cause::Conflicts => b"conflicts",
    }
}

fn side_word(side: Side) -> &'static [u8]
    ensures { result.now ≡ side_text side }
{
    match side {
        Side::Source => b"source",
        Side::Target => b"target",
    }
}

fn reason_word(reason: Reason) -> &'static [u8]
    ensures { result.now ≡ reason_text reason }
{
    match reason {
        Reason::Syntax => b"Syntax",
        Reason::Unsupported => b"Unsupported",
        Reason::Limit => b"Limit",
        Reason::NameTwice => b"NameTwice",
        Reason::NameUnknown => b"NameUnknown",
        Reason::TypeClash => b"TypeClash",
        Reason::PhiEdges => b"PhiEdges",
        Reason::Unassigned => b"Unassigned",
        Reason::UndefUse => b"UndefUse",
    }
}

fn push_counted(alloc: Global, out: &mut Vec<u8>, label: &[u8], n: u64) -> Result<(), NoMemory>
    ensures { OnOk result (out.new.items ≡ out.old.items ++ counted label.now n) }
{
    out.extend_from_slice(label)?;
    push_number(alloc, out, n)
}

fn push_first_line(
    alloc: Global,
    out: &mut Vec<u8>,
    bounds: &Bounds,
    budget: &Budget,
    first: bool,
) -> Result<(), NoMemory>
    ensures { OnOk result (out.new.items ≡ out.old.items ++ first_line bounds.now budget.now first) }
{
    push_bounds(alloc, out, bounds)?;
    push_budget(alloc, out, budget)?;
    push_line_end(out, first)
}

/// The end of the first line, with the word of a report that ends at its first incorrect row.
fn push_line_end(out: &mut Vec<u8>, first: bool) -> Result<(), NoMemory>
    ensures { OnOk result (out.new.items ≡ out.old.items ++ (first_word first ++ newline)) }
{
    if first {
        out.extend_from_slice(b" first\n")?;
    } else {
        out.extend_from_slice(b"\n")?;
    }
    Ok(())
}

fn push_bounds(alloc: Global, out: &mut Vec<u8>, bounds: &Bounds) -> Result<(), NoMemory>
    ensures { OnOk result (out.new.items ≡ out.old.items ++ bounds_text bounds.now) }
{
    push_counted(alloc, out, b"tv 2 turns ", bounds.turns)?;
    push_counted(alloc, out, b" blocks ", bounds.blocks)?;
    push_counted(alloc, out, b" bytes ", bounds.bytes)
}

fn push_budget(alloc: Global, out: &mut Vec<u8>, budget: &Budget) -> Result<(), NoMemory>
    ensures { OnOk result (out.new.items ≡ out.old.items ++ budget_text budget.now) }
{
    push_counted(alloc, out, b" rounds ", budget.rounds)?;
    push_counted(alloc, out, b" conflicts ", budget.conflicts)?;
    push_counted(alloc, out, b" weight ", budget.weight)
}

fn push_last_line(alloc: Global, out: &mut Vec<u8>, rows: &[Row]) -> Result<(), NoMemory>
    ensures { OnOk result (out.new.items ≡ out.old.items ++ last_line rows.now) }
{
    push_judged_counts(alloc, out, rows)?;
    push_other_counts(alloc, out, rows)?;
    out.extend_from_slice(b"\n")?;
    Ok(())
}

fn push_judged_counts(alloc: Global, out: &mut Vec<u8>, rows: &[Row]) -> Result<(), NoMemory>
    ensures { OnOk result (out.new.items ≡ out.old.items ++ judged_counts rows.now) }
{
    push_counted(alloc, out, b"correct ", count(rows, Class::Correct))?;
    push_counted(alloc, out, b" incorrect ", count(rows, Class::Incorrect))?;
    push_counted(alloc, out, b" unknown ", count(rows, Class::Unknown))
}

fn push_other_counts(alloc: Global, out: &mut Vec<u8>, rows: &[Row]) -> Result<(), NoMemory>
    ensures { OnOk result (out.new.items ≡ out.old.items ++ other_counts rows.now) }
{
    push_counted(alloc, out, b" refused ", count(rows, Class::Refused))?;
    push_counted(alloc, out, b" signature ", count(rows, Class::Signature))?;
    push_counted(alloc, out, b" missing ", count(rows, Class::Missing))?;
    push_counted(alloc, out, b" extra ", count(rows, Class::Extra))
}
