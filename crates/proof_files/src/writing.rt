//! From the rows of a report to its proof file.

ghost use Rattle.std.specs.Prelude.{◌≡◌, ◌<◌, ◌++◌, ◌∷◌, [], All, IfOk, List, OnOk, Some, option_copied};
ghost use Rattle.clause_lits.specs.Meaning.{AreWithin, IsClause};
ghost use Rattle.proof_text.specs.declared.part.Proof.{Proof};
ghost use Rattle.proof_text.specs.Format.{IsClauseOver, IsHead, IsPart, IsPrintedName, IsProof, part_of, proof_with, with_parts};
ghost use Rattle.ir_naming.specs.Naming.{name_text as text_of_name};
ghost use Rattle.proof_files.specs.Parts.{IsCertified, IsReadName, decided as decided_of, left_after as left_of, parts_of, row_parts};

use clause_log::Cert;
use ir_naming::name_text;
use ir_tree::Name;
use pair_driver::Judged;
use proof_text::{Head, begin, push_part};
use report::{Finding, Row};
use std::alloc::Global;
use support::NoMemory;

/// The text of a report's proof file: its bounds and its budget, and a part for each correct and each
/// incorrect row, in order, with the certificate of the row's answer. A row with a verdict takes the
/// next of the answers.
pub fn proof_of(
    alloc: Global,
    head: &Head,
    rows: &[Row],
    answers: &[Judged],
) -> Result<Vec<u8>, NoMemory>
    requires head { IsHead head.now }
    requires names { All (λ row. IsReadName row.name) rows.now }
    requires certified { All IsCertified (parts_of rows.now answers.now) }
    ensures { IfOk result (λ text. IsProof text.items
        (proof_with (Some head.now) (parts_of rows.now answers.now))) }
{
    let mut text = begin(alloc, Some(*head))?;
    let mut left = answers;
    for row in rows {
        push_row(alloc, &mut text, row, left)?;
        left = left_after(&row.finding, left);
    }
    Ok(text)
}

/// Adds the part of a row, if it has one. Its answer is the first of these.
fn push_row(
    alloc: Global,
    text: &mut Vec<u8>,
    row: &Row,
    answers: &[Judged],
) -> Result<(), NoMemory>
    requires name { IsReadName row.now.name }
    requires certified { All IsCertified (row_parts row.now answers.now) }
    ensures { OnOk result ((proof : Proof) → IsProof text.old.items proof
        → IsProof text.new.items (with_parts proof (row_parts row.now answers.now))) }
{
    let Some(is_correct) = decided(&row.finding) else {
        return Ok(());
    };
    let [answer, ..] = answers else {
        return Ok(());
    };
    let Some(cert) = &answer.cert else {
        return Ok(());
    };
    push_certificate(alloc, text, &row.name, is_correct, cert)
}

/// Whether a row is `correct`, or else `incorrect`; `None` for any other row.
fn decided(finding: &Finding) -> Option<bool>
    ensures { result ≡ decided_of finding.now }
{
    match finding {
        Finding::Correct => Some(true),
        Finding::Incorrect { .. } => Some(false),
        Finding::Unknown(_)
        | Finding::Refused { .. }
        | Finding::Signature
        | Finding::Missing
        | Finding::Extra => None,
    }
}

/// The answers for the rows after one with this finding.
fn left_after<'a>(finding: &Finding, answers: &'a [Judged]) -> &'a [Judged]
    ensures { result.now ≡ left_of finding.now answers.now }
{
    match finding {
        Finding::Correct | Finding::Incorrect { .. } | Finding::Unknown(_) => match answers {
            [_, left @ ..] => left,
            [] => answers,
        },
        Finding::Refused { .. } | Finding::Signature | Finding::Missing | Finding::Extra => answers,
    }
}

/// Adds the part of a row of this name.
fn push_certificate(
    alloc: Global,
    text: &mut Vec<u8>,
    name: &Name,
    is_correct: bool,
    cert: &Cert,
) -> Result<(), NoMemory>
    requires name { IsReadName name.now }
    requires certified { IsCertified (part_of (text_of_name name.now) is_correct cert.now) }
    ensures { OnOk result ((proof : Proof) → IsProof text.old.items proof
        → IsProof text.new.items (with_parts proof (part_of (text_of_name name.now) is_correct cert.now ∷ []))) }
{
    let printed = printed_name(alloc, name)?;
    are_clauses(cert);
    push_part(alloc, text, printed.as_slice(), is_correct, cert)
}

/// A name as a report prints it.
fn printed_name(alloc: Global, name: &Name) -> Result<Vec<u8>, NoMemory>
    requires { IsReadName name.now }
    ensures text { IfOk result (λ text. text.items ≡ text_of_name name.now) }
    ensures printed { IfOk result (λ text. IsPrintedName text.items) }
{
    match name {
        Name::Number(_) => name_text(alloc, name),
        Name::Word(bytes) => {
            are_bytes(bytes.as_slice());
            name_text(alloc, name)
        }
    }
}

/// Bytes are below 256: what their type keeps.
fn are_bytes(bytes: &[u8])
    ensures { All (λ b. b < 256) bytes.now }
{
    let _first = bytes.first();
}

/// The clauses are clauses over their variables: what their types keep.
fn are_clauses(cert: &Cert)
    ensures clauses { All IsClause cert.now.cnf.clauses }
    ensures within { AreWithin cert.now.cnf.variables cert.now.cnf.clauses }
{
    let clauses = cert.cnf.clauses.as_slice();
    for clause in clauses {
        let _literals = clause.literals();
    }
}
