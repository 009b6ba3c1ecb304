//! From a proof to its text.

ghost use Rattle.std.specs.Prelude.{◌≡◌, ◌++◌, ◌∷◌, [], All, IfOk, IfSome, List, OnOk, Bool, codes, map};
ghost use Rattle.std.specs.Fmt.{decimal};
ghost use Rattle.std.specs.List.{flat_map};
ghost use Rattle.proof_text.specs.declared.part.Part.{Part};
ghost use Rattle.proof_text.specs.declared.part.Proof.{Proof};
ghost use Rattle.proof_text.specs.Format.{IsHead, IsPart, IsProof, IsSpellable, cert_lines, clause_line, counts_line, ended, head_line, literal_text, log_line, part_of, proof_with, row_line, spaced, step_line, with_parts};

use crate::part::{Head, Part, Proof};
use clause_lits::{Clause, Lit};
use clause_log::{Cert, Step};
use std::alloc::Global;
use support::NoMemory;

fn push_number(alloc: Global, out: &mut Vec<u8>, n: u64) -> Result<(), NoMemory>
    ensures { OnOk result (out.new.items ≡ out.old.items ++ decimal n) }
{
    out.extend_from_slice(n.to_string(alloc)?.as_bytes())?;
    Ok(())
}

fn push_literal(alloc: Global, out: &mut Vec<u8>, literal: Lit) -> Result<(), NoMemory>
    ensures { OnOk result (out.new.items ≡ out.old.items ++ spaced (literal_text literal)) }
{
    if !literal.positive {
        out.extend_from_slice(b"-")?;
    }
    push_number(alloc, out, literal.variable)?;
    out.extend_from_slice(b" ")?;
    Ok(())
}

fn push_literals(alloc: Global, out: &mut Vec<u8>, literals: &[Lit]) -> Result<(), NoMemory>
    ensures { OnOk result (out.new.items ≡ out.old.items ++ flat_map (λ l. spaced (literal_text l)) literals.now) }
{
    for literal in literals {
        push_literal(alloc, out, *literal)?;
    }
    Ok(())
}

fn push_clause(alloc: Global, out: &mut Vec<u8>, clause: &Clause) -> Result<(), NoMemory>
    ensures { OnOk result (out.new.items ≡ out.old.items ++ (clause_line clause.now ++ 10 ∷ [])) }
{
    push_literals(alloc, out, clause.literals())?;
    out.extend_from_slice(b"0\n")?;
    Ok(())
}

fn push_chain(alloc: Global, out: &mut Vec<u8>, chain: &[u64]) -> Result<(), NoMemory>
    ensures { OnOk result (out.new.items ≡ out.old.items ++ flat_map (λ n. spaced (decimal n)) chain.now) }
{
    for number in chain {
        push_number(alloc, out, *number)?;
        out.extend_from_slice(b" ")?;
    }
    Ok(())
}

fn push_step(alloc: Global, out: &mut Vec<u8>, step: &Step) -> Result<(), NoMemory>
    ensures { OnOk result (out.new.items ≡ out.old.items ++ (step_line step.now ++ 10 ∷ [])) }
{
    push_chain(alloc, out, step.chain.as_slice())?;
    out.extend_from_slice(b"0 ")?;
    push_clause(alloc, out, &step.clause)
}

fn push_clauses(alloc: Global, out: &mut Vec<u8>, clauses: &[Clause]) -> Result<(), NoMemory>
    ensures { OnOk result (out.new.items ≡ out.old.items ++ ended (map clause_line clauses.now)) }
{
    for clause in clauses {
        push_clause(alloc, out, clause)?;
    }
    Ok(())
}

fn push_steps(alloc: Global, out: &mut Vec<u8>, steps: &[Step]) -> Result<(), NoMemory>
    ensures { OnOk result (out.new.items ≡ out.old.items ++ ended (map step_line steps.now)) }
{
    for step in steps {
        push_step(alloc, out, step)?;
    }
    Ok(())
}

fn push_row(out: &mut Vec<u8>, name: &[u8], is_correct: bool) -> Result<(), NoMemory>
    ensures { OnOk result (out.new.items ≡ out.old.items ++ (row_line name.now is_correct ++ 10 ∷ [])) }
{
    out.extend_from_slice(b"row @")?;
    out.extend_from_slice(name)?;
    if is_correct {
        out.extend_from_slice(b" correct\n")?;
    } else {
        out.extend_from_slice(b" incorrect\n")?;
    }
    Ok(())
}

fn push_counts(
    alloc: Global,
    out: &mut Vec<u8>,
    variables: u64,
    clauses: u64,
) -> Result<(), NoMemory>
    ensures { OnOk result (out.new.items ≡ out.old.items ++ (counts_line variables clauses ++ 10 ∷ [])) }
{
    out.extend_from_slice(b"p cnf ")?;
    push_number(alloc, out, variables)?;
    out.extend_from_slice(b" ")?;
    push_number(alloc, out, clauses)?;
    out.extend_from_slice(b"\n")?;
    Ok(())
}

fn push_log_count(alloc: Global, out: &mut Vec<u8>, steps: u64) -> Result<(), NoMemory>
    ensures { OnOk result (out.new.items ≡ out.old.items ++ (log_line steps ++ 10 ∷ [])) }
{
    out.extend_from_slice(b"log ")?;
    push_number(alloc, out, steps)?;
    out.extend_from_slice(b"\n")?;
    Ok(())
}

fn push_cert(alloc: Global, out: &mut Vec<u8>, cert: &Cert) -> Result<(), NoMemory>
    ensures { OnOk result (out.new.items ≡ out.old.items ++ ended (cert_lines cert.now)) }
{
    let cnf = &cert.cnf;
    push_counts(alloc, out, cnf.variables, cnf.clauses.len() as u64)?;
    push_clauses(alloc, out, cnf.clauses.as_slice())?;
    push_log_count(alloc, out, cert.log.len() as u64)?;
    push_steps(alloc, out, cert.log.as_slice())
}

fn push_named_number(
    alloc: Global,
    out: &mut Vec<u8>,
    name: &[u8],
    number: u64,
) -> Result<(), NoMemory>
    ensures { OnOk result (out.new.items ≡ out.old.items ++ (name.now ++ decimal number)) }
{
    out.extend_from_slice(name)?;
    push_number(alloc, out, number)
}

fn push_head(alloc: Global, out: &mut Vec<u8>, head: &Head) -> Result<(), NoMemory>
    ensures { OnOk result (out.new.items ≡ out.old.items ++ (head_line head.now ++ 10 ∷ [])) }
{
    push_named_number(alloc, out, b"turns ", head.turns)?;
    push_named_number(alloc, out, b" blocks ", head.blocks)?;
    push_named_number(alloc, out, b" bytes ", head.bytes)?;
    push_named_number(alloc, out, b" rounds ", head.rounds)?;
    push_named_number(alloc, out, b" conflicts ", head.conflicts)?;
    push_named_number(alloc, out, b" weight ", head.weight)?;
    out.extend_from_slice(b"\n")?;
    Ok(())
}

/// The text of no parts: the line `tvproof 2` and the line of the head, or without a head the line
/// `tvproof 1`.
pub fn begin(alloc: Global, head: Option<Head>) -> Result<Vec<u8>, NoMemory>
    requires { IfSome head IsHead }
    ensures { IfOk result (λ text. IsProof text.items (proof_with head [])) }
{
    let Some(head) = head else {
        return Ok(Vec::from_slice(alloc, b"tvproof 1\n")?);
    };
    let mut text = Vec::from_slice(alloc, b"tvproof 2\n")?;
    push_head(alloc, &mut text, &head)?;
    Ok(text)
}

/// Adds a part at the end of a text of parts: its row, its clauses as in the DIMACS CNF format, and its
/// steps. So a text is written while others own the certificates. After an error the text is of no use.
pub fn push_part(
    alloc: Global,
    text: &mut Vec<u8>,
    name: &[u8],
    is_correct: bool,
    cert: &Cert,
) -> Result<(), NoMemory>
    requires { IsPart (part_of name.now is_correct cert.now) }
    // The text of a proof is then that of the proof with one part more.
    ensures { OnOk result ((proof : Proof) → IsProof text.old.items proof
        → IsProof text.new.items (with_parts proof (part_of name.now is_correct cert.now ∷ []))) }
{
    push_row(text, name, is_correct)?;
    push_cert(alloc, text, cert)?;
    Ok(())
}

fn push_parts(alloc: Global, text: &mut Vec<u8>, parts: &[Part]) -> Result<(), NoMemory>
    requires { All IsPart parts.now }
    ensures { OnOk result ((proof : Proof) → IsProof text.old.items proof
        → IsProof text.new.items (with_parts proof parts.now)) }
{
    for part in parts {
        push_part(
            alloc,
            text,
            part.name.as_slice(),
            part.is_correct,
            &part.cert,
        )?;
    }
    Ok(())
}

/// The text of a proof: the lines that [`begin`] gives, and for each part its row, its clauses as in
/// the DIMACS CNF format, and its steps.
pub fn write(alloc: Global, proof: &Proof) -> Result<Vec<u8>, NoMemory>
    requires { IsSpellable proof.now }
    ensures { IfOk result (λ text. IsProof text.items proof.now) }
{
    let parts = proof.parts.as_slice();
    let mut out = begin(alloc, proof.head)?;
    push_parts(alloc, &mut out, parts)?;
    Ok(out)
}
