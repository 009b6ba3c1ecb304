//! What is shared between terms, how they are written, and terms substituted for variables.

use crate::expecting::expect;
use crate::written_terms::written;
use bit_blast::Blast;
use bv_terms::{BinaryOp, TermId, Terms, Variable, fold};
use std::alloc::Global;
use std::test::Fail;
use support::NoMemory;
use term_folds::{Print, Substitute, Weigh};

/// How many gates terms take.
fn gates_in(alloc: Global, terms: &Terms) -> Result<usize, NoMemory> {
    let mut blast = Blast::new(alloc);
    match fold(alloc, terms, &mut blast) {
        Ok(_) => Ok(blast.circuit().len()),
        Err(_) => Err(NoMemory),
    }
}

/// How many gates the terms of a text take.
fn gates_of(alloc: Global, text: &str) -> Result<usize, NoMemory> {
    let mut terms = Terms::new(alloc);
    written(alloc, &mut terms, text)?;
    gates_in(alloc, &terms)
}

/// The quotient and the remainder of the same numbers are one circuit.
#[test]
fn a_remainder_beside_its_quotient_is_free(rt: HostRuntime) -> Result<(), Fail> {
    let alone = gates_of(rt.alloc(), "xy/")?;
    let both = gates_of(rt.alloc(), "xy/xy%:")?;
    expect(both == alone, "a remainder beside its quotient is free")
}

/// Whether the last term is written so.
fn is_written(alloc: Global, terms: &Terms, want: &str) -> Result<bool, NoMemory> {
    let Ok(texts) = fold(alloc, terms, &mut Print { alloc }) else {
        return Err(NoMemory);
    };
    Ok(match texts.as_slice().last() {
        Some(last) => last.as_str() == want,
        None => false,
    })
}

/// A term is written with the name of its operation before its parts.
#[test]
fn terms_are_written(rt: HostRuntime) -> Result<(), Fail> {
    let mut terms = Terms::new(rt.alloc());
    written(rt.alloc(), &mut terms, "x5+pyp<")?;
    let want = "(ult (extract 1 2 (add v0:3 5:3)) (extract 1 2 v1:3))";
    expect(is_written(rt.alloc(), &terms, want)?, want)
}

/// How many nodes a term has.
fn weight_in(alloc: Global, terms: &Terms, id: TermId) -> Result<Option<u64>, NoMemory> {
    match fold(alloc, terms, &mut Weigh) {
        Ok(found) => Ok(found.get(id.index).copied()),
        Err(_) => Err(NoMemory),
    }
}

/// How many nodes the term of a text has.
fn weight_of(alloc: Global, terms: &mut Terms, text: &str) -> Result<Option<u64>, NoMemory> {
    let id = written(alloc, terms, text)?;
    weight_in(alloc, terms, id)
}

/// A variable of 8 bits that is added to itself, and the sum to itself, this number of times.
fn doubled(terms: &mut Terms, times: usize) -> Result<TermId, NoMemory> {
    let mut last = terms.variable(0, 8)?;
    'sums: for _ in 0..times {
        if last.index >= terms.as_slice().len() {
            return Err(NoMemory);
        }
        last = terms.binary(BinaryOp::Add, last, last)?;
    }
    Ok(last)
}

/// How many nodes a variable has that was doubled this number of times.
fn weight_doubled(alloc: Global, times: usize) -> Result<Option<u64>, NoMemory> {
    let mut terms = Terms::new(alloc);
    let id = doubled(&mut terms, times)?;
    weight_in(alloc, &terms, id)
}

/// A sum of two terms with n nodes has 2n + 1. So 63 sums in turn have 2^64 - 1, the greatest number,
/// and 64 have more.
#[test]
fn weights_end_at_the_greatest_number(rt: HostRuntime) -> Result<(), Fail> {
    for &(times, weight) in &[(62usize, u64::MAX / 2), (63, u64::MAX), (64, u64::MAX)] {
        assert!(rt; weight_doubled(rt.alloc(), times)? == Some(weight));
    }
    Ok(())
}

/// A product of two sums has 7 nodes.
#[test]
fn terms_have_weights(rt: HostRuntime) -> Result<(), Fail> {
    let mut terms = Terms::new(rt.alloc());
    expect(
        weight_of(rt.alloc(), &mut terms, "x5+x5+*")? == Some(7),
        "terms have weights",
    )
}

/// A term of 3 bits replaces a variable of 3 bits; nothing where the term has another width.
fn replace(substitute: &mut Substitute, number: u64, by: TermId) -> Result<(), NoMemory> {
    let count = substitute.terms().as_slice().len();
    if by.index < count && substitute.terms().width(by) == 3 {
        substitute.replace(Variable { number, width: 3 }, by)?;
    }
    Ok(())
}

/// Has y and x replace each other.
fn exchange(substitute: &mut Substitute, x: TermId, y: TermId) -> Result<(), NoMemory> {
    replace(substitute, 0, y)?;
    replace(substitute, 1, x)
}

/// The variables y and x.
fn variables(alloc: Global, store: &mut Terms) -> Result<(TermId, TermId), NoMemory> {
    let y = written(alloc, store, "y")?;
    let x = written(alloc, store, "x")?;
    Ok((y, x))
}

/// A store of y and x, each of which replaces the other.
fn exchanging(alloc: Global) -> Result<Substitute, NoMemory> {
    let mut store = Terms::new(alloc);
    let (y, x) = variables(alloc, &mut store)?;
    let mut substitute = Substitute::new(alloc, store);
    exchange(&mut substitute, x, y)?;
    Ok(substitute)
}

/// What a substitution makes of a term.
fn substituted(
    alloc: Global,
    terms: &Terms,
    id: TermId,
    substitute: &mut Substitute,
) -> Result<Option<TermId>, NoMemory> {
    match fold(alloc, terms, substitute) {
        Ok(ids) => Ok(ids.get(id.index).copied()),
        Err(_) => Err(NoMemory),
    }
}

/// What a substitution makes of a text's term.
fn substituted_in(
    alloc: Global,
    text: &str,
    substitute: &mut Substitute,
) -> Result<Option<TermId>, NoMemory> {
    let mut terms = Terms::new(alloc);
    let id = written(alloc, &mut terms, text)?;
    substituted(alloc, &terms, id, substitute)
}

/// Whether a text with x for y and y for x is another text.
fn is_exchanged(alloc: Global, text: &str, want: &str) -> Result<bool, NoMemory> {
    let mut substitute = exchanging(alloc)?;
    let found = substituted_in(alloc, text, &mut substitute)?;
    let mut store = substitute.into_terms();
    let want = written(alloc, &mut store, want)?;
    Ok(found == Some(want))
}

/// Two variables change places, so what replaces one is not replaced again.
#[test]
fn variables_change_places(rt: HostRuntime) -> Result<(), Fail> {
    expect(
        is_exchanged(rt.alloc(), "xy-", "yx-")?,
        "variables change places",
    )
}
