//! Small graphs, with the sets as they were found by hand: for each block a 1 or a 0 for each name,
//! from name 0 on, where 1 says that every path to the block assigns it.
ghost use Rattle.std.specs.Prelude.{◌<◌, ◌≤◌, [], length, IsTrue, slice_index_or};
ghost use Rattle.std.specs.List.{All};

use crate::expecting::expect;
use definite_assignment::{NameSets, assigned_before};
use std::alloc::Global;
use std::test::Fail;
use support::{NoMemory, Sequence};

fn row(alloc: Global, block: usize, pairs: &[(usize, usize)]) -> Result<Vec<usize>, NoMemory> {
    let mut row = Vec::new(alloc);
    for (of, item) in pairs {
        if *of == block {
            row.push(*item)?;
        }
    }
    Ok(row)
}

fn rows(
    alloc: Global,
    blocks: usize,
    pairs: &[(usize, usize)],
) -> Result<Vec<Sequence<usize>>, NoMemory> {
    let mut rows = Vec::new(alloc);
    for block in 0..blocks {
        rows.push(Sequence::from_vec(row(alloc, block, pairs)?))?;
    }
    Ok(rows)
}

fn is_below(list: &[usize], bound: usize) -> bool
    ensures { IsTrue result → All (λ n. n < bound) list.now }
{
    list.iter().all(|n| *n < bound)
}

fn are_below(lists: &[Sequence<usize>], bound: usize) -> bool
    ensures { IsTrue result → All (All (λ n. n < bound)) lists.now }
{
    lists.iter().all(|list| is_below(list.as_slice(), bound))
}

fn push_row(text: &mut Vec<u8>, sets: &NameSets, block: usize, names: usize) -> Result<(), NoMemory>
    requires block { block < length sets.now }
    requires names { names ≤ length (slice_index_or sets.now block []) }
{
    for name in 0..names {
        text.push(if sets.has(block, name) { b'1' } else { b'0' })?;
    }
    text.push(b' ')?;
    Ok(())
}

/// The sets of a graph of n blocks, as a text; empty where it names a block or a name that does not
/// exist. An edge is a block and one of its successors, what is assigned a block and a name.
fn text(
    alloc: Global,
    blocks: usize,
    edges: &[(usize, usize)],
    assigned: &[(usize, usize)],
    names: usize,
) -> Result<Vec<u8>, NoMemory> {
    let successors = rows(alloc, blocks, edges)?;
    let assigns = rows(alloc, blocks, assigned)?;
    let mut text = Vec::new(alloc);
    if successors.len() != assigns.len() {
        return Ok(text);
    }
    if !are_below(&successors, successors.len()) {
        return Ok(text);
    }
    if !are_below(&assigns, names) {
        return Ok(text);
    }
    let sets = assigned_before(alloc, &successors, &assigns, names)?;
    for block in 0..successors.len() {
        push_row(&mut text, &sets, block, names)?;
    }
    Ok(text)
}

#[test]
fn every_path_assigns_a_name(rt: HostRuntime) -> Result<(), Fail> {
    let rows: [(
        &str,
        usize,
        &[(usize, usize)],
        &[(usize, usize)],
        usize,
        &str,
    ); 7] = [
        (
            "a line",
            3,
            &[(0, 1), (1, 2)],
            &[(0, 0), (1, 1)],
            2,
            "00 10 11 ",
        ),
        (
            "both ways assign one name",
            4,
            &[(0, 1), (0, 2), (1, 3), (2, 3)],
            &[(0, 0), (1, 1), (1, 2), (2, 1)],
            3,
            "000 100 100 110 ",
        ),
        (
            "no path comes to a block",
            3,
            &[(0, 2), (1, 2)],
            &[(0, 0), (1, 1)],
            2,
            "00 11 10 ",
        ),
        (
            "a loop",
            4,
            &[(0, 1), (1, 2), (1, 3), (2, 1)],
            &[(0, 0), (1, 1), (2, 2)],
            3,
            "000 100 110 110 ",
        ),
        (
            "a loop with two ways in",
            4,
            &[(0, 1), (0, 3), (1, 2), (2, 3), (3, 1)],
            &[(1, 0), (2, 1), (3, 2)],
            3,
            "000 000 100 000 ",
        ),
        (
            "the entry leads to itself",
            2,
            &[(0, 0), (0, 1)],
            &[(0, 0)],
            1,
            "0 1 ",
        ),
        ("no block", 0, &[], &[], 3, ""),
    ];
    for &(row, blocks, edges, assigned, names, want) in &rows {
        let sets = text(rt.alloc(), blocks, edges, assigned, names)?;
        expect(sets.as_slice() == want.as_bytes(), row)?;
    }
    Ok(())
}

#[test]
fn names_of_a_second_word(rt: HostRuntime) -> Result<(), Fail> {
    let sets = text(rt.alloc(), 2, &[(0, 1)], &[(0, 0), (0, 66)], 67)?;
    let names = sets.iter().filter(|byte| **byte == b'1').count();
    expect(
        (names, sets.get(68), sets.get(134)) == (2, Some(&b'1'), Some(&b'1')),
        "names of a second word",
    )
}
