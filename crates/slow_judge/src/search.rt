//! The least point that no tape covers.

ghost use Rattle.std.specs.Prelude.{◌≡◌, MatchOption, IfOk};
ghost use Rattle.points.specs.Code.{IsOfShape};
ghost use Rattle.points.specs.Tapes.{need_of, widest_choice};
ghost use Rattle.verdicts.specs.Trail.{IsLeastUncovered, AreAllCovered};
ghost use Rattle.verdicts.specs.Covers.{IsLeastCover, HasNoCover};
ghost use Rattle.pair_costs.specs.Small.{AreSmall};
ghost use Rattle.candidate_runs.specs.Candidates.{AreRunnable};
ghost use Rattle.slow_judge.specs.Search.{HaveNoPointers, IsShapeOf, IsCell, IsReady, IsLeastAmong, AreCoveredAmong};

use crate::bench::Bench;
use crate::cells::{first, layout_of, next_cell, zeros};
use crate::cover::{is_cover, is_uncovered};
use crate::pointers::have_no_pointers;
use points::{Bounds, Point, Shape, next, next_words};
use std::alloc::Global;
use support::{NoMemory, Sequence};
use tv_num::Width;
use verdicts::RunPair;

/// How many words a function needs, and how wide its widest choice is.
#[derive(Clone, Copy)]
pub struct Tape {
    pub words: usize,
    pub width: Width,
}

/// What the points of the pair look like.
fn shape_of(
    alloc: Global,
    pair: &RunPair,
    bounds: &Bounds,
    of_target: Tape,
) -> Result<Shape, NoMemory>
    requires words { of_target.words ≡ need_of bounds.now.turns pair.now.target }
    requires width { of_target.width.bits ≡ widest_choice pair.now.target }
    ensures { IfOk result (IsShapeOf pair.now bounds.now) }
{
    let parameters = pair.target().parameters.as_slice().to_vec(alloc)?;
    Ok(Shape {
        parameters: Sequence::from_vec(parameters),
        layout: layout_of(pair, bounds),
        words: of_target.words as u64,
        word_width: of_target.width,
    })
}

/// The least cell that neither a shift nor one of the tapes covers.
fn least_cell(
    alloc: Global,
    pair: &RunPair,
    bounds: &Bounds,
    of_target: Tape,
    tapes: &[Sequence<u64>],
    bench: &mut Bench,
) -> Result<Option<Point>, NoMemory>
    requires pair { AreRunnable pair.now }
    requires pointers { HaveNoPointers pair.now }
    requires small { AreSmall bounds.now }
    requires words { of_target.words ≡ need_of bounds.now.turns pair.now.target }
    requires width { of_target.width.bits ≡ widest_choice pair.now.target }
    requires ready { IsReady pair.now bounds.now bench.old }
    ensures found { IfOk result (λ found. MatchOption found
        (AreCoveredAmong (IsCell pair.now bounds.now) pair.now bounds.now tapes.now)
        (IsLeastAmong (IsCell pair.now bounds.now) pair.now bounds.now tapes.now)) }
    ensures ready { IsReady pair.now bounds.now bench.new }
{
    let mut point = first(alloc, pair, bounds, of_target.words)?;
    loop {
        if is_uncovered(pair, bounds, tapes, &point, bench)? {
            return Ok(Some(point));
        }
        if !next_cell(pair, bounds, of_target.width, &mut point) {
            return Ok(None);
        }
    }
}

/// The least of all points that neither a shift nor one of the tapes covers.
fn least_point(
    alloc: Global,
    pair: &RunPair,
    bounds: &Bounds,
    of_target: Tape,
    tapes: &[Sequence<u64>],
    bench: &mut Bench,
) -> Result<Option<Point>, NoMemory>
    requires pair { AreRunnable pair.now }
    requires small { AreSmall bounds.now }
    requires words { of_target.words ≡ need_of bounds.now.turns pair.now.target }
    requires width { of_target.width.bits ≡ widest_choice pair.now.target }
    requires ready { IsReady pair.now bounds.now bench.old }
    ensures found { IfOk result (λ found. MatchOption found
        (AreAllCovered pair.now bounds.now tapes.now)
        (IsLeastUncovered pair.now bounds.now tapes.now)) }
    ensures ready { IsReady pair.now bounds.now bench.new }
{
    let shape = shape_of(alloc, pair, bounds, of_target)?;
    let mut point = first(alloc, pair, bounds, of_target.words)?;
    loop {
        if is_uncovered(pair, bounds, tapes, &point, bench)? {
            return Ok(Some(point));
        }
        if !next(&mut point, &shape) {
            return Ok(None);
        }
    }
}

/// The least point that neither a shift nor one of the tapes covers. Without pointers the points
/// with empty blocks decide, and the others are passed over.
pub fn least_uncovered(
    alloc: Global,
    pair: &RunPair,
    bounds: &Bounds,
    of_target: Tape,
    tapes: &[Sequence<u64>],
    bench: &mut Bench,
) -> Result<Option<Point>, NoMemory>
    requires pair { AreRunnable pair.now }
    requires small { AreSmall bounds.now }
    requires words { of_target.words ≡ need_of bounds.now.turns pair.now.target }
    requires width { of_target.width.bits ≡ widest_choice pair.now.target }
    requires ready { IsReady pair.now bounds.now bench.old }
    ensures found { IfOk result (λ found. MatchOption found
        (AreAllCovered pair.now bounds.now tapes.now)
        (IsLeastUncovered pair.now bounds.now tapes.now)) }
    ensures ready { IsReady pair.now bounds.now bench.new }
{
    if have_no_pointers(pair) {
        let found = least_cell(alloc, pair, bounds, of_target, tapes, bench)?;
        return Ok(found);
    }
    let found = least_point(alloc, pair, bounds, of_target, tapes, bench)?;
    Ok(found)
}

/// The least tape with which the source covers the point.
pub fn least_cover(
    alloc: Global,
    pair: &RunPair,
    bounds: &Bounds,
    of_source: Tape,
    point: &Point,
    bench: &mut Bench,
) -> Result<Option<Sequence<u64>>, NoMemory>
    requires pair { AreRunnable pair.now }
    requires words { of_source.words ≡ need_of bounds.now.turns pair.now.source }
    requires width { of_source.width.bits ≡ widest_choice pair.now.source }
    requires ready { IsReady pair.now bounds.now bench.old }
    ensures found { IfOk result (λ found. MatchOption found
        (HasNoCover pair.now bounds.now point.now)
        (IsLeastCover pair.now bounds.now point.now)) }
    ensures ready { IsReady pair.now bounds.now bench.new }
{
    let mut tape = zeros(alloc, of_source.words)?;
    loop {
        if is_cover(pair, bounds, point, tape.as_slice(), bench)? {
            return Ok(Some(tape));
        }
        if !next_words(&mut tape, of_source.width) {
            return Ok(None);
        }
    }
}
