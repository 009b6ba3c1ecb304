//! The least inputs, and the inputs of one shape.

ghost use Rattle.std.specs.Prelude.{◌≡◌, IfOk, IsTrue, IsFalse, length, replicate, ◌+◌, ◌<◌};
ghost use Rattle.ir_tree.specs.Pointers.{AreIntegers};
ghost use Rattle.points.specs.Next.{least_value};
ghost use Rattle.points.specs.Tapes.{need_of, widest_choice};
ghost use Rattle.verdicts.specs.Pair.{layout_of};
ghost use Rattle.verdicts.specs.Trail.{place_in};
ghost use Rattle.pair_costs.specs.Small.{AreSmall};
ghost use Rattle.slow_judge.specs.Search.{empty_block, empty_blocks, least_args, IsCell, IsNextCell, IsLastCell};

use byte_block::{BlockName, Byte, Memory, MemoryBlock, Ptr, Value};
use ir_tree::{IrType, Parameter};
use points::{Bounds, Input, Layout, Point, next_args, next_words, zero_from};
use std::alloc::{AllocError, Global};
use support::{NoMemory, Sequence};
use tv_num::Width;
use verdicts::RunPair;

fn zero_bytes(alloc: Global, count: usize) -> Result<Vec<Byte>, AllocError>
    ensures { IfOk result (λ bytes. bytes.items ≡ replicate count (Byte.Bits 0 0)) }
{
    vec![in alloc; Byte::Bits { number: 0, mask: 0 }; count]
}

fn least_value(of_type: IrType) -> Value
    ensures { result ≡ least_value of_type }
{
    match of_type {
        IrType::Int(_) => Value::Num(0),
        IrType::Ptr => Value::Ptr(Ptr {
            block: BlockName::Null,
            offset: 0,
        }),
    }
}

fn first_args(alloc: Global, parameters: &[Parameter]) -> Result<Vec<Value>, NoMemory>
    ensures { IfOk result (λ args. args.items ≡ least_args parameters.now) }
{
    let mut args = Vec::new(alloc);
    for parameter in parameters {
        args.push(least_value(parameter.of_type))?;
    }
    Ok(args)
}

/// A tape of zeros.
pub fn zeros(alloc: Global, count: usize) -> Result<Sequence<u64>, NoMemory>
    ensures { IfOk result (λ words. words ≡ replicate count 0) }
{
    Ok(Sequence::from_vec(vec![in alloc; 0; count]?))
}

fn no_bytes(alloc: Global, layout: &Layout, number: u64) -> Result<MemoryBlock, NoMemory>
    ensures { IfOk result (λ block. block ≡ empty_block layout.now number) }
{
    Ok(MemoryBlock {
        name: BlockName::Given(number),
        size: 0,
        align: 16,
        places: Sequence::from_vec(zero_bytes(alloc, layout.bytes as usize)?),
    })
}

/// What the memory of the pair's inputs looks like.
pub fn layout_of(pair: &RunPair, bounds: &Bounds) -> Layout
    ensures { result ≡ layout_of pair.now bounds.now }
{
    Layout {
        blocks: bounds.blocks,
        bytes: bounds.bytes,
    }
}

/// The given blocks with size 0.
#[tactic(auto, using(crate::proofs::Order::empty_none, crate::proofs::Order::empty_more))]
fn blocks_without_bytes(alloc: Global, layout: &Layout) -> Result<Memory, NoMemory>
    ensures { IfOk result (λ memory. memory ≡ empty_blocks layout.now) }
{
    let mut blocks = Vec::new(alloc);
    for i in 0..layout.blocks {
        blocks.push(no_bytes(alloc, layout, i + 1)?)?;
    }
    Ok(Sequence::from_vec(blocks))
}

/// The first cell, which is the first of all points too.
pub fn first(alloc: Global, pair: &RunPair, bounds: &Bounds, need: usize) -> Result<Point, NoMemory>
    requires need { need ≡ need_of bounds.now.turns pair.now.target }
    ensures cell { IfOk result (λ p. IsCell pair.now bounds.now p) }
    ensures place { IfOk result (λ p. place_in pair.now bounds.now p ≡ 0) }
{
    let args = first_args(alloc, pair.target().parameters.as_slice())?;
    let blocks = blocks_without_bytes(alloc, &layout_of(pair, bounds))?;
    let tape = zeros(alloc, need)?;
    Ok(Point {
        input: Input {
            args: Sequence::from_vec(args),
            blocks,
        },
        tape,
    })
}

/// Replaces a cell by the next one. It answers false exactly at the last, which then stays.
pub fn next_cell(pair: &RunPair, bounds: &Bounds, width: Width, point: &mut Point) -> bool
    requires integers { AreIntegers pair.now.target.parameters }
    requires small { AreSmall bounds.now }
    requires width { width.bits ≡ widest_choice pair.now.target }
    requires cell { IsCell pair.now bounds.now point.old }
    ensures next { IsTrue result → IsNextCell pair.now bounds.now point.old point.new }
    ensures last { IsFalse result → IsLastCell pair.now bounds.now point.old × (point.new ≡ point.old) }
{
    if next_words(&mut point.tape, width) {
        return true;
    }
    if next_args(&mut point.input.args, pair.target().parameters.as_slice()) {
        zero_from(&mut point.tape, 0);
        return true;
    }
    false
}
