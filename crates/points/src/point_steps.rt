ghost use Rattle.std.specs.Prelude.{◌≡◌, ◌<◌, ◌≤◌, IsTrue, IsFalse, length};
ghost use Rattle.points.specs.Code.{BlocksFit, IsOfShape};
ghost use Rattle.points.specs.Next.{IsNextMemory, IsLastMemory, IsNextSizes, AreLastSizes, AreLeastBlocks, IsNextPoint, IsLastPoint, from_place, zero_places, zero_size};

use crate::byte_steps::{next_bytes, zero_bytes};
use crate::point::{Layout, Point, Shape};
use crate::steps::{next_words, zero_from};
use crate::value_steps::next_values;
use byte_block::Memory;

/// Writes zeros over the contents of the blocks from an index on.
fn clear_places(blocks: &mut Memory, from: usize)
    requires { from ≤ length blocks.old }
    ensures { blocks.new ≡ from_place zero_places from blocks.old }
{
    for i in from..blocks.len() {
        zero_bytes(&mut blocks.get_mut(i).places, 0);
    }
}

/// Makes the size of the blocks from an index on 0.
fn clear_sizes(blocks: &mut Memory, from: usize)
    requires { from ≤ length blocks.old }
    ensures { blocks.new ≡ from_place zero_size from blocks.old }
{
    for i in from..blocks.len() {
        blocks.get_mut(i).size = 0;
    }
}

/// Replaces the contents of blocks of these sizes by the next ones. It answers false exactly at the
/// last ones, which then stay.
fn next_places(blocks: &mut Memory, layout: &Layout) -> bool
    requires { BlocksFit layout.now 1 blocks.old }
    ensures next { IsTrue result → IsNextMemory layout.now blocks.old blocks.new }
    ensures last { IsFalse result → IsLastMemory layout.now blocks.old × (blocks.new ≡ blocks.old) }
{
    for i in (0..blocks.len()).rev() {
        let block = blocks.get_mut(i);
        let size = block.size;
        if next_bytes(&mut block.places, size, layout) {
            clear_places(blocks, i + 1);
            return true;
        }
    }
    false
}

/// Replaces the sizes by the next ones, with zeros as the contents. It answers false exactly at the
/// last sizes, and the blocks then stay.
fn next_sizes(blocks: &mut Memory, layout: &Layout) -> bool
    requires { BlocksFit layout.now 1 blocks.old }
    ensures next { IsTrue result → IsNextSizes layout.now blocks.old blocks.new }
    ensures last { IsFalse result → AreLastSizes layout.now blocks.old × (blocks.new ≡ blocks.old) }
{
    let most = layout.bytes;
    for i in (0..blocks.len()).rev() {
        let block = blocks.get_mut(i);
        if block.size < most {
            block.size += 1;
            clear_sizes(blocks, i + 1);
            clear_places(blocks, 0);
            return true;
        }
    }
    false
}

/// Replaces a point of the shape by the next one. It answers false exactly at the last, which then
/// stays. It allocates nothing.
pub fn next(point: &mut Point, shape: &Shape) -> bool
    requires { IsOfShape shape.now point.old }
    ensures next { IsTrue result → IsNextPoint shape.now point.old point.new }
    ensures last { IsFalse result → IsLastPoint shape.now point.old × (point.new ≡ point.old) }
{
    let layout = &shape.layout;
    // codes are numbers of 64 bits
    layout.numbers_fit();
    if next_words(&mut point.tape, shape.word_width) {
        return true;
    }
    if next_places(&mut point.input.blocks, layout) {
        zero_from(&mut point.tape, 0);
        return true;
    }
    if next_sizes(&mut point.input.blocks, layout) {
        zero_from(&mut point.tape, 0);
        return true;
    }
    if next_values(&mut point.input.args, shape.parameters.as_slice(), layout) {
        clear_sizes(&mut point.input.blocks, 0);
        clear_places(&mut point.input.blocks, 0);
        zero_from(&mut point.tape, 0);
        return true;
    }
    false
}
