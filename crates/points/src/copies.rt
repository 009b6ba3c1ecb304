ghost use Rattle.std.specs.Prelude.{◌≡◌, IfOk};

use crate::point::{Input, Point};
use byte_block::copy_memory;
use std::alloc::Global;
use support::{NoMemory, Sequence};

/// A point of its own with the same input and the same choices.
pub fn copy_point(alloc: Global, point: &Point) -> Result<Point, NoMemory>
    ensures { IfOk result (λ copy. copy ≡ point.now) }
{
    let args = Sequence::from_vec(point.input.args.as_slice().to_vec(alloc)?);
    let blocks = copy_memory(alloc, &point.input.blocks)?;
    let tape = Sequence::from_vec(point.tape.as_slice().to_vec(alloc)?);
    Ok(Point {
        input: Input { args, blocks },
        tape,
    })
}
