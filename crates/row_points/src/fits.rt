//! Whether an input is one of some parameters and a layout.

ghost use Rattle.std.specs.Prelude.{◌≡◌, IsTrue, length, replicate};
ghost use Rattle.points.specs.Code.{ArgsFit, BlockFits, BlocksFit, ByteFits, BytesFit, IsGivenBlock, ValueFits};
ghost use Rattle.row_points.specs.Room.{HasRoom};

use byte_block::{BlockName, Byte, MemoryBlock, Value};
use ir_tree::{IrType, Parameter};
use points::Layout;

fn is_block_name(name: BlockName, layout: &Layout) -> bool
    ensures { IsTrue result → BlockFits layout.now name }
{
    match name {
        BlockName::Null => true,
        BlockName::Given(number) => 1 <= number && number <= layout.blocks,
        BlockName::Local(_, _) => false,
    }
}

fn is_value(value: Value, of_type: IrType, layout: &Layout) -> bool
    ensures { IsTrue result → ValueFits layout.now of_type value }
{
    match of_type {
        IrType::Int(width) => match value {
            Value::Num(n) => (n as u128) < width.end(),
            Value::Poison => true,
            Value::Ptr(_) => false,
        },
        IrType::Ptr => match value {
            Value::Ptr(pointer) => is_block_name(pointer.block, layout),
            Value::Poison => true,
            Value::Num(_) => false,
        },
    }
}

/// Whether there is a value for each parameter, of its type and within the layout.
pub fn are_args(args: &[Value], parameters: &[Parameter], layout: &Layout) -> bool
    ensures { IsTrue result → ArgsFit layout.now parameters.now args.now }
{
    let mut types = parameters;
    let mut values = args;
    while let [parameter, more_types @ ..] = types {
        let [value, more_values @ ..] = values else {
            return false;
        };
        if !is_value(*value, parameter.of_type, layout) {
            return false;
        }
        types = more_types;
        values = more_values;
    }
    values.is_empty()
}

fn is_byte(byte: Byte, layout: &Layout) -> bool
    ensures { IsTrue result → ByteFits layout.now byte }
{
    match byte {
        Byte::Bits { number, mask } => number & mask == 0,
        Byte::Part(pointer, part) => part <= 7 && is_block_name(pointer.block, layout),
    }
}

fn are_bytes(bytes: &[Byte], layout: &Layout) -> bool
    ensures { IsTrue result → BytesFit layout.now bytes.now }
{
    let mut rest = bytes;
    while let [byte, more @ ..] = rest {
        if !is_byte(*byte, layout) {
            return false;
        }
        rest = more;
    }
    true
}

fn is_zero(byte: Byte) -> bool
    ensures { IsTrue result → byte ≡ Byte.Bits 0 0 }
{
    match byte {
        Byte::Bits { number, mask } => number == 0 && mask == 0,
        Byte::Part(_, _) => false,
    }
}

fn are_zeros(bytes: &[Byte]) -> bool
    ensures { IsTrue result → bytes.now ≡ replicate (length bytes.now) (Byte.Bits 0 0) }
{
    let mut rest = bytes;
    while let [byte, more @ ..] = rest {
        if !is_zero(*byte) {
            return false;
        }
        rest = more;
    }
    true
}

fn has_room(block: &MemoryBlock, layout: &Layout) -> bool
    ensures { IsTrue result → HasRoom layout.now block.now }
{
    let places = block.places.as_slice();
    block.size <= layout.bytes
        && places.len() as u64 == layout.bytes
        && are_zeros(&places[block.size as usize..])
}

fn is_given(name: BlockName, number: u64) -> bool
    ensures { IsTrue result → name ≡ BlockName.Given number }
{
    match name {
        BlockName::Given(n) => n == number,
        BlockName::Null => false,
        BlockName::Local(_, _) => false,
    }
}

fn is_given_block(block: &MemoryBlock, number: u64, layout: &Layout) -> bool
    ensures { IsTrue result → IsGivenBlock layout.now number block.now }
{
    is_given(block.name, number)
        && block.align == 16
        && has_room(block, layout)
        && are_bytes(block.places.as_slice(), layout)
}

/// Whether these are the given blocks of a layout, in order.
pub fn are_blocks(blocks: &[MemoryBlock], layout: &Layout) -> bool
    ensures { IsTrue result → BlocksFit layout.now 1 blocks.now }
{
    for (place, block) in blocks.iter().enumerate() {
        if !is_given_block(block, place as u64 + 1, layout) {
            return false;
        }
    }
    blocks.len() as u64 == layout.blocks
}
