ghost use Rattle.std.specs.Prelude.{◌≡◌, ℕ, ◌+◌, ◌*◌, ◌++◌, length, map, IfOk, OnOk};
ghost use Rattle.std.specs.List.{flat_map};
ghost use Rattle.byte_block.specs.declared.block.MemoryBlock.{MemoryBlock};
ghost use Rattle.points.specs.declared.point.Layout.{Layout};
ghost use Rattle.points.specs.Code.{name_digit, value_code, args_code, byte_code, places_code, blocks_code, code_of, ArgsFit, BlocksFit, IsOfShape};
ghost use Rattle.points.specs.Codes.{IsCodeOfValue, IsCodeOfArgs, AreSizes, IsCodeOfByte, IsCodeOfPlaces, IsCodeOfBlocks, IsCode};

use crate::point::{Point, Shape};
use byte_block::{BlockName, Byte, MemoryBlock, Value};
use ir_tree::{IrType, Parameter};
use std::alloc::Global;
use support::{NoMemory, Sequence};

/// The number of a block in a code: 0 for null.
fn name_number(name: BlockName) -> u64
    ensures { (layout : Layout) → result ≡ name_digit layout name }
{
    match name {
        BlockName::Null | BlockName::Local(..) => 0,
        BlockName::Given(number) => number,
    }
}

fn push_value(code: &mut Vec<u64>, of_type: IrType, value: Value) -> Result<(), NoMemory>
    ensures { OnOk result ((layout : Layout) → code.new.items ≡ code.old.items ++ value_code layout of_type value) }
{
    match (of_type, value) {
        (IrType::Int(_), Value::Num(number)) => code.extend_from_slice(&[0, number])?,
        (IrType::Int(_), Value::Poison | Value::Ptr(_)) => code.extend_from_slice(&[1, 0])?,
        (IrType::Ptr, Value::Ptr(pointer)) => {
            code.extend_from_slice(&[0, name_number(pointer.block), pointer.offset])?
        }
        (IrType::Ptr, Value::Num(_) | Value::Poison) => code.extend_from_slice(&[1, 0, 0])?,
    }
    Ok(())
}

fn push_args(
    code: &mut Vec<u64>,
    parameters: &[Parameter],
    args: &Sequence<Value>,
) -> Result<(), NoMemory>
    requires { length args.now ≡ length parameters.now }
    ensures { OnOk result ((layout : Layout) → code.new.items ≡ code.old.items ++ args_code layout parameters.now args.now) }
{
    for i in 0..parameters.len() {
        push_value(code, parameters[i].of_type, *args.get(i))?;
    }
    Ok(())
}

fn push_sizes(code: &mut Vec<u64>, blocks: &[MemoryBlock]) -> Result<(), NoMemory>
    ensures { OnOk result (code.new.items ≡ code.old.items ++ map (λ (b : MemoryBlock). b.size) blocks.now) }
{
    for block in blocks {
        code.push(block.size)?;
    }
    Ok(())
}

fn push_byte(code: &mut Vec<u64>, byte: Byte) -> Result<(), NoMemory>
    ensures { OnOk result ((layout : Layout) → code.new.items ≡ code.old.items ++ byte_code layout byte) }
{
    match byte {
        Byte::Bits { number, mask } => {
            let kind = if mask == 0 { 0 } else { 2 };
            code.extend_from_slice(&[kind, mask as u64, number as u64, 0, 0, 0])?
        }
        Byte::Part(pointer, part) => {
            code.extend_from_slice(&[
                1,
                0,
                0,
                name_number(pointer.block),
                pointer.offset,
                part as u64,
            ])?
        }
    }
    Ok(())
}

fn push_bytes(code: &mut Vec<u64>, places: &[Byte]) -> Result<(), NoMemory>
    ensures { OnOk result ((layout : Layout) → code.new.items ≡ code.old.items ++ flat_map (byte_code layout) places.now) }
{
    for byte in places {
        push_byte(code, *byte)?;
    }
    Ok(())
}

fn push_places(code: &mut Vec<u64>, memory: &[MemoryBlock]) -> Result<(), NoMemory>
    ensures { OnOk result ((layout : Layout) → code.new.items ≡ code.old.items ++ flat_map (places_code layout) memory.now) }
{
    for block in memory {
        push_bytes(code, block.places.as_slice())?;
    }
    Ok(())
}

/// The code of a point of the shape: for each argument a flag, 1 for poison, and its number, or its
/// block and offset; the sizes of the given blocks; six numbers for each byte that they have room
/// for; the words of the tape.
pub fn code_of(alloc: Global, point: &Point, shape: &Shape) -> Result<Vec<u64>, NoMemory>
    requires { IsOfShape shape.now point.now }
    ensures { IfOk result (λ code. code.items ≡ code_of shape.now.layout shape.now.parameters point.now) }
{
    let mut code = Vec::new(alloc);
    push_args(&mut code, shape.parameters.as_slice(), &point.input.args)?;
    push_sizes(&mut code, point.input.blocks.as_slice())?;
    push_places(&mut code, point.input.blocks.as_slice())?;
    code.extend_from_slice(point.tape.as_slice())?;
    Ok(code)
}
