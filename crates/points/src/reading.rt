ghost use Rattle.std.specs.Prelude.{◌≡◌, ℕ, ◌++◌, ◌*◌, ◌^◌, ◌<◌, ◌≤◌, length, IfOk};
ghost use Rattle.points.specs.Code.{IsOfShape, WordsFit, code_of};
ghost use Rattle.points.specs.Codes.{IsCodeOfArgs, AreSizes, IsCodeOfBlocks, IsCode};
ghost use Rattle.points.specs.Reads.{value_length, args_length, name_from, value_from, args_from, byte_from, places_from, block_from, blocks_from, HasByte, HaveBytes, HaveBlocks};

use crate::point::{Input, Layout, Point, Shape};
use byte_block::{BlockName, Byte, Memory, MemoryBlock, Ptr, Value};
use ir_tree::{IrType, Parameter};
use std::alloc::Global;
use support::{NoMemory, Sequence};

/// The block with this number in a code.
fn name_with(number: u64) -> BlockName
    ensures { result ≡ name_from number }
{
    if number == 0 {
        BlockName::Null
    } else {
        BlockName::Given(number)
    }
}

/// How many numbers of a code a value of the type has.
fn value_length(of_type: IrType) -> usize
    ensures value { result ≡ value_length of_type }
    ensures most { result ≤ 3 }
{
    match of_type {
        IrType::Int(_) => 2,
        IrType::Ptr => 3,
    }
}

fn args_length(parameters: &[Parameter]) -> usize
    requires { args_length parameters.now < 2 ^ 64 }
    ensures { result ≡ args_length parameters.now }
{
    parameters.iter().map(|p| value_length(p.of_type)).sum()
}

/// The value whose numbers come first.
fn value_at(digits: &[u64], of_type: IrType) -> Value
    requires { value_length of_type ≤ length digits.now }
    ensures { result ≡ value_from of_type digits.now }
{
    match of_type {
        IrType::Int(_) => {
            if digits[0] == 0 {
                Value::Num(digits[1])
            } else {
                Value::Poison
            }
        }
        IrType::Ptr => {
            if digits[0] == 0 {
                Value::Ptr(Ptr {
                    block: name_with(digits[1]),
                    offset: digits[2],
                })
            } else {
                Value::Poison
            }
        }
    }
}

fn args_with(
    alloc: Global,
    digits: &[u64],
    parameters: &[Parameter],
) -> Result<Sequence<Value>, NoMemory>
    requires { args_length parameters.now ≤ length digits.now }
    ensures { IfOk result (λ args. args ≡ args_from parameters.now digits.now) }
{
    let mut args = Vec::new(alloc);
    let mut rest = digits;
    for parameter in parameters {
        args.push(value_at(rest, parameter.of_type))?;
        rest = &rest[value_length(parameter.of_type)..];
    }
    Ok(Sequence::from_vec(args))
}

/// The byte whose six numbers come first.
fn byte_at(digits: &[u64]) -> Byte
    requires { HasByte digits.now }
    ensures { result ≡ byte_from digits.now }
{
    if digits[0] == 1 {
        let pointer = Ptr {
            block: name_with(digits[3]),
            offset: digits[4],
        };
        return Byte::Part(pointer, digits[5] as u8);
    }
    Byte::Bits {
        number: digits[2] as u8,
        mask: digits[1] as u8,
    }
}

fn places_with(alloc: Global, digits: &[u64], room: u64) -> Result<Sequence<Byte>, NoMemory>
    requires { HaveBytes room digits.now }
    ensures { IfOk result (λ places. places ≡ places_from room digits.now) }
{
    let mut places = Vec::new(alloc);
    let mut rest = digits;
    for _place in 0..room {
        places.push(byte_at(rest))?;
        rest = rest.split_at(6).1;
    }
    Ok(Sequence::from_vec(places))
}

fn block_with(
    alloc: Global,
    digits: &[u64],
    number: u64,
    size: u64,
    room: u64,
) -> Result<MemoryBlock, NoMemory>
    requires { HaveBytes room digits.now }
    ensures { IfOk result (λ block. block ≡ block_from room number size digits.now) }
{
    Ok(MemoryBlock {
        name: BlockName::Given(number),
        size,
        align: 16,
        places: places_with(alloc, digits, room)?,
    })
}

/// The given blocks of these sizes, whose contents come first.
fn blocks_with(
    alloc: Global,
    digits: &[u64],
    sizes: &[u64],
    layout: &Layout,
) -> Result<Memory, NoMemory>
    requires { HaveBlocks layout.now sizes.now digits.now }
    ensures { IfOk result (λ blocks. blocks ≡ blocks_from layout.now 1 sizes.now digits.now) }
{
    let mut blocks = Vec::new(alloc);
    let mut rest = digits;
    for (i, size) in sizes.iter().enumerate() {
        blocks.push(block_with(alloc, rest, i as u64 + 1, *size, layout.bytes)?)?;
        rest = rest.split_at(layout.bytes as usize * 6).1;
    }
    Ok(Sequence::from_vec(blocks))
}

/// The parts of a code.
#[derive(Clone, Copy)]
struct Parts<'a> {
    args: &'a [u64],
    sizes: &'a [u64],
    places: &'a [u64],
    tape: &'a [u64],
}

fn parts_of<'a>(code: &'a [u64], shape: &Shape) -> Parts<'a>
    requires { IsCode shape.now code.now }
    ensures whole { code.now ≡ result.args.now ++ (result.sizes.now ++ (result.places.now ++ result.tape.now)) }
    ensures args { IsCodeOfArgs shape.now.layout shape.now.parameters result.args.now }
    ensures sizes { AreSizes shape.now.layout shape.now.layout.blocks result.sizes.now }
    ensures places { IsCodeOfBlocks shape.now.layout result.sizes.now result.places.now }
    ensures tape { WordsFit shape.now.word_width.bits shape.now.words result.tape.now }
{
    let (front, tape) = code.split_at(code.len() - shape.words as usize);
    let (args, rest) = front.split_at(args_length(shape.parameters.as_slice()));
    let (sizes, places) = rest.split_at(shape.layout.blocks as usize);
    Parts {
        args,
        sizes,
        places,
        tape,
    }
}

/// The point of the shape with this code.
pub fn point_of(alloc: Global, code: &[u64], shape: &Shape) -> Result<Point, NoMemory>
    requires { IsCode shape.now code.now }
    ensures of_shape { IfOk result (λ point. IsOfShape shape.now point) }
    ensures code { IfOk result (λ point. code_of shape.now.layout shape.now.parameters point ≡ code.now) }
{
    let parts = parts_of(code, shape);
    let args = args_with(alloc, parts.args, shape.parameters.as_slice())?;
    let blocks = blocks_with(alloc, parts.places, parts.sizes, &shape.layout)?;
    let tape = Sequence::from_vec(parts.tape.to_vec(alloc)?);
    Ok(Point {
        input: Input { args, blocks },
        tape,
    })
}
