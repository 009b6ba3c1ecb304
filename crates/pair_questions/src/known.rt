//! A known input as terms.

ghost use Rattle.std.specs.Prelude.{◌≡◌, ◌≤◌, All, IfOk, List, length, map, ℕ};
ghost use Rattle.points.specs.declared.point.Layout.{Layout};
ghost use Rattle.points.specs.Code.{ArgsFit, ByteFits, BytesFit, IsOfShape, PointerFits, ValueFits};
ghost use Rattle.points.specs.Run.{block_number};
ghost use Rattle.bv_terms.specs.Trees.{IsTerm, Keeps, Makes, term_at};
ghost use Rattle.mem_terms.specs.Values.{Each, reading};
ghost use Rattle.mem_terms.specs.Inputs.{AreArgs, IsArg, IsBlockTerms, IsByteTerms, arg_at, args_at, given_byte_at, input_at};
ghost use Rattle.refine_terms.specs.Numbers.{IsInputOf};
ghost use Rattle.pair_questions.specs.Shapes.{nameable};

use crate::inputs::SIZE_WIDTH;
use bv_terms::{TermId, Terms};
use byte_block::{BlockName, Byte, MemoryBlock, Ptr, Value};
use ir_tree::{IrType, Parameter};
use mem_terms::{ArgTerms, ByteTerms, InputTerms, truth};
use points::{Point, Shape};
use std::alloc::Global;
use support::{NoMemory, Sequence};

/// The number of a given block in a code, and 0 for null.
fn block_number(name: BlockName) -> u64
    ensures { result ≡ block_number name }
{
    match name {
        BlockName::Given(number) => number,
        BlockName::Null | BlockName::Local(..) => 0,
    }
}

/// A pointer's block, in 3 bits, and its offset.
fn known_pointer(pointer: Ptr, terms: &mut Terms) -> Result<(TermId, TermId), NoMemory>
    requires { PointerFits nameable pointer }
    ensures block { IfOk result (λ p. Makes terms.new p.0 3 (λ v. block_number pointer.block)) }
    ensures offset { IfOk result (λ p. Makes terms.new p.1 64 (λ v. pointer.offset)) }
    ensures kept { Keeps terms.old terms.new }
{
    let block = terms.constant(block_number(pointer.block) as u128, 3)?;
    let offset = terms.constant(pointer.offset as u128, 64)?;
    Ok((block, offset))
}

/// An argument that is this value, which fits the type.
fn known_arg(of_type: IrType, value: Value, terms: &mut Terms) -> Result<ArgTerms, NoMemory>
    requires { ValueFits nameable of_type value }
    ensures is { IfOk result (IsArg terms.new of_type) }
    ensures stands { IfOk result (λ arg. (layout : Layout) (v : ℕ → ℕ → ℕ) → ValueFits layout of_type value → arg_at (reading layout.blocks v) terms.new arg ≡ value) }
    ensures kept { Keeps terms.old terms.new }
{
    match (of_type, value) {
        (IrType::Int(width), Value::Num(known)) => {
            let flag = truth(terms, false)?;
            let number = terms.constant(known as u128, width.bits())?;
            Ok(ArgTerms::Int { flag, number })
        }
        (IrType::Int(width), _) => {
            let flag = truth(terms, true)?;
            let number = terms.constant(0, width.bits())?;
            Ok(ArgTerms::Int { flag, number })
        }
        (IrType::Ptr, Value::Ptr(pointer)) => {
            let flag = truth(terms, false)?;
            let (block, offset) = known_pointer(pointer, terms)?;
            Ok(ArgTerms::Ptr {
                flag,
                block,
                offset,
            })
        }
        (IrType::Ptr, _) => {
            let flag = truth(terms, true)?;
            let block = terms.constant(0, 3)?;
            let offset = terms.constant(0, 64)?;
            Ok(ArgTerms::Ptr {
                flag,
                block,
                offset,
            })
        }
    }
}

/// Arguments that are these values, which fit their parameters.
fn known_args(
    alloc: Global,
    parameters: &[Parameter],
    args: &[Value],
    terms: &mut Terms,
) -> Result<Sequence<ArgTerms>, NoMemory>
    requires { ArgsFit nameable parameters.now args.now }
    ensures are { IfOk result (AreArgs terms.new parameters.now) }
    ensures stands { IfOk result (λ known. (layout : Layout) (v : ℕ → ℕ → ℕ) → ArgsFit layout parameters.now args.now → args_at (reading layout.blocks v) terms.new known ≡ args.now) }
    ensures kept { Keeps terms.old terms.new }
{
    let mut known = Vec::new(alloc);
    for (i, parameter) in parameters.iter().enumerate() {
        let arg = known_arg(parameter.of_type, args[i], terms)?;
        known.push(arg)?;
    }
    Ok(Sequence::from_vec(known))
}

/// This byte as terms.
fn known_byte(byte: Byte, terms: &mut Terms) -> Result<ByteTerms, NoMemory>
    requires { ByteFits nameable byte }
    ensures is { IfOk result (IsByteTerms terms.new) }
    ensures stands { IfOk result (λ known. (layout : Layout) (v : ℕ → ℕ → ℕ) → ByteFits layout byte → given_byte_at (reading layout.blocks v) terms.new known ≡ byte) }
    ensures kept { Keeps terms.old terms.new }
{
    let null = Ptr {
        block: BlockName::Null,
        offset: 0,
    };
    let (kind, mask, number, pointer, part) = match byte {
        Byte::Bits { number, mask: 0 } => (0, 0, number, null, 0),
        Byte::Bits { number, mask } => (2, mask, number, null, 0),
        Byte::Part(pointer, part) => (1, 0, 0, pointer, part),
    };
    let kind = terms.constant(kind, 2)?;
    let mask = terms.constant(mask as u128, 8)?;
    let number = terms.constant(number as u128, 8)?;
    let (block, offset) = known_pointer(pointer, terms)?;
    let part = terms.constant(part as u128, 3)?;
    Ok(ByteTerms {
        kind,
        mask,
        number,
        block,
        offset,
        part,
    })
}

/// These bytes as terms.
fn known_places(
    alloc: Global,
    bytes: &[Byte],
    terms: &mut Terms,
) -> Result<Sequence<ByteTerms>, NoMemory>
    requires { BytesFit nameable bytes.now }
    ensures are { IfOk result (IsBlockTerms (length bytes.now) terms.new) }
    ensures stands { IfOk result (λ known. (layout : Layout) (v : ℕ → ℕ → ℕ) → BytesFit layout bytes.now → map (given_byte_at (reading layout.blocks v) terms.new) known ≡ bytes.now) }
    ensures kept { Keeps terms.old terms.new }
{
    let mut known = Vec::new(alloc);
    for byte in bytes {
        let place = known_byte(*byte, terms)?;
        known.push(place)?;
    }
    Ok(Sequence::from_vec(known))
}

/// The sizes of these blocks, each at most 63.
fn known_sizes(
    alloc: Global,
    blocks: &[MemoryBlock],
    terms: &mut Terms,
) -> Result<Sequence<TermId>, NoMemory>
    requires { All (λ (b : MemoryBlock). b.size ≤ 63) blocks.now }
    ensures count { IfOk result (λ sizes. length sizes ≡ length blocks.now) }
    ensures are { IfOk result (Each (IsTerm terms.new 6)) }
    ensures stands { IfOk result (λ sizes. (v : ℕ → ℕ → ℕ) → map (term_at v terms.new) sizes ≡ map (λ (b : MemoryBlock). b.size) blocks.now) }
    ensures kept { Keeps terms.old terms.new }
{
    let mut sizes = Vec::new(alloc);
    for block in blocks {
        let size = terms.constant(block.size as u128, SIZE_WIDTH)?;
        sizes.push(size)?;
    }
    Ok(Sequence::from_vec(sizes))
}

/// The contents of these blocks.
fn known_blocks(
    alloc: Global,
    blocks: &[MemoryBlock],
    terms: &mut Terms,
) -> Result<Sequence<Sequence<ByteTerms>>, NoMemory>
    requires { All (λ (b : MemoryBlock). BytesFit nameable b.places) blocks.now }
    ensures count { IfOk result (λ known. length known ≡ length blocks.now) }
    ensures are { IfOk result (λ known. (bytes : ℕ) → All (λ (b : MemoryBlock). length b.places ≡ bytes) blocks.now → Each (IsBlockTerms bytes terms.new) known) }
    ensures stands { IfOk result (λ known. (layout : Layout) (v : ℕ → ℕ → ℕ) → All (λ (b : MemoryBlock). BytesFit layout b.places) blocks.now
        → map (λ (places : List ByteTerms). map (given_byte_at (reading layout.blocks v) terms.new) places) known ≡ map (λ (b : MemoryBlock). b.places) blocks.now) }
    ensures kept { Keeps terms.old terms.new }
{
    let mut known = Vec::new(alloc);
    for block in blocks {
        let places = known_places(alloc, block.places.as_slice(), terms)?;
        known.push(places)?;
    }
    Ok(Sequence::from_vec(known))
}

/// The input of a point of the shape as terms. The shape has at most 7 given blocks, each of at most
/// 63 bytes.
pub fn known_input(
    alloc: Global,
    shape: &Shape,
    point: &Point,
    terms: &mut Terms,
) -> Result<InputTerms, NoMemory>
    requires point { IsOfShape shape.now point.now }
    requires blocks { shape.now.layout.blocks ≤ 7 }
    requires bytes { shape.now.layout.bytes ≤ 63 }
    ensures is { IfOk result (IsInputOf shape.now terms.new) }
    ensures stands { IfOk result (λ known. (v : ℕ → ℕ → ℕ) → input_at (reading shape.now.layout.blocks v) terms.new known ≡ point.now.input) }
    ensures kept { Keeps terms.old terms.new }
{
    let input = &point.input;
    let parameters = shape.parameters.as_slice();
    let args = known_args(alloc, parameters, input.args.as_slice(), terms)?;
    let sizes = known_sizes(alloc, input.blocks.as_slice(), terms)?;
    let places = known_blocks(alloc, input.blocks.as_slice(), terms)?;
    Ok(InputTerms {
        args,
        sizes,
        places,
    })
}
