//! Arguments and given blocks of an input.

ghost use Rattle.std.specs.Prelude.{◌≡◌, ◌<◌, ℕ, IfOk, cond, length, map, List};
ghost use Rattle.bv_terms.specs.Trees.{IsTerm, Keeps, bit_at};
ghost use Rattle.mem_terms.specs.Values.{Each, IsSymValue, Reading, value_at};
ghost use Rattle.points.specs.declared.point.Layout.{Layout};
ghost use Rattle.mem_terms.specs.Memory.{AreGivenBlocks, AreSymBlocks, AreSymBytes, IsAlways, IsSymBlock, IsSymByte, SymFrame, block_at, byte_at, frame_of, frames_of, memory_at, places_at};
ghost use Rattle.mem_terms.specs.Inputs.{IsArg, IsBlockTerms, IsByteTerms, arg_at, given_block_at, given_blocks_at, given_byte_at};

use crate::blocks::SymBlock;
use crate::bytes::{SymByte, pick_byte};
use crate::inputs::{ArgTerms, ByteTerms, InputTerms};
use crate::numbers::{equals, number, pick, resize};
use crate::truths::truth;
use crate::values::SymValue;
use bv_terms::{TermId, Terms};
use ir_tree::IrType;
use std::alloc::Global;
use support::{NoMemory, Sequence};
use term_rules::constant;

/// The alignment of a given block in bytes.
const GIVEN_ALIGN: u64 = 16;

/// The argument of a parameter of this type as a value, its number zero-extended.
pub fn arg_value(terms: &mut Terms, a: ArgTerms, of_type: IrType) -> Result<SymValue, NoMemory>
    requires { IsArg terms.old of_type a }
    ensures made { IfOk result (IsSymValue terms.new) }
    ensures stands { IfOk result (λ s. (r : Reading) → value_at r terms.new s ≡ arg_at r terms.old a) }
    ensures kept { Keeps terms.old terms.new }
{
    terms.values_fit();
    match a {
        ArgTerms::Int { flag, number: n } => {
            let number_64 = resize(terms, n, 64)?;
            let block = number(terms, 0)?;
            let is_pointer = truth(terms, false)?;
            Ok(SymValue {
                poison: flag,
                is_pointer,
                block,
                number: number_64,
            })
        }
        ArgTerms::Ptr {
            flag,
            block,
            offset,
        } => {
            let block = resize(terms, block, 64)?;
            let is_pointer = truth(terms, true)?;
            Ok(SymValue {
                poison: flag,
                is_pointer,
                block,
                number: offset,
            })
        }
    }
}

/// A symbolic byte of a given block.
fn given_byte(terms: &mut Terms, b: ByteTerms) -> Result<SymByte, NoMemory>
    requires { IsByteTerms terms.old b }
    ensures made { IfOk result (IsSymByte terms.new) }
    ensures stands { IfOk result (λ s. (r : Reading) → byte_at r terms.new s ≡ given_byte_at r terms.old b) }
    ensures kept { Keeps terms.old terms.new }
{
    terms.values_fit();
    let block = resize(terms, b.block, 64)?;
    let part_kind = constant(terms, 1, 2)?;
    let is_part = equals(terms, b.kind, part_kind)?;
    Ok(SymByte {
        is_part,
        mask: b.mask,
        number: b.number,
        block,
        offset: b.offset,
        part: b.part,
    })
}

/// The contents of a given block as symbolic bytes.
fn given_places(
    alloc: Global,
    terms: &mut Terms,
    places: &[ByteTerms],
) -> Result<Sequence<SymByte>, NoMemory>
    requires { Each (IsByteTerms terms.old) places.now }
    ensures made { IfOk result (AreSymBytes terms.new) }
    ensures count { IfOk result (λ bytes. length bytes ≡ length places.now) }
    ensures stands { IfOk result (λ bytes. (r : Reading) → places_at r terms.new bytes ≡ map (given_byte_at r terms.old) places.now) }
    ensures kept { Keeps terms.old terms.new }
{
    let mut bytes = Vec::new(alloc);
    for b in places {
        let byte = given_byte(terms, *b)?;
        bytes.push(byte)?;
    }
    Ok(Sequence::from_vec(bytes))
}

/// The given block of this number, from 1.
fn given_block(
    alloc: Global,
    terms: &mut Terms,
    number: u64,
    size: TermId,
    places: &[ByteTerms],
) -> Result<SymBlock, NoMemory>
    requires number { 0 < number }
    requires size { IsTerm terms.old 6 size }
    requires places { Each (IsByteTerms terms.old) places.now }
    ensures made { IfOk result (IsSymBlock terms.new) }
    ensures always { IfOk result (IsAlways terms.new) }
    ensures frame { IfOk result (λ b. frame_of b ≡ record { number = number; align = 16; room = length places.now }) }
    ensures stands { IfOk result (λ b. (r : Reading) → block_at r terms.new b ≡ given_block_at r terms.old number size places.now) }
    ensures kept { Keeps terms.old terms.new }
{
    terms.values_fit();
    let exists = truth(terms, true)?;
    let size = resize(terms, size, 64)?;
    let places = given_places(alloc, terms, places)?;
    Ok(SymBlock {
        number,
        exists,
        size,
        align: GIVEN_ALIGN,
        places,
    })
}

/// The given blocks of an input, with the numbers from 1 on.
pub fn given_blocks(
    alloc: Global,
    terms: &mut Terms,
    input: &InputTerms,
) -> Result<Sequence<SymBlock>, NoMemory>
    requires sizes { Each (IsTerm terms.old 6) input.now.sizes }
    requires places { Each (Each (IsByteTerms terms.old)) input.now.places }
    requires count { length input.now.sizes ≡ length input.now.places }
    ensures made { IfOk result (AreSymBlocks terms.new) }
    ensures given { IfOk result (λ bs. (layout : Layout) → length input.now.sizes ≡ layout.blocks → Each (IsBlockTerms layout.bytes terms.old) input.now.places → AreGivenBlocks (frames_of layout) terms.new bs) }
    ensures stands { IfOk result (λ bs. (r : Reading) → memory_at r terms.new bs ≡ given_blocks_at r terms.old 1 input.now.sizes input.now.places) }
    ensures kept { Keeps terms.old terms.new }
{
    let mut blocks = Vec::new(alloc);
    for (i, size) in input.sizes.as_slice().iter().enumerate() {
        let places = input.places.get(i).as_slice();
        let block = given_block(alloc, terms, i as u64 + 1, *size, places)?;
        blocks.push(block)?;
    }
    Ok(Sequence::from_vec(blocks))
}

/// The first bytes where the condition is true, else the second; both have the same length.
fn pick_places(
    alloc: Global,
    terms: &mut Terms,
    c: TermId,
    a: &[SymByte],
    b: &[SymByte],
) -> Result<Sequence<SymByte>, NoMemory>
    requires c { IsTerm terms.old 1 c }
    requires a { AreSymBytes terms.old a.now }
    requires b { AreSymBytes terms.old b.now }
    requires alike { length b.now ≡ length a.now }
    ensures made { IfOk result (AreSymBytes terms.new) }
    ensures count { IfOk result (λ bytes. length bytes ≡ length a.now) }
    ensures stands { IfOk result (λ bytes. (r : Reading) → places_at r terms.new bytes ≡ cond (bit_at r.v terms.old c) (places_at r terms.old a.now) (places_at r terms.old b.now)) }
    ensures kept { Keeps terms.old terms.new }
{
    let mut picked = Vec::new(alloc);
    for (i, first) in a.iter().enumerate() {
        let byte = pick_byte(terms, c, *first, b[i])?;
        picked.push(byte)?;
    }
    Ok(Sequence::from_vec(picked))
}

/// The first block where the condition is true, else the second; both have the same number, the
/// same alignment and room for the same number of bytes.
pub fn pick_block(
    alloc: Global,
    terms: &mut Terms,
    c: TermId,
    a: &SymBlock,
    b: &SymBlock,
) -> Result<SymBlock, NoMemory>
    requires c { IsTerm terms.old 1 c }
    requires a { IsSymBlock terms.old a.now }
    requires b { IsSymBlock terms.old b.now }
    requires frame { frame_of b.now ≡ frame_of a.now }
    ensures made { IfOk result (IsSymBlock terms.new) }
    ensures frame { IfOk result (λ p. frame_of p ≡ frame_of a.now) }
    ensures exists { IfOk result (λ p. (v : ℕ → ℕ → ℕ) → bit_at v terms.new p.exists ≡ cond (bit_at v terms.old c) (bit_at v terms.old a.now.exists) (bit_at v terms.old b.now.exists)) }
    ensures stands { IfOk result (λ p. (r : Reading) → block_at r terms.new p ≡ cond (bit_at r.v terms.old c) (block_at r terms.old a.now) (block_at r terms.old b.now)) }
    ensures kept { Keeps terms.old terms.new }
{
    let exists = pick(terms, c, a.exists, b.exists)?;
    let size = pick(terms, c, a.size, b.size)?;
    let places = pick_places(alloc, terms, c, a.places.as_slice(), b.places.as_slice())?;
    Ok(SymBlock {
        number: a.number,
        exists,
        size,
        align: a.align,
        places,
    })
}

/// The first given blocks where the condition is true, else the second; block by block they have
/// the same number, the same alignment and room for the same number of bytes.
pub fn pick_given(
    alloc: Global,
    terms: &mut Terms,
    c: TermId,
    a: &[SymBlock],
    b: &[SymBlock],
) -> Result<Sequence<SymBlock>, NoMemory>
    requires c { IsTerm terms.old 1 c }
    requires a { AreSymBlocks terms.old a.now }
    requires b { AreSymBlocks terms.old b.now }
    requires frames { map frame_of b.now ≡ map frame_of a.now }
    ensures made { IfOk result (AreSymBlocks terms.new) }
    ensures given { IfOk result (λ m. (known : List SymFrame) → AreGivenBlocks known terms.old a.now → AreGivenBlocks known terms.old b.now → AreGivenBlocks known terms.new m) }
    ensures stands { IfOk result (λ m. (known : List SymFrame) (r : Reading) → AreGivenBlocks known terms.old a.now → AreGivenBlocks known terms.old b.now
        → memory_at r terms.new m ≡ cond (bit_at r.v terms.old c) (memory_at r terms.old a.now) (memory_at r terms.old b.now)) }
    ensures kept { Keeps terms.old terms.new }
{
    let mut picked = Vec::new(alloc);
    for (i, first) in a.iter().enumerate() {
        let block = pick_block(alloc, terms, c, first, &b[i])?;
        picked.push(block)?;
    }
    Ok(Sequence::from_vec(picked))
}
