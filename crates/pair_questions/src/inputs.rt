//! The numbers of a point as variables.

ghost use Rattle.std.specs.Prelude.{◌≡◌, ◌++◌, IfOk, List, OnOk, length, replicate, ℕ};
ghost use Rattle.std.specs.List.{flat_map};
ghost use Rattle.bv_terms.specs.Trees.{Extends, IsTerm, IsWidth};
ghost use Rattle.mem_terms.specs.Values.{Each};
ghost use Rattle.mem_terms.specs.Inputs.{AreArgs, AreWords, IsArg, IsBlockTerms, IsByteTerms};
ghost use Rattle.refine_terms.specs.Numbers.{IsInputOf};
ghost use Rattle.pair_questions.specs.Orders.{IsOrder};
ghost use Rattle.pair_questions.specs.Questions.{args_widths, blocks_widths, places_widths, value_widths};
ghost use Rattle.pair_questions.specs.Shapes.{arg_ids, byte_ids, input_ids};

use crate::variables::variable;
use bv_terms::{TermId, Terms};
use ir_tree::{IrType, Parameter};
use mem_terms::{ArgTerms, ByteTerms, InputTerms, TapeTerms};
use points::{Layout, Shape};
use std::alloc::Global;
use support::{NoMemory, Sequence};

/// How many bits the size of a given block has, which is at most 32.
pub const SIZE_WIDTH: u32 = 6;

/// How many bits a word of a tape has.
const WORD_WIDTH: u32 = 64;

/// How many bits the number of a given block has in a code.
const BLOCK_WIDTH: u32 = 3;

/// The numbers of an argument of a type.
fn arg_variable(
    of_type: IrType,
    terms: &mut Terms,
    order: &mut Vec<TermId>,
) -> Result<ArgTerms, NoMemory>
    ensures arg { IfOk result (IsArg terms.new of_type) }
    ensures order { OnOk result ((widths : List ℕ) → IsOrder terms.old order.old.items widths → IsOrder terms.new order.new.items (widths ++ value_widths of_type)) }
    ensures ids { IfOk result (λ arg. order.new.items ≡ order.old.items ++ arg_ids arg) }
    ensures kept { Extends terms.old terms.new }
{
    let flag = variable(terms, order, 1)?;
    match of_type {
        IrType::Int(width) => {
            let number = variable(terms, order, width.bits())?;
            Ok(ArgTerms::Int { flag, number })
        }
        IrType::Ptr => {
            let block = variable(terms, order, BLOCK_WIDTH)?;
            let offset = variable(terms, order, WORD_WIDTH)?;
            Ok(ArgTerms::Ptr {
                flag,
                block,
                offset,
            })
        }
    }
}

/// The numbers of an argument for each parameter.
fn arg_variables(
    alloc: Global,
    parameters: &[Parameter],
    terms: &mut Terms,
    order: &mut Vec<TermId>,
) -> Result<Sequence<ArgTerms>, NoMemory>
    ensures args { IfOk result (AreArgs terms.new parameters.now) }
    ensures order { OnOk result ((widths : List ℕ) → IsOrder terms.old order.old.items widths → IsOrder terms.new order.new.items (widths ++ args_widths parameters.now)) }
    ensures ids { IfOk result (λ args. order.new.items ≡ order.old.items ++ flat_map arg_ids args) }
    ensures kept { Extends terms.old terms.new }
{
    let mut args = Vec::new(alloc);
    for parameter in parameters {
        let arg = arg_variable(parameter.of_type, terms, order)?;
        args.push(arg)?;
    }
    Ok(Sequence::from_vec(args))
}

/// The six numbers of a byte.
fn place_variables(terms: &mut Terms, order: &mut Vec<TermId>) -> Result<ByteTerms, NoMemory>
    ensures place { IfOk result (IsByteTerms terms.new) }
    ensures order { OnOk result ((widths : List ℕ) → IsOrder terms.old order.old.items widths → IsOrder terms.new order.new.items (widths ++ places_widths 1)) }
    ensures ids { IfOk result (λ place. order.new.items ≡ order.old.items ++ byte_ids place) }
    ensures kept { Extends terms.old terms.new }
{
    let kind = variable(terms, order, 2)?;
    let mask = variable(terms, order, 8)?;
    let number = variable(terms, order, 8)?;
    let block = variable(terms, order, 3)?;
    let offset = variable(terms, order, 64)?;
    let part = variable(terms, order, 3)?;
    Ok(ByteTerms {
        kind,
        mask,
        number,
        block,
        offset,
        part,
    })
}

/// The numbers of a given block's contents.
fn block_variables(
    alloc: Global,
    bytes: u64,
    terms: &mut Terms,
    order: &mut Vec<TermId>,
) -> Result<Sequence<ByteTerms>, NoMemory>
    ensures places { IfOk result (IsBlockTerms bytes terms.new) }
    ensures order { OnOk result ((widths : List ℕ) → IsOrder terms.old order.old.items widths → IsOrder terms.new order.new.items (widths ++ places_widths bytes)) }
    ensures ids { IfOk result (λ places. order.new.items ≡ order.old.items ++ flat_map byte_ids places) }
    ensures kept { Extends terms.old terms.new }
{
    let mut places = Vec::new(alloc);
    for _place in 0..bytes {
        let place = place_variables(terms, order)?;
        places.push(place)?;
    }
    Ok(Sequence::from_vec(places))
}

/// The contents of the given blocks.
fn blocks_variables(
    alloc: Global,
    layout: &Layout,
    terms: &mut Terms,
    order: &mut Vec<TermId>,
) -> Result<Sequence<Sequence<ByteTerms>>, NoMemory>
    ensures count { IfOk result (λ places. length places ≡ layout.now.blocks) }
    ensures places { IfOk result (Each (IsBlockTerms layout.now.bytes terms.new)) }
    ensures order { OnOk result ((widths : List ℕ) → IsOrder terms.old order.old.items widths → IsOrder terms.new order.new.items (widths ++ blocks_widths layout.now layout.now.blocks)) }
    ensures ids { IfOk result (λ places. order.new.items ≡ order.old.items ++ flat_map (flat_map byte_ids) places) }
    ensures kept { Extends terms.old terms.new }
{
    let mut places = Vec::new(alloc);
    for _block in 0..layout.blocks {
        let block = block_variables(alloc, layout.bytes, terms, order)?;
        places.push(block)?;
    }
    Ok(Sequence::from_vec(places))
}

/// This number of variables of the same width.
fn row_of_variables(
    alloc: Global,
    count: u64,
    width: u32,
    terms: &mut Terms,
    order: &mut Vec<TermId>,
) -> Result<Sequence<TermId>, NoMemory>
    requires { IsWidth width }
    ensures count { IfOk result (λ row. length row ≡ count) }
    ensures row { IfOk result (Each (IsTerm terms.new width)) }
    ensures order { OnOk result ((widths : List ℕ) → IsOrder terms.old order.old.items widths → IsOrder terms.new order.new.items (widths ++ replicate count width)) }
    ensures ids { IfOk result (λ row. order.new.items ≡ order.old.items ++ row) }
    ensures kept { Extends terms.old terms.new }
{
    let mut row = Vec::new(alloc);
    for _variable in 0..count {
        let id = variable(terms, order, width)?;
        row.push(id)?;
    }
    Ok(Sequence::from_vec(row))
}

/// Variables for the numbers of a point before its tape, in the order of its code.
pub fn input_variables(
    alloc: Global,
    shape: &Shape,
    terms: &mut Terms,
    order: &mut Vec<TermId>,
) -> Result<InputTerms, NoMemory>
    ensures input { IfOk result (IsInputOf shape.now terms.new) }
    ensures order { OnOk result ((widths : List ℕ) → IsOrder terms.old order.old.items widths → IsOrder terms.new order.new.items
        (widths ++ (args_widths shape.now.parameters ++ (replicate shape.now.layout.blocks 6 ++ blocks_widths shape.now.layout shape.now.layout.blocks)))) }
    ensures ids { IfOk result (λ input. order.new.items ≡ order.old.items ++ input_ids input) }
    ensures kept { Extends terms.old terms.new }
{
    let args = arg_variables(alloc, shape.parameters.as_slice(), terms, order)?;
    let sizes = row_of_variables(alloc, shape.layout.blocks, SIZE_WIDTH, terms, order)?;
    let places = blocks_variables(alloc, &shape.layout, terms, order)?;
    Ok(InputTerms {
        args,
        sizes,
        places,
    })
}

/// Variables for the words of a tape.
pub fn tape_variables(
    alloc: Global,
    words: u64,
    terms: &mut Terms,
    order: &mut Vec<TermId>,
) -> Result<TapeTerms, NoMemory>
    ensures are { IfOk result (λ tape. AreWords terms.new tape.words) }
    ensures count { IfOk result (λ tape. length tape.words ≡ words) }
    ensures order { OnOk result ((widths : List ℕ) → IsOrder terms.old order.old.items widths → IsOrder terms.new order.new.items (widths ++ replicate words 64)) }
    ensures ids { IfOk result (λ tape. order.new.items ≡ order.old.items ++ tape.words) }
    ensures kept { Extends terms.old terms.new }
{
    let words = row_of_variables(alloc, words, WORD_WIDTH, terms, order)?;
    Ok(TapeTerms { words })
}
