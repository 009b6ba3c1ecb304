//! Copies of blocks that are too many, and what a pair needs and weighs.

ghost use Rattle.std.specs.List.{AllByRecursion};
ghost use Rattle.ir_reader.specs.Judgeable.{IsJudgeableEntry};

use crate::expecting::expect;
use crate::pairs::pair_in;
use ir_reader::read;
use ir_tree::{Block, Function, Module, Name, Names, Operand, Terminator};
use pair_costs::{need, weight, widest_of};
use points::Bounds;
use std::alloc::Global;
use std::test::Fail;
use support::{NoMemory, Sequence};
use unroll::layers;

/// A block of no instructions.
fn block(alloc: Global, label: usize, terminator: Terminator) -> Block {
    Block {
        label,
        phis: Sequence::from_vec(Vec::new(alloc)),
        insts: Sequence::from_vec(Vec::new(alloc)),
        terminator,
    }
}

/// A function of these blocks.
fn function(alloc: Global, blocks: Vec<Block>) -> Function {
    Function {
        name: Name::Word(Sequence::from_vec(Vec::new(alloc))),
        returns: None,
        returns_no_undef: false,
        parameters: Sequence::from_vec(Vec::new(alloc)),
        blocks: Sequence::from_vec(blocks),
        names: Names::new(alloc),
        places: Sequence::from_vec(Vec::new(alloc)),
    }
}

/// A block that leads to another one, which leads back or to itself.
fn two_blocks(alloc: Global) -> Result<Function, NoMemory> {
    let back = Terminator::CondBranch {
        condition: Operand::Poison,
        if_true: 0,
        if_false: 1,
    };
    let mut blocks = Vec::new(alloc);
    blocks.push(block(alloc, 0, Terminator::Branch { to: 1 }))?;
    blocks.push(block(alloc, 1, back))?;
    Ok(function(alloc, blocks))
}

/// Whether two blocks have too many copies within this number of backward jumps.
fn are_too_many(alloc: Global, turns: u64) -> Result<bool, NoMemory> {
    let f = two_blocks(alloc)?;
    Ok(layers(alloc, &f, turns).is_err())
}

/// Whether a function without blocks has no copies.
fn none_have_none(alloc: Global, turns: u64) -> Result<bool, NoMemory> {
    let empty = function(alloc, Vec::new(alloc));
    let layered = layers(alloc, &empty, turns)?;
    Ok(layered.copies.is_empty())
}

#[test]
fn too_many_copies_are_out_of_memory(rt: HostRuntime) -> Result<(), Fail> {
    for turns in [9223372036854775807, u64::MAX] {
        expect(are_too_many(rt.alloc(), turns)?, "too many copies")?;
    }
    expect(none_have_none(rt.alloc(), u64::MAX)?, "no copies")
}

const DOUBLED_AND_SHIFTED: &str = "\
define i8 @f(i8 %x) {
  %a = freeze i4 poison
  %r = add i8 %x, %x
  ret i8 %r
}
define i8 @g(i8 %x) {
  %r = shl i8 %x, 1
  ret i8 %r
}
";

const BOUNDS: Bounds = Bounds {
    turns: 4,
    blocks: 2,
    bytes: 8,
};

/// What a pair weighs, how many choices its functions take, and the widest choice of each.
type Measures = (u64, [u64; 2], [u32; 2]);

/// What the pair of a module measures.
#[tactic(auto, using(points::proofs::Runnable::runnable))]
fn measured(alloc: Global, module: &Module) -> Option<Measures>
    requires { AllByRecursion IsJudgeableEntry module.now.entries }
{
    let pair = pair_in(module)?;
    let (source, target) = (pair.source(), pair.target());
    Some((
        weight(alloc, &pair, &BOUNDS).ok()?,
        [need(source, 4).ok()?, need(target, 4).ok()?],
        [widest_of(source).bits(), widest_of(target).bits()],
    ))
}

/// With four backward jumps each block is passed five times. A pass of the first function costs the
/// four bits of its choice, the eight of its sum and one for its return; of the second, eight and
/// one. The first takes one choice in each pass.
#[test]
fn a_pair_weighs_the_bits_of_its_results(rt: HostRuntime) -> Result<(), Fail> {
    let module = read(rt.alloc(), DOUBLED_AND_SHIFTED.as_bytes())
        .ok()
        .ok_or("a module")?;
    let expected = (5 * (4 + 8 + 1 + 8 + 1), [5, 0], [4, 1]);
    expect(
        measured(rt.alloc(), &module) == Some(expected),
        "a pair weighs the bits of its results",
    )
}
