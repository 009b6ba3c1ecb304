ghost use Rattle.std.specs.Prelude.{◌<◌, ◌^◌};

use byte_block::{Memory, Value};
use ir_tree::Parameter;
use support::Sequence;
use tv_num::Width;

/// How far a pair is judged: backward jumps of a run, given blocks, and the greatest size of a
/// given block in bytes.
#[derive(Clone, Copy, Debug, PartialEq, Eq)]
pub struct Bounds {
    pub turns: u64,
    pub blocks: u64,
    pub bytes: u64,
}

/// How much is spent on a pair: added tapes, learned clauses a question (0 is no limit), and the
/// greatest weight.
#[derive(Clone, Copy, Debug, PartialEq, Eq)]
pub struct Budget {
    pub rounds: u64,
    pub conflicts: u64,
    pub weight: u64,
}

/// The arguments of a call and the given blocks.
#[derive(Drop)]
pub struct Input {
    pub args: Sequence<Value>,
    pub blocks: Memory,
}

/// An input with the target's choices, word by word.
pub struct Point {
    pub input: Input,
    pub tape: Sequence<u64>,
}

// Dropped by one call: a derived drop is written out at each return.
impl Drop for Point {
    fn drop(self) {
        let Point { input, tape } = self;
    }
}

/// What the memory of an input looks like: how many given blocks there are, and how many bytes each
/// has room for.
#[derive(Drop)]
pub struct Layout {
    pub blocks: u64,
    pub bytes: u64,
}

impl Layout {
    /// Its numbers fit 64 bits. A call shows this to the proofs of those who only hand it on.
    pub fn numbers_fit(&self)
        ensures { (self.now.blocks < 2 ^ 64) × (self.now.bytes < 2 ^ 64) }
    {
        let (_blocks, _bytes) = (self.blocks, self.bytes);
    }
}

/// What the points of a pair look like: the parameters, the memory, how many words the tape has, and
/// how many bits a word.
pub struct Shape {
    pub parameters: Sequence<Parameter>,
    pub layout: Layout,
    pub words: u64,
    pub word_width: Width,
}

// Dropped by one call: a derived drop is written out at each return.
impl Drop for Shape {
    fn drop(self) {
        let Shape {
            parameters,
            layout,
            words,
            word_width,
        } = self;
    }
}
