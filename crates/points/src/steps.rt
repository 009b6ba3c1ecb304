ghost use Rattle.std.specs.Prelude.{◌≡◌, ◌≤◌, ◌<◌, ◌+◌, ◌-◌, ◌^◌, IsTrue, IsFalse, take, replicate, length, ◌++◌};
ghost use Rattle.ir_tree.specs.Pointers.{AreIntegers};
ghost use Rattle.points.specs.Code.{WordsFit, ArgsFit, no_blocks};
ghost use Rattle.points.specs.Next.{IsNextWords, IsLastWords, IsNextArgs, IsLastArgs};

use crate::point::Layout;
use crate::value_steps::next_values;
use byte_block::Value;
use ir_tree::Parameter;
use support::Sequence;
use tv_num::Width;

/// Writes zeros from an index on.
pub fn zero_from(words: &mut Sequence<u64>, from: usize)
    requires { from ≤ length words.old }
    ensures { words.new ≡ take from words.old ++ replicate (length words.old - from) 0 }
{
    for i in from..words.len() {
        words.set(i, 0);
    }
}

/// Replaces the words by the next list of words of this width. It answers false exactly at the last
/// one, which then stays.
pub fn next_words(words: &mut Sequence<u64>, width: Width) -> bool
    requires { WordsFit width.bits (length words.old) words.old }
    ensures next { IsTrue result → IsNextWords width.bits words.old words.new }
    ensures last { IsFalse result → IsLastWords width.bits words.old × (words.new ≡ words.old) }
{
    for i in (0..words.len()).rev() {
        let word = *words.get(i);
        if (word as u128) + 1 < width.end() {
            words.set(i, word + 1);
            zero_from(words, i + 1);
            return true;
        }
    }
    false
}

/// Replaces the arguments of integer parameters by the next list. It answers false exactly at the
/// last one, which then stays. Which blocks are given doesn't matter for integers.
pub fn next_args(args: &mut Sequence<Value>, parameters: &[Parameter]) -> bool
    requires integers { AreIntegers parameters.now }
    requires fit { ArgsFit no_blocks parameters.now args.old }
    ensures next { IsTrue result → IsNextArgs no_blocks parameters.now args.old args.new }
    ensures last { IsFalse result → IsLastArgs no_blocks parameters.now args.old × (args.new ≡ args.old) }
{
    let none = Layout {
        blocks: 0,
        bytes: 0,
    };
    next_values(args, parameters, &none)
}
