//! Pairs from modules of two functions, the source before the target.

ghost use Rattle.std.specs.Prelude.{IfSome};
ghost use Rattle.std.specs.List.{AllByRecursion};
ghost use Rattle.ir_reader.specs.Judgeable.{IsJudgeable, IsJudgeableEntry};

use ir_tree::Module;
use verdicts::{Pair, has_same_signature};

/// The pair of a module's two functions, if both are read and have equal types.
pub fn pair_in(module: &Module) -> Option<Pair<'_>>
    requires { AllByRecursion IsJudgeableEntry module.now.entries }
    ensures source { IfSome result (λ pair. IsJudgeable pair.source) }
    ensures target { IfSome result (λ pair. IsJudgeable pair.target) }
{
    let entries = module.entries.as_slice();
    if entries.len() != 2 {
        return None;
    }
    let (Ok(source), Ok(target)) = (&entries[0].function, &entries[1].function) else {
        return None;
    };
    if !has_same_signature(source, target) {
        return None;
    }
    Some(Pair::new(source, target))
}
