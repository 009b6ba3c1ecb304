ghost use Rattle.token_forms.specs.Plain.{SpellsAsPlain, SpellsOne};
ghost use Rattle.token_forms.specs.Laws.{ReadsWhatIsSpelled};
ghost use Rattle.ir_grammar.specs.Grammar.{define};

use crate::written::WrittenFunction;
use token_forms::{Spelled, is_read_as_spelled};

/// The tokens that spell a function with one token of lookahead are those that the plain
/// grammar spells, and no tokens are two functions. It does nothing.
pub fn is_plain_grammar()
    ensures plain { SpellsAsPlain define }
    ensures one { SpellsOne define }
{}

impl Spelled for WrittenFunction {
    ghost form = { define };
}

/// A function is read where its tokens spell one, and nowhere else. It does nothing.
pub fn is_read_grammar()
    ensures { ReadsWhatIsSpelled define }
{
    is_read_as_spelled::<WrittenFunction>()
}
