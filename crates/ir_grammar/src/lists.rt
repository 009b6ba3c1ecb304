// Lists that grow while tokens are read.
ghost use Rattle.std.specs.Prelude.{◌++◌, ◌∷◌, []};
ghost use Rattle.token_forms.specs.Form.{reads};
ghost use Rattle.token_forms.specs.Answer.{Reads};

use support::Sequence;
use token_forms::ReadFault;

/// The items and one more.
pub fn pushed<T: Drop>(items: Sequence<T>, item: T) -> Result<Sequence<T>, ReadFault>
    ensures { Reads (λ x. x) result [] (reads (items ++ item ∷ []) []) }
{
    let mut items = items;
    items.push(item)?;
    Ok(items)
}
