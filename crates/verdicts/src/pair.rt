ghost use Rattle.std.specs.Prelude.{◌≡◌, true};
ghost use Rattle.verdicts.specs.Pair.{same_return, same_types, same_signature};

use ir_tree::{Function, IrType, Parameter, is_same_type};
use std::marker::Model;

/// A source function and the target function of its name, of equal signature.
#[derive(Drop)]
pub struct Pair<'m> {
    source: &'m Function,
    target: &'m Function,
}

impl<'m> Model for Pair<'m> {
    ghost use Rattle.std.specs.Prelude.{◌≡◌, true};
    ghost use Rattle.verdicts.specs.Pair.{Functions, same_signature};

    ghost Value = { Functions };

    ghost view = { λ p. record { source = p.source.now; target = p.target.now } };

    ghost invariant = { λ p. same_signature p.source.now p.target.now ≡ true };
}

impl<'m> Pair<'m> {
    /// The pair of two functions of equal signature, the source first.
    pub fn new(source: &'m Function, target: &'m Function) -> Self
        requires { same_signature source.now target.now ≡ true }
        ensures source { result.source ≡ source.now }
        ensures target { result.target ≡ target.now }
    {
        Pair { source, target }
    }

    /// The function before the optimisation.
    pub fn source(&self) -> &'m Function
        ensures { result.now ≡ self.now.source }
    {
        self.source
    }

    /// The function after it.
    pub fn target(&self) -> &'m Function
        ensures value { result.now ≡ self.now.target }
        ensures signature { same_signature self.now.source self.now.target ≡ true }
    {
        self.target
    }
}

/// Whether both functions have the same return type and the same parameter types.
pub fn has_same_signature(source: &Function, target: &Function) -> bool
    ensures { result ≡ same_signature source.now target.now }
{
    is_same_return(source.returns, target.returns)
        && are_same_types(source.parameters.as_slice(), target.parameters.as_slice())
}

fn is_same_return(a: Option<IrType>, b: Option<IrType>) -> bool
    ensures { result ≡ same_return a b }
{
    match (a, b) {
        (None, None) => true,
        (Some(a), Some(b)) => is_same_type(a, b),
        _ => false,
    }
}

fn are_same_types(source: &[Parameter], target: &[Parameter]) -> bool
    ensures { result ≡ same_types source.now target.now }
{
    let mut sources = source;
    let mut targets = target;
    while let [s, more_sources @ ..] = sources {
        let [t, more_targets @ ..] = targets else {
            return false;
        };
        if !is_same_type(s.of_type, t.of_type) {
            return false;
        }
        sources = more_sources;
        targets = more_targets;
    }
    targets.is_empty()
}
