//! Truth values: terms of one bit.

ghost use Rattle.std.specs.Prelude.{◌≡◌, ◌&&◌, ◌||◌, not, IfOk};
ghost use Rattle.bv_terms.specs.Trees.{IsTerm, Keeps, Tests, bit_at};

use bv_terms::{TermId, Terms};
use support::NoMemory;
use term_rules::{and, constant, not, or};

/// Always true, or always false.
pub fn truth(terms: &mut Terms, value: bool) -> Result<TermId, NoMemory>
    ensures made { IfOk result (λ id. Tests terms.new id (λ _. value)) }
    ensures kept { Keeps terms.old terms.new }
{
    if value {
        constant(terms, 1, 1)
    } else {
        constant(terms, 0, 1)
    }
}

/// True where the term is false.
pub fn negation(terms: &mut Terms, a: TermId) -> Result<TermId, NoMemory>
    requires { IsTerm terms.old 1 a }
    ensures made { IfOk result (λ id. Tests terms.new id (λ v. not (bit_at v terms.old a))) }
    ensures kept { Keeps terms.old terms.new }
{
    let id = not(terms, a)?;
    Ok(id)
}

/// True where both are.
pub fn both(terms: &mut Terms, a: TermId, b: TermId) -> Result<TermId, NoMemory>
    requires a { IsTerm terms.old 1 a }
    requires b { IsTerm terms.old 1 b }
    ensures made { IfOk result (λ id. Tests terms.new id (λ v. bit_at v terms.old a && bit_at v terms.old b)) }
    ensures kept { Keeps terms.old terms.new }
{
    terms.values_fit();
    let id = and(terms, a, b)?;
    Ok(id)
}

/// True where either is.
pub fn either(terms: &mut Terms, a: TermId, b: TermId) -> Result<TermId, NoMemory>
    requires a { IsTerm terms.old 1 a }
    requires b { IsTerm terms.old 1 b }
    ensures made { IfOk result (λ id. Tests terms.new id (λ v. bit_at v terms.old a || bit_at v terms.old b)) }
    ensures kept { Keeps terms.old terms.new }
{
    terms.values_fit();
    let id = or(terms, a, b)?;
    Ok(id)
}

/// True where the second is, or the first is not.
pub fn implies(terms: &mut Terms, a: TermId, b: TermId) -> Result<TermId, NoMemory>
    requires a { IsTerm terms.old 1 a }
    requires b { IsTerm terms.old 1 b }
    ensures made { IfOk result (λ id. Tests terms.new id (λ v. not (bit_at v terms.old a) || bit_at v terms.old b)) }
    ensures kept { Keeps terms.old terms.new }
{
    let not_a = negation(terms, a)?;
    either(terms, not_a, b)
}
