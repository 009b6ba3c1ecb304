//! Questions and their least answers.

ghost use Rattle.std.specs.Prelude.{◌≡◌, ◌<◌, [], IfOk, IfSome, Some, slice_get};
ghost use Rattle.bv_terms.specs.declared.term.Term.TheVariants as variant;
ghost use Rattle.bv_terms.specs.Trees.{AreFit, IsTerm, tree_in};
ghost use Rattle.bv_terms.specs.declared.variable.Variable.{Variable};
ghost use Rattle.sat_ask.specs.Questions.{Mentions};

use crate::clauses::cnf;
use crate::expecting::expect;
use crate::solver_tests::is_model;
use bv_terms::{BinaryOp, TermId, Terms};
use clause_log::check_log;
use sat_ask::{Asked, ask, search};
use std::alloc::Global;
use std::test::Fail;
use std::thread::Threads;
use support::NoMemory;

/// Terms with two variables x and y of width 8 and a constant.
fn leaves(alloc: Global, value: u128) -> Result<(Terms, TermId, TermId, TermId), NoMemory>
    requires { value < 256 }
    ensures x { IfOk result (λ r. slice_get r.0 r.1.index ≡ Some (variant.Variable 0 8)) }
    ensures y { IfOk result (λ r. slice_get r.0 r.2.index ≡ Some (variant.Variable 1 8)) }
    ensures c { IfOk result (λ r. slice_get r.0 r.3.index ≡ Some (variant.Constant value 8)) }
    ensures wide_x { IfOk result (λ r. IsTerm r.0 8 r.1) }
    ensures wide_c { IfOk result (λ r. IsTerm r.0 8 r.3) }
{
    let mut terms = Terms::new(alloc);
    let x = terms.variable(0, 8)?;
    let y = terms.variable(1, 8)?;
    let c = terms.constant(value, 8)?;
    Ok((terms, x, y, c))
}

/// Asks for y and x, where the goal has only x.
fn asked(
    alloc: Global,
    terms: &Terms,
    goal: TermId,
    x: TermId,
    y: TermId,
    limit: Option<u64>,
) -> Result<Asked, NoMemory>
    requires goal { IsTerm terms.now 1 goal }
    requires x { slice_get terms.now x.index ≡ Some (variant.Variable 0 8) }
    requires y { slice_get terms.now y.index ≡ Some (variant.Variable 1 8) }
    requires all { AreFit [] terms.now → (v : Variable) → Mentions v (tree_in terms.now goal) →
        v ≡ record { number = 0; width = 8 } }
    requires limit { IfSome limit (λ n. 0 < n) }
{
    terms.as_slice();
    ask(alloc, terms, goal, &[y, x], limit)
}

/// Which x are above a constant.
fn above(alloc: Global, value: u128) -> Result<Asked, NoMemory>
    requires { value < 256 }
{
    let (mut terms, x, y, c) = leaves(alloc, value)?;
    let goal = terms.binary(BinaryOp::Ult, c, x)?;
    asked(alloc, &terms, goal, x, y, None)
}

/// Which x are below a constant.
fn below(alloc: Global, value: u128) -> Result<Asked, NoMemory>
    requires { value < 256 }
{
    let (mut terms, x, y, c) = leaves(alloc, value)?;
    let goal = terms.binary(BinaryOp::Ult, x, c)?;
    asked(alloc, &terms, goal, x, y, None)
}

/// Which x have a constant for their square.
fn roots(alloc: Global, value: u128, limit: Option<u64>) -> Result<Asked, NoMemory>
    requires value { value < 256 }
    requires limit { IfSome limit (λ n. 0 < n) }
{
    let (mut terms, x, y, c) = leaves(alloc, value)?;
    let square = terms.binary(BinaryOp::Mul, x, x)?;
    let goal = terms.binary(BinaryOp::Eq, square, c)?;
    asked(alloc, &terms, goal, x, y, limit)
}

/// Whether the least numbers have these bits.
fn is_least(asked: &Asked, want: &[bool]) -> bool {
    match asked {
        Asked::Least(bits) => bits.as_slice() == want,
        Asked::None(_) | Asked::Spent(_) => false,
    }
}

/// Whether there are no numbers, and the checker accepts the certificate, which orders x and y.
fn is_refuted(rt: &(impl Threads + Sync), alloc: Global, asked: &Asked) -> bool {
    match asked {
        Asked::None(cert) => {
            cert.cnf.front == 16 && check_log(rt, alloc, &cert.cnf, &cert.log) == Ok(())
        }
        Asked::Least(_) | Asked::Spent(_) => false,
    }
}

/// Whether this limit of learned clauses is spent.
pub fn is_spent(asked: &Asked, limit: usize) -> bool {
    match asked {
        Asked::Spent(cert) => cert.log.len() == limit,
        Asked::None(_) | Asked::Least(_) => false,
    }
}

/// The least x above 5 is 6, after the zeros of y, which the goal does not mention; each is written
/// most significant bit first.
#[test]
fn the_least_above_5_is_6(rt: HostRuntime) -> Result<(), Fail> {
    let want = [
        false, false, false, false, false, false, false, false, false, false, false, false, false,
        true, true, false,
    ];
    expect(is_least(&above(rt.alloc(), 5)?, &want), "6")
}

/// No x is below 0.
#[test]
fn none_is_below_0(rt: HostRuntime) -> Result<(), Fail> {
    expect(is_refuted(&rt, rt.alloc(), &below(rt.alloc(), 0)?), "none")
}

/// Whether no square is a constant.
fn has_no_root(
    rt: &(impl Threads + Sync),
    alloc: Global,
    value: u128,
    limit: Option<u64>,
) -> Result<bool, NoMemory>
    requires value { value < 256 }
    requires limit { IfSome limit (λ n. 0 < n) }
{
    let asked = roots(alloc, value, limit)?;
    Ok(is_refuted(rt, alloc, &asked))
}

/// No square is 2 modulo 256, also where a limit of 1 would do.
#[test]
fn no_square_is_2(rt: HostRuntime) -> Result<(), Fail> {
    let alloc = rt.alloc();
    assert!(rt; has_no_root(&rt, alloc, 2, None)?);
    expect(
        has_no_root(&rt, alloc, 2, Some(1))?,
        "none with the limit 1",
    )
}

/// The numbers 0 and 23, most significant bit first.
const ROOT_OF_17: [bool; 16] = [
    false, false, false, false, false, false, false, false, false, false, false, true, false, true,
    true, true,
];

/// Whether the least root of 17 is 23.
fn has_least_root(alloc: Global) -> Result<bool, NoMemory> {
    let asked = roots(alloc, 17, None)?;
    Ok(is_least(&asked, &ROOT_OF_17))
}

/// The least root of 17 modulo 256 is 23. With a limit of 1 one clause is learned, and no more is
/// known.
#[test]
fn a_limit_of_1_is_spent(rt: HostRuntime) -> Result<(), Fail> {
    let alloc = rt.alloc();
    assert!(rt; has_least_root(alloc)?);
    let asked = roots(alloc, 17, Some(1))?;
    expect(is_spent(&asked, 1), "the limit 1 is spent")
}

/// Of the models of `1 2`, as two numbers of one bit, the least is 0 1.
#[test]
fn a_search_finds_the_least(rt: HostRuntime) -> Result<(), Fail> {
    let clauses = cnf(rt.alloc(), 2, 2, &[&[1, 2]])?;
    let answer = search(rt.alloc(), &clauses, &[1, 1], None)?;
    expect(is_model(&answer, &[false, true]), "0 1")
}
