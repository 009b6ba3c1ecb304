//! How a block ends (LLVM Language Reference, "Terminator Instructions").

ghost use Rattle.std.specs.Prelude.{◌≡◌, ◌∷◌, ◌%◌, ◌^◌, ◌&&◌, not, nat_eq, true, if◌then◌else◌, ℕ, Some, IfOk, OnOk, map, is_some};
ghost use Rattle.std.specs.List.{find};
ghost use Rattle.std.specs.Option.{option_map_or};
ghost use Rattle.ir_tree.specs.Flow.{targets};
ghost use Rattle.points.specs.declared.outcome.Outcome.TheVariants.{Ub};
ghost use Rattle.points.specs.Run.{exit_by, returned_run, returned_with, undef_type};
ghost use Rattle.unroll.specs.Layers.{left_by};
ghost use Rattle.run_terms.specs.Common.{Machine, ended, operand_value, Done, along, Keeps, IsTerm, Tests, bit_at, term_at, IsSymValue, AreWords, IsState, IsTally, MatchesState, Scene, Sees, Visit, AreByLabel, Everywhere, IsLeaving, Leaves, Simulates, branched, switched_on};
ghost use Rattle.run_terms.specs.Frontier.{IsReturned};
ghost use Rattle.ir_tree.specs.Limits.{FitsReturn};

use crate::choices::choose;
use crate::edges::{edge_at, follow};
use crate::frontier::{Frontier, Leaving};
use crate::instructions::and_not;
use crate::operands::{number_of, typed_operand_of};
use crate::paths::{copy_path, with_test};
use crate::setting::Setting;
use crate::state::Tally;
use bv_terms::{TermId, Terms};
use ir_tree::{Case, IrType, Operand, Terminator, TypedOperand};
use mem_terms::{SymValue, both, equals, resize};
use support::NoMemory;
use term_rules::constant;
use tv_num::{Width, wrap};
use unroll::Edge;

/// Where the first is true: where the other is too, and where it isn't.
fn split(terms: &mut Terms, c: TermId, by: TermId) -> Result<(TermId, TermId), NoMemory>
    requires c { IsTerm terms.old 1 c }
    requires by { IsTerm terms.old 1 by }
    ensures on { IfOk result (λ p. Tests terms.new p.0 (λ v. bit_at v terms.old c && bit_at v terms.old by)) }
    ensures off { IfOk result (λ p. Tests terms.new p.1 (λ v. bit_at v terms.old c && not (bit_at v terms.old by))) }
    ensures kept { Keeps terms.old terms.new }
{
    let on = both(terms, c, by)?;
    let off = and_not(terms, c, by)?;
    Ok((on, off))
}

/// The type of the choice that the operand makes: only undef makes one.
fn undef_type(returned: TypedOperand) -> Option<IrType>
    ensures { result ≡ undef_type returned.of_type returned.operand }
{
    match returned.operand {
        Operand::Undef => Some(returned.of_type),
        _ => None,
    }
}

/// Where the value that a terminator uses is poison, which this bit says, the run ends in undefined
/// behaviour. It goes on under the condition that is returned.
fn end_where_poison(
    setting: Setting,
    terms: &mut Terms,
    frontier: &mut Frontier,
    leaving: Leaving,
    poison: TermId,
) -> Result<TermId, NoMemory>
    requires leaving { IsLeaving setting terms.old frontier.old leaving }
    requires poison { IsTerm terms.old 1 poison }
    ensures leaving { IfOk result (λ c. IsLeaving setting.entry terms.new frontier.new (record leaving.entry { c = c })) }
    ensures rest { IfOk result (λ c. (v : ℕ → ℕ → ℕ) → bit_at v terms.new c ≡ (bit_at v terms.old leaving.entry.c && not (bit_at v terms.old poison))) }
    ensures simulates { IfOk result (λ c. (g : Scene) (at : Visit)
        → Simulates g terms.old terms.new frontier.old frontier.new (bit_at g.v terms.old leaving.entry.c && bit_at g.v terms.old poison) at leaving.entry.state.now (λ m. Done (ended Ub m))) }
    ensures kept { Keeps terms.old terms.new }
{
    let (undefined, defined) = split(terms, leaving.c, poison)?;
    let ending = &mut frontier.ending;
    ending.end_undefined(terms, undefined, leaving.state.tally)?;
    Ok(defined)
}

/// What the operand is where the run returns it, undef as a choice, and the choices with it.
fn returned_value(
    setting: Setting,
    terms: &mut Terms,
    leaving: Leaving,
    returned: TypedOperand,
) -> Result<(SymValue, Tally), NoMemory>
    requires state { IsState terms.old leaving.state.now }
    requires c { IsTerm terms.old 1 leaving.c }
    requires tape { AreWords terms.old setting.tape.now }
    ensures value { IfOk result (λ p. IsSymValue terms.new p.0) }
    ensures tally { IfOk result (λ p. IsTally terms.new p.1) }
    ensures stands { IfOk result (λ p. (g : Scene) (at : Visit) (m : Machine) → Sees g terms.old setting.entry.tape.now → bit_at g.v terms.old leaving.entry.c ≡ true → MatchesState g terms.old at leaving.entry.state.now m
        → IsReturned g terms.new p.1 (Some p.0) m (returned_with (undef_type returned.of_type returned.operand) returned g.tape m)) }
    ensures kept { Keeps terms.old terms.new }
{
    let state = leaving.state;
    match undef_type(returned) {
        Some(of_type) => {
            let choice = choose(terms, state, leaving.c, of_type, setting.tape)?;
            Ok((choice.value, choice.tally))
        }
        None => {
            let value = typed_operand_of(terms, state.registers.as_slice(), returned)?;
            Ok((value, state.tally))
        }
    }
}

/// Where the condition holds, the operand is returned, undef as a choice.
fn return_operand(
    setting: Setting,
    terms: &mut Terms,
    frontier: &mut Frontier,
    leaving: Leaving,
    returned: TypedOperand,
) -> Result<(), NoMemory>
    requires leaving { IsLeaving setting terms.old frontier.old leaving }
    requires value { is_some setting.f.now.returns ≡ true }
    requires tape { AreWords terms.old setting.tape.now }
    ensures leaves { OnOk result (Leaves (λ g. Sees g terms.old setting.entry.tape.now) setting.entry leaving.entry terms.old terms.new frontier.old frontier.new (λ g m. Done (returned_with (undef_type returned.of_type returned.operand) returned g.tape m))) }
    ensures kept { Keeps terms.old terms.new }
{
    let (value, tally) = returned_value(setting, terms, leaving, returned)?;
    let given = leaving.state.memory.given();
    let ending = &mut frontier.ending;
    ending.end_return(
        setting.alloc,
        terms,
        leaving.c,
        Some(value),
        given,
        tally,
        leaving.path,
    )?;
    Ok(())
}

/// The run returns the operand where that is neither poison nor undef; where it is, that is
/// undefined behaviour.
fn return_defined(
    setting: Setting,
    terms: &mut Terms,
    frontier: &mut Frontier,
    leaving: Leaving,
    returned: TypedOperand,
) -> Result<(), NoMemory>
    requires leaving { IsLeaving setting terms.old frontier.old leaving }
    requires value { is_some setting.f.now.returns ≡ true }
    requires tape { AreWords terms.old setting.tape.now }
    ensures leaves { OnOk result (Leaves (λ g. Sees g terms.old setting.entry.tape.now) setting.entry leaving.entry terms.old terms.new frontier.old frontier.new (λ g m. Done (returned_run true (Some returned) g.tape m))) }
    ensures kept { Keeps terms.old terms.new }
{
    let value = typed_operand_of(terms, leaving.state.registers.as_slice(), returned)?;
    let c = end_where_poison(setting, terms, frontier, leaving, value.poison)?;
    return_operand(setting, terms, frontier, Leaving { c, ..leaving }, returned)
}

/// The run returns. Where the return is `noundef`, poison and undef are undefined behaviour.
fn leave_by_return(
    setting: Setting,
    terms: &mut Terms,
    frontier: &mut Frontier,
    leaving: Leaving,
    returned: Option<TypedOperand>,
) -> Result<(), NoMemory>
    requires leaving { IsLeaving setting terms.old frontier.old leaving }
    requires value { is_some returned ≡ is_some setting.f.now.returns }
    requires tape { AreWords terms.old setting.tape.now }
    ensures leaves { OnOk result (Leaves (λ g. Sees g terms.old setting.entry.tape.now) setting.entry leaving.entry terms.old terms.new frontier.old frontier.new (λ g m. Done (returned_run setting.entry.f.now.returns_no_undef returned g.tape m))) }
    ensures kept { Keeps terms.old terms.new }
{
    match returned {
        None => {
            let given = leaving.state.memory.given();
            let tally = leaving.state.tally;
            let ending = &mut frontier.ending;
            ending.end_return(
                setting.alloc,
                terms,
                leaving.c,
                None,
                given,
                tally,
                leaving.path,
            )?;
            Ok(())
        }
        Some(returned) => {
            if setting.f.returns_no_undef {
                return_defined(setting, terms, frontier, leaving, returned)
            } else {
                return_operand(setting, terms, frontier, leaving, returned)
            }
        }
    }
}

/// The run leaves by the first edge if the bit is true, else by the second.
fn leave_by_bit(
    setting: Setting,
    terms: &mut Terms,
    frontier: &mut Frontier,
    leaving: Leaving,
    bit: TermId,
    if_true: Edge,
    if_false: Edge,
) -> Result<(), NoMemory>
    requires leaving { IsLeaving setting terms.old frontier.old leaving }
    requires bit { IsTerm terms.old 1 bit }
    ensures leaves { OnOk result (Leaves Everywhere setting.entry leaving.entry terms.old terms.new frontier.old frontier.new (λ g m. along (if bit_at g.v terms.old bit then if_true else if_false) m)) }
    ensures kept { Keeps terms.old terms.new }
{
    let (on, off) = split(terms, leaving.c, bit)?;
    let taken = with_test(setting.alloc, leaving.path, bit, true)?;
    let leaving_on = Leaving {
        c: on,
        path: taken.as_slice(),
        ..leaving
    };
    follow(setting, terms, frontier, leaving_on, if_true)?;
    let not_taken = with_test(setting.alloc, leaving.path, bit, false)?;
    let leaving_off = Leaving {
        c: off,
        path: not_taken.as_slice(),
        ..leaving
    };
    follow(setting, terms, frontier, leaving_off, if_false)
}

/// A conditional branch of a run that is alive; its edges are those of its two labels. Poison is
/// undefined behaviour.
fn leave_by_branch(
    setting: Setting,
    terms: &mut Terms,
    frontier: &mut Frontier,
    leaving: Leaving,
    condition: Operand,
    if_true: Edge,
    if_false: Edge,
) -> Result<(), NoMemory>
    requires { IsLeaving setting terms.old frontier.old leaving }
    ensures leaves { OnOk result (Leaves Everywhere setting.entry leaving.entry terms.old terms.new frontier.old frontier.new (λ g m. branched (operand_value m.registers condition) if_true if_false m)) }
    ensures kept { Keeps terms.old terms.new }
{
    let test = number_of(terms, leaving.state.registers.as_slice(), condition)?;
    let lowest = resize(terms, test.number, 1)?;
    let c = end_where_poison(setting, terms, frontier, leaving, test.poison)?;
    let leaving = Leaving { c, ..leaving };
    leave_by_bit(setting, terms, frontier, leaving, lowest, if_true, if_false)
}

/// Where a switch goes on at one of its cases.
#[derive(Clone, Copy)]
struct CaseSplit {
    /// Whether the number is the case's.
    same: TermId,
    /// Where the case is taken.
    here: TermId,
    /// Where it isn't, and none was before.
    rest: TermId,
}

/// Where the first is true: whether the number is the case's, where it is, and where it isn't.
fn split_by_case(
    terms: &mut Terms,
    left: TermId,
    number: TermId,
    width: Width,
    value: u64,
) -> Result<CaseSplit, NoMemory>
    requires left { IsTerm terms.old 1 left }
    requires number { IsTerm terms.old width.bits number }
    ensures same { IfOk result (λ p. Tests terms.new p.same (λ v. nat_eq (value % 2 ^ width.bits) (term_at v terms.old number))) }
    ensures on { IfOk result (λ p. Tests terms.new p.here (λ v. bit_at v terms.old left && nat_eq (value % 2 ^ width.bits) (term_at v terms.old number))) }
    ensures off { IfOk result (λ p. Tests terms.new p.rest (λ v. bit_at v terms.old left && not (nat_eq (value % 2 ^ width.bits) (term_at v terms.old number)))) }
    ensures kept { Keeps terms.old terms.new }
{
    let low = wrap(value as u128, width);
    let known = constant(terms, low as u128, width.bits())?;
    let same = equals(terms, known, number)?;
    let (here, rest) = split(terms, left, same)?;
    Ok(CaseSplit { same, here, rest })
}

/// The number that a switch is on, at its width, its cases, and the edges of its labels, the
/// default's first.
#[derive(Clone, Copy)]
struct Switch<'a> {
    number: TermId,
    width: Width,
    cases: &'a [Case],
    edges: &'a [Edge],
}

/// The cases of a switch one after another, and its default after them.
fn leave_by_cases(
    setting: Setting,
    terms: &mut Terms,
    frontier: &mut Frontier,
    leaving: Leaving,
    switch: Switch,
) -> Result<(), NoMemory>
    requires leaving { IsLeaving setting terms.old frontier.old leaving }
    requires number { IsTerm terms.old switch.width.bits switch.number }
    ensures leaves { OnOk result ((edge : Case → Edge) (default : Edge) → switch.entry.edges.now ≡ default ∷ map edge switch.entry.cases.now
        → Leaves Everywhere setting.entry leaving.entry terms.old terms.new frontier.old frontier.new (λ g m. along (option_map_or edge (find (λ case. nat_eq (case.value % 2 ^ switch.entry.width.bits) (term_at g.v terms.old switch.entry.number)) switch.entry.cases.now) default) m)) }
    ensures kept { Keeps terms.old terms.new }
{
    let mut left = leaving.c;
    let mut path = copy_path(setting.alloc, leaving.path)?;
    for (i, case) in switch.cases.iter().enumerate() {
        let split = split_by_case(terms, left, switch.number, switch.width, case.value)?;
        let edge = edge_at(switch.edges, i + 1);
        let taken = with_test(setting.alloc, path.as_slice(), split.same, true)?;
        let leaving_here = Leaving {
            c: split.here,
            path: taken.as_slice(),
            ..leaving
        };
        follow(setting, terms, frontier, leaving_here, edge)?;
        left = split.rest;
        path = with_test(setting.alloc, path.as_slice(), split.same, false)?;
    }
    let default = edge_at(switch.edges, 0);
    let leaving_rest = Leaving {
        c: left,
        path: path.as_slice(),
        ..leaving
    };
    follow(setting, terms, frontier, leaving_rest, default)
}

/// A switch of a run that is alive; its edges are those of its labels, the default's first. Poison
/// is undefined behaviour.
fn leave_by_switch(
    setting: Setting,
    terms: &mut Terms,
    frontier: &mut Frontier,
    leaving: Leaving,
    on: (Width, Operand),
    cases: &[Case],
    edges: &[Edge],
) -> Result<(), NoMemory>
    requires { IsLeaving setting terms.old frontier.old leaving }
    ensures leaves { OnOk result ((edge : Case → Edge) (default : Edge) → edges.now ≡ default ∷ map edge cases.now
        → Leaves Everywhere setting.entry leaving.entry terms.old terms.new frontier.old frontier.new (λ g m. switched_on on.0.bits (operand_value m.registers on.1) edge default cases.now m)) }
    ensures kept { Keeps terms.old terms.new }
{
    let (width, operand) = on;
    let value = number_of(terms, leaving.state.registers.as_slice(), operand)?;
    let number = resize(terms, value.number, width.bits())?;
    let c = end_where_poison(setting, terms, frontier, leaving, value.poison)?;
    let leaving = Leaving { c, ..leaving };
    let switch = Switch {
        number,
        width,
        cases,
        edges,
    };
    leave_by_cases(setting, terms, frontier, leaving, switch)
}

/// The end of a block that the run leaves where it is alive, by the edges of its copy.
pub fn leave(
    setting: Setting,
    terms: &mut Terms,
    frontier: &mut Frontier,
    leaving: Leaving,
    terminator: &Terminator,
    edges: &[Edge],
) -> Result<(), NoMemory>
    requires leaving { IsLeaving setting terms.old frontier.old leaving }
    requires returned { FitsReturn setting.f.now.returns terminator.now }
    requires edges { AreByLabel (targets terminator.now) edges.now }
    requires tape { AreWords terms.old setting.tape.now }
    ensures leaves { OnOk result (Leaves (λ g. Sees g terms.old setting.entry.tape.now) setting.entry leaving.entry terms.old terms.new frontier.old frontier.new (λ g m. left_by (targets terminator.now) edges.now (exit_by setting.entry.f.now.returns_no_undef terminator.now g.tape m))) }
    ensures kept { Keeps terms.old terms.new }
{
    match terminator {
        Terminator::Return(returned) => {
            leave_by_return(setting, terms, frontier, leaving, *returned)
        }
        Terminator::Branch { .. } => {
            let edge = edge_at(edges, 0);
            follow(setting, terms, frontier, leaving, edge)
        }
        Terminator::CondBranch { condition, .. } => {
            let if_true = edge_at(edges, 0);
            let if_false = edge_at(edges, 1);
            leave_by_branch(
                setting, terms, frontier, leaving, *condition, if_true, if_false,
            )
        }
        Terminator::Switch {
            width,
            operand,
            cases,
            ..
        } => {
            let on = (*width, *operand);
            let cases = cases.as_slice();
            leave_by_switch(setting, terms, frontier, leaving, on, cases, edges)
        }
        Terminator::Unreachable => {
            let ending = &mut frontier.ending;
            ending.end_undefined(terms, leaving.c, leaving.state.tally)?;
            Ok(())
        }
    }
}
