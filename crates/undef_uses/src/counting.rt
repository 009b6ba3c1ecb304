//! How many undef leaves each name has.

ghost use Rattle.std.specs.Prelude.{◌≡◌, ◌++◌, [], ◌≤◌, length, replicate, IfOk};
ghost use Rattle.ir_tree.specs.Sites.{AreNumbered};
ghost use Rattle.undef_uses.specs.Counts.{AreCounts, IsCounting, AreLeast, count_at, counted, leaves_in};
ghost use Rattle.undef_uses.specs.Users.{AreUsers};

use crate::carried::{Carried, carried_of};
use crate::users::users_of;
use ir_tree::{Function, Operand};
use std::alloc::Global;
use support::{NoMemory, Sequence};

/// How many leaves a name has at which they are not counted on: more than 64.
const TOO_MANY: u16 = 65;

/// For each name of a function how many undef leaves it has, where 65 says more than 64.
pub fn leaf_counts(alloc: Global, f: &Function) -> Result<Vec<u8>, NoMemory>
    requires { AreNumbered f.now }
    ensures { IfOk result (λ counts. AreCounts f.now counts.items) }
{
    let table = carried_of(alloc, f)?;
    least_counts(alloc, &table)
}

// The least counts that the table allows.
fn least_counts(alloc: Global, table: &[Carried]) -> Result<Vec<u8>, NoMemory>
    ensures { IfOk result (λ counts. AreLeast table.now counts.items) }
{
    let counts = vec![in alloc; 0u8; table.len()]?;
    let waiting = first_waiting(alloc, table, &counts)?;
    if waiting.is_empty() {
        return Ok(counts);
    }
    let users = users_of(alloc, table)?;
    settle(table, users.as_slice(), counts, waiting)
}

// The names whose counts are too low at the start: those that carry an undef themselves.
fn first_waiting(alloc: Global, table: &[Carried], counts: &[u8]) -> Result<Vec<usize>, NoMemory>
    requires { counts.now ≡ replicate (length table.now) 0 }
    ensures { IfOk result (λ waiting. IsCounting table.now counts.now waiting.items) }
{
    let mut waiting = Vec::new(alloc);
    for name in 0..table.len() {
        if leaves_in(counts, &table[name]) > 0 {
            waiting.push(name)?;
        }
    }
    Ok(waiting)
}

// Raises counts that are too low until none is.
fn settle(
    table: &[Carried],
    users: &[Sequence<usize>],
    mut counts: Vec<u8>,
    mut waiting: Vec<usize>,
) -> Result<Vec<u8>, NoMemory>
    requires users { AreUsers table.now (length table.now) users.now }
    requires counting { IsCounting table.now counts.items waiting.items }
    ensures { IfOk result (λ counts. AreLeast table.now counts.items) }
{
    while let Some(name) = waiting.pop() {
        let leaves = leaves_in(&counts, &table[name]);
        if leaves > counts[name] {
            counts[name] = leaves;
            waiting.extend_from_slice(users[name].as_slice())?;
        }
    }
    Ok(counts)
}

// How many leaves a name has that carries these operands.
fn leaves_in(counts: &[u8], carried: &Carried) -> u8
    ensures leaves { result ≡ leaves_in (count_at counts.now) carried.now }
    ensures most { result ≤ 65 }
{
    let first = u16::from(counted(counts, carried.first));
    let second = u16::from(counted(counts, carried.second));
    let third = u16::from(counted(counts, carried.third));
    (first + second + third).min(TOO_MANY) as u8
}

// How many leaves an operand has.
fn counted(counts: &[u8], operand: Operand) -> u8
    ensures { result ≡ counted (count_at counts.now) operand }
{
    match operand {
        Operand::Local(name) => counts.get(name).copied().unwrap_or(0),
        Operand::Undef => 1,
        Operand::Number(_) | Operand::Null | Operand::Poison => 0,
    }
}
