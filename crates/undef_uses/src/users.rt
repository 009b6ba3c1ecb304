//! For each name the names that carry its undef.

ghost use Rattle.std.specs.Prelude.{◌≡◌, length, replicate, [], IfOk, OnOk};
ghost use Rattle.ir_tree.specs.declared.tree.Operand.TheVariants.{Local};
ghost use Rattle.undef_uses.specs.Users.{AreUsers, HasUser, HasUsers};

use crate::carried::Carried;
use ir_tree::Operand;
use std::alloc::Global;
use support::{NoMemory, Sequence};

/// For each name of the table the names that carry its undef.
pub fn users_of(alloc: Global, table: &[Carried]) -> Result<Sequence<Sequence<usize>>, NoMemory>
    ensures { IfOk result (AreUsers table.now (length table.now)) }
{
    let mut users = empty_lists(alloc, table.len())?;
    for name in 0..table.len() {
        add_users(&mut users, &table[name], name)?;
    }
    Ok(users)
}

fn empty_lists(alloc: Global, count: usize) -> Result<Sequence<Sequence<usize>>, NoMemory>
    ensures { IfOk result (λ lists. lists ≡ replicate count []) }
{
    let mut lists = Sequence::from_vec(Vec::new(alloc));
    for _list in 0..count {
        lists.push(Sequence::from_vec(Vec::new(alloc)))?;
    }
    Ok(lists)
}

// Puts a name into the lists of those whose undef it carries.
fn add_users(
    users: &mut Sequence<Sequence<usize>>,
    carried: &Carried,
    user: usize,
) -> Result<(), NoMemory>
    ensures { OnOk result (HasUsers users.old users.new carried.now user) }
{
    add_user(users, carried.first, user)?;
    add_user(users, carried.second, user)?;
    add_user(users, carried.third, user)
}

fn add_user(
    users: &mut Sequence<Sequence<usize>>,
    operand: Operand,
    user: usize,
) -> Result<(), NoMemory>
    ensures { OnOk result (HasUser users.old users.new operand user) }
{
    match operand {
        Operand::Local(name) => push_user(users, name, user),
        Operand::Number(_) | Operand::Null | Operand::Poison | Operand::Undef => Ok(()),
    }
}

fn push_user(
    users: &mut Sequence<Sequence<usize>>,
    name: usize,
    user: usize,
) -> Result<(), NoMemory>
    ensures { OnOk result (HasUser users.old users.new (Local name) user) }
{
    if name >= users.len() {
        // No instruction makes it, so its count does not rise.
        return Ok(());
    }
    users.get_mut(name).push(user)
}
