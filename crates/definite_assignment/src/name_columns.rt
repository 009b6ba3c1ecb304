//! The columns of the sets: one for each name that some block assigns, and one for all others.
//!
//! So a set has no bit for a name that no block assigns, such as a label's or a parameter's.

ghost use Rattle.std.specs.Prelude.{◌≡◌, ◌<◌, ℕ, length, false, true, map, slice_index_or, IfOk};
ghost use Rattle.std.specs.List.{All};
ghost use Rattle.definite_assignment.specs.Sets.{column_of};

use std::alloc::Global;
use support::{NoMemory, Sequence};

/// For each name its column, and how many columns there are. Column 0 is that of all names that no
/// block assigns.
#[derive(Drop)]
pub struct Columns {
    pub of_name: Vec<usize>,
    pub count: usize,
}

/// Marks some names.
fn mark_all(is_assigned: &mut [bool], names: &[usize])
    requires { All (λ name. name < length is_assigned.old) names.now }
    ensures kept { (name : ℕ) → slice_index_or is_assigned.old name false ≡ true → slice_index_or is_assigned.new name false ≡ true }
    ensures marked { All (λ name. slice_index_or is_assigned.new name false ≡ true) names.now }
{
    for name in names {
        is_assigned[*name] = true;
    }
}

/// For each name whether some block assigns it.
pub fn assigned_names(
    alloc: Global,
    assigns: &[Sequence<usize>],
    names: usize,
) -> Result<Vec<bool>, NoMemory>
    requires { All (All (λ name. name < names)) assigns.now }
    ensures long { IfOk result (λ marks. length marks.items ≡ names) }
    ensures marked { IfOk result (λ marks. All (All (λ name. slice_index_or marks.items name false ≡ true)) assigns.now) }
{
    let mut is_assigned = vec![in alloc; false; names]?;
    for list in assigns {
        mark_all(&mut is_assigned, list.as_slice());
    }
    Ok(is_assigned)
}

/// The columns of names, given which are assigned: no other name has the column of one that is.
pub fn number_columns(alloc: Global, is_assigned: &[bool]) -> Result<Columns, NoMemory>
    ensures long { IfOk result (λ c. length c.of_name.items ≡ length is_assigned.now) }
    ensures below { IfOk result (λ c. All (λ column. column < c.count) c.of_name.items) }
    ensures apart { IfOk result (λ c. (m n : ℕ) → n < length is_assigned.now → slice_index_or is_assigned.now m false ≡ true → column_of c.of_name.items m ≡ column_of c.of_name.items n → m ≡ n) }
{
    let mut of_name = Vec::new(alloc);
    let mut count = 1;
    for name in 0..is_assigned.len() {
        if is_assigned[name] {
            of_name.push(count)?;
            count += 1;
        } else {
            of_name.push(0)?;
        }
    }
    Ok(Columns { of_name, count })
}

/// The columns of some names.
fn renamed(alloc: Global, of_name: &[usize], names: &[usize]) -> Result<Sequence<usize>, NoMemory>
    requires { All (λ name. name < length of_name.now) names.now }
    ensures { IfOk result (λ columns. columns ≡ map (column_of of_name.now) names.now) }
{
    let mut columns = Sequence::from_vec(Vec::new(alloc));
    for name in names {
        columns.push(of_name[*name])?;
    }
    Ok(columns)
}

/// The columns of the names in each list.
pub fn renamed_all(
    alloc: Global,
    of_name: &[usize],
    lists: &[Sequence<usize>],
) -> Result<Vec<Sequence<usize>>, NoMemory>
    requires { All (All (λ name. name < length of_name.now)) lists.now }
    ensures { IfOk result (λ columns. columns.items ≡ map (map (column_of of_name.now)) lists.now) }
{
    let mut all = Vec::new(alloc);
    for list in lists {
        all.push(renamed(alloc, of_name, list.as_slice())?)?;
    }
    Ok(all)
}
