// The name of what is written without one.
ghost use Rattle.std.specs.Prelude.{◌≡◌, ◌∷◌, [], IfOk};
ghost use Rattle.ir_tree.specs.declared.name.Name.TheVariants.{Number};
ghost use Rattle.ir_numbering.specs.EntryName.{is_greater, is_above, greatest, carried, one_more, next_name};
ghost use Rattle.ir_numbering.specs.Numbering.{names_of};

use crate::numbering::NamedParameter;
use ir_tree::Name;
use std::alloc::Global;
use support::{NoMemory, Sequence};

fn is_greater(a: &[u8], b: &[u8]) -> bool
    ensures { result ≡ is_greater a.now b.now }
{
    let mut left = a;
    let mut right = b;
    while let [x, more_left @ ..] = left {
        let [y, more_right @ ..] = right else {
            return false;
        };
        if *y < *x {
            return true;
        }
        if *x != *y {
            return false;
        }
        left = more_left;
        right = more_right;
    }
    false
}

fn is_above(a: &[u8], b: &[u8]) -> bool
    ensures { result ≡ is_above a.now b.now }
{
    b.len() < a.len() || a.len() == b.len() && is_greater(a, b)
}

// The greater of a number so far and the name's, where it is one.
fn greater<'a>(most: &'a [u8], name: &'a Name) -> &'a [u8]
    ensures { result.now ≡ greatest most.now (name.now ∷ []) }
{
    let Name::Number(digits) = name else {
        return most;
    };
    let digits = digits.as_slice();
    if is_above(digits, most) { digits } else { most }
}

fn greatest(parameters: &[NamedParameter]) -> &[u8]
    ensures { result.now ≡ greatest [] (names_of parameters.now) }
{
    let mut most = b"".as_slice();
    for parameter in parameters {
        most = greater(most, &parameter.name);
    }
    most
}

// The digits of one more, both with the last digit first.
fn carried(alloc: Global, digits: &[u8]) -> Result<Vec<u8>, NoMemory>
    ensures { IfOk result (λ v. v.items ≡ carried digits.now) }
{
    let mut more = Vec::new(alloc);
    let mut rest = digits;
    while let [digit, others @ ..] = rest {
        if *digit < b'9' {
            more.push(*digit + 1)?;
            more.extend_from_slice(others)?;
            return Ok(more);
        }
        more.push(b'0')?;
        rest = others;
    }
    more.push(b'1')?;
    Ok(more)
}

// The digits of one more, or of 0 where there are none.
fn one_more(alloc: Global, digits: &[u8]) -> Result<Vec<u8>, NoMemory>
    ensures { IfOk result (λ v. v.items ≡ one_more digits.now) }
{
    if digits.is_empty() {
        return Ok(b"0".as_slice().to_vec(alloc)?);
    }
    let mut backwards = digits.to_vec(alloc)?;
    backwards.reverse();
    let mut more = carried(alloc, backwards.as_slice())?;
    more.reverse();
    Ok(more)
}

/// The name of what is unnamed after these parameters, another one or the entry: one more than
/// the greatest number among their names, or 0.
pub fn next_name(alloc: Global, parameters: &[NamedParameter]) -> Result<Name, NoMemory>
    ensures { IfOk result (λ name. name ≡ next_name (names_of parameters.now)) }
{
    let digits = one_more(alloc, greatest(parameters))?;
    Ok(Name::Number(Sequence::from_vec(digits)))
}
