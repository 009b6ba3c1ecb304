//! Arguments of a code.

ghost use Rattle.std.specs.Prelude.{IfOk};
ghost use Rattle.std.specs.List.{flat_map};
ghost use Rattle.points.specs.Codes.{IsCodeOfArgs, IsCodeOfValue};
ghost use Rattle.bv_terms.specs.Trees.{Keeps};
ghost use Rattle.mem_terms.specs.Inputs.{AreArgs, IsArg};
ghost use Rattle.refine_terms.specs.Deciding.{Decides};
ghost use Rattle.refine_terms.specs.Numbers.{arg_numbers};

use crate::comparing::{at_most, is_number};
use bv_terms::{TermId, Terms};
use ir_tree::{IrType, Parameter};
use mem_terms::{ArgTerms, both, implies, truth};
use points::Layout;
use support::NoMemory;

/// True where the numbers are those of an argument of the type, a pointer to null or to a given
/// block: where the flag says poison the other numbers are 0.
fn arg_code(
    a: ArgTerms,
    of_type: IrType,
    layout: &Layout,
    terms: &mut Terms,
) -> Result<TermId, NoMemory>
    requires { IsArg terms.old of_type a }
    ensures made { IfOk result (λ id. Decides terms.new id (λ v. IsCodeOfValue layout.now of_type (arg_numbers v terms.old a))) }
    ensures kept { Keeps terms.old terms.new }
{
    terms.values_fit();
    match a {
        ArgTerms::Int { flag, number } => {
            let is_zero = is_number(number, 0, terms)?;
            let id = implies(terms, flag, is_zero)?;
            Ok(id)
        }
        ArgTerms::Ptr {
            flag,
            block,
            offset,
        } => {
            let is_given = at_most(block, layout.blocks, terms)?;
            let no_block = is_number(block, 0, terms)?;
            let no_offset = is_number(offset, 0, terms)?;
            let is_zero = both(terms, no_block, no_offset)?;
            let fine = implies(terms, flag, is_zero)?;
            let id = both(terms, is_given, fine)?;
            Ok(id)
        }
    }
}

/// True where the numbers are those of an argument for each parameter.
pub fn args_code(
    args: &[ArgTerms],
    parameters: &[Parameter],
    layout: &Layout,
    terms: &mut Terms,
) -> Result<TermId, NoMemory>
    requires { AreArgs terms.old parameters.now args.now }
    ensures made { IfOk result (λ id. Decides terms.new id (λ v. IsCodeOfArgs layout.now parameters.now (flat_map (arg_numbers v terms.old) args.now))) }
    ensures kept { Keeps terms.old terms.new }
{
    let mut all = truth(terms, true)?;
    for (i, parameter) in parameters.iter().enumerate() {
        let one = arg_code(args[i], parameter.of_type, layout, terms)?;
        all = both(terms, all, one)?;
    }
    Ok(all)
}
