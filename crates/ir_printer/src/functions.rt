//! Functions and their blocks.

ghost use Rattle.std.specs.Prelude.{◌≡◌, ◌∷◌, ◌++◌, [], OnOk};
ghost use Rattle.std.specs.List.{flat_map};
ghost use Rattle.ir_tree.specs.declared.tree.Parameter.{Parameter};
ghost use Rattle.token_text.specs.Pieces.{text_of};
ghost use Rattle.ir_printer.specs.Pieces.{comma, space};
ghost use Rattle.ir_printer.specs.Instructions.{inst_pieces, phi_pieces};
ghost use Rattle.ir_printer.specs.ModuleText.{block_pieces, function_pieces, header_pieces, parameter_pieces, parameters_pieces, return_text};

use crate::instructions::{push_inst, push_word_if};
use crate::pieces::{
    push_comma, push_global, push_label, push_local, push_spaced_type, push_token, push_type,
    push_word,
};
use crate::terminators::{push_phi, push_terminator};
use ir_tree::{Block, Function, Inst, IrType, Names, Parameter, Phi};
use support::NoMemory;

// ---- blocks

#[tactic(auto, using(crate::proofs::Texts::texts))]
fn push_phis(out: &mut Vec<u8>, names: &Names, phis: &[Phi]) -> Result<(), NoMemory>
    ensures { OnOk result (out.new.items ≡ out.old.items ++ text_of (flat_map (phi_pieces names.now) phis.now)) }
{
    for phi in phis {
        push_phi(out, names, phi)?;
    }
    Ok(())
}

#[tactic(auto, using(crate::proofs::Texts::texts))]
fn push_insts(out: &mut Vec<u8>, names: &Names, insts: &[Inst]) -> Result<(), NoMemory>
    ensures { OnOk result (out.new.items ≡ out.old.items ++ text_of (flat_map (inst_pieces names.now) insts.now)) }
{
    for inst in insts {
        push_inst(out, names, inst)?;
    }
    Ok(())
}

/// The label, phis, other instructions and the terminator, each on a line.
fn push_block(out: &mut Vec<u8>, names: &Names, block: &Block) -> Result<(), NoMemory>
    ensures { OnOk result (out.new.items ≡ out.old.items ++ text_of (block_pieces names.now block.now)) }
{
    push_label(out, names, block.label)?;
    push_phis(out, names, block.phis.as_slice())?;
    push_insts(out, names, block.insts.as_slice())?;
    push_terminator(out, names, &block.terminator)
}

#[tactic(auto, using(crate::proofs::Texts::texts))]
fn push_blocks(out: &mut Vec<u8>, names: &Names, blocks: &[Block]) -> Result<(), NoMemory>
    ensures { OnOk result (out.new.items ≡ out.old.items ++ text_of (flat_map (block_pieces names.now) blocks.now)) }
{
    for block in blocks {
        push_block(out, names, block)?;
    }
    Ok(())
}

// ---- parameters

/// A parameter, its type after these blanks.
fn push_parameter(
    out: &mut Vec<u8>,
    names: &Names,
    gap: &[u8],
    parameter: Parameter,
) -> Result<(), NoMemory>
    ensures { OnOk result (out.new.items ≡ out.old.items ++ text_of (parameter_pieces names.now gap.now parameter)) }
{
    out.extend_from_slice(gap)?;
    push_type(out, parameter.of_type)?;
    push_word_if(out, parameter.no_undef, b"noundef")?;
    push_word_if(out, parameter.non_null, b"nonnull")?;
    push_local(out, names, parameter.name)
}

/// Parameters, each after a comma.
#[tactic(auto, using(crate::proofs::Texts::texts))]
fn push_more_parameters(
    out: &mut Vec<u8>,
    names: &Names,
    parameters: &[Parameter],
) -> Result<(), NoMemory>
    ensures { OnOk result (out.new.items ≡ out.old.items ++ text_of (flat_map (λ (other : Parameter). comma ∷ parameter_pieces names.now space other) parameters.now)) }
{
    for parameter in parameters {
        push_comma(out)?;
        push_parameter(out, names, b" ", *parameter)?;
    }
    Ok(())
}

fn push_parameters(
    out: &mut Vec<u8>,
    names: &Names,
    parameters: &[Parameter],
) -> Result<(), NoMemory>
    ensures { OnOk result (out.new.items ≡ out.old.items ++ text_of (parameters_pieces names.now parameters.now)) }
{
    match parameters {
        [] => Ok(()),
        [first, others @ ..] => {
            push_parameter(out, names, b"", *first)?;
            push_more_parameters(out, names, others)
        }
    }
}

// ---- functions

fn push_return_type(out: &mut Vec<u8>, returns: Option<IrType>) -> Result<(), NoMemory>
    ensures { OnOk result (out.new.items ≡ out.old.items ++ (space ++ return_text returns)) }
{
    match returns {
        None => push_word(out, b"void"),
        Some(of_type) => push_spaced_type(out, of_type),
    }
}

/// What comes before the parameters, `define` after these blanks.
fn push_header(out: &mut Vec<u8>, gap: &[u8], f: &Function) -> Result<(), NoMemory>
    ensures { OnOk result (out.new.items ≡ out.old.items ++ text_of (header_pieces gap.now f.now)) }
{
    push_token(out, gap, b"define")?;
    push_word_if(out, f.returns_no_undef, b"noundef")?;
    push_return_type(out, f.returns)?;
    push_global(out, &f.name)?;
    push_token(out, b"", b"(")
}

/// A function, `define` after these blanks.
pub fn push_function(out: &mut Vec<u8>, gap: &[u8], f: &Function) -> Result<(), NoMemory>
    ensures { OnOk result (out.new.items ≡ out.old.items ++ text_of (function_pieces gap.now f.now)) }
{
    push_header(out, gap, f)?;
    push_parameters(out, &f.names, f.parameters.as_slice())?;
    push_token(out, b"", b")")?;
    push_token(out, b" ", b"{")?;
    push_blocks(out, &f.names, f.blocks.as_slice())?;
    push_token(out, b"\n", b"}")
}
