//! The beginning of a run.

ghost use Rattle.std.specs.Prelude.{◌≡◌, not, if◌then◌else◌, ℕ, IfOk, OnOk, length, replicate};
ghost use Rattle.byte_block.specs.declared.value.Value.TheVariants.{Poison};
ghost use Rattle.points.specs.Run.{argument_value, breaks_noundef, first_machine, is_null, with_args};
ghost use Rattle.bv_terms.specs.Trees.{IsTerm, Keeps, bit_at};
ghost use Rattle.mem_terms.specs.Values.{AreSymValues, Each, IsNaming, IsSymValue, Reading, value_at, values_at};
ghost use Rattle.mem_terms.specs.Inputs.{AreArgs, IsArg, IsBlockTerms, IsInput, arg_at, args_at, given_blocks_at, input_at};
ghost use Rattle.mem_terms.specs.Memory.{AreGivenBlocks, frames_of, memory_at};
ghost use Rattle.run_terms.specs.Runs.{MatchesState, IsState, Scene, shape_of, sight};

use bv_terms::{TermId, Terms};
use ir_tree::{Function, Parameter};
use mem_terms::{
    ArgTerms, InputTerms, SymValue, arg_value, both, either, equals, given_blocks, negation,
    number, poison_value, truth,
};
use points::Layout;
use run_terms::{RunMemory, RunState, Tally, assign};
use std::alloc::Global;
use support::{NoMemory, Sequence};

/// Registers of this number of names, all poison.
fn poison_registers(
    alloc: Global,
    terms: &mut Terms,
    names: usize,
) -> Result<Sequence<SymValue>, NoMemory>
    ensures made { IfOk result (AreSymValues terms.new) }
    ensures count { IfOk result (λ r. length r ≡ names) }
    ensures stands { IfOk result (λ r. (s : Reading) → values_at s terms.new r ≡ replicate names Poison) }
    ensures kept { Keeps terms.old terms.new }
{
    let poison = poison_value(terms)?;
    let registers = vec![in alloc; poison; names]?;
    Ok(Sequence::from_vec(registers))
}

/// The argument of a parameter: null is poison where the parameter is `nonnull` (LLVM Language
/// Reference, "Parameter Attributes").
fn argument(terms: &mut Terms, parameter: &Parameter, arg: ArgTerms) -> Result<SymValue, NoMemory>
    requires { IsArg terms.old parameter.now.of_type arg }
    ensures made { IfOk result (IsSymValue terms.new) }
    ensures stands { IfOk result (λ s. (r : Reading) → IsNaming r.name → value_at r terms.new s ≡ argument_value parameter.now (arg_at r terms.old arg)) }
    ensures kept { Keeps terms.old terms.new }
{
    let value = arg_value(terms, arg, parameter.of_type)?;
    if parameter.non_null {
        let value = non_null(terms, value)?;
        Ok(value)
    } else {
        Ok(value)
    }
}

/// The value, or poison instead of null.
fn non_null(terms: &mut Terms, value: SymValue) -> Result<SymValue, NoMemory>
    requires { IsSymValue terms.old value }
    ensures made { IfOk result (IsSymValue terms.new) }
    ensures stands { IfOk result (λ s. (r : Reading) → IsNaming r.name → value_at r terms.new s ≡ (if is_null (value_at r terms.old value) then Poison else value_at r terms.old value)) }
    ensures kept { Keeps terms.old terms.new }
{
    let zero = number(terms, 0)?;
    let no_block = equals(terms, value.block, zero)?;
    let no_offset = equals(terms, value.number, zero)?;
    let is_zero = both(terms, no_block, no_offset)?;
    let is_null = both(terms, value.is_pointer, is_zero)?;
    let poison = either(terms, value.poison, is_null)?;
    Ok(SymValue {
        poison,
        is_pointer: value.is_pointer,
        block: value.block,
        number: value.number,
    })
}

/// Gives the parameters' names the arguments.
fn give_args(
    terms: &mut Terms,
    registers: &mut Sequence<SymValue>,
    parameters: &[Parameter],
    args: &[ArgTerms],
) -> Result<(), NoMemory>
    requires registers { AreSymValues terms.old registers.old }
    requires args { AreArgs terms.old parameters.now args.now }
    ensures made { OnOk result (AreSymValues terms.new registers.new) }
    ensures count { OnOk result (length registers.new ≡ length registers.old) }
    ensures stands { OnOk result ((r : Reading) → IsNaming r.name → values_at r terms.new registers.new ≡ with_args parameters.now (args_at r terms.old args.now) (values_at r terms.old registers.old)) }
    ensures kept { Keeps terms.old terms.new }
{
    let mut parameters = parameters;
    let mut args = args;
    while let [parameter, more_parameters @ ..] = parameters {
        let [arg, more_args @ ..] = args else {
            return Ok(());
        };
        let value = argument(terms, parameter, *arg)?;
        assign(registers, parameter.name, value);
        parameters = more_parameters;
        args = more_args;
    }
    Ok(())
}

/// True where an argument is poison whose parameter is `noundef` (LLVM Language Reference,
/// "Parameter Attributes").
fn breaks_no_undef(
    terms: &mut Terms,
    parameters: &[Parameter],
    args: &[ArgTerms],
) -> Result<TermId, NoMemory>
    requires { AreArgs terms.old parameters.now args.now }
    ensures made { IfOk result (IsTerm terms.new 1) }
    ensures stands { IfOk result (λ id. (r : Reading) → IsNaming r.name → bit_at r.v terms.new id ≡ breaks_noundef parameters.now (args_at r terms.old args.now)) }
    ensures kept { Keeps terms.old terms.new }
{
    let mut broken = truth(terms, false)?;
    let mut parameters = parameters;
    let mut args = args;
    while let [parameter, more_parameters @ ..] = parameters {
        let [arg, more_args @ ..] = args else {
            return Ok(broken);
        };
        if parameter.no_undef {
            let value = argument(terms, parameter, *arg)?;
            broken = either(terms, broken, value.poison)?;
        }
        parameters = more_parameters;
        args = more_args;
    }
    Ok(broken)
}

/// A run before its first block: where an argument breaks `noundef` its behaviour is undefined,
/// otherwise it is in this state.
#[derive(Drop)]
pub struct Beginning {
    pub undefined: TermId,
    pub state: RunState,
}

/// The beginning of the run of a function on an input whose memory looks like this.
pub fn begin(
    alloc: Global,
    terms: &mut Terms,
    f: &Function,
    input: &InputTerms,
    layout: &Layout,
) -> Result<Beginning, NoMemory>
    requires { IsInput f.now.parameters layout.now terms.old input.now }
    ensures undefined { IfOk result (λ b. IsTerm terms.new 1 b.undefined) }
    ensures breaks { IfOk result (λ b. (r : Reading) → IsNaming r.name → bit_at r.v terms.new b.undefined ≡ breaks_noundef f.now.parameters (args_at r terms.old input.now.args)) }
    ensures alive { IfOk result (λ b. (r : Reading) → bit_at r.v terms.new b.state.alive ≡ not (bit_at r.v terms.new b.undefined)) }
    ensures state { IfOk result (λ b. IsState terms.new b.state) }
    ensures shape { IfOk result (λ b. shape_of b.state ≡ record { names = length f.now.names; frames = frames_of layout.now }) }
    ensures given { IfOk result (λ b. AreGivenBlocks (frames_of layout.now) terms.new b.state.memory.blocks) }
    ensures matches { IfOk result (λ b. (g : Scene) → g.given ≡ layout.now.blocks → MatchesState g terms.new (record { label = 0; turn = 0 }) b.state (first_machine f.now (input_at (sight g) terms.old input.now))) }
    ensures kept { Keeps terms.old terms.new }
{
    let args = input.args.as_slice();
    let mut registers = poison_registers(alloc, terms, f.names.len())?;
    give_args(terms, &mut registers, f.parameters.as_slice(), args)?;
    let undefined = breaks_no_undef(terms, f.parameters.as_slice(), args)?;
    let alive = negation(terms, undefined)?;
    let memory = given_memory(alloc, terms, input, layout)?;
    let read = number(terms, 0)?;
    let fits = truth(terms, true)?;
    Ok(Beginning {
        undefined,
        state: RunState {
            alive,
            path: Sequence::from_vec(Vec::new(alloc)),
            registers,
            memory,
            tally: Tally { read, fits },
            words_bound: 0,
        },
    })
}

/// The memory of a run at its beginning: the given blocks.
pub fn given_memory(
    alloc: Global,
    terms: &mut Terms,
    input: &InputTerms,
    layout: &Layout,
) -> Result<RunMemory, NoMemory>
    requires size_count { length input.now.sizes ≡ layout.now.blocks }
    requires sizes { Each (IsTerm terms.old 6) input.now.sizes }
    requires block_count { length input.now.places ≡ layout.now.blocks }
    requires places { Each (IsBlockTerms layout.now.bytes terms.old) input.now.places }
    ensures given { IfOk result (λ m. AreGivenBlocks (frames_of layout.now) terms.new m.blocks) }
    ensures count { IfOk result (λ m. m.given ≡ layout.now.blocks) }
    ensures stands { IfOk result (λ m. (r : Reading) → memory_at r terms.new m.blocks ≡ given_blocks_at r terms.old 1 input.now.sizes input.now.places) }
    ensures kept { Keeps terms.old terms.new }
{
    let blocks = given_blocks(alloc, terms, input)?;
    Ok(RunMemory {
        blocks,
        given: layout.blocks as usize,
    })
}
