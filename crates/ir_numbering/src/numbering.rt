// Numbering the names of a function in the order in which they are first mentioned.
ghost use Rattle.std.specs.Prelude.{◌≡◌, [], IfOk};
ghost use Rattle.ir_numbering.specs.Answer.{Numbers};
ghost use Rattle.ir_numbering.specs.EntryName.{next_name};
ghost use Rattle.ir_numbering.specs.Numbering as spec;
ghost use Rattle.ir_numbering.specs.Numbering.{each_in, parameter_in, inst_in, named_behind};

use crate::block_numbering::blocks;
use crate::entry_name::next_name;
use crate::memory_numbering::{access, gep};
use crate::places::places_of;
use ir_grammar::WrittenFunction;
use ir_tree::{
    Block, Cast, Function, Inst, IrType, Name, Names, Op, Operand, Parameter, Predicate,
    TypedOperand,
};
use ir_words::{
    Boxed, WrittenBlock, WrittenBody, WrittenInst, WrittenIntType, WrittenName, WrittenOperand,
    WrittenParameter, WrittenTyped, WrittenValue,
};
use std::alloc::Global;
use support::{NoMemory, Sequence};
use tv_num::Width;

/// A parameter whose name is known, written or not.
#[derive(Drop)]
pub struct NamedParameter {
    pub of_type: IrType,
    pub no_undef: bool,
    pub non_null: bool,
    pub name: Name,
}

// The name that is written, or the next one after those of these parameters.
fn name_or_next(
    alloc: Global,
    name: Option<WrittenName>,
    before: &[NamedParameter],
) -> Result<Name, NoMemory>
    ensures { IfOk result (λ n. n ≡ spec.name_or name (next_name (spec.names_of before.now))) }
{
    match name {
        Some(written) => Ok(written.name),
        None => next_name(alloc, before),
    }
}

fn named(
    alloc: Global,
    before: &[NamedParameter],
    parameter: WrittenParameter,
) -> Result<NamedParameter, NoMemory>
    ensures { IfOk result (λ p. p ≡ spec.named before.now parameter) }
{
    let WrittenParameter {
        of_type,
        no_undef,
        non_null,
        name,
    } = parameter;
    let name = name_or_next(alloc, name, before)?;
    Ok(NamedParameter {
        of_type: of_type.of_type,
        no_undef,
        non_null,
        name,
    })
}

// The parameters, each with a name.
fn named_parameters(
    alloc: Global,
    parameters: Sequence<WrittenParameter>,
) -> Result<Sequence<NamedParameter>, NoMemory>
    ensures { IfOk result (λ ps. ps ≡ spec.named_behind [] parameters) }
{
    let mut all = Vec::with_capacity(alloc, parameters.len())?;
    for parameter in parameters.into_vec() {
        let next = named(alloc, all.as_slice(), parameter)?;
        all.push(next)?;
    }
    Ok(Sequence::from_vec(all))
}

/// The number of a name, a new one after those of the table.
pub fn number(names: &mut Names, name: Name) -> Result<usize, NoMemory>
    ensures { Numbers result names.new (spec.number_in names.old name) }
{
    names.number(name)
}

/// An operand whose name is numbered.
pub fn value(names: &mut Names, value: WrittenValue) -> Result<Operand, NoMemory>
    ensures { Numbers result names.new (spec.value_in names.old value) }
{
    match value {
        WrittenValue::Local(name) => Ok(Operand::Local(number(names, name)?)),
        WrittenValue::Literal(number) => Ok(Operand::Number(number)),
        WrittenValue::Null => Ok(Operand::Null),
        WrittenValue::Poison => Ok(Operand::Poison),
        WrittenValue::Undef => Ok(Operand::Undef),
    }
}

/// An operand after its type.
#[tactic(auto, unfolding(crate::specs::Numbering::typed_in))]
pub fn typed(names: &mut Names, typed: WrittenTyped) -> Result<TypedOperand, NoMemory>
    ensures { Numbers result names.new (spec.typed_in names.old typed) }
{
    let WrittenTyped { of_type, operand } = typed;
    let operand = value(names, operand.value)?;
    Ok(TypedOperand {
        of_type: of_type.of_type,
        operand,
    })
}

#[tactic(auto, unfolding(crate::specs::Numbering::binary_in))]
fn binary(
    names: &mut Names,
    into: Name,
    op: Op,
    width: Width,
    left: WrittenValue,
    right: WrittenValue,
) -> Result<Inst, NoMemory>
    ensures { Numbers result names.new (spec.binary_in names.old into op width left right) }
{
    let into = number(names, into)?;
    let left = value(names, left)?;
    let right = value(names, right)?;
    Ok(Inst::Binary {
        into,
        op,
        width,
        left,
        right,
    })
}

#[tactic(auto, unfolding(crate::specs::Numbering::icmp_in))]
fn icmp(
    names: &mut Names,
    into: Name,
    predicate: Predicate,
    same_sign: bool,
    of_type: WrittenIntType,
    left: WrittenOperand,
    right: WrittenOperand,
) -> Result<Inst, NoMemory>
    ensures { Numbers result names.new (spec.icmp_in names.old into predicate same_sign of_type.width left.value right.value) }
{
    let into = number(names, into)?;
    let left = value(names, left.value)?;
    let right = value(names, right.value)?;
    Ok(Inst::Icmp {
        into,
        predicate,
        same_sign,
        width: of_type.width,
        left,
        right,
    })
}

#[tactic(auto, unfolding(crate::specs::Numbering::cast_in))]
fn cast(
    names: &mut Names,
    into: Name,
    cast: Cast,
    from: Width,
    operand: WrittenValue,
    to: Width,
) -> Result<Inst, NoMemory>
    ensures { Numbers result names.new (spec.cast_in names.old into cast from operand to) }
{
    let into = number(names, into)?;
    let operand = value(names, operand)?;
    Ok(Inst::Cast {
        into,
        cast,
        from,
        operand,
        to,
    })
}

#[tactic(auto, unfolding(crate::specs::Numbering::select_in))]
fn select(
    names: &mut Names,
    into: Name,
    condition: WrittenValue,
    if_true: Boxed<WrittenTyped>,
    if_false: Boxed<WrittenTyped>,
) -> Result<Inst, NoMemory>
    ensures { Numbers result names.new (spec.select_in names.old into condition if_true if_false) }
{
    let into = number(names, into)?;
    let condition = value(names, condition)?;
    let if_true = typed(names, if_true.into_inner())?;
    let if_false = typed(names, if_false.into_inner())?;
    Ok(Inst::Select {
        into,
        condition,
        if_true,
        if_false,
    })
}

#[tactic(auto, unfolding(crate::specs::Numbering::freeze_in))]
fn freeze(
    names: &mut Names,
    into: Name,
    of_type: IrType,
    operand: WrittenValue,
) -> Result<Inst, NoMemory>
    ensures { Numbers result names.new (spec.freeze_in names.old into of_type operand) }
{
    let into = number(names, into)?;
    let operand = value(names, operand)?;
    Ok(Inst::Freeze {
        into,
        of_type,
        operand,
    })
}

fn inst(alloc: Global, names: &mut Names, inst: WrittenInst) -> Result<Inst, NoMemory>
    ensures { Numbers result names.new (inst_in names.old inst) }
{
    match inst {
        WrittenInst::Binary {
            into,
            op,
            of_type,
            left,
            right,
        } => binary(names, into.name, op, of_type.width, left.value, right.value),
        WrittenInst::Icmp {
            into,
            predicate,
            same_sign,
            of_type,
            left,
            right,
        } => icmp(names, into.name, predicate, same_sign, of_type, left, right),
        WrittenInst::Cast {
            into,
            cast: kind,
            from,
            operand,
            to,
        } => cast(names, into.name, kind, from.width, operand.value, to.width),
        WrittenInst::Select {
            into,
            bit: _,
            condition,
            if_true,
            if_false,
        } => select(names, into.name, condition.value, if_true, if_false),
        WrittenInst::Freeze { into, value } => {
            let WrittenTyped { of_type, operand } = value;
            freeze(names, into.name, of_type.of_type, operand.value)
        }
        WrittenInst::Access {
            access: written,
            align,
        } => access(names, written.into_inner(), align),
        WrittenInst::GetElementPtr(written) => gep(alloc, names, written),
    }
}

#[tactic(auto, unfolding(crate::specs::Numbering::parameter_in))]
fn parameter(names: &mut Names, parameter: NamedParameter) -> Result<Parameter, NoMemory>
    ensures { Numbers result names.new (parameter_in names.old parameter) }
{
    let NamedParameter {
        of_type,
        no_undef,
        non_null,
        name,
    } = parameter;
    let name = number(names, name)?;
    Ok(Parameter {
        of_type,
        no_undef,
        non_null,
        name,
    })
}

fn parameters(
    alloc: Global,
    names: &mut Names,
    parameters: Sequence<NamedParameter>,
) -> Result<Sequence<Parameter>, NoMemory>
    ensures { Numbers result names.new (each_in parameter_in names.old parameters) }
{
    let mut numbered = Vec::with_capacity(alloc, parameters.len())?;
    for one in parameters.into_vec() {
        numbered.push(parameter(names, one)?)?;
    }
    Ok(Sequence::from_vec(numbered))
}

/// Instructions in turn.
pub fn insts(
    alloc: Global,
    names: &mut Names,
    insts: Sequence<Boxed<WrittenInst>>,
) -> Result<Sequence<Inst>, NoMemory>
    ensures { Numbers result names.new (each_in inst_in names.old insts) }
{
    let mut numbered = Vec::with_capacity(alloc, insts.len())?;
    for one in insts.into_vec() {
        numbered.push(inst(alloc, names, one.into_inner())?)?;
    }
    Ok(Sequence::from_vec(numbered))
}

#[tactic(auto, unfolding(crate::specs::Numbering::parts_in))]
fn parts(
    alloc: Global,
    named: Sequence<NamedParameter>,
    label: Name,
    entry: WrittenBody,
    others: Sequence<WrittenBlock>,
) -> Result<((Sequence<Parameter>, Sequence<Block>), Names), NoMemory>
    ensures { IfOk result (λ parts. spec.parts_in named label entry others ≡ spec.so parts.0 parts.1) }
{
    let mut names = Names::new(alloc);
    let parameters = parameters(alloc, &mut names, named)?;
    let blocks = blocks(alloc, &mut names, label, entry, others)?;
    names.shrink_to_fit();
    Ok(((parameters, blocks), names))
}

// The parameters and the blocks with their names numbered, and the names.
fn named_parts(
    alloc: Global,
    parameters: Sequence<WrittenParameter>,
    label: Option<WrittenName>,
    entry: WrittenBody,
    others: Sequence<WrittenBlock>,
) -> Result<((Sequence<Parameter>, Sequence<Block>), Names), NoMemory>
    ensures { IfOk result (λ parts. spec.parts_in (named_behind [] parameters) (spec.name_or label (next_name (spec.names_of (named_behind [] parameters)))) entry others ≡ spec.so parts.0 parts.1) }
{
    let named = named_parameters(alloc, parameters)?;
    let label = name_or_next(alloc, label, named.as_slice())?;
    parts(alloc, named, label, entry, others)
}

/// The function with its names numbered and the positions of its sites.
#[tactic(auto, unfolding(crate::specs::Numbering::numbered))]
pub fn numbered(alloc: Global, written: WrittenFunction) -> Result<Function, NoMemory>
    ensures { IfOk result (λ f. f ≡ spec.numbered written) }
{
    let places = places_of(alloc, &written)?;
    let WrittenFunction {
        returns_no_undef,
        returns,
        name,
        parameters,
        brace: _,
        label,
        entry,
        others,
    } = written;
    let ((parameters, blocks), names) = named_parts(alloc, parameters, label, entry, others)?;
    Ok(Function {
        name: name.name,
        returns: returns.of_type,
        returns_no_undef,
        parameters,
        blocks,
        names,
        places,
    })
}
