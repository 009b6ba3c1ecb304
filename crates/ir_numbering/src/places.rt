// Where the types, names, literals and labels of a function are.
ghost use Rattle.std.specs.Prelude.{◌≡◌, ◌++◌, ◌∷◌, [], flat_map, IfOk, OnOk};
ghost use Rattle.ir_numbering.specs.Places as spec;
ghost use Rattle.ir_numbering.specs.Places.{typed_places, access_places, index_places, inst_places, parameter_places, returned_places, entry_places, phi_places, case_places, terminator_places, body_places, block_places};

use ir_grammar::WrittenFunction;
use ir_words::{
    Boxed, WrittenAccess, WrittenBlock, WrittenBody, WrittenCase, WrittenEntry, WrittenGep,
    WrittenIndex, WrittenInst, WrittenName, WrittenParameter, WrittenPhi, WrittenReturn,
    WrittenTerminator, WrittenTyped,
};
use std::alloc::Global;
use support::{NoMemory, Sequence};
use text_places::Place;

// The position of a name, or the other where it isn't written.
fn place_or(name: &Option<WrittenName>, other: Place) -> Place
    ensures { result ≡ spec.place_or name.now other }
{
    match name {
        Some(name) => name.at,
        None => other,
    }
}

fn add_typed(places: &mut Sequence<Place>, typed: &WrittenTyped) -> Result<(), NoMemory>
    ensures { OnOk result (places.new ≡ places.old ++ typed_places typed.now) }
{
    places.push(typed.of_type.at)?;
    places.push(typed.operand.at)
}

fn add_two(places: &mut Sequence<Place>, first: Place, second: Place) -> Result<(), NoMemory>
    ensures { OnOk result (places.new ≡ places.old ++ (first ∷ second ∷ [])) }
{
    places.push(first)?;
    places.push(second)
}

fn add_three(
    places: &mut Sequence<Place>,
    first: Place,
    second: Place,
    third: Place,
) -> Result<(), NoMemory>
    ensures { OnOk result (places.new ≡ places.old ++ (first ∷ second ∷ third ∷ [])) }
{
    places.push(first)?;
    places.push(second)?;
    places.push(third)
}

fn add_four(
    places: &mut Sequence<Place>,
    first: Place,
    second: Place,
    third: Place,
    fourth: Place,
) -> Result<(), NoMemory>
    ensures { OnOk result (places.new ≡ places.old ++ (first ∷ second ∷ third ∷ fourth ∷ [])) }
{
    places.push(first)?;
    places.push(second)?;
    places.push(third)?;
    places.push(fourth)
}

fn add_select(
    places: &mut Sequence<Place>,
    into: Place,
    bit: Place,
    condition: Place,
    if_true: &WrittenTyped,
    if_false: &WrittenTyped,
) -> Result<(), NoMemory>
    ensures { OnOk result (places.new ≡ places.old ++ (into ∷ bit ∷ condition ∷ (typed_places if_true.now ++ typed_places if_false.now))) }
{
    places.push(into)?;
    places.push(bit)?;
    places.push(condition)?;
    add_typed(places, if_true)?;
    add_typed(places, if_false)
}

fn add_freeze(
    places: &mut Sequence<Place>,
    into: Place,
    value: &WrittenTyped,
) -> Result<(), NoMemory>
    ensures { OnOk result (places.new ≡ places.old ++ (into ∷ typed_places value.now)) }
{
    places.push(into)?;
    add_typed(places, value)
}

fn add_access(places: &mut Sequence<Place>, access: &WrittenAccess) -> Result<(), NoMemory>
    ensures { OnOk result (places.new ≡ places.old ++ access_places access.now) }
{
    match access {
        WrittenAccess::Alloca {
            into,
            number: _,
            of_type,
        } => add_two(places, into.at, of_type.at),
        WrittenAccess::Load {
            into,
            of_type,
            pointer,
        } => add_four(
            places,
            into.at,
            of_type.at,
            pointer.of_type.at,
            pointer.operand.at,
        ),
        WrittenAccess::Store { value, pointer } => add_four(
            places,
            value.of_type.at,
            value.operand.at,
            pointer.of_type.at,
            pointer.operand.at,
        ),
    }
}

fn add_indices(places: &mut Sequence<Place>, indices: &[WrittenIndex]) -> Result<(), NoMemory>
    ensures { OnOk result (places.new ≡ places.old ++ flat_map index_places indices.now) }
{
    for index in indices {
        add_three(places, index.of_type.at, index.operand.at, index.operand.at)?;
    }
    Ok(())
}

fn add_gep(places: &mut Sequence<Place>, gep: &WrittenGep) -> Result<(), NoMemory>
    ensures { OnOk result (places.new ≡ places.old ++ (gep.now.into.at ∷ gep.now.of_type.at ∷ (typed_places gep.now.base ++ flat_map index_places gep.now.indices))) }
{
    add_four(
        places,
        gep.into.at,
        gep.of_type.get().at,
        gep.base.get().of_type.at,
        gep.base.get().operand.at,
    )?;
    add_indices(places, gep.indices.as_slice())
}

fn add_inst(places: &mut Sequence<Place>, inst: &Boxed<WrittenInst>) -> Result<(), NoMemory>
    ensures { OnOk result (places.new ≡ places.old ++ inst_places inst.now) }
{
    match inst.get() {
        WrittenInst::Binary {
            into,
            op: _,
            of_type,
            left,
            right,
        } => add_four(places, into.at, of_type.at, left.at, right.at),
        WrittenInst::Icmp {
            into,
            predicate: _,
            same_sign: _,
            of_type,
            left,
            right,
        } => add_four(places, into.at, of_type.at, left.at, right.at),
        WrittenInst::Cast {
            into,
            cast: _,
            from,
            operand,
            to,
        } => add_four(places, into.at, from.at, operand.at, to.at),
        WrittenInst::Select {
            into,
            bit,
            condition,
            if_true,
            if_false,
        } => add_select(
            places,
            into.at,
            *bit,
            condition.at,
            if_true.get(),
            if_false.get(),
        ),
        WrittenInst::Freeze { into, value } => add_freeze(places, into.at, value),
        WrittenInst::Access { access, align: _ } => add_access(places, access.get()),
        WrittenInst::GetElementPtr(gep) => add_gep(places, gep),
    }
}

fn add_parameter(places: &mut Sequence<Place>, parameter: &WrittenParameter) -> Result<(), NoMemory>
    ensures { OnOk result (places.new ≡ places.old ++ parameter_places parameter.now) }
{
    let of_type = parameter.of_type.at;
    places.push(of_type)?;
    places.push(place_or(&parameter.name, of_type))
}

fn add_parameters(
    places: &mut Sequence<Place>,
    parameters: &[WrittenParameter],
) -> Result<(), NoMemory>
    ensures { OnOk result (places.new ≡ places.old ++ flat_map parameter_places parameters.now) }
{
    for parameter in parameters {
        add_parameter(places, parameter)?;
    }
    Ok(())
}

fn add_insts(places: &mut Sequence<Place>, insts: &[Boxed<WrittenInst>]) -> Result<(), NoMemory>
    ensures { OnOk result (places.new ≡ places.old ++ flat_map inst_places insts.now) }
{
    for inst in insts {
        add_inst(places, inst)?;
    }
    Ok(())
}

fn add_returned(places: &mut Sequence<Place>, returned: &WrittenReturn) -> Result<(), NoMemory>
    ensures { OnOk result (places.new ≡ places.old ++ returned_places returned.now) }
{
    match returned {
        WrittenReturn::Void(at) => places.push(*at),
        WrittenReturn::Value(typed) => add_typed(places, typed),
    }
}

fn add_entries(places: &mut Sequence<Place>, entries: &[WrittenEntry]) -> Result<(), NoMemory>
    ensures { OnOk result (places.new ≡ places.old ++ flat_map entry_places entries.now) }
{
    for entry in entries {
        add_two(places, entry.operand.at, entry.from.at)?;
    }
    Ok(())
}

fn add_phi(places: &mut Sequence<Place>, phi: &WrittenPhi) -> Result<(), NoMemory>
    ensures { OnOk result (places.new ≡ places.old ++ phi_places phi.now) }
{
    add_two(places, phi.into.at, phi.of_type.at)?;
    add_entries(places, phi.entries.as_slice())
}

fn add_phis(places: &mut Sequence<Place>, phis: &[WrittenPhi]) -> Result<(), NoMemory>
    ensures { OnOk result (places.new ≡ places.old ++ flat_map phi_places phis.now) }
{
    for phi in phis {
        add_phi(places, phi)?;
    }
    Ok(())
}

fn add_cases(places: &mut Sequence<Place>, cases: &[WrittenCase]) -> Result<(), NoMemory>
    ensures { OnOk result (places.new ≡ places.old ++ flat_map case_places cases.now) }
{
    for case in cases {
        add_three(places, case.of_type.at, case.literal.at, case.to.at)?;
    }
    Ok(())
}

fn add_switch(
    places: &mut Sequence<Place>,
    of_type: Place,
    operand: Place,
    default: Place,
    cases: &[WrittenCase],
) -> Result<(), NoMemory>
    ensures { OnOk result (places.new ≡ places.old ++ ((of_type ∷ operand ∷ default ∷ []) ++ flat_map case_places cases.now)) }
{
    add_three(places, of_type, operand, default)?;
    add_cases(places, cases)
}

fn add_terminator(
    places: &mut Sequence<Place>,
    terminator: &WrittenTerminator,
) -> Result<(), NoMemory>
    ensures { OnOk result (places.new ≡ places.old ++ terminator_places terminator.now) }
{
    match terminator {
        WrittenTerminator::Return(returned) => add_returned(places, returned),
        WrittenTerminator::Branch(to) => places.push(to.at),
        WrittenTerminator::CondBranch {
            bit,
            condition,
            if_true,
            if_false,
        } => add_four(places, *bit, condition.at, if_true.at, if_false.at),
        WrittenTerminator::Switch {
            of_type,
            operand,
            default,
            cases,
        } => add_switch(places, of_type.at, operand.at, default.at, cases.as_slice()),
        WrittenTerminator::Unreachable => Ok(()),
    }
}

#[tactic(auto, unfolding(crate::specs::Places::body_places))]
fn add_body(places: &mut Sequence<Place>, body: &WrittenBody) -> Result<(), NoMemory>
    ensures { OnOk result (places.new ≡ places.old ++ body_places body.now) }
{
    add_phis(places, body.phis.as_slice())?;
    add_insts(places, body.insts.as_slice())?;
    add_terminator(places, body.terminator.get())
}

fn add_block(places: &mut Sequence<Place>, block: &WrittenBlock) -> Result<(), NoMemory>
    ensures { OnOk result (places.new ≡ places.old ++ block_places block.now) }
{
    places.push(block.label.at)?;
    add_body(places, &block.body)
}

fn add_blocks(places: &mut Sequence<Place>, blocks: &[WrittenBlock]) -> Result<(), NoMemory>
    ensures { OnOk result (places.new ≡ places.old ++ flat_map block_places blocks.now) }
{
    for block in blocks {
        add_block(places, block)?;
    }
    Ok(())
}

/// The positions of a function's types, names, literals and labels, in text order.
#[tactic(auto, unfolding(crate::specs::Places::places_of))]
pub fn places_of(alloc: Global, written: &WrittenFunction) -> Result<Sequence<Place>, NoMemory>
    ensures { IfOk result (λ places. places ≡ spec.places_of written.now) }
{
    let mut places = Sequence::from_vec(Vec::new(alloc));
    places.push(written.returns.at)?;
    places.push(written.name.at)?;
    add_parameters(&mut places, written.parameters.as_slice())?;
    places.push(place_or(&written.label, written.brace))?;
    add_body(&mut places, &written.entry)?;
    add_blocks(&mut places, written.others.as_slice())?;
    Ok(places)
}
