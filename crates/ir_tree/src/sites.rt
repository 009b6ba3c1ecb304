ghost use Rattle.std.specs.Prelude.{◌≡◌, ◌∷◌, [], length, true, Some, slice_index_or, OnOk, IfOk};
ghost use Rattle.std.specs.List.{flat_map};
ghost use Rattle.ir_tree.specs.Sites.{sites, parts, operand_site, is_same_type, same_number, changes_width, indices_sites, index_sites, inst_sites, entry_sites, phi_sites, has_case, case_sites, cases_sites, terminator_sites, returns_type, parameter_steps, phi_steps, inst_steps, block_steps, blocks_steps, no_place};
ghost use Rattle.ir_tree.specs.Types.{one_bit};
ghost use Rattle.ir_tree.specs.SiteLists.{with_part, with_parts};
ghost use Rattle.ir_tree.specs.WellFormed.{refusal_at};

use crate::module::{Reason, Refused};
use crate::tree::{
    Block, Case, Cast, Function, GepIndex, Inst, IrType, Operand, Parameter, Phi, PhiEntry,
    Terminator, TypedOperand,
};
use std::alloc::Global;
use support::{NoMemory, Sequence};
use text_places::Place;
use tv_num::{Width, wrap};

/// A part of a function's text. Blocks, and the phis and instructions of a block, are numbered from
/// 0 in text order.
#[derive(Clone, Copy, Debug, PartialEq, Eq)]
pub enum Part {
    /// The return type and the function's name.
    Header,
    Parameter,
    Label { block: usize },
    Phi { block: usize, phi: usize },
    Inst { block: usize, inst: usize },
    /// The terminator.
    End { block: usize },
}

/// What is at a position in a function's text that a refusal may be about.
#[derive(Clone, Copy, Debug, PartialEq, Eq)]
pub enum Site {
    /// A name that gets a value of this type; a block's label is a name without one.
    Defines {
        of_type: Option<IrType>,
        name: usize,
    },
    /// A name that is used as a value of this type.
    Uses {
        of_type: IrType,
        name: usize,
    },
    /// A name that is used as a block: a phi's entry comes from it, or a jump leads to it.
    Enters {
        name: usize,
    },
    /// A type, a literal or the function's name, and whether it is allowed there.
    Written {
        fits: bool,
    },
}

/// The sites of a function, in text order.
#[derive(Drop)]
pub struct SiteList {
    /// What is at each site.
    pub all: Sequence<Site>,
    /// For each site the part of the text that it is in.
    pub parts: Sequence<Part>,
}

/// The sites of a function, from its header to its last instruction.
pub fn sites_of(alloc: Global, f: &Function) -> Result<SiteList, NoMemory>
    ensures all { IfOk result (λ list. list.all ≡ sites f.now) }
    ensures parts { IfOk result (λ list. list.parts ≡ parts f.now) }
    ensures len { IfOk result (λ list. length list.parts ≡ length list.all) }
{
    let mut list = SiteList {
        all: Sequence::from_vec(Vec::new(alloc)),
        parts: Sequence::from_vec(Vec::new(alloc)),
    };
    list.part(Part::Header, &[fitting(), fitting()])?;
    list.parameters(f.parameters.as_slice())?;
    list.blocks(f.returns, f.blocks.as_slice())?;
    Ok(list)
}

/// The refusal of a function for a reason, at the position of a site.
pub fn refusal_at(f: &Function, reason: Reason, site: usize) -> Refused
    ensures { result ≡ refusal_at reason f.now site }
{
    let place = place_of(f.places.as_slice(), site);
    Refused {
        reason,
        line: place.line,
        column: place.column,
    }
}

impl SiteList {
    fn part(&mut self, part: Part, sites: &[Site]) -> Result<(), NoMemory>
        ensures { OnOk result (self.new ≡ with_part self.old part sites.now) }
    {
        for site in sites {
            self.all.push(*site)?;
            self.parts.push(part)?;
        }
        Ok(())
    }

    fn parameters(&mut self, parameters: &[Parameter]) -> Result<(), NoMemory>
        ensures { OnOk result (self.new ≡ with_parts self.old (parameter_steps parameters.now)) }
    {
        for parameter in parameters {
            self.part(
                Part::Parameter,
                &[fitting(), defines(parameter.name, parameter.of_type)],
            )?;
        }
        Ok(())
    }

    fn blocks(&mut self, returns: Option<IrType>, blocks: &[Block]) -> Result<(), NoMemory>
        ensures { OnOk result (self.new ≡ with_parts self.old (blocks_steps returns 0 blocks.now)) }
    {
        for (place, block) in blocks.iter().enumerate() {
            self.block(returns, place, block)?;
        }
        Ok(())
    }

    fn block(
        &mut self,
        returns: Option<IrType>,
        place: usize,
        block: &Block,
    ) -> Result<(), NoMemory>
        ensures { OnOk result (self.new ≡ with_parts self.old (block_steps returns place block.now)) }
    {
        self.part(
            Part::Label { block: place },
            &[Site::Defines {
                of_type: None,
                name: block.label,
            }],
        )?;
        self.phis(place, block.phis.as_slice())?;
        self.insts(place, block.insts.as_slice())?;
        self.terminator(Part::End { block: place }, returns, &block.terminator)?;
        Ok(())
    }

    fn phis(&mut self, block: usize, phis: &[Phi]) -> Result<(), NoMemory>
        ensures { OnOk result (self.new ≡ with_parts self.old (phi_steps block 0 phis.now)) }
    {
        for (place, phi) in phis.iter().enumerate() {
            self.phi(Part::Phi { block, phi: place }, phi)?;
        }
        Ok(())
    }

    fn phi(&mut self, part: Part, phi: &Phi) -> Result<(), NoMemory>
        ensures { OnOk result (self.new ≡ with_part self.old part (phi_sites phi.now)) }
    {
        self.part(part, &[defines(phi.into, phi.of_type), fitting()])?;
        self.entries(part, phi.of_type, phi.entries.as_slice())?;
        Ok(())
    }

    fn entries(&mut self, part: Part, of_type: IrType, entries: &[PhiEntry]) -> Result<(), NoMemory>
        ensures { OnOk result (self.new ≡ with_part self.old part (flat_map (entry_sites of_type) entries.now)) }
    {
        for entry in entries {
            self.part(
                part,
                &[operand_site(of_type, entry.operand), enters(entry.from)],
            )?;
        }
        Ok(())
    }

    fn insts(&mut self, block: usize, insts: &[Inst]) -> Result<(), NoMemory>
        ensures { OnOk result (self.new ≡ with_parts self.old (inst_steps block 0 insts.now)) }
    {
        for (place, inst) in insts.iter().enumerate() {
            self.inst(Part::Inst { block, inst: place }, inst)?;
        }
        Ok(())
    }

    fn inst(&mut self, part: Part, inst: &Inst) -> Result<(), NoMemory>
        ensures { OnOk result (self.new ≡ with_part self.old part (inst_sites inst.now)) }
    {
        match inst {
            Inst::Binary {
                into,
                op: _,
                width,
                left,
                right,
            } => self.on_two(part, integer(*into, *width), *width, *left, *right),
            Inst::Icmp {
                into,
                predicate: _,
                same_sign: _,
                width,
                left,
                right,
            } => self.on_two(part, integer(*into, one_bit()), *width, *left, *right),
            Inst::Cast {
                into,
                cast,
                from,
                operand,
                to,
            } => self.part(
                part,
                &[
                    integer(*into, *to),
                    fitting(),
                    operand_site(IrType::Int(*from), *operand),
                    written(changes_width(*cast, *from, *to)),
                ],
            ),
            Inst::Select {
                into,
                condition,
                if_true,
                if_false,
            } => self.select(part, *into, *condition, *if_true, *if_false),
            Inst::Freeze {
                into,
                of_type,
                operand,
            } => self.part(
                part,
                &[
                    defines(*into, *of_type),
                    fitting(),
                    operand_site(*of_type, *operand),
                ],
            ),
            Inst::Alloca { into, .. } => {
                self.part(part, &[defines(*into, IrType::Ptr), fitting()])
            }
            Inst::Load {
                into,
                of_type,
                pointer,
                align: _,
            } => self.part(
                part,
                &[
                    defines(*into, *of_type),
                    fitting(),
                    fitting(),
                    operand_site(IrType::Ptr, *pointer),
                ],
            ),
            Inst::Store {
                value,
                pointer,
                align: _,
            } => self.part(
                part,
                &[
                    fitting(),
                    operand_site(value.of_type, value.operand),
                    fitting(),
                    operand_site(IrType::Ptr, *pointer),
                ],
            ),
            Inst::GetElementPtr {
                into,
                inbounds: _,
                nuw: _,
                of_type,
                base,
                indices,
            } => self.address(
                part,
                *into,
                *base,
                of_type.lengths.len(),
                indices.as_slice(),
            ),
        }
    }

    // A result, the type of two operands, and the operands.
    fn on_two(
        &mut self,
        part: Part,
        result_site: Site,
        width: Width,
        left: Operand,
        right: Operand,
    ) -> Result<(), NoMemory>
        ensures { OnOk result (self.new ≡ with_part self.old part (result_site ∷ Site.Written true ∷ operand_site (IrType.Int width) left ∷ operand_site (IrType.Int width) right ∷ [])) }
    {
        self.part(
            part,
            &[
                result_site,
                fitting(),
                operand_site(IrType::Int(width), left),
                operand_site(IrType::Int(width), right),
            ],
        )
    }

    fn address(
        &mut self,
        part: Part,
        into: usize,
        base: Operand,
        arrays: usize,
        indices: &[GepIndex],
    ) -> Result<(), NoMemory>
        ensures { OnOk result (self.new ≡ with_part self.old part (Site.Defines (Some IrType.Ptr) into ∷ Site.Written true ∷ Site.Written true ∷ operand_site IrType.Ptr base ∷ indices_sites arrays 0 indices.now)) }
    {
        self.part(
            part,
            &[
                defines(into, IrType::Ptr),
                fitting(),
                fitting(),
                operand_site(IrType::Ptr, base),
            ],
        )?;
        self.indices(part, arrays, indices)?;
        Ok(())
    }

    fn indices(&mut self, part: Part, arrays: usize, indices: &[GepIndex]) -> Result<(), NoMemory>
        ensures { OnOk result (self.new ≡ with_part self.old part (indices_sites arrays 0 indices.now)) }
    {
        for (n, index) in indices.iter().enumerate() {
            self.part(
                part,
                &[
                    fitting(),
                    operand_site(IrType::Int(index.width), index.operand),
                    written(n <= arrays),
                ],
            )?;
        }
        Ok(())
    }

    fn select(
        &mut self,
        part: Part,
        into: usize,
        condition: Operand,
        if_true: TypedOperand,
        if_false: TypedOperand,
    ) -> Result<(), NoMemory>
        ensures { OnOk result (self.new ≡ with_part self.old part (inst_sites (Inst.Select into condition if_true if_false))) }
    {
        self.part(
            part,
            &[
                defines(into, if_true.of_type),
                fitting(),
                operand_site(IrType::Int(one_bit()), condition),
                fitting(),
                operand_site(if_true.of_type, if_true.operand),
                written(is_same_type(if_true.of_type, if_false.of_type)),
                operand_site(if_false.of_type, if_false.operand),
            ],
        )
    }

    fn terminator(
        &mut self,
        part: Part,
        returns: Option<IrType>,
        terminator: &Terminator,
    ) -> Result<(), NoMemory>
        ensures { OnOk result (self.new ≡ with_part self.old part (terminator_sites returns terminator.now)) }
    {
        match terminator {
            Terminator::Return(returned) => self.returned(part, returns, *returned),
            Terminator::Branch { to } => self.part(part, &[enters(*to)]),
            Terminator::CondBranch {
                condition,
                if_true,
                if_false,
            } => self.part(
                part,
                &[
                    fitting(),
                    operand_site(IrType::Int(one_bit()), *condition),
                    enters(*if_true),
                    enters(*if_false),
                ],
            ),
            Terminator::Switch {
                width,
                operand,
                default,
                cases,
            } => self.switch(part, *width, *operand, *default, cases.as_slice()),
            Terminator::Unreachable => self.part(part, &[]),
        }
    }

    fn returned(
        &mut self,
        part: Part,
        returns: Option<IrType>,
        returned: Option<TypedOperand>,
    ) -> Result<(), NoMemory>
        ensures { OnOk result (self.new ≡ with_part self.old part (terminator_sites returns (Terminator.Return returned))) }
    {
        match returned {
            Some(returned) => self.part(
                part,
                &[
                    written(returns_type(returns, returned.of_type)),
                    operand_site(returned.of_type, returned.operand),
                ],
            ),
            None => self.part(part, &[written(returns.is_none())]),
        }
    }

    fn switch(
        &mut self,
        part: Part,
        width: Width,
        operand: Operand,
        default: usize,
        cases: &[Case],
    ) -> Result<(), NoMemory>
        ensures { OnOk result (self.new ≡ with_part self.old part (Site.Written true ∷ operand_site (IrType.Int width) operand ∷ Site.Enters default ∷ cases_sites width [] cases.now)) }
    {
        self.part(
            part,
            &[
                fitting(),
                operand_site(IrType::Int(width), operand),
                enters(default),
            ],
        )?;
        self.cases(part, width, cases)?;
        Ok(())
    }

    fn cases(&mut self, part: Part, width: Width, cases: &[Case]) -> Result<(), NoMemory>
        ensures { OnOk result (self.new ≡ with_part self.old part (cases_sites width [] cases.now)) }
    {
        for (place, case) in cases.iter().enumerate() {
            self.case(part, width, &cases[..place], *case)?;
        }
        Ok(())
    }

    fn case(
        &mut self,
        part: Part,
        width: Width,
        before: &[Case],
        case: Case,
    ) -> Result<(), NoMemory>
        ensures { OnOk result (self.new ≡ with_part self.old part (case_sites width before.now case)) }
    {
        self.part(
            part,
            &[
                written(case.width.bits() == width.bits()),
                written(!has_case(before, width, case.value)),
                enters(case.to),
            ],
        )
    }
}

/// Whether both are the same type.
pub fn is_same_type(a: IrType, b: IrType) -> bool
    ensures { result ≡ is_same_type a b }
{
    match (a, b) {
        (IrType::Int(a), IrType::Int(b)) => a.bits() == b.bits(),
        (IrType::Ptr, IrType::Ptr) => true,
        (IrType::Int(_), IrType::Ptr) | (IrType::Ptr, IrType::Int(_)) => false,
    }
}

fn changes_width(cast: Cast, from: Width, to: Width) -> bool
    ensures { result ≡ changes_width cast from.bits to.bits }
{
    match cast {
        Cast::Truncate(_) => to.bits() < from.bits(),
        Cast::ZeroExtend { .. } | Cast::SignExtend => from.bits() < to.bits(),
    }
}

fn returns_type(header: Option<IrType>, of_type: IrType) -> bool
    ensures { result ≡ returns_type header of_type }
{
    match header {
        Some(header) => is_same_type(header, of_type),
        None => false,
    }
}

fn is_same_number(width: Width, a: u64, b: u64) -> bool
    ensures { result ≡ same_number width.bits a b }
{
    wrap(a as u128, width) == wrap(b as u128, width)
}

fn has_case(cases: &[Case], width: Width, value: u64) -> bool
    ensures { result ≡ has_case width.bits cases.now value }
{
    cases
        .iter()
        .any(|case| is_same_number(width, case.value, value))
}

/// The width of a truth value.
pub fn one_bit() -> Width
    ensures { result ≡ one_bit }
{
    Width::of(1)
}

fn fitting() -> Site
    ensures { result ≡ Site.Written true }
{
    Site::Written { fits: true }
}

fn written(fits: bool) -> Site
    ensures { result ≡ Site.Written fits }
{
    Site::Written { fits }
}

fn enters(name: usize) -> Site
    ensures { result ≡ Site.Enters name }
{
    Site::Enters { name }
}

fn integer(name: usize, width: Width) -> Site
    ensures { result ≡ Site.Defines (Some (IrType.Int width)) name }
{
    defines(name, IrType::Int(width))
}

fn defines(name: usize, of_type: IrType) -> Site
    ensures { result ≡ Site.Defines (Some of_type) name }
{
    Site::Defines {
        of_type: Some(of_type),
        name,
    }
}

fn operand_site(of_type: IrType, operand: Operand) -> Site
    ensures { result ≡ operand_site of_type operand }
{
    match operand {
        Operand::Local(name) => Site::Uses { of_type, name },
        Operand::Number(_) | Operand::Null | Operand::Poison | Operand::Undef => fitting(),
    }
}

fn place_of(places: &[Place], site: usize) -> Place
    ensures { result ≡ slice_index_or places.now site no_place }
{
    match places.get(site) {
        Some(place) => *place,
        None => Place { line: 0, column: 0 },
    }
}
