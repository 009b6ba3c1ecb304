// Reading an instruction after the name of its result.
ghost use Rattle.std.specs.Prelude.{◌≡◌, true};
ghost use Rattle.token_forms.specs.Form.{reads, read, begin_of};
ghost use Rattle.token_forms.specs.Answer.{Reads};
ghost use Rattle.ir_tree.specs.Carrying.{is_division};
ghost use Rattle.ir_tree.specs.Types.{one_bit};
ghost use Rattle.ir_words.specs.Words.{flag_text};
ghost use Rattle.ir_grammar.specs.Classes.{any, as_word, passed};
ghost use Rattle.ir_grammar.specs.Instructions as spec;

use crate::cursor::Cursor;
use ir_lexer::Kind;
use ir_tree::{Cast, Flags, IrType, Op, Predicate};
use ir_words::{
    Boxed, ExactWord, Flag, LineWord, Opcode, WrapWord, WrittenInst, WrittenIntType, WrittenLine,
    WrittenName, WrittenType, WrittenTyped, WrittenValue, exact_op, wrapping_op,
};
use token_forms::ReadFault;
use tv_num::Width;

const NO_FLAGS: Flags = Flags {
    nuw: false,
    nsw: false,
};

/// The type of a truth value.
pub fn one_bit() -> Width
    ensures { result ≡ one_bit }
{
    Width::of(1)
}

// Whether an operation divides, so that neither of its operands may be undef.
fn is_division(op: Op) -> bool
    ensures { result ≡ is_division op }
{
    match op {
        Op::UnsignedDiv { .. } | Op::UnsignedRem => true,
        Op::SignedDiv { .. } | Op::SignedRem => true,
        Op::Add(_) | Op::Sub(_) | Op::Mul(_) => false,
        Op::ShiftLeft(_) | Op::LogicalShiftRight { .. } | Op::ArithmeticShiftRight { .. } => false,
        Op::And | Op::Or { .. } | Op::Xor => false,
    }
}

fn is_undef(value: &WrittenValue) -> bool
    ensures { result ≡ spec.is_undef value.now }
{
    matches!(value, WrittenValue::Undef)
}

impl<'a, 'b> Cursor<'a, 'b> {
    // One more of nuw and nsw.
    fn wrap(&mut self, ordered: bool, flags: Flags) -> Option<Flags>
        ensures { begin_of true spec.is_wrap (spec.next_wrap ordered flags) any self.old ≡ reads result self.new }
    {
        let [first, rest @ ..] = self.left() else {
            return None;
        };
        let more = match (first.kind(), first.text()) {
            (Kind::Word, b"nuw") if !(flags.nuw || ordered && flags.nsw) => Flags {
                nuw: true,
                nsw: flags.nsw,
            },
            (Kind::Word, b"nsw") if !flags.nsw => Flags {
                nuw: flags.nuw,
                nsw: true,
            },
            _ => return None,
        };
        self.go_to(rest);
        Some(more)
    }

    fn wraps(&mut self, ordered: bool) -> Flags
        ensures { read true (spec.wraps ordered) self.old ≡ reads result self.new }
    {
        let mut flags = NO_FLAGS;
        while let Some(more) = self.wrap(ordered, flags) {
            flags = more;
        }
        flags
    }

    // Passes a flag, if it is next.
    fn flag(&mut self, flag: Flag) -> bool
        ensures { begin_of true any (as_word (flag_text flag)) any self.old ≡ reads (passed result) self.new }
    {
        match flag {
            Flag::Exact => self.eat_word(b"exact".as_slice()),
            Flag::Disjoint => self.eat_word(b"disjoint".as_slice()),
            Flag::NonNegative => self.eat_word(b"nneg".as_slice()),
            Flag::SameSign => self.eat_word(b"samesign".as_slice()),
        }
    }

    #[tactic(auto, unfolding(crate::specs::Instructions::flagged_type))]
    fn flagged_type(&mut self, flag: Flag) -> Result<(bool, WrittenIntType), ReadFault>
        ensures { Reads (λ x. x) result self.new (read true (spec.flagged_type flag) self.old) }
    {
        if self.flag(flag) {
            let of_type = self.int_type()?;
            return Ok((true, of_type));
        }
        let of_type = self.int_type()?;
        Ok((false, of_type))
    }

    #[tactic(auto, unfolding(crate::specs::Instructions::comparison))]
    fn comparison(&mut self) -> Result<(bool, Predicate), ReadFault>
        ensures { Reads (λ x. x) result self.new (read true spec.comparison self.old) }
    {
        if self.flag(Flag::SameSign) {
            let predicate = self.predicate()?;
            return Ok((true, predicate));
        }
        let predicate = self.predicate()?;
        Ok((false, predicate))
    }

    #[tactic(auto, unfolding(crate::specs::Instructions::typed))]
    fn typed(&mut self, undef_too: bool) -> Result<WrittenTyped, ReadFault>
        ensures { Reads (λ x. x) result self.new (read true (spec.typed undef_too) self.old) }
    {
        let of_type = self.value_type()?;
        let operand = self.operand(undef_too, of_type.of_type)?;
        Ok(WrittenTyped { of_type, operand })
    }

    #[tactic(auto, unfolding(crate::specs::Instructions::binary))]
    fn binary(
        &mut self,
        into: WrittenName,
        op: Op,
        of_type: WrittenIntType,
    ) -> Result<Boxed<WrittenInst>, ReadFault>
        ensures { Reads (λ x. x) result self.new (read true (spec.binary into op of_type) self.old) }
    {
        let undef_too = !is_division(op);
        let left = self.operand(undef_too, IrType::Int(of_type.width))?;
        self.mark(b",".as_slice())?;
        let right = self.operand(undef_too, IrType::Int(of_type.width))?;
        Ok(Boxed::new(
            self.alloc(),
            WrittenInst::Binary {
                into,
                op,
                of_type,
                left,
                right,
            },
        )?)
    }

    #[tactic(auto, unfolding(crate::specs::Instructions::wrapping))]
    fn wrapping(
        &mut self,
        into: WrittenName,
        word: WrapWord,
    ) -> Result<Boxed<WrittenInst>, ReadFault>
        ensures { Reads (λ x. x) result self.new (read true (spec.wrapping into word) self.old) }
    {
        let flags = self.wraps(false);
        let of_type = self.int_type()?;
        self.binary(into, wrapping_op(word, flags), of_type)
    }

    #[tactic(auto, unfolding(crate::specs::Instructions::exact))]
    fn exact(&mut self, into: WrittenName, word: ExactWord) -> Result<Boxed<WrittenInst>, ReadFault>
        ensures { Reads (λ x. x) result self.new (read true (spec.exact into word) self.old) }
    {
        let (exact, of_type) = self.flagged_type(Flag::Exact)?;
        self.binary(into, exact_op(word, exact), of_type)
    }

    #[tactic(auto, unfolding(crate::specs::Instructions::plain))]
    fn plain(&mut self, into: WrittenName, op: Op) -> Result<Boxed<WrittenInst>, ReadFault>
        ensures { Reads (λ x. x) result self.new (read true (spec.plain into op) self.old) }
    {
        let of_type = self.int_type()?;
        self.binary(into, op, of_type)
    }

    #[tactic(auto, unfolding(crate::specs::Instructions::disjunction))]
    fn disjunction(&mut self, into: WrittenName) -> Result<Boxed<WrittenInst>, ReadFault>
        ensures { Reads (λ x. x) result self.new (read true (spec.disjunction into) self.old) }
    {
        let (disjoint, of_type) = self.flagged_type(Flag::Disjoint)?;
        self.binary(into, Op::Or { disjoint }, of_type)
    }

    #[tactic(auto, unfolding(crate::specs::Instructions::icmp))]
    fn icmp(&mut self, into: WrittenName) -> Result<Boxed<WrittenInst>, ReadFault>
        ensures { Reads (λ x. x) result self.new (read true (spec.icmp into) self.old) }
    {
        let (same_sign, predicate) = self.comparison()?;
        let of_type = self.int_type()?;
        let left = self.operand(true, IrType::Int(of_type.width))?;
        self.mark(b",".as_slice())?;
        let right = self.operand(true, IrType::Int(of_type.width))?;
        Ok(Boxed::new(
            self.alloc(),
            WrittenInst::Icmp {
                into,
                predicate,
                same_sign,
                of_type,
                left,
                right,
            },
        )?)
    }

    #[tactic(auto, unfolding(crate::specs::Instructions::cast_by))]
    fn cast_by(
        &mut self,
        into: WrittenName,
        cast: Cast,
        from: WrittenIntType,
    ) -> Result<Boxed<WrittenInst>, ReadFault>
        ensures { Reads (λ x. x) result self.new (read true (spec.cast_by into cast from) self.old) }
    {
        let operand = self.operand(true, IrType::Int(from.width))?;
        self.word(b"to".as_slice())?;
        let to = self.int_type()?;
        Ok(Boxed::new(
            self.alloc(),
            WrittenInst::Cast {
                into,
                cast,
                from,
                operand,
                to,
            },
        )?)
    }

    #[tactic(auto, unfolding(crate::specs::Instructions::truncate))]
    fn truncate(&mut self, into: WrittenName) -> Result<Boxed<WrittenInst>, ReadFault>
        ensures { Reads (λ x. x) result self.new (read true (spec.truncate into) self.old) }
    {
        let flags = self.wraps(true);
        let from = self.int_type()?;
        self.cast_by(into, Cast::Truncate(flags), from)
    }

    #[tactic(auto, unfolding(crate::specs::Instructions::zero_extend))]
    fn zero_extend(&mut self, into: WrittenName) -> Result<Boxed<WrittenInst>, ReadFault>
        ensures { Reads (λ x. x) result self.new (read true (spec.zero_extend into) self.old) }
    {
        let (non_negative, from) = self.flagged_type(Flag::NonNegative)?;
        self.cast_by(into, Cast::ZeroExtend { non_negative }, from)
    }

    #[tactic(auto, unfolding(crate::specs::Instructions::sign_extend))]
    fn sign_extend(&mut self, into: WrittenName) -> Result<Boxed<WrittenInst>, ReadFault>
        ensures { Reads (λ x. x) result self.new (read true (spec.sign_extend into) self.old) }
    {
        let from = self.int_type()?;
        self.cast_by(into, Cast::SignExtend, from)
    }

    // The type of an arm of a select, an integer type where it has to be one.
    fn arm_type(&mut self, of_integer: bool) -> Result<WrittenType, ReadFault>
        ensures { Reads (λ x. x) result self.new (read true (spec.arm_type of_integer) self.old) }
    {
        if !of_integer {
            return self.value_type();
        }
        let found = self.int_type()?;
        let of_type = IrType::Int(found.width);
        Ok(WrittenType {
            of_type,
            at: found.at,
        })
    }

    // An arm of a select, where only an integer is undef.
    #[tactic(auto, unfolding(crate::specs::Instructions::arm))]
    fn arm(&mut self, of_integer: bool) -> Result<WrittenTyped, ReadFault>
        ensures { Reads (λ x. x) result self.new (read true (spec.arm of_integer) self.old) }
    {
        let of_type = self.arm_type(of_integer)?;
        let undef_too = of_type.of_type != IrType::Ptr;
        let operand = self.operand(undef_too, of_type.of_type)?;
        Ok(WrittenTyped { of_type, operand })
    }

    #[tactic(auto, unfolding(crate::specs::Instructions::select))]
    fn select(&mut self, into: WrittenName) -> Result<Boxed<WrittenInst>, ReadFault>
        ensures { Reads (λ x. x) result self.new (read true (spec.select into) self.old) }
    {
        let bit = self.bit_type()?;
        let condition = self.operand(true, IrType::Int(one_bit()))?;
        let of_integers = is_undef(&condition.value);
        self.mark(b",".as_slice())?;
        let if_true = Boxed::new(self.alloc(), self.arm(of_integers)?)?;
        self.mark(b",".as_slice())?;
        let if_false = Boxed::new(self.alloc(), self.arm(of_integers)?)?;
        Ok(Boxed::new(
            self.alloc(),
            WrittenInst::Select {
                into,
                bit,
                condition,
                if_true,
                if_false,
            },
        )?)
    }

    #[tactic(auto, unfolding(crate::specs::Instructions::freeze))]
    fn freeze(&mut self, into: WrittenName) -> Result<Boxed<WrittenInst>, ReadFault>
        ensures { Reads (λ x. x) result self.new (read true (spec.freeze into) self.old) }
    {
        let value = self.typed(true)?;
        Ok(Boxed::new(self.alloc(), WrittenInst::Freeze { into, value })?)
    }

    // What follows the word of an instruction.
    fn inst_by(
        &mut self,
        into: WrittenName,
        opcode: Opcode,
    ) -> Result<Boxed<WrittenInst>, ReadFault>
        ensures { Reads (λ x. x) result self.new (read true (spec.inst_by into opcode) self.old) }
    {
        match opcode {
            Opcode::Wrapping(word) => self.wrapping(into, word),
            Opcode::Exact(word) => self.exact(into, word),
            Opcode::Plain(op) => self.plain(into, op),
            Opcode::Or => self.disjunction(into),
            Opcode::Icmp => self.icmp(into),
            Opcode::Truncate => self.truncate(into),
            Opcode::ZeroExtend => self.zero_extend(into),
            Opcode::SignExtend => self.sign_extend(into),
            Opcode::Select => self.select(into),
            Opcode::Freeze => self.freeze(into),
        }
    }

    #[tactic(auto, unfolding(crate::specs::Instructions::inst_line))]
    fn inst_line(&mut self, into: WrittenName, opcode: Opcode) -> Result<WrittenLine, ReadFault>
        ensures { Reads (λ x. x) result self.new (read true (spec.inst_line into opcode) self.old) }
    {
        let inst = self.inst_by(into, opcode)?;
        Ok(WrittenLine::Inst(inst))
    }

    fn line_by(
        &mut self,
        number: usize,
        into: WrittenName,
        word: LineWord,
    ) -> Result<WrittenLine, ReadFault>
        ensures { Reads (λ x. x) result self.new (read true (spec.line_by number into word) self.old) }
    {
        match word {
            LineWord::Phi => self.phi(into),
            LineWord::Alloca => self.alloca(into, number),
            LineWord::Load => self.load(into),
            LineWord::GetElementPtr => self.gep(into),
            LineWord::Inst(opcode) => self.inst_line(into, opcode),
        }
    }

    /// Reads an instruction after its result's name, which may be a phi where one is allowed. The
    /// number is the instruction's own among those of the function.
    #[tactic(auto, unfolding(crate::specs::Instructions::line_named))]
    pub fn line_named(
        &mut self,
        phi_too: bool,
        number: usize,
        into: WrittenName,
    ) -> Result<WrittenLine, ReadFault>
        ensures { Reads (λ x. x) result self.new (read true (spec.line_named phi_too number into) self.old) }
    {
        self.mark(b"=".as_slice())?;
        let word = self.line_word(phi_too)?;
        self.line_by(number, into, word)
    }
}
