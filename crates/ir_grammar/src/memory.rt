// Reading instructions on memory.
ghost use Rattle.std.specs.Prelude.{◌≡◌, true};
ghost use Rattle.token_forms.specs.Form.{read, one_of, begin_of};
ghost use Rattle.ir_grammar.specs.Classes.{any};
ghost use Rattle.ir_words.specs.Spelling.{width_in, int_typed_at, is_width};
ghost use Rattle.token_forms.specs.Answer.{Reads, Passes};
ghost use Rattle.ir_grammar.specs.Classes as class;
ghost use Rattle.ir_grammar.specs.Instructions as spec;

use crate::cursor::Cursor;
use crate::lines::is_attached;
use crate::lists::pushed;
use ir_lexer::Kind;
use ir_tree::{IrType, Reason, type_align};
use ir_words::{
    Boxed, WrittenAccess, WrittenGep, WrittenIndex, WrittenInst, WrittenIntType, WrittenLine,
    WrittenName, WrittenType, WrittenTyped, alignment, is_pointer, reason_at, type_reason_at,
    width_in, width_reason_at,
};
use token_forms::ReadFault;

/// The alignment of an instruction where none is written: that of its type, or of the type's
/// innermost element.
pub fn default_align(access: &WrittenAccess) -> u64
    ensures { result ≡ spec.default_align access.now }
{
    match access {
        WrittenAccess::Alloca { of_type, .. } => type_align(of_type.of_type.element),
        WrittenAccess::Load { of_type, .. } => type_align(of_type.of_type),
        WrittenAccess::Store { value, .. } => type_align(value.of_type.of_type),
    }
}

impl<'a, 'b> Cursor<'a, 'b> {
    fn pointer_type(&mut self) -> Result<WrittenType, ReadFault>
        ensures { Reads (λ x. x) result self.new (one_of true class.pointer_type self.old) }
    {
        let [first, rest @ ..] = self.left() else {
            return Err(ReadFault::Unfit(Reason::Syntax));
        };
        if !is_pointer(first) {
            return Err(ReadFault::Unfit(width_reason_at(first)));
        }
        self.go_to(rest);
        let at = first.place();
        let of_type = IrType::Ptr;
        Ok(WrittenType { of_type, at })
    }

    // Reads a pointer after its type.
    #[tactic(auto, unfolding(crate::specs::Instructions::pointer))]
    fn pointer(&mut self) -> Result<WrittenTyped, ReadFault>
        ensures { Reads (λ x. x) result self.new (read true spec.pointer self.old) }
    {
        let of_type = self.pointer_type()?;
        let operand = self.operand(false, of_type.of_type)?;
        Ok(WrittenTyped { of_type, operand })
    }

    /// Reads an alloca after its word; the number is its own among the function's instructions.
    #[tactic(auto, unfolding(crate::specs::Instructions::alloca))]
    pub fn alloca(&mut self, into: WrittenName, number: usize) -> Result<WrittenLine, ReadFault>
        ensures { Reads (λ x. x) result self.new (read true (spec.alloca into number) self.old) }
    {
        let of_type = self.alloca_object()?;
        let access = WrittenAccess::Alloca {
            into,
            number,
            of_type,
        };
        Ok(WrittenLine::Access(Boxed::new(self.alloc(), access)?))
    }

    /// Reads a load after its word.
    #[tactic(auto, unfolding(crate::specs::Instructions::load))]
    pub fn load(&mut self, into: WrittenName) -> Result<WrittenLine, ReadFault>
        ensures { Reads (λ x. x) result self.new (read true (spec.load into) self.old) }
    {
        let of_type = self.value_type()?;
        self.mark(b",".as_slice())?;
        let pointer = self.pointer()?;
        let access = WrittenAccess::Load {
            into,
            of_type,
            pointer,
        };
        Ok(WrittenLine::Access(Boxed::new(self.alloc(), access)?))
    }

    /// Reads a store after its word.
    #[tactic(auto, unfolding(crate::specs::Instructions::store))]
    pub fn store(&mut self) -> Result<WrittenLine, ReadFault>
        ensures { Reads (λ x. x) result self.new (read true spec.store self.old) }
    {
        let of_type = self.value_type()?;
        let operand = self.operand(false, of_type.of_type)?;
        self.mark(b",".as_slice())?;
        let pointer = self.pointer()?;
        let value = WrittenTyped { of_type, operand };
        let access = WrittenAccess::Store { value, pointer };
        Ok(WrittenLine::Access(Boxed::new(self.alloc(), access)?))
    }

    /// Reads a getelementptr after its word, up to its first index.
    #[tactic(auto, unfolding(crate::specs::Instructions::gep))]
    pub fn gep(&mut self, into: WrittenName) -> Result<WrittenLine, ReadFault>
        ensures { Reads (λ x. x) result self.new (read true (spec.gep into) self.old) }
    {
        let (flags, of_type) = self.gep_object()?;
        let of_type = Boxed::new(self.alloc(), of_type)?;
        self.mark(b",".as_slice())?;
        let base = Boxed::new(self.alloc(), self.pointer()?)?;
        Ok(WrittenLine::Indices(WrittenGep {
            into,
            flags,
            of_type,
            base,
            indices: self.no_items(),
        }))
    }

    fn alignment(&mut self) -> Result<u64, ReadFault>
        ensures { Reads (λ x. x) result self.new (one_of true class.alignment self.old) }
    {
        let [first, rest @ ..] = self.left() else {
            return Err(ReadFault::Unfit(Reason::Syntax));
        };
        if first.kind() != Kind::Number {
            return Err(ReadFault::Unfit(reason_at(first)));
        }
        let Some(align) = alignment(first.text()) else {
            return Err(ReadFault::PastLimit);
        };
        self.go_to(rest);
        Ok(align)
    }

    #[tactic(auto, unfolding(crate::specs::Instructions::aligned))]
    fn aligned(&mut self, access: Boxed<WrittenAccess>) -> Result<WrittenLine, ReadFault>
        ensures { Reads (λ x. x) result self.new (read true (spec.aligned access) self.old) }
    {
        let align = self.alignment()?;
        let inst = Boxed::new(self.alloc(), WrittenInst::Access { access, align })?;
        Ok(WrittenLine::Inst(inst))
    }

    /// Passes the number of a line's first attachment, after its word.
    #[tactic(auto, unfolding(crate::specs::Instructions::attached))]
    pub fn attached(&mut self, line: WrittenLine) -> Result<WrittenLine, ReadFault>
        ensures { Reads (λ x. x) result self.new (read true (spec.attached line) self.old) }
    {
        self.metadata_number().and(Ok(line))
    }

    /// Reads what follows a comma where an alignment is allowed: that, or an attachment.
    #[tactic(auto, unfolding(crate::specs::Instructions::align_or_attachment))]
    pub fn align_or_attachment(
        &mut self,
        access: Boxed<WrittenAccess>,
    ) -> Result<WrittenLine, ReadFault>
        ensures { Reads (λ x. x) result self.new (read true (spec.align_or_attachment access) self.old) }
    {
        if self.eat_word(b"align".as_slice()) {
            return self.aligned(access);
        }
        self.attachment_word()?;
        let align = default_align(access.get());
        let inst = Boxed::new(self.alloc(), WrittenInst::Access { access, align })?;
        self.attached(WrittenLine::Inst(inst))
    }

    // Reads the type of an index, if one is next.
    fn index_type(&mut self) -> Result<Option<WrittenIntType>, ReadFault>
        ensures { Reads (λ x. x) result self.new (begin_of true any (λ t. int_typed_at (width_in t) t.place) (λ t. is_width (width_in t)) self.old) }
    {
        let [first, rest @ ..] = self.left() else {
            return Ok(None);
        };
        match width_in(first) {
            None => Ok(None),
            Some(None) => Err(ReadFault::PastLimit),
            Some(Some(width)) => {
                self.go_to(rest);
                let at = first.place();
                Ok(Some(WrittenIntType { width, at }))
            }
        }
    }

    #[tactic(auto, unfolding(crate::specs::Instructions::next_index))]
    fn next_index(
        &mut self,
        gep: WrittenGep,
        of_type: WrittenIntType,
    ) -> Result<WrittenLine, ReadFault>
        ensures { Reads (λ x. x) result self.new (read true (spec.next_index gep of_type) self.old) }
    {
        let WrittenGep {
            into,
            flags,
            of_type: object,
            base,
            indices,
        } = gep;
        let operand = self.operand(false, IrType::Int(of_type.width))?;
        let indices = pushed(indices, WrittenIndex { of_type, operand })?;
        Ok(WrittenLine::Indices(WrittenGep {
            into,
            flags,
            of_type: object,
            base,
            indices,
        }))
    }

    // Passes the word of an attachment where a type could be.
    fn attachment_or_type(&mut self) -> Result<(), ReadFault>
        ensures { Passes result self.new (one_of true class.attachment_or_type self.old) }
    {
        let [first, rest @ ..] = self.left() else {
            return Err(ReadFault::Unfit(Reason::Syntax));
        };
        if first.kind() == Kind::Metadata && is_attached(first.text()) {
            self.go_to(rest);
            Ok(())
        } else {
            Err(ReadFault::Unfit(type_reason_at(first)))
        }
    }

    /// Reads what follows a comma where an index is allowed: that, or an attachment.
    #[tactic(auto, unfolding(crate::specs::Instructions::index_or_attachment))]
    pub fn index_or_attachment(&mut self, gep: WrittenGep) -> Result<WrittenLine, ReadFault>
        ensures { Reads (λ x. x) result self.new (read true (spec.index_or_attachment gep) self.old) }
    {
        if let Some(of_type) = self.index_type()? {
            return self.next_index(gep, of_type);
        }
        self.attachment_or_type()?;
        let inst = Boxed::new(self.alloc(), WrittenInst::GetElementPtr(gep))?;
        self.attached(WrittenLine::Inst(inst))
    }
}
