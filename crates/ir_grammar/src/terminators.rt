// Reading the last instruction of a block, after its word.
ghost use Rattle.std.specs.Prelude.{◌≡◌, ◌&&◌, true};
ghost use Rattle.token_forms.specs.Form.{reads, read, begin_of, step_of};
ghost use Rattle.token_forms.specs.Answer.{Reads};
ghost use Rattle.ir_words.specs.Spelling.{width_in, int_typed_at, is_width};
ghost use Rattle.ir_grammar.specs.Grammar as spec;
ghost use Rattle.ir_grammar.specs.Grammar.{is_type, case_begins, case_within, with_case};

use crate::cursor::Cursor;
use crate::instructions::one_bit;
use crate::lists::pushed;
use ir_tree::IrType;
use ir_words::{
    TerminatorWord, WrittenCase, WrittenIntType, WrittenName, WrittenReturn, WrittenReturnType,
    WrittenTerminator, WrittenType, WrittenTyped, width_in,
};
use support::Sequence;
use text_places::Place;
use token_forms::ReadFault;

/// The greatest number of cases of a switch.
const MOST_CASES: usize = 256;

impl<'a, 'b> Cursor<'a, 'b> {
    fn returned_by(
        &mut self,
        of_type: Option<IrType>,
        at: Place,
    ) -> Result<WrittenReturn, ReadFault>
        ensures { Reads (λ x. x) result self.new (read true (spec.returned_by of_type at) self.old) }
    {
        match of_type {
            None => Ok(WrittenReturn::Void(at)),
            Some(of_type) => {
                let operand = self.operand(true, of_type)?;
                let of_type = WrittenType { of_type, at };
                Ok(WrittenReturn::Value(WrittenTyped { of_type, operand }))
            }
        }
    }

    #[tactic(auto, unfolding(crate::specs::Grammar::returned))]
    fn returned(&mut self) -> Result<WrittenReturn, ReadFault>
        ensures { Reads (λ x. x) result self.new (read true spec.returned self.old) }
    {
        let WrittenReturnType { of_type, at } = self.return_type()?;
        self.returned_by(of_type, at)
    }

    #[tactic(auto, unfolding(crate::specs::Grammar::return_of))]
    fn return_of(&mut self) -> Result<WrittenTerminator, ReadFault>
        ensures { Reads (λ x. x) result self.new (read true spec.return_of self.old) }
    {
        let returned = self.returned()?;
        Ok(WrittenTerminator::Return(returned))
    }

    // Reads the label that a jump leads to, its word first.
    #[tactic(auto, unfolding(crate::specs::Grammar::target))]
    fn target(&mut self) -> Result<WrittenName, ReadFault>
        ensures { Reads (λ x. x) result self.new (read true spec.target self.old) }
    {
        self.word(b"label".as_slice())?;
        self.local()
    }

    #[tactic(auto, unfolding(crate::specs::Grammar::cond_branch))]
    fn cond_branch(&mut self, bit: Place) -> Result<WrittenTerminator, ReadFault>
        ensures { Reads (λ x. x) result self.new (read true (spec.cond_branch bit) self.old) }
    {
        let condition = self.operand(false, IrType::Int(one_bit()))?;
        self.mark(b",".as_slice())?;
        let if_true = self.target()?;
        self.mark(b",".as_slice())?;
        let if_false = self.target()?;
        Ok(WrittenTerminator::CondBranch {
            bit,
            condition,
            if_true,
            if_false,
        })
    }

    #[tactic(auto, unfolding(crate::specs::Grammar::branch_to))]
    fn branch_to(&mut self) -> Result<WrittenTerminator, ReadFault>
        ensures { Reads (λ x. x) result self.new (read true spec.branch_to self.old) }
    {
        let to = self.local()?;
        Ok(WrittenTerminator::Branch(to))
    }

    #[tactic(auto, unfolding(crate::specs::Grammar::branch))]
    fn branch(&mut self) -> Result<WrittenTerminator, ReadFault>
        ensures { Reads (λ x. x) result self.new (read true spec.branch self.old) }
    {
        if self.eat_word(b"label".as_slice()) {
            return self.branch_to();
        }
        let bit = self.bit_type()?;
        self.cond_branch(bit)
    }

    // Reads the type that begins a case, if one is next; where there is room for the case.
    fn case_type(&mut self, room: bool) -> Result<Option<WrittenIntType>, ReadFault>
        ensures { Reads (λ x. x) result self.new (begin_of true is_type (λ t. int_typed_at (width_in t) t.place) (λ t. room && is_width (width_in t)) self.old) }
    {
        let [first, rest @ ..] = self.left() else {
            return Ok(None);
        };
        match width_in(first) {
            None => Ok(None),
            Some(None) => Err(ReadFault::PastLimit),
            Some(Some(width)) => {
                if !room {
                    return Err(ReadFault::PastLimit);
                }
                self.go_to(rest);
                let at = first.place();
                Ok(Some(WrittenIntType { width, at }))
            }
        }
    }

    #[tactic(auto, unfolding(crate::specs::Grammar::with_case))]
    fn with_case(
        &mut self,
        so_far: Sequence<WrittenCase>,
        of_type: WrittenIntType,
    ) -> Result<Sequence<WrittenCase>, ReadFault>
        ensures { Reads (λ x. x) result self.new (read true (with_case so_far of_type) self.old) }
    {
        let literal = self.literal(of_type.width)?;
        self.mark(b",".as_slice())?;
        let to = self.target()?;
        pushed(
            so_far,
            WrittenCase {
                of_type,
                literal,
                to,
            },
        )
    }

    // One more case, if one begins here, and whether one did.
    fn one_case(
        &mut self,
        so_far: Sequence<WrittenCase>,
    ) -> Result<(Sequence<WrittenCase>, bool), ReadFault>
        ensures { Reads (λ x. x) result self.new (step_of is_type case_begins case_within (λ s a ts. read true (with_case s a) ts) so_far self.old) }
    {
        let room = so_far.len() < MOST_CASES;
        match self.case_type(room)? {
            None => Ok((so_far, false)),
            Some(of_type) => Ok((self.with_case(so_far, of_type)?, true)),
        }
    }

    // Reads cases, as long as one begins.
    fn cases(&mut self) -> Result<Sequence<WrittenCase>, ReadFault>
        ensures { Reads (λ x. x) result self.new (read true spec.cases self.old) }
    {
        let mut so_far = self.no_items();
        loop {
            let (next, is_more) = self.one_case(so_far)?;
            so_far = next;
            if !is_more {
                return Ok(so_far);
            }
        }
    }

    #[tactic(auto, unfolding(crate::specs::Grammar::switch))]
    fn switch(&mut self) -> Result<WrittenTerminator, ReadFault>
        ensures { Reads (λ x. x) result self.new (read true spec.switch self.old) }
    {
        let of_type = self.int_type()?;
        let operand = self.operand(false, IrType::Int(of_type.width))?;
        self.mark(b",".as_slice())?;
        let default = self.target()?;
        self.mark(b"[".as_slice())?;
        let cases = self.cases()?;
        self.mark_or_type(b"]".as_slice()).and(Ok(WrittenTerminator::Switch {
            of_type,
            operand,
            default,
            cases,
        }))
    }

    /// Reads what follows the word of a block's last instruction, up to its attachments.
    pub fn terminator_by(&mut self, word: TerminatorWord) -> Result<WrittenTerminator, ReadFault>
        ensures { Reads (λ x. x) result self.new (read true (spec.terminator_by word) self.old) }
    {
        match word {
            TerminatorWord::Return => self.return_of(),
            TerminatorWord::Branch => self.branch(),
            TerminatorWord::Switch => self.switch(),
            TerminatorWord::Unreachable => Ok(WrittenTerminator::Unreachable),
        }
    }
}
