// Reading one token.
ghost use Rattle.std.specs.Prelude.{◌≡◌, [], true, codes};
ghost use Rattle.token_forms.specs.Form.{one_of, token_of, begin_of, reads, read, balanced};
ghost use Rattle.token_forms.specs.Answer.{Reads, Passes};
ghost use Rattle.ir_words.specs.Reasons.{reason, type_reason};
ghost use Rattle.ir_grammar.specs.Classes.{as_word, as_mark, any, passed, brace, local, global, int_type, counted_type, value_type, bit_type, return_type, operand_class, literal_class, line_word, terminator_word, predicate_class};

use ir_items::name_behind_sign;
use ir_lexer::{Kind, Token};
use ir_tree::{IrType, Predicate, Reason};
use ir_words::{
    LineWord, TerminatorWord, WrittenIntType, WrittenLiteral, WrittenName, WrittenOperand,
    WrittenReturnType, WrittenType, WrittenValue, is_mark, is_void, is_word, line_word_of, literal,
    predicate_of, reason_at, terminator_of, truth_value, type_in, type_reason_at, width_in,
    word_value,
};
use std::alloc::Global;
use std::marker::Model;
use support::Sequence;
use text_places::Place;
use token_forms::{Bracket, ReadFault, pass_bracket};
use tv_num::Width;

/// The tokens that are left to read. Contracts see them as a list.
#[derive(Drop)]
pub struct Cursor<'a, 'b> {
    alloc: Global,
    rest: &'b [Token<'a>],
}

impl<'a, 'b> Model for Cursor<'a, 'b> {
    ghost use Rattle.std.specs.Prelude.{List};
    ghost use Rattle.ir_lexer.specs.Lexeme.{Lexeme};

    ghost Value = { List Lexeme };

    ghost view = { λ r. r.rest.now };
}

impl<'a, 'b> Cursor<'a, 'b> {
    /// A cursor before these tokens; what is read takes its memory from the allocator.
    pub fn new(alloc: Global, tokens: &'b [Token<'a>]) -> Self
        ensures { result ≡ tokens.now }
    {
        Cursor {
            alloc,
            rest: tokens,
        }
    }

    /// The allocator of what is read.
    pub fn alloc(&self) -> Global {
        self.alloc
    }

    /// An empty list. It takes no memory.
    pub fn no_items<T>(&self) -> Sequence<T>
        ensures { result ≡ [] }
    {
        Sequence::from_vec(Vec::new(self.alloc))
    }

    /// What is left.
    pub fn left(&self) -> &'b [Token<'a>]
        ensures { result.now ≡ self.now }
    {
        self.rest
    }

    /// Continues at these tokens.
    pub fn go_to(&mut self, rest: &'b [Token<'a>])
        ensures { self.new ≡ rest.now }
    {
        self.rest = rest;
    }

    /// Passes a word.
    pub fn word(&mut self, text: &[u8]) -> Result<(), ReadFault>
        ensures { Passes result self.new (token_of true (as_word text.now) any reason self.old) }
    {
        let [first, rest @ ..] = self.rest else {
            return Err(ReadFault::Unfit(Reason::Syntax));
        };
        if is_word(first, text) {
            self.rest = rest;
            Ok(())
        } else {
            Err(ReadFault::Unfit(reason_at(first)))
        }
    }

    /// Passes a mark.
    pub fn mark(&mut self, text: &[u8]) -> Result<(), ReadFault>
        ensures { Passes result self.new (token_of true (as_mark text.now) any reason self.old) }
    {
        let [first, rest @ ..] = self.rest else {
            return Err(ReadFault::Unfit(Reason::Syntax));
        };
        if is_mark(first, text) {
            self.rest = rest;
            Ok(())
        } else {
            Err(ReadFault::Unfit(reason_at(first)))
        }
    }

    /// Passes a mark where a type could be.
    pub fn mark_or_type(&mut self, text: &[u8]) -> Result<(), ReadFault>
        ensures { Passes result self.new (token_of true (as_mark text.now) any type_reason self.old) }
    {
        let [first, rest @ ..] = self.rest else {
            return Err(ReadFault::Unfit(Reason::Syntax));
        };
        if is_mark(first, text) {
            self.rest = rest;
            Ok(())
        } else {
            Err(ReadFault::Unfit(type_reason_at(first)))
        }
    }

    /// Passes the mark that opens a body, and returns its position.
    pub fn brace(&mut self) -> Result<Place, ReadFault>
        ensures { Reads (λ x. x) result self.new (one_of true brace self.old) }
    {
        let [first, rest @ ..] = self.rest else {
            return Err(ReadFault::Unfit(Reason::Syntax));
        };
        if is_mark(first, b"{".as_slice()) {
            self.rest = rest;
            Ok(first.place())
        } else {
            Err(ReadFault::Unfit(reason_at(first)))
        }
    }

    /// Passes what is inside a bracket that was opened, and the mark that closes it.
    pub fn bracket(&mut self, bracket: Bracket) -> Result<(), ReadFault>
        ensures { Passes result self.new (read true (balanced bracket) self.old) }
    {
        pass_bracket(self.alloc, bracket, &mut self.rest)
    }

    /// Passes a mark, if it is next.
    pub fn eat_mark(&mut self, text: &[u8]) -> bool
        ensures { begin_of true any (as_mark text.now) any self.old ≡ reads (passed result) self.new }
    {
        let [first, rest @ ..] = self.rest else {
            return false;
        };
        if is_mark(first, text) {
            self.rest = rest;
            return true;
        }
        false
    }

    /// Passes a mark, if it is next, where there is room for what it begins.
    pub fn eat_counted_mark(&mut self, text: &[u8], room: bool) -> Result<bool, ReadFault>
        ensures { Reads passed result self.new (begin_of true any (as_mark text.now) (λ t. room) self.old) }
    {
        let [first, rest @ ..] = self.rest else {
            return Ok(false);
        };
        if !is_mark(first, text) {
            return Ok(false);
        }
        if !room {
            return Err(ReadFault::PastLimit);
        }
        self.rest = rest;
        Ok(true)
    }

    /// Passes a word, if it is next.
    pub fn eat_word(&mut self, text: &[u8]) -> bool
        ensures { begin_of true any (as_word text.now) any self.old ≡ reads (passed result) self.new }
    {
        let [first, rest @ ..] = self.rest else {
            return false;
        };
        if is_word(first, text) {
            self.rest = rest;
            return true;
        }
        false
    }

    /// Reads a local name.
    pub fn local(&mut self) -> Result<WrittenName, ReadFault>
        ensures { Reads (λ x. x) result self.new (one_of true local self.old) }
    {
        let [first, rest @ ..] = self.rest else {
            return Err(ReadFault::Unfit(Reason::Syntax));
        };
        if first.kind() != Kind::Local {
            return Err(ReadFault::Unfit(reason_at(first)));
        }
        let name = name_behind_sign(self.alloc, first.text())?;
        self.rest = rest;
        let at = first.place();
        Ok(WrittenName { name, at })
    }

    /// Reads a global name.
    pub fn global(&mut self) -> Result<WrittenName, ReadFault>
        ensures { Reads (λ x. x) result self.new (one_of true global self.old) }
    {
        let [first, rest @ ..] = self.rest else {
            return Err(ReadFault::Unfit(Reason::Syntax));
        };
        if first.kind() != Kind::Global {
            return Err(ReadFault::Unfit(reason_at(first)));
        }
        let name = name_behind_sign(self.alloc, first.text())?;
        self.rest = rest;
        let at = first.place();
        Ok(WrittenName { name, at })
    }

    /// Reads an integer type.
    pub fn int_type(&mut self) -> Result<WrittenIntType, ReadFault>
        ensures { Reads (λ x. x) result self.new (one_of true int_type self.old) }
    {
        let [first, rest @ ..] = self.rest else {
            return Err(ReadFault::Unfit(Reason::Syntax));
        };
        match width_in(first) {
            None => Err(ReadFault::Unfit(type_reason_at(first))),
            Some(None) => Err(ReadFault::PastLimit),
            Some(Some(width)) => {
                self.rest = rest;
                let at = first.place();
                Ok(WrittenIntType { width, at })
            }
        }
    }

    /// Reads a type of a value.
    pub fn value_type(&mut self) -> Result<WrittenType, ReadFault>
        ensures { Reads (λ x. x) result self.new (one_of true value_type self.old) }
    {
        self.counted_type(true)
    }

    /// Reads a type of a value, where there is room for one more of what it is counted as.
    pub fn counted_type(&mut self, room: bool) -> Result<WrittenType, ReadFault>
        ensures { Reads (λ x. x) result self.new (one_of true (counted_type room) self.old) }
    {
        let [first, rest @ ..] = self.rest else {
            return Err(ReadFault::Unfit(Reason::Syntax));
        };
        let Some(found) = type_in(first) else {
            return Err(ReadFault::Unfit(type_reason_at(first)));
        };
        let Some(of_type) = found else {
            return Err(ReadFault::PastLimit);
        };
        if !room {
            return Err(ReadFault::PastLimit);
        }
        self.rest = rest;
        let at = first.place();
        Ok(WrittenType { of_type, at })
    }

    /// Passes the type of one bit, and returns its position.
    pub fn bit_type(&mut self) -> Result<Place, ReadFault>
        ensures { Reads (λ x. x) result self.new (one_of true bit_type self.old) }
    {
        let [first, rest @ ..] = self.rest else {
            return Err(ReadFault::Unfit(Reason::Syntax));
        };
        match width_in(first) {
            None => Err(ReadFault::Unfit(type_reason_at(first))),
            Some(None) => Err(ReadFault::Unfit(Reason::Limit)),
            Some(Some(width)) => {
                if width.bits() != 1 {
                    return Err(ReadFault::Unfit(type_reason_at(first)));
                }
                self.rest = rest;
                Ok(first.place())
            }
        }
    }

    /// Reads `void` or a type of a value.
    pub fn return_type(&mut self) -> Result<WrittenReturnType, ReadFault>
        ensures { Reads (λ x. x) result self.new (one_of true return_type self.old) }
    {
        let [first, rest @ ..] = self.rest else {
            return Err(ReadFault::Unfit(Reason::Syntax));
        };
        let at = first.place();
        if is_void(first) {
            self.rest = rest;
            return Ok(WrittenReturnType { of_type: None, at });
        }
        let Some(found) = type_in(first) else {
            return Err(ReadFault::Unfit(type_reason_at(first)));
        };
        if found.is_none() {
            return Err(ReadFault::PastLimit);
        }
        self.rest = rest;
        Ok(WrittenReturnType { of_type: found, at })
    }

    /// Reads an operand of a type, `undef` only where it is allowed.
    pub fn operand(&mut self, undef_too: bool, of_type: IrType) -> Result<WrittenOperand, ReadFault>
        ensures { Reads (λ x. x) result self.new (one_of true (operand_class undef_too of_type) self.old) }
    {
        let [first, rest @ ..] = self.rest else {
            return Err(ReadFault::Unfit(Reason::Syntax));
        };
        let value = match (first.kind(), first.text()) {
            (Kind::Local, text) => WrittenValue::Local(name_behind_sign(self.alloc, text)?),
            (Kind::Number, text) => match of_type {
                IrType::Int(width) => match literal(width, text) {
                    Some(value) => WrittenValue::Literal(value),
                    None => return Err(ReadFault::PastLimit),
                },
                IrType::Ptr => return Err(ReadFault::Unfit(reason_at(first))),
            },
            (Kind::Word, text) => match word_value(undef_too, of_type, text) {
                Some(value) => value,
                None => return Err(ReadFault::Unfit(reason_at(first))),
            },
            _ => return Err(ReadFault::Unfit(reason_at(first))),
        };
        self.rest = rest;
        let at = first.place();
        Ok(WrittenOperand { value, at })
    }

    /// Reads a literal of a type.
    pub fn literal(&mut self, width: Width) -> Result<WrittenLiteral, ReadFault>
        ensures { Reads (λ x. x) result self.new (one_of true (literal_class width) self.old) }
    {
        let [first, rest @ ..] = self.rest else {
            return Err(ReadFault::Unfit(Reason::Syntax));
        };
        let value = match (first.kind(), first.text()) {
            (Kind::Number, text) => match literal(width, text) {
                Some(value) => value,
                None => return Err(ReadFault::PastLimit),
            },
            (Kind::Word, text) => match truth_value(width, text) {
                Some(value) => value,
                None => return Err(ReadFault::Unfit(reason_at(first))),
            },
            _ => return Err(ReadFault::Unfit(reason_at(first))),
        };
        self.rest = rest;
        let at = first.place();
        Ok(WrittenLiteral { value, at })
    }

    /// Reads the word that names an instruction after its result, a phi only where one is allowed.
    pub fn line_word(&mut self, phi_too: bool) -> Result<LineWord, ReadFault>
        ensures { Reads (λ x. x) result self.new (one_of true (line_word phi_too) self.old) }
    {
        let [first, rest @ ..] = self.rest else {
            return Err(ReadFault::Unfit(Reason::Syntax));
        };
        let Some(word) = line_word_of(first, phi_too) else {
            return Err(ReadFault::Unfit(reason_at(first)));
        };
        self.rest = rest;
        Ok(word)
    }

    /// Reads the word that names the last instruction of a block, where there is room for it.
    pub fn terminator_word(&mut self, room: bool) -> Result<TerminatorWord, ReadFault>
        ensures { Reads (λ x. x) result self.new (one_of true (terminator_word room) self.old) }
    {
        let [first, rest @ ..] = self.rest else {
            return Err(ReadFault::Unfit(Reason::Syntax));
        };
        let Some(word) = terminator_of(first) else {
            return Err(ReadFault::Unfit(reason_at(first)));
        };
        if !room {
            return Err(ReadFault::PastLimit);
        }
        self.rest = rest;
        Ok(word)
    }

    /// Reads the word that names a comparison.
    pub fn predicate(&mut self) -> Result<Predicate, ReadFault>
        ensures { Reads (λ x. x) result self.new (one_of true predicate_class self.old) }
    {
        let [first, rest @ ..] = self.rest else {
            return Err(ReadFault::Unfit(Reason::Syntax));
        };
        let Some(predicate) = predicate_of(first) else {
            return Err(ReadFault::Unfit(reason_at(first)));
        };
        self.rest = rest;
        Ok(predicate)
    }
}
