// Reading the parameters of a function.
ghost use Rattle.std.specs.Prelude.{◌≡◌, ◌++◌, ◌∷◌, [], true, is_some};
ghost use Rattle.token_forms.specs.Form.{reads, read, begin_of, step_of};
ghost use Rattle.token_forms.specs.Answer.{Reads};
ghost use Rattle.ir_words.specs.Spelling as spelling;
ghost use Rattle.ir_grammar.specs.Classes.{any};
ghost use Rattle.ir_grammar.specs.Grammar as spec;
ghost use Rattle.ir_grammar.specs.Grammar.{follows_parameter, parameter_begins, new_parameter, with_part};

use crate::cursor::Cursor;
use crate::lists::pushed;
use ir_items::name_behind_sign;
use ir_lexer::{Kind, Token};
use ir_tree::IrType;
use ir_words::{
    ParameterPart, WrittenName, WrittenParameter, WrittenParameters, WrittenType, is_spelled,
};
use std::alloc::Global;
use support::Sequence;
use token_forms::ReadFault;

/// The greatest number of parameters.
const MOST_PARAMETERS: usize = 16;

fn new_parameter(of_type: WrittenType) -> WrittenParameter
    ensures { result ≡ new_parameter of_type }
{
    WrittenParameter {
        of_type,
        no_undef: false,
        non_null: false,
        name: None,
    }
}

fn is_pointer_type(of_type: IrType) -> bool
    ensures { result ≡ spelling.is_pointer_type of_type }
{
    match of_type {
        IrType::Int(_) => false,
        IrType::Ptr => true,
    }
}

// The attribute that a word names; `nonnull` only on a pointer.
fn attribute(text: &[u8], on_pointer: bool) -> Option<ParameterPart>
    ensures { result ≡ spelling.attribute_named on_pointer text.now }
{
    if is_spelled(text, b"noundef".as_slice()) {
        Some(ParameterPart::NoUndef)
    } else if is_spelled(text, b"zeroext".as_slice()) || is_spelled(text, b"signext".as_slice()) {
        Some(ParameterPart::Extension)
    } else if on_pointer && is_spelled(text, b"nonnull".as_slice()) {
        Some(ParameterPart::NonNull)
    } else {
        None
    }
}

// What a token goes on with, after a parameter with a name or without.
fn part_at(
    alloc: Global,
    token: &Token,
    is_named: bool,
    on_pointer: bool,
) -> Result<Option<ParameterPart>, ReadFault>
    ensures { Reads (λ x. x) result [] (reads (spelling.parameter_part is_named on_pointer token.now.kind token.now.text token.now.place) []) }
{
    match (token.kind(), token.text()) {
        (Kind::Mark, text) if is_spelled(text, b",".as_slice()) => Ok(Some(ParameterPart::Next)),
        (Kind::Word, text) if !is_named => Ok(attribute(text, on_pointer)),
        (Kind::Local, text) if !is_named => {
            let name = name_behind_sign(alloc, text)?;
            let at = token.place();
            Ok(Some(ParameterPart::Name(WrittenName { name, at })))
        }
        _ => Ok(None),
    }
}

impl<'a, 'b> Cursor<'a, 'b> {
    // What goes on with the parameters here, if anything does.
    fn parameter_part(
        &mut self,
        is_named: bool,
        on_pointer: bool,
    ) -> Result<Option<ParameterPart>, ReadFault>
        ensures { Reads (λ x. x) result self.new (begin_of true follows_parameter (λ t. spelling.parameter_part is_named on_pointer t.kind t.text t.place) any self.old) }
    {
        let [first, rest @ ..] = self.left() else {
            return Ok(None);
        };
        match part_at(self.alloc(), first, is_named, on_pointer)? {
            None => Ok(None),
            Some(part) => {
                self.go_to(rest);
                Ok(Some(part))
            }
        }
    }

    fn with_part(
        &mut self,
        so_far: WrittenParameters,
        part: ParameterPart,
    ) -> Result<WrittenParameters, ReadFault>
        ensures { Reads (λ x. x) result self.new (read true (with_part so_far part) self.old) }
    {
        let WrittenParameters { before, last } = so_far;
        match part {
            ParameterPart::NoUndef => Ok(WrittenParameters {
                before,
                last: WrittenParameter {
                    of_type: last.of_type,
                    no_undef: true,
                    non_null: last.non_null,
                    name: last.name,
                },
            }),
            ParameterPart::NonNull => Ok(WrittenParameters {
                before,
                last: WrittenParameter {
                    of_type: last.of_type,
                    no_undef: last.no_undef,
                    non_null: true,
                    name: last.name,
                },
            }),
            ParameterPart::Extension => Ok(WrittenParameters { before, last }),
            ParameterPart::Name(name) => Ok(WrittenParameters {
                before,
                last: WrittenParameter {
                    of_type: last.of_type,
                    no_undef: last.no_undef,
                    non_null: last.non_null,
                    name: Some(name),
                },
            }),
            ParameterPart::Next => {
                let room = before.len() < MOST_PARAMETERS - 1;
                let of_type = self.counted_type(room)?;
                let before = pushed(before, last)?;
                Ok(WrittenParameters {
                    before,
                    last: new_parameter(of_type),
                })
            }
        }
    }

    // One more part, if one begins here, and whether one did.
    fn one_part(
        &mut self,
        so_far: WrittenParameters,
    ) -> Result<(WrittenParameters, bool), ReadFault>
        ensures { Reads (λ x. x) result self.new (step_of follows_parameter parameter_begins (λ s. any) (λ s a ts. read true (with_part s a) ts) so_far self.old) }
    {
        let is_named = so_far.last.name.is_some();
        let on_pointer = is_pointer_type(so_far.last.of_type.of_type);
        match self.parameter_part(is_named, on_pointer)? {
            None => Ok((so_far, false)),
            Some(part) => Ok((self.with_part(so_far, part)?, true)),
        }
    }

    fn parameter_parts(&mut self, of_type: WrittenType) -> Result<WrittenParameters, ReadFault>
        ensures { Reads (λ x. x) result self.new (read true (spec.parameter_parts of_type) self.old) }
    {
        let mut so_far = WrittenParameters {
            before: self.no_items(),
            last: new_parameter(of_type),
        };
        loop {
            let (next, is_more) = self.one_part(so_far)?;
            so_far = next;
            if !is_more {
                return Ok(so_far);
            }
        }
    }

    #[tactic(auto, unfolding(crate::specs::Grammar::first_parameter))]
    fn first_parameter(
        &mut self,
        of_type: WrittenType,
    ) -> Result<Sequence<WrittenParameter>, ReadFault>
        ensures { Reads (λ x. x) result self.new (read true (spec.first_parameter of_type) self.old) }
    {
        let WrittenParameters { before, last } = self.parameter_parts(of_type)?;
        self.mark(b")".as_slice())?;
        pushed(before, last)
    }

    /// Reads the parameters and the closing parenthesis.
    #[tactic(auto, unfolding(crate::specs::Grammar::parameters))]
    pub fn parameters(&mut self) -> Result<Sequence<WrittenParameter>, ReadFault>
        ensures { Reads (λ x. x) result self.new (read true spec.parameters self.old) }
    {
        if self.eat_mark(b")".as_slice()) {
            return Ok(self.no_items());
        }
        let of_type = self.value_type()?;
        self.first_parameter(of_type)
    }
}
