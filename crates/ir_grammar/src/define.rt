// Reading a function with a body.
ghost use Rattle.std.specs.Prelude.{◌≡◌, [], true};
ghost use Rattle.token_forms.specs.Form.{reads, read, begin_of, step_of, one_of};
ghost use Rattle.token_forms.specs.Answer.{Reads, Passes};
ghost use Rattle.token_forms.specs.Spelled.{SpellsOrStops};
ghost use Rattle.ir_words.specs.Spelling as spelling;
ghost use Rattle.ir_words.specs.Spelling.{is_attribute};
ghost use Rattle.ir_grammar.specs.Classes.{any, comdat_name};
ghost use Rattle.ir_grammar.specs.Grammar as spec;
ghost use Rattle.ir_grammar.specs.Grammar.{is_prefix, next_prefix, follows_header, header_begins, with_header};

use crate::cursor::Cursor;
use crate::lines::is_numbered;
use crate::written::WrittenFunction;
use ir_lexer::{Kind, Token};
use ir_tree::Reason;
use ir_words::{HeaderPart, is_spelled, prefix_of, reason_at};
use token_forms::ReadFault;

fn is_attribute(text: &[u8]) -> bool
    ensures { result ≡ is_attribute text.now }
{
    is_spelled(text, b"unnamed_addr".as_slice())
        || is_spelled(text, b"local_unnamed_addr".as_slice())
        || is_spelled(text, b"nounwind".as_slice())
}

fn header_word(text: &[u8]) -> Option<HeaderPart>
    ensures { result ≡ spelling.header_word text.now }
{
    if is_attribute(text) {
        Some(HeaderPart::Attribute)
    } else if is_spelled(text, b"comdat".as_slice()) {
        Some(HeaderPart::Comdat)
    } else {
        None
    }
}

// What a token denotes after the parameters, if it is allowed there.
fn header_part(token: &Token, behind_comdat: bool) -> Option<HeaderPart>
    ensures { result ≡ spelling.header_part behind_comdat token.now.kind token.now.text }
{
    match (token.kind(), token.text()) {
        (Kind::Word, text) => header_word(text),
        (Kind::Hash, text) if is_numbered(text) => Some(HeaderPart::Attribute),
        (Kind::Metadata, text) if is_spelled(text, b"!dbg".as_slice()) => Some(HeaderPart::Debug),
        (Kind::Mark, text) if behind_comdat && is_spelled(text, b"(".as_slice()) => {
            Some(HeaderPart::Opening)
        }
        _ => None,
    }
}

impl<'a, 'b> Cursor<'a, 'b> {
    // One more word before the return type.
    fn prefix(&mut self, so_far: bool) -> Option<bool>
        ensures { begin_of true is_prefix (next_prefix so_far) any self.old ≡ reads result self.new }
    {
        let [first, rest @ ..] = self.left() else {
            return None;
        };
        let Some(more) = prefix_of(first, so_far) else {
            return None;
        };
        self.go_to(rest);
        Some(more)
    }

    // The words before the return type, and whether `noundef` is one of them.
    fn prefixes(&mut self) -> bool
        ensures { read true spec.prefixes self.old ≡ reads result self.new }
    {
        let mut no_undef = false;
        while let Some(more) = self.prefix(no_undef) {
            no_undef = more;
        }
        no_undef
    }

    fn header_start(&mut self, behind_comdat: bool) -> Option<HeaderPart>
        ensures { begin_of true follows_header (header_begins behind_comdat) any self.old ≡ reads result self.new }
    {
        let [first, rest @ ..] = self.left() else {
            return None;
        };
        let Some(part) = header_part(first, behind_comdat) else {
            return None;
        };
        self.go_to(rest);
        Some(part)
    }

    fn comdat_name(&mut self) -> Result<(), ReadFault>
        ensures { Passes result self.new (one_of true comdat_name self.old) }
    {
        let [first, rest @ ..] = self.left() else {
            return Err(ReadFault::Unfit(Reason::Syntax));
        };
        match first.kind() {
            Kind::Comdat => {
                self.go_to(rest);
                Ok(())
            }
            _ => Err(ReadFault::Unfit(reason_at(first))),
        }
    }

    #[tactic(auto, unfolding(crate::specs::Grammar::comdat_rest))]
    fn comdat_rest(&mut self) -> Result<bool, ReadFault>
        ensures { Reads (λ x. x) result self.new (read true spec.comdat_rest self.old) }
    {
        self.comdat_name()?;
        self.mark(b")".as_slice())?;
        Ok(false)
    }

    #[tactic(auto, unfolding(crate::specs::Grammar::debug_rest))]
    fn debug_rest(&mut self) -> Result<bool, ReadFault>
        ensures { Reads (λ x. x) result self.new (read true spec.debug_rest self.old) }
    {
        self.metadata_number()?;
        Ok(false)
    }

    fn with_header(&mut self, part: HeaderPart, so_far: bool) -> Result<bool, ReadFault>
        ensures { Reads (λ x. x) result self.new (read true (with_header so_far part) self.old) }
    {
        match part {
            HeaderPart::Attribute => Ok(false),
            HeaderPart::Comdat => Ok(true),
            HeaderPart::Opening => self.comdat_rest(),
            HeaderPart::Debug => self.debug_rest(),
        }
    }

    // One more part of a header, if one begins here, and whether one did.
    fn one_header(&mut self, so_far: bool) -> Result<(bool, bool), ReadFault>
        ensures { Reads (λ x. x) result self.new (step_of follows_header header_begins (λ s. any) (λ s a ts. read true (with_header s a) ts) so_far self.old) }
    {
        match self.header_start(so_far) {
            None => Ok((so_far, false)),
            Some(part) => Ok((self.with_header(part, so_far)?, true)),
        }
    }

    // Passes what follows the parameters; the result is whether `comdat` came last.
    fn header_parts(&mut self) -> Result<bool, ReadFault>
        ensures { Reads (λ x. x) result self.new (read true spec.header_parts self.old) }
    {
        let mut so_far = false;
        loop {
            let (next, is_more) = self.one_header(so_far)?;
            so_far = next;
            if !is_more {
                return Ok(so_far);
            }
        }
    }

    /// Reads a function with a body, its word first.
    ///
    /// # Errors
    /// `Unfit` where the first token that is left isn't allowed there, `PastLimit` where it is and
    /// is the first that passes a limit.
    pub fn define(&mut self) -> Result<WrittenFunction, ReadFault>
        ensures { SpellsOrStops spec.define result self.old self.new }
    {
        self.function()
    }

    #[tactic(auto, unfolding(crate::specs::Grammar::define))]
    fn function(&mut self) -> Result<WrittenFunction, ReadFault>
        ensures { Reads (λ x. x) result self.new (read true spec.define self.old) }
    {
        self.word(b"define".as_slice())?;
        let returns_no_undef = self.prefixes();
        let returns = self.return_type()?;
        let name = self.global()?;
        self.mark(b"(".as_slice())?;
        let parameters = self.parameters()?;
        let _behind_comdat = self.header_parts()?;
        let brace = self.brace()?;
        let blocks = self.blocks()?;
        self.mark(b"}".as_slice()).and(Ok(WrittenFunction {
            returns_no_undef,
            returns,
            name,
            parameters,
            brace,
            label: blocks.label,
            entry: blocks.entry,
            others: blocks.others,
        }))
    }
}
