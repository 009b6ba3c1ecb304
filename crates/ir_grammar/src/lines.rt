// Reading the lines of a block and what is attached to them.
ghost use Rattle.std.specs.Prelude.{◌≡◌, ◌||◌, ◌<◌, [], true, not};
ghost use Rattle.token_forms.specs.Form.{reads, read, begin_of, step_of, token_of};
ghost use Rattle.token_forms.specs.Answer.{Reads, Passes};
ghost use Rattle.ir_words.specs.Spelling as spelling;
ghost use Rattle.ir_words.specs.Spelling.{is_attached, is_numbered};
ghost use Rattle.ir_grammar.specs.Classes.{any, passed, attachment_word, metadata_number};
ghost use Rattle.token_forms.specs.Form.{one_of};
ghost use Rattle.ir_grammar.specs.Grammar as spec;
ghost use Rattle.ir_grammar.specs.Grammar.{is_comma, comma_begins, attachment, record_rest, starts_inst, starts_line, line_begins, line_within, takes_comma, line_comma, with_comma};
ghost use Rattle.ir_lexer.specs.declared.token.Kind.TheVariants as kind;

use crate::blocks::MOST_INSTS;
use crate::cursor::Cursor;
use crate::memory::default_align;
use ir_items::{name_before_colon, name_behind_sign};
use ir_lexer::{Kind, Token};
use ir_tree::Reason;
use ir_words::{
    Boxed, LineStart, WrittenInst, WrittenLine, WrittenLines, WrittenName, WrittenPhi, is_spelled,
    reason_at, some_digits,
};
use std::alloc::Global;
use text_places::Place;
use token_forms::{Bracket, ReadFault};

/// Whether the word of an attachment is spelled so.
pub fn is_attached(text: &[u8]) -> bool
    ensures { result ≡ is_attached text.now }
{
    is_spelled(text, b"!dbg".as_slice())
        || is_spelled(text, b"!prof".as_slice())
        || is_spelled(text, b"!llvm.loop".as_slice())
}

/// Whether only digits follow a sign.
pub fn is_numbered(text: &[u8]) -> bool
    ensures { result ≡ is_numbered text.now }
{
    match text {
        [] => false,
        [_, digits @ ..] => some_digits(digits),
    }
}

// Whether the word of a record begins so.
fn is_record(text: &[u8]) -> bool
    ensures { result ≡ spelling.is_record text.now }
{
    match text {
        [b'#', b'd', b'b', b'g', b'_', ..] => true,
        _ => false,
    }
}

// The label that a token is, where one is allowed.
fn label_start(
    alloc: Global,
    text: &[u8],
    at: Place,
    is_new: bool,
) -> Result<Option<LineStart>, ReadFault>
    ensures { Reads (λ x. x) result [] (reads (spelling.line_start is_new kind.Label text.now at) []) }
{
    if !is_new {
        return Ok(None);
    }
    let name = name_before_colon(alloc, text)?;
    Ok(Some(LineStart::Label(WrittenName { name, at })))
}

// What a token begins a line with; a label only where nothing comes before.
fn start_at(alloc: Global, token: &Token, is_new: bool) -> Result<Option<LineStart>, ReadFault>
    ensures { Reads (λ x. x) result [] (reads (spelling.line_start is_new token.now.kind token.now.text token.now.place) []) }
{
    let at = token.place();
    match (token.kind(), token.text()) {
        (Kind::Local, text) => {
            let name = name_behind_sign(alloc, text)?;
            Ok(Some(LineStart::Inst(WrittenName { name, at })))
        }
        (Kind::Label, text) => label_start(alloc, text, at, is_new),
        (Kind::Hash, text) if is_record(text) => Ok(Some(LineStart::Record)),
        (Kind::Word, text) if is_spelled(text, b"store".as_slice()) => Ok(Some(LineStart::Store)),
        _ => Ok(None),
    }
}

// Whether a token begins an instruction.
fn starts_inst(token: &Token) -> bool
    ensures { result ≡ starts_inst token.now }
{
    match token.kind() {
        Kind::Local => true,
        Kind::Word => is_spelled(token.text(), b"store".as_slice()),
        _ => false,
    }
}

// Whether something may follow a comma after this line.
fn takes_comma(line: &WrittenLine) -> bool
    ensures { result ≡ takes_comma line.now }
{
    match line {
        WrittenLine::Label(_) | WrittenLine::Record => false,
        WrittenLine::Entries(_) | WrittenLine::Access(_) | WrittenLine::Indices(_) => true,
        WrittenLine::Phi(_) | WrittenLine::Inst(_) => true,
    }
}

// Adds a phi to the lines.
fn add_phi(so_far: &mut WrittenLines, phi: WrittenPhi) -> Result<(), ReadFault>
    ensures { Reads (λ u. so_far.new) result [] (reads (spec.with_phi so_far.old phi) []) }
{
    so_far.phis.push(phi)?;
    so_far.is_new = false;
    so_far.room = so_far.room.saturating_sub(1);
    Ok(())
}

// Adds a line to the lines. They change in place: each may have more than 100 bytes.
fn add_line(alloc: Global, so_far: &mut WrittenLines, line: WrittenLine) -> Result<(), ReadFault>
    ensures { Reads (λ u. so_far.new) result [] (reads (spec.with_line so_far.old line) []) }
{
    match line {
        WrittenLine::Label(name) => {
            so_far.label = Some(name);
            so_far.is_new = false;
            Ok(())
        }
        WrittenLine::Record => {
            so_far.is_new = false;
            Ok(())
        }
        WrittenLine::Entries(phi) | WrittenLine::Phi(phi) => add_phi(so_far, phi),
        WrittenLine::Access(access) => {
            let align = default_align(access.get());
            let inst = Boxed::new(alloc, WrittenInst::Access { access, align })?;
            add_inst(so_far, inst)
        }
        WrittenLine::Indices(gep) => {
            let inst = Boxed::new(alloc, WrittenInst::GetElementPtr(gep))?;
            add_inst(so_far, inst)
        }
        WrittenLine::Inst(inst) => add_inst(so_far, inst),
    }
}

// Adds an instruction that is no phi to the lines.
fn add_inst(so_far: &mut WrittenLines, inst: Boxed<WrittenInst>) -> Result<(), ReadFault>
    ensures { Reads (λ u. so_far.new) result [] (reads (spec.with_inst so_far.old inst) []) }
{
    so_far.insts.push(inst)?;
    so_far.is_new = false;
    so_far.room = so_far.room.saturating_sub(1);
    Ok(())
}

impl<'a, 'b> Cursor<'a, 'b> {
    /// Passes the word of an attachment.
    pub fn attachment_word(&mut self) -> Result<(), ReadFault>
        ensures { Passes result self.new (one_of true attachment_word self.old) }
    {
        let [first, rest @ ..] = self.left() else {
            return Err(ReadFault::Unfit(Reason::Syntax));
        };
        if first.kind() == Kind::Metadata && is_attached(first.text()) {
            self.go_to(rest);
            Ok(())
        } else {
            Err(ReadFault::Unfit(reason_at(first)))
        }
    }

    /// Passes a metadata name that is a number.
    pub fn metadata_number(&mut self) -> Result<(), ReadFault>
        ensures { Passes result self.new (one_of true metadata_number self.old) }
    {
        let [first, rest @ ..] = self.left() else {
            return Err(ReadFault::Unfit(Reason::Syntax));
        };
        if first.kind() == Kind::Metadata && is_numbered(first.text()) {
            self.go_to(rest);
            Ok(())
        } else {
            Err(ReadFault::Unfit(reason_at(first)))
        }
    }

    // Passes an attachment after its comma.
    #[tactic(auto, unfolding(crate::specs::Grammar::attachment))]
    fn attachment(&mut self) -> Result<(), ReadFault>
        ensures { Passes result self.new (read true attachment self.old) }
    {
        self.attachment_word()?;
        self.metadata_number()?;
        Ok(())
    }

    // One more attachment, if one begins here, and whether one did.
    fn one_attachment(&mut self) -> Result<bool, ReadFault>
        ensures { Reads (λ b. (tt, b)) result self.new (step_of is_comma comma_begins (λ s. any) (λ s a ts. read true attachment ts) tt self.old) }
    {
        if !self.eat_mark(b",".as_slice()) {
            return Ok(false);
        }
        self.attachment()?;
        Ok(true)
    }

    /// Passes attachments, as long as one begins.
    pub fn attachments(&mut self) -> Result<(), ReadFault>
        ensures { Passes result self.new (read true spec.attachments self.old) }
    {
        loop {
            let is_more = self.one_attachment()?;
            if !is_more {
                return Ok(());
            }
        }
    }

    // Passes a record after its word.
    #[tactic(auto, unfolding(crate::specs::Grammar::record_rest))]
    fn record_rest(&mut self) -> Result<(), ReadFault>
        ensures { Passes result self.new (read true record_rest self.old) }
    {
        self.mark(b"(".as_slice())?;
        self.bracket(Bracket::Round)
    }

    // Reads what begins a line here, if anything does; an instruction where there is room for it.
    fn line_start(&mut self, is_new: bool, room: bool) -> Result<Option<LineStart>, ReadFault>
        ensures { Reads (λ x. x) result self.new (begin_of true starts_line (λ t. spelling.line_start is_new t.kind t.text t.place) (λ t. not (starts_inst t) || room) self.old) }
    {
        let [first, rest @ ..] = self.left() else {
            return Ok(None);
        };
        match start_at(self.alloc(), first, is_new)? {
            None => Ok(None),
            Some(start) => {
                if starts_inst(first) && !room {
                    return Err(ReadFault::PastLimit);
                }
                self.go_to(rest);
                Ok(Some(start))
            }
        }
    }

    // What comes before the first comma of a line.
    fn started(
        &mut self,
        phi_too: bool,
        number: usize,
        start: LineStart,
    ) -> Result<WrittenLine, ReadFault>
        ensures { Reads (λ x. x) result self.new (read true (spec.started phi_too number start) self.old) }
    {
        match start {
            LineStart::Label(name) => Ok(WrittenLine::Label(name)),
            LineStart::Inst(name) => self.line_named(phi_too, number, name),
            LineStart::Store => self.store(),
            LineStart::Record => {
                self.record_rest()?;
                Ok(WrittenLine::Record)
            }
        }
    }

    // What follows a comma.
    fn with_comma(&mut self, line: WrittenLine) -> Result<WrittenLine, ReadFault>
        ensures { Reads (λ x. x) result self.new (read true (with_comma line) self.old) }
    {
        match line {
            WrittenLine::Label(name) => Ok(WrittenLine::Label(name)),
            WrittenLine::Record => Ok(WrittenLine::Record),
            WrittenLine::Entries(phi) => self.entry_or_attachment(phi),
            WrittenLine::Access(access) => self.align_or_attachment(access),
            WrittenLine::Indices(gep) => self.index_or_attachment(gep),
            WrittenLine::Phi(phi) => self.attachment().and(Ok(WrittenLine::Phi(phi))),
            WrittenLine::Inst(inst) => self.attachment().and(Ok(WrittenLine::Inst(inst))),
        }
    }

    // Passes a comma, if one is next that may follow this line.
    fn eat_comma(&mut self, line: &WrittenLine) -> bool
        ensures { begin_of true is_comma (line_comma line.now) any self.old ≡ reads (passed result) self.new }
    {
        takes_comma(line) && self.eat_mark(b",".as_slice())
    }

    // The line with what follows its commas.
    fn behind_commas(&mut self, line: WrittenLine) -> Result<WrittenLine, ReadFault>
        ensures { Reads (λ x. x) result self.new (read true (spec.behind_commas line) self.old) }
    {
        let mut so_far = line;
        while self.eat_comma(&so_far) {
            so_far = self.with_comma(so_far)?;
        }
        Ok(so_far)
    }

    // Reads a line after what begins it.
    #[tactic(auto, unfolding(crate::specs::Grammar::next_line, crate::specs::Grammar::whole_line, crate::specs::Grammar::behind_commas))]
    fn next_line(&mut self, so_far: &mut WrittenLines, start: LineStart) -> Result<(), ReadFault>
        ensures { Reads (λ u. so_far.new) result self.new (read true (spec.next_line so_far.old start) self.old) }
    {
        let phi_too = so_far.insts.len() == 0;
        let number = MOST_INSTS.saturating_sub(so_far.room);
        let started = self.started(phi_too, number, start)?;
        let line = self.behind_commas(started)?;
        add_line(self.alloc(), so_far, line)
    }

    // One more line, if one begins here, and whether one did.
    fn one_line(&mut self, so_far: &mut WrittenLines) -> Result<bool, ReadFault>
        ensures { Reads (λ more. (so_far.new, more)) result self.new (step_of starts_line line_begins line_within (λ s a ts. read true (spec.next_line s a) ts) so_far.old self.old) }
    {
        let room = 0 < so_far.room;
        match self.line_start(so_far.is_new, room)? {
            None => Ok(false),
            Some(start) => {
                self.next_line(so_far, start)?;
                Ok(true)
            }
        }
    }

    /// Reads an optional label, where one is allowed, and instructions, as long as one begins. The
    /// room is how many more instructions the function may have.
    pub fn lines(&mut self, is_new: bool, room: usize) -> Result<WrittenLines, ReadFault>
        ensures { Reads (λ x. x) result self.new (read true (spec.lines is_new room) self.old) }
    {
        let mut so_far = WrittenLines {
            label: None,
            phis: self.no_items(),
            insts: self.no_items(),
            is_new,
            room,
        };
        loop {
            let is_more = self.one_line(&mut so_far)?;
            if !is_more {
                return Ok(so_far);
            }
        }
    }
}
