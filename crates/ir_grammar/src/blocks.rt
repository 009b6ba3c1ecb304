// Reading the blocks of a function.
ghost use Rattle.std.specs.Prelude.{◌≡◌, [], true};
ghost use Rattle.token_forms.specs.Form.{reads, read, begin_of, step_of};
ghost use Rattle.token_forms.specs.Answer.{Reads};
ghost use Rattle.ir_grammar.specs.Classes.{any};
ghost use Rattle.ir_grammar.specs.Grammar as spec;
ghost use Rattle.ir_grammar.specs.Grammar.{begins_block, block_begins};
ghost use Rattle.ir_words.specs.Spelling.{named_at, label_of};

use crate::cursor::Cursor;
use crate::lists::pushed;
use ir_items::name_before_colon;
use ir_lexer::Kind;
use ir_words::{
    Boxed, WrittenBlock, WrittenBlocks, WrittenBody, WrittenLines, WrittenName, WrittenTerminator,
};
use support::Sequence;
use token_forms::ReadFault;

/// The greatest number of instructions of a function, phis and terminators counted.
pub const MOST_INSTS: usize = 65_536;

// The lines of a block and its last instruction.
fn body_of(lines: WrittenLines, terminator: Boxed<WrittenTerminator>) -> WrittenBody
    ensures { result ≡ spec.body_of (lines, terminator) }
{
    WrittenBody {
        phis: lines.phis,
        insts: lines.insts,
        terminator,
    }
}

// The blocks and one more.
fn with_block(
    so_far: WrittenBlocks,
    label: WrittenName,
    lines: WrittenLines,
    terminator: Boxed<WrittenTerminator>,
) -> Result<WrittenBlocks, ReadFault>
    ensures { Reads (λ x. x) result [] (reads (spec.with_block so_far label (lines, terminator)) []) }
{
    let room = lines.room.saturating_sub(1);
    let body = body_of(lines, terminator);
    let others = pushed(so_far.others, WrittenBlock { label, body })?;
    Ok(WrittenBlocks {
        label: so_far.label,
        entry: so_far.entry,
        others,
        room,
    })
}

// Only the entry.
fn entry_alone(
    lines: WrittenLines,
    terminator: Boxed<WrittenTerminator>,
    others: Sequence<WrittenBlock>,
) -> WrittenBlocks
    requires { others ≡ [] }
    ensures { result ≡ spec.entry_alone (lines, terminator) }
{
    let WrittenLines {
        label,
        phis,
        insts,
        is_new: _,
        room,
    } = lines;
    WrittenBlocks {
        label,
        entry: WrittenBody {
            phis,
            insts,
            terminator,
        },
        others,
        room: room.saturating_sub(1),
    }
}

impl<'a, 'b> Cursor<'a, 'b> {
    // Reads the lines of a block and its last instruction, and passes what is attached to that.
    #[tactic(auto, unfolding(crate::specs::Grammar::block))]
    fn block(
        &mut self,
        is_new: bool,
        room: usize,
    ) -> Result<(WrittenLines, Boxed<WrittenTerminator>), ReadFault>
        ensures { Reads (λ x. x) result self.new (read true (spec.block is_new room) self.old) }
    {
        let lines = self.lines(is_new, room)?;
        let word = self.terminator_word(0 < lines.room)?;
        let terminator = self.terminator_by(word)?;
        let terminator = Boxed::new(self.alloc(), terminator)?;
        self.attachments().and(Ok((lines, terminator)))
    }

    #[tactic(auto, unfolding(crate::specs::Grammar::entry_block))]
    fn entry_block(&mut self) -> Result<WrittenBlocks, ReadFault>
        ensures { Reads (λ x. x) result self.new (read true spec.entry_block self.old) }
    {
        let (lines, terminator) = self.block(true, MOST_INSTS)?;
        Ok(entry_alone(lines, terminator, self.no_items()))
    }

    // Reads the label that begins a block, if one is next.
    fn block_label(&mut self) -> Result<Option<WrittenName>, ReadFault>
        ensures { Reads (λ x. x) result self.new (begin_of true begins_block (λ t. named_at (label_of t.kind t.text) t.place) any self.old) }
    {
        let [first, rest @ ..] = self.left() else {
            return Ok(None);
        };
        match first.kind() {
            Kind::Label => {
                let name = name_before_colon(self.alloc(), first.text())?;
                self.go_to(rest);
                let at = first.place();
                Ok(Some(WrittenName { name, at }))
            }
            _ => Ok(None),
        }
    }

    // Reads a block after its label.
    #[tactic(auto, unfolding(crate::specs::Grammar::next_block))]
    fn next_block(
        &mut self,
        so_far: WrittenBlocks,
        label: WrittenName,
    ) -> Result<WrittenBlocks, ReadFault>
        ensures { Reads (λ x. x) result self.new (read true (spec.next_block so_far label) self.old) }
    {
        let (lines, terminator) = self.block(false, so_far.room)?;
        with_block(so_far, label, lines, terminator)
    }

    // One more block, if one begins here, and whether one did.
    fn one_block(&mut self, so_far: WrittenBlocks) -> Result<(WrittenBlocks, bool), ReadFault>
        ensures { Reads (λ x. x) result self.new (step_of begins_block block_begins (λ s. any) (λ s a ts. read true (spec.next_block s a) ts) so_far self.old) }
    {
        match self.block_label()? {
            None => Ok((so_far, false)),
            Some(label) => Ok((self.next_block(so_far, label)?, true)),
        }
    }

    // Reads the blocks after the entry.
    fn other_blocks(&mut self, entry: WrittenBlocks) -> Result<WrittenBlocks, ReadFault>
        ensures { Reads (λ x. x) result self.new (read true (spec.other_blocks entry) self.old) }
    {
        let mut so_far = entry;
        loop {
            let (next, is_more) = self.one_block(so_far)?;
            so_far = next;
            if !is_more {
                return Ok(so_far);
            }
        }
    }

    /// Reads the blocks of a function, of which only the first may be without a label.
    #[tactic(auto, unfolding(crate::specs::Grammar::blocks, crate::specs::Grammar::other_blocks))]
    pub fn blocks(&mut self) -> Result<WrittenBlocks, ReadFault>
        ensures { Reads (λ x. x) result self.new (read true spec.blocks self.old) }
    {
        let entry = self.entry_block()?;
        self.other_blocks(entry)
    }
}
