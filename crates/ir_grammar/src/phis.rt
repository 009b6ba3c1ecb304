// Reading a phi, and what follows its commas.
ghost use Rattle.std.specs.Prelude.{◌≡◌, true};
ghost use Rattle.token_forms.specs.Form.{read};
ghost use Rattle.token_forms.specs.Answer.{Reads};
ghost use Rattle.ir_grammar.specs.Instructions as spec;

use crate::cursor::Cursor;
use crate::lists::pushed;
use ir_words::{WrittenEntry, WrittenLine, WrittenName, WrittenPhi, WrittenType};
use token_forms::ReadFault;

/// The greatest number of entries of a phi.
const MOST_ENTRIES: usize = 16_777_216;

impl<'a, 'b> Cursor<'a, 'b> {
    // Reads an entry after its opening mark.
    #[tactic(auto, unfolding(crate::specs::Instructions::entry))]
    fn entry(&mut self, of_type: WrittenType) -> Result<WrittenEntry, ReadFault>
        ensures { Reads (λ x. x) result self.new (read true (spec.entry of_type) self.old) }
    {
        let operand = self.operand(false, of_type.of_type)?;
        self.mark(b",".as_slice())?;
        let from = self.local()?;
        self.mark(b"]".as_slice())?;
        Ok(WrittenEntry { operand, from })
    }

    /// Reads a phi with its first entry, after its word.
    #[tactic(auto, unfolding(crate::specs::Instructions::phi))]
    pub fn phi(&mut self, into: WrittenName) -> Result<WrittenLine, ReadFault>
        ensures { Reads (λ x. x) result self.new (read true (spec.phi into) self.old) }
    {
        let of_type = self.value_type()?;
        self.mark(b"[".as_slice())?;
        let first = self.entry(of_type)?;
        let entries = pushed(self.no_items(), first)?;
        Ok(WrittenLine::Entries(WrittenPhi {
            into,
            of_type,
            entries,
        }))
    }

    #[tactic(auto, unfolding(crate::specs::Instructions::next_entry))]
    fn next_entry(&mut self, phi: WrittenPhi) -> Result<WrittenLine, ReadFault>
        ensures { Reads (λ x. x) result self.new (read true (spec.next_entry phi) self.old) }
    {
        let WrittenPhi {
            into,
            of_type,
            entries,
        } = phi;
        let more = self.entry(of_type)?;
        let entries = pushed(entries, more)?;
        Ok(WrittenLine::Entries(WrittenPhi {
            into,
            of_type,
            entries,
        }))
    }

    /// Reads what follows a comma after an entry: another one, or an attachment, after which no
    /// entry is allowed.
    #[tactic(auto, unfolding(crate::specs::Instructions::entry_or_attachment))]
    pub fn entry_or_attachment(&mut self, phi: WrittenPhi) -> Result<WrittenLine, ReadFault>
        ensures { Reads (λ x. x) result self.new (read true (spec.entry_or_attachment phi) self.old) }
    {
        let room = phi.entries.len() < MOST_ENTRIES;
        if self.eat_counted_mark(b"[".as_slice(), room)? {
            return self.next_entry(phi);
        }
        self.attachment_word()?;
        self.attached(WrittenLine::Phi(phi))
    }
}
