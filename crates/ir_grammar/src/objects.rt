// Reading types of objects in memory: elements and nested arrays of them.
ghost use Rattle.std.specs.Prelude.{◌≡◌, ◌||◌, true, min, length};
ghost use Rattle.token_forms.specs.Form.{reads, read, begin_of, step_of, one_of};
ghost use Rattle.token_forms.specs.Answer.{Reads, Passes};
ghost use Rattle.ir_tree.specs.Types.{nested_size};
ghost use Rattle.ir_words.specs.Spelling as spelling;
ghost use Rattle.ir_grammar.specs.Classes as class;
ghost use Rattle.ir_grammar.specs.Classes.{any};
ghost use Rattle.ir_grammar.specs.Instructions as spec;
ghost use Rattle.ir_grammar.specs.Instructions.{is_square, array_begins, array_within, with_length};

use crate::cursor::Cursor;
use crate::lists::pushed;
use ir_lexer::{Kind, Token};
use ir_tree::{IrType, MemoryType, Reason, type_align};
use ir_words::{
    GepFlags, WrittenArrays, WrittenObject, WrittenType, array_length, is_spelled, is_word,
    reason_at, type_in, type_reason_at,
};
use token_forms::ReadFault;

/// The greatest number of arrays within one another.
const MOST_ARRAYS: usize = 8;

/// The greatest number of bytes of an alloca.
const MOST_ALLOCA_BYTES: u64 = 64;

/// The greatest number of bytes of an array elsewhere.
const MOST_ARRAY_BYTES: u64 = 1_048_576;

const NO_GEP_FLAGS: GepFlags = GepFlags {
    inbounds: false,
    nuw: false,
};

// The bytes of nested arrays, or one more than the most of an alloca where they have more.
fn capped_size(lengths: &[u64], element: IrType) -> u64
    ensures { result ≡ min (nested_size lengths.now element) 65 }
{
    let mut size = type_align(element);
    for i in (0..lengths.len()).rev() {
        size = size.saturating_mul(lengths[i]).min(MOST_ALLOCA_BYTES + 1);
    }
    size
}

fn are_small_arrays(lengths: &[u64], element: IrType) -> bool
    ensures { result ≡ spelling.are_small_arrays lengths.now element }
{
    let mut size = type_align(element);
    for i in (0..lengths.len()).rev() {
        size = size.saturating_mul(lengths[i]);
        if size > MOST_ARRAY_BYTES {
            return false;
        }
    }
    true
}

fn is_small_object(in_alloca: bool, lengths: &[u64], element: IrType) -> bool
    ensures { result ≡ spelling.is_small_object in_alloca lengths.now element }
{
    if in_alloca {
        capped_size(lengths, element) <= MOST_ALLOCA_BYTES
    } else {
        are_small_arrays(lengths, element)
    }
}

fn is_gep_flag(token: &Token) -> bool
    ensures { result ≡ spec.is_gep_flag token.now }
{
    is_word(token, b"inbounds".as_slice()) || is_word(token, b"nuw".as_slice())
}

// The flags and this one; `nuw` only after `inbounds`.
fn gep_flag_named(flags: GepFlags, text: &[u8]) -> Option<GepFlags>
    ensures { result ≡ spelling.gep_flag_named flags text.now }
{
    if is_spelled(text, b"inbounds".as_slice()) && !flags.inbounds {
        Some(GepFlags {
            inbounds: true,
            nuw: flags.nuw,
        })
    } else if is_spelled(text, b"nuw".as_slice()) && (flags.inbounds && !flags.nuw) {
        Some(GepFlags {
            inbounds: flags.inbounds,
            nuw: true,
        })
    } else {
        None
    }
}

fn gep_flag_of(token: &Token, flags: GepFlags) -> Option<GepFlags>
    ensures { result ≡ spelling.gep_flag_of flags token.now.kind token.now.text }
{
    match token.kind() {
        Kind::Word => gep_flag_named(flags, token.text()),
        _ => None,
    }
}

// The type with these arrays around its element.
fn object_of(arrays: WrittenArrays, element: WrittenType) -> WrittenObject
    ensures { result ≡ spec.object_of arrays element }
{
    WrittenObject {
        of_type: MemoryType {
            lengths: arrays.lengths,
            element: element.of_type,
        },
        at: element.at,
    }
}

impl<'a, 'b> Cursor<'a, 'b> {
    // Reads the element of nested arrays of these lengths, where these are small enough.
    fn element_type(&mut self, in_alloca: bool, lengths: &[u64]) -> Result<WrittenType, ReadFault>
        ensures { Reads (λ x. x) result self.new (one_of true (class.element_type in_alloca lengths.now) self.old) }
    {
        let [first, rest @ ..] = self.left() else {
            return Err(ReadFault::Unfit(Reason::Syntax));
        };
        let Some(found) = type_in(first) else {
            return Err(ReadFault::Unfit(type_reason_at(first)));
        };
        let Some(of_type) = found else {
            return Err(ReadFault::PastLimit);
        };
        if !is_small_object(in_alloca, lengths, of_type) {
            return Err(ReadFault::PastLimit);
        }
        self.go_to(rest);
        let at = first.place();
        Ok(WrittenType { of_type, at })
    }

    // Reads how many elements an array has.
    fn array_length(&mut self) -> Result<u64, ReadFault>
        ensures { Reads (λ x. x) result self.new (one_of true class.array_length self.old) }
    {
        let [first, rest @ ..] = self.left() else {
            return Err(ReadFault::Unfit(Reason::Syntax));
        };
        if first.kind() != Kind::Number {
            return Err(ReadFault::Unfit(reason_at(first)));
        }
        let Some(length) = array_length(first.text()) else {
            return Err(ReadFault::PastLimit);
        };
        self.go_to(rest);
        Ok(length)
    }

    // Reads the length of an array after its opening mark.
    #[tactic(auto, unfolding(crate::specs::Instructions::with_length))]
    fn with_length(&mut self, so_far: WrittenArrays) -> Result<WrittenArrays, ReadFault>
        ensures { Reads (λ x. x) result self.new (read true (with_length so_far) self.old) }
    {
        let WrittenArrays { flags, lengths } = so_far;
        let length = self.array_length()?;
        self.word(b"x".as_slice())?;
        let lengths = pushed(lengths, length)?;
        Ok(WrittenArrays { flags, lengths })
    }

    // One more array, if one begins here, and whether one did.
    fn one_array(&mut self, so_far: WrittenArrays) -> Result<(WrittenArrays, bool), ReadFault>
        ensures { Reads (λ x. x) result self.new (step_of is_square array_begins array_within (λ s opening ts. read true (with_length s) ts) so_far self.old) }
    {
        let room = so_far.lengths.len() < MOST_ARRAYS;
        if !self.eat_counted_mark(b"[".as_slice(), room)? {
            return Ok((so_far, false));
        }
        Ok((self.with_length(so_far)?, true))
    }

    // Reads arrays within these, as long as one begins.
    fn arrays(&mut self, outer: WrittenArrays) -> Result<WrittenArrays, ReadFault>
        ensures { Reads (λ x. x) result self.new (read true (spec.arrays outer) self.old) }
    {
        let mut so_far = outer;
        loop {
            let (next, is_more) = self.one_array(so_far)?;
            so_far = next;
            if !is_more {
                return Ok(so_far);
            }
        }
    }

    // Passes the closing marks of this number of arrays.
    #[tactic(auto, using(crate::proofs::Closers::closer_more, crate::proofs::Closers::closer_stops))]
    fn closers(&mut self, count: usize) -> Result<(), ReadFault>
        ensures { Passes result self.new (read true (spec.closers count) self.old) }
    {
        let mut left = count;
        while 0 < left {
            self.mark(b"]".as_slice())?;
            left -= 1;
        }
        Ok(())
    }

    /// Reads the type of what an alloca makes.
    #[tactic(auto, unfolding(crate::specs::Instructions::alloca_object))]
    pub fn alloca_object(&mut self) -> Result<WrittenObject, ReadFault>
        ensures { Reads (λ x. x) result self.new (read true spec.alloca_object self.old) }
    {
        let outer = WrittenArrays {
            flags: NO_GEP_FLAGS,
            lengths: self.no_items(),
        };
        let arrays = self.arrays(outer)?;
        let element = self.element_type(true, arrays.lengths.as_slice())?;
        self.closers(arrays.lengths.len())?;
        Ok(object_of(arrays, element))
    }

    // One more flag of a getelementptr.
    fn gep_flag(&mut self, flags: GepFlags) -> Option<GepFlags>
        ensures { begin_of true spec.is_gep_flag (spec.next_gep_flag flags) any self.old ≡ reads result self.new }
    {
        let [first, rest @ ..] = self.left() else {
            return None;
        };
        if !is_gep_flag(first) {
            return None;
        }
        let Some(more) = gep_flag_of(first, flags) else {
            return None;
        };
        self.go_to(rest);
        Some(more)
    }

    fn gep_flags(&mut self) -> GepFlags
        ensures { read true spec.gep_flags self.old ≡ reads result self.new }
    {
        let mut flags = NO_GEP_FLAGS;
        while let Some(more) = self.gep_flag(flags) {
            flags = more;
        }
        flags
    }

    // Reads the flags of a getelementptr, and the arrays of its type up to their element.
    #[tactic(auto, unfolding(crate::specs::Instructions::gep_arrays, crate::specs::Instructions::arrays))]
    fn gep_arrays(&mut self) -> Result<WrittenArrays, ReadFault>
        ensures { Reads (λ x. x) result self.new (read true spec.gep_arrays self.old) }
    {
        let outer = WrittenArrays {
            flags: self.gep_flags(),
            lengths: self.no_items(),
        };
        self.arrays(outer)
    }

    /// Reads the flags and the type of a getelementptr.
    #[tactic(auto, unfolding(crate::specs::Instructions::gep_object))]
    pub fn gep_object(&mut self) -> Result<(GepFlags, WrittenObject), ReadFault>
        ensures { Reads (λ x. x) result self.new (read true spec.gep_object self.old) }
    {
        let arrays = self.gep_arrays()?;
        let element = self.element_type(false, arrays.lengths.as_slice())?;
        self.closers(arrays.lengths.len())?;
        let flags = arrays.flags;
        Ok((flags, object_of(arrays, element)))
    }
}
