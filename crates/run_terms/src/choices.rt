//! Choices from a tape.

ghost use Rattle.std.specs.Prelude.{◌≡◌, ◌<◌, ◌≤◌, ◌+◌, ◌%◌, ◌^◌, ◌&&◌, ◌||◌, ◌++◌, true, false, not, cond, ℕ, List, length, IfOk, OnOk, nat_eq, nat_le, slice_index};
ghost use Rattle.points.specs.Run.{choice_of, is_poison};
ghost use Rattle.run_terms.specs.Common.{Machine, Keeps, IsTerm, Makes, Tests, bit_at, term_at, IsSymValue, Reading, value_at, AreWords, words_at, Counts, IsState, IsTally, MatchesState, Scene, Sees, Visit, sight};

use crate::state::{RunState, Tally};
use crate::words::{word_at, words_up_to};
use bv_terms::{TermId, Terms};
use ir_tree::IrType;
use mem_terms::{
    SymNumber, SymValue, both, equals, implies, integer_value, less, number, pick, pointer_value,
    resize, truth,
};
use support::NoMemory;
use term_rules::add;
use tv_num::Width;

/// A choice, and which choices were made once it was made where it is taken.
#[derive(Clone, Copy, Debug, PartialEq, Eq)]
pub struct Choice {
    pub value: SymValue,
    pub tally: Tally,
    /// No run has read more words by then.
    pub words_bound: usize,
}

/// `count` more words where the choice is taken.
fn more_words(
    terms: &mut Terms,
    read: TermId,
    taken: TermId,
    count: u64,
) -> Result<TermId, NoMemory>
    requires read { IsTerm terms.old 64 read }
    requires taken { IsTerm terms.old 1 taken }
    ensures made { IfOk result (λ id. Makes terms.new id 64 (λ v. cond (bit_at v terms.old taken) ((term_at v terms.old read + count) % 2 ^ 64) (term_at v terms.old read))) }
    ensures kept { Keeps terms.old terms.new }
{
    let count = number(terms, count)?;
    let next = add(terms, read, count)?;
    pick(terms, taken, next, read)
}

/// Whether the choices still fit: where it is taken, it is the whole word.
fn still_fits(
    terms: &mut Terms,
    fits: TermId,
    taken: TermId,
    word: TermId,
    choice: TermId,
) -> Result<TermId, NoMemory>
    requires fits { IsTerm terms.old 1 fits }
    requires taken { IsTerm terms.old 1 taken }
    requires word { IsTerm terms.old 64 word }
    requires choice { IsTerm terms.old 64 choice }
    ensures made { IfOk result (λ id. Tests terms.new id (λ v. bit_at v terms.old fits && (not (bit_at v terms.old taken) || nat_eq (term_at v terms.old word) (term_at v terms.old choice)))) }
    ensures kept { Keeps terms.old terms.new }
{
    let whole = equals(terms, word, choice)?;
    let fine = implies(terms, taken, whole)?;
    both(terms, fits, fine)
}

/// How many words there may be with `count` more. It fails where that is more than a `usize` holds,
/// which no memory holds.
fn read_more(words_bound: usize, count: usize) -> Result<usize, NoMemory>
    ensures count { IfOk result (λ more. more ≡ words_bound + count) }
    ensures room { OnOk result (words_bound + count < 2 ^ 64) }
{
    let more = words_bound.checked_add(count).ok_or(NoMemory)?;
    Ok(more)
}

/// The word after those that were read, among these words, modulo the width, and whether the
/// choices fit with it.
fn number_among(
    terms: &mut Terms,
    words: &[TermId],
    tally: Tally,
    taken: TermId,
    width: Width,
) -> Result<(TermId, Tally), NoMemory>
    requires words { AreWords terms.old words.now }
    requires tally { IsTally terms.old tally }
    requires taken { IsTerm terms.old 1 taken }
    ensures number { IfOk result (λ c. Makes terms.new c.0 64 (λ v. slice_index (words_at v terms.old words.now) (term_at v terms.old tally.read) % 2 ^ width.bits % 2 ^ 64)) }
    ensures read { IfOk result (λ c. Makes terms.new c.1.read 64 (λ v. cond (bit_at v terms.old taken) ((term_at v terms.old tally.read + 1) % 2 ^ 64) (term_at v terms.old tally.read))) }
    ensures fits { IfOk result (λ c. Tests terms.new c.1.fits (λ v. bit_at v terms.old tally.fits
        && (not (bit_at v terms.old taken) || nat_eq (slice_index (words_at v terms.old words.now) (term_at v terms.old tally.read))
        (slice_index (words_at v terms.old words.now) (term_at v terms.old tally.read) % 2 ^ width.bits % 2 ^ 64)))) }
    ensures kept { Keeps terms.old terms.new }
{
    let word = word_at(terms, words, tally.read)?;
    let low = resize(terms, word, width.bits())?;
    let number = resize(terms, low, 64)?;
    let read = more_words(terms, tally.read, taken, 1)?;
    let fits = still_fits(terms, tally.fits, taken, word, number)?;
    Ok((number, Tally { read, fits }))
}

/// The next choice of an integer of the width: the next word of the tape modulo the width.
fn choose_number(
    terms: &mut Terms,
    state: &RunState,
    taken: TermId,
    width: Width,
    tape: &[TermId],
) -> Result<Choice, NoMemory>
    requires state { IsState terms.old state.now }
    requires tape { AreWords terms.old tape.now }
    requires taken { IsTerm terms.old 1 taken }
    ensures value { IfOk result (λ c. IsSymValue terms.new c.value) }
    ensures tally { IfOk result (λ c. IsTally terms.new c.tally) }
    ensures defined { IfOk result (λ c. (r : Reading) → is_poison (value_at r terms.new c.value) ≡ false) }
    ensures words_bound { IfOk result (λ c. (g : Scene) (m : Machine) → length m.taken ≤ state.now.words_bound → length m.taken + length (choice_of (IrType.Int width) g.tape m).words ≤ c.words_bound) }
    ensures stays { IfOk result (λ c. (g : Scene) (made : List ℕ) → bit_at g.v terms.old taken ≡ false → Counts g terms.old state.now.tally made → Counts g terms.new c.tally made) }
    ensures takes { IfOk result (λ c. (g : Scene) (at : Visit) (m : Machine) → Sees g terms.old tape.now → bit_at g.v terms.old taken ≡ true → MatchesState g terms.old at state.now m
        → Counts g terms.new c.tally (m.taken ++ (choice_of (IrType.Int width) g.tape m).words) × (value_at (sight g) terms.new c.value ≡ (choice_of (IrType.Int width) g.tape m).value)) }
    ensures kept { Keeps terms.old terms.new }
{
    let words_bound = read_more(state.words_bound, 1)?;
    let words = words_up_to(tape, state.words_bound);
    let (number, tally) = number_among(terms, words, state.tally, taken, width)?;
    let poison = truth(terms, false)?;
    let value = integer_value(terms, SymNumber { poison, number })?;
    Ok(Choice {
        value,
        tally,
        words_bound,
    })
}

/// The given block that the low 16 bits of a word name, or null where there is none.
fn given_or_null(terms: &mut Terms, word: TermId, given: usize) -> Result<TermId, NoMemory>
    requires { IsTerm terms.old 64 word }
    ensures made { IfOk result (λ id. Makes terms.new id 64 (λ v. cond (nat_le (term_at v terms.old word % 2 ^ 16) given) (term_at v terms.old word % 2 ^ 16) 0)) }
    ensures kept { Keeps terms.old terms.new }
{
    let low = resize(terms, word, 16)?;
    let block = resize(terms, low, 64)?;
    let last = number(terms, given as u64)?;
    let null = number(terms, 0)?;
    let is_past = less(terms, last, block)?;
    pick(terms, is_past, null, block)
}

/// The next choice of a pointer: the low 16 bits of the next word of the tape name a given block, or
/// else null, and the word after it is the offset.
fn choose_pointer(
    terms: &mut Terms,
    state: &RunState,
    taken: TermId,
    tape: &[TermId],
) -> Result<Choice, NoMemory>
    requires state { IsState terms.old state.now }
    requires tape { AreWords terms.old tape.now }
    requires taken { IsTerm terms.old 1 taken }
    ensures value { IfOk result (λ c. IsSymValue terms.new c.value) }
    ensures tally { IfOk result (λ c. IsTally terms.new c.tally) }
    ensures defined { IfOk result (λ c. (r : Reading) → is_poison (value_at r terms.new c.value) ≡ false) }
    ensures words_bound { IfOk result (λ c. (g : Scene) (m : Machine) → length m.taken ≤ state.now.words_bound → length m.taken + length (choice_of IrType.Ptr g.tape m).words ≤ c.words_bound) }
    ensures stays { IfOk result (λ c. (g : Scene) (made : List ℕ) → bit_at g.v terms.old taken ≡ false → Counts g terms.old state.now.tally made → Counts g terms.new c.tally made) }
    ensures takes { IfOk result (λ c. (g : Scene) (at : Visit) (m : Machine) → Sees g terms.old tape.now → bit_at g.v terms.old taken ≡ true → MatchesState g terms.old at state.now m
        → Counts g terms.new c.tally (m.taken ++ (choice_of IrType.Ptr g.tape m).words) × (value_at (sight g) terms.new c.value ≡ (choice_of IrType.Ptr g.tape m).value)) }
    ensures kept { Keeps terms.old terms.new }
{
    terms.values_fit();
    let words_bound = read_more(state.words_bound, 2)?;
    let words = words_up_to(tape, state.words_bound + 1);
    let first = word_at(terms, words, state.tally.read)?;
    let one = number(terms, 1)?;
    let next = add(terms, state.tally.read, one)?;
    let offset = word_at(terms, words, next)?;
    let block = given_or_null(terms, first, state.memory.given)?;
    let read = more_words(terms, state.tally.read, taken, 2)?;
    let fits = still_fits(terms, state.tally.fits, taken, first, block)?;
    let value = pointer_value(terms, block, offset)?;
    let tally = Tally { read, fits };
    Ok(Choice {
        value,
        tally,
        words_bound,
    })
}

/// The next choice of a value of the type. It is made where it is taken.
pub fn choose(
    terms: &mut Terms,
    state: &RunState,
    taken: TermId,
    of_type: IrType,
    tape: &[TermId],
) -> Result<Choice, NoMemory>
    requires state { IsState terms.old state.now }
    requires tape { AreWords terms.old tape.now }
    requires taken { IsTerm terms.old 1 taken }
    ensures value { IfOk result (λ c. IsSymValue terms.new c.value) }
    ensures tally { IfOk result (λ c. IsTally terms.new c.tally) }
    ensures defined { IfOk result (λ c. (r : Reading) → is_poison (value_at r terms.new c.value) ≡ false) }
    ensures words_bound { IfOk result (λ c. (g : Scene) (m : Machine) → length m.taken ≤ state.now.words_bound → length m.taken + length (choice_of of_type g.tape m).words ≤ c.words_bound) }
    ensures stays { IfOk result (λ c. (g : Scene) (made : List ℕ) → bit_at g.v terms.old taken ≡ false → Counts g terms.old state.now.tally made → Counts g terms.new c.tally made) }
    ensures takes { IfOk result (λ c. (g : Scene) (at : Visit) (m : Machine) → Sees g terms.old tape.now → bit_at g.v terms.old taken ≡ true → MatchesState g terms.old at state.now m
        → Counts g terms.new c.tally (m.taken ++ (choice_of of_type g.tape m).words) × (value_at (sight g) terms.new c.value ≡ (choice_of of_type g.tape m).value)) }
    ensures kept { Keeps terms.old terms.new }
{
    match of_type {
        IrType::Int(width) => {
            let choice = choose_number(terms, state, taken, width, tape)?;
            Ok(choice)
        }
        IrType::Ptr => {
            let choice = choose_pointer(terms, state, taken, tape)?;
            Ok(choice)
        }
    }
}
