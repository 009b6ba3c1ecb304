//! Loads, stores and allocas.

ghost use Rattle.std.specs.Prelude.{◌≡◌, ◌<◌, ◌^◌, ◌&&◌, ◌++◌, ◌∷◌, [], IfOk, OnOk, map, not, true};
ghost use Rattle.memory_access.specs.Accesses.{after_alloca, after_store, load_result, store_result};
ghost use Rattle.bv_terms.specs.Trees.{IsTerm, Keeps, Tests, bit_at};
ghost use Rattle.mem_terms.specs.Values.{IsNaming, IsSymValue, Reading, value_at};
ghost use Rattle.mem_terms.specs.Memory.{AreSymBlocks, memory_at};
ghost use Rattle.access_terms.specs.Accesses.{IsSymLoaded, loaded_at, stored_at, sym_frame};

use crate::spans::{Span, admits, bytes_of};
use crate::writing::write;
use bv_terms::{TermId, Terms};
use byte_terms::{access_size, bytes_of_value, poison_bytes, value_of_bytes};
use mem_terms::{SymBlock, SymValue, both, negation, number as number_term, truth};
use memory_access::Access;
use std::alloc::Global;
use support::{NoMemory, Sequence};

/// What a load gives: a value where it is defined, else undefined behaviour.
#[derive(Clone, Copy, Debug, PartialEq, Eq)]
pub struct SymLoaded {
    pub is_defined: TermId,
    pub value: SymValue,
}

/// True where the value is a pointer and the condition is true.
fn at_pointer(terms: &mut Terms, at: SymValue, c: TermId) -> Result<TermId, NoMemory>
    requires at { IsSymValue terms.old at }
    requires c { IsTerm terms.old 1 c }
    ensures made { IfOk result (λ id. Tests terms.new id (λ v. not (bit_at v terms.old at.poison) && (bit_at v terms.old at.is_pointer && bit_at v terms.old c))) }
    ensures kept { Keeps terms.old terms.new }
{
    let holds = both(terms, at.is_pointer, c)?;
    let is_value = negation(terms, at.poison)?;
    both(terms, is_value, holds)
}

/// What a load at a pointer gives (LLVM Language Reference, "load Instruction"). The alignment is in
/// bytes.
pub fn load(
    alloc: Global,
    terms: &mut Terms,
    memory: &[SymBlock],
    at: SymValue,
    access: Access,
    align: u64,
) -> Result<SymLoaded, NoMemory>
    requires memory { AreSymBlocks terms.old memory.now }
    requires at { IsSymValue terms.old at }
    requires align { 0 < align }
    ensures made { IfOk result (IsSymLoaded terms.new) }
    ensures stands { IfOk result (λ l. (r : Reading) → IsNaming r.name → loaded_at r terms.new l ≡ load_result (memory_at r terms.old memory.now) (value_at r terms.old at) access align) }
    ensures kept { Keeps terms.old terms.new }
{
    let span = Span {
        block: at.block,
        offset: at.number,
        count: access_size(access),
        align,
    };
    let is_admitted = admits(terms, memory, span)?;
    let is_defined = at_pointer(terms, at, is_admitted)?;
    let bytes = bytes_of(alloc, terms, memory, span)?;
    let value = value_of_bytes(terms, access, bytes.as_slice())?;
    Ok(SymLoaded { is_defined, value })
}

/// Stores a value at a pointer (LLVM Language Reference, "store Instruction"), and answers where
/// that is defined; elsewhere the memory after it has no meaning. The alignment is in bytes.
pub fn store(
    alloc: Global,
    terms: &mut Terms,
    memory: &mut Sequence<SymBlock>,
    value: SymValue,
    access: Access,
    at: SymValue,
    align: u64,
) -> Result<TermId, NoMemory>
    requires memory { AreSymBlocks terms.old memory.old }
    requires value { IsSymValue terms.old value }
    requires at { IsSymValue terms.old at }
    requires align { 0 < align }
    ensures made { IfOk result (IsTerm terms.new 1) }
    ensures memory { OnOk result (AreSymBlocks terms.new memory.new) }
    ensures frames { OnOk result (map sym_frame memory.new ≡ map sym_frame memory.old) }
    ensures stands { IfOk result (λ id. (r : Reading) → IsNaming r.name → stored_at r terms.new id ≡ store_result (memory_at r terms.old memory.old) access (value_at r terms.old at) align) }
    ensures after { IfOk result (λ id. (r : Reading) → IsNaming r.name → bit_at r.v terms.new id ≡ true
        → memory_at r terms.new memory.new ≡ after_store (memory_at r terms.old memory.old) (value_at r terms.old value) access (value_at r terms.old at) align) }
    ensures kept { Keeps terms.old terms.new }
{
    let span = Span {
        block: at.block,
        offset: at.number,
        count: access_size(access),
        align,
    };
    let is_admitted = admits(terms, memory.as_slice(), span)?;
    let is_defined = at_pointer(terms, at, is_admitted)?;
    let bytes = bytes_of_value(alloc, terms, access, value)?;
    write(terms, memory, span, bytes.as_slice())?;
    Ok(is_defined)
}

/// Makes a block of poison bytes with this number after the others (LLVM Language Reference,
/// "alloca Instruction"). Size and alignment are in bytes.
pub fn alloca(
    alloc: Global,
    terms: &mut Terms,
    memory: &mut Sequence<SymBlock>,
    number: u64,
    size: u64,
    align: u64,
) -> Result<(), NoMemory>
    requires memory { AreSymBlocks terms.old memory.old }
    requires number { 0 < number }
    ensures memory { OnOk result (AreSymBlocks terms.new memory.new) }
    ensures grown { OnOk result ((b : SymBlock) × (memory.new ≡ memory.old ++ b ∷ []) × (b.number ≡ number)) }
    ensures after { OnOk result ((r : Reading) → memory_at r terms.new memory.new ≡ after_alloca (memory_at r terms.old memory.old) (r.name number) size align) }
    ensures kept { Keeps terms.old terms.new }
{
    let exists = truth(terms, true)?;
    let places = poison_bytes(alloc, terms, size as usize)?;
    let size = number_term(terms, size)?;
    memory.push(SymBlock {
        number,
        exists,
        size,
        align,
        places,
    })
}
