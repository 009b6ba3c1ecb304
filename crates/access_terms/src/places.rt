//! Accesses within one block.

ghost use Rattle.std.specs.Prelude.{◌≡◌, ◌<◌, ◌≤◌, ◌+◌, ◌-◌, ◌%◌, ◌&&◌, ℕ, IfOk, OnOk, Some, cond, drop, length, nat_eq, nat_le, nat_lt, take, true, false};
ghost use Rattle.memory_access.specs.Accesses.{admits, overwritten};
ghost use Rattle.memory_access.specs.Blocks.{block_size};
ghost use Rattle.bv_terms.specs.Trees.{IsTerm, Keeps, Makes, Tests, bit_at, term_at};
ghost use Rattle.mem_terms.specs.Values.{Reading};
ghost use Rattle.mem_terms.specs.Memory.{AreSymBytes, IsSymBlock, block_at, places_at};
ghost use Rattle.access_terms.specs.Accesses.{bytes_from, sym_frame};
ghost use Rattle.access_terms.specs.Places.{written};

use crate::named::is_never;
use bv_terms::{TermId, Terms};
use byte_terms::poison_bytes;
use mem_terms::{
    SymBlock, SymByte, both, either, equals, less, negation, number, pick, pick_byte, truth,
};
use std::alloc::Global;
use support::{NoMemory, Sequence};

/// How many bytes the block has: its size, but no more than it has room for.
pub fn size_of(terms: &mut Terms, b: &SymBlock) -> Result<TermId, NoMemory>
    requires { IsSymBlock terms.old b.now }
    ensures made { IfOk result (IsTerm terms.new 64) }
    ensures stands { IfOk result (λ id. (r : Reading) → term_at r.v terms.new id ≡ block_size (block_at r terms.old b.now)) }
    ensures kept { Keeps terms.old terms.new }
{
    let most = number(terms, b.places.len() as u64)?;
    let is_short = less(terms, b.size, most)?;
    let size = pick(terms, is_short, b.size, most)?;
    Ok(size)
}

/// How many offsets have `count` bytes of room from them on.
fn starts_of(places: &[SymByte], count: usize) -> usize
    ensures { result ≡ length places.now + 1 - count }
{
    (places.len() + 1).saturating_sub(count)
}

/// True where the offset is this one.
fn is_at(terms: &mut Terms, offset: TermId, place: usize) -> Result<TermId, NoMemory>
    requires { IsTerm terms.old 64 offset }
    ensures made { IfOk result (λ id. Tests terms.new id (λ v. nat_eq (term_at v terms.old offset) place)) }
    ensures kept { Keeps terms.old terms.new }
{
    let known = number(terms, place as u64)?;
    let is_same = equals(terms, offset, known)?;
    Ok(is_same)
}

/// Whether an access with this alignment may be at the offset in a block with the other.
fn is_aligned(place: usize, align: u64, block_align: u64) -> bool
    requires { 0 < align }
    ensures { result ≡ (nat_le align block_align && nat_eq (place % align) 0) }
{
    align <= block_align && place as u64 % align == 0
}

/// True where the offset is this one, and the block has enough bytes from it on, and it and the
/// offset are aligned.
fn is_admitted_at(
    terms: &mut Terms,
    b: &SymBlock,
    offset: TermId,
    place: usize,
    count: usize,
    align: u64,
) -> Result<TermId, NoMemory>
    requires block { IsSymBlock terms.old b.now }
    requires offset { IsTerm terms.old 64 offset }
    requires align { 0 < align }
    requires room { place + count ≤ length b.now.places }
    ensures made { IfOk result (IsTerm terms.new 1) }
    ensures stands { IfOk result (λ id. (r : Reading) → bit_at r.v terms.new id ≡ (nat_eq (term_at r.v terms.old offset) place && admits (Some (block_at r terms.old b.now)) place count align)) }
    ensures kept { Keeps terms.old terms.new }
{
    if !is_aligned(place, align, b.align) {
        let never = truth(terms, false)?;
        return Ok(never);
    }
    let here = is_at(terms, offset, place)?;
    if is_never(terms, here) {
        return Ok(here);
    }
    let room = b.places.len() - place;
    prove!(count <= room);
    let end = number(terms, (place + count) as u64)?;
    let is_short = less(terms, b.size, end)?;
    let fits = negation(terms, is_short)?;
    let is_admitted = both(terms, here, fits)?;
    Ok(is_admitted)
}

/// True where the block has enough bytes from the offset on, and it and the offset are aligned.
pub fn is_admitted(
    terms: &mut Terms,
    b: &SymBlock,
    offset: TermId,
    count: usize,
    align: u64,
) -> Result<TermId, NoMemory>
    requires block { IsSymBlock terms.old b.now }
    requires offset { IsTerm terms.old 64 offset }
    requires align { 0 < align }
    ensures made { IfOk result (IsTerm terms.new 1) }
    ensures stands { IfOk result (λ id. (r : Reading) → bit_at r.v terms.new id ≡ admits (Some (block_at r terms.old b.now)) (term_at r.v terms.old offset) count align) }
    ensures kept { Keeps terms.old terms.new }
{
    let mut admitted = truth(terms, false)?;
    for place in 0..starts_of(b.places.as_slice(), count) {
        let here = is_admitted_at(terms, b, offset, place, count, align)?;
        admitted = either(terms, admitted, here)?;
    }
    Ok(admitted)
}

/// Overwrites the bytes from an index on where the condition is true.
fn put_bytes(
    terms: &mut Terms,
    c: TermId,
    bytes: &[SymByte],
    places: &mut Sequence<SymByte>,
    from: usize,
) -> Result<(), NoMemory>
    requires c { IsTerm terms.old 1 c }
    requires bytes { AreSymBytes terms.old bytes.now }
    requires places { AreSymBytes terms.old places.old }
    requires room { from + length bytes.now ≤ length places.old }
    ensures made { OnOk result (AreSymBytes terms.new places.new) }
    ensures count { OnOk result (length places.new ≡ length places.old) }
    ensures stands { OnOk result ((r : Reading) → places_at r terms.new places.new
        ≡ cond (bit_at r.v terms.old c) (written (places_at r terms.old bytes.now) from (places_at r terms.old places.old)) (places_at r terms.old places.old)) }
    ensures kept { Keeps terms.old terms.new }
{
    let room = places.len() - from;
    prove!(bytes.len() <= room);
    for (i, byte) in bytes.iter().enumerate() {
        let before = *places.get(from + i);
        let picked = pick_byte(terms, c, *byte, before)?;
        places.set(from + i, picked);
    }
    Ok(())
}

/// Replaces the given bytes by those from the index on where the offset is that index.
fn take_bytes(
    terms: &mut Terms,
    places: &[SymByte],
    offset: TermId,
    place: usize,
    bytes: &mut Sequence<SymByte>,
) -> Result<(), NoMemory>
    requires places { AreSymBytes terms.old places.now }
    requires offset { IsTerm terms.old 64 offset }
    requires bytes { AreSymBytes terms.old bytes.old }
    requires room { place + length bytes.old ≤ length places.now }
    ensures made { OnOk result (AreSymBytes terms.new bytes.new) }
    ensures count { OnOk result (length bytes.new ≡ length bytes.old) }
    ensures stands { OnOk result ((r : Reading) → places_at r terms.new bytes.new
        ≡ cond (nat_eq (term_at r.v terms.old offset) place) (take (length bytes.old) (drop place (places_at r terms.old places.now))) (places_at r terms.old bytes.old)) }
    ensures kept { Keeps terms.old terms.new }
{
    let here = is_at(terms, offset, place)?;
    if is_never(terms, here) {
        return Ok(());
    }
    let end = place + bytes.len();
    put_bytes(terms, here, &places[place..end], bytes, 0)?;
    Ok(())
}

/// The first `count` bytes, or that many poison bytes where there are fewer.
fn first_bytes(
    alloc: Global,
    terms: &mut Terms,
    places: &[SymByte],
    count: usize,
) -> Result<Sequence<SymByte>, NoMemory>
    requires { AreSymBytes terms.old places.now }
    ensures made { IfOk result (AreSymBytes terms.new) }
    ensures count { IfOk result (λ bytes. length bytes ≡ count) }
    ensures stands { IfOk result (λ bytes. (r : Reading) → count ≤ length places.now → places_at r terms.new bytes ≡ take count (places_at r terms.old places.now)) }
    ensures kept { Keeps terms.old terms.new }
{
    if count <= places.len() {
        let bytes = places[..count].to_vec(alloc)?;
        return Ok(Sequence::from_vec(bytes));
    }
    poison_bytes(alloc, terms, count)
}

/// The bytes of the block from the offset on, this many, where the block admits them. It makes no
/// choice where only one offset is admitted.
pub fn bytes_at(
    alloc: Global,
    terms: &mut Terms,
    b: &SymBlock,
    offset: TermId,
    count: usize,
    align: u64,
) -> Result<Sequence<SymByte>, NoMemory>
    requires block { IsSymBlock terms.old b.now }
    requires offset { IsTerm terms.old 64 offset }
    requires align { 0 < align }
    ensures made { IfOk result (AreSymBytes terms.new) }
    ensures count { IfOk result (λ bytes. length bytes ≡ count) }
    ensures stands { IfOk result (λ bytes. (r : Reading) → admits (Some (block_at r terms.old b.now)) (term_at r.v terms.old offset) count align ≡ true
        → places_at r terms.new bytes ≡ bytes_from r terms.old b.now offset count) }
    ensures kept { Keeps terms.old terms.new }
{
    let mut bytes = first_bytes(alloc, terms, b.places.as_slice(), count)?;
    for place in 1..starts_of(b.places.as_slice(), count) {
        if place as u64 % align != 0 {
            continue;
        }
        take_bytes(terms, b.places.as_slice(), offset, place, &mut bytes)?;
    }
    Ok(bytes)
}

/// Overwrites the bytes from this index on where the condition is true and the offset is this
/// index.
fn put_bytes_at(
    terms: &mut Terms,
    places: &mut Sequence<SymByte>,
    c: TermId,
    offset: TermId,
    bytes: &[SymByte],
    place: usize,
) -> Result<(), NoMemory>
    requires places { AreSymBytes terms.old places.old }
    requires c { IsTerm terms.old 1 c }
    requires offset { IsTerm terms.old 64 offset }
    requires bytes { AreSymBytes terms.old bytes.now }
    requires room { place + length bytes.now ≤ length places.old }
    ensures made { OnOk result (AreSymBytes terms.new places.new) }
    ensures count { OnOk result (length places.new ≡ length places.old) }
    ensures stands { OnOk result ((r : Reading) → places_at r terms.new places.new
        ≡ cond (bit_at r.v terms.old c && nat_eq (term_at r.v terms.old offset) place) (written (places_at r terms.old bytes.now) place (places_at r terms.old places.old)) (places_at r terms.old places.old)) }
    ensures kept { Keeps terms.old terms.new }
{
    let here = is_at(terms, offset, place)?;
    let chosen = both(terms, c, here)?;
    if is_never(terms, chosen) {
        return Ok(());
    }
    put_bytes(terms, chosen, bytes, places, place)?;
    Ok(())
}

/// Overwrites the bytes from the offset on where the condition is true, the offset is aligned, and
/// there is room for the bytes.
fn overwrite_places(
    terms: &mut Terms,
    places: &mut Sequence<SymByte>,
    c: TermId,
    offset: TermId,
    bytes: &[SymByte],
    align: u64,
) -> Result<(), NoMemory>
    requires places { AreSymBytes terms.old places.old }
    requires c { IsTerm terms.old 1 c }
    requires offset { IsTerm terms.old 64 offset }
    requires bytes { AreSymBytes terms.old bytes.now }
    requires align { 0 < align }
    ensures made { OnOk result (AreSymBytes terms.new places.new) }
    ensures count { OnOk result (length places.new ≡ length places.old) }
    ensures stands { OnOk result ((r : Reading) → places_at r terms.new places.new
        ≡ cond (bit_at r.v terms.old c && (nat_le (term_at r.v terms.old offset + length bytes.now) (length places.old) && nat_eq (term_at r.v terms.old offset % align) 0))
        (written (places_at r terms.old bytes.now) (term_at r.v terms.old offset) (places_at r terms.old places.old)) (places_at r terms.old places.old)) }
    ensures kept { Keeps terms.old terms.new }
{
    for place in 0..starts_of(places.as_slice(), bytes.len()) {
        if place as u64 % align != 0 {
            continue;
        }
        put_bytes_at(terms, places, c, offset, bytes, place)?;
    }
    Ok(())
}

/// Whether 0 is the only aligned offset that has `count` bytes of room from it on.
fn is_first_alone(places: &[SymByte], count: usize, align: u64) -> bool
    ensures { result ≡ (nat_le count (length places.now) && nat_lt (length places.now - count) align) }
{
    count <= places.len() && ((places.len() - count) as u64) < align
}

/// Overwrites the bytes from the offset on where the condition is true; the block admits them
/// there. It does not look at the offset where only one is admitted.
pub fn overwrite(
    terms: &mut Terms,
    b: &mut SymBlock,
    c: TermId,
    offset: TermId,
    bytes: &[SymByte],
    align: u64,
) -> Result<(), NoMemory>
    requires block { IsSymBlock terms.old b.old }
    requires c { IsTerm terms.old 1 c }
    requires offset { IsTerm terms.old 64 offset }
    requires bytes { AreSymBytes terms.old bytes.now }
    requires align { 0 < align }
    ensures made { OnOk result (IsSymBlock terms.new b.new) }
    ensures frame { OnOk result (sym_frame b.new ≡ sym_frame b.old) }
    ensures stays { OnOk result ((r : Reading) → bit_at r.v terms.old c ≡ false → block_at r terms.new b.new ≡ block_at r terms.old b.old) }
    ensures stands { OnOk result ((r : Reading) → bit_at r.v terms.old c ≡ true → admits (Some (block_at r terms.old b.old)) (term_at r.v terms.old offset) (length bytes.now) align ≡ true
        → block_at r terms.new b.new ≡ overwritten (places_at r terms.old bytes.now) (term_at r.v terms.old offset) (block_at r terms.old b.old)) }
    ensures kept { Keeps terms.old terms.new }
{
    if is_first_alone(b.places.as_slice(), bytes.len(), align) {
        put_bytes(terms, c, bytes, &mut b.places, 0)?;
        return Ok(());
    }
    overwrite_places(terms, &mut b.places, c, offset, bytes, align)?;
    Ok(())
}
