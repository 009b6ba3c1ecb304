//! The contents of given blocks in a code.

ghost use Rattle.std.specs.Prelude.{◌≡◌, ◌<◌, IfOk, length, map, nat_le};
ghost use Rattle.std.specs.List.{flat_map};
ghost use Rattle.points.specs.Codes.{IsCodeOfBlocks, IsCodeOfPlaces};
ghost use Rattle.bv_terms.specs.Trees.{IsTerm, Keeps, term_at};
ghost use Rattle.mem_terms.specs.Values.{Each};
ghost use Rattle.refine_terms.specs.Deciding.{Decides, IsNarrow};
ghost use Rattle.refine_terms.specs.Groups.{IsCodeOfPlace};
ghost use Rattle.mem_terms.specs.Inputs.{IsBlockTerms, IsByteTerms};
ghost use Rattle.refine_terms.specs.Numbers.{block_numbers, byte_numbers};

use crate::bytes::{byte_code, unused_code};
use crate::comparing::at_most;
use bv_terms::{TermId, Terms};
use mem_terms::{ByteTerms, both, pick, truth};
use points::Layout;
use support::{NoMemory, Sequence};

/// True where the numbers at the index, from 0, are a byte's, or unused ones where the block's size
/// is at most the index.
fn place_code(
    b: ByteTerms,
    place: u64,
    size: TermId,
    layout: &Layout,
    terms: &mut Terms,
) -> Result<TermId, NoMemory>
    requires byte { IsByteTerms terms.old b }
    requires size { IsNarrow terms.old size }
    ensures made { IfOk result (λ id. Decides terms.new id (λ v. IsCodeOfPlace layout.now (nat_le (term_at v terms.old size) place) (byte_numbers v terms.old b))) }
    ensures kept { Keeps terms.old terms.new }
{
    let byte = byte_code(b, layout, terms)?;
    let unused = unused_code(b, terms)?;
    let is_past = at_most(size, place, terms)?;
    let id = pick(terms, is_past, unused, byte)?;
    Ok(id)
}

/// True where the numbers of a block's contents are those of a block of this size.
fn block_code(
    places: &[ByteTerms],
    size: TermId,
    layout: &Layout,
    terms: &mut Terms,
) -> Result<TermId, NoMemory>
    requires places { Each (IsByteTerms terms.old) places.now }
    requires size { IsNarrow terms.old size }
    ensures made { IfOk result (λ id. Decides terms.new id (λ v. IsCodeOfPlaces layout.now (length places.now) (term_at v terms.old size) (block_numbers v terms.old places.now))) }
    ensures kept { Keeps terms.old terms.new }
{
    let mut all = truth(terms, true)?;
    for (i, b) in places.iter().enumerate() {
        let one = place_code(*b, i as u64, size, layout, terms)?;
        all = both(terms, all, one)?;
    }
    Ok(all)
}

/// True where the numbers of all contents are those of given blocks of these sizes.
pub fn blocks_code(
    places: &[Sequence<ByteTerms>],
    sizes: &[TermId],
    layout: &Layout,
    terms: &mut Terms,
) -> Result<TermId, NoMemory>
    requires count { length sizes.now ≡ length places.now }
    requires sizes { Each (IsNarrow terms.old) sizes.now }
    requires places { Each (IsBlockTerms layout.now.bytes terms.old) places.now }
    ensures made { IfOk result (λ id. Decides terms.new id (λ v. IsCodeOfBlocks layout.now (map (term_at v terms.old) sizes.now) (flat_map (block_numbers v terms.old) places.now))) }
    ensures kept { Keeps terms.old terms.new }
{
    let mut all = truth(terms, true)?;
    for (i, size) in sizes.iter().enumerate() {
        let one = block_code(places[i].as_slice(), *size, layout, terms)?;
        all = both(terms, all, one)?;
    }
    Ok(all)
}
