ghost use Rattle.std.specs.Prelude.{◌≡◌, ℕ, ◌+◌, ◌*◌, ◌^◌, ◌<◌, ◌≤◌, bit_and, IsTrue, IsFalse, length, MatchOption};
ghost use Rattle.points.specs.Code.{name_digit, BlockFits, PointerFits, ByteFits};
ghost use Rattle.points.specs.Next.{pointer_number, IsNextByte, IsLastByte, PlacesFit, IsNextPlaces, IsLastPlaces, from_place, zero_byte};

use crate::point::Layout;
use byte_block::{BlockName, Byte, Ptr};
use support::Sequence;

/// The next of null and the given blocks.
fn next_name(name: BlockName, layout: &Layout) -> Option<BlockName>
    requires { BlockFits layout.now name }
    ensures { MatchOption result (name_digit layout.now name ≡ layout.now.blocks) (λ next. BlockFits layout.now next × (name_digit layout.now next ≡ name_digit layout.now name + 1)) }
{
    match name {
        BlockName::Null => {
            if 0 < layout.blocks {
                Some(BlockName::Given(1))
            } else {
                None
            }
        }
        BlockName::Given(number) => {
            if number < layout.blocks {
                Some(BlockName::Given(number + 1))
            } else {
                None
            }
        }
        BlockName::Local(..) => None,
    }
}

/// The next pointer, the offset least significant.
pub fn next_pointer(pointer: Ptr, layout: &Layout) -> Option<Ptr>
    requires { PointerFits layout.now pointer }
    ensures { MatchOption result (pointer_number layout.now pointer + 1 ≡ (layout.now.blocks + 1) * 2 ^ 64) (λ next. PointerFits layout.now next × (pointer_number layout.now next ≡ pointer_number layout.now pointer + 1)) }
{
    if pointer.offset < u64::MAX {
        return Some(Ptr {
            block: pointer.block,
            offset: pointer.offset + 1,
        });
    }
    match next_name(pointer.block, layout) {
        Some(block) => Some(Ptr { block, offset: 0 }),
        None => None,
    }
}

/// What comes after a part of a pointer: its next part, the first part of the next pointer, or the
/// first byte with a bit that is poison.
fn byte_behind(pointer: Ptr, part: u8, layout: &Layout) -> Byte
    requires { ByteFits layout.now (Byte.Part pointer part) }
    ensures { IsNextByte layout.now (Byte.Part pointer part) result }
{
    if part < 7 {
        return Byte::Part(pointer, part + 1);
    }
    match next_pointer(pointer, layout) {
        Some(next) => Byte::Part(next, 0),
        None => Byte::Bits { number: 0, mask: 1 },
    }
}

/// The next number without a bit of the mask.
fn number_apart(number: u8, mask: u8) -> Option<u8>
    ensures { MatchOption result ((n : ℕ) → number < n → n < 2 ^ 8 → bit_and n mask ≡ 0 → ⊥) (λ next. (number < next) × (bit_and next mask ≡ 0) × ((n : ℕ) → number < n → n < next → bit_and n mask ≡ 0 → ⊥)) }
{
    for n in number..u8::MAX {
        if (n + 1) & mask == 0 {
            return Some(n + 1);
        }
    }
    None
}

/// What comes after bits without poison: the next number, or the first part of a pointer.
fn byte_behind_number(number: u8, layout: &Layout) -> Byte
    ensures { IsNextByte layout.now (Byte.Bits number 0) result }
{
    if number < u8::MAX {
        return Byte::Bits {
            number: number + 1,
            mask: 0,
        };
    }
    Byte::Part(
        Ptr {
            block: BlockName::Null,
            offset: 0,
        },
        0,
    )
}

/// What comes after bits with poison: the next number without a bit of the mask, or the next mask
/// with the number 0.
fn byte_behind_mask(number: u8, mask: u8, layout: &Layout) -> Option<Byte>
    requires some { 0 < mask }
    requires fits { ByteFits layout.now (Byte.Bits number mask) }
    ensures { MatchOption result (IsLastByte layout.now (Byte.Bits number mask)) (λ next. IsNextByte layout.now (Byte.Bits number mask) next) }
{
    if let Some(next) = number_apart(number, mask) {
        return Some(Byte::Bits { number: next, mask });
    }
    if mask < u8::MAX {
        return Some(Byte::Bits {
            number: 0,
            mask: mask + 1,
        });
    }
    None
}

/// The next byte: bits without poison, then the parts of pointers, then bits with poison, by their
/// masks.
fn next_byte(byte: Byte, layout: &Layout) -> Option<Byte>
    requires { ByteFits layout.now byte }
    ensures { MatchOption result (IsLastByte layout.now byte) (λ next. IsNextByte layout.now byte next) }
{
    match byte {
        Byte::Bits { number, mask } => {
            if mask == 0 {
                Some(byte_behind_number(number, layout))
            } else {
                byte_behind_mask(number, mask, layout)
            }
        }
        Byte::Part(pointer, part) => Some(byte_behind(pointer, part, layout)),
    }
}

/// Writes the number 0 from an index on.
pub fn zero_bytes(places: &mut Sequence<Byte>, from: usize)
    requires { from ≤ length places.old }
    ensures { places.new ≡ from_place zero_byte from places.old }
{
    for i in from..places.len() {
        places.set(i, Byte::Bits { number: 0, mask: 0 });
    }
}

/// Replaces the contents of a block of this size by the next ones. It answers false exactly at the
/// last ones, which then stay.
pub fn next_bytes(places: &mut Sequence<Byte>, size: u64, layout: &Layout) -> bool
    requires room { size ≤ length places.old }
    requires fit { PlacesFit layout.now (length places.old) size places.old }
    ensures next { IsTrue result → IsNextPlaces layout.now (length places.old) size places.old places.new }
    ensures last { IsFalse result → IsLastPlaces layout.now (length places.old) size places.old × (places.new ≡ places.old) }
{
    for i in (0..size as usize).rev() {
        if let Some(byte) = next_byte(*places.get(i), layout) {
            places.set(i, byte);
            zero_bytes(places, i + 1);
            return true;
        }
    }
    false
}
