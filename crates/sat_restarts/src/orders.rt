//! The order in which a solver decides at its start.

use clause_lits::Lit;
use std::alloc::Global;
use support::NoMemory;

/// How significant a bit is within its word, 0 the least, and its variable.
type Bit = (u32, u64);

/// The positive literals of the first variables, which are the bits of words of these widths, each with
/// its most significant bit first: the least significant bits of all words come first, then the next
/// ones. A sum's low bits are then known before its high ones.
pub fn by_significance(alloc: Global, widths: &[u32]) -> Result<Vec<Lit>, NoMemory> {
    let mut bits = Vec::new(alloc);
    for width in widths {
        push_bits(*width, &mut bits)?;
    }
    bits.sort_unstable();
    let mut literals = Vec::new(alloc);
    for (_, variable) in &bits {
        literals.push(Lit {
            variable: *variable,
            positive: true,
        })?;
    }
    Ok(literals)
}

/// Adds the bits of a word, the most significant one first.
fn push_bits(width: u32, bits: &mut Vec<Bit>) -> Result<(), NoMemory> {
    for bit in (0..width).rev() {
        let variable = (bits.len() as u64).saturating_add(1);
        bits.push((bit, variable))?;
    }
    Ok(())
}
