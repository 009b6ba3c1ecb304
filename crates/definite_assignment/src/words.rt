//! Words whose bits are names: 64 names a word, from the lowest bit of the first word on.
ghost use Rattle.std.specs.Prelude.{◌≡◌, ◌<◌, ◌*◌, ◌/◌, ◌%◌, ◌^◌, ℕ, length, bit_and, bit_or, slice_index_or, slice_set, true, false, ◌≢◌, ◌+◌, IfOk, replicate};
ghost use Rattle.definite_assignment.specs.Sets.{has_bit};

use std::alloc::Global;
use support::NoMemory;

const BITS: usize = 64;

/// Enough words for this number of names, all alike.
pub fn alike(alloc: Global, word: u64, names: usize) -> Result<Vec<u64>, NoMemory>
    ensures { IfOk result (λ words. words.items ≡ replicate (names / 64 + 1) word) }
{
    let words = vec![in alloc; word; names / BITS + 1]?;
    Ok(words)
}

/// Whether the words have a name; no name past them is in them.
pub fn has(words: &[u64], name: usize) -> bool
    ensures { result ≡ has_bit words.now name }
{
    let word = words.get(name / BITS).copied().unwrap_or(0);
    (word >> (name % BITS)) & 1 == 1
}

/// Adds a name.
pub fn add(words: &mut [u64], name: usize)
    requires { name < 64 * length words.old }
    ensures { words.new ≡ slice_set words.old (name / 64) (bit_or (slice_index_or words.old (name / 64) 0) (1 * 2 ^ (name % 64) % 2 ^ 64)) }
{
    words[name / BITS] |= 1 << (name % BITS);
}

/// Takes each name out that the others lack, and returns whether there was one.
pub fn cut(words: &mut [u64], others: &[u64]) -> bool
    requires { length words.old ≡ length others.now }
    ensures fits { (k : ℕ) → slice_index_or words.old k 0 < 2 ^ 64 }
    ensures both { (k : ℕ) → slice_index_or words.new k 0 ≡ bit_and (slice_index_or words.old k 0) (slice_index_or others.now k 0) }
    ensures same { result ≡ false → words.new ≡ words.old }
    ensures changed { result ≡ true → (k : ℕ) × (k < length words.old) × (slice_index_or words.new k 0 ≢ slice_index_or words.old k 0) }
{
    let mut changed = false;
    for i in 0..words.len() {
        let kept = words[i] & others[i];
        changed |= kept != words[i];
        words[i] = kept;
    }
    changed
}
