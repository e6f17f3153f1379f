//! A set of numbers that quickly finds the next number that is not in it.

ghost use Rattle.std.specs.Prelude.{◌≡◌, ◌⊎◌, ℕ, ◌+◌, ◌*◌, ◌^◌, ◌≤◌, ◌<◌, IfOk, MatchOption, length, vec_len};
ghost use Rattle.bplist_lint.specs.BitSets.{IsIn, AreSkips};

use std::alloc::{AllocError, Global};

/// The numbers in a block: eight words of 64 bits.
const BLOCK: u64 = 512;

fn first_outside(words: &[u64], from: u64, end: u64) -> Option<u64>
    requires within { end ≤ 64 * length words.now }
    requires low { end < 2 ^ 50 }
    ensures { MatchOption result ((k : ℕ) → from ≤ k → k < end → IsIn words.now k)
        (λ i. (from ≤ i) × (i < end) × (IsIn words.now i → ⊥) × ((k : ℕ) → from ≤ k → k < i → IsIn words.now k)) }
{
    let mut i = from;
    while i < end {
        let word = words[(i / 64) as usize];
        if word == u64::MAX {
            i = (i / 64 + 1) * 64;
        } else if (word >> (i % 64)) & 1 == 0 {
            return Some(i);
        } else {
            i += 1;
        }
    }
    None
}

/// A set of numbers below a fixed size.
#[derive(Drop)]
pub struct BitSet {
    size: u64,
    /// One bit for each number.
    words: Vec<u64>,
    /// For each block a block at or after it, such that all blocks between the two are full.
    skips: Vec<u32>,
    pub ghost room: { size ≤ 512 * vec_len skips },
    pub ghost whole: { vec_len words ≡ 8 * vec_len skips },
    pub ghost low: { vec_len skips < 2 ^ 32 },
    pub ghost skipping: { AreSkips words.items skips.items },
}

impl BitSet {
    /// Returns the empty set, for numbers below `size`.
    pub fn new(alloc: Global, size: u64) -> Result<BitSet, AllocError>
        requires { size < 2 ^ 40 }
        ensures size { IfOk result (λ set. set.size ≡ size) }
        ensures empty { IfOk result (λ set. (k : ℕ) → IsIn set.words.items k → ⊥) }
    {
        let blocks = (size / BLOCK + 1) as u32;
        let words = vec![in alloc; 0u64; 8 * blocks as usize]?;
        let mut skips = Vec::new(alloc);
        for block in 0..blocks {
            skips.push(block)?;
        }
        Ok(BitSet { size, words, skips })
    }

    /// Inserts number `i`, which must be below the size.
    pub fn insert(&mut self, i: u64)
        requires { i < self.old.size }
        ensures size { self.new.size ≡ self.old.size }
        ensures here { IsIn self.new.words.items i }
        ensures keeps { (k : ℕ) → IsIn self.old.words.items k → IsIn self.new.words.items k }
        ensures only { (k : ℕ) → IsIn self.new.words.items k → IsIn self.old.words.items k ⊎ (k ≡ i) }
    {
        let word = self.words[(i / 64) as usize] | 1u64 << (i % 64);
        self.words[(i / 64) as usize] = word;
        let block = i / BLOCK;
        if word == u64::MAX
            && first_outside(&self.words, BLOCK * block, BLOCK * block + BLOCK).is_none()
        {
            self.skips[block as usize] = block as u32 + 1;
        }
    }

    /// Returns the number of blocks if all from `block` on are known to be full. Shortens the skips that it follows.
    fn next_block(&mut self, block: usize) -> usize
        requires { block ≤ vec_len self.old.skips }
        ensures size { self.new.size ≡ self.old.size }
        ensures words { self.new.words ≡ self.old.words }
        ensures blocks { vec_len self.new.skips ≡ vec_len self.old.skips }
        ensures from { block ≤ result }
        ensures within { result ≤ vec_len self.old.skips }
        ensures between { (k : ℕ) → 512 * block ≤ k → k < 512 * result → IsIn self.old.words.items k }
    {
        let mut at = block;
        while at < self.skips.len() {
            let next = self.skips[at] as usize;
            if next == at {
                return at;
            }
            if next < self.skips.len() {
                self.skips[at] = self.skips[next];
            }
            at = next;
        }
        at
    }

    /// Returns the least number from `i` on that is not in the set, or the size if there is none.
    pub fn next_outside(&mut self, i: u64) -> u64
        requires { i ≤ self.old.size }
        ensures size { self.new.size ≡ self.old.size }
        ensures words { self.new.words ≡ self.old.words }
        ensures from { i ≤ result }
        ensures within { result ≤ self.old.size }
        ensures before { (k : ℕ) → i ≤ k → k < result → IsIn self.old.words.items k }
        ensures outside { result < self.old.size → IsIn self.old.words.items result → ⊥ }
    {
        let mut from = i;
        while from < self.size {
            let end = (from / BLOCK + 1) * BLOCK;
            if let Some(found) = first_outside(&self.words, from, end) {
                return found.min(self.size);
            }
            from = self.next_block((end / BLOCK) as usize) as u64 * BLOCK;
        }
        self.size
    }
}
