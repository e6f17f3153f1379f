//! Caches that save a check from reading the same texts again.
//!
//! [`OrderedPairsCache`] has key pairs known to be in order, so that dictionaries with the same keys do not compare
//! them again, and the ranks of long keys. [`LowBytesCache`] has stretches of the file that have only bytes below 128,
//! for rule 18: an Ascii text is not read again if many dictionaries name it, or if texts overlap.
//!
//! Two parts are there only for pairs of file and certificate that are refused: [`LowBytesCache`], which `check_texts`
//! alone asks, and the runs in [`OrderedPairsCache`].

ghost use Rattle.std.specs.Prelude.{◌≡◌, ◌+◌, ◌*◌, ℕ, List, IsTrue, ◌↔◌, ◌≤◌, ◌<◌, length, IfOk};
ghost use Rattle.std.specs.Result.{result_err};
ghost use Rattle.bplist_cert.specs.Prelude.{Frame as frame, Ascends, AreKnown, OnlyReads, Honestly, IsLow, AreLowStretches};

use bplist_keys::{LongTexts, RunCache};
use bplist_objects::first_high_in;
use bplist_octets::{ReadFault, Source};

/// The number of slots: a prime, so that pairs with near numbers get slots of their own.
const PAIR_SLOTS: usize = 2039;

/// The number of stretches that are kept.
const STRETCHES: usize = 256;

/// Pairs of objects that are texts, the first before the second. The table takes 16 KiB, and a new pair replaces the
/// one in its slot. A pair is stored as one number, and 0 means none.
#[derive(Drop)]
pub(crate) struct OrderedPairsCache<'a> {
    pub slots: [u64; PAIR_SLOTS],
    /// The runs of the texts compared so far. They are for texts that overlap. In a file that is accepted, rule 31
    /// bounds how much that is, so there they save little.
    pub runs: RunCache,
    /// The ranks of long keys. There are none until pairs of long keys were compared that together have as many units
    /// as the file has bytes. Few files come to that, but a sound one can.
    pub long: LongTexts<'a>,
}

impl<'a> OrderedPairsCache<'a> {
    pub(crate) fn new(len: u64, heights: &'a [u32]) -> OrderedPairsCache<'a>
        ensures { (f : List ℕ) (F : frame) → AreKnown f F result }
    {
        OrderedPairsCache {
            slots: [0; PAIR_SLOTS],
            runs: RunCache::new(),
            long: LongTexts::new(len, heights),
        }
    }

    pub(crate) fn has(&self, a: u32, b: u32) -> bool
        ensures { (f : List ℕ) (F : frame) → AreKnown f F self.now → IsTrue result → Ascends f F a b }
    {
        let pair = pair_of(a, b);
        if pair != 0 && self.slots[(pair % PAIR_SLOTS as u64) as usize] == pair {
            return true;
        }
        match self.long.known(a, b) {
            Some(order) => order.is_lt(),
            None => false,
        }
    }

    pub(crate) fn insert(&mut self, a: u32, b: u32)
        ensures { (f : List ℕ) (F : frame) → AreKnown f F self.old → Ascends f F a b → AreKnown f F self.new }
    {
        let pair = pair_of(a, b);
        self.slots[(pair % PAIR_SLOTS as u64) as usize] = pair;
    }
}

/// The bytes from place `from` up to, and without, place `to`.
#[derive(Clone, Copy)]
pub(crate) struct Stretch {
    pub from: u64,
    pub to: u64,
}

/// One stretch for each part of the file: the longest that begins in that part, joined with those that it meets. Only
/// `check_texts` asks it, so a pair that is accepted never does.
#[derive(Drop)]
pub(crate) struct LowBytesCache {
    pub slots: [Stretch; STRETCHES],
    /// The number of bytes in a part of the file. 0 counts as 1.
    part: u64,
}

impl LowBytesCache {
    pub(crate) fn new(len: u64) -> LowBytesCache
        ensures { (f : List ℕ) → AreLowStretches f result.slots }
    {
        LowBytesCache {
            slots: [Stretch { from: 0, to: 0 }; STRETCHES],
            part: len / STRETCHES as u64,
        }
    }

    /// Reads only the bytes that are not known to be below 128.
    pub(crate) fn covers<S: Source>(
        &mut self,
        src: &mut S,
        from: u64,
        to: u64,
    ) -> Result<bool, ReadFault>
        requires order { from ≤ to }
        requires within { to ≤ length (S.means src.old).octets }
        ensures reads { OnlyReads (result_err result) (S.means src.old) (S.means src.new) }
        ensures exact { Honestly (S.means src.old) (λ f. AreLowStretches f self.old.slots
            → IfOk result (λ low. AreLowStretches f self.new.slots × (IsTrue low ↔ IsLow f from to))) }
    {
        // The slot of the part that the first byte is in.
        let slot = (from / self.part.max(1) % STRETCHES as u64) as usize;
        let known = self.slots[slot];
        let begin = known.from.max(from).min(to);
        let end = known.to.max(begin).min(to);
        if first_high_in(src, from, begin - from)?.is_some()
            || first_high_in(src, end, to - end)?.is_some()
        {
            return Ok(false);
        }
        self.slots[slot] = joined(known, Stretch { from, to });
        Ok(true)
    }
}

fn pair_of(a: u32, b: u32) -> u64
    ensures { result ≡ a * 4294967296 + b }
{
    a as u64 * 4_294_967_296 + b as u64
}

/// If the two do not meet, the longer one stays.
fn joined(known: Stretch, found: Stretch) -> Stretch
    ensures { (f : List ℕ) → IsLow f known.from known.to → IsLow f found.from found.to → IsLow f result.from result.to }
{
    if found.from <= known.to && known.from <= found.to {
        return Stretch {
            from: known.from.min(found.from),
            to: known.to.max(found.to),
        };
    }
    if known.to.saturating_sub(known.from) < found.to.saturating_sub(found.from) {
        found
    } else {
        known
    }
}
