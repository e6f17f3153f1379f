//! The units of a text, block by block.

ghost use Rattle.std.specs.Prelude.{◌≡◌, ◌≤◌, ◌+◌, ◌*◌, IfOk, OnOk, OnErr, IsTrue, false, length, take};
ghost use Rattle.std.specs.Result.{result_err};
ghost use Rattle.bplist_octets.specs.Meaning.{OnlyReads, Honestly};
ghost use Rattle.bplist_octets.specs.Octets.{part};
ghost use Rattle.bplist_objects.specs.Announced.{item_size};
ghost use Rattle.bplist_objects.specs.Safe.{IsSafeText};
ghost use Rattle.bplist_objects.specs.Units.{units_of};

use crate::head::Head;
use crate::leaf::read_units;
use bplist_octets::{ReadFault, Source};
use std::marker::Model;

/// The most units in one block.
const BLOCK: usize = 128;

/// Reads the units of a text, block by block.
#[derive(Drop)]
pub struct UnitBlocks {
    head: Head,
    /// The number of the unit after the block.
    next: u64,
    /// How many units the block has.
    held: usize,
    block: [u16; BLOCK],
}

impl Model for UnitBlocks {
    ghost use Rattle.std.specs.Prelude.{◌≤◌, take};
    ghost use Rattle.bplist_objects.specs.UnitBlocks.{UnitReading};

    ghost Value = { UnitReading };

    ghost view = { λ u. record { head = u.head; next = u.next; block = take u.held u.block } };

    ghost invariant = { λ u. (u.next ≤ u.head.count) × (u.held ≤ 128) };
}

#[inline(always)]
fn read_front<S: Source>(
    src: &mut S,
    head: &Head,
    from: u64,
    into: &mut [u16],
    count: usize,
) -> Result<(), ReadFault>
    requires text { IsSafeText (length (S.means src.old).octets) head.now }
    requires within { from + count ≤ head.now.count }
    requires room { count ≤ length into.old }
    ensures reads { OnlyReads (result_err result) (S.means src.old) (S.means src.new) }
    ensures asks { S.asked src.new ≤ S.asked src.old + count * item_size 1 head.now.kind }
    ensures units { OnOk result (Honestly (S.means src.old)
        (λ f. take count into.new ≡ part (units_of f head.now) from count)) }
{
    read_units(src, head, from, &mut into[..count])
}

impl UnitBlocks {
    ghost use Rattle.bplist_objects.specs.UnitBlocks.{IsUnitBlock};

    /// Returns the units of a text with this head. None of them is read yet.
    #[inline(always)]
    pub fn of(head: &Head) -> UnitBlocks
        ensures of { result.head ≡ head.now }
        ensures start { result.next ≡ 0 }
    {
        UnitBlocks {
            head: *head,
            next: 0,
            held: 0,
            block: [0; BLOCK],
        }
    }

    /// Reads the next block. Returns false if there are no more units. After a failed read the same block is next, and
    /// `block` may lend anything.
    #[inline(always)]
    pub fn read<S: Source>(&mut self, src: &mut S) -> Result<bool, ReadFault>
        requires text { IsSafeText (length (S.means src.old).octets) self.old.head }
        ensures reads { OnlyReads (result_err result) (S.means src.old) (S.means src.new) }
        ensures asks { S.asked src.new + self.old.next * item_size 1 self.old.head.kind
            ≤ S.asked src.old + self.old.head.count * item_size 1 self.old.head.kind }
        ensures asks_block { IfOk result (λ _. S.asked src.new + self.old.next * item_size 1 self.old.head.kind
            ≤ S.asked src.old + self.new.next * item_size 1 self.old.head.kind) }
        ensures same { self.new.head ≡ self.old.head }
        ensures stays { OnErr result (self.new.next ≡ self.old.next) }
        ensures next { IfOk result (λ more. IsTrue more
            → IsUnitBlock (S.means src.old) self.old.head self.old.next self.new.next self.new.block) }
        ensures end { IfOk result (λ more. more ≡ false
            → (self.new ≡ self.old) × (self.old.next ≡ self.old.head.count)) }
    {
        if self.next == self.head.count {
            return Ok(false);
        }
        let head = self.head;
        let count = (head.count - self.next).min(BLOCK as u64);
        read_front(src, &head, self.next, &mut self.block, count as usize)?;
        self.held = count as usize;
        self.next += count;
        Ok(true)
    }

    /// Returns the units of the block that was read last.
    #[inline(always)]
    pub fn block(&self) -> &[u16]
        ensures units { result.now ≡ self.now.block }
        ensures few { length result.now ≤ 128 }
    {
        &self.block[..self.held]
    }
}
