//! The references of an object, block by block.

ghost use Rattle.std.specs.Prelude.{◌≡◌, ◌≤◌, ◌<◌, ◌+◌, ◌*◌, ℕ, IfOk, OnOk, OnErr, IsTrue, false, length};
ghost use Rattle.std.specs.Prelude.{slice_index, take};
ghost use Rattle.std.specs.Result.{result_err};
ghost use Rattle.bplist_objects.specs.Safe.{IsSafeHead, ref_count};
ghost use Rattle.bplist_objects.specs.Framed.{HonestlyIn, frame_in};
ghost use Rattle.bplist_objects.specs.Scan.{ref};
ghost use Rattle.bplist_octets.specs.Meaning.{OnlyReads};
ghost use Rattle.bplist_objects.specs.declared.head.Kind.TheVariants.{Dict};

use crate::framed::{Framed, read_refs_in};
use crate::head::Head;
use crate::refs::refs_of;
use bplist_octets::ReadFault;
use std::marker::Model;

/// The most references in one block. It is small because most objects have few, and the block is cleared for each.
const BLOCK: usize = 32;

/// Reads the references of an object, block by block.
#[derive(Drop)]
pub struct RefBlocks {
    head: Head,
    /// How many of the object's references are to be read.
    bound: u64,
    /// The number of the reference after the block.
    next: u64,
    /// How many references the block has.
    held: usize,
    block: [u64; BLOCK],
}

impl Model for RefBlocks {
    ghost use Rattle.std.specs.Prelude.{◌-◌, ◌≤◌, take};
    ghost use Rattle.bplist_objects.specs.Safe.{ref_count};
    ghost use Rattle.bplist_objects.specs.RefBlocks.{RefReading};

    ghost Value = { RefReading };

    ghost view = { λ r. record {
      head = r.head;
      bound = r.bound;
      first = r.next - r.held;
      next = r.next;
      block = take r.held r.block;
    } };

    ghost invariant = { λ r. (r.held ≤ r.next) × (r.held ≤ 32) × (r.next ≤ r.bound)
        × (r.bound ≤ ref_count r.head.kind r.head.count) };
}

#[inline(always)]
fn read_front<P: Framed>(
    src: &mut P,
    head: &Head,
    from: u64,
    into: &mut [u64],
    count: usize,
) -> Result<(), ReadFault>
    requires head { IsSafeHead (frame_in (P.means src.old)) head.now }
    requires within { from + count ≤ ref_count head.now.kind head.now.count }
    requires room { count ≤ length into.old }
    ensures reads { OnlyReads (result_err result) (P.means src.old) (P.means src.new) }
    ensures asks { P.asked src.new ≤ P.asked src.old + count * (frame_in (P.means src.old)).ref_size }
    ensures numbers { HonestlyIn (P.means src.old) (λ f F. OnOk result ((k : ℕ) → k < count
        → slice_index (take count into.new) k ≡ ref f F head.now (from + k))) }
{
    read_refs_in(src, head, from, &mut into[..count])
}

impl RefBlocks {
    ghost use Rattle.bplist_objects.specs.RefBlocks.{AreOf, IsBlock};

    /// Returns the references of an object with this head. None of them is read yet.
    #[inline(always)]
    pub fn of<P: Framed>(src: &P, head: &Head) -> RefBlocks
        requires { IsSafeHead (frame_in (P.means src.now)) head.now }
        ensures of { AreOf head.now (ref_count head.now.kind head.now.count) result }
        ensures start { result.next ≡ 0 }
    {
        let _frame = src.frame();
        RefBlocks {
            head: *head,
            bound: refs_of(head),
            next: 0,
            held: 0,
            block: [0; BLOCK],
        }
    }

    /// Returns the references to the keys of a dictionary with this head. None of them is read yet.
    #[inline(always)]
    pub fn keys_of(head: &Head) -> RefBlocks
        requires { head.now.kind ≡ Dict }
        ensures of { AreOf head.now head.now.count result }
        ensures start { result.next ≡ 0 }
    {
        RefBlocks {
            head: *head,
            bound: head.count,
            next: 0,
            held: 0,
            block: [0; BLOCK],
        }
    }

    /// Reads the next block. Returns false if there are no more references. After a failed read the same block is next,
    /// and `block` may lend anything.
    #[inline(always)]
    pub fn read<P: Framed>(&mut self, src: &mut P) -> Result<bool, ReadFault>
        requires { IsSafeHead (frame_in (P.means src.old)) self.old.head }
        ensures reads { OnlyReads (result_err result) (P.means src.old) (P.means src.new) }
        ensures asks { P.asked src.new + self.old.next * (frame_in (P.means src.old)).ref_size
            ≤ P.asked src.old + self.old.bound * (frame_in (P.means src.old)).ref_size }
        ensures asks_block { IfOk result (λ _. P.asked src.new + self.old.next * (frame_in (P.means src.old)).ref_size
            ≤ P.asked src.old + self.new.next * (frame_in (P.means src.old)).ref_size) }
        ensures same { AreOf self.old.head self.old.bound self.new }
        ensures stays { OnErr result (self.new.next ≡ self.old.next) }
        ensures next { IfOk result (λ more. IsTrue more
            → IsBlock (P.means src.old) self.old.head self.old.bound self.old.next self.new.next self.new.block) }
        ensures first { IfOk result (λ more. IsTrue more → self.new.first ≡ self.old.next) }
        ensures end { IfOk result (λ more. more ≡ false → (self.new ≡ self.old) × (self.old.next ≡ self.old.bound)) }
    {
        if self.next == self.bound {
            return Ok(false);
        }
        let head = self.head;
        let count = (self.bound - self.next).min(BLOCK as u64);
        read_front(src, &head, self.next, &mut self.block, count as usize)?;
        self.held = count as usize;
        self.next += count;
        Ok(true)
    }

    /// Returns the number of the first reference of the block that was read last.
    #[inline(always)]
    pub fn first(&self) -> u64
        ensures { result ≡ self.now.first }
    {
        self.next - self.held as u64
    }

    /// Returns the references of the block that was read last.
    #[inline(always)]
    pub fn block(&self) -> &[u64]
        ensures { result.now ≡ self.now.block }
    {
        &self.block[..self.held]
    }
}
