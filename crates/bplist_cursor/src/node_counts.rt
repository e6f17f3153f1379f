//! Counts the nodes of a value by its containers alone. No leaf is read.
//!
//! The objects are counted in the order of their heights, in which each comes after those to which it refers. `sizes`
//! uses the same order.

ghost use Rattle.std.specs.Prelude.{◌≡◌, ℕ, ◌+◌, ◌*◌, ◌<◌, ◌≤◌, List, length, slice_index, sum_by, Err, IfOk, IfErr};
ghost use Rattle.std.specs.List.{AllByRecursion};
ghost use Rattle.bplist_cursor.specs.Prelude.{HonestlyChecked, Value, Content, Spells, refs, content_at, Holds};
ghost use Rattle.bplist_cursor.specs.Prelude.{IsSafeHead, IsValid, HonestlyAt, VouchesFor, GivesRead, read_failed, GivesCursor};
ghost use Rattle.bplist_cursor.specs.Prelude.{cursor_read, OnlyReadsFile, cap, nodes, AreInside, IsOrder, IsCounted};
ghost use Rattle.bplist_cursor.specs.Prelude.{AreCounted, AreHigher, AreOnce, Memory, TakeOctets, Takes, pass_bytes};
ghost use Rattle.bplist_cursor.specs.Prelude.{ref_count};
ghost use Rattle.bplist_cursor.specs.declared.faults.CursorFault.TheVariants.{Changed};

use crate::faults::{CursorFault, Unread};
use crate::node::{Node, checked_head};
use bplist_cert::Checked;
use bplist_objects::{Head, ObjectNo, RefBlocks};
use bplist_octets::{Source, entry_or};
use std::alloc::Global;

fn higher_than<S: Source>(
    alloc: Global,
    checked: &Checked<S>,
    height: u32,
) -> Result<Vec<u32>, CursorFault>
    ensures once { IfOk result (λ order. AreOnce checked.now.frame.objects order.items) }
    ensures higher { IfOk result (λ order. AreHigher checked.now.certificate.heights height checked.now.frame.objects order.items) }
    ensures memory { IfErr result (λ e. e ≡ Memory) }
{
    let heights = &checked.certificate().heights;
    let count = heights.iter().filter(|other| **other > height).count();
    let mut order = Vec::with_capacity(alloc, count)?;
    for n in 0..checked.frame().objects {
        if checked.height(ObjectNo(n)) > height {
            order.push(n)?;
        }
    }
    Ok(order)
}

/// An object of height 0 is not vouched for, and one of height 1 has no references.
pub(crate) fn in_order<S: Source>(
    alloc: Global,
    checked: &Checked<S>,
    height: u32,
) -> Result<Vec<u32>, CursorFault>
    ensures once { IfOk result (λ order. AreOnce checked.now.frame.objects order.items) }
    ensures order { IfOk result (λ order. IsOrder checked.now.certificate.heights height order.items) }
    ensures inside { IfOk result (λ order. AreInside order.items checked.now.frame.objects) }
    ensures memory { IfErr result (λ e. e ≡ Memory) }
{
    let _frame = checked.frame();
    let mut order = higher_than(alloc, checked, height)?;
    order.sort_unstable_by_key(|n| checked.height(ObjectNo(*n)));
    Ok(order)
}

fn add_counts(counts: &[u64], objects: &[u64], start: u64) -> u64
    ensures { result ≡ cap (start + sum_by (slice_index counts.now) objects.now) }
{
    let mut total = start;
    for n in objects {
        total = total.saturating_add(entry_or(counts, *n, 0));
    }
    total
}

fn count_refs<S: Source>(
    checked: &mut Checked<S>,
    head: &Head,
    counts: &[u64],
) -> Result<u64, Unread>
    requires { IsSafeHead checked.old.frame head.now }
    ensures reads { OnlyReadsFile (read_failed result) checked.old checked.new }
    ensures asks { checked.new.asked ≤ checked.old.asked + ref_count head.now.kind head.now.count * checked.old.frame.ref_size }
    ensures exact { HonestlyChecked checked.old (λ f F. GivesRead
        (λ total. total ≡ cap (1 + sum_by (slice_index counts.now) (refs (content_at f F head.now)))) result) }
{
    let mut refs = RefBlocks::of(checked, head);
    let mut total = 1u64;
    while refs.read(checked)? {
        total = add_counts(counts, refs.block(), total);
    }
    Ok(total)
}

fn count_object<S: Source>(
    checked: &mut Checked<S>,
    n: ObjectNo,
    counts: &[u64],
) -> Result<u64, Unread>
    requires { n.0 < checked.old.frame.objects }
    ensures reads { OnlyReadsFile (read_failed result) checked.old checked.new }
    ensures asks { HonestlyChecked checked.old (λ f F. (e : ℕ) → Takes f F n.0 e → checked.new.asked ≤ checked.old.asked + (28 + e)) }
    ensures exact { HonestlyChecked checked.old (λ f F. (v : Value) → Holds f F n.0 v
        → ((c : Content) → Spells f F n.0 c → AllByRecursion (IsCounted f F counts.now) (refs c))
        → GivesRead (λ count. count ≡ cap (nodes v)) result) }
{
    let head = checked_head(checked, n)?;
    count_refs(checked, &head, counts)
}

/// Each object must come after those to which it refers; objects of height 1 have their count from the start.
fn count_in_order<S: Source>(
    checked: &mut Checked<S>,
    order: &[u32],
    counts: &mut [u64],
) -> Result<(), Unread>
    requires inside { AreInside order.now checked.old.frame.objects }
    requires count { length counts.old ≡ checked.old.frame.objects }
    ensures reads { OnlyReadsFile (read_failed result) checked.old checked.new }
    ensures asks { HonestlyChecked checked.old (λ f F. (t : ℕ) → TakeOctets f F order.now t
        → checked.new.asked ≤ checked.old.asked + (28 * length order.now + t)) }
    ensures exact { HonestlyChecked checked.old (λ f F. (heights : List ℕ) → IsValid f F heights → IsOrder heights 1 order.now
        → AreCounted f F heights order.now 0 counts.old
        → GivesRead (λ _. AreCounted f F heights order.now (length order.now) counts.new) result) }
{
    for n in order {
        counts[*n as usize] = count_object(checked, ObjectNo(*n), counts)?;
    }
    Ok(())
}

fn count_all<S: Source>(alloc: Global, checked: &mut Checked<S>) -> Result<Vec<u64>, CursorFault>
    ensures reads { OnlyReadsFile (cursor_read result) checked.old checked.new }
    ensures asks { HonestlyChecked checked.old (λ f F. checked.new.asked ≤ checked.old.asked + pass_bytes F) }
    ensures exact { HonestlyChecked checked.old (λ f F. GivesCursor (λ counts. (n : ℕ)
        → VouchesFor checked.old n → IsCounted f F counts.items n) result) }
{
    let objects = checked.frame().objects;
    let order = in_order(alloc, checked, 1)?;
    let mut counts = vec![in alloc; 1; objects as usize]?;
    count_in_order(checked, &order, &mut counts)?;
    Ok(counts)
}

/// Returns the number of nodes of a node's value, or 18446744073709551615 if there are more.
///
/// An object of height 1 counts as one node and is not read. Each other object is read once, after those to which it
/// refers, so a shared object costs no more than another one. Memory is taken by the number of objects.
///
/// Errors: `Changed` if the certificate does not vouch for the object, or if the source gives other bytes than those
/// that were checked; `Read` if a read of the source failed; `Memory` if an allocation was refused.
pub fn count_nodes<S: Source>(
    alloc: Global,
    checked: &mut Checked<S>,
    node: Node,
) -> Result<u64, CursorFault>
    ensures reads { OnlyReadsFile (cursor_read result) checked.old checked.new }
    ensures asks { HonestlyChecked checked.old (λ f F. checked.new.asked ≤ checked.old.asked + pass_bytes F) }
    ensures exact { HonestlyAt checked.old node.object.0 (λ f F n. (v : Value) → Holds f F n v
        → GivesCursor (λ count. count ≡ cap (nodes v)) result) }
    ensures unvouched { (VouchesFor checked.old node.object.0 → ⊥) → result ≡ Err Changed }
{
    let _frame = checked.frame();
    if checked.height(node.object) == 0 {
        return Err(CursorFault::Changed);
    }
    let counts = count_all(alloc, checked)?;
    Ok(entry_or(&counts, node.object.0 as u64, 0))
}
