//! Checks the keys and finds the heights in one quick pass over the containers. It succeeds if no key is wrong, and if
//! each container comes before what it refers to, as in the files of all usual writers.

ghost use Rattle.std.specs.Prelude.{◌≡◌, ◌+◌, ◌*◌, ◌≤◌, ◌<◌, ◌↔◌, ℕ, Bool, List, None, IfOk, IfSome, IsTrue, length, map, slice_index, vec_len};
ghost use Rattle.std.specs.Result.{result_err};
ghost use Rattle.bplist_lint.specs.Prelude.{OnlyReads, frame_in, HonestlyIn, Dict, HasHead, Head as head_record};
ghost use Rattle.bplist_lint.specs.Prelude.{KeepsAll, KeepsByObject, object_rules, AreClassed, KeysAreSound, IsStamped};
ghost use Rattle.bplist_lint.specs.Prelude.{IsNew, HasGoodKeys, Reach, IsMarked, KeepReached, reach_rules, AreChildless};
ghost use Rattle.bplist_lint.specs.Prelude.{AreNamed, AreClasses, Judges, refused_read, Never, key_rules, AreFound};
ghost use Rattle.bplist_lint.specs.Prelude.{from_bool, AreMeasured, HasHeight, AreFinished, extent, extents_below, is_marked};

use crate::graph::{BLOCK, shape_there};
use bplist_cert::Refusal;
use bplist_keys::{ClassTable, KeyNumbers, numbers_of};
use bplist_objects::{Framed, Offsets, read_refs_in, refs_of};
use bplist_octets::{ReadFault, entry_or};
use std::alloc::Global;

/// Returns None if one of the objects has no height.
fn greatest_height(heights: &[u32], numbers: &[u64]) -> Option<u32>
    ensures { IfSome result (AreMeasured heights.now numbers.now) }
{
    let mut best = 0;
    for m in numbers {
        let height = entry_or(heights, *m, 0);
        if height == 0 {
            return None;
        }
        best = best.max(height);
    }
    Some(best)
}

/// Returns None if a key is not good or a value has no height.
fn container_height<P: Offsets>(
    src: &mut P,
    n: u32,
    table: &mut ClassTable,
    heights: &[u32],
    block: &mut [u64],
) -> Result<Option<u32>, ReadFault>
    requires within { n < (frame_in (P.means src.old)).objects }
    requires room { 1 ≤ length block.old }
    ensures reads { OnlyReads (result_err result) (P.means src.old) (P.means src.new) }
    ensures asks { HonestlyIn (P.means src.old) (λ f F. P.asked src.new ≤ P.asked src.old + (36 + extent f F n)) }
    ensures room { length block.new ≡ length block.old }
    ensures same { table.new.classes.table.items ≡ table.old.classes.table.items }
    ensures stamped { IsStamped n table.old.seen.items table.new.seen.items }
    ensures exact { HonestlyIn (P.means src.old) (λ f F. KeepsAll (KeepsByObject f F n) object_rules
        → ((head : head_record) → HasHead f F n head → head.kind ≡ Dict
        → AreClassed f F table.old.classes.table.items head × KeysAreSound f F head)
        → IsNew table.old.seen.items n
        → IfOk result (λ found. IfSome found (λ height. HasGoodKeys f F None n × HasHeight f F heights.now n height))) }
{
    let _frame = src.frame();
    let Some(head) = shape_there(src, n)? else {
        return Ok(None);
    };
    let refs = refs_of(&head);
    let mut best = 0u32;
    let mut done = 0u64;
    while done < refs {
        let now = (refs - done).min(block.len() as u64) as usize;
        read_refs_in(src, &head, done, &mut block[..now])?;
        let (keys, values) = block[..now].split_at(head.keys_among(done, now));
        if !table.are_new(n, keys, done.min(head.count)) {
            return Ok(None);
        }
        let Some(height) = greatest_height(heights, values) else {
            return Ok(None);
        };
        best = best.max(height);
        done += now as u64;
    }
    Ok(best.checked_add(1))
}

/// Goes from the last object to the first.
fn measure_containers<P: Offsets>(
    src: &mut P,
    marks: &[bool],
    childless: &[bool],
    table: &mut ClassTable,
    heights: &mut [u32],
) -> Result<bool, ReadFault>
    requires marks { length marks.now ≡ (frame_in (P.means src.old)).objects }
    requires childless { length childless.now ≡ (frame_in (P.means src.old)).objects }
    requires heights { length heights.old ≡ (frame_in (P.means src.old)).objects }
    ensures reads { OnlyReads (result_err result) (P.means src.old) (P.means src.new) }
    ensures asks { HonestlyIn (P.means src.old) (λ f F. P.asked src.new
        ≤ P.asked src.old + (36 * F.objects + extents_below f F (is_marked marks.now) F.objects)) }
    ensures all { length heights.new ≡ length heights.old }
    ensures same { table.new.classes.table.items ≡ table.old.classes.table.items }
    ensures exact { HonestlyIn (P.means src.old) (λ f F. (named : List Bool) → ((n : ℕ) → IsMarked marks.now n ↔ Reach f F n)
        → KeepReached f F reach_rules F.objects → AreChildless f F childless.now
        → AreNamed f F named → AreClasses f F named table.old.classes.table.items
        → ((x : ℕ) → slice_index table.old.seen.items x ≡ 0) → heights.old ≡ map from_bool childless.now
        → IfOk result (λ all. IsTrue all → AreFinished f F marks.now heights.new)) }
{
    let frame = src.frame();
    let mut block = [0u64; BLOCK];
    for n in (0..frame.objects).rev() {
        if marks[n as usize] && !childless[n as usize] {
            match container_height(src, n, table, heights, &mut block)? {
                Some(height) => heights[n as usize] = height,
                None => return Ok(false),
            }
        }
    }
    Ok(true)
}

/// Returns the least height of each reached object, and 0 for every other object, and the numbers. Returns no heights
/// if a key is wrong, or if an object refers to one before it that has no height yet; then nothing is known.
///
/// The reached objects must keep rules 14 to 20 and 31, `marks` must mark exactly them, and `childless` only objects
/// without references. The numbers of their keys are classes or ranks. Takes 4 bytes of memory for each object and for
/// each class.
pub fn quick_heights<P: Offsets>(
    alloc: Global,
    src: &mut P,
    marks: &[bool],
    childless: &[bool],
    numbers: KeyNumbers,
) -> Result<(Option<Vec<u32>>, KeyNumbers), Refusal>
    requires marks { length marks.now ≡ (frame_in (P.means src.old)).objects }
    requires childless { length childless.now ≡ (frame_in (P.means src.old)).objects }
    ensures reads { OnlyReads (refused_read result) (P.means src.old) (P.means src.new) }
    ensures asks { HonestlyIn (P.means src.old) (λ f F. P.asked src.new
        ≤ P.asked src.old + (36 * F.objects + extents_below f F (is_marked marks.now) F.objects)) }
    ensures all { IfOk result (λ found. IfSome found.0 (λ heights. vec_len heights ≡ (frame_in (P.means src.old)).objects)) }
    ensures same { IfOk result (λ found. found.1.table.items ≡ numbers.table.items) }
    ensures exact { HonestlyIn (P.means src.old) (λ f F. (named : List Bool) → ((n : ℕ) → IsMarked marks.now n ↔ Reach f F n)
        → KeepReached f F reach_rules F.objects → AreChildless f F childless.now
        → AreNamed f F named → AreClasses f F named numbers.table.items
        → Judges (λ found. IfSome found.0 (λ heights. KeepReached f F (key_rules None) F.objects × AreFound f F heights.items))
        Never result) }
{
    let _frame = src.frame();
    let mut heights = numbers_of(alloc, childless)?;
    let mut table = ClassTable::new(alloc, numbers)?;
    let all = measure_containers(src, marks, childless, &mut table, &mut heights)?;
    let ClassTable { classes, .. } = table;
    let found = if all { Some(heights) } else { None };
    Ok((found, classes))
}
