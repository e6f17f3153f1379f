//! The keys of dictionaries: the first fault of the reached dictionaries by rules 21 and 22, and the making of key
//! lists.
//!
//! Each text that is named as a key has a class, which is found once for all dictionaries. A repeated key is a repeated
//! class, and a key without a class is not a text. A key list has the positions of a dictionary's keys, sorted by the
//! ranks of their texts. Ranks are classes in the order of the texts.

ghost use Rattle.std.specs.Prelude.{◌≡◌, ◌+◌, ◌*◌, ◌^◌, ◌≤◌, ◌<◌, ◌↔◌, ◌++◌, [], ℕ, ⊤, Bool, List, None, IfOk, OnOk};
ghost use Rattle.std.specs.Prelude.{count_by, length, slice_index};
ghost use Rattle.bplist_lint.specs.Prelude.{OnlyReads, frame_in, HonestlyIn, IsSafeHead, Dict, ref, failed_to_read};
ghost use Rattle.bplist_lint.specs.Prelude.{ranks_in, positions_in, AreRanked, AreAbove, HaveRanks, IsListed};
ghost use Rattle.bplist_lint.specs.Prelude.{Reach, KeepsAll, KeepsByObject, object_rules, HasHead};
ghost use Rattle.bplist_lint.specs.Prelude.{KeysAreSound, HasGoodKeys, BreaksKeys, Judges, Never, refused_read, IsMarked};
ghost use Rattle.bplist_objects.specs.Extents.{HaveRoom};
ghost use Rattle.bplist_keys.specs.Texts.{IsMarkedText};
ghost use Rattle.bplist_lint.specs.Prelude.{extent, extents_below, is_marked};
ghost use Rattle.bplist_lint.specs.Prelude.{AreChildless, KeepReached, AreNamed, key_rules, AreClassed, IsStamped};
ghost use Rattle.bplist_lint.specs.Prelude.{IsNew, Head as head_record, IsReachedFault, reach_rules, AreClasses, AreRanks};

use bplist_cert::Refusal;
use bplist_keys::{ClassTable, KeyNumbers, NamedKeys, classes_of, ranks_of};
use bplist_objects::{
    Failure, Fault, Framed, Head, Kind, ObjectNo, Offsets, RefBlocks, Rule, object_shape,
};
use bplist_octets::entry_or;
use std::alloc::{AllocError, Global};

/// A key of a dictionary: the rank of its text, or 0 if it has none, and its number among the keys in written order.
#[derive(Clone, Copy, PartialEq, Eq, PartialOrd, Ord)]
pub(crate) struct RankedKey {
    pub rank: u32,
    pub position: u32,
}

/// The ranks of the texts that are named as keys, and the key lists made so far, one after the other.
#[derive(Drop)]
pub(crate) struct KeySorting {
    pub ranks: KeyNumbers,
    /// The keys of the last dictionary. Kept to reuse its memory.
    keys: Vec<RankedKey>,
    pub positions: Vec<u32>,
}

impl KeySorting {
    /// Starts with these ranks and no lists.
    pub fn new(alloc: Global, ranks: KeyNumbers) -> KeySorting
        ensures ranks { result.ranks.table.items ≡ ranks.table.items }
        ensures none { result.positions.items ≡ [] }
    {
        KeySorting {
            ranks,
            keys: Vec::new(alloc),
            positions: Vec::new(alloc),
        }
    }

    /// Appends the key list of dictionary `n`: as many positions as it has pairs. After an error some of them may be
    /// there.
    pub fn list<P: Framed>(&mut self, src: &mut P, n: u32, head: &Head) -> Result<(), Refusal>
        requires head { IsSafeHead (frame_in (P.means src.old)) head.now }
        requires dict { head.now.kind ≡ Dict }
        requires few { head.now.count < 2 ^ 32 }
        ensures reads { OnlyReads (refused_read result) (P.means src.old) (P.means src.new) }
        ensures asks { P.asked src.new ≤ P.asked src.old + head.now.count * (frame_in (P.means src.old)).ref_size }
        ensures same { self.new.ranks.table.items ≡ self.old.ranks.table.items }
        ensures more { OnOk result (length self.new.positions.items ≡ length self.old.positions.items + head.now.count) }
        ensures exact { HonestlyIn (P.means src.old) (λ f F. HaveRanks f F head.now self.old.ranks.table.items
            → Judges (λ _. IsListed f F head.now self.old.positions.items self.new.positions.items) Never result) }
    {
        let ranks = &self.ranks;
        rank_keys(src, head, &ranks.table, &mut self.keys)?;
        self.keys.sort_unstable();
        push_positions(&self.keys, unlisted(n, head), &mut self.positions)
    }
}

fn push_keys(ranks: &[u32], numbers: &[u64], keys: &mut Vec<RankedKey>) -> Result<(), AllocError>
    requires { length keys.old.items + length numbers.now < 2 ^ 32 }
    ensures more { OnOk result (length keys.new.items ≡ length keys.old.items + length numbers.now) }
    ensures ranked { (refs : ℕ → ℕ)
        → ((k : ℕ) → k < length numbers.now → slice_index numbers.now k ≡ refs (length keys.old.items + k))
        → AreRanked (λ k. slice_index ranks.now (refs k)) keys.old.items
        → OnOk result (AreRanked (λ k. slice_index ranks.now (refs k)) keys.new.items) }
{
    for m in numbers {
        let position = keys.len() as u32;
        let rank = entry_or(ranks, *m, 0);
        keys.push(RankedKey { rank, position })?;
    }
    Ok(())
}

fn rank_keys<P: Framed>(
    src: &mut P,
    head: &Head,
    ranks: &[u32],
    keys: &mut Vec<RankedKey>,
) -> Result<(), Failure>
    requires head { IsSafeHead (frame_in (P.means src.old)) head.now }
    requires dict { head.now.kind ≡ Dict }
    requires few { head.now.count < 2 ^ 32 }
    ensures reads { OnlyReads (failed_to_read result) (P.means src.old) (P.means src.new) }
    ensures asks { P.asked src.new ≤ P.asked src.old + head.now.count * (frame_in (P.means src.old)).ref_size }
    ensures all { OnOk result (length keys.new.items ≡ head.now.count) }
    ensures ranked { HonestlyIn (P.means src.old) (λ f F.
        OnOk result (AreRanked (λ k. slice_index ranks.now (ref f F head.now k)) keys.new.items)) }
{
    keys.clear();
    let mut refs = RefBlocks::keys_of(head);
    while refs.read(src)? {
        push_keys(ranks, refs.block(), keys)?;
    }
    Ok(())
}

/// The fault of a dictionary whose keys now are not what they were when they were numbered. Over an honest source there
/// is none.
pub(crate) fn unlisted(n: u32, head: &Head) -> Fault {
    Fault {
        rule: Rule::KeyTwice,
        object: Some(ObjectNo(n)),
        place: head.body,
    }
}

/// Returns `fault` if a key has no rank, or the same rank as another key.
fn push_positions(keys: &[RankedKey], fault: Fault, positions: &mut Vec<u32>) -> Result<(), Refusal>
    ensures read { refused_read result ≡ None }
    ensures pushed { OnOk result (positions.new.items ≡ positions.old.items ++ positions_in keys.now) }
    ensures exact { AreAbove (ranks_in keys.now) → Judges (λ _. ⊤) Never result }
{
    let mut last = 0;
    for key in keys {
        if key.rank <= last {
            return Err(Refusal::Fault(fault));
        }
        last = key.rank;
        positions.push(key.position)?;
    }
    Ok(())
}

fn check_dict_keys<P: Offsets>(src: &mut P, n: u32, table: &mut ClassTable) -> Result<(), Refusal>
    requires { n < (frame_in (P.means src.old)).objects }
    ensures reads { OnlyReads (refused_read result) (P.means src.old) (P.means src.new) }
    ensures asks { HonestlyIn (P.means src.old) (λ f F. P.asked src.new ≤ P.asked src.old + (36 + extent f F n)) }
    ensures same { table.new.classes.table.items ≡ table.old.classes.table.items }
    ensures stamped { IsStamped n table.old.seen.items table.new.seen.items }
    ensures exact { HonestlyIn (P.means src.old) (λ f F. KeepsAll (KeepsByObject f F n) object_rules
        → ((head : head_record) → HasHead f F n head → head.kind ≡ Dict
        → AreClassed f F table.old.classes.table.items head × KeysAreSound f F head)
        → IsNew table.old.seen.items n
        → Judges (λ _. HasGoodKeys f F None n) (BreaksKeys f F F.objects None n) result) }
{
    let _frame = src.frame();
    let head = object_shape(src, n)?;
    match head.kind {
        Kind::Dict => match table.first_wrong(src, n, &head)? {
            None => Ok(()),
            Some(wrong) => Err(Refusal::Fault(wrong.fault(src, ObjectNo(n), &head))),
        },
        _ => Ok(()),
    }
}

/// Checks the keys of each marked dictionary, in the order of the objects' numbers, by the numbers of its keys: classes
/// or ranks. Returns the numbers. The marks must be exactly those of the reached objects, all of which keep rules 14 to
/// 20. Objects marked in `childless` have no references.
pub fn check_numbers<P: Offsets>(
    alloc: Global,
    src: &mut P,
    marks: &[bool],
    childless: &[bool],
    numbers: KeyNumbers,
) -> Result<KeyNumbers, Refusal>
    requires marks { length marks.now ≡ (frame_in (P.means src.old)).objects }
    requires childless { length childless.now ≡ (frame_in (P.means src.old)).objects }
    ensures reads { OnlyReads (refused_read result) (P.means src.old) (P.means src.new) }
    ensures asks { HonestlyIn (P.means src.old) (λ f F. P.asked src.new
        ≤ P.asked src.old + (36 * F.objects + extents_below f F (is_marked marks.now) F.objects)) }
    ensures same { IfOk result (λ handed. handed.table.items ≡ numbers.table.items) }
    ensures exact { HonestlyIn (P.means src.old) (λ f F. (named : List Bool) → ((n : ℕ) → IsMarked marks.now n ↔ Reach f F n)
        → KeepReached f F reach_rules F.objects → AreChildless f F childless.now
        → AreNamed f F named → AreClasses f F named numbers.table.items
        → Judges (λ _. KeepReached f F (key_rules None) F.objects) (IsReachedFault f F (key_rules None)) result) }
{
    let frame = src.frame();
    let mut table = ClassTable::new(alloc, numbers)?;
    for n in 0..frame.objects {
        if marks[n as usize] && !childless[n as usize] {
            check_dict_keys(src, n, &mut table)?;
        }
    }
    let ClassTable { classes, .. } = table;
    Ok(classes)
}

/// Returns the classes of the keys in `named`, or no numbers if there are no keys.
pub fn known_classes<P: Offsets>(
    alloc: Global,
    src: &mut P,
    named: NamedKeys,
) -> Result<KeyNumbers, Refusal>
    requires { length named.marks.items ≡ (frame_in (P.means src.old)).objects }
    ensures reads { OnlyReads (refused_read result) (P.means src.old) (P.means src.new) }
    ensures asks { HonestlyIn (P.means src.old) (λ f F. HaveRoom f F (IsMarkedText f F named.marks.items)
        → P.asked src.new ≤ P.asked src.old + (2 * length f + 364 * count_by (λ marked. marked) named.marks.items)) }
    ensures exact { HonestlyIn (P.means src.old) (λ f F.
        Judges (λ classes. AreClasses f F named.marks.items classes.table.items) Never result) }
{
    let _frame = src.frame();
    if named.count() == 0 {
        return Ok(KeyNumbers {
            table: Vec::new(alloc),
            greatest: 0,
        });
    }
    Ok(classes_of(alloc, src, named)?)
}

/// Returns the ranks of the keys in `named`.
pub fn known_ranks<P: Offsets>(
    alloc: Global,
    src: &mut P,
    named: NamedKeys,
) -> Result<KeyNumbers, Refusal>
    requires { length named.marks.items ≡ (frame_in (P.means src.old)).objects }
    ensures reads { OnlyReads (refused_read result) (P.means src.old) (P.means src.new) }
    ensures asks { HonestlyIn (P.means src.old) (λ f F. HaveRoom f F (IsMarkedText f F named.marks.items)
        → P.asked src.new ≤ P.asked src.old + (2 * length f + 72 * count_by (λ marked. marked) named.marks.items)) }
    ensures exact { HonestlyIn (P.means src.old) (λ f F.
        Judges (λ ranks. AreRanks f F named.marks.items ranks.table.items) Never result) }
{
    Ok(ranks_of(alloc, src, named)?)
}
