//! Checks all reached objects in one quick walk, which succeeds if none of them breaks a rule and all have room.

ghost use Rattle.std.specs.Prelude.{◌≡◌, ℕ, ◌+◌, ◌*◌, ◌-◌, ◌≤◌, ◌<◌, [], ◌∷◌, ◌++◌, None, IfOk, IfSome};
ghost use Rattle.std.specs.Prelude.{OnOk, count_by, not, length, slice_index, vec_len};
ghost use Rattle.bplist_lint.specs.Prelude.{OnlyReads, frame_in, HonestlyIn, content_at};
ghost use Rattle.bplist_lint.specs.Prelude.{refs, IsSafeHead, ref_count, AreBelow, ref, Dict, failed_to_read, IsMarked};
ghost use Rattle.bplist_lint.specs.Prelude.{IsSteady, IsSteadyWalk, Worked, NotedIn, KeepsNames, IsWalking, HasRoomFor, IsWalked};
ghost use Rattle.bplist_lint.specs.Prelude.{AreNamed, NamesMarked, of_object, stop_failed, Read as is_read};
ghost use Rattle.bplist_lint.specs.declared.walk.Stop.TheVariants.{Memory as is_memory};

use crate::tally::Tally;
use bplist_keys::NamedKeys;
use bplist_objects::{
    Failure, Frame, Framed, Head, Kind, ObjectFault, ObjectNo, Offsets, RefBlocks, Visit,
    check_body, refs_of, visit_in,
};
use bplist_octets::ReadFault;
use std::alloc::{AllocError, AllocFailed, Global};

/// Why the walk ended before it had visited all reached objects.
#[derive(Clone, Copy, Drop)]
pub enum Stop {
    /// An object breaks a rule, or there is no room for it.
    Trouble,
    /// A read of the source failed.
    Read(ReadFault),
    /// An allocation was refused.
    Memory,
}

impl From<ObjectFault> for Stop {
    ghost from_gives = { λ fault e. e ≡ of_object fault };

    fn from(fault: ObjectFault) -> Stop {
        match fault {
            ObjectFault::Fault(_) => Stop::Trouble,
            ObjectFault::Read(error) => Stop::Read(error),
        }
    }
}

impl From<ReadFault> for Stop {
    ghost from_gives = { λ error e. e ≡ is_read error };

    fn from(error: ReadFault) -> Stop {
        Stop::Read(error)
    }
}

impl<T: Drop> From<AllocFailed<T>> for Stop {
    ghost from_gives = { λ _ e. e ≡ is_memory };

    fn from(_refused: AllocFailed<T>) -> Stop {
        Stop::Memory
    }
}

impl From<AllocError> for Stop {
    ghost from_gives = { λ _ e. e ≡ is_memory };

    fn from(_refused: AllocError) -> Stop {
        Stop::Memory
    }
}

/// Which objects are known to be reached, and which of them are still to be visited.
#[derive(Drop)]
pub struct Worklist {
    /// The mark of each object: whether it is known to be reached.
    marks: Vec<bool>,
    /// Marked objects up to `current` that are still to be visited.
    stack: Vec<u32>,
    /// The object that the walk is at. Every marked object above it is still to be visited, in the order of the
    /// numbers.
    current: u32,
}

/// What the walk knows about the objects so far.
#[derive(Drop)]
struct Progress {
    worklist: Worklist,
    /// Marks on visited objects that have no references.
    childless: Vec<bool>,
    /// What visited dictionaries name as keys.
    named: NamedKeys,
    /// The sums over the visited objects.
    tally: Tally,
}

/// What a finished walk knows about the reached objects.
#[derive(Drop)]
pub struct Reached {
    /// The mark of each object. Exactly the reached objects are marked.
    pub marks: Vec<bool>,
    /// Marks on objects that have no references. Not every such object need be marked.
    pub childless: Vec<bool>,
    /// The sums over the reached objects.
    pub tally: Tally,
}

/// Puts an object on the stack if it was not marked before and the walk does not come to it later.
fn mark_block(frame: &Frame, numbers: &[u64], worklist: &mut Worklist) -> Result<(), Stop>
    requires steady { IsSteady frame.now.objects worklist.old }
    ensures steady { OnOk result (IsSteady frame.now.objects worklist.new) }
    ensures reads { stop_failed result ≡ None }
    ensures worked { OnOk result (Worked worklist.old worklist.new) }
    ensures below { OnOk result ((k : ℕ) → k < length numbers.now → slice_index numbers.now k < frame.now.objects) }
    ensures noted { OnOk result (NotedIn numbers.now (length numbers.now) worklist.old worklist.new) }
{
    for number in numbers {
        let Some(m) = frame.object(*number) else {
            return Err(Stop::Trouble);
        };
        if !worklist.marks[m.0 as usize] {
            worklist.marks[m.0 as usize] = true;
            if m.0 <= worklist.current {
                worklist.stack.push(m.0)?;
            }
        }
    }
    Ok(())
}

fn mark_body<P: Framed>(
    src: &mut P,
    head: &Head,
    worklist: &mut Worklist,
    named: &mut NamedKeys,
) -> Result<(), Stop>
    requires head { IsSafeHead (frame_in (P.means src.old)) head.now }
    requires steady { IsSteady (frame_in (P.means src.old)).objects worklist.old }
    requires all_named { length named.old.marks.items ≡ (frame_in (P.means src.old)).objects }
    ensures reads { OnlyReads (stop_failed result) (P.means src.old) (P.means src.new) }
    ensures asks { P.asked src.new + head.now.body ≤ P.asked src.old + head.now.«end» }
    ensures steady { OnOk result (IsSteady (frame_in (P.means src.old)).objects worklist.new) }
    ensures worked { OnOk result (Worked worklist.old worklist.new) }
    ensures names { KeepsNames (frame_in (P.means src.old)).objects named.old named.new }
    ensures only { OnOk result (NamesMarked worklist.old.marks.items named.old.marks.items
        → NamesMarked worklist.new.marks.items named.new.marks.items) }
    ensures exact { OnOk result (HonestlyIn (P.means src.old) (λ f F.
        AreBelow f head.now.body F.ref_size (ref_count head.now.kind head.now.count) F.objects
        × NotedIn (refs (content_at f F head.now)) (ref_count head.now.kind head.now.count) worklist.old worklist.new
        × (head.now.kind ≡ Dict → (k : ℕ) → k < head.now.count → IsMarked named.new.marks.items (ref f F head.now k)))) }
{
    let frame = src.frame();
    let mut refs = RefBlocks::of(src, head);
    while refs.read(src)? {
        let block = refs.block();
        mark_block(&frame, block, worklist)?;
        named.insert_all(&block[..head.keys_among(refs.first(), block.len())]);
    }
    Ok(())
}

/// Checks reached object `n`, marks the objects that it refers to and names its keys.
#[inline(always)]
fn visit<P: Offsets>(src: &mut P, n: u32, progress: &mut Progress) -> Result<(), Stop>
    requires within { n < (frame_in (P.means src.old)).objects }
    requires steady { IsSteadyWalk (frame_in (P.means src.old)) progress.old }
    ensures reads { OnlyReads (stop_failed result) (P.means src.old) (P.means src.new) }
    ensures asks { OnOk result (P.asked src.new + progress.old.tally.used.octets ≤ P.asked src.old + progress.new.tally.used.octets + 36) }
    ensures asks_most { P.asked src.new + progress.old.tally.used.octets ≤ P.asked src.old + (frame_in (P.means src.old)).table + 36 }
    ensures one { OnOk result (progress.new.tally.reached ≡ progress.old.tally.reached + 1) }
    ensures few { progress.new.tally.reached ≤ progress.old.tally.reached + 1 }
    ensures grows { progress.old.tally.reached ≤ progress.new.tally.reached }
    ensures steady { OnOk result (IsSteadyWalk (frame_in (P.means src.old)) progress.new) }
    ensures worked { OnOk result (Worked progress.old.worklist progress.new.worklist) }
    ensures only { OnOk result (NamesMarked progress.old.worklist.marks.items progress.old.named.marks.items
        → NamesMarked progress.new.worklist.marks.items progress.new.named.marks.items) }
    ensures walking { OnOk result (HonestlyIn (P.means src.old) (λ f F.
        IsWalking f F (progress.old.worklist.current + 1) (progress.old.worklist.stack.items ++ n ∷ []) progress.old
        → IsWalking f F (progress.old.worklist.current + 1) progress.new.worklist.stack.items progress.new)) }
{
    let frame = src.frame();
    let place = src.offset(n)?;
    match visit_in(src, ObjectNo(n), place)? {
        Visit::Done(end) => {
            let Ok(tally) = progress.tally.with(&frame, ObjectNo(n), place, end, 0) else {
                return Err(Stop::Trouble);
            };
            progress.tally = tally;
            progress.childless[n as usize] = true;
            Ok(())
        }
        Visit::Body(head) => {
            let references = refs_of(&head);
            let Ok(tally) = progress
                .tally
                .with(&frame, ObjectNo(n), place, head.end, references)
            else {
                return Err(Stop::Trouble);
            };
            progress.tally = tally;
            if references == 0 {
                progress.childless[n as usize] = true;
                check_body(src, &frame, ObjectNo(n), place, &head)?;
                Ok(())
            } else {
                // A copy, so that the head of a leaf stays in registers.
                let container = head;
                mark_body(src, &container, &mut progress.worklist, &mut progress.named)
            }
        }
    }
}

/// Visits marked object `n` and all that it leads to through objects that are not above it.
fn visit_from<P: Offsets>(src: &mut P, n: u32, progress: &mut Progress) -> Result<(), Stop>
    requires within { n < (frame_in (P.means src.old)).objects }
    requires steady { IsSteadyWalk (frame_in (P.means src.old)) progress.old }
    requires empty { vec_len progress.old.worklist.stack ≡ 0 }
    ensures reads { OnlyReads (stop_failed result) (P.means src.old) (P.means src.new) }
    ensures asks { OnOk result (P.asked src.new + progress.old.tally.used.octets + 36 * progress.old.tally.reached
        ≤ P.asked src.old + progress.new.tally.used.octets + 36 * progress.new.tally.reached) }
    ensures asks_most { P.asked src.new + progress.old.tally.used.octets + 36 * progress.old.tally.reached
        ≤ P.asked src.old + (frame_in (P.means src.old)).table + 36 * (progress.new.tally.reached + 1) }
    ensures once { OnOk result (progress.new.tally.reached + (count_by not progress.new.worklist.marks.items + vec_len progress.new.worklist.stack)
        ≤ progress.old.tally.reached + 1 + (count_by not progress.old.worklist.marks.items + vec_len progress.old.worklist.stack)) }
    ensures few { progress.new.tally.reached ≤ progress.old.tally.reached + 1 + (count_by not progress.old.worklist.marks.items + vec_len progress.old.worklist.stack) }
    ensures steady { OnOk result (IsSteadyWalk (frame_in (P.means src.old)) progress.new) }
    ensures empty { OnOk result (vec_len progress.new.worklist.stack ≡ 0) }
    ensures only { OnOk result (NamesMarked progress.old.worklist.marks.items progress.old.named.marks.items
        → NamesMarked progress.new.worklist.marks.items progress.new.named.marks.items) }
    ensures walking { OnOk result (HonestlyIn (P.means src.old) (λ f F. IsMarked progress.old.worklist.marks.items n
        → IsWalking f F n [] progress.old → IsWalking f F (n + 1) [] progress.new)) }
{
    progress.worklist.current = n;
    visit(src, n, progress)?;
    while let Some(m) = progress.worklist.stack.pop() {
        visit(src, m, progress)?;
    }
    Ok(())
}

/// Marks the top, then visits the marked objects in the order of their numbers.
fn visit_all<P: Offsets>(alloc: Global, src: &mut P) -> Result<Progress, Stop>
    ensures reads { OnlyReads (stop_failed result) (P.means src.old) (P.means src.new) }
    ensures asks { P.asked src.new ≤ P.asked src.old + (frame_in (P.means src.old)).table + 36 * (2 * (frame_in (P.means src.old)).objects + 1) }
    ensures steady { IfOk result (IsSteadyWalk (frame_in (P.means src.old))) }
    ensures only { IfOk result (λ progress. NamesMarked progress.worklist.marks.items progress.named.marks.items) }
    ensures walking { HonestlyIn (P.means src.old) (λ f F. IfOk result (IsWalking f F F.objects [])) }
{
    let frame = src.frame();
    let mut marks = vec![in alloc; false; frame.objects as usize]?;
    marks[frame.top.0 as usize] = true;
    let childless = vec![in alloc; false; frame.objects as usize]?;
    let mut progress = Progress {
        worklist: Worklist {
            marks,
            // Reserved once, because a Vec that grows holds more than its items.
            stack: Vec::with_capacity(alloc, frame.objects as usize)?,
            current: 0,
        },
        childless,
        named: NamedKeys::new(alloc, frame.objects)?,
        tally: Tally::new(),
    };
    for n in 0..frame.objects {
        if progress.worklist.marks[n as usize] {
            visit_from(src, n, &mut progress)?;
        }
    }
    Ok(progress)
}

/// Visits each reached object once. Returns what is known about the reached objects, all of which keep rules 14 to 20
/// and 31, and what they name as keys. Returns None if one of them breaks a rule; then nothing is known about the
/// others.
pub fn walk<P: Offsets>(alloc: Global, src: &mut P) -> Result<Option<(Reached, NamedKeys)>, Failure>
    ensures reads { OnlyReads (failed_to_read result) (P.means src.old) (P.means src.new) }
    ensures asks { P.asked src.new ≤ P.asked src.old + (frame_in (P.means src.old)).table + 36 * (2 * (frame_in (P.means src.old)).objects + 1) }
    ensures fits { IfOk result (λ found. IfSome found (λ known. HasRoomFor (frame_in (P.means src.old)) known.0)) }
    ensures all_named { IfOk result (λ found. IfSome found (λ known. length known.1.marks.items ≡ (frame_in (P.means src.old)).objects)) }
    ensures only { IfOk result (λ found. IfSome found (λ known. NamesMarked known.0.marks.items known.1.marks.items)) }
    ensures exact { HonestlyIn (P.means src.old) (λ f F. IfOk result (λ found. IfSome found
        (λ known. IsWalked f F known.0 × AreNamed f F known.1.marks.items))) }
{
    let _frame = src.frame();
    match visit_all(alloc, src) {
        Ok(progress) => {
            let Progress {
                worklist,
                childless,
                named,
                tally,
            } = progress;
            let marks = worklist.marks;
            Ok(Some((
                Reached {
                    marks,
                    childless,
                    tally,
                },
                named,
            )))
        }
        Err(Stop::Trouble) => Ok(None),
        Err(Stop::Read(error)) => Err(Failure::Read(error)),
        Err(Stop::Memory) => Err(Failure::Memory),
    }
}
