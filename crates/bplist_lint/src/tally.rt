//! Checks the reached objects in the order of their numbers, by rules 14 to 20 and 31. The tally sums up the objects,
//! their bytes and their references, and finds the fault of rule 31 if there is no room for an object.

ghost use Rattle.std.specs.Prelude.{◌≡◌, ◌↔◌, ℕ, ◌+◌, ◌-◌, ◌*◌, ◌≤◌, ◌<◌, length, Bool, List, Some, MatchResult, IfOk};
ghost use Rattle.bplist_lint.specs.Prelude.{OnlyReads, frame_in, HonestlyIn, Gives, read_failed, Reach, IsMarked};
ghost use Rattle.bplist_lint.specs.Prelude.{Overfull, IsRoomy, Tallied, IsReachedFault, reach_rules};

use bplist_objects::{
    Extents, Fault, Frame, Framed, ObjectFault, ObjectNo, Offsets, head_in, refs_of,
};

/// Sums over the reached objects seen so far.
#[derive(Clone, Copy, Drop)]
pub struct Tally {
    /// The number of objects.
    pub reached: u64,
    /// The bytes that they take.
    pub used: Extents,
    /// The number of their references.
    pub references: u64,
}

impl Tally {
    /// Returns the tally of no objects.
    pub fn new() -> Tally
        ensures { result ≡ record { reached = 0; used = record { octets = 0 }; references = 0 } }
    {
        Tally {
            reached: 0,
            used: Extents::new(),
            references: 0,
        }
    }

    /// Returns the tally with one more object: object `n`, from `place` to `end`, with this number of references.
    /// Returns the fault of rule 31 if there is no room for it.
    #[inline(always)]
    pub fn with(
        self,
        frame: &Frame,
        n: ObjectNo,
        place: u64,
        end: u64,
        references: u64,
    ) -> Result<Tally, Fault>
        requires extent { place + references < «end» }
        requires inside { «end» ≤ frame.now.table }
        requires roomy { IsRoomy frame.now self }
        ensures used { MatchResult result
            (λ now. now.used.octets ≡ self.used.octets + («end» - place))
            (λ fault. (fault.rule ≡ Overfull) × (fault.object ≡ Some n) × (fault.place ≡ place)
            × (frame.now.table < self.used.octets + («end» - place) + 8)) }
        ensures reached { IfOk result (λ now. now.reached ≡ self.reached + 1) }
        ensures references { IfOk result (λ now. now.references ≡ self.references + references) }
        ensures roomy { IfOk result (IsRoomy frame.now) }
    {
        let used = self.used.with(frame.table, n, place, end)?;
        Ok(Tally {
            reached: self.reached + 1,
            used,
            references: self.references + references,
        })
    }
}

fn check_reached_object<P: Offsets>(src: &mut P, n: u32, tally: Tally) -> Result<Tally, ObjectFault>
    requires within { n < (frame_in (P.means src.old)).objects }
    requires roomy { IsRoomy (frame_in (P.means src.old)) tally }
    ensures reads { OnlyReads (read_failed result) (P.means src.old) (P.means src.new) }
    ensures asks { P.asked src.new ≤ P.asked src.old + 36 + (frame_in (P.means src.old)).table }
    ensures asks_object { IfOk result (λ now. P.asked src.new + tally.used.octets ≤ P.asked src.old + 36 + now.used.octets) }
    ensures roomy { IfOk result (IsRoomy (frame_in (P.means src.old))) }
    ensures exact { HonestlyIn (P.means src.old) (λ f F. (marks : List Bool) → IsMarked marks n → Reach f F n
        → Tallied f F marks n tally → Gives (Tallied f F marks (n + 1)) (IsReachedFault f F reach_rules) result) }
{
    let frame = src.frame();
    let place = src.offset(n)?;
    let head = head_in(src, ObjectNo(n), place)?;
    Ok(tally.with(&frame, ObjectNo(n), place, head.end, refs_of(&head))?)
}

/// Checks each marked object, in the order of their numbers. Exactly the reached objects must be marked.
pub fn check_reached<P: Offsets>(src: &mut P, marks: &[bool]) -> Result<Tally, ObjectFault>
    requires { length marks.now ≡ (frame_in (P.means src.old)).objects }
    ensures reads { OnlyReads (read_failed result) (P.means src.old) (P.means src.new) }
    ensures asks { P.asked src.new ≤ P.asked src.old
        + (2 * (frame_in (P.means src.old)).table + 36 * (frame_in (P.means src.old)).objects) }
    ensures roomy { IfOk result (IsRoomy (frame_in (P.means src.old))) }
    ensures exact { HonestlyIn (P.means src.old) (λ f F. ((n : ℕ) → IsMarked marks.now n ↔ Reach f F n)
        → Gives (Tallied f F marks.now F.objects) (IsReachedFault f F reach_rules) result) }
{
    let frame = src.frame();
    let mut tally = Tally::new();
    for n in 0..frame.objects {
        if marks[n as usize] {
            tally = check_reached_object(src, n, tally)?;
        }
    }
    Ok(tally)
}
