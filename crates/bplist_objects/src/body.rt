//! The bodies of objects by rules 18 to 20, and heads by rules 14 to 20.

ghost use Rattle.std.specs.Prelude.{◌+◌, ◌≡◌, ◌<◌, IfOk, length, ◌≤◌};
ghost use Rattle.bplist_objects.specs.Prelude.{OnlyReads, Honestly, HonestlyBy, off, IsSafe, IsSafeHead, Gives, Never};
ghost use Rattle.bplist_objects.specs.Prelude.{read_failed, KeepsAll, HasHead, Content, content_at, Spells, IsHeadOf};
ghost use Rattle.bplist_objects.specs.Prelude.{KeepsByObject, IsObjectFault, body_rules, object_rules};

use crate::fault::{ObjectFault, broken};
use crate::frame::{Frame, ObjectNo};
use crate::head::{Head, Kind, shape_at};
use crate::numbers::wide_in;
use crate::offsets::offset_of;
use crate::refs::first_high_ref;
use crate::rule::Rule;
use crate::scan::first_high_in;
use bplist_octets::Source;

/// Checks the body of object `n` at `place` by rules 18 to 20, and returns the fault of the first that is broken.
/// `head` is the head that `shape_at` returns for the object. If a read fails, returns `Read`.
#[inline(always)]
#[tactic(auto, using(crate::proofs::HeadLaws::uid_count))]
pub fn check_body<S: Source>(
    src: &mut S,
    frame: &Frame,
    n: ObjectNo,
    place: u64,
    head: &Head,
) -> Result<(), ObjectFault>
    requires safe { IsSafe (length (S.means src.old).octets) frame.now }
    requires head { IsSafeHead frame.now head.now }
    ensures reads { OnlyReads (read_failed result) (S.means src.old) (S.means src.new) }
    ensures asks { S.asked src.new + head.now.body ≤ S.asked src.old + head.now.«end» }
    ensures exact { Honestly (S.means src.old) (λ f. place ≡ off f frame.now n.0 → HasHead f frame.now n.0 head.now
        → Gives (λ _. KeepsAll (KeepsByObject f frame.now n.0) body_rules) (IsObjectFault f frame.now n.0 body_rules)
        result) }
{
    match head.kind {
        Kind::Ascii => {
            let _len = src.len();
            match first_high_in(src, head.body, head.count)? {
                None => Ok(()),
                Some(i) => Err(broken(Rule::NotAscii, n, head.body + i)),
            }
        }
        Kind::Uid => {
            if wide_in(src, head.body, head.count as u8)? <= 4294967295 {
                Ok(())
            } else {
                Err(broken(Rule::UidLarge, n, place))
            }
        }
        Kind::Array | Kind::Set | Kind::Dict => {
            let _len = src.len();
            let size = frame.ref_size as u64;
            match first_high_ref(src, frame, head)? {
                None => Ok(()),
                Some(i) => Err(broken(Rule::RefHigh, n, head.body + i * size)),
            }
        }
        _ => Ok(()),
    }
}

/// Returns the head of object `n`, or the fault of the first of rules 14 to 20 that it breaks.
///
/// `place` is the object's place as `offset_of` returns it. With that place, over the file whose frame it is, the call
/// returns a head if and only if the object spells a content. A place that is not below the table, which no such file
/// has, is the fault OffsetHigh. If a read fails, returns `Read`. Over any source and with any place the head ends
/// before the table, and its body begins after `place`.
pub fn head_at<S: Source>(
    src: &mut S,
    frame: &Frame,
    n: ObjectNo,
    place: u64,
) -> Result<Head, ObjectFault>
    requires safe { IsSafe (length (S.means src.old).octets) frame.now }
    requires within { n.0 < frame.now.objects }
    ensures reads { OnlyReads (read_failed result) (S.means src.old) (S.means src.new) }
    ensures asks { S.asked src.new ≤ S.asked src.old + 20 + frame.now.table }
    ensures asks_object { IfOk result (λ head. S.asked src.new + place ≤ S.asked src.old + 20 + head.«end») }
    ensures rules { HonestlyBy (S.means src.old) frame.now (λ f F. place ≡ off f F n.0
        → Gives (λ head. HasHead f F n.0 head × KeepsAll (KeepsByObject f F n.0) object_rules)
        (IsObjectFault f F n.0 object_rules) result) }
    ensures safe { IfOk result (IsSafeHead frame.now) }
    ensures behind { IfOk result (λ head. place < head.body) }
{
    let head = shape_at(src, frame, n, place)?;
    check_body(src, frame, n, place, &head)?;
    Ok(head)
}

/// Returns the head of object `n`, or the fault of the first of rules 14 to 20 that it breaks, with the object and the
/// place from the start of the file.
///
/// The frame must fit the source, and `n` must be an object. Over the file whose frame it is, the call returns a head
/// if and only if the object spells a content. If a read fails, returns `Read`. Over any source the head ends before
/// the table.
pub fn head_of<S: Source>(src: &mut S, frame: &Frame, n: ObjectNo) -> Result<Head, ObjectFault>
    requires safe { IsSafe (length (S.means src.old).octets) frame.now }
    requires within { n.0 < frame.now.objects }
    ensures reads { OnlyReads (read_failed result) (S.means src.old) (S.means src.new) }
    ensures rules { HonestlyBy (S.means src.old) frame.now (λ f F. Gives (λ head. HasHead f F n.0 head × KeepsAll (KeepsByObject f F n.0) object_rules)
        (IsObjectFault f F n.0 object_rules) result) }
    ensures exact { HonestlyBy (S.means src.old) frame.now
        (λ f F. Gives (IsHeadOf f F n.0) (IsObjectFault f F n.0 object_rules) result) }
    ensures spelled { HonestlyBy (S.means src.old) frame.now (λ f F. (c : Content) → Spells f F n.0 c
        → Gives (λ head. c ≡ content_at f F head) Never result) }
    ensures safe { IfOk result (IsSafeHead frame.now) }
{
    let place = offset_of(src, frame, n)?;
    head_at(src, frame, n, place)
}
