//! The first look at an object, and searches for the first number or byte that is not below a bound.
//!
//! For most leaves the marker is enough: it gives the size, and no rule is about the body. What may be too high is
//! searched block by block: the offset table (rule 13), texts of one byte a unit (rule 18) and references (rule 20).

ghost use Rattle.std.specs.Prelude.{◌≡◌, ◌<◌, IfOk, ◌+◌, ◌*◌, ◌≤◌, length, IsTrue, IfSome, MatchOption};
ghost use Rattle.std.specs.Result.{result_err};
ghost use Rattle.bplist_objects.specs.Prelude.{OnlyReads, frame_in, HonestlyIn, off, Gives, read_failed};
ghost use Rattle.bplist_objects.specs.Prelude.{IsObjectFault, shape_rules, IsVisited, IsSafeVisit};
ghost use Rattle.bplist_objects.specs.Prelude.{Honestly, AreBelow, IsFirstNotBelow};

use crate::fault::{ObjectFault, broken};
use crate::frame::ObjectNo;
use crate::framed::Framed;
use crate::head::{Head, ends_before_table, head_by_marker, marker_at};
use crate::marker::size_said;
use crate::numbers::{BLOCK_BYTES, FEW, FEW_BYTES, Width, part_of};
use crate::rule::Rule;
use bplist_octets::{ReadFault, Source, first_high, sized};

/// The largest number of bytes of a text in one read, if the text is not long.
const TEXT_PART: usize = 256;

/// A text of up to this many bytes goes through a small buffer. Most texts are no longer, and a buffer is cleared
/// before use.
const SHORT_TEXT: usize = 64;

/// A text of more bytes than this is read in parts of this many bytes, so that few reads are needed.
const LONG_TEXT: usize = 32_768;

/// What a visit finds.
#[derive(Clone, Copy, Debug, PartialEq, Eq, Drop)]
pub enum Visit {
    /// The object keeps rules 14 to 20 and refers to nothing: its marker gives its size, and no rule is about its body.
    /// The number is the place after its last byte, from the start of the file.
    Done(u64),
    /// The head of any other object. Its body is not checked yet.
    Body(Head),
}

/// Reads the marker of object `n` at `place`, and its count if its body has yet to be checked.
///
/// Returns the fault of the first of rules 14 to 17 that is broken, as `shape_in` does, or `Read` if a read fails. Over
/// any source and with any place, the object found ends after `place` and not after the table's place.
#[inline(always)]
pub fn visit_in<P: Framed>(src: &mut P, n: ObjectNo, place: u64) -> Result<Visit, ObjectFault>
    requires { n.0 < (frame_in (P.means src.old)).objects }
    ensures reads { OnlyReads (read_failed result) (P.means src.old) (P.means src.new) }
    ensures asks { P.asked src.new ≤ P.asked src.old + 20 }
    ensures exact { HonestlyIn (P.means src.old) (λ f F. place ≡ off f F n.0
        → Gives (IsVisited f F n.0) (IsObjectFault f F n.0 shape_rules) result) }
    ensures safe { IfOk result (IsSafeVisit (frame_in (P.means src.old)) place) }
{
    let frame = src.frame();
    let marker = marker_at(src, &frame, n, place)?;
    let Some(size) = size_said(marker) else {
        let head = head_by_marker(src, &frame, n, place, marker)?;
        return Ok(Visit::Body(head));
    };
    if !ends_before_table(frame.table, place, size as u128) {
        return Err(broken(Rule::Extent, n, place));
    }
    Ok(Visit::Done(place + size as u64))
}

/// The loop has no early exit, so that it is vectorized.
#[inline(always)]
fn is_block_below(block: &[u8], width: Width, count: usize, bound: u64) -> bool
    requires { length block.now ≡ count * width.bytes }
    ensures { IsTrue result → AreBelow block.now 0 width.bytes count bound }
{
    let size = width.bytes as usize;
    let mut below = true;
    for i in 0..count {
        if bound <= sized(part_of(block, i * size, size)) {
            below = false;
        }
    }
    below
}

/// Usually no number is found. Each usual width has a loop of its own for that case, compiled for that width.
fn first_in_block(block: &[u8], width: Width, count: usize, bound: u64) -> Option<usize>
    requires { length block.now ≡ count * width.bytes }
    ensures { MatchOption result (AreBelow block.now 0 width.bytes count bound) (IsFirstNotBelow block.now 0 width.bytes count bound) }
{
    let below = match width.bytes {
        1 => is_block_below(block, Width { bytes: 1 }, count, bound),
        2 => is_block_below(block, Width { bytes: 2 }, count, bound),
        4 => is_block_below(block, Width { bytes: 4 }, count, bound),
        _ => is_block_below(block, width, count, bound),
    };
    if below {
        return None;
    }
    let size = width.bytes as usize;
    for i in 0..count {
        if sized(part_of(block, i * size, size)) >= bound {
            return Some(i);
        }
    }
    None
}

fn first_by_blocks<const ROOM: usize, S: Source>(
    src: &mut S,
    place: u64,
    width: Width,
    count: u64,
    bound: u64,
) -> Result<Option<u64>, ReadFault>
    requires some { 8 ≤ ROOM }
    requires fits { ROOM ≤ 4096 }
    requires within { place + count * width.bytes ≤ length (S.means src.old).octets }
    ensures reads { OnlyReads (result_err result) (S.means src.old) (S.means src.new) }
    ensures asks { S.asked src.new ≤ S.asked src.old + count * width.bytes }
    ensures found { IfOk result (λ found. Honestly (S.means src.old)
        (λ f. MatchOption found (AreBelow f place width.bytes count bound) (IsFirstNotBelow f place width.bytes count bound))) }
    ensures inside { IfOk result (λ found. IfSome found (λ i. i < count)) }
{
    let _len = src.len();
    let mut buffer = [0u8; ROOM];
    let mut done = 0u64;
    while done < count {
        let now = (count - done).min(ROOM as u64 / 8);
        let block = &mut buffer[..now as usize * width.bytes as usize];
        src.read_at(place + done * width.bytes as u64, block)?;
        if let Some(i) = first_in_block(block, width, now as usize, bound) {
            return Ok(Some(done + i as u64));
        }
        done += now;
    }
    Ok(None)
}

/// Up to `FEW` numbers are one read.
pub(crate) fn first_not_below<S: Source>(
    src: &mut S,
    place: u64,
    width: Width,
    count: u64,
    bound: u64,
) -> Result<Option<u64>, ReadFault>
    requires within { place + count * width.bytes ≤ length (S.means src.old).octets }
    ensures reads { OnlyReads (result_err result) (S.means src.old) (S.means src.new) }
    ensures asks { S.asked src.new ≤ S.asked src.old + count * width.bytes }
    ensures found { IfOk result (λ found. Honestly (S.means src.old)
        (λ f. MatchOption found (AreBelow f place width.bytes count bound) (IsFirstNotBelow f place width.bytes count bound))) }
    ensures inside { IfOk result (λ found. IfSome found (λ i. i < count)) }
{
    if count == 0 {
        return Ok(None);
    }
    if count > FEW {
        return first_by_blocks::<BLOCK_BYTES, S>(src, place, width, count, bound);
    }
    first_by_blocks::<FEW_BYTES, S>(src, place, width, count, bound)
}

/// The part begins at byte `done` of the text, and the index counts from the first byte of the text.
#[inline(always)]
fn search_part<S: Source>(
    src: &mut S,
    place: u64,
    count: u64,
    done: u64,
    part: &mut [u8],
) -> Result<Option<u64>, ReadFault>
    requires within { place + count ≤ length (S.means src.old).octets }
    requires part { done + length part.old ≤ count }
    ensures reads { OnlyReads (result_err result) (S.means src.old) (S.means src.new) }
    ensures asks { S.asked src.new ≤ S.asked src.old + length part.old }
    ensures found { IfOk result (λ found. Honestly (S.means src.old) (λ f. AreBelow f place 1 done 128
        → MatchOption found (AreBelow f place 1 (done + length part.old) 128) (IsFirstNotBelow f place 1 count 128))) }
    ensures inside { IfOk result (λ found. IfSome found (λ i. i < count)) }
{
    let _len = src.len();
    src.read_at(place + done, part)?;
    match first_high(part) {
        Some(i) => Ok(Some(done + i as u64)),
        None => Ok(None),
    }
}

#[inline(always)]
fn first_high_at_once<const ROOM: usize, S: Source>(
    src: &mut S,
    place: u64,
    count: u64,
) -> Result<Option<u64>, ReadFault>
    requires fits { ROOM ≤ 4096 }
    requires short { count ≤ ROOM }
    requires within { place + count ≤ length (S.means src.old).octets }
    ensures reads { OnlyReads (result_err result) (S.means src.old) (S.means src.new) }
    ensures asks { S.asked src.new ≤ S.asked src.old + count }
    ensures found { IfOk result (λ found. Honestly (S.means src.old)
        (λ f. MatchOption found (AreBelow f place 1 count 128) (IsFirstNotBelow f place 1 count 128))) }
    ensures inside { IfOk result (λ found. IfSome found (λ i. i < count)) }
{
    let _len = src.len();
    let mut buffer = [0u8; ROOM];
    src.read_at(place, &mut buffer[..count as usize])?;
    // The rest of the buffer is 0, so the whole buffer can be looked at: the compiler knows its length.
    if is_block_below(&buffer, Width { bytes: 1 }, ROOM, 128) {
        return Ok(None);
    }
    match first_high(&buffer[..count as usize]) {
        Some(i) => Ok(Some(i as u64)),
        None => Ok(None),
    }
}

#[inline(always)]
fn first_high_by_parts<const PART: usize, S: Source>(
    src: &mut S,
    place: u64,
    count: u64,
) -> Result<Option<u64>, ReadFault>
    requires some { 1 ≤ PART }
    requires fits { PART ≤ 32768 }
    requires within { place + count ≤ length (S.means src.old).octets }
    ensures reads { OnlyReads (result_err result) (S.means src.old) (S.means src.new) }
    ensures asks { S.asked src.new ≤ S.asked src.old + count }
    ensures found { IfOk result (λ found. Honestly (S.means src.old)
        (λ f. MatchOption found (AreBelow f place 1 count 128) (IsFirstNotBelow f place 1 count 128))) }
    ensures inside { IfOk result (λ found. IfSome found (λ i. i < count)) }
{
    let _len = src.len();
    let mut buffer = [0u8; PART];
    let mut done = 0u64;
    while done < count {
        let now = (count - done).min(PART as u64);
        let part = &mut buffer[..now as usize];
        if let Some(i) = search_part(src, place, count, done, part)? {
            return Ok(Some(i));
        }
        done += now;
    }
    Ok(None)
}

/// The same as `first_high_in`, for a long text.
// Not inlined, because a function pays at entry for the size of its buffers.
#[inline(never)]
fn first_high_long<S: Source>(src: &mut S, place: u64, count: u64) -> Result<Option<u64>, ReadFault>
    requires within { place + count ≤ length (S.means src.old).octets }
    ensures reads { OnlyReads (result_err result) (S.means src.old) (S.means src.new) }
    ensures asks { S.asked src.new ≤ S.asked src.old + count }
    ensures found { IfOk result (λ found. Honestly (S.means src.old)
        (λ f. MatchOption found (AreBelow f place 1 count 128) (IsFirstNotBelow f place 1 count 128))) }
    ensures inside { IfOk result (λ found. IfSome found (λ i. i < count)) }
{
    first_high_by_parts::<LONG_TEXT, S>(src, place, count)
}

/// The same as `first_high_in`, in parts whose size depends on the text's.
// Not inlined, since most texts are short and low, which takes less code to find.
#[inline(never)]
fn search_text<S: Source>(src: &mut S, place: u64, count: u64) -> Result<Option<u64>, ReadFault>
    requires within { place + count ≤ length (S.means src.old).octets }
    ensures reads { OnlyReads (result_err result) (S.means src.old) (S.means src.new) }
    ensures asks { S.asked src.new ≤ S.asked src.old + count }
    ensures found { IfOk result (λ found. Honestly (S.means src.old)
        (λ f. MatchOption found (AreBelow f place 1 count 128) (IsFirstNotBelow f place 1 count 128))) }
    ensures inside { IfOk result (λ found. IfSome found (λ i. i < count)) }
{
    if count <= LONG_TEXT as u64 {
        return first_high_by_parts::<TEXT_PART, S>(src, place, count);
    }
    first_high_long(src, place, count)
}

/// Returns the index of the first of the `count` bytes from `place` on that is 128 or more, or None if there is none.
/// Rule 18 asks this of a text. The bytes must be inside the source. An error is a failed read.
#[inline(always)]
pub fn first_high_in<S: Source>(
    src: &mut S,
    place: u64,
    count: u64,
) -> Result<Option<u64>, ReadFault>
    requires within { place + count ≤ length (S.means src.old).octets }
    ensures reads { OnlyReads (result_err result) (S.means src.old) (S.means src.new) }
    ensures asks { S.asked src.new ≤ S.asked src.old + count }
    ensures found { IfOk result (λ found. Honestly (S.means src.old)
        (λ f. MatchOption found (AreBelow f place 1 count 128) (IsFirstNotBelow f place 1 count 128))) }
    ensures inside { IfOk result (λ found. IfSome found (λ i. i < count)) }
{
    if count <= SHORT_TEXT as u64 {
        return first_high_at_once::<SHORT_TEXT, S>(src, place, count);
    }
    search_text(src, place, count)
}
