//! Gives the kind, the body and the number of an object.

ghost use Rattle.std.specs.Prelude.{◌≡◌, ◌<◌, ◌≤◌, ℕ, IfOk, Ok, Result, length};
ghost use Rattle.bplist_c.specs.Prelude.{off, IsSafe, int, IsHeadOf, Spells, leaf, IsSafeBody, IsSafeHead, BplistBody as body};
ghost use Rattle.bplist_c.specs.Prelude.{Status as status, BplistInteger as number, OnObject, body_of, int_answer};
ghost use Rattle.bplist_c.specs.Prelude.{BplistBits as bits, kind_number, num, number_answer, part};
ghost use Rattle.bplist_c.specs.Prelude.{uid_answer, IsFileOf, IsSame, OnHandle, Tells};

use crate::handle::BplistHandle;
use crate::loan::with_checked;
use crate::status::{Status, tell};
use bplist_cert::Checked;
use bplist_objects::{Frame, Head, Kind, ObjectNo, int_of, shape_at, uid_of};
use bplist_octets::{SliceSource, sized};
use std::alloc::Global;

/// The kind of an object, and its body.
#[repr(C)]
#[derive(Clone, Copy, Debug, Drop)]
pub struct BplistBody {
    /// The number of the kind.
    pub kind: u32,
    /// The number of bytes, units, members or pairs.
    pub count: u64,
    /// The place of the body in the file.
    pub place: u64,
    /// The length of the body in bytes.
    pub length: u64,
}

/// A 128-bit integer in two's complement.
#[repr(C)]
#[derive(Clone, Copy, Debug, Drop)]
pub struct BplistInteger {
    /// The low half.
    pub low: u64,
    /// The high half.
    pub high: u64,
}

/// The number of a real or a date.
#[repr(C)]
#[derive(Clone, Copy, Debug, Drop)]
pub struct BplistBits {
    /// The bits.
    pub bits: u64,
    /// How many bytes they are.
    pub length: u32,
}

/// Each usual size of an entry has an arm of its own, because a read of constant length compiles to no call.
#[inline(always)]
fn place_of(file: &[u8], frame: &Frame, n: ObjectNo) -> u64
    requires safe { IsSafe (length file.now) frame.now }
    requires within { n.0 < frame.now.objects }
    ensures { result ≡ off file.now frame.now n.0 }
{
    let _objects = frame.objects;
    let size = frame.offset_size as usize;
    let at = frame.table as usize + n.0 as usize * size;
    match size {
        1 => sized(&file[at..at + 1]),
        2 => sized(&file[at..at + 2]),
        3 => sized(&file[at..at + 3]),
        4 => sized(&file[at..at + 4]),
        _ => sized(&file[at..at + size]),
    }
}

/// Returns the head of a vouched object.
// Inlined, so that the head stays in registers: a head in memory takes as long as the rest of `bplist_faces`.
#[inline(always)]
pub(crate) fn head_of_object(
    checked: &Checked<SliceSource<'_>>,
    object: u32,
) -> Result<Head, Status>
    ensures exact { OnObject checked.now object IsHeadOf (λ head answer. answer ≡ Ok head) result }
    ensures safe { IfOk result (IsSafeHead checked.now.frame) }
    ensures body { IfOk result (IsSafeBody (length checked.now.source.octets)) }
{
    let n = ObjectNo(object);
    if checked.height(n) == 0 {
        return Err(Status::NoObject);
    }
    let frame = checked.frame();
    let file = checked.octets();
    let place = place_of(file, &frame, n);
    match shape_at(&mut SliceSource::new(file), &frame, n, place) {
        Ok(head) => Ok(head),
        Err(_) => Err(Status::NoObject),
    }
}

/// The number is that of the kind in the header.
pub(crate) fn number_of(kind: Kind) -> u32
    ensures { result ≡ kind_number kind }
{
    kind as u32 + 1
}

#[inline(always)]
pub(crate) fn face_of(checked: &Checked<SliceSource<'_>>, object: u32) -> Result<BplistBody, Status>
    ensures { OnObject checked.now object IsHeadOf (λ head answer. answer ≡ Ok (body_of head)) result }
{
    let head = head_of_object(checked, object)?;
    Ok(BplistBody {
        kind: number_of(head.kind),
        count: head.count,
        place: head.body,
        length: head.end - head.body,
    })
}

/// The halves are of the number in two's complement.
fn halves(number: i128) -> BplistInteger
    ensures { Ok result ≡ int_answer (leaf (int number)) }
{
    let bits = number.cast_unsigned();
    BplistInteger {
        low: (bits % (1 << 64)) as u64,
        high: (bits >> 64) as u64,
    }
}

/// The object is a real or a date, whose body has 4 or 8 bytes.
fn bits_of(file: &[u8], head: &Head) -> BplistBits
    requires body { IsSafeBody (length file.now) head.now }
    requires low { 1 ≤ head.now.count }
    requires high { head.now.count ≤ 8 }
    ensures bits { result.bits ≡ num (part file.now head.now.body head.now.count) }
    ensures length { result.length ≡ head.now.count }
{
    let (from, length) = (head.body as usize, head.count as usize);
    BplistBits {
        bits: sized(&file[from..from + length]),
        length: head.count as u32,
    }
}

fn integer_of(checked: &Checked<SliceSource<'_>>, object: u32) -> Result<BplistInteger, Status>
    ensures { OnObject checked.now object Spells (λ content answer. answer ≡ int_answer content) result }
{
    let file = checked.octets();
    let head = head_of_object(checked, object)?;
    match head.kind {
        Kind::Int => match int_of(&mut SliceSource::new(file), &head) {
            Ok(number) => Ok(halves(number)),
            Err(_) => Err(Status::OtherFile),
        },
        _ => Err(Status::OtherKind),
    }
}

fn uid_of_object(checked: &Checked<SliceSource<'_>>, object: u32) -> Result<u32, Status>
    ensures { OnObject checked.now object Spells (λ content answer. answer ≡ uid_answer content) result }
{
    let file = checked.octets();
    let head = head_of_object(checked, object)?;
    match head.kind {
        Kind::Uid => match uid_of(&mut SliceSource::new(file), &head) {
            Ok(number) => Ok(number),
            Err(_) => Err(Status::OtherFile),
        },
        _ => Err(Status::OtherKind),
    }
}

fn number_of_object(checked: &Checked<SliceSource<'_>>, object: u32) -> Result<BplistBits, Status>
    ensures { OnObject checked.now object Spells (λ content answer. answer ≡ number_answer content) result }
{
    let file = checked.octets();
    let head = head_of_object(checked, object)?;
    match head.kind {
        Kind::Real | Kind::Date => Ok(bits_of(file, &head)),
        _ => Err(Status::OtherKind),
    }
}

/// Gives the kind of an object, and the count, place and length of its body.
#[unsafe(no_mangle)]
pub extern "C" fn bplist_face(
    alloc: Global,
    handle: &mut BplistHandle,
    file: &[u8],
    object: u32,
    out: &mut BplistBody,
) -> u32
    requires same { IsFileOf file.now handle.old }
    ensures kept { IsSame handle.old handle.new }
    ensures exact { (answer : Result body status) × Tells answer out.old out.new result
        × OnHandle file.entry handle.old (λ checked. OnObject checked object IsHeadOf
        (λ head answer. answer ≡ Ok (body_of head))) answer }
{
    let answer = with_checked(alloc, handle, file, |checked| face_of(checked, object));
    tell(answer, out)
}

/// Gives the value of an integer.
#[unsafe(no_mangle)]
pub extern "C" fn bplist_int(
    alloc: Global,
    handle: &mut BplistHandle,
    file: &[u8],
    object: u32,
    out: &mut BplistInteger,
) -> u32
    requires same { IsFileOf file.now handle.old }
    ensures kept { IsSame handle.old handle.new }
    ensures exact { (answer : Result number status) × Tells answer out.old out.new result
        × OnHandle file.entry handle.old (λ checked. OnObject checked object Spells
        (λ content answer. answer ≡ int_answer content)) answer }
{
    let answer = with_checked(alloc, handle, file, |checked| integer_of(checked, object));
    tell(answer, out)
}

/// Gives the bits of a real or a date.
#[unsafe(no_mangle)]
pub extern "C" fn bplist_number(
    alloc: Global,
    handle: &mut BplistHandle,
    file: &[u8],
    object: u32,
    out: &mut BplistBits,
) -> u32
    requires same { IsFileOf file.now handle.old }
    ensures kept { IsSame handle.old handle.new }
    ensures exact { (answer : Result bits status) × Tells answer out.old out.new result
        × OnHandle file.entry handle.old (λ checked. OnObject checked object Spells
        (λ content answer. answer ≡ number_answer content)) answer }
{
    let answer = with_checked(
        alloc,
        handle,
        file,
        |checked| number_of_object(checked, object),
    );
    tell(answer, out)
}

/// Gives the value of a UID.
#[unsafe(no_mangle)]
pub extern "C" fn bplist_uid(
    alloc: Global,
    handle: &mut BplistHandle,
    file: &[u8],
    object: u32,
    out: &mut u32,
) -> u32
    requires same { IsFileOf file.now handle.old }
    ensures kept { IsSame handle.old handle.new }
    ensures exact { (answer : Result ℕ status) × Tells answer out.old out.new result
        × OnHandle file.entry handle.old (λ checked. OnObject checked object Spells
        (λ content answer. answer ≡ uid_answer content)) answer }
{
    let answer = with_checked(
        alloc,
        handle,
        file,
        |checked| uid_of_object(checked, object),
    );
    tell(answer, out)
}
