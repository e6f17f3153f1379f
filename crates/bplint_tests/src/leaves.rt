//! The readers of objects: places and references, integers, UIDs, data, and units of texts and their order. Their reads
//! fail one by one.

ghost use Rattle.std.specs.Prelude.{◌≡◌, ◌≤◌, ◌<◌, length, IfOk};
ghost use Rattle.bplist_octets.specs.Meaning.{OnlyReads};
ghost use Rattle.bplist_objects.specs.Answers.{read_failed};
ghost use Rattle.bplist_objects.specs.Safe.{IsSafe, IsSafeBody, IsSafeHead};
ghost use Rattle.bplist_objects.specs.Units.{IsTextKind};
ghost use Rattle.bplist_objects.specs.declared.head.Kind.TheVariants.{Bytes};

use bplist_objects::{
    Frame, Head, Kind, ObjectFault, frame_of, head_of, int_of, key_cmp, octets_at, offset_of,
    read_offsets, read_refs, read_units, ref_at, shape_of, uid_of, unit_at,
};
use bplist_octets::{FaultySource, ReadFault, SliceSource, Source};
use bplist_samples::{Parts, TWO_TRUES, small};
use std::cmp::Ordering;
use std::test::Fail;

/// What is read of the top object.
#[derive(Debug, Clone, Copy, PartialEq, Eq)]
enum Leaf {
    Int(i128),
    Uid(u32),
    /// The second and the third byte.
    Data([u8; 2]),
    /// The first three units, read one by one and all at once.
    Units([u16; 3], [u16; 3]),
    /// The place of the array and of its body; the same place from a block; its first reference, alone and from a
    /// block.
    Array([u64; 5]),
    Other,
}

#[tactic(auto, using(bplist_objects::proofs::SafeHeads::safe_body))]
fn top_head<S: Source>(src: &mut S) -> Result<Head, ObjectFault>
    ensures reads { OnlyReads (read_failed result) (S.means src.old) (S.means src.new) }
    ensures safe { IfOk result (λ head. IsSafeBody (length (S.means src.new).octets) head) }
{
    let frame = frame_of(src)?;
    head_of(src, &frame, frame.top)
}

fn data_at<S: Source>(src: &mut S, head: &Head) -> Result<Leaf, ReadFault>
    requires kind { head.now.kind ≡ Bytes }
    requires head { IsSafeBody (length (S.means src.old).octets) head.now }
    requires count { 3 ≤ head.now.count }
{
    let mut into = [0; 2];
    octets_at(src, head, 1, &mut into)?;
    Ok(Leaf::Data(into))
}

fn units_at<S: Source>(src: &mut S, head: &Head) -> Result<Leaf, ReadFault>
    requires kind { IsTextKind head.now.kind }
    requires head { IsSafeBody (length (S.means src.old).octets) head.now }
    requires count { 3 ≤ head.now.count }
{
    let each = [
        unit_at(src, head, 0)?,
        unit_at(src, head, 1)?,
        unit_at(src, head, 2)?,
    ];
    let mut all = [0; 3];
    read_units(src, head, 0, &mut all)?;
    Ok(Leaf::Units(each, all))
}

fn places<S: Source>(src: &mut S, frame: &Frame) -> Result<[u64; 2], ObjectFault>
    requires safe { IsSafe (length (S.means src.old).octets) frame.now }
    requires top { frame.now.top.0 < frame.now.objects }
    ensures reads { OnlyReads (read_failed result) (S.means src.old) (S.means src.new) }
{
    let place = offset_of(src, frame, frame.top)?;
    let mut offsets = [0];
    read_offsets(src, frame, frame.top.0, &mut offsets)?;
    Ok([place, offsets[0]])
}

/// Returns the first reference of an array, read alone and in a block.
fn first_refs<S: Source>(src: &mut S, frame: &Frame, head: &Head) -> Result<[u64; 2], ObjectFault>
    requires safe { IsSafe (length (S.means src.old).octets) frame.now }
    requires head { IsSafeHead frame.now head.now }
{
    if head.kind != Kind::Array || head.count == 0 {
        return Ok([0, 0]);
    }
    let first = ref_at(src, frame, head, 0)?;
    let mut refs = [0];
    read_refs(src, frame, head, 0, &mut refs)?;
    Ok([first, refs[0]])
}

fn array_at<S: Source>(src: &mut S) -> Result<Leaf, ObjectFault> {
    let frame = frame_of(src)?;
    let [place, offset] = places(src, &frame)?;
    let shape = shape_of(src, &frame, frame.top)?;
    let head = head_of(src, &frame, frame.top)?;
    let [first, reference] = first_refs(src, &frame, &head)?;
    Ok(Leaf::Array([place, shape.body, offset, first, reference]))
}

fn leaf_in<S: Source>(src: &mut S) -> Result<Leaf, ObjectFault> {
    let head = top_head(src)?;
    match head.kind {
        Kind::Int => Ok(Leaf::Int(int_of(src, &head)?)),
        Kind::Uid => Ok(Leaf::Uid(uid_of(src, &head)?)),
        Kind::Bytes if head.count >= 3 => Ok(data_at(src, &head)?),
        Kind::Ascii | Kind::Wide if head.count >= 3 => Ok(units_at(src, &head)?),
        Kind::Array => array_at(src),
        _ => Ok(Leaf::Other),
    }
}

/// Files, and what is read of their top objects.
const LEAVES: &[(Parts, Leaf)] = &[
    ((&[0x10, 255], &[8]), Leaf::Int(255)),
    ((&[0x11, 255, 254], &[8]), Leaf::Int(65534)),
    ((&[0x12, 255, 255, 255, 255], &[8]), Leaf::Int(4294967295)),
    (
        (&[0x13, 255, 255, 255, 255, 255, 255, 255, 255], &[8]),
        Leaf::Int(-1),
    ),
    (
        (&[0x13, 127, 255, 255, 255, 255, 255, 255, 255], &[8]),
        Leaf::Int(9223372036854775807),
    ),
    (
        (
            &[
                0x14, 0, 0, 0, 0, 0, 0, 0, 0, 255, 255, 255, 255, 255, 255, 255, 255,
            ],
            &[8],
        ),
        Leaf::Int(18446744073709551615),
    ),
    (
        (
            &[0x14, 0x80, 0, 0, 0, 0, 0, 0, 0, 0, 0, 0, 0, 0, 0, 0, 0],
            &[8],
        ),
        Leaf::Int(i128::MIN),
    ),
    ((&[0x80, 255], &[8]), Leaf::Uid(255)),
    ((&[0x85, 0, 0, 1, 2, 3, 4], &[8]), Leaf::Uid(0x01020304)),
    ((&[0x43, 7, 8, 9], &[8]), Leaf::Data([8, 9])),
    (
        (&[0x53, 0x61, 0x20, 0x62], &[8]),
        Leaf::Units([0x61, 0x20, 0x62], [0x61, 0x20, 0x62]),
    ),
    (
        (&[0x63, 0xd8, 0x3d, 0, 0x22, 0x7f, 0xff], &[8]),
        Leaf::Units([0xd83d, 0x22, 0x7fff], [0xd83d, 0x22, 0x7fff]),
    ),
    (TWO_TRUES, Leaf::Array([8, 9, 8, 1, 1])),
];

/// Each read fails in its turn: the fault of the source is reported, and the repeated call gives the answer.
#[test]
fn leaves(rt: HostRuntime) -> Result<(), Fail> {
    let failed = Err(ObjectFault::Read(ReadFault::Device));
    for ((objects, table), want) in LEAVES {
        let file = small(rt.alloc(), objects, table)?;
        assert_eq!(rt; leaf_in(&mut SliceSource::new(&file)), Ok(*want));
        for fails in 0..100 {
            let mut src = FaultySource::new(&file, fails);
            let answers = [leaf_in(&mut src), leaf_in(&mut src)];
            if answers[0] == Ok(*want) {
                assert!(rt; fails > 0, "{objects:?} without a read");
                break;
            }
            assert_eq!(rt; answers, [failed, Ok(*want)], "read {fails} of {objects:?}");
        }
    }
    Ok(())
}

fn compared<S: Source>(
    src: &mut S,
    units: &[u16],
    made: &mut u64,
) -> Result<Option<Ordering>, ObjectFault> {
    let head = top_head(src)?;
    match head.kind {
        Kind::Ascii | Kind::Wide => Ok(Some(key_cmp(src, &head, units, made)?)),
        _ => Ok(None),
    }
}

/// The text `ab`.
const AB: &[u8] = &[0x52, 0x61, 0x62];

/// A text of 40 units, which is more than one block of a comparison.
const LONG: &[u8] = b"\x5f\x10\x28aaaaaaaaaaaaaaaaaaaaaaaaaaaaaaaaaaaaaaaa";

/// The units of `LONG`, except that the last one is greater.
const ABOVE_LONG: &[u16] = &[
    0x61, 0x61, 0x61, 0x61, 0x61, 0x61, 0x61, 0x61, 0x61, 0x61, 0x61, 0x61, 0x61, 0x61, 0x61, 0x61,
    0x61, 0x61, 0x61, 0x61, 0x61, 0x61, 0x61, 0x61, 0x61, 0x61, 0x61, 0x61, 0x61, 0x61, 0x61, 0x61,
    0x61, 0x61, 0x61, 0x61, 0x61, 0x61, 0x61, 0x62,
];

/// A text, the units to compare it with, the counter before, the order, and the counter after.
const ORDERS: &[(&[u8], &[u16], u64, (Ordering, u64))] = &[
    (AB, &[0x61, 0x62], 4, (Ordering::Equal, 5)),
    (AB, &[0x61], 4, (Ordering::Greater, 5)),
    (AB, &[], 4, (Ordering::Greater, 5)),
    (AB, &[0x61, 0x62, 0], 4, (Ordering::Less, 5)),
    (AB, &[0x61, 0x63], 4, (Ordering::Less, 5)),
    (AB, &[0x61, 0x61, 0x7a], 4, (Ordering::Greater, 5)),
    (
        &[0x61, 0xd8, 0x3d],
        &[0xe000],
        u64::MAX,
        (Ordering::Less, u64::MAX),
    ),
    (LONG, &[0x61; 40], 0, (Ordering::Equal, 1)),
    (LONG, ABOVE_LONG, 0, (Ordering::Less, 1)),
    (LONG, &[0x61; 39], 0, (Ordering::Greater, 1)),
];

#[test]
fn order_of_keys(rt: HostRuntime) -> Result<(), Fail> {
    for (object, units, made, want) in ORDERS {
        let file = small(rt.alloc(), object, &[8])?;
        let mut counter = *made;
        let answer = compared(&mut SliceSource::new(&file), units, &mut counter);
        let (order, shown) = *want;
        assert_eq!(rt; (answer, counter), (Ok(Some(order)), shown));
    }
    Ok(())
}

/// Reads of the head do not count. The one read of the comparison does, even though it fails.
#[test]
fn a_failed_read_counts_too(rt: HostRuntime) -> Result<(), Fail> {
    let file = small(rt.alloc(), &[0x51, 0x61], &[8])?;
    let mut counts = Vec::new(rt.alloc());
    for fails in 0..100 {
        let mut counter = 0;
        let mut src = FaultySource::new(&file, fails);
        if compared(&mut src, &[0x61], &mut counter).is_ok() {
            break;
        }
        counts.push(counter)?;
    }
    assert!(rt; counts.iter().rev().skip(1).all(|count| *count == 0));
    assert_eq!(rt; counts.last(), Some(&1));
    Ok(())
}
