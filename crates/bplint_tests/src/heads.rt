//! Heads: kinds, counts, bodies and ends, and faults.

use bplist_objects::{Fault, Head, Kind, ObjectFault, ObjectNo, Rule, frame_of, head_of};
use bplist_octets::SliceSource;
use bplist_samples::{Parts, THREE_KEYS, TWO_TRUES, small};
use std::test::Fail;

/// A head as its kind, count, body and end, or the rule that object 0 breaks and the place.
type Want = Result<(Kind, u64, u64, u64), (Rule, u64)>;

fn answer_of(want: Want) -> Result<Head, ObjectFault> {
    match want {
        Ok((kind, count, body, end)) => Ok(Head {
            kind,
            count,
            body,
            end,
        }),
        Err((rule, place)) => Err(ObjectFault::Fault(Fault {
            rule,
            object: Some(ObjectNo(0)),
            place,
        })),
    }
}

/// An object number that does not exist gives a fault of rule `Top`.
fn head(file: &[u8], n: u32) -> Result<Head, ObjectFault> {
    let mut src = SliceSource::new(file);
    let frame = frame_of(&mut src)?;
    if frame.objects <= n {
        return Err(ObjectFault::Fault(Fault {
            rule: Rule::Top,
            object: None,
            place: 0,
        }));
    }
    head_of(&mut src, &frame, ObjectNo(n))
}

/// Files, objects, and their heads or faults.
const HEADS: &[(Parts, u32, Want)] = &[
    (TWO_TRUES, 0, Ok((Kind::Array, 2, 9, 11))),
    (TWO_TRUES, 1, Ok((Kind::True, 0, 12, 12))),
    (THREE_KEYS, 0, Ok((Kind::Dict, 3, 9, 15))),
    (THREE_KEYS, 1, Ok((Kind::Ascii, 3, 16, 19))),
    (THREE_KEYS, 4, Ok((Kind::Array, 1, 23, 24))),
    (THREE_KEYS, 6, Ok((Kind::Set, 1, 26, 27))),
    ((&[0xa0], &[8]), 0, Ok((Kind::Array, 0, 9, 9))),
    ((&[0xd0], &[8]), 0, Ok((Kind::Dict, 0, 9, 9))),
    (
        (&[0x4f, 0x10, 3, 0xaa, 0xbb, 0xcc], &[8]),
        0,
        Ok((Kind::Bytes, 3, 11, 14)),
    ),
    ((&[0x4f, 0x15], &[8]), 0, Err((Rule::Count, 9))),
    ((&[0x4f], &[8]), 0, Err((Rule::Extent, 8))),
    (
        (&[0x4f, 0x13, 255, 255, 255, 255, 255, 255, 255, 255], &[8]),
        0,
        Err((Rule::Extent, 8)),
    ),
    ((&[0x15], &[8]), 0, Err((Rule::Marker, 8))),
    ((&[0x11], &[8]), 0, Err((Rule::Extent, 8))),
    (
        (&[0x87, 0, 0, 0, 1, 0, 0, 0, 0], &[8]),
        0,
        Err((Rule::UidLarge, 8)),
    ),
    ((&[0xa1, 1], &[8]), 0, Err((Rule::RefHigh, 9))),
];

#[test]
fn heads(rt: HostRuntime) -> Result<(), Fail> {
    for ((objects, table), n, want) in HEADS {
        let file = small(rt.alloc(), objects, table)?;
        assert_eq!(rt; head(&file, *n), answer_of(*want));
    }
    Ok(())
}
