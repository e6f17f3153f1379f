//! The cursor: path texts and their steps, nodes that no certificate vouches for, what is lent, how many comparisons a
//! look-up among a thousand keys takes and how many bytes it asks for, and how many bytes sizes ask for.

use bplist_ascii::{PrintFault, print};
use bplist_cert::Checked;
use bplist_cursor::{
    CursorFault, Found, List, Node, Path, Query, Why, answer_all, bytes_of, face, locate_counted,
    measure, member,
};
use bplist_objects::ObjectNo;
use bplist_octets::{CountingSource, SliceSource};
use bplist_samples::{Parts, Row, ShortWriter, THREE_KEYS, thousand_keys};
use std::alloc::{AllocError, Global};
use std::process::Abort;
use std::test::Fail;

/// Path texts and their steps.
const TEXTS: &[(&str, &[&[u16]])] = &[
    ("", &[]),
    ("/", &[&[]]),
    ("/a~1b", &[&[0x61, 0x2F, 0x62]]),
    ("/~01", &[&[0x7E, 0x31]]),
    ("/a/0//b", &[&[0x61], &[0x30], &[], &[0x62]]),
    ("/é/", &[&[0xE9], &[]]),
    (
        "/x\u{10000}\u{10FFFF}",
        &[&[0x78, 0xD800, 0xDC00, 0xDBFF, 0xDFFF]],
    ),
    ("/\u{FFFF}~0", &[&[0xFFFF, 0x7E]]),
];

fn path_of(alloc: Global, steps: &[&[u16]]) -> Result<Path, AllocError> {
    let mut own = Vec::new(alloc);
    for step in steps {
        own.push(Vec::from_slice(alloc, step)?)?;
    }
    Ok(Path::from_steps(own))
}

/// `Debug` writes the path like this.
fn is_shown(
    rt: &impl Abort,
    alloc: Global,
    path: Path,
    want: &str,
    text: &str,
) -> Result<(), AllocError> {
    let shown = format!(in alloc; "{path:?}")?;
    assert_eq!(rt; shown.as_str(), want, "at {text}");
    Ok(())
}

/// The path of a text equals the path of its steps.
#[test]
fn texts(rt: HostRuntime) -> Result<(), Fail> {
    let alloc = rt.alloc();
    for (text, steps) in TEXTS {
        let want = format!(in alloc; "Path {{ steps: {steps:?} }}")?;
        is_shown(&rt, alloc, Path::parse(alloc, text)?, &want, text)?;
        is_shown(&rt, alloc, path_of(alloc, steps)?, &want, text)?;
    }
    Ok(())
}

/// Returns true if every call on a node returns `Changed`, and no bytes are lent.
fn is_no_node(alloc: Global, checked: &mut Checked<SliceSource<'_>>, node: Node) -> bool {
    let Ok(measures) = measure(alloc, checked) else {
        return false;
    };
    let mut out = ShortWriter::with_room(64);
    let printed = print(alloc, checked, &measures, node, 64, &mut out);
    let faced = face(alloc, checked, node).err();
    let first = member(checked, node, 0);
    printed == Err(PrintFault::Changed)
        && out.held.is_empty()
        && faced == Some(CursorFault::Changed)
        && first == Err(CursorFault::Changed)
        && member(checked, node, u64::MAX) == Err(CursorFault::Changed)
        && bytes_of(checked, node).is_none()
}

/// Files, and objects that are not reachable or do not exist.
const NO_NODES: &[(Parts, u32)] = &[
    (THREE_KEYS, 8),
    (THREE_KEYS, u32::MAX),
    ((&[0x61, 0, 0x61, 0x42, 1, 2], &[8, 11]), 1),
];

#[test]
fn no_nodes(rt: HostRuntime) -> Result<(), Fail> {
    let alloc = rt.alloc();
    for (parts, n) in NO_NODES {
        let row = Row::small(alloc, "no node", *parts)?;
        let mut checked = row.checked(alloc, SliceSource::new(&row.octets))?;
        let node = Node {
            object: ObjectNo(*n),
        };
        assert!(rt;
            is_no_node(alloc, &mut checked, node),
            "object {n} of {parts:?}"
        );
    }
    Ok(())
}

#[test]
fn lists(rt: HostRuntime) -> Result<(), Fail> {
    let list = List::new(vec![in rt.alloc(); 7u16, 8, 9]?);
    assert_eq!(rt; list.as_slice(), [7, 8, 9].as_slice());
    assert_eq!(rt; list.into_vec().as_slice(), [7, 8, 9].as_slice());
    Ok(())
}

/// The largest number of comparisons, of bytes asked for (what `path_bytes` is for a step of 4 units into 1,000 keys),
/// and of reads.
const MOST: (u64, u64, u64) = (10, 476, 400);

/// The look-up of this key finds what it should, within `MOST`.
fn is_by_halving(
    rt: &impl Abort,
    alloc: Global,
    checked: &mut Checked<CountingSource<SliceSource<'_>>>,
    key: u32,
) -> Result<(), Fail> {
    let (asked_before, reads_before) = (checked.source().asked, checked.source().reads);
    let (found, compared) = locate_counted(
        checked,
        &Path::parse(alloc, &format!(in alloc; "/{key:04}")?)?,
    )?;
    let asked = checked.source().asked.saturating_sub(asked_before);
    let reads = checked.source().reads.saturating_sub(reads_before);
    let want = if key < 1000 {
        Found::At(Node {
            object: ObjectNo(1001),
        })
    } else {
        Found::Missing {
            step: 0,
            why: Why::NoKey,
        }
    };
    assert_eq!(rt; found, want, "key {key}");
    assert!(rt;
        compared >= 1 && compared <= MOST.0,
        "key {key} takes {compared}"
    );
    assert!(rt; asked >= 1 && asked <= MOST.1, "key {key} asks for {asked}");
    assert!(rt;
        reads >= 1 && reads <= MOST.2,
        "key {key} takes {reads} reads"
    );
    Ok(())
}

#[test]
fn thousand_keys_by_halving(rt: HostRuntime) -> Result<(), Fail> {
    let alloc = rt.alloc();
    let row = thousand_keys(alloc)?.sorted(alloc)?;
    assert_eq!(rt; row.octets.len(), 11049);
    let mut checked = row.checked(alloc, CountingSource::new(SliceSource::new(&row.octets)))?;
    for key in 0..1001 {
        is_by_halving(&rt, alloc, &mut checked, key)?;
    }
    Ok(())
}

/// The largest number of bytes that measuring the file of 1,000 keys asks for: what `pass_bytes` is for 1,002 objects
/// and an offset table at 9013.
const MOST_OF_A_PASS: u64 = 37069;

fn asked_for_sizes(alloc: Global, row: &Row, sizes: usize) -> Result<u64, Fail> {
    let mut checked = row.checked(alloc, CountingSource::new(SliceSource::new(&row.octets)))?;
    let mut queries = Vec::new(alloc);
    for _ in 0..sizes {
        queries.push(Query::Size(Path::parse(alloc, "")?))?;
    }
    let before = checked.source().asked;
    answer_all(alloc, &mut checked, &queries)?;
    Ok(checked.source().asked.saturating_sub(before))
}

#[test]
fn sizes_are_measured_once(rt: HostRuntime) -> Result<(), Fail> {
    let alloc = rt.alloc();
    let row = thousand_keys(alloc)?;
    let once = asked_for_sizes(alloc, &row, 1)?;
    assert!(rt; once >= 1000 && once <= MOST_OF_A_PASS, "{once} bytes");
    let thrice = asked_for_sizes(alloc, &row, 3)?;
    assert!(rt;
        thrice < once.saturating_mul(2),
        "{once} and {thrice} bytes"
    );
    Ok(())
}
