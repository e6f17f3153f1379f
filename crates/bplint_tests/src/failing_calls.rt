//! Calls with one failing read: in the first run read 0 fails, in the next run read 1, and so on up to the first run
//! without a failure. The call reports the fault of that read, and gives the same answer as over a slice if it is
//! repeated.

use bplist_cert::{Certificate, check};
use bplist_lint::lint;
use bplist_octets::{ReadFault, SliceSource, Source};
use bplist_samples::{
    Call, FailingRead, FailingSource, Parts, READ_FAULTS, Row, all_calls, checked_text, small,
    tested_rows,
};
use std::alloc::{AllocError, Global};
use std::process::Abort;
use std::test::Fail;

/// More reads than any call or command makes.
pub(crate) const MOST_READS: u64 = 100_000;

/// The result of a call with a read that may fail, and the result of the same call when it is repeated.
#[derive(Drop)]
struct Turn {
    first: String,
    again: String,
}

/// The second check takes what the first handed back.
fn check_turn(alloc: Global, row: &Row, read: FailingRead) -> Result<Turn, Fail> {
    let source = FailingSource::new(&row.octets, read);
    match check(alloc, source, row.certificate(alloc)?) {
        Ok(checked) => Ok(Turn {
            first: checked_text(alloc, &checked)?,
            again: String::new(alloc),
        }),
        Err((refusal, source, certificate)) => Ok(Turn {
            first: format!(in alloc; "Err({refusal:?})")?,
            again: accepted_text(alloc, row.name, source, certificate)?,
        }),
    }
}

fn accepted_text<S: Source + Drop>(
    alloc: Global,
    name: &'static str,
    source: S,
    certificate: Certificate,
) -> Result<String, Fail> {
    match check(alloc, source, certificate) {
        Ok(checked) => Ok(checked_text(alloc, &checked)?),
        Err(_) => Err(Fail::new(name)),
    }
}

fn call_turn(alloc: Global, row: &Row, call: &Call, read: FailingRead) -> Result<Turn, Fail> {
    let mut checked = row.checked(alloc, FailingSource::new(&row.octets, read))?;
    let first = call.answer_text(alloc, &mut checked)?;
    let again = call.answer_text(alloc, &mut checked)?;
    Ok(Turn { first, again })
}

/// Returns true if the first call of a turn did not come to this read.
fn is_whole(rt: &impl Abort, name: &str, turn: &Turn, read: FailingRead, want: &str) -> bool {
    if turn.first.as_str() == want {
        return true;
    }
    assert_eq!(rt; turn.first.as_str(), read.text(), "{name}");
    assert_eq!(rt; turn.again.as_str(), want, "{name}");
    false
}

/// Returns how many reads the check makes.
fn check_at_each_turn(
    rt: &impl Abort,
    alloc: Global,
    row: &Row,
    fault: ReadFault,
) -> Result<u64, Fail> {
    let source = SliceSource::new(&row.octets);
    let want = accepted_text(alloc, row.name, source, row.certificate(alloc)?)?;
    for before in 0..MOST_READS {
        let read = FailingRead { before, fault };
        if is_whole(rt, row.name, &check_turn(alloc, row, read)?, read, &want) {
            return Ok(before);
        }
    }
    Err(Fail::new(row.name))
}

fn whole_answer(alloc: Global, row: &Row, call: &Call) -> Result<String, Fail> {
    let mut whole = row.checked(alloc, SliceSource::new(&row.octets))?;
    Ok(call.answer_text(alloc, &mut whole)?)
}

/// The reads fail after the check has ended. Returns how many reads the call makes.
fn call_at_each_turn(
    rt: &impl Abort,
    alloc: Global,
    row: &Row,
    call: &Call,
    first: FailingRead,
) -> Result<u64, Fail> {
    let want = whole_answer(alloc, row, call)?;
    for turn in 0..MOST_READS {
        let read = first.later(turn);
        if is_whole(
            rt,
            row.name,
            &call_turn(alloc, row, call, read)?,
            read,
            &want,
        ) {
            return Ok(turn);
        }
    }
    Err(Fail::new(row.name))
}

fn row_at_each_turn(
    rt: &impl Abort,
    alloc: Global,
    row: &Row,
    calls: &[Call],
    fault: ReadFault,
) -> Result<(), Fail> {
    let before = check_at_each_turn(rt, alloc, row, fault)?;
    assert!(rt; before > 0);
    let mut reads = 0u64;
    for call in calls {
        let first = FailingRead { before, fault };
        reads = reads.saturating_add(call_at_each_turn(rt, alloc, row, call, first)?);
    }
    assert!(rt; reads > 0);
    Ok(())
}

fn rows_at_each_turn(
    rt: &impl Abort,
    alloc: Global,
    rows: &[Row],
    fault: ReadFault,
) -> Result<(), Fail> {
    let calls = all_calls(alloc)?;
    for row in rows {
        row_at_each_turn(rt, alloc, row, &calls, fault)?;
    }
    Ok(())
}

/// With certificates of version 1.
#[test]
fn each_read_of_each_call(rt: HostRuntime) -> Result<(), Fail> {
    let alloc = rt.alloc();
    let rows = tested_rows(alloc)?;
    for fault in READ_FAULTS {
        rows_at_each_turn(&rt, alloc, &rows, *fault)?;
    }
    Ok(())
}

/// With certificates of version 2.
#[test]
fn each_read_of_each_call_with_key_lists(rt: HostRuntime) -> Result<(), Fail> {
    let alloc = rt.alloc();
    let mut rows = Vec::new(alloc);
    for row in tested_rows(alloc)? {
        rows.push(row.sorted(alloc)?)?;
    }
    for fault in READ_FAULTS {
        rows_at_each_turn(&rt, alloc, &rows, *fault)?;
    }
    Ok(())
}

/// Files that `lint` refuses, and why.
const REFUSED: &[(&str, Parts)] = &[
    ("Marker", (&[0xa1, 1, 0x7f], &[8, 10])),
    ("Overfull", (&[0xa2, 1, 2, 0x52, 0x61, 0x62], &[8, 11, 11])),
    ("KeyTwice", (&[0xd2, 1, 1, 1, 1, 0x51, 0x61], &[8, 13])),
    ("circle", (&[0xa1, 1, 0xa2, 2, 2, 9, 9], &[8, 10, 8])),
];

fn refusal<S: Source>(alloc: Global, source: &mut S) -> Result<String, AllocError> {
    let refused = lint(alloc, source).map(|_| ());
    format!(in alloc; "{refused:?}")
}

fn lint_turn(alloc: Global, octets: &[u8], read: FailingRead) -> Result<Turn, AllocError> {
    let mut source = FailingSource::new(octets, read);
    let first = refusal(alloc, &mut source)?;
    let again = refusal(alloc, &mut source)?;
    Ok(Turn { first, again })
}

/// The linter refuses the file. Returns how many reads it makes.
fn lint_at_each_turn(
    rt: &impl Abort,
    alloc: Global,
    name: &'static str,
    octets: &[u8],
    fault: ReadFault,
) -> Result<u64, Fail> {
    let want = refusal(alloc, &mut SliceSource::new(octets))?;
    for before in 0..MOST_READS {
        let read = FailingRead { before, fault };
        if is_whole(rt, name, &lint_turn(alloc, octets, read)?, read, &want) {
            return Ok(before);
        }
    }
    Err(Fail::new(name))
}

/// The linter, including its way to the first fault.
#[test]
fn each_read_of_the_linter(rt: HostRuntime) -> Result<(), Fail> {
    let alloc = rt.alloc();
    for (name, (objects, table)) in REFUSED {
        let octets = small(alloc, objects, table)?;
        for fault in READ_FAULTS {
            let reads = lint_at_each_turn(&rt, alloc, name, &octets, *fault)?;
            assert!(rt; reads > 0);
        }
    }
    Ok(())
}
