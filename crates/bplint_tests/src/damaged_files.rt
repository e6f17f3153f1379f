//! Files that are cut or changed, and a file that changes while it is read.

ghost use Rattle.bplint_engine.specs.Commands.{PrintsOnePath};

use crate::runs::{certificate_of, outcome, plain, with_path};
use bplint_engine::{Command, Verb, run_on, run_over};
use bplist_octets::ShiftingSource;
use bplist_samples::{Row, SMALLEST_FILE, TWO_TRUES, small, tested_rows};
use std::alloc::Global;
use std::test::Fail;

fn is_accepted(alloc: Global, file: &[u8], cert: &[u8]) -> bool {
    let mut out = Vec::new(alloc);
    run_over(alloc, &plain(alloc, Verb::Check), file, cert, &mut out).is_ok()
}

/// If `certify` accepts the file, `check` accepts its certificate. Otherwise `check` refuses the certificate of the
/// unchanged file.
fn agrees(alloc: Global, file: &[u8], unchanged: &[u8]) -> bool {
    match certificate_of(alloc, file) {
        Some(cert) => is_accepted(alloc, file, &cert),
        None => !is_accepted(alloc, file, unchanged),
    }
}

#[test]
fn every_cut(rt: HostRuntime) -> Result<(), Fail> {
    let alloc = rt.alloc();
    for row in tested_rows(alloc)? {
        for length in 0..row.octets.len() {
            let cut = &row.octets[..length];
            let is_refused = certificate_of(alloc, cut).is_none()
                && !is_accepted(alloc, cut, &row.certificate);
            let name = row.name;
            assert!(rt; is_refused, "{name} cut to {length}");
        }
    }
    Ok(())
}

#[test]
fn every_change_of_one_byte(rt: HostRuntime) -> Result<(), Fail> {
    let alloc = rt.alloc();
    for row in tested_rows(alloc)?
        .iter()
        .filter(|row| row.octets.len() < 100)
    {
        let mut changed = row.octets.to_vec(alloc)?;
        for i in 0..changed.len() {
            let kept = changed[i];
            for value in 0..=255 {
                changed[i] = value;
                let name = row.name;
                assert!(rt;
                    agrees(alloc, &changed, &row.certificate),
                    "{name} at {i} {value}"
                );
            }
            changed[i] = kept;
        }
    }
    Ok(())
}

/// How the lines of `lint` begin for changes of the smallest file, and how many begin so. There are 10,710 changes.
const LINES: [(&str, u32); 13] = [
    ("0 ok ", 1545),
    ("1 fault Magic ", 2040),
    ("1 fault NoObjects ", 1),
    ("1 fault Top ", 2040),
    ("1 fault TableEarly ", 9),
    ("1 fault TableLate ", 2031),
    ("1 fault OffsetSize ", 248),
    ("1 fault RefSize ", 248),
    ("1 fault Length ", 2046),
    ("1 fault OffsetHigh ", 247),
    ("1 fault OffsetLow ", 8),
    ("1 fault Marker ", 133),
    ("1 fault Extent ", 114),
];

/// Returns which of these beginnings the line of `lint` has for a file, or their number if it has none of them.
fn line_of(alloc: Global, file: &[u8]) -> Result<usize, Fail> {
    let mut out = Vec::new(alloc);
    let answer = run_over(alloc, &plain(alloc, Verb::Lint), file, b"", &mut out);
    let line = outcome(alloc, answer, &out)?;
    let known = LINES
        .iter()
        .position(|(beginning, _)| line.as_str().starts_with(*beginning));
    Ok(known.unwrap_or(LINES.len()))
}

#[test]
fn changes_of_one_byte_by_counts(rt: HostRuntime) -> Result<(), Fail> {
    let alloc = rt.alloc();
    let (objects, table) = SMALLEST_FILE;
    let mut file = small(alloc, objects, table)?;
    let mut counts: [u32; 14] = [0; 14];
    for i in 0..file.len() {
        let kept = file[i];
        for other in 0..=255 {
            if other != kept {
                file[i] = other;
                let line = line_of(alloc, &file)?;
                if let Some(count) = counts.get_mut(line) {
                    *count = count.saturating_add(1);
                }
            }
        }
        file[i] = kept;
    }
    for (count, (line, want)) in counts.iter().zip(LINES.iter()) {
        assert_eq!(rt; *count, *want, "{line}");
    }
    assert_eq!(rt; counts[13], 0);
    Ok(())
}

/// After some reads the source becomes the other file, which has the same length.
fn outcome_of_shifting(
    alloc: Global,
    command: &Command,
    row: &Row,
    other: &[u8],
    reads: u64,
) -> Result<String, Fail>
    requires { PrintsOnePath command.now }
{
    if row.octets.len() != other.len() {
        return Err(Fail::from("a file of another length"));
    }
    let source = ShiftingSource::new(&row.octets, other, reads);
    let mut out = Vec::new(alloc);
    let (answer, _source) = run_on(alloc, command, source, &row.certificate, &mut out);
    outcome(alloc, answer, &out)
}

#[test]
fn file_that_changes(rt: HostRuntime) -> Result<(), Fail> {
    let alloc = rt.alloc();
    let row = Row::small(alloc, "two-trues", TWO_TRUES)?;
    let other = small(alloc, TWO_TRUES.0, &[0, 11])?;
    let command = with_path(alloc, Verb::Get, "/0")?;
    assert!(rt; changes_seen(alloc, &command, &row, &other)? > 0);
    let line = outcome_of_shifting(alloc, &command, &row, &other, 100)?;
    assert_eq!(rt; line.as_str(), "0 true\n");
    Ok(())
}

/// Returns at how many of the first hundred reads the command notices the change of the file.
fn changes_seen(alloc: Global, command: &Command, row: &Row, other: &[u8]) -> Result<u32, Fail>
    requires { PrintsOnePath command.now }
{
    let mut changes = 0u32;
    for reads in 0..100 {
        let line = outcome_of_shifting(alloc, command, row, other, reads)?;
        if line.as_str() == "3 changed\n" {
            changes = changes.saturating_add(1);
        }
    }
    Ok(changes)
}
