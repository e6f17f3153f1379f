//! Commands with one failing read: in the first run read 0 fails, in the next run read 1, and so on up to the first run
//! without a failure. The command reports the fault of that read.

ghost use Rattle.bplint_engine.specs.Commands.{PrintsOnePath};

use crate::failing_calls::MOST_READS;
use crate::runs::{line_of_read, outcome, with_path};
use bplint_engine::{Command, Verb, run_on, run_over};
use bplist_octets::ReadFault;
use bplist_samples::{FailingRead, FailingSource, READ_FAULTS, Row, tested_rows};
use std::alloc::Global;
use std::process::Abort;
use std::test::Fail;

fn outcome_of(
    alloc: Global,
    command: &Command,
    row: &Row,
    read: FailingRead,
) -> Result<String, Fail>
    requires { PrintsOnePath command.now }
{
    let source = FailingSource::new(&row.octets, read);
    let mut out = Vec::new(alloc);
    let (answer, _source) = run_on(alloc, command, source, &row.certificate, &mut out);
    outcome(alloc, answer, &out)
}

/// Returns how many reads the command makes.
fn run_at_each_turn(
    rt: &impl Abort,
    alloc: Global,
    command: &Command,
    row: &Row,
    fault: ReadFault,
) -> Result<u64, Fail>
    requires { PrintsOnePath command.now }
{
    let mut out = Vec::new(alloc);
    let answer = run_over(alloc, command, &row.octets, &row.certificate, &mut out);
    let whole = outcome(alloc, answer, &out)?;
    for before in 0..MOST_READS {
        let told = outcome_of(alloc, command, row, FailingRead { before, fault })?;
        if told.as_str() == whole.as_str() {
            return Ok(before);
        }
        let name = row.name;
        assert_eq!(rt; told.as_str(), line_of_read(fault), "{name}");
    }
    Err(Fail::new(row.name))
}

/// A verb, and a path for it.
const COMMANDS: &[(Verb, &str)] = &[
    (Verb::Lint, ""),
    (Verb::Certify, ""),
    (Verb::Check, ""),
    (Verb::Get, ""),
    (Verb::Get, "/a"),
    (Verb::Print, ""),
];

fn command_at_each_turn(
    rt: &impl Abort,
    alloc: Global,
    command: &Command,
    rows: &[Row],
) -> Result<(), Fail>
    requires { PrintsOnePath command.now }
{
    for row in rows {
        for fault in READ_FAULTS {
            let reads = run_at_each_turn(rt, alloc, command, row, *fault)?;
            assert!(rt; reads > 0);
        }
    }
    Ok(())
}

#[test]
fn each_read_of_each_command(rt: HostRuntime) -> Result<(), Fail> {
    let alloc = rt.alloc();
    let rows = tested_rows(alloc)?;
    for (verb, path) in COMMANDS {
        let command = with_path(alloc, *verb, path)?;
        command_at_each_turn(&rt, alloc, &command, &rows)?;
    }
    Ok(())
}
