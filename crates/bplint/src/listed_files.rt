//! Answers the same question about each FILE that a list names.

ghost use Rattle.std.specs.Prelude.{◌≤◌};

use crate::args::Run;
use crate::ending::{Ending, end};
use crate::input::{open_inputs, read_input};
use crate::lists::with_listed_paths;
use crate::reasons::{prefix_of, unnamed_ending};
use crate::run::{Ended, run, run_opened};
use crate::unread::Unread;
use bplint_lines::RunFault;
use std::alloc::Global;
use std::fs::{File, Files};

/// Answers what is asked about FILE, or about the FILEs of a list. Returns the exit status, which for a list is the
/// greatest of all.
pub fn run_all<R: Files<File = File> + Input + Print + Eprint>(
    rt: &R,
    alloc: Global,
    line: Run<'_>,
) -> u8
    ensures { result ≤ 4 }
{
    let Some(list) = line.files_from else {
        return run(rt, alloc, line);
    };
    let line = match with_listed_paths(rt, alloc, line) {
        Ok(line) => line,
        Err(status) => return status,
    };
    match read_input(rt, alloc, list) {
        Ok(names) => run_names(rt, alloc, line, &names),
        Err(fault) => {
            let unread = Unread::new(list, fault);
            end(rt, alloc, "", unread.ending(alloc, line.explain))
        }
    }
}

/// A line feed ends each name. Nothing is asked any more once nobody reads the answers.
fn run_names<'a, R: Files<File = File> + Input + Print + Eprint>(
    rt: &R,
    alloc: Global,
    line: Run<'a>,
    names: &'a [u8],
) -> u8
    ensures { result ≤ 4 }
{
    let mut line = line;
    let mut greatest = 0;
    for name in names.split(|octet| *octet == b'\n') {
        let ended = match std::str::from_utf8(name) {
            Ok("") => continue,
            Ok(name) => {
                line.file = name;
                run_named(rt, alloc, &mut line)
            }
            Err(_) => refuse_name(rt, alloc, name, line.explain),
        };
        greatest = ended.status.max(greatest);
        if ended.is_closed {
            break;
        }
    }
    greatest.min(4)
}

/// Each line begins with the name of the file.
fn run_named<R: Files<File = File> + Input + Print + Eprint>(
    rt: &R,
    alloc: Global,
    line: &mut Run<'_>,
) -> Ended
    ensures { result.status ≤ 4 }
{
    line.prefix = match prefix_of(alloc, line.file, true) {
        Ok(prefix) => prefix,
        Err(_) => return Ended::with(end(rt, alloc, "", Ending::with(alloc, RunFault::Memory))),
    };
    match open_inputs(rt, alloc, line) {
        Ok(inputs) => run_opened(rt, alloc, line, inputs),
        Err(unread) => {
            let ending = unread.ending(alloc, line.explain);
            Ended::with(end(rt, alloc, &line.prefix, ending))
        }
    }
}

/// The name is not UTF-8.
fn refuse_name<R: Eprint>(rt: &R, alloc: Global, name: &[u8], explain: bool) -> Ended
    ensures { result.status ≤ 4 }
{
    Ended::with(match unnamed_ending(alloc, name, explain) {
        Ok((prefix, ending)) => end(rt, alloc, &prefix, ending),
        Err(_) => end(rt, alloc, "", Ending::with(alloc, RunFault::Memory)),
    })
}
