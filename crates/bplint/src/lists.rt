//! Reads path texts from a file, one a line.

ghost use Rattle.std.specs.Prelude.{◌≤◌, IfErr};

use crate::args::Run;
use crate::ending::{end, refuse_line};
use crate::folders::shown_name;
use crate::input::read_input;
use crate::input_fault::InputFault;
use crate::unread::Unread;
use std::alloc::{AllocError, Global};
use std::fs::{File, Files};

/// Gives a line the path texts of its list, if it has one. If the list cannot be taken, says why, and returns the exit
/// status.
pub fn with_listed_paths<'a, R: Files<File = File> + Input + Eprint>(
    rt: &R,
    alloc: Global,
    line: Run<'a>,
) -> Result<Run<'a>, u8>
    ensures { IfErr result (λ status. status ≤ 4) }
{
    let Some(list) = line.paths_from else {
        return Ok(line);
    };
    let fault = match read_paths(rt, alloc, list) {
        Ok(Ok(paths)) => return Ok(line.with_paths(paths)),
        Ok(Err(number)) => match not_utf8(alloc, list, number) {
            Ok(text) => return Err(refuse_line(rt, &text)),
            Err(_) => InputFault::Memory,
        },
        Err(fault) => fault,
    };
    let ending = Unread::new(list, fault).ending(alloc, line.explain);
    Err(end(rt, alloc, &line.prefix, ending))
}

/// Reads path texts. Each line is one, the empty line too; after the last line feed there is none. The inner error is
/// the number of a line that is not UTF-8.
fn read_paths<R: Files<File = File> + Input>(
    rt: &R,
    alloc: Global,
    name: &str,
) -> Result<Result<Vec<String>, usize>, InputFault> {
    let octets = read_input(rt, alloc, name)?;
    match std::str::from_utf8(&octets) {
        Ok(text) => Ok(Ok(lines_of(alloc, text)?)),
        Err(error) => Ok(Err(line_number(&octets, error.valid_up_to()))),
    }
}

fn lines_of(alloc: Global, text: &str) -> Result<Vec<String>, AllocError> {
    let mut lines = Vec::new(alloc);
    for line in text.split_terminator('\n') {
        lines.push(String::from_str(alloc, line)?)?;
    }
    Ok(lines)
}

/// The first line has the number 1.
fn line_number(octets: &[u8], place: usize) -> usize {
    let mut number = 1usize;
    for octet in octets.iter().take(place) {
        if *octet == b'\n' {
            number = number.saturating_add(1);
        }
    }
    number
}

fn not_utf8(alloc: Global, name: &str, number: usize) -> Result<String, AllocError> {
    let shown = shown_name(alloc, name)?;
    format!(in alloc; "error: {shown}: line {number} is not UTF-8")
}
