//! How a run ends: the line of its fault on standard error, with what is below it, and the exit status.

ghost use Rattle.std.specs.Prelude.{◌≡◌, ◌≤◌, Err, Ok};
ghost use Rattle.bplint.specs.ExitStatuses.{EndsWith, IsPrintedWith, IsRefusedWith};
ghost use Rattle.bplint.specs.Questions.{answer_of, answer_of_led, led_of};
ghost use Rattle.clap.specs.Values.{kind_of};

use crate::output::{OutFault, OutFile};
use bplint_engine::Led;
use bplint_lines::{RawFault, RunFault, Said};
use clap::Error;
use clap::error::ErrorKind;
use std::alloc::{AllocError, Global};
use std::fs::{File, Files};
use std::io::Write;

/// The exit status of a wrong command line.
const WRONG_LINE: u8 = 2;

/// How a run ended.
#[derive(Drop)]
pub struct Ending {
    pub answer: Result<Said, RawFault>,
    /// Lines for standard error: below the line of the fault, or alone if there is no fault.
    pub under: String,
    /// True if a fault has no line, because nobody reads standard output any more.
    pub silent: bool,
}

impl Ending {
    /// The end of a run with this answer, with nothing below it.
    pub fn of(alloc: Global, answer: Result<Said, RunFault>) -> Ending
        ensures { result.answer ≡ answer_of answer }
    {
        Ending::over(answer.map_err(RawFault::Run), String::new(alloc))
    }

    /// The end of a run that writes nothing but values. The line of a path that leads nowhere goes to standard error.
    pub fn of_led(alloc: Global, led: Result<Led, RawFault>) -> Ending
        ensures { result.answer ≡ answer_of_led led }
    {
        match led {
            Ok(Led::There) => Ending::over(Ok(Said::All), String::new(alloc)),
            Ok(Led::Nowhere(line)) => Ending::over(Ok(Said::SomeMissing), text_of(alloc, line)),
            Err(fault) => Ending::over(Err(fault), String::new(alloc)),
        }
    }

    /// The same of a run whose faults are those of other commands.
    pub fn of_text(alloc: Global, led: Result<Led, RunFault>) -> Ending
        ensures { result.answer ≡ answer_of_led (led_of led) }
    {
        Ending::of_led(alloc, led.map_err(RawFault::Run))
    }

    /// The end of a run with this fault, with nothing below it.
    pub fn with(alloc: Global, fault: RunFault) -> Ending
        ensures { result.answer ≡ Err (RawFault.Run fault) }
    {
        Ending::of(alloc, Err(fault))
    }

    /// The end of a run with this answer over these lines.
    pub fn over(answer: Result<Said, RawFault>, under: String) -> Ending
        ensures { result.answer ≡ answer }
    {
        Ending {
            answer,
            under,
            silent: false,
        }
    }
}

/// A line is always UTF-8.
fn text_of(alloc: Global, line: Vec<u8>) -> String {
    match String::from_utf8(line) {
        Ok(text) => text,
        Err(_) => String::new(alloc),
    }
}

/// Prints the line of a fault after the prefix, with the lines below it. Returns the exit status. Prints everything
/// with one write, so that the lines of parallel runs do not mix.
pub fn end<R: Eprint>(rt: &R, alloc: Global, prefix: &str, ending: Ending) -> u8
    ensures { EndsWith ending.answer result }
{
    let Ending {
        answer,
        under,
        silent,
    } = ending;
    match answer {
        Ok(said) => {
            print_alone(rt, prefix, &under);
            status_of(said)
        }
        Err(fault) if silent => fault.status(),
        Err(fault) => match lines_of(alloc, prefix, &fault, &under) {
            Ok(lines) => {
                let _ = rt.eprint(lines);
                fault.status()
            }
            Err(_) => {
                let _ = rt.eprintln("memory");
                RunFault::Memory.status()
            }
        },
    }
}

/// The lines stand below no fault.
fn print_alone<R: Eprint>(rt: &R, prefix: &str, lines: &str) {
    if !lines.is_empty() {
        let _ = rt.eprint(prefix);
        let _ = rt.eprint(lines);
    }
}

fn status_of(said: Said) -> u8
    ensures { EndsWith (Ok said) result }
{
    match said {
        Said::All => 0,
        Said::SomeMissing => 1,
    }
}

fn lines_of(
    alloc: Global,
    prefix: &str,
    fault: &RawFault,
    under: &str,
) -> Result<String, AllocError> {
    let line = fault.line(alloc)?;
    format!(in alloc; "{prefix}{line}\n{under}")
}

/// Prints a line about a wrong command line. Returns its exit status.
pub fn refuse_line<R: Eprint>(rt: &R, line: &str) -> u8
    ensures { result ≡ 2 }
{
    let _ = rt.eprintln(line);
    WRONG_LINE
}

/// Prints the error or help text of `clap`. Returns the exit status.
pub fn refuse<R: Files<File = File> + Print + Eprint>(rt: &R, alloc: Global, error: Error) -> u8
    ensures status { IsRefusedWith (kind_of error) result }
    ensures few { result ≤ 4 }
{
    match error.kind() {
        ErrorKind::OutOfMemory => end(rt, alloc, "", Ending::with(alloc, RunFault::Memory)),
        ErrorKind::DisplayHelp | ErrorKind::DisplayVersion => {
            match format!(in alloc; "{error}") {
                Ok(text) => print_text(rt, alloc, &text),
                Err(_) => end(rt, alloc, "", Ending::with(alloc, RunFault::Memory)),
            }
        }
        _ => {
            let _ = rt.eprint(&error);
            WRONG_LINE
        }
    }
}

/// Prints a text to standard output. Returns the exit status. Nothing is said if nobody reads it any more.
pub fn print_text<R: Files<File = File> + Print + Eprint>(rt: &R, alloc: Global, text: &str) -> u8
    ensures status { IsPrintedWith result }
    ensures few { result ≤ 4 }
{
    let mut out = OutFile::new(rt, "-");
    if out.write_all(text.as_bytes()).is_ok() {
        return 0;
    }
    let silent = matches!(out.fault(), Some(OutFault::Closed));
    let ending = Ending::with(alloc, RunFault::Write { sent: 0 });
    end(rt, alloc, "", Ending { silent, ..ending })
}
