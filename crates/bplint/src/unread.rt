//! Inputs that could not be read, and why.

ghost use Rattle.std.specs.Prelude.{◌≤◌};
ghost use Rattle.bplint_engine.specs.Findings.{status_of};
ghost use Rattle.bplint.specs.ExitStatuses.{Fails};

use crate::ending::Ending;
use crate::folders::shown_octets;
use crate::input_fault::InputFault;
use crate::reasons::file_line;
use bplint_engine::Finding;
use bplint_lines::{RawFault, RunFault};
use std::alloc::{AllocError, Global};
use std::io::ErrorKind;

/// An input that could not be read.
#[derive(Drop)]
pub struct Unread<'a> {
    /// Its name.
    pub name: &'a str,
    /// The fault.
    pub fault: InputFault,
    /// True if it is CERT.
    is_cert: bool,
}

impl<'a> Unread<'a> {
    /// The FILE or folder with this name and this fault.
    pub fn new(name: &'a str, fault: InputFault) -> Unread<'a> {
        Unread {
            name,
            fault,
            is_cert: false,
        }
    }

    /// The CERT with this name and this fault.
    pub fn of_cert(name: &'a str, fault: InputFault) -> Unread<'a> {
        Unread {
            name,
            fault,
            is_cert: true,
        }
    }

    /// Returns how the run ends. With `explain`, there is a line with the name and the reason below that of the fault.
    pub fn ending(self, alloc: Global, explain: bool) -> Ending
        ensures { Fails result.answer }
    {
        if !explain {
            return Ending::with(alloc, RunFault::from(self.fault));
        }
        match self.line(alloc) {
            Ok(under) => Ending::over(Err(RawFault::Run(RunFault::from(self.fault))), under),
            Err(_) => Ending::with(alloc, RunFault::Memory),
        }
    }

    /// Returns what `lint --json` finds about the file.
    pub fn finding(self, alloc: Global) -> Finding
        ensures { 3 ≤ status_of result }
    {
        Finding::Unread {
            cause: self.why(alloc).ok(),
            fault: RunFault::from(self.fault),
        }
    }

    fn line(&self, alloc: Global) -> Result<String, AllocError> {
        let why = self.why(alloc)?;
        file_line(alloc, self.name, &why)
    }

    fn why(&self, alloc: Global) -> Result<String, AllocError> {
        let why = match self.fault {
            InputFault::Open(ErrorKind::NotFound) => "no such file",
            InputFault::Open(ErrorKind::PermissionDenied) => "no permission",
            InputFault::Open(_) => "it cannot be opened",
            InputFault::Folder if self.is_cert => "a folder",
            InputFault::Folder => "a folder: use lint -r",
            InputFault::Read(_) => "a read failed",
            InputFault::TooLong => "more than 67,108,864 bytes",
            InputFault::NoDigit { place, octet } => {
                let shown = shown_octets(alloc, &[octet])?;
                return format!(in alloc; "byte {place} is no hexadecimal digit: '{shown}'");
            }
            InputFault::OddDigits(count) => {
                return format!(in alloc; "an odd number of digits: {count}");
            }
            InputFault::Memory => "memory was refused",
        };
        String::from_str(alloc, why)
    }
}
