//! The errors of `show --raw`, with the line and the exit status of each.

ghost use Rattle.std.specs.Prelude.{◌≡◌, IfOk, Some, string_bytes};
ghost use Rattle.bplist_cursor.specs.declared.faults.CursorFault.TheVariants as cursor;
ghost use Rattle.bplint_lines.specs.declared.fault.RunFault.TheVariants.{Changed, Memory, Read};
ghost use Rattle.bplint_lines.specs.declared.raw_fault.RawFault.TheVariants.{Run};
ghost use Rattle.bplint_lines.specs.RawFaults.{raw_report_of};

use crate::fault::RunFault;
use bplist_cursor::CursorFault;
use bplist_objects::ObjectNo;
use std::alloc::{AllocError, Global};
use std::fmt;

/// Why the raw bytes of a value are not shown.
#[derive(Drop)]
pub enum RawFault {
    /// A fault that other commands have as well.
    Run(RunFault),
    /// The value of this object has no raw bytes.
    NoRawForm(ObjectNo),
}

impl From<RunFault> for RawFault {
    ghost from_gives = { λ fault raw. raw ≡ Run fault };

    fn from(fault: RunFault) -> RawFault {
        RawFault::Run(fault)
    }
}

impl From<CursorFault> for RawFault {
    ghost from_gives = { λ refusal raw. raw ≡ Run (elim refusal [
      | cursor.Read failed ↦ Read failed
      | cursor.Changed ↦ Changed
      | cursor.Memory ↦ Memory
    ]) };

    fn from(refusal: CursorFault) -> RawFault {
        RawFault::Run(RunFault::from(refusal))
    }
}

impl RawFault {
    /// Returns the exit status.
    pub fn status(&self) -> u8
        ensures { result ≡ (raw_report_of self.now).1 }
    {
        match self {
            RawFault::Run(fault) => fault.status(),
            RawFault::NoRawForm(_) => 1,
        }
    }

    /// Returns the line to print, without a line feed: what `Display` prints. The only error is refused memory.
    pub fn line(&self, alloc: Global) -> Result<String, AllocError>
        ensures { IfOk result (λ text. string_bytes text ≡ (raw_report_of self.now).0) }
    {
        self.to_string(alloc)
    }
}

impl fmt::Display for RawFault {
    ghost output = { λ fault. Some (raw_report_of fault).0 };

    fn fmt<W: fmt::Write>(&self, f: &mut fmt::Formatter<W>) -> fmt::Result {
        match self {
            RawFault::Run(fault) => write!(f, "{fault}"),
            RawFault::NoRawForm(object) => write!(f, "form NoRawForm object {object}"),
        }
    }
}
