//! How a run ends: whether each path led to a value, or why the run has no answer. Each error has its line and its exit
//! status. All faults of the libraries turn into errors of a run, so `?` passes them on.

ghost use Rattle.std.specs.Prelude.{◌≡◌, IfOk, Some, string_bytes};
ghost use Rattle.bplint_lines.specs.declared.fault.RunFault.TheVariants.{Changed, Circle, Fault, Memory, NoAsciiForm};
ghost use Rattle.bplint_lines.specs.declared.fault.RunFault.TheVariants.{Path, Read, TooLong, Write};
ghost use Rattle.bplist_ascii.specs.declared.printer.PrintFault.TheVariants as print;
ghost use Rattle.bplist_cert.specs.declared.certificate.CertRefusal.TheVariants as cert;
ghost use Rattle.bplist_cert.specs.declared.refusal.Refusal.TheVariants as check;
ghost use Rattle.bplist_cursor.specs.declared.certified_answers.AnswerFault.TheVariants as answer;
ghost use Rattle.bplist_cursor.specs.declared.faults.CursorFault.TheVariants as cursor;
ghost use Rattle.bplist_cursor.specs.declared.faults.Unread.TheVariants as unread;
ghost use Rattle.bplist_cursor.specs.declared.path.PathFault.TheVariants as path;
ghost use Rattle.bplist_lint.specs.declared.answer.LintRefusal.TheVariants as lint;
ghost use Rattle.bplist_lint.specs.declared.answer.UpgradeFault.TheVariants as upgrade;
ghost use Rattle.bplist_objects.specs.declared.fault.Failure.TheVariants as failed;
ghost use Rattle.bplint_lines.specs.FaultLines.{report_of};

use bplist_ascii::PrintFault;
use bplist_cert::{CertRefusal, Refusal};
use bplist_cursor::{AnswerFault, CursorFault, PathFault, Unread};
use bplist_lint::{LintRefusal, ObjectNos, UpgradeFault};
use bplist_objects::{Failure, Fault, ObjectNo, Rule};
use bplist_octets::{ReadFault, WriteFault};
use std::alloc::{AllocError, AllocFailed, Global};
use std::fmt;

/// Whether each path led to a value, of a run that wrote its whole answer.
#[derive(Clone, Copy, Drop)]
pub enum Said {
    /// Each path led to a value, or there was no path.
    All,
    /// At least one line says that a path leads nowhere.
    SomeMissing,
}

/// Why a run has no answer.
#[derive(Drop)]
pub enum RunFault {
    /// The file or the certificate breaks a rule.
    Fault(Fault),
    /// References form a circle of these objects.
    Circle(ObjectNos),
    /// A path text is wrong.
    Path {
        /// The number of the wrong byte in the text, counted from 0.
        place: usize,
    },
    /// The value has no old-style text. This is the first object, in the order of writing, whose kind has none.
    NoAsciiForm(ObjectNo),
    /// The text or listing is longer than the limit.
    TooLong,
    /// A read of the file failed.
    Read(ReadFault),
    /// A hexadecimal text is wrong.
    Hex,
    /// The file changed between two reads.
    Changed,
    /// A write failed.
    Write {
        /// The number of bytes of the answer that were written, which is less than all.
        sent: u64,
    },
    /// Memory was refused.
    Memory,
    /// A file could not be opened.
    Open,
    /// An input that must be read as a whole is longer than the limit of the program.
    InputTooLong,
}

impl RunFault {
    /// Returns the exit status.
    pub fn status(&self) -> u8
        ensures { result ≡ (report_of self.now).1 }
    {
        match self {
            RunFault::Fault(fault) => match fault.rule {
                Rule::PathText => 2,
                _ => 1,
            },
            RunFault::Circle(_) | RunFault::NoAsciiForm(_) | RunFault::TooLong => 1,
            RunFault::Path { .. } => 2,
            RunFault::Read(_)
            | RunFault::Hex
            | RunFault::Changed
            | RunFault::Write { .. }
            | RunFault::Open
            | RunFault::InputTooLong => 3,
            RunFault::Memory => 4,
        }
    }

    /// Returns the line to print, without a line feed: what `Display` prints. The only error is refused memory.
    pub fn line(&self, alloc: Global) -> Result<String, AllocError>
        ensures { IfOk result (λ text. string_bytes text ≡ (report_of self.now).0) }
    {
        self.to_string(alloc)
    }
}

impl fmt::Display for RunFault {
    ghost output = { λ fault. Some (report_of fault).0 };

    fn fmt<W: fmt::Write>(&self, f: &mut fmt::Formatter<W>) -> fmt::Result {
        match self {
            RunFault::Fault(fault) => write!(f, "{fault}"),
            RunFault::Circle(objects) => write!(f, "circle{objects}"),
            RunFault::Path { place } => write!(f, "{}", PathFault::Text { place: *place }),
            RunFault::NoAsciiForm(object) => write!(f, "{}", PrintFault::NoAsciiForm(*object)),
            RunFault::TooLong => write!(f, "{}", PrintFault::TooLong),
            RunFault::Read(fault) => write!(f, "{fault}"),
            RunFault::Hex => f.write_str("read Hex"),
            RunFault::Changed => f.write_str("changed"),
            RunFault::Write { sent } => write!(f, "{}", WriteFault { sent: *sent }),
            RunFault::Memory => f.write_str("memory"),
            RunFault::Open => f.write_str("read Open"),
            RunFault::InputTooLong => f.write_str("read TooLong"),
        }
    }
}

impl From<ReadFault> for RunFault {
    ghost from_gives = { λ error fault. fault ≡ Read error };

    fn from(error: ReadFault) -> RunFault {
        RunFault::Read(error)
    }
}

impl From<Failure> for RunFault {
    ghost from_gives = { λ failure fault. fault ≡ elim failure [ failed.Read error ↦ Read error | failed.Memory ↦ Memory ] };

    fn from(failure: Failure) -> RunFault {
        match failure {
            Failure::Read(fault) => RunFault::Read(fault),
            Failure::Memory => RunFault::Memory,
        }
    }
}

impl From<LintRefusal> for RunFault {
    ghost from_gives = { λ refusal fault. fault ≡ elim refusal [
      | lint.Fault broken ↦ Fault broken
      | lint.Circle objects ↦ Circle objects
      | lint.Read failed ↦ Read failed
      | lint.Memory ↦ Memory
    ] };

    fn from(refusal: LintRefusal) -> RunFault {
        match refusal {
            LintRefusal::Fault(fault) => RunFault::Fault(fault),
            LintRefusal::Circle(objects) => RunFault::Circle(objects),
            LintRefusal::Read(fault) => RunFault::Read(fault),
            LintRefusal::Memory => RunFault::Memory,
        }
    }
}

impl From<CertRefusal> for RunFault {
    ghost from_gives = { λ refusal fault.
        fault ≡ elim refusal [ cert.Fault broken ↦ Fault broken | cert.Memory ↦ Memory ] };

    fn from(refusal: CertRefusal) -> RunFault {
        match refusal {
            CertRefusal::Fault(fault) => RunFault::Fault(fault),
            CertRefusal::Memory => RunFault::Memory,
        }
    }
}

impl From<Refusal> for RunFault {
    ghost from_gives = { λ refusal fault. fault
        ≡ elim refusal [ check.Fault broken ↦ Fault broken | check.Read failed ↦ Read failed | check.Memory ↦ Memory ] };

    fn from(refusal: Refusal) -> RunFault {
        match refusal {
            Refusal::Fault(fault) => RunFault::Fault(fault),
            Refusal::Read(fault) => RunFault::Read(fault),
            Refusal::Memory => RunFault::Memory,
        }
    }
}

impl From<PathFault> for RunFault {
    ghost from_gives = { λ refusal fault.
        fault ≡ elim refusal [ path.Text place ↦ Path place | path.Memory ↦ Memory ] };

    fn from(refusal: PathFault) -> RunFault {
        match refusal {
            PathFault::Text { place } => RunFault::Path { place },
            PathFault::Memory => RunFault::Memory,
        }
    }
}

impl From<CursorFault> for RunFault {
    ghost from_gives = { λ refusal fault. fault
        ≡ elim refusal [ cursor.Read failed ↦ Read failed | cursor.Changed ↦ Changed | cursor.Memory ↦ Memory ] };

    fn from(refusal: CursorFault) -> RunFault {
        match refusal {
            CursorFault::Read(fault) => RunFault::Read(fault),
            CursorFault::Changed => RunFault::Changed,
            CursorFault::Memory => RunFault::Memory,
        }
    }
}

impl From<AnswerFault> for RunFault {
    ghost from_gives = { λ cause fault. fault ≡ elim cause [
      | answer.Fault broken ↦ Fault broken
      | answer.Read failed ↦ Read failed
      | answer.Changed ↦ Changed
      | answer.Memory ↦ Memory
    ] };

    fn from(cause: AnswerFault) -> RunFault {
        match cause {
            AnswerFault::Fault(fault) => RunFault::Fault(fault),
            AnswerFault::Read(fault) => RunFault::Read(fault),
            AnswerFault::Changed => RunFault::Changed,
            AnswerFault::Memory => RunFault::Memory,
        }
    }
}

impl From<Unread> for RunFault {
    ghost from_gives = { λ cause fault.
        fault ≡ elim cause [ unread.Read failed ↦ Read failed | unread.Changed ↦ Changed ] };

    fn from(cause: Unread) -> RunFault {
        match cause {
            Unread::Read(fault) => RunFault::Read(fault),
            Unread::Changed => RunFault::Changed,
        }
    }
}

impl From<UpgradeFault> for RunFault {
    ghost from_gives = { λ refusal fault. fault
        ≡ elim refusal [ upgrade.Read failed ↦ Read failed | upgrade.Changed ↦ Changed | upgrade.Memory ↦ Memory ] };

    fn from(refusal: UpgradeFault) -> RunFault {
        match refusal {
            UpgradeFault::Read(fault) => RunFault::Read(fault),
            UpgradeFault::Changed => RunFault::Changed,
            UpgradeFault::Memory => RunFault::Memory,
        }
    }
}

impl From<PrintFault> for RunFault {
    ghost from_gives = { λ refusal fault. fault ≡ elim refusal [
      | print.NoAsciiForm object ↦ NoAsciiForm object
      | print.TooLong ↦ TooLong
      | print.Write sent ↦ Write sent
      | print.Read failed ↦ Read failed
      | print.Changed ↦ Changed
      | print.Memory ↦ Memory
    ] };

    fn from(refusal: PrintFault) -> RunFault {
        match refusal {
            PrintFault::NoAsciiForm(object) => RunFault::NoAsciiForm(object),
            PrintFault::TooLong => RunFault::TooLong,
            PrintFault::Write { sent } => RunFault::Write { sent },
            PrintFault::Read(fault) => RunFault::Read(fault),
            PrintFault::Changed => RunFault::Changed,
            PrintFault::Memory => RunFault::Memory,
        }
    }
}

impl From<WriteFault> for RunFault {
    ghost from_gives = { λ error fault. fault ≡ Write error.sent };

    fn from(error: WriteFault) -> RunFault {
        RunFault::Write { sent: error.sent }
    }
}

impl From<AllocError> for RunFault {
    ghost from_gives = { λ _ fault. fault ≡ Memory };

    fn from(_error: AllocError) -> RunFault {
        RunFault::Memory
    }
}

impl<T: Drop> From<AllocFailed<T>> for RunFault {
    ghost from_gives = { λ _ fault. fault ≡ Memory };

    fn from(_error: AllocFailed<T>) -> RunFault {
        RunFault::Memory
    }
}
