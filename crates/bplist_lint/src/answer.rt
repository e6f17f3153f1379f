//! The answers of the crate. The linter's yes is a certificate with figures about the file. Its no says why the file
//! has no certificate: a fault, or the objects of a circle. An upgrade has a reason of its own for giving no
//! certificate.

ghost use Rattle.std.specs.Prelude.{◌≡◌, Some};
ghost use Rattle.bplist_octets.specs.FaultLines.{read_line};
ghost use Rattle.bplist_objects.specs.FaultLines.{changed_line, circle_line, fault_line, memory_line, numbers_text};
ghost use Rattle.bplist_cert.specs.declared.refusal.Refusal.TheVariants as cert;
ghost use Rattle.bplist_lint.specs.declared.answer.LintRefusal.TheVariants as lint;
ghost use Rattle.bplist_objects.specs.declared.fault.Failure.TheVariants as keys;
ghost use Rattle.bplist_lint.specs.declared.answer.UpgradeFault.TheVariants as faults;

use bplist_cert::{Certificate, Refusal};
use bplist_objects::{Failure, Fault, ObjectNo};
use bplist_octets::ReadFault;
use std::alloc::{AllocError, AllocFailed};
use std::error::Error;
use std::fmt;
use std::marker::Model;

/// What the linter returns for a file that holds a value.
#[derive(Drop)]
pub struct Lint {
    /// The certificate, of version 1: the least height of each reached object, and 0 for every other object.
    pub certificate: Certificate,
    /// How many objects the top reaches, including the top itself.
    pub reached: u64,
    /// The height of the top.
    pub height: u32,
    /// How many references the reached objects have together.
    pub references: u64,
}

/// Why the linter returns no certificate.
#[derive(Debug, Drop)]
pub enum LintRefusal {
    /// The first fault of the file, if it is a broken rule other than 23 Circle.
    Fault(Fault),
    /// The first fault of the file, if it is a circle of references: the objects of the circle, each once, beginning
    /// with the one that the walk from the top met twice.
    Circle(ObjectNos),
    /// A read of the source failed.
    Read(ReadFault),
    /// An allocation was refused.
    Memory,
}

impl fmt::Display for LintRefusal {
    ghost output = { λ refusal. Some (elim refusal [
      | lint.Fault fault ↦ fault_line fault
      | lint.Circle objects ↦ circle_line objects
      | lint.Read error ↦ read_line error
      | lint.Memory ↦ memory_line
    ]) };

    fn fmt<W: fmt::Write>(&self, f: &mut fmt::Formatter<W>) -> fmt::Result {
        match self {
            LintRefusal::Fault(fault) => write!(f, "{fault}"),
            LintRefusal::Circle(objects) => write!(f, "circle{objects}"),
            LintRefusal::Read(error) => write!(f, "{error}"),
            LintRefusal::Memory => f.write_str("memory"),
        }
    }
}

impl Error for LintRefusal {}

impl From<Refusal> for LintRefusal {
    ghost from_gives = { λ refusal e. e ≡
        (elim refusal [ cert.Fault fault ↦ lint.Fault fault | cert.Read error ↦ lint.Read error | cert.Memory ↦ lint.Memory ]) };

    fn from(refusal: Refusal) -> LintRefusal {
        match refusal {
            Refusal::Fault(fault) => LintRefusal::Fault(fault),
            Refusal::Read(error) => LintRefusal::Read(error),
            Refusal::Memory => LintRefusal::Memory,
        }
    }
}

/// A list of objects by their numbers.
#[derive(Debug, Drop)]
pub struct ObjectNos {
    numbers: Vec<ObjectNo>,
}

impl Model for ObjectNos {
    ghost use Rattle.std.specs.Prelude.{List};
    ghost use Rattle.bplist_objects.specs.declared.frame.ObjectNo.{ObjectNo};

    ghost Value = { List ObjectNo };

    ghost use Rattle.bplist_lint.specs.declared.answer.ObjectNos.{ObjectNos};

    ghost view = { λ l. l.numbers.items };
}

/// Prints a space and the number for each object.
impl fmt::Display for ObjectNos {
    ghost output = { λ objects. Some (numbers_text objects) };

    fn fmt<W: fmt::Write>(&self, f: &mut fmt::Formatter<W>) -> fmt::Result {
        for object in &self.numbers {
            write!(f, " {object}")?;
        }
        Ok(())
    }
}

impl ObjectNos {
    /// Returns the list of these objects.
    pub fn new(numbers: Vec<ObjectNo>) -> ObjectNos
        ensures { result ≡ numbers.items }
    {
        ObjectNos { numbers }
    }

    /// Returns the objects, in their order.
    pub fn as_slice(&self) -> &[ObjectNo]
        ensures { result.now ≡ self.now }
    {
        self.numbers.as_slice()
    }

    /// Returns the Vec that the list was made from.
    pub fn into_vec(self) -> Vec<ObjectNo>
        ensures { result.items ≡ self }
    {
        let ObjectNos { numbers } = self;
        numbers
    }
}

/// Why a certificate of a checked file is not upgraded.
#[derive(Clone, Copy, Debug, PartialEq, Eq, Drop)]
pub enum UpgradeFault {
    /// A read of the source failed.
    Read(ReadFault),
    /// The source gives other bytes than when it was checked.
    Changed,
    /// An allocation was refused.
    Memory,
}

impl fmt::Display for UpgradeFault {
    ghost output = { λ fault. Some (elim fault
        [ faults.Read error ↦ read_line error | faults.Changed ↦ changed_line | faults.Memory ↦ memory_line ]) };

    fn fmt<W: fmt::Write>(&self, f: &mut fmt::Formatter<W>) -> fmt::Result {
        match self {
            UpgradeFault::Read(error) => write!(f, "{error}"),
            UpgradeFault::Changed => f.write_str("changed"),
            UpgradeFault::Memory => f.write_str("memory"),
        }
    }
}

impl Error for UpgradeFault {}

impl From<ReadFault> for UpgradeFault {
    ghost from_gives = { λ error e. e ≡ faults.Read error };

    fn from(error: ReadFault) -> UpgradeFault {
        UpgradeFault::Read(error)
    }
}

impl From<Refusal> for UpgradeFault {
    ghost from_gives = { λ refusal e. e ≡
        (elim refusal [ cert.Fault _ ↦ faults.Changed | cert.Read error ↦ faults.Read error | cert.Memory ↦ faults.Memory ]) };

    fn from(refusal: Refusal) -> UpgradeFault {
        match refusal {
            Refusal::Fault(_) => UpgradeFault::Changed,
            Refusal::Read(error) => UpgradeFault::Read(error),
            Refusal::Memory => UpgradeFault::Memory,
        }
    }
}

impl From<Failure> for UpgradeFault {
    ghost from_gives = { λ failure e. e ≡ (elim failure [ keys.Read error ↦ faults.Read error | keys.Memory ↦ faults.Memory ]) };

    fn from(failure: Failure) -> UpgradeFault {
        match failure {
            Failure::Read(error) => UpgradeFault::Read(error),
            Failure::Memory => UpgradeFault::Memory,
        }
    }
}

impl<T: Drop> From<AllocFailed<T>> for UpgradeFault {
    ghost from_gives = { λ _ e. e ≡ faults.Memory };

    fn from(_refused: AllocFailed<T>) -> UpgradeFault {
        UpgradeFault::Memory
    }
}

impl From<AllocError> for UpgradeFault {
    ghost from_gives = { λ _ e. e ≡ faults.Memory };

    fn from(_refused: AllocError) -> UpgradeFault {
        UpgradeFault::Memory
    }
}
