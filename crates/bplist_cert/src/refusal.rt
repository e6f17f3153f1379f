//! Why a certificate is refused.

ghost use Rattle.std.specs.Prelude.{◌≡◌, Some};
ghost use Rattle.bplist_octets.specs.FaultLines.{read_line};
ghost use Rattle.bplist_objects.specs.FaultLines.{fault_line, memory_line};
ghost use Rattle.bplist_cert.specs.Prelude.{Memory, Read, refusal_of, refusal_of_keys};
ghost use Rattle.bplist_cert.specs.declared.refusal.Refusal.TheVariants.{Fault as is_fault};

use bplist_objects::{Failure, Fault, ObjectFault};
use bplist_octets::ReadFault;
use std::alloc::{AllocError, AllocFailed};
use std::error::Error;
use std::fmt;

/// Why a check gave no yes, or why no certificate was made.
#[derive(Clone, Copy, Debug, PartialEq, Eq, Drop)]
pub enum Refusal {
    /// A rule is broken. For rules 24 to 27 and 32 the place counts from the certificate's first byte, else from the
    /// file's.
    Fault(Fault),
    /// A read of the source failed, so nothing is known about the rules.
    Read(ReadFault),
    /// An allocation was refused, so nothing is known about the rules.
    Memory,
}

impl fmt::Display for Refusal {
    ghost output = { λ refusal. Some (elim refusal
        [ is_fault fault ↦ fault_line fault | Read error ↦ read_line error | Memory ↦ memory_line ]) };

    fn fmt<W: fmt::Write>(&self, f: &mut fmt::Formatter<W>) -> fmt::Result {
        match self {
            Refusal::Fault(fault) => write!(f, "{fault}"),
            Refusal::Read(error) => write!(f, "{error}"),
            Refusal::Memory => f.write_str("memory"),
        }
    }
}

impl Error for Refusal {}

impl From<Fault> for Refusal {
    ghost from_gives = { λ fault e. e ≡ is_fault fault };

    fn from(fault: Fault) -> Refusal {
        Refusal::Fault(fault)
    }
}

impl From<ReadFault> for Refusal {
    ghost from_gives = { λ fault e. e ≡ Read fault };

    fn from(fault: ReadFault) -> Refusal {
        Refusal::Read(fault)
    }
}

impl From<ObjectFault> for Refusal {
    ghost from_gives = { λ fault e. e ≡ refusal_of fault };

    fn from(fault: ObjectFault) -> Refusal {
        match fault {
            ObjectFault::Fault(fault) => Refusal::Fault(fault),
            ObjectFault::Read(fault) => Refusal::Read(fault),
        }
    }
}

impl From<Failure> for Refusal {
    ghost from_gives = { λ fault e. e ≡ refusal_of_keys fault };

    fn from(fault: Failure) -> Refusal {
        match fault {
            Failure::Read(fault) => Refusal::Read(fault),
            Failure::Memory => Refusal::Memory,
        }
    }
}

impl From<AllocError> for Refusal {
    ghost from_gives = { λ _ e. e ≡ Memory };

    fn from(_error: AllocError) -> Refusal {
        Refusal::Memory
    }
}

impl<T: Drop> From<AllocFailed<T>> for Refusal {
    ghost from_gives = { λ _ e. e ≡ Memory };

    fn from(_failed: AllocFailed<T>) -> Refusal {
        Refusal::Memory
    }
}
