//! The errors of this crate: a broken rule, a failed read, or refused memory.
//!
//! A [`Fault`] says that the file is wrong. An [`ObjectFault`] is a fault or a failed read. A [`Failure`] is a failed
//! read or refused memory, and says nothing about the file.

ghost use Rattle.std.specs.Prelude.{◌≡◌, Some};
ghost use Rattle.bplist_octets.specs.FaultLines.{read_line};
ghost use Rattle.bplist_objects.specs.FaultLines.{fault_line, memory_line};
ghost use Rattle.bplist_objects.specs.Prelude.{Fault as is_fault, Read};
ghost use Rattle.bplist_objects.specs.declared.fault.Failure.TheVariants as failed;

use crate::frame::ObjectNo;
use crate::rule::Rule;
use bplist_octets::ReadFault;
use std::alloc::{AllocError, AllocFailed};
use std::error::Error;
use std::fmt;

/// A broken rule, with the object and the place at which it is broken.
#[derive(Clone, Copy, Debug, PartialEq, Eq, Drop)]
pub struct Fault {
    /// The rule that is broken.
    pub rule: Rule,
    /// The object that breaks the rule. None for rules 1 to 12, 24 to 26 and 30, which are not about one object.
    pub object: Option<ObjectNo>,
    /// The place of the byte at which the rule is broken: in the certificate for rules 24 to 27 and 32, in the path
    /// text for rule 30, and in the file for all others.
    pub place: u64,
}

impl fmt::Display for Fault {
    ghost output = { λ fault. Some (fault_line fault) };

    fn fmt<W: fmt::Write>(&self, f: &mut fmt::Formatter<W>) -> fmt::Result {
        let (rule, place) = (self.rule, self.place);
        match self.object {
            Some(object) => write!(f, "fault {rule} object {object} place {place}"),
            None => write!(f, "fault {rule} object none place {place}"),
        }
    }
}

impl Error for Fault {}

/// Why a call failed: a broken rule or a failed read.
#[derive(Clone, Copy, Debug, PartialEq, Eq, Drop)]
pub enum ObjectFault {
    /// A rule is broken.
    Fault(Fault),
    /// A read of the source failed. This says nothing about the file.
    Read(ReadFault),
}

impl fmt::Display for ObjectFault {
    ghost output = { λ fault. Some (elim fault [ is_fault broken ↦ fault_line broken | Read error ↦ read_line error ]) };

    fn fmt<W: fmt::Write>(&self, f: &mut fmt::Formatter<W>) -> fmt::Result {
        match self {
            ObjectFault::Fault(fault) => write!(f, "{fault}"),
            ObjectFault::Read(error) => write!(f, "{error}"),
        }
    }
}

impl Error for ObjectFault {}

impl From<ReadFault> for ObjectFault {
    ghost from_gives = { λ error e. e ≡ Read error };

    fn from(error: ReadFault) -> ObjectFault {
        ObjectFault::Read(error)
    }
}

impl From<Fault> for ObjectFault {
    ghost from_gives = { λ fault e. e ≡ is_fault fault };

    fn from(fault: Fault) -> ObjectFault {
        ObjectFault::Fault(fault)
    }
}

/// Why a call over a file failed. This says nothing about the file.
#[derive(Clone, Copy, Debug, PartialEq, Eq, Drop)]
pub enum Failure {
    /// A read failed.
    Read(ReadFault),
    /// An allocation failed.
    Memory,
}

impl fmt::Display for Failure {
    ghost output = { λ failure.
        Some (elim failure [ failed.Read error ↦ read_line error | failed.Memory ↦ memory_line ]) };

    fn fmt<W: fmt::Write>(&self, f: &mut fmt::Formatter<W>) -> fmt::Result {
        match self {
            Failure::Read(error) => write!(f, "{error}"),
            Failure::Memory => f.write_str("memory"),
        }
    }
}

impl Error for Failure {}

impl From<ReadFault> for Failure {
    ghost from_gives = { λ error e. e ≡ failed.Read error };

    fn from(error: ReadFault) -> Failure {
        Failure::Read(error)
    }
}

impl<T: Drop> From<AllocFailed<T>> for Failure {
    ghost from_gives = { λ _ e. e ≡ failed.Memory };

    fn from(_refused: AllocFailed<T>) -> Failure {
        Failure::Memory
    }
}

impl From<AllocError> for Failure {
    ghost from_gives = { λ _ e. e ≡ failed.Memory };

    fn from(_refused: AllocError) -> Failure {
        Failure::Memory
    }
}

pub(crate) fn broken(rule: Rule, n: ObjectNo, place: u64) -> ObjectFault
    ensures { result ≡ is_fault (record { rule = rule; object = Some n; place = place }) }
{
    ObjectFault::Fault(Fault {
        rule,
        object: Some(n),
        place,
    })
}
