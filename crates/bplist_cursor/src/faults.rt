//! The errors of the cursor's calls.

ghost use Rattle.std.specs.Prelude.{◌≡◌, Some};
ghost use Rattle.bplist_octets.specs.FaultLines.{read_line};
ghost use Rattle.bplist_objects.specs.FaultLines.{changed_line, memory_line};
ghost use Rattle.bplist_objects.specs.declared.fault.ObjectFault.TheVariants.{Read as object_read};
ghost use Rattle.bplist_cursor.specs.Prelude.{Fault as object_fault, Unread as unread, CursorFault as cursor_fault};
ghost use Rattle.bplist_cursor.specs.Prelude.{Memory};
ghost use Rattle.bplist_cursor.specs.declared.faults.Unread.TheVariants.{Read as unread_read};
ghost use Rattle.bplist_cursor.specs.declared.faults.Unread.TheVariants.{Changed as unread_changed};
ghost use Rattle.bplist_cursor.specs.declared.faults.CursorFault.TheVariants.{Read, Changed};

use bplist_objects::ObjectFault;
use bplist_octets::ReadFault;
use std::alloc::{AllocError, AllocFailed};
use std::error::Error;
use std::fmt;

/// Why a call returned no answer.
#[derive(Clone, Copy, Debug, PartialEq, Eq, Drop)]
pub enum CursorFault {
    /// A read of the source failed.
    Read(ReadFault),
    /// The certificate does not vouch for the node's object, or the source gives other bytes than those that were
    /// checked.
    Changed,
    /// An allocation was refused.
    Memory,
}

impl fmt::Display for CursorFault {
    ghost output = { λ fault. Some (elim fault
        [ Read error ↦ read_line error | Changed ↦ changed_line | Memory ↦ memory_line ]) };

    fn fmt<W: fmt::Write>(&self, f: &mut fmt::Formatter<W>) -> fmt::Result {
        match self {
            CursorFault::Read(error) => write!(f, "{error}"),
            CursorFault::Changed => f.write_str("changed"),
            CursorFault::Memory => f.write_str("memory"),
        }
    }
}

impl Error for CursorFault {}

/// Why an object could not be read, from calls that take no memory.
#[derive(Clone, Copy, Debug, PartialEq, Eq, Drop)]
pub enum Unread {
    /// A read of the source failed.
    Read(ReadFault),
    /// The certificate does not vouch for the node's object, or the source gives other bytes than those that were
    /// checked.
    Changed,
}

impl fmt::Display for Unread {
    ghost output = { λ cause.
        Some (elim cause [ unread_read error ↦ read_line error | unread_changed ↦ changed_line ]) };

    fn fmt<W: fmt::Write>(&self, f: &mut fmt::Formatter<W>) -> fmt::Result {
        match self {
            Unread::Read(error) => write!(f, "{error}"),
            Unread::Changed => f.write_str("changed"),
        }
    }
}

impl Error for Unread {}

impl From<ReadFault> for Unread {
    ghost from_gives = { λ error e. e ≡ unread_read error };

    fn from(error: ReadFault) -> Unread {
        Unread::Read(error)
    }
}

impl From<ObjectFault> for Unread {
    ghost from_gives = { λ fault e. e ≡ elim fault as (λ _. unread)
        [ object_fault _ ↦ unread_changed | object_read error ↦ unread_read error ] };

    fn from(fault: ObjectFault) -> Unread {
        match fault {
            ObjectFault::Fault(_) => Unread::Changed,
            ObjectFault::Read(error) => Unread::Read(error),
        }
    }
}

impl From<Unread> for CursorFault {
    ghost from_gives = { λ cause e. e ≡ elim cause as (λ _. cursor_fault)
        [ unread_read error ↦ Read error | unread_changed ↦ Changed ] };

    fn from(unread: Unread) -> CursorFault {
        match unread {
            Unread::Read(error) => CursorFault::Read(error),
            Unread::Changed => CursorFault::Changed,
        }
    }
}

impl From<ReadFault> for CursorFault {
    ghost from_gives = { λ error e. e ≡ Read error };

    fn from(error: ReadFault) -> CursorFault {
        CursorFault::Read(error)
    }
}

impl From<AllocError> for CursorFault {
    ghost from_gives = { λ _ e. e ≡ Memory };

    fn from(_error: AllocError) -> CursorFault {
        CursorFault::Memory
    }
}

impl<T: Drop> From<AllocFailed<T>> for CursorFault {
    ghost from_gives = { λ _ e. e ≡ Memory };

    fn from(_error: AllocFailed<T>) -> CursorFault {
        CursorFault::Memory
    }
}
