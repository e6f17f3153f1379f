//! Why an input cannot be read.

ghost use Rattle.std.specs.Prelude.{◌≡◌};
ghost use Rattle.bplint.specs.declared.input_fault.InputFault.TheVariants as fault;
ghost use Rattle.bplint_lines.specs.declared.fault.RunFault.TheVariants as run;
ghost use Rattle.bplist_octets.specs.declared.source.ReadFault.TheVariants.{Device};

use bplint_lines::RunFault;
use bplist_octets::ReadFault;
use std::alloc::{AllocError, AllocFailed};
use std::io::ErrorKind;

/// Why an input cannot be read.
#[derive(Clone, Copy, Drop)]
pub enum InputFault {
    /// It cannot be opened, as the system said for this reason.
    Open(ErrorKind),
    /// It is a folder.
    Folder,
    /// It must be read as a whole, and is longer than [`crate::input::WHOLE_LIMIT`].
    TooLong,
    /// A read failed.
    Read(ReadFault),
    /// A byte of its hexadecimal text is no hexadecimal digit.
    NoDigit {
        /// The place of the byte.
        place: usize,
        /// The byte.
        octet: u8,
    },
    /// Its hexadecimal text has this number of digits, which is odd.
    OddDigits(usize),
    /// Memory was refused.
    Memory,
}

impl From<ReadFault> for InputFault {
    ghost from_gives = { λ error e. e ≡ fault.Read error };

    fn from(error: ReadFault) -> InputFault {
        InputFault::Read(error)
    }
}

impl From<AllocError> for InputFault {
    ghost from_gives = { λ _ e. e ≡ fault.Memory };

    fn from(_error: AllocError) -> InputFault {
        InputFault::Memory
    }
}

impl<T: Drop> From<AllocFailed<T>> for InputFault {
    ghost from_gives = { λ _ e. e ≡ fault.Memory };

    fn from(_error: AllocFailed<T>) -> InputFault {
        InputFault::Memory
    }
}

impl From<InputFault> for RunFault {
    ghost from_gives = { λ cause e. e ≡ elim cause [
      | fault.Open _ ↦ run.Open
      | fault.Folder ↦ run.Read Device
      | fault.TooLong ↦ run.InputTooLong
      | fault.Read error ↦ run.Read error
      | fault.NoDigit _ _ ↦ run.Hex
      | fault.OddDigits _ ↦ run.Hex
      | fault.Memory ↦ run.Memory
    ] };

    fn from(cause: InputFault) -> RunFault {
        match cause {
            InputFault::Open(_) => RunFault::Open,
            // A read of a folder fails.
            InputFault::Folder => RunFault::Read(ReadFault::Device),
            InputFault::TooLong => RunFault::InputTooLong,
            InputFault::Read(error) => RunFault::Read(error),
            InputFault::NoDigit { .. } | InputFault::OddDigits(_) => RunFault::Hex,
            InputFault::Memory => RunFault::Memory,
        }
    }
}
