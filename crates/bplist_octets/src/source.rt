//! The trait of all sources of bytes, the reasons why a read fails, and a source over a slice.
//!
//! All readers of the crate and of its callers take any [`Source`]. A [`SliceSource`] is the simplest one: its bytes
//! are in memory, so its reads never fail, and it can also lend bytes without a copy.

ghost use Rattle.std.specs.Prelude.{◌≡◌, ℕ, ◌+◌, ◌≤◌, length, IsTrue, OnOk, Some};
ghost use Rattle.std.specs.Result.{result_err};
ghost use Rattle.bplist_octets.specs.FaultLines.{read_line};
ghost use Rattle.bplist_octets.specs.Octets.{part};
ghost use Rattle.bplist_octets.specs.Meaning.{Meaning, OnlyReads};
ghost use Rattle.bplist_octets.specs.Slices.{StandsAt, source_over};

use std::error::Error;
use std::fmt;

/// Why a read failed.
#[derive(Clone, Copy, Debug, PartialEq, Eq, Drop)]
pub enum ReadFault {
    /// The device reported an error.
    Device,
    /// The bytes ended before the length that `len` returned.
    Ended,
    /// The buffer was not full after the allowed number of reads.
    TooManyTurns,
}

impl fmt::Display for ReadFault {
    ghost output = { λ fault. Some (read_line fault) };

    fn fmt<W: fmt::Write>(&self, f: &mut fmt::Formatter<W>) -> fmt::Result {
        match self {
            ReadFault::Device => f.write_str("read Device"),
            ReadFault::Ended => f.write_str("read Ended"),
            ReadFault::TooManyTurns => f.write_str("read TooManyTurns"),
        }
    }
}

impl Error for ReadFault {}

/// Bytes that are read by place.
///
/// A source has a fixed list of `len()` bytes, is honest or not, counts its failed reads, and knows the fault of the
/// last one. Bytes, length and honesty never change. The count stops at 18446744073709551615.
///
/// The trait lets a caller read a file that is larger than memory, and lets one proof serve slices, files and the
/// sources for tests. A buffered reader of std does not fit: its position would be part of each contract, and it does
/// not say whether it is honest.
pub trait Source {
    /// The bytes, the honesty, the count of failed reads and the fault of the last one.
    ghost means: { Self → Meaning };

    /// A count of what it was asked for: no read raises it by more than the length of its buffer. A source that does
    /// not count says 0. A source over another source hands on the count of that one, and one with a buffer the count
    /// in blocks of its buffer.
    ghost asked: { Self → ℕ };

    /// The number of bytes.
    fn len(&self) -> u64
        ensures { result ≡ length (means self.now).octets };

    /// Fills `into` with the bytes from place `at` on. All of them must be inside the source.
    ///
    /// After Ok the count of failed reads is unchanged, and if the source is honest `into` holds the source's bytes.
    /// After an error the count is higher, unless it has stopped, and the error is the fault of the last failed read.
    /// `into` may then hold anything.
    fn read_at(&mut self, at: u64, into: &mut [u8]) -> Result<(), ReadFault>
        requires { at + length into.old ≤ length (means self.old).octets }
        ensures reads { OnlyReads (result_err result) (means self.old) (means self.new) }
        ensures filled { OnOk result (IsTrue (means self.old).honest
            → into.new ≡ part (means self.old).octets at (length into.old)) }
        ensures asks { asked self.new ≤ asked self.old + length into.old };
}

/// A source over a slice. It is honest, its reads never fail, and its count of failed reads is 0.
#[derive(Clone, Copy, Debug, Drop)]
pub struct SliceSource<'a> {
    octets: &'a [u8],
}

impl<'a> Source for SliceSource<'a> {
    ghost means = { λ s. source_over s.octets };

    ghost asked = { λ _. 0 };

    fn len(&self) -> u64 {
        self.octets.len() as u64
    }

    fn read_at(&mut self, at: u64, into: &mut [u8]) -> Result<(), ReadFault> {
        self.read(at, into);
        Ok(())
    }
}

impl<'a> SliceSource<'a> {
    /// Returns a source over these bytes.
    pub fn new(octets: &'a [u8]) -> SliceSource<'a>
        ensures octets { (⟦<SliceSource<'a> as Source>⟧.means result).octets ≡ octets.now }
        ensures means { ⟦<SliceSource<'a> as Source>⟧.means result ≡ source_over octets.entry }
    {
        SliceSource { octets }
    }

    /// Fills `into` with the bytes from place `at` on. All of them must be inside the source.
    pub fn read(&self, at: u64, into: &mut [u8])
        requires { at + length into.old ≤ length (⟦<SliceSource<'a> as Source>⟧.means self.now).octets }
        ensures { into.new ≡ part (⟦<SliceSource<'a> as Source>⟧.means self.now).octets at (length into.old) }
    {
        let start = at as usize;
        into.copy_from_slice(&self.octets[start..start + into.len()]);
    }

    /// Returns the `n` bytes from place `at` on, without a copy. All of them must be inside the source.
    pub fn borrow(&self, at: u64, n: u64) -> &'a [u8]
        requires { at + n ≤ length (⟦<SliceSource<'a> as Source>⟧.means self.now).octets }
        ensures part { result.now ≡ part (⟦<SliceSource<'a> as Source>⟧.means self.now).octets at n }
        ensures place { StandsAt (⟦<SliceSource<'a> as Source>⟧.means self.now) at result }
    {
        let start = at as usize;
        &self.octets[start..start + n as usize]
    }
}
