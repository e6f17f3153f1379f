//! Sources for tests: one of the reads of a [`FaultySource`] fails, and the bytes of a [`ShiftingSource`] change.
//!
//! Both are public, so that other crates can test what their calls do with such a source.

ghost use Rattle.std.specs.Prelude.{◌≡◌, ◌+◌, ◌≤◌, zero, suc, length, true, [], IsTrue, OnOk, Some, None, ◌-◌};
ghost use Rattle.std.specs.Prelude.{nat_lt, if◌then◌else◌};
ghost use Rattle.std.specs.Option.{option_map_or};
ghost use Rattle.std.specs.Result.{result_err};
ghost use Rattle.bplist_octets.specs.Meaning.{OnlyReads};
ghost use Rattle.bplist_octets.specs.Octets.{part};
ghost use Rattle.bplist_octets.specs.declared.source.ReadFault.TheVariants.{Device};

use crate::source::{ReadFault, SliceSource, Source};

/// A source over a slice, one read of which fails with `Device`. It is honest. Its count of failed reads is 0 until
/// that read and 1 after it. It is public so that callers can test what they do if a read fails.
#[derive(Drop)]
pub struct FaultySource<'a> {
    /// The bytes.
    pub octets: &'a [u8],
    /// The number of reads that succeed before the one that fails, or None if it has failed.
    pub before: Option<u64>,
}

impl<'a> Source for FaultySource<'a> {
    // Until the failing read none has failed, and after it one, with `Device`.
    ghost means = { λ s. record {
      octets = s.octets.now;
      honest = true;
      failures = option_map_or (λ _. 0) s.before 1;
      last = option_map_or (λ _. None) s.before (Some Device);
      extra = [];
    } };

    ghost asked = { λ _. 0 };

    fn len(&self) -> u64 {
        self.octets.len() as u64
    }

    fn read_at(&mut self, at: u64, into: &mut [u8]) -> Result<(), ReadFault>
        requires { at + length into.old ≤ length (⟦<FaultySource<'a> as Source>⟧.means self.old).octets }
        ensures reads { OnlyReads (result_err result) (⟦<FaultySource<'a> as Source>⟧.means self.old)
            (⟦<FaultySource<'a> as Source>⟧.means self.new) }
        ensures filled { OnOk result (IsTrue (⟦<FaultySource<'a> as Source>⟧.means self.old).honest
            → into.new ≡ part (⟦<FaultySource<'a> as Source>⟧.means self.old).octets at (length into.old)) }
        ensures asks { ⟦<FaultySource<'a> as Source>⟧.asked self.new
            ≤ ⟦<FaultySource<'a> as Source>⟧.asked self.old + length into.old }
        ensures answer { result ≡ (elim self.old.before [ Some zero ↦ Err Device | _ ↦ Ok tt ]) }
        ensures turn { self.new
            ≡ record self.old { before = elim self.old.before [ Some (suc n) ↦ Some n | _ ↦ None ] } }
    {
        match self.before {
            Some(0) => {
                self.before = None;
                return Err(ReadFault::Device);
            }
            Some(n) => self.before = Some(n - 1),
            None => {}
        }
        SliceSource::new(self.octets).read_at(at, into)
    }
}

impl<'a> FaultySource<'a> {
    /// Returns a source over these bytes whose read number `fails`, counted from 0, fails.
    pub fn new(octets: &'a [u8], fails: u64) -> FaultySource<'a>
        ensures octets { result.octets.now ≡ octets.now }
        ensures before { result.before ≡ Some fails }
    {
        FaultySource {
            octets,
            before: Some(fails),
        }
    }
}

/// A source over two slices of the same length: the first reads come from one, all later reads from the other. It is
/// not honest, and its reads never fail. It is public so that callers can test what they do if a file changes between
/// two reads.
#[derive(Drop)]
pub struct ShiftingSource<'a> {
    /// The bytes that the first reads return.
    pub first: &'a [u8],
    /// The bytes that all later reads return.
    pub second: &'a [u8],
    /// The number of reads that still come from `first`.
    pub left: u64,
    ghost same_length: { length second.now ≡ length first.now },
}

impl<'a> Source for ShiftingSource<'a> {
    ghost use Rattle.std.specs.Prelude.{false, []};

    ghost means = { λ s. record { octets = s.first.now; honest = false; failures = 0; last = None; extra = [] } };

    ghost asked = { λ _. 0 };

    fn len(&self) -> u64 {
        self.first.len() as u64
    }

    fn read_at(&mut self, at: u64, into: &mut [u8]) -> Result<(), ReadFault>
        requires { at + length into.old ≤ length (⟦<ShiftingSource<'a> as Source>⟧.means self.old).octets }
        ensures reads { OnlyReads (result_err result) (⟦<ShiftingSource<'a> as Source>⟧.means self.old)
            (⟦<ShiftingSource<'a> as Source>⟧.means self.new) }
        ensures filled { OnOk result (IsTrue (⟦<ShiftingSource<'a> as Source>⟧.means self.old).honest
            → into.new ≡ part (⟦<ShiftingSource<'a> as Source>⟧.means self.old).octets at (length into.old)) }
        ensures asks { ⟦<ShiftingSource<'a> as Source>⟧.asked self.new
            ≤ ⟦<ShiftingSource<'a> as Source>⟧.asked self.old + length into.old }
        ensures never_fails { result ≡ Ok tt }
        ensures turn { self.new.left ≡ self.old.left - 1 }
        ensures same { (self.new.first.now ≡ self.old.first.now) × (self.new.second.now ≡ self.old.second.now) }
        ensures shows { into.new
            ≡ part (if nat_lt 0 self.old.left then self.old.first.now else self.old.second.now) at (length into.old) }
    {
        let octets = if self.left > 0 {
            self.left -= 1;
            self.first
        } else {
            self.second
        };
        SliceSource::new(octets).read_at(at, into)
    }
}

impl<'a> ShiftingSource<'a> {
    /// Returns a source whose first `reads` reads come from `first` and all later reads from `second`, which must have
    /// the same length.
    pub fn new(first: &'a [u8], second: &'a [u8], reads: u64) -> ShiftingSource<'a>
        requires { length first.now ≡ length second.now }
        ensures first { result.first.now ≡ first.now }
        ensures second { result.second.now ≡ second.now }
        ensures left { result.left ≡ reads }
    {
        ShiftingSource {
            first,
            second,
            left: reads,
        }
    }
}
