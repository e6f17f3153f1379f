//! A source with one read that fails.

ghost use Rattle.std.specs.Prelude.{◌≡◌, option_map};

use bplist_octets::{FaultySource, ReadFault, Source};

/// Which read of a source fails, and how.
#[derive(Clone, Copy, Debug)]
pub struct FailingRead {
    /// The number of reads before it.
    pub before: u64,
    pub fault: ReadFault,
}

impl FailingRead {
    /// Returns the read that comes `reads` later, with the same fault.
    pub fn later(self, reads: u64) -> FailingRead {
        FailingRead {
            before: self.before.saturating_add(reads),
            fault: self.fault,
        }
    }

    /// Returns how a call of the library reports the fault.
    pub fn text(self) -> &'static str {
        match self.fault {
            ReadFault::Device => "Err(Read(Device))",
            ReadFault::Ended => "Err(Read(Ended))",
            ReadFault::TooManyTurns => "Err(Read(TooManyTurns))",
        }
    }
}

/// Each fault that a read can have.
pub const READ_FAULTS: &[ReadFault] = &[
    ReadFault::Device,
    ReadFault::Ended,
    ReadFault::TooManyTurns,
];

/// A source over a slice with one read that fails. In contracts it is what a `FaultySource` is, but for the fault.
#[derive(Drop)]
pub struct FailingSource<'a> {
    source: FaultySource<'a>,
    fault: ReadFault,
}

impl<'a> Source for FailingSource<'a> {
    ghost means = { λ s. let m = ⟦<FaultySource<'a> as Source>⟧.means s.source in record m { last = option_map (λ _. s.fault) m.last } };

    ghost asked = { λ _. 0 };

    fn len(&self) -> u64 {
        self.source.len()
    }

    fn read_at(&mut self, at: u64, into: &mut [u8]) -> Result<(), ReadFault> {
        match self.source.read_at(at, into) {
            Ok(()) => Ok(()),
            Err(_) => Err(self.fault),
        }
    }
}

impl<'a> FailingSource<'a> {
    /// Makes a source over these bytes with this failing read.
    pub fn new(octets: &'a [u8], read: FailingRead) -> FailingSource<'a>
        ensures { (⟦<FailingSource<'a> as Source>⟧.means result).octets ≡ octets.now }
    {
        FailingSource {
            source: FaultySource::new(octets, read.before),
            fault: read.fault,
        }
    }
}
