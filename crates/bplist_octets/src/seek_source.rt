//! A source over a stream, and the loop that fills a buffer from a stream.

ghost use Rattle.std.specs.Prelude.{◌≡◌, length, [], true, None, IfOk, IfSome, MatchResult};
ghost use Rattle.bplist_octets.specs.Streams.{FillFailed, Fills, IsLength, meaning_of_stream};

use crate::source::{ReadFault, Source};
use crate::stream::Stream;
use std::io::{self, ErrorKind};

/// A source over a stream, with the stream's length at the time when the source was made.
///
/// It is honest if the bytes of the stream are known. Then a read gives those at its place, and no others.
#[derive(Drop)]
pub struct SeekSource<F: Stream> {
    stream: F,
    length: u64,
    failures: u64,
    /// The fault of the last read that failed.
    last: Option<ReadFault>,
    ghost whole: { IsLength (F.bytes stream) length },
}

/// The number of reads that filling a buffer may take, beyond one for each byte.
const SPARE_READS: usize = 64;

/// Fills `into` with at most `into.len() + 64` reads. An interrupted read is repeated. Returns `Ended` if the bytes end
/// before `into` is full, `TooManyTurns` if it is not full after that many reads, and `Device` after any other error.
/// After an error `into` may hold anything. The bytes of the stream stay the same.
pub fn fill_from<F: Stream>(stream: &mut F, into: &mut [u8]) -> Result<(), ReadFault>
    ensures keeps { F.bytes stream.new ≡ F.bytes stream.old }
    ensures fills { MatchResult result
        (λ _. Fills (F.bytes stream.old) (F.position stream.old) (F.position stream.new) into.new)
        (FillFailed (F.bytes stream.old) (F.position stream.old) (length into.old)) }
{
    let mut filled = 0;
    for _ in 0..into.len() + SPARE_READS {
        if filled >= into.len() {
            return Ok(());
        }
        match stream.read_on(&mut into[filled..]) {
            Ok(0) => return Err(ReadFault::Ended),
            Ok(n) => filled += n,
            Err(e) => {
                if e.kind() != ErrorKind::Interrupted {
                    return Err(ReadFault::Device);
                }
            }
        }
    }
    if filled >= into.len() {
        Ok(())
    } else {
        Err(ReadFault::TooManyTurns)
    }
}

/// A failed seek is `Device`.
fn fill_at<F: Stream>(stream: &mut F, at: u64, into: &mut [u8]) -> Result<(), ReadFault>
    ensures keeps { F.bytes stream.new ≡ F.bytes stream.old }
    ensures fills { MatchResult result
        (λ _. Fills (F.bytes stream.old) at (F.position stream.new) into.new)
        (FillFailed (F.bytes stream.old) at (length into.old)) }
{
    stream.seek_to(at).map_err(|_| ReadFault::Device)?;
    fill_from(stream, into)
}

impl<F: Stream> SeekSource<F> {
    /// Returns a source over the stream, whose length it reads once. No read has failed yet. The error is that of
    /// `stream_len`.
    pub fn new(stream: F) -> io::Result<SeekSource<F>>
    where
        F: Drop,
        ensures known { IfOk result (λ source. IfSome (F.bytes stream)
            (λ xs. ⟦<SeekSource<F> as Source>⟧.means source ≡ record { octets = xs; honest = true; failures = 0; last = None; extra = [] })) }
        ensures counts { IfOk result (λ source. ((⟦<SeekSource<F> as Source>⟧.means source).failures ≡ 0)
            × ((⟦<SeekSource<F> as Source>⟧.means source).last ≡ None)) }
    {
        let length = stream.stream_len()?;
        Ok(SeekSource {
            stream,
            length,
            failures: 0,
            last: None,
        })
    }
}

impl<F: Stream> Source for SeekSource<F> {
    ghost means = { λ s. meaning_of_stream (F.bytes s.stream) s.length s.failures s.last };

    ghost asked = { λ _. 0 };

    fn len(&self) -> u64 {
        self.length
    }

    /// Seeks to `at`, and fills `into` as `fill_from` does. A failed seek is `Device`.
    fn read_at(&mut self, at: u64, into: &mut [u8]) -> Result<(), ReadFault> {
        let result = fill_at(&mut self.stream, at, into);
        if let Err(fault) = result {
            self.failures = self.failures.saturating_add(1);
            self.last = Some(fault);
        }
        result
    }
}
