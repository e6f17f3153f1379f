//! The trait of streams that are read on from a position, and the streams over bytes in memory.

ghost use Rattle.std.specs.Prelude.{◌≡◌, ℕ, ◌<◌, ◌≤◌, List, Option, length, IfOk, IfSome, MatchResult};
ghost use Rattle.std.specs.Io.{ReadsAtMost};
ghost use Rattle.std.specs.Io.Cursor.{cursor_inner, cursor_position};
ghost use Rattle.bplist_octets.specs.Streams.{IsLength, ReadsOn};

use std::io::{self, AsBytes, Cursor, Read, Seek, SeekFrom};

/// Bytes that are read on from a position.
///
/// A contract may know the bytes of a stream, as it does for a `Cursor` over a slice. They never change, and a read
/// gives those at the position. Of a `File` no contract knows what a read gives, so nothing is said of its bytes.
///
/// The trait takes the place of std's `Read` and `Seek`, whose contracts do not say that a read leaves the bytes as
/// they are.
pub trait Stream {
    /// All bytes of the stream, where they are known.
    ghost bytes: { Self → Option (List ℕ) };

    /// The place of the byte that the next read begins with, if the bytes are known.
    ghost position: { Self → ℕ };

    /// Returns the number of bytes.
    fn stream_len(&self) -> io::Result<u64>
        ensures { IfOk result (IsLength (bytes self.now)) };

    /// Moves the position to `at`, and returns it. After an error the position is where it was.
    fn seek_to(&mut self, at: u64) -> io::Result<u64>
        ensures keeps { bytes self.new ≡ bytes self.old }
        ensures moves { IfSome (bytes self.old) (λ _. MatchResult result
            (λ n. (n ≡ at) × (position self.new ≡ at))
            (λ _. position self.new ≡ position self.old)) };

    /// Reads some bytes from the position on into the front of `into`, moves the position behind them, and returns how
    /// many there are. It returns 0 only at the end, or if `into` has no room. After an error the position is where it
    /// was.
    fn read_on(&mut self, into: &mut [u8]) -> io::Result<usize>
        ensures keeps { bytes self.new ≡ bytes self.old }
        ensures bound { ReadsAtMost result into.new }
        ensures reads { MatchResult result
            (λ n. ReadsOn (bytes self.old) (position self.old) (position self.new) n into.new)
            (λ _. IfSome (bytes self.old) (λ _. position self.new ≡ position self.old)) }
        ensures end { IfOk result (λ n. n ≡ 0 → 0 < length into.new
            → IfSome (bytes self.old) (λ xs. length xs ≤ position self.old)) };
}

impl<T: AsBytes> Stream for Cursor<T> {
    ghost bytes = { λ c. T.bytes (cursor_inner c) };

    ghost position = { λ c. cursor_position c };

    fn stream_len(&self) -> io::Result<u64> {
        Ok(self.get_ref().as_byte_slice().len() as u64)
    }

    fn seek_to(&mut self, at: u64) -> io::Result<u64> {
        self.seek(SeekFrom::Start(at))
    }

    fn read_on(&mut self, into: &mut [u8]) -> io::Result<usize> {
        self.read(into)
    }
}
