//! The first lines of an answer, as many as are wanted.

ghost use Rattle.std.specs.Prelude.{◌≤◌, length};

use std::io::{self, ErrorKind, Write};

/// What there is more of than is wanted.
#[derive(Clone, Copy, Drop)]
pub enum Full {
    Lines,
    Bytes,
}

/// A writer that takes no more lines, and no more bytes, than are wanted. The last line may be cut. A write of more
/// fails.
#[derive(Drop)]
pub struct FirstLines<'a, W> {
    out: &'a mut W,
    /// How many more lines it takes.
    lines: u64,
    /// How many more bytes it takes.
    bytes: u64,
    /// True if the last byte that it took ends no line.
    inside: bool,
    full: Option<Full>,
}

impl<'a, W> FirstLines<'a, W> {
    /// A writer that takes as many lines and bytes.
    pub fn new(out: &'a mut W, lines: u64, bytes: u64) -> FirstLines<'a, W> {
        FirstLines {
            out,
            lines,
            bytes,
            inside: false,
            full: None,
        }
    }

    /// Returns what there was more of, if a write failed for that reason.
    pub fn full(&self) -> Option<Full> {
        self.full
    }

    /// Returns true if the last line was cut.
    pub fn is_inside_line(&self) -> bool {
        self.inside
    }

    /// Returns how many of the bytes are taken.
    fn taken(&mut self, buf: &[u8]) -> usize
        ensures { result ≤ length buf.now }
    {
        let Some(last) = buf.last() else {
            return 0;
        };
        let lines = line_feeds_in(buf);
        if lines < self.lines && buf.len() as u64 <= self.bytes {
            self.lines -= lines;
            self.bytes -= buf.len() as u64;
            self.inside = *last != b'\n';
            return buf.len();
        }
        self.taken_in_part(buf)
    }

    /// Some of the bytes may be more than are wanted.
    fn taken_in_part(&mut self, buf: &[u8]) -> usize
        ensures { result ≤ length buf.now }
    {
        for i in 0..buf.len() {
            if self.lines == 0 || self.bytes == 0 {
                self.full = Some(if self.lines == 0 {
                    Full::Lines
                } else {
                    Full::Bytes
                });
                return i;
            }
            self.bytes -= 1;
            self.inside = buf[i] != b'\n';
            if !self.inside {
                self.lines -= 1;
            }
        }
        buf.len()
    }
}

/// The loop has no other exit, so that it takes several bytes at a time.
fn line_feeds_in(buf: &[u8]) -> u64 {
    let mut count = 0u64;
    for octet in buf {
        count = count.wrapping_add(u64::from(*octet == b'\n'));
    }
    count
}

impl<'a, W: Write> Write for FirstLines<'a, W> {
    fn write(&mut self, buf: &[u8]) -> io::Result<usize> {
        let taken = self.taken(buf);
        self.out.write_all(&buf[..taken])?;
        if taken < buf.len() {
            return Err(io::Error::from(ErrorKind::Other));
        }
        Ok(taken)
    }

    fn flush(&mut self) -> io::Result<()> {
        Ok(())
    }
}
