//! A buffer in front of a writer, which counts what was written.

ghost use Rattle.std.specs.Prelude.{◌≡◌, ◌+◌, ◌-◌, ◌^◌, ◌<◌, ◌≤◌, ◌↔◌, [], ◌++◌, length, take, MatchResult, OnOk, IfOk};
ghost use Rattle.std.specs.Prelude.{IfErr, IsOk, IsTrue, Some};
ghost use Rattle.std.specs.Io.KnownBytes.{Appends};
ghost use Rattle.std.specs.IoError.{error_kind};
ghost use Rattle.bplist_octets.specs.FaultLines.{write_line};
ghost use Rattle.bplist_octets.specs.Sending.{Sending, SendsPart, Takes};

use std::error::Error;
use std::fmt;
use std::io::{self, ErrorKind, Write};
use std::marker::Model;

/// The size of the buffer in bytes.
const BUFFERED: usize = 4096;

/// The number of interrupted writes that a sink repeats in all.
const RETRIES: u32 = 64;

/// A write failed. The first `sent` bytes of all that was put into the sink were written, and nothing else.
#[derive(Clone, Copy, Debug, PartialEq, Eq)]
pub struct WriteFault {
    /// The number of bytes that were written, counted from the first that was put into the sink.
    pub sent: u64,
}

impl fmt::Display for WriteFault {
    ghost output = { λ fault. Some (write_line fault.sent) };

    fn fmt<W: fmt::Write>(&self, f: &mut fmt::Formatter<W>) -> fmt::Result {
        let sent = self.sent;
        write!(f, "write {sent}")
    }
}

impl Error for WriteFault {}

/// Counts the bytes that were written, and the interrupted writes that were repeated.
#[derive(Drop)]
struct Sender {
    /// The number of bytes that the writer took.
    sent: u64,
    /// The number of interrupted writes that were repeated, at most `RETRIES`.
    interrupts: u32,
}

impl Sender {
    fn send<W: Write>(&mut self, out: &mut W, bytes: &[u8]) -> Result<(), WriteFault>
        requires { self.old.sent + length bytes.now < 2 ^ 64 }
        ensures appended { OnOk result (Appends (W.contents out.old) (W.contents out.new) bytes.now) }
        ensures counted { OnOk result (self.new.sent ≡ self.old.sent + length bytes.now) }
        ensures part { IfErr result (λ e. SendsPart (W.contents out.old) (W.contents out.new) self.old.sent bytes.now e.sent) }
        ensures stands { IfErr result (λ e. self.new.sent ≡ e.sent) }
    {
        let mut sent = 0;
        while sent < bytes.len() {
            let written = out.write(&bytes[sent..]);
            sent += self.taken(written)?;
        }
        Ok(())
    }

    /// Returns 0 if an interrupted write is to be repeated.
    fn taken(&mut self, written: io::Result<usize>) -> Result<usize, WriteFault>
        requires { IfOk written (λ n. self.old.sent + n < 2 ^ 64) }
        ensures goes_on { IsOk result ↔ MatchResult written (λ n. 0 < n)
            (λ e. (error_kind e ≡ ErrorKind.Interrupted) × (self.old.interrupts < 64)) }
        ensures took { IfOk result (λ took. MatchResult written (λ n. took ≡ n) (λ _. took ≡ 0)) }
        ensures counted { IfOk result (λ took. self.new.sent ≡ self.old.sent + took) }
        ensures interrupts { IfOk result (λ _. MatchResult written (λ _. self.new.interrupts ≡ self.old.interrupts)
            (λ _. self.new.interrupts ≡ self.old.interrupts + 1)) }
        ensures stands { IfErr result (λ e. (e.sent ≡ self.old.sent) × (self.new ≡ self.old)) }
    {
        match written {
            Ok(0) => Err(WriteFault { sent: self.sent }),
            Ok(n) => {
                self.sent += n as u64;
                Ok(n)
            }
            Err(error) => {
                if self.tries_again(error.kind()) {
                    self.interrupts += 1;
                    return Ok(0);
                }
                Err(WriteFault { sent: self.sent })
            }
        }
    }

    fn tries_again(&self, kind: ErrorKind) -> bool
        ensures { IsTrue result ↔ (kind ≡ ErrorKind.Interrupted) × (self.now.interrupts < 64) }
    {
        kind == ErrorKind::Interrupted && self.interrupts < RETRIES
    }
}

/// A buffer on the stack in front of a writer.
///
/// A sink serves one call. It counts the written bytes and the interrupted writes of everything that is put into it. An
/// interrupted write is repeated, up to 64 times in all. A write of nothing is a fault, and so are more than
/// 18446744073709551615 bytes in all.
///
/// In contracts, a `Sink` is the number of bytes that were written and the bytes that it holds.
#[derive(Drop)]
pub struct Sink {
    /// The first `used` bytes are held.
    buffer: [u8; BUFFERED],
    /// The number of bytes that are held.
    used: usize,
    /// Counts what was written.
    sender: Sender,
}

impl Model for Sink {
    ghost Value = { Sending };

    ghost view = { λ s. record { sent = s.sender.sent; held = take s.used s.buffer } };

    ghost invariant = { λ s. (s.used ≤ 4096) × (s.sender.sent + s.used < 2 ^ 64) };
}

impl Sink {
    /// A sink that has sent nothing and holds nothing.
    pub fn new() -> Sink
        ensures { result ≡ record { sent = 0; held = [] } }
    {
        Sink {
            buffer: [0; BUFFERED],
            used: 0,
            sender: Sender {
                sent: 0,
                interrupts: 0,
            },
        }
    }

    /// Adds bytes. They are written now or by a later call.
    ///
    /// The error gives the number of bytes that were written, of all bytes that were put into the sink. The sink then
    /// drops what it held.
    pub fn put<W: Write>(&mut self, out: &mut W, bytes: &[u8]) -> Result<(), WriteFault>
        ensures taken { OnOk result (Takes (W.contents out.old) (W.contents out.new) self.old self.new bytes.now) }
        ensures part { IfErr result (λ e. SendsPart (W.contents out.old) (W.contents out.new) self.old.sent
            (self.old.held ++ bytes.now) e.sent) }
        ensures dropped { IfErr result (λ e. self.new ≡ record { sent = e.sent; held = [] }) }
    {
        if !self.can_count(bytes) {
            return Err(self.refuse());
        }
        if !self.has_room(bytes) {
            self.flush(out)?;
        }
        if self.has_room(bytes) {
            self.hold(bytes);
            return Ok(());
        }
        self.pass_on(out, bytes)
    }

    /// Writes what is held. The error is that of [`Sink::put`].
    pub fn flush<W: Write>(&mut self, out: &mut W) -> Result<(), WriteFault>
        ensures taken { OnOk result (Takes (W.contents out.old) (W.contents out.new) self.old self.new []) }
        ensures empty { OnOk result (self.new.held ≡ []) }
        ensures part { IfErr result (λ e. SendsPart (W.contents out.old) (W.contents out.new) self.old.sent
            (self.old.held ++ []) e.sent) }
        ensures dropped { IfErr result (λ e. self.new ≡ record { sent = e.sent; held = [] }) }
    {
        let used = self.used;
        self.used = 0;
        self.sender.send(out, &self.buffer[..used])
    }

    fn can_count(&self, bytes: &[u8]) -> bool
        ensures { IsTrue result ↔ (self.now.sent + length self.now.held + length bytes.now < 2 ^ 64) }
    {
        bytes.len() as u64 <= u64::MAX - self.sender.sent - self.used as u64
    }

    fn has_room(&self, bytes: &[u8]) -> bool
        ensures { IsTrue result ↔ (length self.now.held + length bytes.now ≤ 4096) }
    {
        bytes.len() <= BUFFERED - self.used
    }

    fn hold(&mut self, bytes: &[u8])
        requires room { length self.old.held + length bytes.now ≤ 4096 }
        requires counted { self.old.sent + length self.old.held + length bytes.now < 2 ^ 64 }
        ensures { self.new ≡ record { sent = self.old.sent; held = self.old.held ++ bytes.now } }
    {
        let end = self.used + bytes.len();
        self.buffer[self.used..end].copy_from_slice(bytes);
        self.used = end;
    }

    fn pass_on<W: Write>(&mut self, out: &mut W, bytes: &[u8]) -> Result<(), WriteFault>
        requires empty { self.old.held ≡ [] }
        requires counted { self.old.sent + length bytes.now < 2 ^ 64 }
        ensures taken { OnOk result (Takes (W.contents out.old) (W.contents out.new) self.old self.new bytes.now) }
        ensures part { IfErr result (λ e. SendsPart (W.contents out.old) (W.contents out.new) self.old.sent
            (self.old.held ++ bytes.now) e.sent) }
        ensures dropped { IfErr result (λ e. self.new ≡ record { sent = e.sent; held = [] }) }
    {
        self.sender.send(out, bytes)
    }

    fn refuse(&mut self) -> WriteFault
        ensures stands { result.sent ≡ self.old.sent }
        ensures dropped { self.new ≡ record { sent = self.old.sent; held = [] } }
    {
        self.used = 0;
        WriteFault {
            sent: self.sender.sent,
        }
    }
}
