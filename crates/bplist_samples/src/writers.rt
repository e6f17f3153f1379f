//! A writer that fails.

ghost use Rattle.std.specs.Prelude.{◌≡◌, IfOk};

use arrayvec::ArrayVec;
use std::io::{self, ErrorKind, Write};

/// How a write fails.
#[derive(Clone, Copy)]
pub enum Trouble {
    Interrupted,
    WouldBlock,
    Fails,
    TakesNothing,
}

impl Trouble {
    fn answer(self) -> io::Result<usize>
        ensures { IfOk result (λ count. count ≡ 0) }
    {
        match self {
            Trouble::Interrupted => Err(io::Error::from(ErrorKind::Interrupted)),
            Trouble::WouldBlock => Err(io::Error::from(ErrorKind::WouldBlock)),
            Trouble::Fails => Err(io::Error::from(ErrorKind::Other)),
            Trouble::TakesNothing => Ok(0),
        }
    }
}

/// A writer that gives `first` for some writes, then takes at most `step` bytes for each write and `room` bytes in all,
/// and then gives `last`. It holds at most 64 bytes, and takes no memory.
#[derive(Drop)]
pub struct ShortWriter {
    pub troubles: u64,
    pub first: Trouble,
    pub step: usize,
    pub room: usize,
    pub last: Trouble,
    pub held: ArrayVec<u8, 64>,
}

impl ShortWriter {
    /// Makes a writer that takes `room` bytes, as many as it can with each write, and then fails.
    pub fn with_room(room: usize) -> ShortWriter {
        ShortWriter {
            troubles: 0,
            first: Trouble::Interrupted,
            step: room,
            room,
            last: Trouble::Fails,
            held: ArrayVec::new(),
        }
    }
}

impl Write for ShortWriter {
    fn write(&mut self, buf: &[u8]) -> io::Result<usize> {
        if self.troubles > 0 {
            self.troubles -= 1;
            return self.first.answer();
        }
        if self.room == 0 {
            return self.last.answer();
        }
        let count = buf.len().min(self.step).min(self.room);
        match self.held.try_extend_from_slice(&buf[..count]) {
            Ok(()) => {
                self.room -= count;
                Ok(count)
            }
            Err(_) => Err(io::Error::from(ErrorKind::OutOfMemory)),
        }
    }

    fn flush(&mut self) -> io::Result<()> {
        Ok(())
    }
}
