//! The readers of bplist_octets: sources over memory, streams and files, streams that are interrupted, and numbers that
//! bytes spell.

ghost use Rattle.std.specs.Prelude.{◌+◌, ◌≤◌, None, length};

use bplist_octets::{
    FaultySource, FileSource, ReadFault, SeekSource, ShiftingSource, SliceSource, Source, Stream,
    fill_from, first_high, sized, wide,
};
use std::io::{Cursor, ErrorKind};
use std::process::Abort;
use std::test::Fail;
use std::{env, fs, io};

/// A read: its place, the number of bytes, and its result.
pub(crate) type Read = (u64, usize, Result<(), ReadFault>);

/// The buffer has the bytes at the place if and only if the result is `Ok`.
pub(crate) fn answers<S: Source>(rt: &impl Abort, source: &mut S, bytes: &[u8], read: Read) {
    let (at, count, want) = read;
    let from = at as usize;
    assert_eq!(rt; source.len(), bytes.len() as u64);
    assert!(rt; from <= bytes.len() && count <= bytes.len() - from && count <= 9_000);
    let answer = answer_of(source, at, &bytes[from..from + count]);
    assert_eq!(rt; answer, (want, want.is_ok()), "at {at}");
}

/// The flag says whether the read gives the bytes that are there.
fn answer_of<S: Source>(source: &mut S, at: u64, stand: &[u8]) -> (Result<(), ReadFault>, bool)
    requires inside { at + length stand.now ≤ length (S.means source.old).octets }
    requires short { length stand.now ≤ 9000 }
{
    let mut into = [0; 9_000];
    let part = &mut into[..stand.len()];
    let answer = source.read_at(at, part);
    (answer, *part == *stand)
}

pub(crate) fn all_answer<S: Source>(rt: &impl Abort, source: &mut S, bytes: &[u8], reads: &[Read]) {
    for read in reads {
        answers(rt, source, bytes, *read);
    }
}

#[test]
fn a_slice(rt: HostRuntime) {
    let mut source = SliceSource::new(b"abcdef");
    assert!(rt; source.borrow(3, 3) == b"def".as_slice());
    answers(&rt, &mut source, b"abcdef", (2, 3, Ok(())));
}

/// The third read fails.
const ONE_FAILS: &[Read] = &[
    (2, 3, Ok(())),
    (2, 3, Ok(())),
    (2, 3, Err(ReadFault::Device)),
    (2, 3, Ok(())),
    (2, 3, Ok(())),
];

#[test]
fn one_read_fails(rt: HostRuntime) {
    let mut source = FaultySource::new(b"abcdef", 2);
    all_answer(&rt, &mut source, b"abcdef", ONE_FAILS);
}

#[test]
fn the_bytes_change(rt: HostRuntime) {
    let mut source = ShiftingSource::new(b"abcdef", b"ABCDEF", 2);
    for bytes in [b"abcdef", b"abcdef", b"ABCDEF", b"ABCDEF"] {
        answers(&rt, &mut source, bytes, (2, 3, Ok(())));
    }
}

/// A stream that is interrupted some times, and then gives one byte for each read.
#[derive(Drop)]
struct Slow {
    interrupts: u64,
    reads: u64,
}

impl Stream for Slow {
    ghost bytes = { λ _. None };

    ghost position = { λ _. 0 };

    fn stream_len(&self) -> io::Result<u64> {
        Ok(5)
    }

    fn seek_to(&mut self, at: u64) -> io::Result<u64> {
        Ok(at)
    }

    fn read_on(&mut self, buf: &mut [u8]) -> io::Result<usize> {
        self.reads = self.reads.wrapping_add(1);
        if self.interrupts > 0 {
            self.interrupts -= 1;
            return Err(io::Error::from(ErrorKind::Interrupted));
        }
        match buf {
            [first, ..] => {
                *first = 7;
                Ok(1)
            }
            [] => Ok(0),
        }
    }
}

/// How often a stream is interrupted, the result of reading five bytes after that, and the number of reads it takes.
const INTERRUPTED: &[(u64, Result<(), ReadFault>, u64)] = &[
    (0, Ok(()), 5),
    (64, Ok(()), 69),
    (65, Err(ReadFault::TooManyTurns), 69),
    (u64::MAX, Err(ReadFault::TooManyTurns), 69),
];

#[test]
fn a_stream_that_is_interrupted(rt: HostRuntime) {
    for (interrupts, want, reads) in INTERRUPTED {
        let mut stream = Slow {
            interrupts: *interrupts,
            reads: 0,
        };
        let answer = fill_from(&mut stream, &mut [0; 5]);
        assert_eq!(rt; (answer, stream.reads), (*want, *reads), "at {interrupts}");
    }
}

#[test]
fn a_stream_in_memory(rt: HostRuntime) -> Result<(), Fail> {
    let mut source = SeekSource::new(Cursor::new(b"abcdef".as_slice()))?;
    for read in [(2, 3), (0, 6), (6, 0), (5, 1)] {
        answers(&rt, &mut source, b"abcdef", (read.0, read.1, Ok(())));
    }
    Ok(())
}

#[test]
fn a_missing_file(rt: HostRuntime) -> Result<(), Fail> {
    let Err(fault) = FileSource::open(&rt, "/nowhere/at/all") else {
        return Err(Fail::from("it opened"));
    };
    let text = format!(in rt.alloc(); "{fault}")?;
    assert!(rt; text.as_str() == "read Open");
    Ok(())
}

#[test]
fn a_file_that_is_cut(rt: HostRuntime) -> Result<(), Fail> {
    let path = env::temp_dir(&rt)?.join(rt.alloc(), "bplist_octets_file_source")?;
    fs::write(&rt, path.as_str(), b"abcdef")?;
    let mut source = FileSource::open(&rt, path.as_str())?;
    answers(&rt, &mut source, b"abcdef", (2, 3, Ok(())));
    fs::write(&rt, path.as_str(), b"abc")?;
    answers(&rt, &mut source, b"abcdef", (2, 3, Err(ReadFault::Ended)));
    fs::remove_file(&rt, path.as_str())?;
    Ok(())
}

#[test]
fn a_number_of_each_width(rt: HostRuntime) {
    let bytes = *b"\x81\x02\x03\x04\x05\x06\x07\xf8\x09\x0a\x0b\x0c\x0d\x0e\x0f\xff";
    let number: u128 = 0x8102_0304_0506_07f8_090a_0b0c_0d0e_0fff;
    for i in 0..16 {
        let want = number >> (120 - 8 * i as u32);
        let part = &bytes[..i + 1];
        assert_eq!(rt; wide(part), want, "at {i}");
        if i < 8 {
            assert_eq!(rt; u128::from(sized(part)), want, "at {i}");
        }
    }
}

#[test]
fn a_high_byte_at_each_place(rt: HostRuntime) {
    let mut bytes = [0x7f; 200];
    for length in 0..200 {
        assert_eq!(rt; first_high(&bytes[..length]), None, "at {length}");
        for place in 0..length {
            bytes[place] = 0x80;
            assert_eq!(rt; first_high(&bytes[..length]), Some(place), "at {place}");
            bytes[place] = 0x7f;
        }
    }
}
