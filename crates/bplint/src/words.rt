//! The words of the command line. A FILE of `lint` need not be UTF-8: its name is kept as a stand-in, so that the other
//! files are linted.

use crate::folders::shown_octets;
use std::alloc::{AllocError, AllocFailed, Global};
use std::env::{Env, FillError};
use std::io::ErrorKind;

/// The largest word in bytes, which is the system's limit.
const LONGEST: usize = 131_072;

/// Why there are no words.
#[derive(Drop)]
pub enum WordFault {
    /// Memory was refused.
    Memory,
    /// A word is not UTF-8, as this line says.
    NotUtf8(String),
}

impl From<AllocError> for WordFault {
    fn from(_error: AllocError) -> WordFault {
        WordFault::Memory
    }
}

impl<T: Drop> From<AllocFailed<T>> for WordFault {
    fn from(_error: AllocFailed<T>) -> WordFault {
        WordFault::Memory
    }
}

/// Returns the words of the command line, with the name of the program.
pub fn words_of(rt: &HostRuntime) -> Result<Vec<String>, WordFault> {
    match std::env::args(rt) {
        Ok(words) => Ok(words.collect(rt.alloc())?),
        Err(error) if error.kind() == ErrorKind::OutOfMemory => Err(WordFault::Memory),
        Err(_) => words_by_bytes(rt, rt.alloc()),
    }
}

/// One of the words is not UTF-8.
fn words_by_bytes<R: Env>(rt: &R, alloc: Global) -> Result<Vec<String>, WordFault> {
    let mut words: Vec<String> = Vec::new(alloc);
    let mut octets: Vec<u8> = Vec::new(alloc);
    for i in 0..usize::MAX {
        octets.resize(LONGEST, 0)?;
        match rt.arg(i, &mut octets) {
            Ok(length) => octets.truncate(length),
            Err(FillError::TooLong) => octets.clear(),
            Err(FillError::NotPresent) => break,
        }
        let lints = words.get(1).is_some_and(|word| word.as_str() == "lint");
        let word = match std::str::from_utf8(&octets) {
            Ok(word) => String::from_str(alloc, word)?,
            Err(_) if lints => stand_in(alloc, &octets)?,
            Err(_) => return Err(not_utf8(alloc, &octets)?),
        };
        words.push(word)?;
    }
    Ok(words)
}

fn not_utf8(alloc: Global, octets: &[u8]) -> Result<WordFault, AllocError> {
    let shown = shown_octets(alloc, octets)?;
    Ok(WordFault::NotUtf8(format!(in alloc; "an argument is not UTF-8: {shown}")?))
}

/// The text for a name that is not UTF-8 is a zero byte, which no name has, and the bytes of the name in hexadecimal.
/// No file can be opened by it.
fn stand_in(alloc: Global, octets: &[u8]) -> Result<String, AllocError> {
    let digits = hex::encode(alloc, octets)?;
    format!(in alloc; "\0{digits}")
}

/// Returns the name that a text stands for, if it is a stand-in.
pub fn name_behind(alloc: Global, name: &str) -> Option<Vec<u8>> {
    let digits = name.strip_prefix('\0')?;
    hex::decode(alloc, digits.as_bytes()).ok()
}
