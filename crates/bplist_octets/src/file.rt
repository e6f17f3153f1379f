//! A source over a file.

ghost use Rattle.std.specs.Prelude.{◌≡◌, None, IfOk};

use crate::seek_source::SeekSource;
use crate::source::Source;
use crate::stream::Stream;
use std::fs::{File, Files};
use std::io::{self, Read, Seek, SeekFrom};
use thiserror::Error;

/// The file could not be opened, its length could not be read, or there was no memory for it.
#[derive(Clone, Copy, Debug, PartialEq, Eq, Drop, Error)]
#[error("read Open")]
pub struct OpenFault;

/// A file that is open for reading, with its length at the time when it was opened. It is not honest, because another
/// program may change the file between two reads.
///
/// The code that reads it is that of [`SeekSource`], which sees no more of its stream than the trait [`Stream`]. So
/// what is proved of it over streams whose bytes are known is proved of the code that reads a file.
pub type FileSource = SeekSource<File>;

// No contract says what a call of the system gives. So nothing refuses a wrong body here, and each is one call of std.
impl Stream for File {
    ghost bytes = { λ _. None };

    ghost position = { λ _. 0 };

    fn stream_len(&self) -> io::Result<u64> {
        Ok(self.metadata()?.len())
    }

    fn seek_to(&mut self, at: u64) -> io::Result<u64> {
        self.seek(SeekFrom::Start(at))
    }

    fn read_on(&mut self, into: &mut [u8]) -> io::Result<usize> {
        self.read(into)
    }
}

impl FileSource {
    /// Opens the file at `path` for reading, and reads its length once. No read has failed yet.
    pub fn open<R: Files<File = File>>(rt: &R, path: &str) -> Result<FileSource, OpenFault>
        ensures { IfOk result (λ source. ((⟦<FileSource as Source>⟧.means source).failures ≡ 0)
            × ((⟦<FileSource as Source>⟧.means source).last ≡ None)) }
    {
        let file = File::open(rt, path).map_err(|_| OpenFault)?;
        SeekSource::new(file).map_err(|_| OpenFault)
    }
}
