//! Writes answers to OUT or to standard output.

ghost use Rattle.std.specs.Prelude.{◌≤◌, IfOk, length};

use std::fs::{self, File, Files};
use std::io::{self, ErrorKind, Read, Write};

/// How a certificate of any version begins.
const CERTIFICATE: &[u8; 7] = b"bplcert";

/// The same in hexadecimal text.
const HEX_CERTIFICATE: &[u8; 14] = b"62706c63657274";

/// Which regular files an answer replaces, besides empty ones.
#[derive(Clone, Copy, Drop)]
pub enum Replaces {
    /// Certificates.
    Certificates,
    /// Certificates in hexadecimal text.
    HexCertificates,
    /// All files.
    All,
}

/// Why an answer was not written.
#[derive(Clone, Copy, Drop)]
pub enum OutFault {
    /// OUT is a file that may not be replaced.
    Kept,
    /// Nobody reads standard output any more.
    Closed,
    /// OUT could not be created, or a write failed.
    Failed(ErrorKind),
}

/// A writer that creates or empties its file at the first write. `-` is standard output.
///
/// It leaves a regular file as it is that is not empty, unless it may replace such a file. It writes to pipes and
/// devices.
#[derive(Drop)]
pub struct OutFile<'a, R: Files> {
    rt: &'a R,
    path: &'a str,
    replaces: Replaces,
    file: Option<R::File>,
    /// How many bytes were written.
    written: u64,
    /// Why the last write failed that did.
    fault: Option<OutFault>,
}

impl<'a, R: Files> OutFile<'a, R> {
    /// Makes a writer for this file. The file is unchanged until something is written.
    pub fn new(rt: &'a R, path: &'a str) -> OutFile<'a, R> {
        OutFile {
            rt,
            path,
            replaces: Replaces::Certificates,
            file: None,
            written: 0,
            fault: None,
        }
    }

    /// Says which files the writer replaces. Without this call these are certificates.
    pub fn replacing(self, replaces: Replaces) -> OutFile<'a, R> {
        OutFile { replaces, ..self }
    }

    /// Returns how many bytes were written.
    pub fn written(&self) -> u64 {
        self.written
    }

    /// Returns why the last write failed that did.
    pub fn fault(&self) -> Option<OutFault> {
        self.fault
    }

    fn create(&self) -> io::Result<R::File> {
        if self.has_content() && !self.may_replace() {
            return Err(io::Error::from(ErrorKind::AlreadyExists));
        }
        File::create(self.rt, self.path)
    }

    /// Only a regular file has content.
    fn has_content(&self) -> bool {
        match fs::metadata(self.rt, self.path) {
            Ok(metadata) => metadata.is_file() && metadata.len() > 0,
            Err(_) => false,
        }
    }

    /// A file that cannot be read is kept.
    fn may_replace(&self) -> bool {
        let mut front = [0; 14];
        match self.replaces {
            Replaces::All => true,
            Replaces::Certificates => {
                let front = &mut front[..CERTIFICATE.len()];
                self.reads(front) && front.starts_with(CERTIFICATE)
            }
            Replaces::HexCertificates => {
                self.reads(&mut front) && front.eq_ignore_ascii_case(HEX_CERTIFICATE)
            }
        }
    }

    /// Returns false if the file cannot be read, or has fewer bytes.
    fn reads(&self, front: &mut [u8]) -> bool {
        match File::open(self.rt, self.path) {
            Ok(mut file) => file.read_exact(front).is_ok(),
            Err(_) => false,
        }
    }

    fn write_file(&mut self, buf: &[u8]) -> io::Result<usize>
        ensures { IfOk result (λ n. n ≤ length buf.now) }
    {
        if self.file.is_none() {
            self.file = Some(self.create()?);
        }
        match &mut self.file {
            Some(file) => file.write(buf),
            None => Err(io::Error::from(ErrorKind::Other)),
        }
    }

    fn keep_fault(&mut self, kind: ErrorKind) {
        self.fault = Some(match kind {
            // The system never says so of a file that may be there already: only `create` does.
            ErrorKind::AlreadyExists => OutFault::Kept,
            ErrorKind::BrokenPipe if self.path == "-" => OutFault::Closed,
            _ => OutFault::Failed(kind),
        });
    }
}

impl<'a, R: Files + Print> Write for OutFile<'a, R> {
    fn write(&mut self, buf: &[u8]) -> io::Result<usize> {
        let written = if self.path == "-" {
            self.rt.write_some(buf)
        } else {
            self.write_file(buf)
        };
        match &written {
            Ok(count) => self.written = self.written.saturating_add(*count as u64),
            Err(error) => self.keep_fault(error.kind()),
        }
        written
    }

    fn flush(&mut self) -> io::Result<()> {
        Ok(())
    }
}

/// A writer that discards everything.
#[derive(Drop)]
pub struct NoOut;

impl Write for NoOut {
    fn write(&mut self, buf: &[u8]) -> io::Result<usize> {
        Ok(buf.len())
    }

    fn flush(&mut self) -> io::Result<()> {
        Ok(())
    }
}
