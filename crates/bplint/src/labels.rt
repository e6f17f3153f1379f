//! Puts a label before each line of an answer: the name of the file, or the path that the line is about.

use std::alloc::{AllocError, Global};
use std::io::{self, Write};

/// What begins each line of an answer: the name of the file, and the path that the line is about.
#[derive(Drop)]
pub struct Labels<'a> {
    /// The name with a colon and a blank, or nothing.
    pub prefix: &'a str,
    /// The paths of the lines, in their order, or none.
    pub paths: &'a [String],
}

/// A writer that puts a label before each line.
#[derive(Drop)]
pub struct Labelled<'a, 'l, W> {
    alloc: Global,
    out: &'a mut W,
    labels: Labels<'l>,
    /// The number of lines that were begun.
    lines: usize,
    /// True if the next byte begins a line.
    at_start: bool,
    /// True if memory was refused for lines with labels.
    refused: bool,
}

impl<'a, 'l, W> Labelled<'a, 'l, W> {
    /// Makes a writer for lines with these labels.
    pub fn new(alloc: Global, out: &'a mut W, labels: Labels<'l>) -> Labelled<'a, 'l, W> {
        Labelled {
            alloc,
            out,
            labels,
            lines: 0,
            at_start: true,
            refused: false,
        }
    }

    /// Returns true if a write failed because memory was refused here.
    pub fn is_refused(&self) -> bool {
        self.refused
    }

    fn add_label(&mut self, lines: &mut Vec<u8>) -> Result<(), AllocError> {
        lines.extend_from_slice(self.labels.prefix.as_bytes())?;
        if let Some(path) = self.labels.paths.get(self.lines) {
            lines.extend_from_slice(path.as_bytes())?;
            lines.push(b'\t')?;
        }
        self.lines = self.lines.saturating_add(1);
        Ok(())
    }

    fn labelled(&mut self, buf: &[u8]) -> Result<Vec<u8>, AllocError> {
        let mut lines = Vec::new(self.alloc);
        for part in buf.split_inclusive(|octet| *octet == b'\n') {
            if self.at_start {
                self.add_label(&mut lines)?;
            }
            lines.extend_from_slice(part)?;
            self.at_start = part.ends_with(b"\n");
        }
        Ok(lines)
    }
}

impl<'a, 'l, W: Write> Write for Labelled<'a, 'l, W> {
    /// Writes the lines at once, so that those of parallel runs do not mix.
    fn write(&mut self, buf: &[u8]) -> io::Result<usize> {
        if self.labels.prefix.is_empty() && self.labels.paths.is_empty() {
            return self.out.write(buf);
        }
        let labelled = self.labelled(buf);
        self.refused = labelled.is_err();
        self.out.write_all(&labelled?)?;
        Ok(buf.len())
    }

    fn flush(&mut self) -> io::Result<()> {
        Ok(())
    }
}
