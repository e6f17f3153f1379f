//! What `lint` says of each file: its line or its fault, its name alone, or nothing. A run counts its files, and keeps
//! the greatest exit status.

ghost use Rattle.std.specs.Prelude.{◌≡◌, ◌≤◌, ℕ, IsTrue};
ghost use Rattle.bplint_engine.specs.Findings.{status_of};
ghost use Rattle.bplint.specs.ExitStatuses.{EndsWith, IsOrFails, Raises};
ghost use Rattle.bplint.specs.Questions.{LintEnds};

use crate::args::{Ask, Lint, Printed, Run};
use crate::ending::{Ending, end};
use crate::folders::shown_name;
use crate::output::{NoOut, OutFile, Replaces};
use crate::reasons::{completed, prefix_of, unnamed_ending};
use crate::run::answer;
use crate::tally::Tally;
use crate::unread::Unread;
use crate::words::name_behind;
use bplint_engine::{Finding, find_in};
use bplint_lines::RunFault;
use bplist_octets::{SliceSource, Source};
use std::alloc::{AllocError, Global};
use std::fs::{File, Files};
use std::io::Write;

/// Says what `lint` finds, and counts it.
#[derive(Drop)]
pub struct Findings<'a, R> {
    rt: &'a R,
    alloc: Global,
    lint: &'a Lint<'a>,
    pub tally: Tally,
}

impl<'a, R: Files<File = File> + Print + Eprint> Findings<'a, R> {
    /// Makes the findings of a run, without any so far.
    pub fn new(rt: &'a R, alloc: Global, lint: &'a Lint<'a>) -> Findings<'a, R>
        ensures { result.tally ≡ 0 }
    {
        Findings {
            rt,
            alloc,
            lint,
            tally: Tally::new(),
        }
    }

    /// Lints a file, and says what it found.
    pub fn add<S: Source + Drop>(&mut self, name: &str, file: S)
        ensures { IsTrue (S.means file).honest
            → Raises (LintEnds (S.means file).octets) self.old.tally self.new.tally }
    {
        if self.prints_json() {
            let mut file = file;
            let finding = find_in(self.alloc, &mut file);
            return self.print_finding(name.as_bytes(), &finding);
        }
        let Ok(prefix) = self.prefix_of(name) else {
            return self.end_without_memory();
        };
        let line = self.line_of(name, prefix);
        let mut out = OutFile::new(self.rt, "-");
        let ending = self.answer(&line, file, &mut out);
        if self.is_named_alone(&ending) {
            return self.print_name(name);
        }
        let ending = completed(self.alloc, &line, ending, out.fault());
        self.end(&line.prefix, ending);
    }

    /// A sound file may have no line.
    fn answer<S: Source + Drop, W: Write>(&self, line: &Run<'_>, file: S, out: &mut W) -> Ending
        requires { line.now.ask ≡ Ask.Lint }
        ensures { IsTrue (S.means file).honest → (status : ℕ) → EndsWith result.answer status
            → LintEnds (S.means file).octets status }
    {
        let cert = SliceSource::new(&[]);
        match self.lint.printed {
            Printed::Lines => answer(self.alloc, line, file, cert, out),
            _ => answer(self.alloc, line, file, cert, &mut NoOut),
        }
    }

    fn line_of<'n>(&self, name: &'n str, prefix: String) -> Run<'n>
        ensures { result.ask ≡ Ask.Lint }
    {
        Run {
            ask: Ask::Lint,
            file: name,
            cert: None,
            out: "-",
            replaces: Replaces::Certificates,
            hex: self.lint.choice.hex,
            prefix,
            files_from: None,
            paths_from: None,
            most: None,
            explain: self.lint.explain,
        }
    }

    /// With `--list`, a file that breaks a rule has no other line.
    fn is_named_alone(&self, ending: &Ending) -> bool
        ensures { IsTrue result → EndsWith ending.now.answer 1 }
    {
        match (&ending.answer, self.lint.printed) {
            (Err(fault), Printed::Names) => fault.status() == 1,
            _ => false,
        }
    }

    /// Counts the file, which is not sound.
    fn print_name(&mut self, name: &str)
        ensures { Raises (IsOrFails 1) self.old.tally self.new.tally }
    {
        match self.name_line(name) {
            Ok(line) => self.print(&line, 1),
            Err(_) => self.end_without_memory(),
        }
    }

    /// If a zero byte ends it, it is the name as it is.
    fn name_line(&self, name: &str) -> Result<Vec<u8>, AllocError> {
        let mut line = Vec::new(self.alloc);
        if self.lint.zero {
            line.extend_from_slice(name.as_bytes())?;
            line.push(0)?;
        } else {
            line.extend_from_slice(shown_name(self.alloc, name)?.as_bytes())?;
            line.push(b'\n')?;
        }
        Ok(line)
    }

    fn prints_json(&self) -> bool {
        matches!(self.lint.printed, Printed::Json)
    }

    /// Counts the file too.
    fn print_finding(&mut self, name: &[u8], finding: &Finding)
        ensures { Raises (IsOrFails (status_of finding.now)) self.old.tally self.new.tally }
    {
        match finding.line(self.alloc, name) {
            Ok(line) => self.print(&line, finding.status()),
            Err(_) => self.end_without_memory(),
        }
    }

    /// Counts a file whose run ended with this status.
    fn print(&mut self, line: &[u8], status: u8)
        requires { status ≤ 4 }
        ensures { Raises (IsOrFails status) self.old.tally self.new.tally }
    {
        let mut out = OutFile::new(self.rt, "-");
        if out.write_all(line).is_ok() {
            return self.tally.count(status);
        }
        let ending = Ending::with(self.alloc, RunFault::Write { sent: 0 });
        let line = self.line_of("-", String::new(self.alloc));
        let ending = completed(self.alloc, &line, ending, out.fault());
        self.end("", ending);
    }

    /// Says that an input could not be read.
    pub fn add_unread(&mut self, unread: Unread<'_>)
        ensures { Raises (λ status. 3 ≤ status) self.old.tally self.new.tally }
    {
        if let Some(name) = name_behind(self.alloc, unread.name) {
            return self.add_unnamed(&name);
        }
        if self.prints_json() {
            let (name, finding) = (unread.name, unread.finding(self.alloc));
            return self.print_finding(name.as_bytes(), &finding);
        }
        let Ok(prefix) = self.prefix_of(unread.name) else {
            return self.end_without_memory();
        };
        let ending = unread.ending(self.alloc, self.lint.explain);
        self.end(&prefix, ending);
    }

    /// Says that a path is not UTF-8, and cannot be opened.
    pub fn add_unnamed(&mut self, path: &[u8])
        ensures { Raises (λ status. 3 ≤ status) self.old.tally self.new.tally }
    {
        if self.prints_json() {
            let finding = Finding::Unread {
                fault: RunFault::Open,
                cause: String::from_str(self.alloc, "its name is not UTF-8").ok(),
            };
            return self.print_finding(path, &finding);
        }
        match unnamed_ending(self.alloc, path, self.lint.explain) {
            Ok((prefix, ending)) => self.end(&prefix, ending),
            Err(_) => self.end_without_memory(),
        }
    }

    /// Prints the counts.
    pub fn print_counts(&mut self) {
        match self.tally.line(self.alloc) {
            Ok(line) => {
                let _ = self.rt.eprintln(line);
            }
            Err(_) => self.end_without_memory(),
        }
    }

    /// Counts the file too.
    fn end(&mut self, prefix: &str, ending: Ending)
        ensures { Raises (EndsWith ending.answer) self.old.tally self.new.tally }
    {
        let silent = ending.silent;
        let status = end(self.rt, self.alloc, prefix, ending);
        if silent {
            self.tally.cut_off(status);
        } else {
            self.tally.count(status);
        }
    }

    /// Memory for the lines of a file was refused.
    fn end_without_memory(&mut self)
        ensures { Raises (λ status. status ≡ 4) self.old.tally self.new.tally }
    {
        self.end("", Ending::with(self.alloc, RunFault::Memory));
    }

    fn prefix_of(&self, name: &str) -> Result<String, AllocError> {
        prefix_of(self.alloc, name, self.lint.named)
    }
}
