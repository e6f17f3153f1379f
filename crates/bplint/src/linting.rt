//! The command `lint` for one FILE, for several, for those of a list, or for the files below a folder.

ghost use Rattle.std.specs.Prelude.{◌≤◌};

use crate::args::Lint;
use crate::findings::Findings;
use crate::folders::{Entry, Folders};
use crate::input::{Operand, open_input, read_input};
use crate::input_fault::InputFault;
use crate::looks::{Look, look_at, look_at_found};
use crate::unread::Unread;
use bplist_octets::{ReadFault, SliceSource, Source};
use std::alloc::Global;
use std::fs::{File, Files};

/// Lints each file that the line names. Returns the greatest exit status. Prints the counts at the end if they are
/// asked for, or with `--recursive` if standard error is a terminal.
///
/// Each FILE counts one step: an answer, or with `--skip-other` a file of another form. With `--recursive` a folder
/// counts a step for each file below it. Nothing is counted any more once nobody reads the answers.
pub fn lint_files<R: Files<File = File> + Folders + Input + Print + Eprint>(
    rt: &R,
    alloc: Global,
    lint: &Lint<'_>,
    on_terminal: bool,
) -> u8
    ensures { result ≤ 4 }
{
    let linter = Linter { rt, alloc, lint };
    let mut findings = Findings::new(rt, alloc, lint);
    for name in &lint.files {
        linter.lint_operand(&mut findings, name);
    }
    if let Some(list) = lint.list {
        linter.lint_listed(&mut findings, list);
    }
    linter.tell_counts(&mut findings, on_terminal);
    findings.tally.status()
}

/// What a `lint` run is asked for, and where its files are.
#[derive(Drop)]
struct Linter<'a, R> {
    rt: &'a R,
    alloc: Global,
    lint: &'a Lint<'a>,
}

impl<'a, R: Files<File = File> + Folders + Input + Print + Eprint> Linter<'a, R> {
    fn lint_listed(&self, findings: &mut Findings<'_, R>, list: &str) {
        if findings.tally.is_closed() {
            return;
        }
        match read_input(self.rt, self.alloc, list) {
            Ok(names) => self.lint_names(findings, &names),
            Err(fault) => findings.add_unread(Unread::new(list, fault)),
        }
    }

    /// Each name ends with a line feed or, with `-0`, with a zero byte.
    fn lint_names(&self, findings: &mut Findings<'_, R>, names: &[u8]) {
        let end = if self.lint.zero { 0 } else { b'\n' };
        for name in names.split(|octet| *octet == end) {
            self.lint_name(findings, name);
        }
    }

    /// Nothing is no name.
    fn lint_name(&self, findings: &mut Findings<'_, R>, name: &[u8]) {
        match std::str::from_utf8(name) {
            Ok("") => {}
            Ok(name) => self.lint_operand(findings, name),
            Err(_) if findings.tally.is_closed() => {}
            Err(_) => findings.add_unnamed(name),
        }
    }

    /// With `--recursive`, a folder means the files below it.
    fn lint_operand(&self, findings: &mut Findings<'_, R>, name: &str) {
        if findings.tally.is_closed() {
            return;
        }
        if self.lint.choice.recursive && name != "-" && self.rt.is_folder(name) {
            self.lint_folder(findings, name);
        } else {
            self.lint_file(findings, name, false);
        }
    }

    /// Takes the files below a folder in the order of their names.
    fn lint_folder(&self, findings: &mut Findings<'_, R>, folder: &str) {
        let mut pending = Vec::new(self.alloc);
        self.enter(findings, folder, &mut pending);
        for _ in 0..u64::MAX {
            let Some(path) = pending.pop() else {
                return;
            };
            self.look_at(findings, &path, &mut pending);
            if findings.tally.is_closed() {
                return;
            }
        }
    }

    /// If the entries cannot be read, the folder has a fault.
    fn enter(&self, findings: &mut Findings<'_, R>, folder: &str, pending: &mut Vec<Vec<u8>>) {
        if let Err(fault) = self.push_entries(folder, pending) {
            findings.add_unread(Unread::new(folder, fault));
        }
    }

    fn push_entries(&self, folder: &str, pending: &mut Vec<Vec<u8>>) -> Result<(), InputFault> {
        let mut paths = self.rt.paths_in(self.alloc, folder)?;
        pending.append(&mut paths)?;
        Ok(())
    }

    fn look_at(&self, findings: &mut Findings<'_, R>, path: &[u8], pending: &mut Vec<Vec<u8>>) {
        let Ok(name) = std::str::from_utf8(path) else {
            return findings.add_unnamed(path);
        };
        match self.rt.entry_at(name) {
            Ok(Entry::Folder) => self.enter(findings, name, pending),
            Ok(Entry::File) => self.lint_file(findings, name, true),
            Ok(Entry::Other) => findings.tally.pass_over(),
            Err(fault) => findings.add_unread(Unread::new(name, fault)),
        }
    }

    /// `found` says that the file was found in a folder.
    fn lint_file(&self, findings: &mut Findings<'_, R>, name: &str, found: bool) {
        let mut file = match open_input(self.rt, self.alloc, name, self.lint.choice.hex) {
            Ok(file) => file,
            Err(fault) => return findings.add_unread(Unread::new(name, fault)),
        };
        match self.look(name, found, &mut file) {
            Ok(Look::Lint) => match file {
                Operand::Memory(bytes) => findings.add(name, SliceSource::new(&bytes)),
                Operand::Disk(file) => findings.add(name, file),
            },
            Ok(Look::OtherForm) => findings.tally.other_form(),
            Ok(Look::PassOver) => findings.tally.pass_over(),
            Err(fault) => findings.add_unread(Unread::new(name, InputFault::Read(fault))),
        }
    }

    fn look<S: Source>(&self, name: &str, found: bool, file: &mut S) -> Result<Look, ReadFault> {
        let choice = self.lint.choice;
        if found {
            return look_at_found(file, name, choice.all);
        }
        if choice.skip_other {
            return look_at(file, name);
        }
        Ok(Look::Lint)
    }

    /// Says nothing if nobody reads the counts.
    fn tell_counts(&self, findings: &mut Findings<'_, R>, on_terminal: bool) {
        let wanted = self.lint.summary || (self.lint.choice.recursive && on_terminal);
        if wanted && !findings.tally.is_closed() {
            findings.print_counts();
        }
    }
}
