//! Counts the files of a `lint` run, and keeps the greatest exit status.

ghost use Rattle.std.specs.Prelude.{◌≡◌, ◌≤◌, max};

use std::alloc::{AllocError, Global};
use std::marker::Model;

/// The counts so far. Contracts see the greatest exit status alone.
#[derive(Drop)]
pub struct Tally {
    /// The number of files that hold a value.
    sound: u64,
    /// The number of files that break a rule.
    unsound: u64,
    /// The number of files and folders that could not be read.
    unreadable: u64,
    /// The number of entries of folders that were passed over: those that are no files, and files that do not look like
    /// property lists.
    passed: u64,
    /// The number of files that are property lists of another form.
    other_forms: u64,
    /// The greatest exit status.
    status: u8,
    /// True if nobody reads standard output any more, which ends the run.
    closed: bool,
}

impl Model for Tally {
    ghost use Rattle.std.specs.Prelude.{◌≤◌, ℕ};

    ghost Value = { ℕ };

    ghost view = { λ t. t.status };

    ghost invariant = { λ t. t.status ≤ 4 };
}

impl Tally {
    /// Counts nothing.
    pub fn new() -> Tally
        ensures { result ≡ 0 }
    {
        Tally {
            sound: 0,
            unsound: 0,
            unreadable: 0,
            passed: 0,
            other_forms: 0,
            status: 0,
            closed: false,
        }
    }

    /// Returns the greatest exit status so far.
    pub fn status(&self) -> u8
        ensures greatest { result ≡ self.now }
        ensures few { result ≤ 4 }
    {
        self.status
    }

    /// Counts a file whose run ended with this status.
    pub fn count(&mut self, status: u8)
        requires { status ≤ 4 }
        ensures { self.new ≡ max self.old status }
    {
        match status {
            0 => self.sound = self.sound.saturating_add(1),
            1 => self.unsound = self.unsound.saturating_add(1),
            _ => self.unreadable = self.unreadable.saturating_add(1),
        }
        self.status = self.status.max(status);
    }

    /// Counts a file whose run ended with this status, because nobody reads standard output any more.
    pub fn cut_off(&mut self, status: u8)
        requires { status ≤ 4 }
        ensures { self.new ≡ max self.old status }
    {
        self.count(status);
        self.closed = true;
    }

    /// Returns true if nobody reads standard output any more.
    pub fn is_closed(&self) -> bool {
        self.closed
    }

    /// Counts an entry of a folder that is passed over.
    pub fn pass_over(&mut self)
        ensures { self.new ≡ self.old }
    {
        self.passed = self.passed.saturating_add(1);
    }

    /// Counts a file that is a property list of another form.
    pub fn other_form(&mut self)
        ensures { self.new ≡ self.old }
    {
        self.other_forms = self.other_forms.saturating_add(1);
    }

    /// Returns the line with all counts.
    pub fn line(&self, alloc: Global) -> Result<String, AllocError> {
        let Tally {
            sound,
            unsound,
            unreadable,
            passed,
            other_forms,
            ..
        } = self;
        let looked_at = sound.saturating_add(*unsound).saturating_add(*unreadable);
        format!(in alloc;
            "files looked at {looked_at}, sound {sound}, not sound {unsound}, unreadable {unreadable}, passed over {passed}, other forms {other_forms}"
        )
    }
}
