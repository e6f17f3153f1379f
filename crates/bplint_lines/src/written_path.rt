//! The path from the top to an object, as it is written.
//!
//! A path has at most 256 steps, and no step is added to one of more than 5,000 bytes. So no file has a path that is
//! much longer than one step.

use crate::member_names::{Pair, add_index, add_key_name, add_whole_key_name};
use crate::texts::Style;
use std::alloc::{AllocError, Global};

/// The largest number of steps of a path that are written.
const MOST_STEPS: usize = 256;

/// No step is added to a path of more bytes than this.
const MOST_BYTES: usize = 5000;

/// The start of a key.
#[derive(Drop)]
pub struct KeyFront {
    /// The first units of the key.
    pub units: Vec<u16>,
    /// True if the key has more units.
    pub is_cut: bool,
}

/// How a path names the value of a pair.
#[derive(Clone, Copy, Drop)]
pub enum Naming {
    /// As lines do: by the key, or if it cannot be shown by the index in brackets.
    Shown,
    /// As JSON does: by the key, whatever its characters are. If it has no path, what is behind it begins a new one.
    Whole,
}

/// The path from the top to an object.
#[derive(Drop)]
pub enum ObjectPath {
    /// This path leads to the object.
    Path(WrittenPath),
    /// No path leads to the object.
    None,
    /// The objects overlap, and the search gave up.
    Unknown,
}

/// The path from the top to an object, as far as it is written.
#[derive(Drop)]
pub struct WrittenPath {
    /// Its text. If `index` is given, the text of the path from that member on.
    pub text: Vec<u8>,
    /// With [`Naming::Whole`]: the index of the last member on the way that has no path, if there is one.
    pub index: Option<u64>,
    /// How many more steps lead to the object. It is 0 if the path is whole.
    pub more: usize,
    /// How many steps are written.
    steps: usize,
}

impl WrittenPath {
    /// The path to the top.
    pub fn new(alloc: Global) -> WrittenPath {
        WrittenPath {
            text: Vec::new(alloc),
            index: None,
            more: 0,
            steps: 0,
        }
    }

    /// Returns the same path once more.
    pub fn copy(&self, alloc: Global) -> Result<WrittenPath, AllocError> {
        Ok(WrittenPath {
            text: Vec::from_slice(alloc, &self.text)?,
            ..*self
        })
    }

    /// Counts one more step. Returns false if the path is full, so that the step is not written.
    pub fn take_step(&mut self) -> bool {
        if self.more > 0 || self.steps >= MOST_STEPS || self.text.len() > MOST_BYTES {
            self.more = self.more.saturating_add(1);
            return false;
        }
        self.steps = self.steps.saturating_add(1);
        true
    }

    /// Adds the step to the value of pair `index` of a dictionary. A key that was cut is given by its index, because
    /// its start could be another key. `None` is a key that is no text.
    pub fn add_key(
        &mut self,
        alloc: Global,
        naming: Naming,
        index: u64,
        key: Option<&KeyFront>,
    ) -> Result<(), AllocError> {
        let units = match key {
            Some(key) if !key.is_cut => Some(key.units.as_slice()),
            _ => None,
        };
        match (naming, units) {
            (Naming::Shown, Some(key)) => {
                let pair = Pair { number: index, key };
                add_key_name(alloc, Style::OldStyle, "", &pair, &mut self.text)
            }
            (Naming::Shown, None) => add_index(alloc, index, &mut self.text),
            (Naming::Whole, Some(key)) if add_whole_key_name(alloc, key, &mut self.text)? => Ok(()),
            (Naming::Whole, _) => {
                self.text.clear();
                self.index = Some(index);
                Ok(())
            }
        }
    }
}
