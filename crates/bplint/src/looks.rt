//! Which files `lint` lints, and which it counts as other forms of a property list or passes over.

use crate::input::is_bplist;
use bplist_hints::hint_of;
use bplist_octets::{ReadFault, Source};

/// The ends of the names that property lists usually have.
const ENDINGS: [&str; 7] = [
    ".plist",
    ".strings",
    ".nib",
    ".webloc",
    ".loctable",
    ".stringsdict",
    ".webarchive",
];

/// What `lint` does with a file.
#[derive(Clone, Copy, Drop)]
pub enum Look {
    /// It lints the file.
    Lint,
    /// It counts the file as another form: XML, text of the old style, another form of a nib file, or a file of strings
    /// without a string.
    OtherForm,
    /// It passes over the file.
    PassOver,
}

/// Returns what to do with a file that was found in a folder. `all` says that no file is passed over.
pub fn look_at_found<S: Source>(file: &mut S, name: &str, all: bool) -> Result<Look, ReadFault> {
    if is_bplist(file)? {
        return Ok(Look::Lint);
    }
    if !all && !has_usual_ending(name) {
        return Ok(Look::PassOver);
    }
    look_at(file, name)
}

/// Returns what to do with a file that is linted unless it has another form.
pub fn look_at<S: Source>(file: &mut S, name: &str) -> Result<Look, ReadFault> {
    Ok(match hint_of(file)? {
        Some(hint) if hint.is_other_form() => Look::OtherForm,
        Some(hint) if hint.is_blank() && name.ends_with(".strings") => Look::OtherForm,
        _ => Look::Lint,
    })
}

fn has_usual_ending(name: &str) -> bool {
    ENDINGS.iter().any(|ending| name.ends_with(*ending))
}
