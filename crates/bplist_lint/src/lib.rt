//! The linter: decides whether a file holds a value, and returns the certificate of its least heights, or else the
//! first fault. Checking a certificate is in `bplist_cert`; reading objects one at a time is in `bplist_objects`.
//!
//! ```
//! let mut source = SliceSource::new(file);
//! match lint(alloc, &mut source) {
//!     Ok(sound) => keep(sound.certificate),                 // what `check` takes
//!     Err(LintRefusal::Fault(fault)) => report(fault),      // the first broken rule, its object and place
//!     Err(LintRefusal::Circle(objects)) => report_circle(objects.as_slice()),
//!     Err(_) => retry(),                                    // a failed read or refused memory
//! }
//! ```
//!
//! To go on with the file, call [`lint_checked`], which returns it as a `Checked`, as `check` does. For a certificate
//! with sorted key lists, call it with [`Keys::Ranks`], or call [`upgrade`] on a checked file.
//!
//! A no is final: no certificate is valid for that file (clause `decisive` of [`lint`], law [`fault_is_final`]).
//! docs/DESIGN.md describes the passes, docs/RULES.md the order of the rules.
//!
//! The modules, in reading order:
//!
//! | module | what it is about | public items |
//! |---|---|---|
//! | answer | yes, no, and why an upgrade fails | [`Lint`], [`LintRefusal`], [`ObjectNos`], [`UpgradeFault`] |
//! | linter | the passes of the linter, in their order | [`lint`], [`Keys`] |
//! | checked | a linted file as a `Checked` | [`lint_checked`] |
//! | walk | the one walk over the reached objects: rules 14 to 20 and 31 | |
//! | tally | sums over the reached objects: rule 31; and the first fault of these rules, if any | [`Tally`] |
//! | reach | which objects are reached, if the walk met a fault | |
//! | bit_set | the sets of places that the search in reach uses | |
//! | key_rules | rules 21 and 22, and sorting the keys of a dictionary | |
//! | containers | keys and heights in one quick pass over the containers | |
//! | graph | what heights and circle see of a file | |
//! | heights | the least heights | |
//! | circle | the circle, if the top is not founded: rule 23 | |
//! | upgrader | a certificate with sorted key lists | [`upgrade`] |
//! | laws | laws about the definitions in specs/ | [`value_or_fault`], [`fault_is_final`] and others |
#![tactic(auto)]

mod answer;
mod bit_set;
mod checked;
mod circle;
mod containers;
mod graph;
mod heights;
mod key_rules;
mod laws;
mod linter;
mod reach;
mod tally;
mod upgrader;
mod walk;

pub use answer::{Lint, LintRefusal, ObjectNos, UpgradeFault};
pub use checked::lint_checked;
pub use laws::{
    circle_iff_not_founded, fault_has_no_value, fault_is_final, holds_iff_well_formed,
    least_heights_are_valid, least_is_least, one_file_fault, valid_iff_well_formed, value_or_fault,
    well_formed_iff_kept,
};
pub use linter::{Keys, lint};
pub use tally::Tally;
pub use upgrader::upgrade;
