//! Certificates of binary property lists: their bytes, and the check of a certificate against a file. Making a
//! certificate is in `bplist_lint`; answers about the value of a checked file are in `bplist_cursor`.
//!
//! A certificate gives a height to each object. In version 2 it also has the sorted key list of each dictionary.
//! Nothing in it is trusted.
//!
//! ```
//! let certificate = Certificate::from_source(alloc, &mut cert)?;   // rules 24 and 25
//! match check(alloc, SliceSource::new(file), certificate) {
//!     Ok(checked) => use_it(checked),                              // exactly one value, no circle
//!     Err((refusal, source, certificate)) => report(refusal),      // the first broken rule
//! }
//! ```
//!
//! A [`Checked`] keeps what the check found: over an honest source its heights are valid, even after it is moved. Two
//! laws say what follows: each vouched object holds one value ([`vouched_values`]), and its references are vouched for
//! and lower ([`vouched_references`]).
//!
//! The modules, in reading order:
//!
//! | module | what it is about | public items |
//! |---|---|---|
//! | certificate | heights and key lists, and a certificate as bytes | [`Certificate`], [`KeyLists`], [`CertRefusal`] |
//! | decoding | a certificate from bytes: rules 24 and 25 | `Certificate::from_source`, `from_octets` |
//! | checked | a source with a certificate that was accepted | [`Checked`] |
//! | checker | the check: rules 26 and 27, the walk, and then the keys | [`check`] |
//! | walk | the walk over the objects: rules 14 to 20, 28, 29 and 31 | |
//! | refusal | why the check says no | [`Refusal`] |
//! | heights | rules 28 and 29 | |
//! | key_lists | what the walk finds out about keys, and rules 21 and 32 for version 2 | |
//! | key_names | the objects that are named as keys | [`vouched_keys`] |
//! | key_rules | rule 21, and rules 21 and 22 for version 1 | |
//! | key_order | rule 32 for one dictionary | |
//! | caches | caches of key pairs in order and of stretches of ASCII bytes | |
//! | laws | laws about the definitions in specs/ | [`one_certificate`], [`yes_or_fault`] and others |
#![tactic(auto)]

mod caches;
mod certificate;
mod checked;
mod checker;
mod decoding;
mod heights;
mod key_lists;
mod key_names;
mod key_order;
mod key_rules;
mod laws;
mod refusal;
mod walk;

pub use certificate::{CertRefusal, Certificate, KeyLists};
pub use checked::Checked;
pub use checker::check;
pub use key_names::vouched_keys;
pub use laws::{
    checked_stays, one_certificate, one_pair_fault, ordered_keys_differ, pair_fault_excludes,
    reached_objects, repeated_key_has_no_list, sound_files, valid_is_sound, vouched_references,
    vouched_values, yes_or_fault,
};
pub use refusal::Refusal;
