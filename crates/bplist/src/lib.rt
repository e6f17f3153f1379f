//! Checks Apple binary property lists (`bplist00`), and reads values from them without building a tree.
//!
//! ```
//! use anyhow::Result;
//! use bplist::{FileSource, Keys, Path, Query, Window, answer, lint_checked};
//!
//! fn main(rt: HostRuntime) -> Result<()> {
//!     let source = Window::new(FileSource::open(&rt, "Info.plist")?);
//!     let linted = lint_checked(rt.alloc(), source, Keys::Classes).map_err(|refused| refused.0)?;
//!     let mut checked = linted.0;
//!     let path = Path::parse(rt.alloc(), "/WindowSize/width")?;
//!     let reply = answer(rt.alloc(), &mut checked, &Query::Get(path))?;
//!     println!(rt; "{reply:?}")?; // Face(Int(640)), or for a broken file: fault KeyTwice object 0 place 10
//!     Ok(())
//! }
//! ```
//!
//! Four whole programs: crates/example_lint lints the files of a folder, example_value reads one value and keeps the
//! certificate beside the file, example_tree lists a tree from memory, and example_lookups serves look-ups in a file
//! that may be larger than memory.
//!
//! # Structure
//!
//! A [`Source`] gives bytes by place: a [`SliceSource`] those of a slice, a [`FileSource`] those of a file, which
//! [`Window`] (forward) and [`Pages`] (any places) read in blocks. The linter looks at a source once, and returns a
//! [`Certificate`]: a height for each object. [`check`] takes a source and any certificate, and returns a [`Checked`],
//! which owns both. All that reads values takes a `Checked`: [`locate`] follows a [`Path`] to a [`Node`], [`face`] and
//! [`member`] say what a node is and has, and [`answer`] replies to a [`Query`]. Nothing else is kept, so a value costs
//! only the bytes on the way to it.
//!
//! | you want | call |
//! |---|---|
//! | to know whether a file is sound | [`lint`] |
//! | to read some values of a file | [`lint_checked`], then [`answer`] or [`answer_all`] |
//! | to read values of one file in many runs | once [`lint`] and `Certificate::write_to`; then `Certificate::from_source` and [`check`] |
//! | to look up many keys in large dictionaries | [`lint_checked`] with `Keys::Ranks`, which sorts the keys |
//! | to walk through the tree | [`face`] and [`member`], from the node of `Checked::frame().top` on |
//! | the bytes of a data object or text, without a copy | [`bytes_of`], over a [`SliceSource`] |
//! | the text of a value in old-style form | [`measure`], then [`print`] |
//! | the number of nodes of a value | [`answer`] to `Query::Size` |
//! | one answer from a file and a certificate of someone else | [`answer_certified`] |
//! | the objects of a file, sound or not | [`frame_of`], [`offset_of`], [`head_of`], and calls that take a [`Head`] |
//! | to know how many bytes are read | a [`CountingSource`] around the source |
//!
//! # Errors
//!
//! Each error prints the line that the program `bplint` has for it, as `fault KeyTwice object 0 place 10`,
//! `circle 1 2`, `read Device`, `changed` or `memory`; [`texts_of`] says in a sentence what a rule asks. `?` turns each
//! into an `anyhow::Error`. A call that takes its source by value hands it back beside its error, as the first example
//! shows.
//!
//! # What is proved
//!
//! Every call returns, and reads only inside its source, for any bytes, any certificate and any source. [`lint`] says
//! yes exactly if the file holds a value, and [`check`] exactly if the certificate is valid for the file; a no names
//! the first broken rule, or a circle. What is then looked up is part of the file's one value. What each error prints
//! is proved, too. docs/PROMISES.md has the promises call by call, docs/RULES.md the rules.
#![tactic(auto)]

pub use bplist_ascii::{PrintFault, print, text_of_bytes, text_of_units};
pub use bplist_cert::{CertRefusal, Certificate, Checked, KeyLists, Refusal, check};
pub use bplist_cursor::{
    AnswerFault, CursorFault, Face, Form, Found, List, Measures, Node, Path, PathFault, Query,
    Reply, Why, answer, answer_all, answer_certified, bytes_of, face, locate, locate_counted,
    measure, member,
};
pub use bplist_lint::{
    Keys, Lint, LintRefusal, ObjectNos, Tally, UpgradeFault, lint, lint_checked, upgrade,
};
pub use bplist_objects::{
    Fault, Frame, Head, Kind, ObjectFault, ObjectNo, Rule, frame_of, head_of, int_of, key_cmp,
    kind_name, octets_at, offset_of, ref_at, refs_of, rule_name, rule_number, rule_of_number,
    shape_of, texts_of, uid_of, unit_at,
};
pub use bplist_octets::{
    CountingSource, FileSource, OpenFault, Pages, ReadFault, SliceSource, Source, Window,
    WriteFault,
};
