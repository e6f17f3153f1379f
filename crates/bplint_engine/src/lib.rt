//! The answers of bplint: what each command writes for a file and a certificate, and which fault it returns. Not here:
//! the command line, files and output of the program (crate `bplint`), and how a single line or fault is worded (crate
//! `bplint_lines`).
//!
//! ```
//! let command = Command { verb: Verb::Lint, paths: Vec::new(alloc), limit: 0, hex: false, sorted: false };
//! let (answer, source) = run_on(alloc, &command, source, &[], &mut out);
//! if let Err(fault) = answer {
//!     let line = fault.line(alloc)?;                       // `fault KeyTwice object 0 place 10`
//! }
//! ```
//!
//! | to do this | call |
//! |---|---|
//! | lint, check, get, certify or print over a source | [`run_on`], with a [`Command`] and its [`Verb`] |
//! | check, get or print with a certificate that is already decoded | [`check_on`], [`get_on`], [`print_on`] |
//! | any of the five over bytes or hexadecimal text | [`run_over`], [`undo_hex`] |
//! | lint or certify, which take no certificate | [`lint_on`], [`certify_on`] |
//! | show values of a file that has no certificate | [`show_on`]; [`show_text_on`] and [`show_raw_on`] with a [`Led`] |
//! | list them | [`list_on`], [`list_all_on`] with a [`Branch`] |
//! | show them as people read them | [`show_readable_on`] |
//! | list them in another form | [`list_rows_on`] with a [`Listed`]: path, [`Depth`], [`Form`] with [`Values`], order |
//! | say what each byte range of a file contains | [`map_on`] |
//! | lint a source and keep what was found | [`find_in`], which gives a [`Finding`] with `line` and `status` |
//! | explain a fault, describe an object | [`explain`], [`describe`] |
//!
//! A call returns the `Said` or the `RunFault` of `bplint_lines`. The clause `exact` of each call says which bytes it
//! wrote; specs/Said.antt defines what each command says. The law `tree_of_ls` says that a recursive listing
//! consists of the lines of `ls` at each container. What has no such clause is tested: the map of a file, JSON, the
//! other forms of `ls` and `show`, and explanations after their first line.
//!
//! The modules, in reading order. Those with proved answers:
//!
//! - `run`: what a caller asks for, and the calls that run it, also over hexadecimal text.
//! - `lint`, `check`, `certify`, `print`: one command each.
//! - `accepted`: a file together with a checked certificate, or with the linter's own.
//! - `get`: the command, and the paths and queries that path texts mean.
//! - `show`, `ls`, `tree`, `raw`: the calls that need no certificate.
//! - `sorting`: whether to sort the keys before many paths are followed.
//! - `members`: the members of a container.
//! - `walk`, `names`: the walk over a value, and the names in it.
//! - `row_lines`: the lines of a walk.
//! - `raw_bytes`: which raw bytes a value has, and how they are sent in parts.
//! - `output`: the bytes of an answer, and how they are written.
//! - `laws`: facts about the definitions.
//!
//! Those with tested answers:
//!
//! - `explanation`, `file_lines`: the lines under the line of a fault.
//! - `object_path`: the path to an object.
//! - `finding`: what `lint` finds out about a file.
//! - `listing`, `columns`: the other forms of `ls`.
//! - `json`: the lines of a finding and of a listing as JSON.
//! - `readable`: values and dates as people read them.
//! - `map`: the map of a file.
#![tactic(auto)]

mod accepted;
mod certify;
mod check;
mod columns;
mod explanation;
mod file_lines;
mod finding;
mod get;
mod json;
mod laws;
mod lint;
mod listing;
mod ls;
mod map;
mod members;
mod names;
mod object_path;
mod output;
mod print;
mod raw;
mod raw_bytes;
mod readable;
mod row_lines;
mod run;
mod show;
mod sorting;
mod tree;
mod walk;

pub use certify::certify_on;
pub use check::check_on;
pub use columns::Values;
pub use explanation::{describe, explain};
pub use finding::{Finding, Way, find_in};
pub use get::get_on;
pub use laws::{listings_tell_values, tree_of_ls};
pub use lint::lint_on;
pub use listing::{Depth, Form, Listed, list_rows_on};
pub use ls::list_on;
pub use map::map_on;
pub use output::Led;
pub use print::print_on;
pub use raw::show_raw_on;
pub use readable::show_readable_on;
pub use run::{Command, Verb, run_on, run_over, undo_hex};
pub use show::{show_on, show_text_on};
pub use tree::{Branch, list_all_on};
