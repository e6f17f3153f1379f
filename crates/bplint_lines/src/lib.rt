//! The wording of bplint: the line and exit status of each fault, the rules in plain words, and the lines of answers.
//! No source is read here. Not here: which answer or fault a command has, and what an explanation looks up in a file
//! (crate `bplint_engine`).
//!
//! ```
//! if let Err(fault) = answer {
//!     let line = fault.line(alloc)?;                       // `fault KeyTwice object 0 place 10`
//!     return Ok(fault.status());
//! }
//! ```
//!
//! | to do this | call |
//! |---|---|
//! | write the line of a fault, get its exit status | [`RunFault`]: `line`, `status` |
//! | the same for raw bytes | [`RawFault`] |
//! | explain a rule, tell who asks for it | [`rule_text`], [`is_profile`] |
//! | write the lines that explain a fault | [`rule_line_of`], [`file_line_of`], [`hint_line_of`] |
//! | of an object, a wrong key, a path | [`object_line_of`], [`key_line_of`], [`path_line_of`] |
//! | of the bytes around a place | [`bytes_line_of`] |
//! | write the line of an answer | [`add_lint`], [`add_check`], [`add_face`], [`add_missing`] |
//! | get a word of such a line | [`reason_of`] |
//! | write the name of a member | [`add_index_name`], [`add_key_name`], [`add_whole_key_name`], [`add_index`] |
//! | tell whether a line can show a character | [`is_unshown`] |
//! | tell whether each path led to a value | [`Said`] |
//! | write the path to an object | [`WrittenPath`], with a [`Naming`] and the [`KeyFront`] of each key |
//!
//! specs/Answers.antt defines answers, and what a run leaves with the writer.
//!
//! The modules, in reading order:
//!
//! - `fault`, `raw_fault`: how a run ends, [`Said`] and [`RunFault`], or [`RawFault`].
//! - `texts`: how lines write texts, [`Style`].
//! - `output_lines`, `member_names`: the lines of answers, and the names of members in them.
//! - `written_path`: the path to an object.
//! - `explanation`: rules in plain words, and the lines under the line of a fault.
#![tactic(auto)]

mod explanation;
mod fault;
mod member_names;
mod output_lines;
mod raw_fault;
mod texts;
mod written_path;

pub use explanation::{
    bytes_line_of, file_line_of, hint_line_of, is_about_certificates, is_profile, key_line_of,
    object_line_of, path_line_of, rule_line_of, rule_text,
};
pub use fault::{RunFault, Said};
pub use member_names::{Pair, add_index, add_index_name, add_key_name, add_whole_key_name};
pub use output_lines::{add_check, add_face, add_lint, add_missing, reason_of};
pub use raw_fault::RawFault;
pub use texts::{Style, is_unshown};
pub use written_path::{KeyFront, Naming, ObjectPath, WrittenPath};
