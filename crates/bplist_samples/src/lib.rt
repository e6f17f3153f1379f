//! Samples that bplint_tests and bplist_calls share: small files, calls with their answers as text, and sources and
//! writers that fail. It is not part of the library: its functions are proved to be safe and to end, and only its
//! sources have contracts.
//!
//! ```
//! for row in tested_rows(alloc)? {
//!     let mut checked = row.checked(alloc, SliceSource::new(&row.octets))?;
//!     for call in all_calls(alloc)? {
//!         let answer = call.answer_text(alloc, &mut checked)?;
//!     }
//! }
//! ```
//!
//! | what | items |
//! |---|---|
//! | small files as bytes | [`SMALLEST_FILE`], [`TWO_TRUES`], [`A_TO_ONE`], [`THREE_KEYS`], [`small`] |
//! | dictionaries with and without a text | [`PRINTABLE_DICT`], [`UNPRINTABLE_DICT`] |
//! | a file whose tree is too large to walk | [`doubling`] |
//! | files with their certificates | [`Row`], [`tested_rows`], [`thousand_keys`] |
//! | a call of each kind, with its answer as text | [`Call`], [`all_calls`], [`checked_text`] |
//! | a source with one read that fails, with any fault | [`FailingSource`], [`FailingRead`], [`READ_FAULTS`] |
//! | a writer with little room, or with writes that fail at first | [`ShortWriter`], [`Trouble`] |
//!
//! The modules, in reading order: `files` (bytes of files), `rows` (files with certificates), `calls` (calls and their
//! answers), `failing` (a source), `writers`.
#![tactic(auto)]

mod calls;
mod failing;
mod files;
mod rows;
mod writers;

pub use calls::{Call, all_calls, checked_text};
pub use failing::{FailingRead, FailingSource, READ_FAULTS};
pub use files::{
    A_TO_ONE, PRINTABLE_DICT, Parts, SMALLEST_FILE, THREE_KEYS, TWO_TRUES, UNPRINTABLE_DICT,
    doubling, small,
};
pub use rows::{Row, tested_rows, thousand_keys};
pub use writers::{ShortWriter, Trouble};
