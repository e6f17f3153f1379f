//! Writes values as old-style text, Apple's ASCII form of property lists. Not here: how long a text is and whether a
//! value has one (`measure` of crate `bplist_cursor`), and the buffer in front of a writer (`Sink` of crate
//! `bplist_octets`).
//!
//! ```
//! let measures = measure(alloc, &mut checked)?;
//! match print(alloc, &mut checked, &measures, node, 1_000_000, &mut out) {
//!     Ok(()) => {}                                                 // exactly the text
//!     Err(PrintFault::TooLong) => too_long(),                      // nothing was written
//!     Err(PrintFault::Write { sent }) => cut(sent),                // this many bytes were written
//!     Err(fault) => report(fault),
//! }
//! ```
//!
//! | to do this | call |
//! |---|---|
//! | write the text of a node's value, up to a limit | [`print`], [`PrintFault`] |
//! | the same after other bytes | [`print_into`] |
//! | make the text of units, or of data | [`text_of_units`], [`text_of_bytes`] |
//! | add it to bytes | [`add_text_of_units`], [`add_text_of_bytes`] |
//!
//! `NoAsciiForm` and `TooLong` are decided before the first byte is written. Memory grows with the depth of the value.
//!
//! The modules, in reading order:
//!
//! - `texts`: texts and data as old-style text, in memory.
//! - `printer`: the calls that write a value, their errors, and the styles of texts.
//! - `formless`: the first object that keeps a value from having a text.
//! - `walk`: the walk through a value.
//! - `leaves`: texts and data, part by part.
//! - `output`: writes that are limited by the room left.
#![tactic(auto)]

mod formless;
mod leaves;
mod output;
mod printer;
mod texts;
mod walk;

pub use printer::{PrintFault, print, print_into};
pub use texts::{add_text_of_bytes, add_text_of_units, text_of_bytes, text_of_units};
