//! What a file looks like that is not a sound binary property list: another form, or a sound file that was damaged in
//! one of the usual ways.
//!
//! ```
//! if let Some(hint) = hint_of(&mut source)? {
//!     let words = hint.words(alloc)?;              // `2 bytes too many after a trailer at 289`
//! }
//! ```
//!
//! A hint is a guess from a few bytes. A contract says that the call only reads; tests say which file gets which hint.
//!
//! The modules, in the order in which to read them:
//!
//! - `hint`: [`Hint`], a [`Form`] or a [`Damage`]; its words; [`Hint::is_other_form`], [`Hint::is_blank`].
//! - `look`: [`hint_of`], which reads beginning and end of a file.
//! - `form`: hints for a file that does not begin with `bplist00`.
//! - `damage`: hints for a file that begins with `bplist00`.
//! - `ending`: the numbers of the last 32 bytes, and the search for a trailer.
#![tactic(auto)]

mod damage;
mod ending;
mod form;
mod hint;
mod look;

pub use hint::{Damage, Form, Hint};
pub use look::hint_of;
