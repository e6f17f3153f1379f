//! Gives numbers to the texts that dictionaries name as keys, so that keys can be compared as numbers: `lint` compares
//! classes (rule 22), and `upgrade` sorts key lists by ranks. The crate does not walk a whole file: `bplist_lint` and
//! `bplist_cert` do, and `bplist_objects` reads the places of objects.
//!
//! ```
//! let mut named = NamedKeys::new(alloc, frame.objects)?;
//! named.insert(key);                                       // each object that is named as a key
//! let mut places = offsets_of(alloc, &mut source, &frame)?;
//! let mut file = Objects::new(&mut source, frame, &mut places);
//! let classes = classes_of(alloc, &mut file, named)?;
//! let same = classes.table[a] == classes.table[b];         // true if and only if the units are the same
//! ```
//!
//! A key that is not a text has number 0.
//!
//! The modules, in the order in which to read them:
//!
//! | module | what is in it |
//! |---|---|
//! | named_keys | [`NamedKeys`], a mark for each object that is named as a key; [`name_keys`], which sets them; [`count_marked`], [`numbers_of`] |
//! | text | [`object_text`], the head of a key; [`text_order`], the order of two texts |
//! | ranks | [`KeyNumbers`], a number for each key; [`ranks_of`], which gives them in the order of the units |
//! | classes | [`classes_of`], for equality alone: by fingerprints, so that most texts are read only at the front |
//! | class_table | [`ClassTable`], which finds a dictionary's first [`KeyDefect`], a key wrong by rule 21 or 22 |
//! | sorting | the order of texts, by a merge sort |
//! | fronts | the front of a text: some of its first units as one number |
//! | key_texts | how two texts are compared: in memory, where each is read once, or by reading them |
//! | long_texts | [`LongTexts`], ranks of long texts in a table of fixed size |
//! | run_cache | [`RunCache`], what comparisons found of texts that overlap, so that shared units are not read again |
#![tactic(auto)]

mod class_table;
mod classes;
mod fronts;
mod key_texts;
mod long_texts;
mod named_keys;
mod ranks;
mod run_cache;
mod sorting;
mod text;

pub use class_table::{ClassTable, KeyDefect};
pub use classes::classes_of;
pub use long_texts::LongTexts;
pub use named_keys::{NamedKeys, count_marked, name_keys, numbers_of};
pub use ranks::{KeyNumbers, ranks_of};
pub use run_cache::RunCache;
pub use text::{object_text, text_order};
