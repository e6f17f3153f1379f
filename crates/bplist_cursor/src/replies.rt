//! Queries about a value, and the replies to them.
//!
//! A query has a path. A reply to it owns what it shows: the face of a value, the units of keys, or a number of nodes.
//! A face is what a value shows without its members.

ghost use Rattle.std.specs.Prelude.{◌≡◌, List as list};

use crate::node::Why;
use crate::path::Path;
use std::marker::Model;

/// What to ask about the value that a path leads to.
#[derive(Debug, Drop)]
pub enum Query {
    /// Its face.
    Get(Path),
    /// The units of its keys, in written order.
    Keys(Path),
    /// The number of nodes of its tree.
    Size(Path),
}

/// The reply to a query.
#[derive(Debug, Drop)]
pub enum Reply {
    /// To `Get`: the face of the value.
    Face(Face),
    /// To `Keys`: the units of each key of the dictionary, in written order.
    Keys(List<List<u16>>),
    /// To `Keys`: the value is not a dictionary, so it has no keys.
    NoKeys,
    /// To `Size`: the number of nodes of the value's tree, or 18446744073709551615 if it is greater.
    Size(u64),
    /// To any query: the path leads to no value.
    Missing {
        /// The number of the first step that can't be taken, counted from 0.
        step: u64,
        /// Why it can't.
        why: Why,
    },
}

/// The value of a leaf, or the kind and count of a container.
#[derive(Debug, Drop)]
pub enum Face {
    /// Null.
    Null,
    /// A boolean.
    Bool(bool),
    /// The value of an integer.
    Int(i128),
    /// The 4 or 8 bytes of a real, in the order of the file.
    Real(List<u8>),
    /// The 8 bytes of a date, in the order of the file.
    Date(List<u8>),
    /// The bytes of data.
    Bytes(List<u8>),
    /// The 16-bit units of a text.
    Text(List<u16>),
    /// The number of a UID.
    Uid(u32),
    /// The number of members of an array.
    Array(u64),
    /// The number of members of a set.
    Set(u64),
    /// The number of pairs of a dictionary.
    Dict(u64),
}

/// Items in order: a Vec in a type that contracts see as the list of its items. No call takes memory.
#[derive(Debug, Drop)]
pub struct List<T> {
    items: Vec<T>,
}

impl<T> Model for List<T> {
    ghost Value = { list T };

    ghost view = { λ l. l.items.items };
}

impl<T> List<T> {
    /// Returns the list of these items.
    pub fn new(items: Vec<T>) -> List<T>
        ensures { result ≡ items.items }
    {
        List { items }
    }

    /// Returns the items as a slice.
    pub fn as_slice(&self) -> &[T]
        ensures { result.now ≡ self.now }
    {
        &self.items
    }

    /// Returns the Vec that the list was made from.
    pub fn into_vec(self) -> Vec<T>
        ensures { result.items ≡ self }
    {
        self.items
    }
}
