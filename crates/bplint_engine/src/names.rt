//! The names of nodes in a walk, in one buffer that names share.

ghost use Rattle.std.specs.Prelude.{◌≡◌, ◌↔◌, IfOk, IsTrue, Some, length, slice_get};
ghost use Rattle.bplint_lines.specs.MemberNames.{bracketed, index_name, key_name};
ghost use Rattle.bplint_engine.specs.Names.{Extends, IsNameIn, name_in};

use bplint_lines::{Pair, Style, add_index, add_index_name, add_key_name, add_whole_key_name};
use bplist_cursor::Node;
use std::alloc::{AllocError, Global};
use std::marker::Model;

/// The name of a node: a path, or the path from the innermost member around the node that has none.
#[derive(Clone, Copy, Drop)]
pub(crate) struct Name {
    /// The place of its first byte in the buffer.
    start: usize,
    /// The place of the first byte of the part that names the node in its container.
    own: usize,
    /// The place after its last byte.
    end: usize,
    /// The index of that member, if the text of the name does not have it.
    pub index: Option<u64>,
    /// The key of that member, if it has one and the text of the name does not have it.
    pub key: Option<Node>,
}

/// The names of a node and of the containers that it is in, the outermost first. The name of a member either extends
/// the name of its container, or begins after it. In contracts, a `Names` is its bytes.
#[derive(Drop)]
pub(crate) struct Names {
    text: Vec<u8>,
}

impl Model for Names {
    ghost use Rattle.std.specs.Prelude.{ℕ, List};

    ghost Value = { List ℕ };

    ghost view = { λ names. names.text.items };
}

impl Names {
    /// A buffer with one name.
    pub(crate) fn new(alloc: Global, top: &str) -> Result<Names, AllocError>
        ensures { IfOk result (λ names. names ≡ top.now) }
    {
        Ok(Names {
            text: Vec::from_slice(alloc, top.as_bytes())?,
        })
    }

    /// Returns the whole buffer as one name.
    pub(crate) fn whole(&self) -> Name
        ensures { IsNameIn self.now result × (name_in self.now result ≡ self.now) × (result.«end» ≡ length self.now) }
    {
        Name {
            start: 0,
            own: 0,
            end: self.text.len(),
            index: None,
            key: None,
        }
    }

    /// Returns the bytes of a name.
    pub(crate) fn get(&self, name: Name) -> &[u8]
        requires { IsNameIn self.now name }
        ensures { result.now ≡ name_in self.now name }
    {
        &self.text[name.start..name.end]
    }

    /// Returns the part of a name that names the node in its container.
    pub(crate) fn own(&self, name: Name) -> &[u8] {
        self.text.get(name.own..name.end).unwrap_or(&[])
    }

    /// Appends the name of member `i` to the name of its array. Drops what followed that name before.
    pub(crate) fn push_index(
        &mut self,
        alloc: Global,
        array: Name,
        i: u64,
    ) -> Result<Name, AllocError>
        requires { IsNameIn self.old array }
        ensures { IfOk result (λ name. Extends self.old self.new array name
            × (name_in self.new name ≡ index_name (name_in self.old array) i)) }
    {
        self.text.truncate(array.end);
        add_index_name(alloc, "", i, &mut self.text)?;
        Ok(Name {
            own: array.end,
            end: self.text.len(),
            ..array
        })
    }

    /// Appends the name of member `i` after the name of its set. Drops what followed that name before.
    pub(crate) fn push_place(
        &mut self,
        alloc: Global,
        set: Name,
        i: u64,
    ) -> Result<Name, AllocError>
        requires { IsNameIn self.old set }
        ensures { IfOk result (λ name. Extends self.old self.new set name × (name_in self.new name ≡ bracketed i)) }
    {
        self.text.truncate(set.end);
        add_index(alloc, i, &mut self.text)?;
        Ok(Name {
            start: set.end,
            own: set.end,
            end: self.text.len(),
            ..set
        })
    }

    /// Appends the name of the value of a pair of the dictionary with this name. Drops what followed that name before.
    pub(crate) fn push_key(
        &mut self,
        alloc: Global,
        style: Style,
        dict: Name,
        pair: &Pair<'_>,
    ) -> Result<Name, AllocError>
        requires { IsNameIn self.old dict }
        ensures { IfOk result (λ name. Extends self.old self.new dict name
            × (name_in self.new name ≡ key_name style (name_in self.old dict) pair.now.number pair.now.key.now)) }
    {
        self.text.truncate(dict.end);
        add_key_name(alloc, style, "", pair, &mut self.text)?;
        if stands_alone(&self.text[dict.end..]) {
            return Ok(Name {
                start: dict.end,
                own: dict.end,
                end: self.text.len(),
                ..dict
            });
        }
        Ok(Name {
            own: dict.end,
            end: self.text.len(),
            ..dict
        })
    }

    /// The same with the whole key, which is that of node `key`. The text has no key with half of a surrogate pair.
    pub(crate) fn push_whole_key(
        &mut self,
        alloc: Global,
        dict: Name,
        pair: &Pair<'_>,
        key: Node,
    ) -> Result<Name, AllocError>
        requires { IsNameIn self.old dict }
        ensures { IfOk result (λ name. Extends self.old self.new dict name) }
    {
        let mut token = Vec::new(alloc);
        if !add_whole_key_name(alloc, pair.key, &mut token)? {
            return Ok(self.hide(dict, pair.number, Some(key)));
        }
        self.text.truncate(dict.end);
        self.text.extend_from_slice(&token)?;
        Ok(Name {
            own: dict.end,
            end: self.text.len(),
            ..dict
        })
    }

    /// Returns the name of member `i` of a container, of which the text has nothing. Drops what followed the
    /// container's name before.
    pub(crate) fn hide(&mut self, container: Name, i: u64, key: Option<Node>) -> Name
        requires { IsNameIn self.old container }
        ensures { Extends self.old self.new container result }
    {
        self.text.truncate(container.end);
        Name {
            start: container.end,
            own: container.end,
            end: container.end,
            index: Some(i),
            key,
        }
    }
}

/// A name that begins with an index in brackets does not extend the name before it.
fn stands_alone(added: &[u8]) -> bool
    ensures { IsTrue result ↔ (slice_get added.now 0 ≡ Some 0x5B) }
{
    matches!(added.first(), Some(b'['))
}
