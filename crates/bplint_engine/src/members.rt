//! The members of a container: how many there are and of what kind, and one of them as a node or a key.

ghost use Rattle.std.specs.Prelude.{◌≡◌, ◌*◌, ◌^◌, ◌<◌, IfSome, IsTrue, List, MatchOption, Some, ℕ};
ghost use Rattle.bplist_cursor.specs.Causes.{GivesCursor, cursor_read};
ghost use Rattle.bplist_cursor.specs.Found.{IsHeld};
ghost use Rattle.bplint_engine.specs.Prelude.{HasCount, HasRoom, HasMembers, IsHeadFor, IsLeaf, IsSafeHead, OnlyReadsFile, Value};
ghost use Rattle.bplint_engine.specs.Prelude.{face as face_of, leaf, member_of, text};

use bplist_cert::Checked;
use bplist_cursor::{CursorFault, Face, Node, face, member_by_head};
use bplist_objects::{Head, ObjectNo};
use bplist_octets::Source;
use std::alloc::Global;

/// The kind of members that a container has.
#[derive(Clone, Copy, Drop)]
pub(crate) enum Members {
    /// Members of an array; an index is the last step of their path.
    Array,
    /// Members of a set, which have an index but no path.
    Set,
    /// Pairs of a dictionary; the key is the last step of the value's path.
    Dict,
}

/// Returns the kind and number of members that a face shows, in a file of `length` bytes. Returns `None` for a leaf.
pub(crate) fn members_of(shown: &Face, length: u64) -> Option<(Members, u64)>
    requires { HasRoom length shown.now }
    ensures exact { (w : Value) → shown.now ≡ face_of w
        → MatchOption result (IsLeaf w) (λ found. HasMembers found.0 found.1 w) }
    ensures room { IfSome result (λ found. found.0 ≡ Members.Dict → 2 * found.1 < 2 ^ 64) }
{
    match shown {
        Face::Array(count) => Some((Members::Array, *count)),
        Face::Set(count) => Some((Members::Set, *count)),
        Face::Dict(count) => Some((Members::Dict, *count)),
        _ => None,
    }
}

/// Returns the number of members, or of pairs, that a face shows, or `None` for a leaf.
pub(crate) fn count_of(shown: &Face) -> Option<u64>
    ensures { (w : Value) → shown.now ≡ face_of w → MatchOption result (IsLeaf w) (λ count. HasCount count w) }
{
    match shown {
        Face::Array(count) | Face::Set(count) | Face::Dict(count) => Some(*count),
        _ => None,
    }
}

/// Returns the node of member `i` of the object with this head.
pub(crate) fn member_node<S: Source>(
    checked: &mut Checked<S>,
    head: &Head,
    i: u64,
) -> Result<Node, CursorFault>
    requires { IsSafeHead checked.old.frame head.now }
    ensures reads { OnlyReadsFile (cursor_read result) checked.old checked.new }
    ensures exact { IsTrue checked.old.source.honest → (w m : Value) → IsHeadFor checked.old head.now w
        → member_of w i ≡ Some m → GivesCursor (λ node. IsHeld checked.old node.object.0 m) result }
{
    match member_by_head(checked, head, i)? {
        Some(member) => Ok(member),
        None => Err(CursorFault::Changed),
    }
}

/// Returns the units of the text that a node holds.
pub(crate) fn key_text<S: Source>(
    alloc: Global,
    checked: &mut Checked<S>,
    key: Node,
) -> Result<bplist_cursor::List<u16>, CursorFault>
    ensures reads { OnlyReadsFile (cursor_read result) checked.old checked.new }
    ensures exact { IsTrue checked.old.source.honest → (u : List ℕ) → IsHeld checked.old key.object.0 (leaf (text u))
        → GivesCursor (λ units. units ≡ u) result }
{
    match face(alloc, checked, key)? {
        Face::Text(units) => Ok(units),
        _ => Err(CursorFault::Changed),
    }
}

/// Returns the number of the pair that is number `i` of a dictionary's key list, if the certificate has one.
pub(crate) fn listed_pair<S: Source>(checked: &Checked<S>, dict: ObjectNo, i: u64) -> Option<u64> {
    let lists = checked.certificate().keys.as_ref()?;
    let start = *lists.starts.get(dict.0 as usize)? as u64;
    let at = start.checked_add(i)?;
    let number = *lists.positions.get(at as usize)?;
    Some(number as u64)
}
