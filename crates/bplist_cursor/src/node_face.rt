//! The face of a value: what a value shows without its members.
//!
//! A face owns what it shows, so the body of a leaf is read into a [`List`].

ghost use Rattle.std.specs.Prelude.{◌≡◌, ◌≢◌, ◌+◌, ◌*◌, ◌≤◌, ℕ, IfOk, IfErr, length, Err};
ghost use Rattle.bplist_cursor.specs.Prelude.{part, HonestlyChecked, HonestlyAt, VouchesFor, Value, item_size, Content};
ghost use Rattle.bplist_cursor.specs.Prelude.{Spells, content_at, Holds, IsLeafKind, IsSafeHead, IsSafeBody, IsSafeText};
ghost use Rattle.bplist_cursor.specs.Prelude.{GivesCursor, cursor_read, OnlyReadsFile, face as face_of, content_face};
ghost use Rattle.bplist_cursor.specs.Prelude.{HasRoom, count_bytes, face_bytes};
ghost use Rattle.bplist_objects.specs.Units.{units_of};
ghost use Rattle.bplist_cursor.specs.declared.faults.CursorFault.TheVariants.{Changed};

use crate::bodies::{body_bytes, body_units, node_head};
use crate::faults::CursorFault;
use crate::node::Node;
use crate::replies::{Face, List};
use bplist_cert::Checked;
use bplist_objects::{Head, Kind, int_of, uid_of};
use bplist_octets::Source;
use std::alloc::Global;

fn leaf_bytes<S: Source>(
    alloc: Global,
    checked: &mut Checked<S>,
    head: &Head,
) -> Result<List<u8>, CursorFault>
    requires kind { IsLeafKind head.now.kind }
    requires one { item_size 1 head.now.kind ≡ 1 }
    requires head { IsSafeBody (length checked.old.source.octets) head.now }
    ensures reads { OnlyReadsFile (cursor_read result) checked.old checked.new }
    ensures asks { checked.new.asked ≤ checked.old.asked + head.now.count }
    ensures value { GivesCursor (λ bytes. HonestlyChecked checked.old
        (λ f _. bytes ≡ part f head.now.body head.now.count)) result }
{
    let mut bytes = vec![in alloc; 0u8; head.count as usize]?;
    body_bytes(checked, head, 0, &mut bytes)?;
    Ok(List::new(bytes))
}

pub(crate) fn text_units<S: Source>(
    alloc: Global,
    checked: &mut Checked<S>,
    head: &Head,
) -> Result<List<u16>, CursorFault>
    requires text { IsSafeText (length checked.old.source.octets) head.now }
    ensures reads { OnlyReadsFile (cursor_read result) checked.old checked.new }
    ensures asks { checked.new.asked ≤ checked.old.asked + 2 * head.now.count }
    ensures value { GivesCursor (λ units. HonestlyChecked checked.old (λ f _. units ≡ units_of f head.now)) result }
{
    let mut units = vec![in alloc; 0u16; head.count as usize]?;
    body_units(checked, head, 0, &mut units)?;
    Ok(List::new(units))
}

fn face_by_head<S: Source>(
    alloc: Global,
    checked: &mut Checked<S>,
    head: &Head,
) -> Result<Face, CursorFault>
    requires head { IsSafeHead checked.old.frame head.now }
    requires body { IsSafeBody (length checked.old.source.octets) head.now }
    ensures reads { OnlyReadsFile (cursor_read result) checked.old checked.new }
    ensures asks { checked.new.asked ≤ checked.old.asked + count_bytes head.now.kind head.now.count }
    ensures content { HonestlyChecked checked.old (λ f F. (n : ℕ) → Spells f F n (content_at f F head.now)
        → GivesCursor (λ shown. shown ≡ content_face (content_at f F head.now)) result) }
    ensures room { IfOk result (HasRoom (length checked.old.source.octets)) }
{
    let _frame = checked.frame();
    match head.kind {
        Kind::Null => Ok(Face::Null),
        Kind::False => Ok(Face::Bool(false)),
        Kind::True => Ok(Face::Bool(true)),
        Kind::Int => Ok(Face::Int(int_of(checked, head)?)),
        Kind::Real => Ok(Face::Real(leaf_bytes(alloc, checked, head)?)),
        Kind::Date => Ok(Face::Date(leaf_bytes(alloc, checked, head)?)),
        Kind::Bytes => Ok(Face::Bytes(leaf_bytes(alloc, checked, head)?)),
        Kind::Ascii | Kind::Wide => Ok(Face::Text(text_units(alloc, checked, head)?)),
        Kind::Uid => Ok(Face::Uid(uid_of(checked, head)?)),
        Kind::Array => Ok(Face::Array(head.count)),
        Kind::Set => Ok(Face::Set(head.count)),
        Kind::Dict => Ok(Face::Dict(head.count)),
    }
}

/// Returns the face of the value that a node's object holds: a leaf's value, or a container's kind and count.
///
/// The body of a leaf is read into one Vec of exactly its count. A count is safe to use for an allocation: over any
/// source, honest or not, each reference that it counts takes at least one byte of the source.
///
/// Errors: `Changed` if the certificate does not vouch for the object, or the source gives other bytes than those that
/// were checked; `Read` if a read of the source failed; `Memory` if the allocation of that Vec was refused. After an
/// error the `Checked` is as before, except for what its source says of failed reads.
pub fn face<S: Source>(
    alloc: Global,
    checked: &mut Checked<S>,
    node: Node,
) -> Result<Face, CursorFault>
    ensures reads { OnlyReadsFile (cursor_read result) checked.old checked.new }
    ensures asks { HonestlyAt checked.old node.object.0 (λ f F n. (v : Value) → Holds f F n v
        → checked.new.asked ≤ checked.old.asked + face_bytes v) }
    ensures value { HonestlyAt checked.old node.object.0 (λ f F n. (v : Value) → Holds f F n v
        → GivesCursor (λ shown. shown ≡ face_of v) result) }
    ensures content { HonestlyAt checked.old node.object.0 (λ f F n. (content : Content) → Spells f F n content
        → GivesCursor (λ shown. shown ≡ content_face content) result) }
    ensures unchanged { HonestlyAt checked.old node.object.0 (λ _ _ _. IfErr result (λ fault. fault ≢ Changed)) }
    ensures unvouched { (VouchesFor checked.old node.object.0 → ⊥) → result ≡ Err Changed }
    ensures room { IfOk result (HasRoom (length checked.old.source.octets)) }
{
    let _frame = checked.frame();
    let head = node_head(checked, node)?;
    face_by_head(alloc, checked, &head)
}
