//! Sizes of values: how many nodes a value has, whether it can be written as old-style text, and how long that text is.
//!
//! `measure` finds the sizes of all values of a checked file in one pass over its objects, each after those to which it
//! refers, so a value in many places is measured once. Texts are read in blocks, and never into memory as a whole.

ghost use Rattle.std.specs.Prelude.{◌≡◌, ◌≤◌, ◌+◌, ◌*◌, length, flat_map, ◌<◌, ℕ, Option, Some, List};
ghost use Rattle.bplist_cursor.specs.Prelude.{joined, HonestlyChecked, IsSafeBody, IsSafeText, GivesRead, read_failed};
ghost use Rattle.bplist_cursor.specs.Prelude.{OnlyReadsFile, cap, Value, Leaf, Content, Spells, leaf, refs, content_at};
ghost use Rattle.bplist_cursor.specs.Prelude.{Holds, IsSafeHead, IsValid, GivesCursor, cursor_read, leaf_text};
ghost use Rattle.bplist_cursor.specs.Prelude.{form_of_text, size_of, added, IsSized, AreMeasures};
ghost use Rattle.bplist_cursor.specs.Prelude.{TakeOctets, Takes, item_size, pass_bytes, ref_count};
ghost use Rattle.bplist_cursor.specs.Prelude.{punctuation_of, AreInside, IsOrder, IsEmpty, AreSet, Size as size};
ghost use Rattle.bplist_cursor.specs.Sizes.{both, nodes_in, form_in};
ghost use Rattle.std.specs.Char.{is_ascii_alphanumeric};
ghost use Rattle.std.specs.List.{list_all, AllByRecursion};
ghost use Rattle.bplist_objects.specs.Units.{units_of};
ghost use Rattle.bplist_cursor.specs.Texts as texts;

use crate::faults::{CursorFault, Unread};
use crate::node::checked_head;
use crate::node_counts::in_order;
use bplist_cert::Checked;
use bplist_objects::{Head, Kind, ObjectNo, RefBlocks, UnitBlocks};
use bplist_octets::{Source, entry_or};
use std::alloc::Global;
use std::marker::Model;

/// Whether a value can be written as old-style text, and how long that text is.
#[derive(Clone, Copy, Debug, PartialEq, Eq)]
pub enum Form {
    /// The value or a part of it cannot be written as old-style text.
    NoForm,
    /// The length of the text in bytes, or 18446744073709551615 if it is greater.
    Length(u64),
}

impl Form {
    /// Returns the form of two texts written one after the other.
    pub(crate) fn and(self, other: Form) -> Form
        ensures { result ≡ joined self other }
    {
        match (self, other) {
            (Form::Length(a), Form::Length(b)) => Form::Length(a.saturating_add(b)),
            _ => Form::NoForm,
        }
    }
}

/// How many nodes a value's tree has, and how long its text is.
#[derive(Clone, Copy, Debug)]
pub(crate) struct Size {
    /// The number of nodes, or 18446744073709551615 if it is greater.
    pub(crate) nodes: u64,
    pub(crate) form: Form,
}

impl Size {
    pub(crate) fn and(self, other: Size) -> Size
        ensures { result ≡ both self other }
    {
        Size {
            nodes: self.nodes.saturating_add(other.nodes),
            form: self.form.and(other.form),
        }
    }
}

/// The sizes of the values that the objects of a checked file hold. [`crate::measure`] makes it.
///
/// Contracts see a table by the number of the object, which [`Measures::nodes`] and [`Measures::form`] read.
#[derive(Debug, Drop)]
pub struct Measures {
    sizes: Vec<Option<Size>>,
}

impl Model for Measures {
    ghost use Rattle.bplist_cursor.specs.Sizes.{Table};

    ghost Value = { Table };

    ghost view = { λ m. m.sizes.items };
}

impl Measures {
    pub(crate) fn new(sizes: Vec<Option<Size>>) -> Measures
        ensures { result ≡ sizes.items }
    {
        Measures { sizes }
    }

    /// Returns the number of nodes of the value of object `n`, or 18446744073709551615 if it is greater. Returns None
    /// if the certificate does not vouch for the object.
    pub fn nodes(&self, n: ObjectNo) -> Option<u64>
        ensures { result ≡ nodes_in self.now n.0 }
    {
        match self.sizes.get(n.0 as usize) {
            Some(Some(size)) => Some(size.nodes),
            _ => None,
        }
    }

    /// Returns whether the value of object `n` can be written as old-style text, and how long that text is. Returns
    /// None if the certificate does not vouch for the object.
    pub fn form(&self, n: ObjectNo) -> Option<Form>
        ensures { result ≡ form_in self.now n.0 }
    {
        match self.sizes.get(n.0 as usize) {
            Some(Some(size)) => Some(size.form),
            _ => None,
        }
    }
}

/// Returns whether this 16-bit unit is an ASCII letter or digit: one of A-Z, a-z and 0-9.
pub fn is_plain(unit: u16) -> bool
    ensures { result ≡ is_ascii_alphanumeric unit }
{
    matches!(unit, 0x30..=0x39 | 0x41..=0x5A | 0x61..=0x7A)
}

/// Returns whether all these 16-bit units are ASCII letters and digits. A non-empty text of such units needs no quotes
/// in old-style text.
pub fn are_plain(units: &[u16]) -> bool
    ensures { result ≡ list_all is_ascii_alphanumeric units.now }
{
    units.iter().all(|unit| is_plain(*unit))
}

/// `\"`, `\\` and `\n` take two bytes, `\U` and four digits take six.
#[tactic(auto, unfolding(hex::specs::Hex::encode_with))]
fn quoted_unit_length(unit: u16) -> u64
    ensures { result ≡ length (texts.quoted_unit unit) }
{
    match unit {
        0x22 | 0x5C | 0x0A => 2,
        0x20..=0x7E => 1,
        _ => 6,
    }
}

#[tactic(auto, unfolding(hex::specs::Hex::encode_with))]
fn quoted_length(units: &[u16]) -> u64
    requires { length units.now ≤ 128 }
    ensures { result ≡ length (flat_map texts.quoted_unit units.now) }
{
    let mut sum = 0;
    for unit in units {
        sum += quoted_unit_length(*unit);
    }
    sum
}

pub(crate) fn text_length<S: Source>(checked: &mut Checked<S>, head: &Head) -> Result<u64, Unread>
    requires text { IsSafeText (length checked.old.source.octets) head.now }
    ensures reads { OnlyReadsFile (read_failed result) checked.old checked.new }
    ensures asks { checked.new.asked ≤ checked.old.asked + head.now.count * item_size 1 head.now.kind }
    ensures exact { GivesRead (λ n. HonestlyChecked checked.old
        (λ f _. n ≡ cap (length (texts.text_of_units (units_of f head.now))))) result }
{
    let mut units = UnitBlocks::of(head);
    let mut plain = true;
    let mut quoted = 2u64;
    while units.read(checked)? {
        let block = units.block();
        plain &= are_plain(block);
        quoted = quoted.saturating_add(quoted_length(block));
    }
    Ok(if plain && head.count > 0 {
        head.count
    } else {
        quoted
    })
}

/// Returns None if the table lacks one of the objects.
fn add_sizes(sizes: &[Option<Size>], refs: &[u64], start: Size) -> Option<Size>
    ensures { result ≡ added sizes.now start refs.now }
{
    let mut total = start;
    for m in refs {
        total = total.and(entry_or(sizes, *m, None)?);
    }
    Some(total)
}

/// Returns `Changed` if the table lacks one of the objects.
fn add_refs<S: Source>(
    checked: &mut Checked<S>,
    head: &Head,
    sizes: &[Option<Size>],
    start: Size,
) -> Result<Size, Unread>
    requires { IsSafeHead checked.old.frame head.now }
    ensures reads { OnlyReadsFile (read_failed result) checked.old checked.new }
    ensures asks { checked.new.asked ≤ checked.old.asked + ref_count head.now.kind head.now.count * checked.old.frame.ref_size }
    ensures exact { HonestlyChecked checked.old (λ f F. (whole : size)
        → added sizes.now start (refs (content_at f F head.now)) ≡ Some whole → GivesRead (λ s. s ≡ whole) result) }
{
    let mut refs = RefBlocks::of(checked, head);
    let mut total = start;
    while refs.read(checked)? {
        let Some(more) = add_sizes(sizes, refs.block(), total) else {
            return Err(Unread::Changed);
        };
        total = more;
    }
    Ok(total)
}

/// A set has no old-style text.
fn punctuation(head: &Head) -> Form
    ensures { result ≡ punctuation_of head.now.kind head.now.count }
{
    match head.kind {
        Kind::Array => Form::Length(head.count.max(1).saturating_add(1)),
        Kind::Dict => Form::Length(head.count.saturating_mul(2).saturating_add(2)),
        _ => Form::NoForm,
    }
}

fn leaf_form<S: Source>(checked: &mut Checked<S>, head: &Head) -> Result<Form, Unread>
    requires { IsSafeBody (length checked.old.source.octets) head.now }
    ensures reads { OnlyReadsFile (read_failed result) checked.old checked.new }
    ensures asks { checked.new.asked ≤ checked.old.asked + head.now.count * item_size 1 head.now.kind }
    ensures exact { GivesRead (λ form. HonestlyChecked checked.old (λ f F. (l : Leaf) → leaf l ≡ content_at f F head.now
        → form ≡ form_of_text (leaf_text l))) result }
{
    match head.kind {
        Kind::Ascii | Kind::Wide => Ok(Form::Length(text_length(checked, head)?)),
        Kind::Bytes => Ok(Form::Length(head.count.saturating_mul(2).saturating_add(2))),
        _ => Ok(Form::NoForm),
    }
}

/// The table must already have the sizes of the objects to which this one refers.
fn size_of_object<S: Source>(
    checked: &mut Checked<S>,
    n: ObjectNo,
    sizes: &[Option<Size>],
) -> Result<Size, Unread>
    requires { n.0 < checked.old.frame.objects }
    ensures reads { OnlyReadsFile (read_failed result) checked.old checked.new }
    ensures asks { HonestlyChecked checked.old (λ f F. (e : ℕ) → Takes f F n.0 e → checked.new.asked ≤ checked.old.asked + (28 + e)) }
    ensures exact { HonestlyChecked checked.old (λ f F. (v : Value) → Holds f F n.0 v
        → ((c : Content) → Spells f F n.0 c → AllByRecursion (IsSized f F sizes.now) (refs c))
        → GivesRead (λ s. s ≡ size_of v) result) }
{
    let head = checked_head(checked, n)?;
    match head.kind {
        Kind::Array | Kind::Set | Kind::Dict => {
            let start = Size {
                nodes: 1,
                form: punctuation(&head),
            };
            add_refs(checked, &head, sizes, start)
        }
        _ => {
            let form = leaf_form(checked, &head)?;
            Ok(Size { nodes: 1, form })
        }
    }
}

/// Each object must come after those to which it refers.
fn measure_in_order<S: Source>(
    checked: &mut Checked<S>,
    order: &[u32],
    sizes: &mut [Option<Size>],
) -> Result<(), Unread>
    requires inside { AreInside order.now checked.old.frame.objects }
    requires count { length sizes.old ≡ checked.old.frame.objects }
    ensures reads { OnlyReadsFile (read_failed result) checked.old checked.new }
    ensures asks { HonestlyChecked checked.old (λ f F. (t : ℕ) → TakeOctets f F order.now t
        → checked.new.asked ≤ checked.old.asked + (28 * length order.now + t)) }
    ensures exact { HonestlyChecked checked.old (λ f F. (heights : List ℕ) → IsValid f F heights → IsOrder heights 0 order.now
        → IsEmpty sizes.old → GivesRead (λ _. AreSet f F heights order.now (length order.now) sizes.new) result) }
{
    for n in order {
        let size = size_of_object(checked, ObjectNo(*n), sizes)?;
        sizes[*n as usize] = Some(size);
    }
    Ok(())
}

/// Returns the sizes of the values of all objects that the certificate vouches for: how many nodes each has, and how
/// long its old-style text is.
///
/// Each object is measured once, after those that it refers to, so shared objects cost no more than others. The call
/// takes memory in proportion to the number of objects. Errors: `Read` if a read of the source failed; `Memory` if an
/// allocation was refused; `Changed` if an object is not what the check found, which never happens while the source is
/// honest.
pub fn measure<S: Source>(alloc: Global, checked: &mut Checked<S>) -> Result<Measures, CursorFault>
    ensures reads { OnlyReadsFile (cursor_read result) checked.old checked.new }
    ensures asks { HonestlyChecked checked.old (λ f F. checked.new.asked ≤ checked.old.asked + pass_bytes F) }
    ensures exact { HonestlyChecked checked.old
        (λ f F. GivesCursor (AreMeasures f F checked.old.certificate.heights) result) }
{
    let objects = checked.frame().objects;
    let order = in_order(alloc, checked, 0)?;
    let mut sizes = vec![in alloc; None; objects as usize]?;
    measure_in_order(checked, &order, &mut sizes)?;
    Ok(Measures::new(sizes))
}
