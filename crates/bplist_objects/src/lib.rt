//! Reads the trailer, the offset table and single objects of a binary property list, and defines the value that a file
//! holds. It does not walk a whole file: `bplist_lint` and `bplist_cert` do, and `bplist_cursor` looks values up.
//!
//! ```
//! let mut source = SliceSource::new(file);
//! let frame = frame_of(&mut source)?;                    // rules 1 to 13
//! let head = head_of(&mut source, &frame, frame.top)?;   // rules 14 to 20
//! if let Kind::Int = head.kind {
//!     let number = int_of(&mut source, &head)?;
//! }
//! ```
//!
//! The modules, in the order in which to read them:
//!
//! | module | what is in it |
//! |---|---|
//! | rule | [`Rule`], the 32 rules of files, certificates and path texts, with their words and numbers |
//! | rule_texts | [`texts_of`], a sentence and an example for each rule |
//! | fault | [`Fault`], a broken rule; [`ObjectFault`], that or a failed read; [`Failure`], a failed read or refused memory |
//! | frame | [`Frame`], the trailer's five numbers: [`trailer_of`] by rules 1 to 12, [`frame_of`] by rules 1 to 13 |
//! | offsets | places of objects: [`offset_of`], [`read_offsets`], [`offsets_of`], and [`check_offsets`] by rule 13; [`Offsets`], a source that gives them; [`object_shape`] |
//! | head | [`Kind`], the kinds of objects; [`Head`], what marker and count say, by rules 14 to 17: [`shape_of`], and [`shape_at`] for a known place |
//! | marker | what the marker alone says: the kind, by rule 15, the count and the size |
//! | body | heads by rules 14 to 20: [`head_of`], [`head_at`]; [`check_body`] |
//! | refs | the references of a container: [`refs_of`], [`ref_at`], [`read_refs`]; [`Head::keys_among`], how many are to keys |
//! | extents | [`Extents`], what objects take together, by rule 31 |
//! | leaf | the values of leaves: [`int_of`], [`uid_of`], [`octets_at`]; the units of texts: [`unit_at`], [`read_units`]; their order: [`key_cmp`] |
//! | unit_blocks | the units of a text, block by block: [`UnitBlocks`] |
//! | objects | [`Objects`], a file that was opened: a source with its frame and its places, which are kept or read in blocks |
//! | framed | [`Framed`], a source that has its frame; the same calls over it, with names that end in `_in`, as [`shape_in`]; [`ref_place`] |
//! | ref_blocks | [`RefBlocks`], the references of an object over a source with a frame, block by block |
//! | numbers | numbers of a source, read block by block |
//! | scan | [`visit_in`], the first look at an object, which finds a [`Visit`] and is enough for most leaves; [`first_high_in`], a search of a text |
//! | laws, leaf_laws | what the definitions imply, as contracts of functions that do nothing |
//!
//! The laws tie the definitions to each other: an object has at most one head, one content and one value
//! (`one_announced_head`, `one_head`, `one_value`). Rules 14 to 17 are kept if and only if there is a head
//! (`kept_iff_head`). There is only one first fault (`one_first_fault`).
#![tactic(auto)]

mod body;
mod extents;
mod fault;
mod frame;
mod framed;
mod head;
mod laws;
mod leaf;
mod leaf_laws;
mod marker;
mod numbers;
mod objects;
mod offsets;
mod ref_blocks;
mod refs;
mod rule;
mod rule_texts;
mod scan;
mod unit_blocks;

pub use body::{check_body, head_at, head_of};
pub use extents::Extents;
pub use fault::{Failure, Fault, ObjectFault};
pub use frame::{Frame, ObjectNo, frame_of, trailer_of};
pub use framed::{Framed, head_in, read_offsets_in, read_refs_in, ref_place, shape_in};
pub use head::{Head, Kind, kind_name, shape_at, shape_of};
pub use laws::{
    fault_excludes, founded_has_no_circle, keeps_iff_frame, keeps_iff_spells, kept_iff_head,
    kept_is_not_broken, kept_or_fault, one_announced_head, one_first_fault, one_head, one_shape,
    one_value, one_value_of_file, references_by_index, references_fit, rows_hold,
};
pub use leaf::{int_of, key_cmp, octets_at, read_units, uid_of, unit_at};
pub use leaf_laws::{leaves_by_parts, units_are_ordered};
pub use objects::Objects;
pub use offsets::{Offsets, check_offsets, object_shape, offset_of, offsets_of, read_offsets};
pub use ref_blocks::RefBlocks;
pub use refs::{read_refs, ref_at, refs_of};
pub use rule::{Rule, rule_name, rule_number, rule_of_number};
pub use rule_texts::texts_of;
pub use scan::{Visit, first_high_in, visit_in};
pub use unit_blocks::UnitBlocks;
