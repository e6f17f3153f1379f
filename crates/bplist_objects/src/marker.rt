//! What the marker, an object's first byte, says: the kind by rule 15, the count, and the size of most leaves.

ghost use Rattle.std.specs.Prelude.{◌≡◌, ◌≤◌, ◌+◌, ◌^◌, MatchOption, IfSome, ℕ, List, true, slice_index};
ghost use Rattle.bplist_objects.specs.Prelude.{IsMarker, Marks, item_size, markers_of, is_counted, IsLongOf, Announces};
ghost use Rattle.bplist_objects.specs.Prelude.{MarkersCount, size_said};

use crate::head::Kind;

#[tactic(auto, using(crate::proofs::HeadLaws::marker_marks))]
pub(crate) fn kind_of(marker: u8) -> Option<Kind>
    ensures { MatchOption result (IsMarker marker → ⊥) (Marks marker) }
{
    // The high half first: most kinds have halves of their own, so one jump decides.
    match marker / 16 {
        0x0 => match marker {
            0x00 => Some(Kind::Null),
            0x08 => Some(Kind::False),
            0x09 => Some(Kind::True),
            _ => None,
        },
        0x1 if marker <= 0x14 => Some(Kind::Int),
        0x2 if marker == 0x22 || marker == 0x23 => Some(Kind::Real),
        0x3 if marker == 0x33 => Some(Kind::Date),
        0x4 => Some(Kind::Bytes),
        0x5 => Some(Kind::Ascii),
        0x6 => Some(Kind::Wide),
        0x8 => Some(Kind::Uid),
        0xa => Some(Kind::Array),
        0xc => Some(Kind::Set),
        0xd => Some(Kind::Dict),
        _ => None,
    }
}

#[inline(always)]
pub(crate) fn item_size(kind: Kind, ref_size: u8) -> u8
    requires { ref_size ≤ 8 }
    ensures { result ≡ item_size ref_size kind }
{
    match kind {
        Kind::Wide => 2,
        Kind::Array | Kind::Set => ref_size,
        Kind::Dict => 2 * ref_size,
        _ => 1,
    }
}

pub(crate) fn power_of_2(w: u8) -> u8
    requires { w ≤ 4 }
    ensures { result ≡ 2 ^ w }
{
    match w {
        0 => 1,
        1 => 2,
        2 => 4,
        3 => 8,
        _ => 16,
    }
}

/// Returns None if the count follows the marker.
#[inline(always)]
pub(crate) fn short_count(kind: Kind, marker: u8) -> Option<u8>
    requires marks { Marks marker kind }
    ensures found { MatchOption result
        (IsLongOf (markers_of kind) marker × (is_counted (markers_of kind) ≡ true))
        (λ count. (f : List ℕ) (place : ℕ) → slice_index f place ≡ marker → Announces f place kind count (place + 1)) }
    ensures may { IfSome result (MarkersCount (markers_of kind)) }
{
    match kind {
        Kind::Bytes | Kind::Ascii | Kind::Wide | Kind::Array | Kind::Set | Kind::Dict => {
            let low = marker % 16;
            if low == 15 { None } else { Some(low) }
        }
        Kind::Int => Some(power_of_2(marker - 0x10)),
        Kind::Real => Some(power_of_2(marker - 0x20)),
        Kind::Date => Some(8),
        Kind::Uid => Some(marker - 0x7f),
        _ => Some(0),
    }
}

/// For each marker, the size in bytes of an object that begins with it, if the marker gives the size and no rule is
/// about the body, and 0 otherwise. Each row has the markers of one high half. The last has those of the high halves
/// from 7 on.
static SIZES: [u8; 256] = [
    // Null, False and True.
    1, 0, 0, 0, 0, 0, 0, 0, 1, 1, 0, 0, 0, 0, 0, 0,
    // Int.
    2, 3, 5, 9, 17, 0, 0, 0, 0, 0, 0, 0, 0, 0, 0, 0,
    // Real.
    0, 0, 5, 9, 0, 0, 0, 0, 0, 0, 0, 0, 0, 0, 0, 0,
    // Date.
    0, 0, 0, 9, 0, 0, 0, 0, 0, 0, 0, 0, 0, 0, 0, 0,
    // Bytes. If the low half is 15, the count follows the marker.
    1, 2, 3, 4, 5, 6, 7, 8, 9, 10, 11, 12, 13, 14, 15, 0,
    // Ascii: rule 18 is about its body.
    0, 0, 0, 0, 0, 0, 0, 0, 0, 0, 0, 0, 0, 0, 0, 0,
    // Wide.
    1, 3, 5, 7, 9, 11, 13, 15, 17, 19, 21, 23, 25, 27, 29, 0,
    // No kind, or Uid, Array, Set and Dict: rules 19 and 20 are about their bodies.
    0, 0, 0, 0, 0, 0, 0, 0, 0, 0, 0, 0, 0, 0, 0, 0, 0, 0, 0, 0, 0, 0, 0, 0, 0, 0, 0, 0, 0, 0, 0, 0,
    0, 0, 0, 0, 0, 0, 0, 0, 0, 0, 0, 0, 0, 0, 0, 0, 0, 0, 0, 0, 0, 0, 0, 0, 0, 0, 0, 0, 0, 0, 0, 0,
    0, 0, 0, 0, 0, 0, 0, 0, 0, 0, 0, 0, 0, 0, 0, 0, 0, 0, 0, 0, 0, 0, 0, 0, 0, 0, 0, 0, 0, 0, 0, 0,
    0, 0, 0, 0, 0, 0, 0, 0, 0, 0, 0, 0, 0, 0, 0, 0, 0, 0, 0, 0, 0, 0, 0, 0, 0, 0, 0, 0, 0, 0, 0, 0,
    0, 0, 0, 0, 0, 0, 0, 0, 0, 0, 0, 0, 0, 0, 0, 0,
];

/// The size is in bytes. Returns None if the marker does not give it, or a rule is about the body.
#[inline(always)]
pub(crate) fn size_said(marker: u8) -> Option<u8>
    ensures { result ≡ size_said marker }
{
    let size = SIZES[marker as usize];
    if size == 0 { None } else { Some(size) }
}
