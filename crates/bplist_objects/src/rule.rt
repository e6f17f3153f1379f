//! Rules 1 to 32 of files, certificates and path texts, with their words and numbers.

ghost use Rattle.std.specs.Prelude.{◌≡◌, ◌⊎◌, ◌<◌, MatchOption, Some};
ghost use Rattle.bplist_objects.specs.Prelude.{number_of, word_of};

use std::fmt;

/// A rule of a file, a certificate or a path text. The number of a variant is the number of the rule. Its line repeats
/// the number, and says when the rule is broken.
#[derive(Clone, Copy, Debug, PartialEq, Eq, Drop)]
pub enum Rule {
    /// 1: the file has more than 4294967295 bytes.
    TooLarge = 1,
    /// 2: the file has fewer than 41 bytes.
    TooShort,
    /// 3: the first 8 bytes are not `bplist00`.
    Magic,
    /// 4: the trailer gives 0 objects.
    NoObjects,
    /// 5: the top object's number is not below the number of objects.
    Top,
    /// 6: the offset table starts before place 9.
    TableEarly,
    /// 7: the offset table starts at the trailer's place or later.
    TableLate,
    /// 8: the size of an entry of the offset table is not 1 to 8 bytes.
    OffsetSize,
    /// 9: the size of a reference is not 1 to 8 bytes.
    RefSize,
    /// 10: the offset table does not end at the trailer's place.
    Length,
    /// 11: a reference has too few bytes for the number of objects.
    RefNarrow,
    /// 12: an entry has too few bytes for the place of the offset table.
    OffsetNarrow,
    /// 13: an entry of the offset table is the table's place or greater.
    OffsetHigh,
    /// 14: an object's entry is less than 8.
    OffsetLow,
    /// 15: an object's first byte is no marker.
    Marker,
    /// 16: a count that follows the marker does not begin as an integer of 1 to 16 bytes.
    Count,
    /// 17: an object's count or body does not end before the offset table.
    Extent,
    /// 18: a byte of an Ascii text is 128 or more.
    NotAscii,
    /// 19: a UID is above 4294967295.
    UidLarge,
    /// 20: a reference is not below the number of objects.
    RefHigh,
    /// 21: a key of a dictionary is not a text.
    KeyKind,
    /// 22: a key of a dictionary has the same units as an earlier key.
    KeyTwice,
    /// 23: references lead from a reachable object back to itself.
    Circle,
    /// 24: the first 8 bytes of a certificate are neither `bplcert1` nor `bplcert2`.
    CertMagic,
    /// 25: a certificate's length does not fit its version and its number of heights.
    CertLength,
    /// 26: a certificate does not have one height for each object.
    CertCount,
    /// 27: the height of the top object is 0.
    TopNotVouched,
    /// 28: a vouched object refers to an object of height 0.
    ChildNotVouched,
    /// 29: a vouched object refers to an object whose height is not less than its own.
    HeightNotLess,
    /// 30: a path text does not begin with `/`, or a `~` in it is not followed by `0` or `1`.
    PathText,
    /// 31: the extents of the reachable (or vouched) objects up to this one add up to more than the bytes from place 8
    /// to the offset table.
    Overfull,
    /// 32: a vouched dictionary's key list in a certificate is incomplete or not sorted.
    KeyOrder,
}

// Each variant is one more than the one before, so the last number shows that none is missing.
const _: () = prove!(Rule::KeyOrder as u8 == 32);

impl fmt::Display for Rule {
    ghost output = { λ rule. Some (word_of rule) };

    fn fmt<W: fmt::Write>(&self, f: &mut fmt::Formatter<W>) -> fmt::Result {
        f.write_str(rule_name(*self))
    }
}

/// Returns the rule's word, as faults are printed: the name of its variant.
pub fn rule_name(rule: Rule) -> &'static str
    ensures { result.now ≡ word_of rule }
{
    match rule {
        Rule::TooLarge => "TooLarge",
        Rule::TooShort => "TooShort",
        Rule::Magic => "Magic",
        Rule::NoObjects => "NoObjects",
        Rule::Top => "Top",
        Rule::TableEarly => "TableEarly",
        Rule::TableLate => "TableLate",
        Rule::OffsetSize => "OffsetSize",
        Rule::RefSize => "RefSize",
        Rule::Length => "Length",
        Rule::RefNarrow => "RefNarrow",
        Rule::OffsetNarrow => "OffsetNarrow",
        Rule::OffsetHigh => "OffsetHigh",
        Rule::OffsetLow => "OffsetLow",
        Rule::Marker => "Marker",
        Rule::Count => "Count",
        Rule::Extent => "Extent",
        Rule::NotAscii => "NotAscii",
        Rule::UidLarge => "UidLarge",
        Rule::RefHigh => "RefHigh",
        Rule::KeyKind => "KeyKind",
        Rule::KeyTwice => "KeyTwice",
        Rule::Circle => "Circle",
        Rule::CertMagic => "CertMagic",
        Rule::CertLength => "CertLength",
        Rule::CertCount => "CertCount",
        Rule::TopNotVouched => "TopNotVouched",
        Rule::ChildNotVouched => "ChildNotVouched",
        Rule::HeightNotLess => "HeightNotLess",
        Rule::PathText => "PathText",
        Rule::Overfull => "Overfull",
        Rule::KeyOrder => "KeyOrder",
    }
}

/// Returns the rule's number, 1 to 32.
pub fn rule_number(rule: Rule) -> u32
    ensures { result ≡ number_of rule }
{
    rule as u32
}

/// Returns the rule with this number, or None if there is none.
pub fn rule_of_number(number: u32) -> Option<Rule>
    ensures { MatchOption result ((number ≡ 0) ⊎ (32 < number)) (λ rule. number_of rule ≡ number) }
{
    match number {
        1 => Some(Rule::TooLarge),
        2 => Some(Rule::TooShort),
        3 => Some(Rule::Magic),
        4 => Some(Rule::NoObjects),
        5 => Some(Rule::Top),
        6 => Some(Rule::TableEarly),
        7 => Some(Rule::TableLate),
        8 => Some(Rule::OffsetSize),
        9 => Some(Rule::RefSize),
        10 => Some(Rule::Length),
        11 => Some(Rule::RefNarrow),
        12 => Some(Rule::OffsetNarrow),
        13 => Some(Rule::OffsetHigh),
        14 => Some(Rule::OffsetLow),
        15 => Some(Rule::Marker),
        16 => Some(Rule::Count),
        17 => Some(Rule::Extent),
        18 => Some(Rule::NotAscii),
        19 => Some(Rule::UidLarge),
        20 => Some(Rule::RefHigh),
        21 => Some(Rule::KeyKind),
        22 => Some(Rule::KeyTwice),
        23 => Some(Rule::Circle),
        24 => Some(Rule::CertMagic),
        25 => Some(Rule::CertLength),
        26 => Some(Rule::CertCount),
        27 => Some(Rule::TopNotVouched),
        28 => Some(Rule::ChildNotVouched),
        29 => Some(Rule::HeightNotLess),
        30 => Some(Rule::PathText),
        31 => Some(Rule::Overfull),
        32 => Some(Rule::KeyOrder),
        _ => None,
    }
}
