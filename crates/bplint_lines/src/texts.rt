//! How lines write texts: in old-style form, or in UTF-8.

ghost use Rattle.std.specs.Prelude.{◌≡◌, ◌++◌, ◌<◌, ◌≤◌, true, false, length, drop, slice_index, encode_utf8};
ghost use Rattle.std.specs.Prelude.{IfOk, MatchOption, OnOk};
ghost use Rattle.std.specs.Char.Utf16.{surrogate_pair_char};
ghost use Rattle.std.specs.List.{list_any};
ghost use Rattle.bplint_lines.specs.Texts as spec;
ghost use Rattle.bplint_lines.specs.Texts.{starts_pair, text_in, utf8_text, utf8_unit, utf8_units};

use crate::output_lines::add_hexadecimal;
use bplist_ascii::add_text_of_units;
use bplist_cursor::are_plain;
use std::alloc::{AllocError, Global};

/// How lines write texts, and keys that have no path text.
#[derive(Clone, Copy, Drop)]
pub enum Style {
    /// A text in old-style form. A key that cannot be shown is left out: its index stands alone.
    OldStyle,
    /// A text in UTF-8. A key that cannot be shown follows its index, with `\U` and four digits for what cannot be
    /// shown.
    Utf8,
}

pub(crate) fn add_text(
    alloc: Global,
    style: Style,
    units: &[u16],
    lines: &mut Vec<u8>,
) -> Result<(), AllocError>
    ensures { OnOk result (lines.new.items ≡ lines.old.items ++ text_in style units.now) }
{
    match style {
        Style::OldStyle => add_text_of_units(units, lines),
        Style::Utf8 => add_utf8_text(alloc, units, lines),
    }
}

pub(crate) fn add_utf8_text(
    alloc: Global,
    units: &[u16],
    lines: &mut Vec<u8>,
) -> Result<(), AllocError>
    ensures { OnOk result (lines.new.items ≡ lines.old.items ++ utf8_text units.now) }
{
    if !units.is_empty() && are_plain(units) {
        return add_text_of_units(units, lines);
    }
    lines.push(b'"')?;
    add_units(alloc, units, lines)?;
    Ok(lines.push(b'"')?)
}

/// The units stand between quotes.
fn add_units(alloc: Global, units: &[u16], lines: &mut Vec<u8>) -> Result<(), AllocError>
    ensures { OnOk result (lines.new.items ≡ lines.old.items ++ utf8_units units.now) }
{
    let mut at = 0;
    while at < units.len() {
        at = add_character(alloc, units, at, lines)?;
    }
    Ok(())
}

/// Returns the index of the unit after the character.
fn add_character(
    alloc: Global,
    units: &[u16],
    at: usize,
    lines: &mut Vec<u8>,
) -> Result<usize, AllocError>
    requires { at < length units.now }
    ensures { IfOk result (λ next. (at < next) × (next ≤ length units.now)
        × (lines.new.items ++ utf8_units (drop next units.now) ≡ lines.old.items ++ utf8_units (drop at units.now))) }
{
    let first = units[at];
    match character_of(first, unit_at(units, at + 1)) {
        Some(character) => {
            add_encoded(character, lines)?;
            Ok(at + 2)
        }
        None => {
            add_unit(alloc, first, lines)?;
            Ok(at + 1)
        }
    }
}

/// Returns 0 after the last unit.
fn unit_at(units: &[u16], at: usize) -> u16
    ensures { result ≡ slice_index units.now at }
{
    if at < units.len() { units[at] } else { 0 }
}

fn character_of(first: u16, second: u16) -> Option<char>
    ensures { MatchOption result (starts_pair first second ≡ false)
        (λ character. (starts_pair first second ≡ true) × (character ≡ surrogate_pair_char first second)) }
{
    if !is_pair(first, second) {
        return None;
    }
    let over = (first as u32 - 0xD800) * 0x400 + (second as u32 - 0xDC00);
    char::from_u32(0x1_0000 + over)
}

fn is_pair(first: u16, second: u16) -> bool
    ensures { result ≡ starts_pair first second }
{
    matches!(first, 0xD800..=0xDBFF) && matches!(second, 0xDC00..=0xDFFF)
}

/// The unit is in no pair.
fn add_unit(alloc: Global, unit: u16, lines: &mut Vec<u8>) -> Result<(), AllocError>
    ensures { OnOk result (lines.new.items ≡ lines.old.items ++ utf8_unit unit) }
{
    if unit == 0x22 || unit == 0x5C {
        return lines.extend_from_slice(&[b'\\', unit as u8]);
    }
    match char::from_u32(unit as u32) {
        Some(character) if !is_unshown(unit) => add_encoded(character, lines),
        _ => add_hexadecimal(
            alloc,
            b"\\U",
            &[(unit / 256) as u8, (unit % 256) as u8],
            lines,
        ),
    }
}

fn add_encoded(character: char, lines: &mut Vec<u8>) -> Result<(), AllocError>
    ensures { OnOk result (lines.new.items ≡ lines.old.items ++ encode_utf8 character) }
{
    let mut buffer = [0; 4];
    lines.extend_from_slice(character.encode_utf8(&mut buffer).as_bytes())
}

pub(crate) fn have_unshown(units: &[u16]) -> bool
    ensures { result ≡ list_any spec.is_unshown units.now }
{
    units.iter().any(|unit| is_unshown(*unit))
}

/// Returns true for a control character, a line or paragraph separator, and a control of text direction. These could
/// begin a new line, give a command to the terminal, or change the order in which a line is displayed. No character
/// beyond U+FFFF is one of them.
pub fn is_unshown(unit: u16) -> bool
    ensures { result ≡ spec.is_unshown unit }
{
    matches!(
        unit,
        0..=0x1F | 0x7F..=0x9F | 0x61C | 0x200E..=0x200F | 0x2028..=0x202E | 0x2066..=0x2069
    )
}
