//! The names of members in lines.
//!
//! Each call adds a name to the bytes. The only error is refused memory.

ghost use Rattle.std.specs.Prelude.{◌≡◌, ◌++◌, ◌∷◌, OnOk, true};
ghost use Rattle.std.specs.List.{flat_map, list_all};
ghost use Rattle.bplist_cursor.specs.Path.{escaped};
ghost use Rattle.bplint_lines.specs.MemberNames as spec;
ghost use Rattle.bplint_lines.specs.MemberNames.{bracketed, index_name, key_name, unshown_name};

use crate::texts::{Style, add_utf8_text, have_unshown};
use std::alloc::{AllocError, Global};

/// Adds the path text of member `i` of an array.
pub fn add_index_name(
    alloc: Global,
    path: &str,
    i: u64,
    lines: &mut Vec<u8>,
) -> Result<(), AllocError>
    ensures { OnOk result (lines.new.items ≡ lines.old.items ++ index_name path.now i) }
{
    lines.extend_from_slice(path.as_bytes())?;
    let token = format!(in alloc; "/{i}")?;
    lines.extend_from_slice(token.as_bytes())
}

/// Adds an index in brackets, which names a member of a set.
pub fn add_index(alloc: Global, i: u64, lines: &mut Vec<u8>) -> Result<(), AllocError>
    ensures { OnOk result (lines.new.items ≡ lines.old.items ++ bracketed i) }
{
    let index = format!(in alloc; "[{i}]")?;
    lines.extend_from_slice(index.as_bytes())
}

/// A pair of a dictionary.
#[derive(Clone, Copy, Drop)]
pub struct Pair<'a> {
    /// Its number, counted from 0.
    pub number: u64,
    /// The UTF-16 units of its key.
    pub key: &'a [u16],
}

/// Adds the path text of the value of a pair, in the dictionary with this path text. If the key cannot be shown, adds
/// the index in brackets instead, and in UTF-8 style then the key as a text.
pub fn add_key_name(
    alloc: Global,
    style: Style,
    path: &str,
    pair: &Pair<'_>,
    lines: &mut Vec<u8>,
) -> Result<(), AllocError>
    ensures { OnOk result (lines.new.items ≡ lines.old.items ++ key_name style path.now pair.now.number pair.now.key.now) }
{
    if have_unshown(pair.key) {
        return add_unshown(alloc, style, pair, lines);
    }
    if are_ascii(pair.key) {
        return add_ascii_path(path, pair.key, lines);
    }
    match String::from_utf16(alloc, pair.key)? {
        Ok(key) => add_path(path, key.as_bytes(), lines),
        Err(_) => add_unshown(alloc, style, pair, lines),
    }
}

/// Adds `/` and the token of a key, whatever its characters are. Returns false, and adds nothing, if the key has half
/// of a surrogate pair, which no path text can have.
pub fn add_whole_key_name(
    alloc: Global,
    key: &[u16],
    lines: &mut Vec<u8>,
) -> Result<bool, AllocError> {
    match String::from_utf16(alloc, key)? {
        Ok(key) => {
            add_path("", key.as_bytes(), lines)?;
            Ok(true)
        }
        Err(_) => Ok(false),
    }
}

fn add_unshown(
    alloc: Global,
    style: Style,
    pair: &Pair<'_>,
    lines: &mut Vec<u8>,
) -> Result<(), AllocError>
    ensures { OnOk result (lines.new.items ≡ lines.old.items ++ unshown_name style pair.now.number pair.now.key.now) }
{
    add_index(alloc, pair.number, lines)?;
    match style {
        Style::OldStyle => Ok(()),
        Style::Utf8 => add_utf8_text(alloc, pair.key, lines),
    }
}

/// If they are, each unit is a byte of the text.
fn are_ascii(units: &[u16]) -> bool
    ensures { result ≡ list_all spec.is_ascii units.now }
{
    units.iter().all(|unit| *unit < 0x80)
}

fn add_path(path: &str, token: &[u8], lines: &mut Vec<u8>) -> Result<(), AllocError>
    ensures { OnOk result (lines.new.items ≡ lines.old.items ++ (path.now ++ 0x2F ∷ flat_map escaped token.now)) }
{
    lines.extend_from_slice(path.as_bytes())?;
    lines.push(b'/')?;
    add_token(token, lines)
}

fn add_token(token: &[u8], lines: &mut Vec<u8>) -> Result<(), AllocError>
    ensures { OnOk result (lines.new.items ≡ lines.old.items ++ flat_map escaped token.now) }
{
    for byte in token {
        add_escaped(*byte, lines)?;
    }
    Ok(())
}

/// The units are ASCII, so no `String` is made of them.
fn add_ascii_path(path: &str, units: &[u16], lines: &mut Vec<u8>) -> Result<(), AllocError>
    requires { list_all spec.is_ascii units.now ≡ true }
    ensures { OnOk result (lines.new.items ≡ lines.old.items ++ (path.now ++ 0x2F ∷ flat_map escaped units.now)) }
{
    lines.extend_from_slice(path.as_bytes())?;
    lines.push(b'/')?;
    add_ascii_token(units, lines)
}

fn add_ascii_token(units: &[u16], lines: &mut Vec<u8>) -> Result<(), AllocError>
    requires { list_all spec.is_ascii units.now ≡ true }
    ensures { OnOk result (lines.new.items ≡ lines.old.items ++ flat_map escaped units.now) }
{
    for unit in units {
        add_escaped(*unit as u8, lines)?;
    }
    Ok(())
}

fn add_escaped(byte: u8, lines: &mut Vec<u8>) -> Result<(), AllocError>
    ensures { OnOk result (lines.new.items ≡ lines.old.items ++ escaped byte) }
{
    match byte {
        b'~' => lines.extend_from_slice(b"~0"),
        b'/' => lines.extend_from_slice(b"~1"),
        _ => Ok(lines.push(byte)?),
    }
}
