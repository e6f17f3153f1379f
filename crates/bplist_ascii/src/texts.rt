//! Texts and data as old-style text, in memory.

ghost use Rattle.std.specs.Prelude.{◌≡◌, ◌≤◌, ◌++◌, ℕ, List, true, length, take, IfOk, OnOk};
ghost use Rattle.std.specs.Char.{is_ascii_alphanumeric};
ghost use Rattle.std.specs.List.{flat_map, list_all};
ghost use Rattle.bplist_cursor.specs.Texts as spec;
ghost use Rattle.bplist_ascii.specs.Prelude.{hex_digits};

use bplist_cursor::are_plain;
use std::alloc::{AllocError, Global};
use std::marker::Model;

const DIGITS: &[u8; 16] = b"0123456789abcdef";

/// Returns the old-style text of a text with these UTF-16 units. If there are units and all are ASCII letters and
/// digits, these are the text; otherwise it is in quotes. Any units have a text. The only error is refused memory.
pub fn text_of_units(alloc: Global, units: &[u16]) -> Result<Vec<u8>, AllocError>
    ensures { IfOk result (λ text. text.items ≡ spec.text_of_units units.now) }
{
    let mut text = Vec::new(alloc);
    add_text_of_units(units, &mut text)?;
    Ok(text)
}

/// Adds the old-style text of a text with these 16-bit units, as [`text_of_units`] gives it.
pub fn add_text_of_units(units: &[u16], text: &mut Vec<u8>) -> Result<(), AllocError>
    ensures { OnOk result (text.new.items ≡ text.old.items ++ spec.text_of_units units.now) }
{
    if !units.is_empty() && are_plain(units) {
        return add_plain(units, text);
    }
    text.push(b'"')?;
    add_quoted(units, text)?;
    Ok(text.push(b'"')?)
}

fn add_plain(units: &[u16], text: &mut Vec<u8>) -> Result<(), AllocError>
    requires { list_all is_ascii_alphanumeric units.now ≡ true }
    ensures { OnOk result (text.new.items ≡ text.old.items ++ units.now) }
{
    for unit in units {
        text.push(*unit as u8)?;
    }
    Ok(())
}

/// Returns the old-style text of data: two lower-case hexadecimal digits for each byte, between `<` and `>`. The only
/// error is refused memory.
pub fn text_of_bytes(alloc: Global, bytes: &[u8]) -> Result<Vec<u8>, AllocError>
    ensures { IfOk result (λ text. text.items ≡ spec.text_of_bytes bytes.now) }
{
    let mut text = Vec::new(alloc);
    add_text_of_bytes(bytes, &mut text)?;
    Ok(text)
}

/// Adds the old-style text of data, as [`text_of_bytes`] gives it.
pub fn add_text_of_bytes(bytes: &[u8], text: &mut Vec<u8>) -> Result<(), AllocError>
    ensures { OnOk result (text.new.items ≡ text.old.items ++ spec.text_of_bytes bytes.now) }
{
    text.push(b'<')?;
    add_digits(bytes, text)?;
    Ok(text.push(b'>')?)
}

fn add_quoted(units: &[u16], text: &mut Vec<u8>) -> Result<(), AllocError>
    ensures { OnOk result (text.new.items ≡ text.old.items ++ flat_map spec.quoted_unit units.now) }
{
    for unit in units {
        text.extend_from_slice(QuotedUnit::new(*unit).as_slice())?;
    }
    Ok(())
}

fn add_digits(bytes: &[u8], text: &mut Vec<u8>) -> Result<(), AllocError>
    ensures { OnOk result (text.new.items ≡ text.old.items ++ flat_map hex_digits bytes.now) }
{
    for byte in bytes {
        text.extend_from_slice(&digits_of(*byte))?;
    }
    Ok(())
}

pub(crate) fn digits_of(byte: u8) -> [u8; 2]
    ensures { result ≡ hex_digits byte }
{
    let (high, low) = (byte / 16, byte % 16);
    [DIGITS[high as usize], DIGITS[low as usize]]
}

/// A unit as it is written in quotes, in one to six bytes. In contracts, it is these bytes.
#[derive(Drop)]
pub(crate) struct QuotedUnit {
    bytes: [u8; 6],
    used: usize,
}

impl Model for QuotedUnit {
    ghost Value = { List ℕ };

    ghost view = { λ q. take q.used q.bytes };

    ghost invariant = { λ q. q.used ≤ 6 };
}

impl QuotedUnit {
    #[tactic(auto, unfolding(hex::specs::Hex::encode_with))]
    pub(crate) fn new(unit: u16) -> QuotedUnit
        ensures { result ≡ spec.quoted_unit unit }
    {
        match unit {
            0x22 => QuotedUnit::of(b"\\\""),
            0x5C => QuotedUnit::of(b"\\\\"),
            0x0A => QuotedUnit::of(b"\\n"),
            0x20..=0x7E => QuotedUnit::of(&[unit as u8]),
            _ => {
                let high = digits_of((unit / 256) as u8);
                let low = digits_of((unit % 256) as u8);
                QuotedUnit::of(&[b'\\', b'U', high[0], high[1], low[0], low[1]])
            }
        }
    }

    pub(crate) fn as_slice(&self) -> &[u8]
        ensures { result.now ≡ self.now }
    {
        &self.bytes[..self.used]
    }

    fn of(bytes: &[u8]) -> QuotedUnit
        requires { length bytes.now ≤ 6 }
        ensures { result ≡ bytes.now }
    {
        let mut quoted = [0; 6];
        quoted[..bytes.len()].copy_from_slice(bytes);
        QuotedUnit {
            bytes: quoted,
            used: bytes.len(),
        }
    }
}
