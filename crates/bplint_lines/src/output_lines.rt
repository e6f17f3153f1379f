//! The lines of answers.
//!
//! Each call adds a line to the bytes, without a line feed. The only error is refused memory.

ghost use Rattle.std.specs.Prelude.{◌≡◌, ℕ, ◌++◌, OnOk, codes};
ghost use Rattle.std.specs.Fmt.{decimal, signed_decimal};
ghost use Rattle.hex.specs.Hex.{encode_lower};
ghost use Rattle.bplint_lines.specs.OutputLines.{lint_line, check_line, face_line, missing_line};

use crate::texts::{Style, add_text};
use bplist_ascii::add_text_of_bytes;
use bplist_cursor::{Face, Why};
use bplist_objects::Kind;
use std::alloc::{AllocError, Global};

/// Adds the line of `lint`.
pub fn add_lint(
    alloc: Global,
    reached: u64,
    height: u32,
    top: Kind,
    lines: &mut Vec<u8>,
) -> Result<(), AllocError>
    ensures { OnOk result (lines.new.items ≡ lines.old.items ++ lint_line reached height top) }
{
    let line = format!(in alloc; "ok reached {reached} height {height} top {top}")?;
    lines.extend_from_slice(line.as_bytes())
}

/// Adds the line of `check`.
pub fn add_check(
    alloc: Global,
    objects: u32,
    height: u32,
    lines: &mut Vec<u8>,
) -> Result<(), AllocError>
    ensures { OnOk result (lines.new.items ≡ lines.old.items ++ check_line objects height) }
{
    let line = format!(in alloc; "ok objects {objects} height {height}")?;
    lines.extend_from_slice(line.as_bytes())
}

/// Adds the line of `get` for the value under a path, with a text in this style.
pub fn add_face(
    alloc: Global,
    style: Style,
    face: &Face,
    lines: &mut Vec<u8>,
) -> Result<(), AllocError>
    ensures { OnOk result (lines.new.items ≡ lines.old.items ++ face_line style face.now) }
{
    match face {
        Face::Null => lines.extend_from_slice(b"null"),
        Face::Bool(false) => lines.extend_from_slice(b"false"),
        Face::Bool(true) => lines.extend_from_slice(b"true"),
        Face::Int(number) => add_integer(alloc, *number, lines),
        Face::Real(bytes) => add_hexadecimal(alloc, b"real ", bytes.as_slice(), lines),
        Face::Date(bytes) => add_hexadecimal(alloc, b"date ", bytes.as_slice(), lines),
        Face::Bytes(bytes) => {
            lines.extend_from_slice(b"data ")?;
            add_text_of_bytes(bytes.as_slice(), lines)
        }
        Face::Text(units) => {
            lines.extend_from_slice(b"text ")?;
            add_text(alloc, style, units.as_slice(), lines)
        }
        Face::Uid(number) => add_number(alloc, b"uid ", *number as u64, lines),
        Face::Array(count) => add_number(alloc, b"array ", *count, lines),
        Face::Set(count) => add_number(alloc, b"set ", *count, lines),
        Face::Dict(count) => add_number(alloc, b"dict ", *count, lines),
    }
}

/// Adds the line for a path that leads nowhere.
pub fn add_missing(
    alloc: Global,
    step: u64,
    why: Why,
    lines: &mut Vec<u8>,
) -> Result<(), AllocError>
    ensures { OnOk result (lines.new.items ≡ lines.old.items ++ missing_line step why) }
{
    let word = reason_of(why);
    let line = format!(in alloc; "missing {step} {word}")?;
    lines.extend_from_slice(line.as_bytes())
}

fn add_integer(alloc: Global, number: i128, lines: &mut Vec<u8>) -> Result<(), AllocError>
    ensures { OnOk result (lines.new.items ≡ lines.old.items ++ codes "int " ++ signed_decimal number) }
{
    let line = format!(in alloc; "int {number}")?;
    lines.extend_from_slice(line.as_bytes())
}

fn add_number(
    alloc: Global,
    word: &[u8],
    number: u64,
    lines: &mut Vec<u8>,
) -> Result<(), AllocError>
    ensures { OnOk result (lines.new.items ≡ lines.old.items ++ (word.now ++ decimal number)) }
{
    lines.extend_from_slice(word)?;
    let digits = format!(in alloc; "{number}")?;
    lines.extend_from_slice(digits.as_bytes())
}

pub(crate) fn add_hexadecimal(
    alloc: Global,
    word: &[u8],
    bytes: &[u8],
    lines: &mut Vec<u8>,
) -> Result<(), AllocError>
    ensures { OnOk result (lines.new.items ≡ lines.old.items ++ (word.now ++ encode_lower bytes.now)) }
{
    lines.extend_from_slice(word)?;
    let digits = hex::encode(alloc, bytes)?;
    lines.extend_from_slice(digits.as_bytes())
}

/// Returns the word that ends the line for a path that leads nowhere.
pub fn reason_of(why: Why) -> &'static str
    ensures { (step : ℕ) → missing_line step why ≡ codes "missing " ++ decimal step ++ codes " " ++ result.now }
{
    match why {
        Why::NoKey => "NoKey",
        Why::NoIndex => "NoIndex",
        Why::NotSteppable => "NotSteppable",
    }
}
