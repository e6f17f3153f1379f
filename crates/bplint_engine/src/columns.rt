//! The lines of a listing that are not JSON: those of `ls`, in columns with the object of each value and its place, or
//! indented.

ghost use Rattle.std.specs.Prelude.{◌≡◌, ◌++◌, OnOk, codes};
ghost use Rattle.std.specs.Fmt.{decimal};

use crate::json::rows::Site;
use crate::readable::values::add_readable;
use bplint_lines::{Style, add_face};
use bplist_cursor::Face;
use std::alloc::{AllocError, Global};

/// How lines write values.
#[derive(Clone, Copy, Drop)]
pub enum Values {
    /// As `show` does, with texts in this style.
    Exact(Style),
    /// For people: texts in UTF-8, dates, reals in decimal, and long data as its first bytes, its length and its
    /// SHA-256.
    Readable,
}

/// Adds the line of `ls` for a value with this name and face, without its line feed.
pub(crate) fn add_line(
    alloc: Global,
    values: Values,
    name: &[u8],
    shown: &Face,
    line: &mut Vec<u8>,
) -> Result<(), AllocError> {
    line.extend_from_slice(name)?;
    line.push(b'\t')?;
    match values {
        Values::Exact(style) => add_face(alloc, style, shown, line),
        Values::Readable => add_readable(alloc, shown, line),
    }
}

/// Adds the columns with the object of a value and its place.
pub(crate) fn add_site(alloc: Global, site: Site, line: &mut Vec<u8>) -> Result<(), AllocError>
    ensures { OnOk result (line.new.items ≡ line.old.items ++ codes "\t" ++ decimal site.object ++ codes "\t"
        ++ decimal site.place) }
{
    let Site { object, place } = site;
    let columns = format!(in alloc; "\t{object}\t{place}")?;
    line.extend_from_slice(columns.as_bytes())
}

/// Adds the line of a value that is in so many containers, with two blanks for each. `name` names the value in its
/// container.
pub(crate) fn add_indented(
    alloc: Global,
    depth: u64,
    name: &[u8],
    shown: &Face,
    line: &mut Vec<u8>,
) -> Result<(), AllocError> {
    for _ in 0..depth {
        line.extend_from_slice(b"  ")?;
    }
    let name = name.strip_prefix(b"/").unwrap_or(name);
    if depth > 0 || !name.is_empty() {
        line.extend_from_slice(name)?;
        line.extend_from_slice(b": ")?;
    }
    add_readable(alloc, shown, line)
}
