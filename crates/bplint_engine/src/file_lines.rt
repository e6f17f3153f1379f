//! Describes a file as a whole: its length, the numbers of its trailer, and what it looks like instead.

ghost use Rattle.bplist_octets.specs.Meaning.{OnlyReads};
ghost use Rattle.bplist_objects.specs.Failures.{failed_to_read};

use bplint_lines::{file_line_of, hint_line_of};
use bplist_hints::hint_of;
use bplist_objects::Failure;
use bplist_octets::{Source, sized};
use std::alloc::Global;

/// The length of a trailer in bytes.
const TRAILER: u64 = 32;

/// Returns the line with the length of a file. If the file begins with `bplist00` and its last bytes can be a trailer,
/// the line also gives the numbers of the trailer. A second line says what the file looks like, if it is no sound one
/// and this is known. If memory for that line is refused, it is left out.
pub(crate) fn file_lines<S: Source>(alloc: Global, src: &mut S) -> Result<String, Failure>
    ensures reads { OnlyReads (failed_to_read result) (S.means src.old) (S.means src.new) }
{
    let length = src.len();
    let trailer = trailer_octets(src)?;
    let mut lines = file_line_of(alloc, length, trailer.as_ref())?;
    if let Some(hint) = hint_of(src)? {
        if let Ok(line) = hint_line_of(alloc, hint) {
            lines.push_str(&line)?;
        }
    }
    Ok(lines)
}

/// The last bytes of a file that was cut are no trailer: they give a table, objects or a top for which the file has no
/// room.
fn trailer_octets<S: Source>(src: &mut S) -> Result<Option<[u8; 32]>, Failure>
    ensures reads { OnlyReads (failed_to_read result) (S.means src.old) (S.means src.new) }
{
    let length = src.len();
    if length < TRAILER {
        return Ok(None);
    }
    let mut header = [0u8; 8];
    src.read_at(0, &mut header)?;
    if header != *b"bplist00" {
        return Ok(None);
    }
    let mut trailer = [0u8; 32];
    src.read_at(length - TRAILER, &mut trailer)?;
    let (objects, top, table) = (&trailer[8..16], &trailer[16..24], &trailer[24..32]);
    if sized(objects) > length || sized(top) > length || sized(table) > length {
        return Ok(None);
    }
    Ok(Some(trailer))
}
