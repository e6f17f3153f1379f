//! Puts bytes into a sink that has a limited room.

ghost use Rattle.std.specs.Prelude.{◌≡◌, ◌<◌, ◌≤◌, None, true, length, flat_map, OnOk, IfErr, OnErr};
ghost use Rattle.std.specs.List.{list_all};
ghost use Rattle.bplist_ascii.specs.Prelude.{hex_digits, print_read, Adds, AddFails, FailsWithin, StaysWithin, styled};
ghost use Rattle.bplist_ascii.specs.Prelude.{fits};

use crate::printer::{PrintFault, Style};
use crate::texts::{QuotedUnit, digits_of};
use bplist_cursor::is_plain;
use bplist_octets::Sink;
use std::io::Write;

/// Returns `Changed` if the bytes do not fit the room: the text was measured, so the source must have changed.
pub(crate) fn write<W: Write>(
    sink: &mut Sink,
    out: &mut W,
    room: &mut u64,
    bytes: &[u8],
) -> Result<(), PrintFault>
    ensures unread { print_read result ≡ None }
    ensures adds { OnOk result (Adds (W.contents out.old) (W.contents out.new) sink.old sink.new room.old room.new bytes.now) }
    ensures fails { IfErr result (FailsWithin (W.contents out.old) (W.contents out.new) sink.old room.old bytes.now) }
    ensures bounded { OnErr result (StaysWithin (W.contents out.old) (W.contents out.new) sink.old room.old) }
{
    if bytes.len() as u64 > *room {
        return Err(PrintFault::Changed);
    }
    sink.put(out, bytes)?;
    *room -= bytes.len() as u64;
    Ok(())
}

/// If a text of this style can have the unit, the only cause of `Changed` is that there is no room.
fn write_unit<W: Write>(
    sink: &mut Sink,
    out: &mut W,
    room: &mut u64,
    style: Style,
    unit: u16,
) -> Result<(), PrintFault>
    ensures unread { print_read result ≡ None }
    ensures adds { OnOk result (Adds (W.contents out.old) (W.contents out.new) sink.old sink.new room.old room.new (styled style unit)) }
    ensures fails { IfErr result (λ e. fits style unit ≡ true → length (styled style unit) ≤ room.old
        → AddFails (W.contents out.old) (W.contents out.new) sink.old (styled style unit) e) }
    ensures bounded { OnErr result (StaysWithin (W.contents out.old) (W.contents out.new) sink.old room.old) }
{
    match style {
        Style::Unquoted => {
            if !is_plain(unit) {
                return Err(PrintFault::Changed);
            }
            write(sink, out, room, &[unit as u8])
        }
        Style::Quoted => write(sink, out, room, QuotedUnit::new(unit).as_slice()),
    }
}

pub(crate) fn write_units<W: Write>(
    sink: &mut Sink,
    out: &mut W,
    room: &mut u64,
    style: Style,
    units: &[u16],
) -> Result<(), PrintFault>
    ensures unread { print_read result ≡ None }
    ensures adds { OnOk result (Adds (W.contents out.old) (W.contents out.new) sink.old sink.new room.old room.new
        (flat_map (styled style) units.now)) }
    ensures fails { IfErr result (λ e. list_all (fits style) units.now ≡ true → length (flat_map (styled style) units.now) ≤ room.old
        → AddFails (W.contents out.old) (W.contents out.new) sink.old (flat_map (styled style) units.now) e) }
    ensures bounded { OnErr result (StaysWithin (W.contents out.old) (W.contents out.new) sink.old room.old) }
{
    for unit in units {
        write_unit(sink, out, room, style, *unit)?;
    }
    Ok(())
}

pub(crate) fn write_digits<W: Write>(
    sink: &mut Sink,
    out: &mut W,
    room: &mut u64,
    bytes: &[u8],
) -> Result<(), PrintFault>
    ensures unread { print_read result ≡ None }
    ensures adds { OnOk result (Adds (W.contents out.old) (W.contents out.new) sink.old sink.new room.old room.new
        (flat_map hex_digits bytes.now)) }
    ensures fails { IfErr result (FailsWithin (W.contents out.old) (W.contents out.new) sink.old room.old
        (flat_map hex_digits bytes.now)) }
    ensures bounded { OnErr result (StaysWithin (W.contents out.old) (W.contents out.new) sink.old room.old) }
{
    for byte in bytes {
        write(sink, out, room, &digits_of(*byte))?;
    }
    Ok(())
}
