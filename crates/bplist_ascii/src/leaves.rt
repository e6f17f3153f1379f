//! Writes texts and data as old-style text, reading their bodies in parts.

ghost use Rattle.std.specs.Prelude.{◌≡◌, ◌+◌, ◌*◌, ◌<◌, ◌≤◌, true, length, flat_map, IfOk, OnOk, IfErr, OnErr, IsTrue};
ghost use Rattle.std.specs.List.{list_all};
ghost use Rattle.bplist_ascii.specs.Prelude.{part, HonestlyChecked, IsSafeBody, IsSafeText, units_of, Bytes, GivesRead};
ghost use Rattle.bplist_ascii.specs.Prelude.{read_failed, OnlyReadsFile, hex_digits, text_of_units, text_of_bytes};
ghost use Rattle.bplist_ascii.specs.Prelude.{quoted, print_read, AddsText, AddFails, FailsWithin, StaysWithin, styled};
ghost use Rattle.bplist_ascii.specs.Prelude.{fits, is_unquoted_text, Unquoted};

use crate::output::{write, write_digits, write_units};
use crate::printer::{PrintFault, Style, Styled};
use bplist_cert::Checked;
use bplist_cursor::{Unread, are_plain, body_bytes};
use bplist_objects::{Head, UnitBlocks};
use bplist_octets::{Sink, Source};
use std::io::Write;

/// The largest number of bytes that one read takes.
const PART: usize = 128;

fn is_unquoted<S: Source>(checked: &mut Checked<S>, head: &Head) -> Result<bool, Unread>
    requires text { IsSafeText (length checked.old.source.octets) head.now }
    ensures reads { OnlyReadsFile (read_failed result) checked.old checked.new }
    ensures exact { GivesRead (λ unquoted. HonestlyChecked checked.old
        (λ f _. unquoted ≡ is_unquoted_text (units_of f head.now))) result }
    ensures some { IfOk result (λ unquoted. unquoted ≡ true → 0 < head.now.count) }
{
    if head.count == 0 {
        return Ok(false);
    }
    let mut units = UnitBlocks::of(head);
    while units.read(checked)? {
        if !are_plain(units.block()) {
            return Ok(false);
        }
    }
    Ok(true)
}

fn write_text_body<S: Source, W: Write>(
    checked: &mut Checked<S>,
    text: &Styled,
    sink: &mut Sink,
    out: &mut W,
    room: &mut u64,
) -> Result<(), PrintFault>
    requires text { IsSafeText (length checked.old.source.octets) text.now.head }
    ensures reads { OnlyReadsFile (print_read result) checked.old checked.new }
    ensures adds { OnOk result (AddsText (W.contents out.old) (W.contents out.new) sink.old sink.new room.old room.new
        (IsTrue checked.old.source.honest) (flat_map (styled text.now.style)
        (units_of checked.old.source.octets text.now.head))) }
    ensures fails { IfErr result (λ e. HonestlyChecked checked.old
        (λ f _. list_all (fits text.now.style) (units_of f text.now.head) ≡ true
        → length (flat_map (styled text.now.style) (units_of f text.now.head)) ≤ room.old
        → AddFails (W.contents out.old) (W.contents out.new) sink.old
        (flat_map (styled text.now.style) (units_of f text.now.head)) e)) }
    ensures bounded { OnErr result (StaysWithin (W.contents out.old) (W.contents out.new) sink.old room.old) }
    ensures falls { OnOk result (text.now.style ≡ Unquoted → room.new + text.now.head.count ≤ room.old) }
{
    let mut units = UnitBlocks::of(&text.head);
    while units.read(checked)? {
        write_units(sink, out, room, text.style, units.block())?;
    }
    Ok(())
}

fn write_data_body<S: Source, W: Write>(
    checked: &mut Checked<S>,
    head: &Head,
    sink: &mut Sink,
    out: &mut W,
    room: &mut u64,
) -> Result<(), PrintFault>
    requires kind { head.now.kind ≡ Bytes }
    requires head { IsSafeBody (length checked.old.source.octets) head.now }
    ensures reads { OnlyReadsFile (print_read result) checked.old checked.new }
    ensures adds { OnOk result (AddsText (W.contents out.old) (W.contents out.new) sink.old sink.new room.old room.new
        (IsTrue checked.old.source.honest) (flat_map hex_digits (part checked.old.source.octets head.now.body head.now.count))) }
    ensures fails { IfErr result (λ e. HonestlyChecked checked.old
        (λ f _. FailsWithin (W.contents out.old) (W.contents out.new) sink.old room.old
        (flat_map hex_digits (part f head.now.body head.now.count)) e)) }
    ensures bounded { OnErr result (StaysWithin (W.contents out.old) (W.contents out.new) sink.old room.old) }
{
    let mut buffer = [0; PART];
    let mut done = 0;
    while done < head.count {
        let now = (head.count - done).min(PART as u64);
        let bytes = &mut buffer[..now as usize];
        body_bytes(checked, head, done, bytes)?;
        write_digits(sink, out, room, bytes)?;
        done += now;
    }
    Ok(())
}

pub(crate) fn write_data<S: Source, W: Write>(
    checked: &mut Checked<S>,
    head: &Head,
    sink: &mut Sink,
    out: &mut W,
    room: &mut u64,
) -> Result<(), PrintFault>
    requires kind { head.now.kind ≡ Bytes }
    requires head { IsSafeBody (length checked.old.source.octets) head.now }
    ensures reads { OnlyReadsFile (print_read result) checked.old checked.new }
    ensures adds { OnOk result (AddsText (W.contents out.old) (W.contents out.new) sink.old sink.new room.old room.new
        (IsTrue checked.old.source.honest) (text_of_bytes (part checked.old.source.octets head.now.body head.now.count))) }
    ensures fails { IfErr result (λ e. HonestlyChecked checked.old
        (λ f _. FailsWithin (W.contents out.old) (W.contents out.new) sink.old room.old
        (text_of_bytes (part f head.now.body head.now.count)) e)) }
    ensures bounded { OnErr result (StaysWithin (W.contents out.old) (W.contents out.new) sink.old room.old) }
    ensures falls { OnOk result (room.new < room.old) }
{
    write(sink, out, room, b"<")?;
    write_data_body(checked, head, sink, out, room)?;
    write(sink, out, room, b">")
}

fn write_quoted<S: Source, W: Write>(
    checked: &mut Checked<S>,
    head: &Head,
    sink: &mut Sink,
    out: &mut W,
    room: &mut u64,
) -> Result<(), PrintFault>
    requires text { IsSafeText (length checked.old.source.octets) head.now }
    ensures reads { OnlyReadsFile (print_read result) checked.old checked.new }
    ensures adds { OnOk result (AddsText (W.contents out.old) (W.contents out.new) sink.old sink.new room.old room.new
        (IsTrue checked.old.source.honest) (quoted (units_of checked.old.source.octets head.now))) }
    ensures fails { IfErr result (λ e. HonestlyChecked checked.old
        (λ f _. FailsWithin (W.contents out.old) (W.contents out.new) sink.old room.old (quoted (units_of f head.now)) e)) }
    ensures bounded { OnErr result (StaysWithin (W.contents out.old) (W.contents out.new) sink.old room.old) }
    ensures falls { OnOk result (room.new < room.old) }
{
    write(sink, out, room, b"\"")?;
    let text = Styled {
        head: *head,
        style: Style::Quoted,
    };
    write_text_body(checked, &text, sink, out, room)?;
    write(sink, out, room, b"\"")
}

pub(crate) fn write_text<S: Source, W: Write>(
    checked: &mut Checked<S>,
    head: &Head,
    sink: &mut Sink,
    out: &mut W,
    room: &mut u64,
) -> Result<(), PrintFault>
    requires text { IsSafeText (length checked.old.source.octets) head.now }
    ensures reads { OnlyReadsFile (print_read result) checked.old checked.new }
    ensures adds { OnOk result (AddsText (W.contents out.old) (W.contents out.new) sink.old sink.new room.old room.new
        (IsTrue checked.old.source.honest) (text_of_units (units_of checked.old.source.octets head.now))) }
    ensures fails { IfErr result (λ e. HonestlyChecked checked.old
        (λ f _. FailsWithin (W.contents out.old) (W.contents out.new) sink.old room.old
        (text_of_units (units_of f head.now)) e)) }
    ensures bounded { OnErr result (StaysWithin (W.contents out.old) (W.contents out.new) sink.old room.old) }
    ensures falls { OnOk result (room.new < room.old) }
{
    if is_unquoted(checked, head)? {
        let text = Styled {
            head: *head,
            style: Style::Unquoted,
        };
        return write_text_body(checked, &text, sink, out, room);
    }
    write_quoted(checked, head, sink, out, room)
}
