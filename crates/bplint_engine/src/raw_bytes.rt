//! Decides which raw bytes a value has, and writes them. Long data and texts are read and written part by part. A part
//! of a text never ends between the two halves of a surrogate pair, so each part has its own UTF-8.

ghost use Rattle.std.specs.Prelude.{◌≡◌, IfOk, IfSome, IsTrue, length, not, option_map, ◌+◌, ◌<◌, ◌≤◌, ℕ, List, OnOk, take, false};
ghost use Rattle.std.specs.Prelude.{encode_utf8_all};
ghost use Rattle.std.specs.Char.Utf16.{has_unpaired_surrogate, is_high_surrogate, utf16_lossy_chars};
ghost use Rattle.bplist_objects.specs.Safe.{IsSafeBody, IsSafeText};
ghost use Rattle.bplist_objects.specs.Units.{units_of};
ghost use Rattle.bplint_engine.specs.Prelude.{Holds, Value, IsVouchedBy, OnlyReadsFile, read_failed};
ghost use Rattle.bplint_engine.specs.Raw.{IsRawOf, IsSafeRaw, IsWholeRaw, raw_word, IsPairedRaw, raw_in};
ghost use Rattle.bplist_octets.specs.Octets.{part};
ghost use Rattle.bplist_cert.specs.CheckedFile.{HonestlyChecked};
ghost use Rattle.bplist_cursor.specs.Causes.{GivesCursor, GivesRead, cursor_read, read_failed as part_unread};
ghost use Rattle.bplint_engine.specs.Streams.{IsCut, Puts, PutsSome, SendsAll};
ghost use Rattle.bplint_engine.specs.declared.raw_bytes.Raw.TheVariants.{Data, Text};
ghost use Rattle.std.specs.Io.KnownBytes.{Appends};
ghost use Rattle.bplist_objects.specs.declared.head.Kind.TheVariants.{Bytes};

use bplint_lines::RunFault;
use bplist_cert::Checked;
use bplist_cursor::{CursorFault, Face, Node, Unread, body_bytes, body_units, face, node_head};
use bplist_objects::{Head, Kind};
use bplist_octets::{Sink, Source};
use std::alloc::{AllocError, Global};
use std::io::Write;

/// The largest number of units that one read takes.
pub(crate) const PART: usize = 1024;

/// The raw bytes of a value, or the head to read them with.
#[derive(Drop)]
pub(crate) enum Raw {
    /// The body of the data object with this head.
    Data(Head),
    /// The UTF-8 of the text object with this head. Each surrogate of the text has its other half.
    Text(Head),
    /// Short bytes, held here.
    Word(Vec<u8>),
}

/// Returns the raw bytes of a node's value, or `None` if it has none. Reads a text to its end to look for surrogates
/// without their other half.
pub(crate) fn raw_of<S: Source>(
    alloc: Global,
    checked: &mut Checked<S>,
    node: Node,
) -> Result<Option<Raw>, CursorFault>
    ensures reads { OnlyReadsFile (cursor_read result) checked.old checked.new }
    ensures safe { IfOk result (λ found. IfSome found (IsSafeRaw (length checked.old.source.octets))) }
    ensures exact { IsTrue checked.old.source.honest → IsVouchedBy checked.old.certificate.heights node.object.0
        → (w : Value) → Holds checked.old.source.octets checked.old.frame node.object.0 w
        → GivesCursor (IsRawOf checked.old.source.octets w) result }
{
    let head = node_head(checked, node)?;
    match head.kind {
        Kind::Bytes => Ok(Some(Raw::Data(head))),
        Kind::Ascii | Kind::Wide => {
            if is_paired(alloc, checked, &head)? {
                Ok(Some(Raw::Text(head)))
            } else {
                Ok(None)
            }
        }
        _ => {
            let shown = face(alloc, checked, node)?;
            match word_of(alloc, &shown)? {
                Some(word) => Ok(Some(Raw::Word(word))),
                None => Ok(None),
            }
        }
    }
}

fn word_of(alloc: Global, shown: &Face) -> Result<Option<Vec<u8>>, AllocError>
    ensures { IfOk result (λ word. option_map (λ bytes. bytes.items) word ≡ raw_word shown.now) }
{
    match shown {
        Face::Bool(false) => Ok(Some(Vec::from_slice(alloc, b"false")?)),
        Face::Bool(true) => Ok(Some(Vec::from_slice(alloc, b"true")?)),
        Face::Int(number) => Ok(Some(format!(in alloc; "{number}")?.into_bytes())),
        Face::Uid(number) => Ok(Some(format!(in alloc; "{number}")?.into_bytes())),
        _ => Ok(None),
    }
}

fn is_paired<S: Source>(
    alloc: Global,
    checked: &mut Checked<S>,
    head: &Head,
) -> Result<bool, CursorFault>
    requires text { IsSafeText (length checked.old.source.octets) head.now }
    ensures reads { OnlyReadsFile (cursor_read result) checked.old checked.new }
    ensures exact { IsTrue checked.old.source.honest
        → GivesCursor (λ paired. paired ≡ not (has_unpaired_surrogate (units_of checked.old.source.octets head.now))) result }
{
    let count = head.count;
    let mut buffer = [0; PART];
    let mut done = 0;
    while done < count {
        let now = read_characters(checked, head, done, &mut buffer)?;
        if String::from_utf16(alloc, &buffer[..now])?.is_err() {
            return Ok(false);
        }
        done += now as u64;
    }
    Ok(true)
}

/// Reads units of a text from number `from` on into the buffer. Reads as many as fit, but one less if the part would
/// end between the two halves of a surrogate pair. Returns how many units it read.
pub(crate) fn read_characters<S: Source>(
    checked: &mut Checked<S>,
    head: &Head,
    from: u64,
    buffer: &mut [u16],
) -> Result<usize, Unread>
    requires text { IsSafeText (length checked.old.source.octets) head.now }
    requires within { from < head.now.count }
    requires room { 2 ≤ length buffer.old }
    ensures reads { OnlyReadsFile (part_unread result) checked.old checked.new }
    ensures some { IfOk result (λ n. (0 < n) × (n ≤ length buffer.new) × (from + n ≤ head.now.count)) }
    ensures exact { GivesRead (λ n. HonestlyChecked checked.old (λ f _. IsCut (units_of f head.now) (from + n)
        × (take n buffer.new ≡ part (units_of f head.now) from n))) result }
{
    let left = head.count - from;
    let now = left.min(buffer.len() as u64) as usize;
    body_units(checked, head, from, &mut buffer[..now])?;
    if (now as u64) < left && is_high_surrogate(buffer[now - 1]) {
        Ok(now - 1)
    } else {
        Ok(now)
    }
}

fn is_high_surrogate(unit: u16) -> bool
    ensures { result ≡ is_high_surrogate unit }
{
    matches!(unit, 0xD800..=0xDBFF)
}

/// Writes raw bytes, and flushes the sink. After Ok it wrote, over any source, as many bytes of data or the UTF-8 of as
/// many units as the head counts.
pub(crate) fn send_raw<S: Source, W: Write>(
    alloc: Global,
    checked: &mut Checked<S>,
    raw: &Raw,
    out: &mut W,
) -> Result<(), RunFault>
    requires { IsSafeRaw (length checked.old.source.octets) raw.now }
    ensures reads { OnlyReadsFile (read_failed result) checked.old checked.new }
    ensures exact { IsTrue checked.old.source.honest → IsPairedRaw checked.old.source.octets raw.now
        → SendsAll (W.contents out.old) (W.contents out.new) (raw_in checked.old.source.octets raw.now) result }
    ensures whole { OnOk result ((bytes : List ℕ) × IsWholeRaw raw.now bytes × Appends (W.contents out.old) (W.contents out.new) bytes) }
{
    let mut sink = Sink::new();
    put_raw(alloc, checked, raw, &mut sink, out)?;
    sink.flush(out)?;
    Ok(())
}

fn put_raw<S: Source, W: Write>(
    alloc: Global,
    checked: &mut Checked<S>,
    raw: &Raw,
    sink: &mut Sink,
    out: &mut W,
) -> Result<(), RunFault>
    requires { IsSafeRaw (length checked.old.source.octets) raw.now }
    ensures reads { OnlyReadsFile (read_failed result) checked.old checked.new }
    ensures exact { IsTrue checked.old.source.honest → IsPairedRaw checked.old.source.octets raw.now
        → Puts (W.contents out.old) (W.contents out.new) sink.old sink.new
        (raw_in checked.old.source.octets raw.now) result }
    ensures whole { PutsSome (IsWholeRaw raw.now) (W.contents out.old) (W.contents out.new) sink.old sink.new result }
{
    match raw {
        Raw::Data(head) => put_data(checked, head, sink, out),
        Raw::Text(head) => put_text(alloc, checked, head, sink, out),
        Raw::Word(word) => Ok(sink.put(out, word)?),
    }
}

fn put_data<S: Source, W: Write>(
    checked: &mut Checked<S>,
    head: &Head,
    sink: &mut Sink,
    out: &mut W,
) -> Result<(), RunFault>
    requires kind { head.now.kind ≡ Bytes }
    requires head { IsSafeBody (length checked.old.source.octets) head.now }
    ensures reads { OnlyReadsFile (read_failed result) checked.old checked.new }
    ensures exact { IsTrue checked.old.source.honest → Puts (W.contents out.old) (W.contents out.new) sink.old sink.new
        (part checked.old.source.octets head.now.body head.now.count) result }
    ensures whole { PutsSome (IsWholeRaw (Data head.now)) (W.contents out.old) (W.contents out.new) sink.old sink.new result }
{
    let mut buffer = [0; PART];
    let mut done = 0;
    while done < head.count {
        let now = (head.count - done).min(PART as u64);
        let bytes = &mut buffer[..now as usize];
        body_bytes(checked, head, done, bytes)?;
        sink.put(out, bytes)?;
        done += now;
    }
    Ok(())
}

/// Returns `Changed` if a surrogate has lost its other half.
fn put_text<S: Source, W: Write>(
    alloc: Global,
    checked: &mut Checked<S>,
    head: &Head,
    sink: &mut Sink,
    out: &mut W,
) -> Result<(), RunFault>
    requires text { IsSafeText (length checked.old.source.octets) head.now }
    ensures reads { OnlyReadsFile (read_failed result) checked.old checked.new }
    ensures exact { IsTrue checked.old.source.honest
        → has_unpaired_surrogate (units_of checked.old.source.octets head.now) ≡ false
        → Puts (W.contents out.old) (W.contents out.new) sink.old sink.new
        (encode_utf8_all (utf16_lossy_chars (units_of checked.old.source.octets head.now))) result }
    ensures whole { PutsSome (IsWholeRaw (Text head.now)) (W.contents out.old) (W.contents out.new) sink.old sink.new result }
{
    let count = head.count;
    let mut buffer = [0; PART];
    let mut done = 0;
    while done < count {
        let now = read_characters(checked, head, done, &mut buffer)?;
        let Ok(text) = String::from_utf16(alloc, &buffer[..now])? else {
            return Err(RunFault::Changed);
        };
        sink.put(out, text.as_bytes())?;
        done += now as u64;
    }
    Ok(())
}
