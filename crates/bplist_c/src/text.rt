//! Writes values as old-style text.

ghost use Rattle.std.specs.Prelude.{◌≡◌, Result, length};
ghost use Rattle.bplist_c.specs.Prelude.{Status as status, Text as text, IsFileOf, IsSame, OnHandle, OnObject, Holds};
ghost use Rattle.bplist_c.specs.Prelude.{IsTextOf, TellsText, printed_as, text_length};

use crate::handle::BplistHandle;
use crate::loan::with_checked;
use crate::sizes::measures_of;
use crate::status::{Status, put_all};
use bplist_ascii::{PrintFault, print};
use bplist_cert::Checked;
use bplist_cursor::{Form, Measures, Node};
use bplist_objects::ObjectNo;
use bplist_octets::SliceSource;
use std::alloc::Global;

/// The length of a text, or why there is none.
#[repr(C)]
#[derive(Clone, Copy, Debug, Drop)]
pub struct BplistWritten {
    /// The length of the text in bytes.
    pub length: u64,
    /// The first object, in the order of writing, whose kind has no text.
    pub object: u32,
}

/// A text that fits, the length of one that does not, or the first object whose kind has no text.
#[derive(Drop)]
pub(crate) enum Text {
    Fits(Vec<u8>),
    TooLong(u64),
    Formless(ObjectNo),
}

fn text_of(
    alloc: Global,
    checked: &mut Checked<SliceSource<'_>>,
    object: u32,
    room: u64,
) -> Result<Text, Status>
    ensures same { checked.new ≡ checked.old }
    ensures exact { OnObject checked.old object Holds
        (λ v. IsTextOf checked.old.source.octets checked.old.frame object v room) result }
{
    let n = ObjectNo(object);
    if checked.height(n) == 0 {
        return Err(Status::NoObject);
    }
    let measures = measures_of(alloc, checked)?;
    let length = length_of(&measures, n);
    let mut text = Vec::new(alloc);
    let _before = checked.octets();
    let printed = print(
        alloc,
        checked,
        &measures,
        Node { object: n },
        room,
        &mut text,
    );
    let _after = checked.octets();
    text_outcome(printed, text, length)
}

/// A write to a list fails if memory is refused. A read fails only if the file has changed.
fn text_outcome(printed: Result<(), PrintFault>, text: Vec<u8>, length: u64) -> Result<Text, Status>
    ensures { result ≡ printed_as printed text length }
{
    match printed {
        Ok(()) => Ok(Text::Fits(text)),
        Err(PrintFault::NoAsciiForm(object)) => Ok(Text::Formless(object)),
        Err(PrintFault::TooLong) => Ok(Text::TooLong(length)),
        Err(PrintFault::Write { .. }) | Err(PrintFault::Memory) => Err(Status::Memory),
        Err(_) => Err(Status::OtherFile),
    }
}

fn length_of(measures: &Measures, n: ObjectNo) -> u64
    ensures { result ≡ text_length measures.now n.0 }
{
    match measures.form(n) {
        Some(Form::Length(length)) => length,
        _ => 0,
    }
}

fn tell_text(answer: Result<Text, Status>, buffer: &mut [u8], out: &mut BplistWritten) -> u32
    ensures { TellsText buffer.old buffer.new out.old out.new result answer }
{
    match answer {
        Ok(Text::Fits(text)) => {
            out.object = 0;
            put_all(&text, buffer, &mut out.length)
        }
        Ok(Text::TooLong(length)) => {
            *out = BplistWritten { length, object: 0 };
            Status::Short.number()
        }
        Ok(Text::Formless(object)) => {
            *out = BplistWritten {
                length: 0,
                object: object.0,
            };
            Status::NoText.number()
        }
        Err(status) => status.number(),
    }
}

/// Writes the value of an object as old-style text.
#[unsafe(no_mangle)]
pub extern "C" fn bplist_text(
    alloc: Global,
    handle: &mut BplistHandle,
    file: &[u8],
    object: u32,
    buffer: &mut [u8],
    out: &mut BplistWritten,
) -> u32
    requires same { IsFileOf file.now handle.old }
    ensures kept { IsSame handle.old handle.new }
    ensures exact { (answer : Result text status) × TellsText buffer.old buffer.new out.old out.new result answer
        × OnHandle file.entry handle.old (λ checked. OnObject checked object Holds
        (λ v. IsTextOf checked.source.octets checked.frame object v (length buffer.old))) answer }
{
    let room = buffer.len() as u64;
    let answer = with_checked(
        alloc,
        handle,
        file,
        |checked| text_of(alloc, checked, object, room),
    );
    tell_text(answer, buffer, out)
}
