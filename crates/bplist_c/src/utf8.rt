//! Texts and keys in UTF-8.

ghost use Rattle.std.specs.Prelude.{◌≡◌, ℕ, List, Result, length, flat_map, MatchResult};
ghost use Rattle.std.specs.Str.{chars};
ghost use Rattle.std.specs.Char.Escape.{encode_utf16};
ghost use Rattle.bplist_c.specs.Prelude.{IsFileOf, IsSafeText, IsSame, KeySays, OnHandle, OnObject, PutsItems, Spells};
ghost use Rattle.bplist_c.specs.Prelude.{Status as status, IsUtf8Of, Memory, Tells, Utf8Says, items_of, units_of};

use crate::handle::BplistHandle;
use crate::loan::with_checked;
use crate::lookup::step_of;
use crate::object::head_of_object;
use crate::parts::read_part;
use crate::status::{Status, put_answer, tell};
use bplist_cert::Checked;
use bplist_objects::{Head, Kind};
use bplist_octets::SliceSource;
use std::alloc::Global;

fn utf8_of_text(alloc: Global, file: &[u8], head: &Head) -> Result<Vec<u8>, Status>
    requires text { IsSafeText (length file.now) head.now }
    ensures { IsUtf8Of (units_of file.now head.now) (items_of result) }
{
    let mut units = vec![in alloc; 0u16; head.count as usize]?;
    read_part(file, head, 0, &mut units);
    match String::from_utf16(alloc, &units)? {
        Ok(text) => Ok(text.into_bytes()),
        Err(_) => Err(Status::Unpaired),
    }
}

fn utf8_of_object(
    alloc: Global,
    checked: &Checked<SliceSource<'_>>,
    object: u32,
) -> Result<Vec<u8>, Status>
    ensures { OnObject checked.now object Spells Utf8Says (items_of result) }
{
    let file = checked.octets();
    let head = head_of_object(checked, object)?;
    match head.kind {
        Kind::Ascii | Kind::Wide => utf8_of_text(alloc, file, &head),
        _ => Err(Status::OtherKind),
    }
}

/// Writes the UTF-8 of a text to a buffer.
#[unsafe(no_mangle)]
pub extern "C" fn bplist_utf8(
    alloc: Global,
    handle: &mut BplistHandle,
    file: &[u8],
    object: u32,
    buffer: &mut [u8],
    count: &mut u64,
) -> u32
    requires same { IsFileOf file.now handle.old }
    ensures kept { IsSame handle.old handle.new }
    ensures exact { (answer : Result (List ℕ) status) × PutsItems answer buffer.old buffer.new count.old count.new result
        × OnHandle file.entry handle.old (λ checked. OnObject checked object Spells Utf8Says) answer }
{
    let answer = with_checked(
        alloc,
        handle,
        file,
        |checked| utf8_of_object(alloc, checked, object),
    );
    put_answer(&answer, buffer, count)
}

fn units_of_key(alloc: Global, key: &str) -> Result<Vec<u16>, Status>
    ensures { MatchResult result (λ units. units.items ≡ flat_map encode_utf16 (chars key.now)) (λ why. why ≡ Memory) }
{
    let mut units = Vec::new(alloc);
    for c in key.chars() {
        let mut pair = [0; 2];
        units.extend_from_slice(c.encode_utf16(&mut pair))?;
    }
    Ok(units)
}

fn step_by_utf8(
    alloc: Global,
    checked: &mut Checked<SliceSource<'_>>,
    object: u32,
    key: &[u8],
) -> Result<u32, Status>
    ensures same { checked.new ≡ checked.old }
    ensures exact { KeySays key.now object checked.old result }
{
    let Ok(text) = std::str::from_utf8(key) else {
        return Err(Status::NotUtf8);
    };
    let units = units_of_key(alloc, text)?;
    step_of(checked, object, &units)
}

/// Follows one step from an object, by a key in UTF-8.
#[unsafe(no_mangle)]
pub extern "C" fn bplist_find_utf8(
    alloc: Global,
    handle: &mut BplistHandle,
    file: &[u8],
    object: u32,
    key: &[u8],
    out: &mut u32,
) -> u32
    requires same { IsFileOf file.now handle.old }
    ensures kept { IsSame handle.old handle.new }
    ensures exact { (answer : Result ℕ status) × Tells answer out.old out.new result
        × OnHandle file.entry handle.old (KeySays key.now object) answer }
{
    let answer = with_checked(
        alloc,
        handle,
        file,
        |checked| step_by_utf8(alloc, checked, object, key),
    );
    tell(answer, out)
}
