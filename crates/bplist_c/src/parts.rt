//! Reads parts of bodies: bytes, and units of texts.

ghost use Rattle.std.specs.Prelude.{◌≡◌, ◌+◌, ◌≤◌, ℕ, List, Ok, Result, length};
ghost use Rattle.bplist_c.specs.Prelude.{part, units_of, IsHeadOf, Spells, IsSafeText, Status as status};
ghost use Rattle.bplist_c.specs.Prelude.{OnObject, bytes_of_body, units_answer, IsFileOf, IsSame, OnHandle, PutsItems};

use crate::handle::BplistHandle;
use crate::loan::{give_back, lend};
use crate::object::head_of_object;
use crate::status::Status;
use bplist_cert::Checked;
use bplist_objects::{Head, Kind, read_units};
use bplist_octets::SliceSource;
use std::alloc::Global;

fn put_bytes(
    checked: &Checked<SliceSource<'_>>,
    object: u32,
    from: u64,
    buffer: &mut [u8],
    count: &mut u64,
) -> u32
    ensures { (answer : Result (List ℕ) status) × PutsItems answer buffer.old buffer.new count.old count.new result
        × OnObject checked.now object IsHeadOf (λ head answer. answer
        ≡ Ok (part (bytes_of_body checked.now.source.octets head) from (length buffer.old))) answer }
{
    let file = checked.octets();
    let head = match head_of_object(checked, object) {
        Ok(head) => head,
        Err(status) => return status.number(),
    };
    let body = &file[head.body as usize..head.end as usize];
    let from = from.min(body.len() as u64) as usize;
    let now = (body.len() - from).min(buffer.len());
    buffer[..now].copy_from_slice(&body[from..from + now]);
    *count = now as u64;
    0
}

pub(crate) fn read_part(file: &[u8], head: &Head, from: u64, into: &mut [u16])
    requires text { IsSafeText (length file.now) head.now }
    requires within { from + length into.old ≤ head.now.count }
    ensures { into.new ≡ part (units_of file.now head.now) from (length into.old) }
{
    // No read of a slice fails.
    let _read = read_units(&mut SliceSource::new(file), head, from, into);
}

fn put_units(
    checked: &Checked<SliceSource<'_>>,
    object: u32,
    from: u64,
    buffer: &mut [u16],
    count: &mut u64,
) -> u32
    ensures { (answer : Result (List ℕ) status) × PutsItems answer buffer.old buffer.new count.old count.new result
        × OnObject checked.now object Spells (λ content answer. answer ≡ units_answer from (length buffer.old) content) answer }
{
    let file = checked.octets();
    let head = match head_of_object(checked, object) {
        Ok(head) => head,
        Err(status) => return status.number(),
    };
    match head.kind {
        Kind::Ascii | Kind::Wide => {
            let from = from.min(head.count);
            let now = (head.count - from).min(buffer.len() as u64);
            read_part(file, &head, from, &mut buffer[..now as usize]);
            *count = now;
            0
        }
        _ => Status::OtherKind.number(),
    }
}

/// Reads the bytes of a body from byte `from` on, as many as there are and as fit.
#[unsafe(no_mangle)]
pub extern "C" fn bplist_read(
    alloc: Global,
    handle: &mut BplistHandle,
    file: &[u8],
    object: u32,
    from: u64,
    bytes: &mut [u8],
    count: &mut u64,
) -> u32
    requires same { IsFileOf file.now handle.old }
    ensures kept { IsSame handle.old handle.new }
    ensures exact { (answer : Result (List ℕ) status) × PutsItems answer bytes.old bytes.new count.old count.new result
        × OnHandle file.entry handle.old (λ checked. OnObject checked object IsHeadOf (λ head answer. answer
        ≡ Ok (part (bytes_of_body checked.source.octets head) from (length bytes.old)))) answer }
{
    match lend(alloc, handle, file) {
        Ok(lent) => {
            let status = put_bytes(&lent.checked, object, from, bytes, count);
            give_back(handle, lent);
            status
        }
        Err(status) => status.number(),
    }
}

/// Reads the units of a text from unit `from` on, as many as there are and as fit.
#[unsafe(no_mangle)]
pub extern "C" fn bplist_units(
    alloc: Global,
    handle: &mut BplistHandle,
    file: &[u8],
    object: u32,
    from: u64,
    units: &mut [u16],
    count: &mut u64,
) -> u32
    requires same { IsFileOf file.now handle.old }
    ensures kept { IsSame handle.old handle.new }
    ensures exact { (answer : Result (List ℕ) status) × PutsItems answer units.old units.new count.old count.new result
        × OnHandle file.entry handle.old (λ checked. OnObject checked object Spells
        (λ content answer. answer ≡ units_answer from (length units.old) content)) answer }
{
    match lend(alloc, handle, file) {
        Ok(lent) => {
            let status = put_units(&lent.checked, object, from, units, count);
            give_back(handle, lent);
            status
        }
        Err(status) => status.number(),
    }
}
