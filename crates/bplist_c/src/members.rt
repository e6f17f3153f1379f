//! Gives the members of containers, by their objects.

ghost use Rattle.std.specs.Prelude.{◌≡◌, ◌≢◌, ◌+◌, ◌*◌, ◌%◌, ◌^◌, ◌≤◌, ◌<◌, ℕ, List, Result, length, ok_or};
ghost use Rattle.std.specs.Prelude.{slice_index};
ghost use Rattle.bplist_c.specs.Prelude.{Spells, IsSafeHead, member_reference, nth_number, ref_count, Dict, AreSpelled};
ghost use Rattle.bplist_c.specs.Prelude.{MembersSay, Status as status, NoMember, OnObject, IsFileOf, IsSame, OnHandle};
ghost use Rattle.bplist_c.specs.Prelude.{PutsItems, Tells};

use crate::handle::BplistHandle;
use crate::loan::{give_back, lend, with_checked};
use crate::object::head_of_object;
use crate::status::{Status, tell};
use bplist_cert::Checked;
use bplist_cursor::member_by_head;
use bplist_objects::{Head, Kind, read_refs, refs_of};
use bplist_octets::SliceSource;
use std::alloc::Global;

/// The largest number of members that one read takes.
const BLOCK: usize = 64;

/// The largest number of pairs that these members can belong to: the first may be a value, and the last a key.
const PAIRS: usize = 33;

fn member_of(checked: &mut Checked<SliceSource<'_>>, object: u32, i: u64) -> Result<u32, Status>
    ensures same { checked.new ≡ checked.old }
    ensures exact { OnObject checked.old object Spells
        (λ content answer. answer ≡ ok_or (member_reference content i) NoMember) result }
{
    let _before = checked.octets();
    let head = head_of_object(checked, object)?;
    let found = member_by_head(checked, &head, i);
    let _after = checked.octets();
    match found {
        Ok(Some(node)) => Ok(node.object.0),
        Ok(None) => Err(Status::NoMember),
        Err(_) => Err(Status::NoObject),
    }
}

/// The references are in the order of the file. In a dictionary all keys come before all values.
fn read_row(checked: &Checked<SliceSource<'_>>, head: &Head, from: u64, into: &mut [u64])
    requires head { IsSafeHead checked.now.frame head.now }
    requires within { from + length into.old ≤ ref_count head.now.kind head.now.count }
    ensures { (k : ℕ) → k < length into.new → slice_index into.new k
        ≡ nth_number checked.now.source.octets head.now.body checked.now.frame.ref_size (from + k) }
{
    let frame = checked.frame();
    let mut source = SliceSource::new(checked.octets());
    // No read of a slice fails.
    let _read = read_refs(&mut source, &frame, head, from, into);
}

/// Every object number fits.
fn in_32_bits(number: u64) -> u32
    ensures { result ≡ number % 2 ^ 32 }
{
    (number % (1 << 32)) as u32
}

fn fill_in_order(checked: &Checked<SliceSource<'_>>, head: &Head, from: u64, into: &mut [u32])
    requires kind { head.now.kind ≢ Dict }
    requires head { IsSafeHead checked.now.frame head.now }
    requires few { length into.old ≤ 64 }
    requires within { from + length into.old ≤ ref_count head.now.kind head.now.count }
    ensures { AreSpelled checked.now.source.octets checked.now.frame head.now from into.new }
{
    let _octets = checked.octets();
    let mut block = [0u64; BLOCK];
    let block = &mut block[..into.len()];
    read_row(checked, head, from, block);
    for k in 0..into.len() {
        into[k] = in_32_bits(block[k]);
    }
}

/// Each key comes before its value.
fn fill_in_pairs(checked: &Checked<SliceSource<'_>>, head: &Head, from: u64, into: &mut [u32])
    requires kind { head.now.kind ≡ Dict }
    requires head { IsSafeHead checked.now.frame head.now }
    requires few { length into.old ≤ 64 }
    requires fits { 2 * head.now.count < 2 ^ 64 }
    requires within { from + length into.old ≤ 2 * head.now.count }
    ensures { AreSpelled checked.now.source.octets checked.now.frame head.now from into.new }
{
    let (first, odd) = (from / 2, (from % 2) as usize);
    let pairs = (odd + into.len()).div_ceil(2);
    let mut keys = [0u64; PAIRS];
    let keys = &mut keys[..pairs];
    read_row(checked, head, first, keys);
    let mut values = [0u64; PAIRS];
    let values = &mut values[..pairs];
    read_row(checked, head, head.count + first, values);
    for k in 0..into.len() {
        let i = odd + k;
        if i % 2 == 0 {
            into[k] = in_32_bits(keys[i / 2]);
        } else {
            into[k] = in_32_bits(values[i / 2]);
        }
    }
}

fn fill_block(checked: &Checked<SliceSource<'_>>, head: &Head, from: u64, into: &mut [u32])
    requires head { IsSafeHead checked.now.frame head.now }
    requires few { length into.old ≤ 64 }
    requires fits { ref_count head.now.kind head.now.count < 2 ^ 64 }
    requires within { from + length into.old ≤ ref_count head.now.kind head.now.count }
    ensures { AreSpelled checked.now.source.octets checked.now.frame head.now from into.new }
{
    match head.kind {
        Kind::Dict => fill_in_pairs(checked, head, from, into),
        _ => fill_in_order(checked, head, from, into),
    }
}

fn fill(checked: &Checked<SliceSource<'_>>, head: &Head, from: u64, into: &mut [u32])
    requires head { IsSafeHead checked.now.frame head.now }
    requires fits { ref_count head.now.kind head.now.count < 2 ^ 64 }
    requires within { from + length into.old ≤ ref_count head.now.kind head.now.count }
    ensures { AreSpelled checked.now.source.octets checked.now.frame head.now from into.new }
{
    let mut done = 0usize;
    while done < into.len() {
        let now = (into.len() - done).min(BLOCK);
        fill_block(
            checked,
            head,
            from + done as u64,
            &mut into[done..done + now],
        );
        done += now;
    }
}

fn put_members(
    checked: &Checked<SliceSource<'_>>,
    object: u32,
    from: u64,
    buffer: &mut [u32],
    count: &mut u64,
) -> u32
    ensures { (answer : Result (List ℕ) status) × PutsItems answer buffer.old buffer.new count.old count.new result
        × OnObject checked.now object Spells (MembersSay from (length buffer.old)) answer }
{
    let head = match head_of_object(checked, object) {
        Ok(head) => head,
        Err(status) => return status.number(),
    };
    let (_octets, _frame) = (checked.octets(), checked.frame());
    let all = refs_of(&head);
    let from = from.min(all);
    let now = (all - from).min(buffer.len() as u64);
    fill(checked, &head, from, &mut buffer[..now as usize]);
    *count = now;
    0
}

/// Gives the object of member `i` of an object.
#[unsafe(no_mangle)]
pub extern "C" fn bplist_member(
    alloc: Global,
    handle: &mut BplistHandle,
    file: &[u8],
    object: u32,
    i: u64,
    out: &mut u32,
) -> u32
    requires same { IsFileOf file.now handle.old }
    ensures kept { IsSame handle.old handle.new }
    ensures exact { (answer : Result ℕ status) × Tells answer out.old out.new result
        × OnHandle file.entry handle.old (λ checked. OnObject checked object Spells
        (λ content answer. answer ≡ ok_or (member_reference content i) NoMember)) answer }
{
    let answer = with_checked(alloc, handle, file, |checked| member_of(checked, object, i));
    tell(answer, out)
}

/// Gives the objects of the members from number `from` on, as many as there are and as fit.
#[unsafe(no_mangle)]
pub extern "C" fn bplist_members(
    alloc: Global,
    handle: &mut BplistHandle,
    file: &[u8],
    object: u32,
    from: u64,
    objects: &mut [u32],
    count: &mut u64,
) -> u32
    requires same { IsFileOf file.now handle.old }
    ensures kept { IsSame handle.old handle.new }
    ensures exact { (answer : Result (List ℕ) status)
        × PutsItems answer objects.old objects.new count.old count.new result
        × OnHandle file.entry handle.old (λ checked. OnObject checked object Spells
        (MembersSay from (length objects.old))) answer }
{
    match lend(alloc, handle, file) {
        Ok(lent) => {
            let status = put_members(&lent.checked, object, from, objects, count);
            give_back(handle, lent);
            status
        }
        Err(status) => status.number(),
    }
}
