//! Gives the kinds and bodies of many objects by one call.

ghost use Rattle.std.specs.Prelude.{◌≡◌, List, Result, length};
ghost use Rattle.bplist_c.specs.Prelude.{BplistBody as body, Status as status, AreFaces, FacesSay, IsFace, IsFileOf};
ghost use Rattle.bplist_c.specs.Prelude.{IsSame, OnHandle, PutsItems};

use crate::handle::BplistHandle;
use crate::loan::{give_back, lend};
use crate::object::{BplistBody, face_of};
use bplist_cert::Checked;
use bplist_octets::SliceSource;
use std::alloc::Global;

/// All numbers are 0 if the certificate does not vouch for the object.
#[inline(always)]
fn face_or_zeros(checked: &Checked<SliceSource<'_>>, object: u32) -> BplistBody
    ensures { IsFace checked.now object result }
{
    match face_of(checked, object) {
        Ok(body) => body,
        Err(_) => BplistBody {
            kind: 0,
            count: 0,
            place: 0,
            length: 0,
        },
    }
}

fn fill_faces(checked: &Checked<SliceSource<'_>>, objects: &[u32], into: &mut [BplistBody])
    requires many { length objects.now ≡ length into.old }
    ensures { AreFaces checked.now objects.now into.new }
{
    for k in 0..into.len() {
        into[k] = face_or_zeros(checked, objects[k]);
    }
}

fn put_faces(
    checked: &Checked<SliceSource<'_>>,
    objects: &[u32],
    buffer: &mut [BplistBody],
    count: &mut u64,
)
    ensures { (answer : Result (List body) status) × PutsItems answer buffer.old buffer.new count.old count.new 0
        × FacesSay objects.now (length buffer.old) checked.now answer }
{
    let now = objects.len().min(buffer.len());
    fill_faces(checked, &objects[..now], &mut buffer[..now]);
    *count = now as u64;
}

/// Gives the kinds and bodies of these objects, as many as fit.
#[unsafe(no_mangle)]
pub extern "C" fn bplist_faces(
    alloc: Global,
    handle: &mut BplistHandle,
    file: &[u8],
    objects: &[u32],
    bodies: &mut [BplistBody],
    count: &mut u64,
) -> u32
    requires same { IsFileOf file.now handle.old }
    ensures kept { IsSame handle.old handle.new }
    ensures exact { (answer : Result (List body) status)
        × PutsItems answer bodies.old bodies.new count.old count.new result
        × OnHandle file.entry handle.old (FacesSay objects.now (length bodies.old)) answer }
{
    match lend(alloc, handle, file) {
        Ok(lent) => {
            put_faces(&lent.checked, objects, bodies, count);
            give_back(handle, lent);
            0
        }
        Err(status) => status.number(),
    }
}
