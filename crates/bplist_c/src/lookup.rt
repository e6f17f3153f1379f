//! Follows paths and single steps.

ghost use Rattle.std.specs.Prelude.{◌≡◌, ◌∷◌, [], ℕ, MatchResult, Result};
ghost use Rattle.bplist_c.specs.Prelude.{Status as status, Holds, Value as value, IsFound, Found as place, FindSays, told_found};
ghost use Rattle.bplist_c.specs.Prelude.{step_answer, why_status, OnObject, IsFileOf, IsSame, OnHandle, Tells};

use crate::handle::BplistHandle;
use crate::loan::with_checked;
use crate::status::{self, Status};
use bplist_cert::Checked;
use bplist_cursor::{Found, Node, Path, PathFault, Why, locate, step_from};
use bplist_objects::ObjectNo;
use bplist_octets::SliceSource;
use std::alloc::Global;

/// The object that a path leads to, or where the path fails.
#[repr(C)]
#[derive(Clone, Copy, Debug, Drop)]
pub struct BplistFound {
    /// The object that the path leads to.
    pub object: u32,
    /// The step that fails, or the place at which the path text is wrong.
    pub step: u64,
}

fn status_of(why: Why) -> Status
    ensures { result ≡ why_status why }
{
    match why {
        Why::NoKey => Status::NoKey,
        Why::NoIndex => Status::NoIndex,
        Why::NotSteppable => Status::NotSteppable,
    }
}

/// Returns `OtherFile` if an object is not what the check found: then the file has changed.
fn locate_in(checked: &mut Checked<SliceSource<'_>>, path: &Path) -> Result<Found, Status>
    ensures same { checked.new ≡ checked.old }
    ensures exact { MatchResult result (λ found. (v : value) → Holds checked.old.source.octets checked.old.frame
        checked.old.frame.top.0 v → IsFound checked.old checked.old.frame.top.0 v path.now found) (λ _. ⊥) }
{
    let _before = checked.octets();
    let found = locate(checked, path);
    let _after = checked.octets();
    match found {
        Ok(found) => Ok(found),
        Err(_) => Err(Status::OtherFile),
    }
}

/// The number returned is the place at which the path text is wrong.
fn find(
    alloc: Global,
    checked: &mut Checked<SliceSource<'_>>,
    path: &[u8],
) -> Result<Result<Found, u64>, Status>
    ensures same { checked.new ≡ checked.old }
    ensures exact { FindSays checked.old path.now result }
{
    let Ok(text) = std::str::from_utf8(path) else {
        return Err(Status::NotUtf8);
    };
    match Path::parse(alloc, text) {
        Ok(path) => Ok(Ok(locate_in(checked, &path)?)),
        Err(PathFault::Text { place }) => Ok(Err(place as u64)),
        Err(PathFault::Memory) => Err(Status::Memory),
    }
}

fn tell_found(answer: Result<Result<Found, u64>, Status>, out: &mut BplistFound) -> u32
    ensures { (result, out.new) ≡ told_found answer out.old }
{
    let (status, object, step) = match answer {
        Ok(Ok(Found::At(node))) => (0, node.object.0, 0),
        Ok(Ok(Found::Missing { step, why })) => (status_of(why).number(), 0, step),
        Ok(Err(place)) => (Status::PathText.number(), 0, place),
        Err(status) => return status.number(),
    };
    *out = BplistFound { object, step };
    status
}

/// Follows a path from the top.
#[unsafe(no_mangle)]
pub extern "C" fn bplist_find(
    alloc: Global,
    handle: &mut BplistHandle,
    file: &[u8],
    path: &[u8],
    out: &mut BplistFound,
) -> u32
    requires same { IsFileOf file.now handle.old }
    ensures kept { IsSame handle.old handle.new }
    ensures exact { (answer : Result (Result place ℕ) status) × ((result, out.new) ≡ told_found answer out.old)
        × OnHandle file.entry handle.old (λ checked. FindSays checked path.now) answer }
{
    let answer = with_checked(alloc, handle, file, |checked| find(alloc, checked, path));
    tell_found(answer, out)
}

pub(crate) fn step_of(
    checked: &mut Checked<SliceSource<'_>>,
    object: u32,
    units: &[u16],
) -> Result<u32, Status>
    ensures same { checked.new ≡ checked.old }
    ensures exact { OnObject checked.old object Holds (λ v answer. (found : place) × (answer ≡ step_answer found)
        × IsFound checked.old object v (units.now ∷ []) found) result }
{
    let _before = checked.octets();
    let node = Node {
        object: ObjectNo(object),
    };
    let found = step_from(checked, node, units);
    let _after = checked.octets();
    match found {
        Ok(Found::At(node)) => Ok(node.object.0),
        Ok(Found::Missing { step: _, why }) => Err(status_of(why)),
        Err(_) => Err(Status::NoObject),
    }
}

/// Follows one step from an object.
#[unsafe(no_mangle)]
pub extern "C" fn bplist_find_key(
    alloc: Global,
    handle: &mut BplistHandle,
    file: &[u8],
    object: u32,
    units: &[u16],
    out: &mut u32,
) -> u32
    requires same { IsFileOf file.now handle.old }
    ensures kept { IsSame handle.old handle.new }
    ensures exact { (answer : Result ℕ status) × Tells answer out.old out.new result
        × OnHandle file.entry handle.old (λ checked. OnObject checked object Holds (λ v answer. (found : place)
        × (answer ≡ step_answer found) × IsFound checked object v (units.now ∷ []) found)) answer }
{
    let answer = with_checked(
        alloc,
        handle,
        file,
        |checked| step_of(checked, object, units),
    );
    status::tell(answer, out)
}
