//! Measures values.

ghost use Rattle.std.specs.Prelude.{◌≡◌, ◌⊎◌, Result, Ok, Err, MatchResult};
ghost use Rattle.bplist_c.specs.Prelude.{Holds, BplistSizes as sizes, Status as status, Memory, OnObject, IsFileOf};
ghost use Rattle.bplist_c.specs.Prelude.{IsSame, OnHandle, sizes_by, Tells, form_of, AreMeasuresOf, cap};
ghost use Rattle.bplist_c.specs.Prelude.{nodes as node_count};

use crate::handle::BplistHandle;
use crate::loan::with_checked;
use crate::status::{Status, tell};
use bplist_cert::Checked;
use bplist_cursor::{CursorFault, Form, Measures, measure};
use bplist_objects::ObjectNo;
use bplist_octets::SliceSource;
use std::alloc::Global;

/// The size of a value.
#[repr(C)]
#[derive(Clone, Copy, Debug, Drop)]
pub struct BplistSizes {
    /// The number of nodes of its tree, or 18446744073709551615 if there are more.
    pub nodes: u64,
    /// The length of its text in bytes, or 18446744073709551615 if it is longer; 0 if the value has no text.
    pub text: u64,
    /// 1 if the value has a text, otherwise 0.
    pub has_text: u32,
}

fn sizes(nodes: u64, form: Form) -> BplistSizes
    ensures { result ≡ sizes_by nodes form }
{
    match form {
        Form::NoForm => BplistSizes {
            nodes,
            text: 0,
            has_text: 0,
        },
        Form::Length(length) => BplistSizes {
            nodes,
            text: length,
            has_text: 1,
        },
    }
}

/// Returns `OtherFile` if an object is not what the check found: then the file has changed.
pub(crate) fn measures_of(
    alloc: Global,
    checked: &mut Checked<SliceSource<'_>>,
) -> Result<Measures, Status>
    ensures same { checked.new ≡ checked.old }
    ensures exact { MatchResult result (AreMeasuresOf checked.old) (λ why. why ≡ Memory) }
{
    let _before = checked.octets();
    let measures = measure(alloc, checked);
    let _after = checked.octets();
    match measures {
        Ok(measures) => Ok(measures),
        Err(CursorFault::Memory) => Err(Status::Memory),
        Err(_) => Err(Status::OtherFile),
    }
}

fn size_of(
    alloc: Global,
    checked: &mut Checked<SliceSource<'_>>,
    object: u32,
) -> Result<BplistSizes, Status>
    ensures same { checked.new ≡ checked.old }
    ensures exact { OnObject checked.old object Holds (λ v answer. (answer ≡ Ok (sizes_by (cap (node_count v)) (form_of v)))
        ⊎ (answer ≡ Err Memory)) result }
{
    let n = ObjectNo(object);
    if checked.height(n) == 0 {
        return Err(Status::NoObject);
    }
    match measures_of(alloc, checked) {
        Ok(measures) => match (measures.nodes(n), measures.form(n)) {
            (Some(nodes), Some(form)) => Ok(sizes(nodes, form)),
            _ => Err(Status::NoObject),
        },
        Err(why) => Err(why),
    }
}

/// Measures the value of an object.
#[unsafe(no_mangle)]
pub extern "C" fn bplist_size(
    alloc: Global,
    handle: &mut BplistHandle,
    file: &[u8],
    object: u32,
    out: &mut BplistSizes,
) -> u32
    requires same { IsFileOf file.now handle.old }
    ensures kept { IsSame handle.old handle.new }
    ensures exact { (answer : Result sizes status) × Tells answer out.old out.new result
        × OnHandle file.entry handle.old (λ checked. OnObject checked object Holds
        (λ v answer. (answer ≡ Ok (sizes_by (cap (node_count v)) (form_of v))) ⊎ (answer ≡ Err Memory))) answer }
{
    let answer = with_checked(
        alloc,
        handle,
        file,
        |checked| size_of(alloc, checked, object),
    );
    tell(answer, out)
}
