//! The verdict on a file, as C is given it.

ghost use Rattle.std.specs.Prelude.{◌≡◌};
ghost use Rattle.bplist_c.specs.Prelude.{NO_VERDICT, refused_told};
ghost use Rattle.bplist_lint.specs.declared.answer.LintRefusal.TheVariants as refusals;

use crate::status::Status;
use bplist_lint::{LintRefusal, ObjectNos};
use bplist_objects::{Fault, Rule, rule_number};

/// The verdict on a file. A number that does not apply is 0.
#[repr(C)]
#[derive(Clone, Copy, Debug, Drop)]
pub struct BplistVerdict {
    /// The number of the broken rule.
    pub rule: u32,
    /// 1 if an object breaks the rule, otherwise 0.
    pub has_object: u32,
    /// The object that breaks it; the first object of a circle.
    pub object: u32,
    /// The top object.
    pub top: u32,
    /// The kind of the top.
    pub top_kind: u32,
    /// The height of the top.
    pub height: u32,
    /// The place of the fault.
    pub place: u64,
    /// The number of objects in the circle.
    pub circle: u64,
    /// The number of objects in the file.
    pub objects: u64,
    /// The number of objects reachable from the top.
    pub reached: u64,
    /// The number of references in these objects.
    pub references: u64,
}

/// The top of a file.
#[derive(Clone, Copy, Drop)]
pub(crate) struct Top {
    /// The number of objects in the file.
    pub(crate) objects: u32,
    /// The number of the top object.
    pub(crate) object: u32,
    /// The number of its kind.
    pub(crate) kind: u32,
    /// Its height.
    pub(crate) height: u32,
}

/// A verdict of zeros.
pub(crate) const NO_VERDICT: BplistVerdict = BplistVerdict {
    rule: 0,
    has_object: 0,
    object: 0,
    top: 0,
    top_kind: 0,
    height: 0,
    place: 0,
    circle: 0,
    objects: 0,
    reached: 0,
    references: 0,
};

impl BplistVerdict {
    pub(crate) fn of_top(top: Top, reached: u64, references: u64) -> BplistVerdict
        ensures { result ≡ record NO_VERDICT {
          objects = top.objects;
          top = top.object;
          top_kind = top.kind;
          height = top.height;
          reached = reached;
          references = references;
        } }
    {
        BplistVerdict {
            top: top.object,
            top_kind: top.kind,
            height: top.height,
            objects: top.objects as u64,
            reached,
            references,
            ..NO_VERDICT
        }
    }

    pub(crate) fn of_fault(fault: Fault) -> BplistVerdict
        ensures { result ≡ (refused_told (refusals.Fault fault)).1 }
    {
        let (has_object, object) = match fault.object {
            Some(object) => (1, object.0),
            None => (0, 0),
        };
        BplistVerdict {
            rule: rule_number(fault.rule),
            has_object,
            object,
            place: fault.place,
            ..NO_VERDICT
        }
    }

    fn of_circle(circle: &ObjectNos) -> BplistVerdict
        ensures { result ≡ (refused_told (refusals.Circle circle.now)).1 }
    {
        let objects = circle.as_slice();
        BplistVerdict {
            rule: rule_number(Rule::Circle),
            has_object: 1,
            object: match objects.first() {
                Some(first) => first.0,
                None => 0,
            },
            circle: objects.len() as u64,
            ..NO_VERDICT
        }
    }
}

pub(crate) fn refused(refusal: &LintRefusal) -> (Status, BplistVerdict)
    ensures { result ≡ refused_told refusal.now }
{
    match refusal {
        LintRefusal::Fault(fault) => (Status::Fault, BplistVerdict::of_fault(*fault)),
        LintRefusal::Circle(circle) => (Status::Fault, BplistVerdict::of_circle(circle)),
        LintRefusal::Read(_) | LintRefusal::Memory => (Status::Memory, NO_VERDICT),
    }
}
