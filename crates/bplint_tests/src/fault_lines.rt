//! The lines and exit statuses of faults.

use bplint_lines::RunFault;
use bplist_lint::ObjectNos;
use bplist_objects::{Fault, ObjectNo, Rule};
use bplist_octets::ReadFault;
use std::alloc::Global;
use std::process::Abort;
use std::test::Fail;

fn says(
    rt: &impl Abort,
    alloc: Global,
    fault: RunFault,
    status: u8,
    want: &str,
) -> Result<(), Fail> {
    let line = fault.line(alloc)?;
    assert_eq!(rt; line.as_str(), want);
    assert_eq!(rt; fault.status(), status, "of {want}");
    Ok(())
}

/// Rules, objects and places; the status and the line.
const RULES: &[(Rule, Option<ObjectNo>, u64, u8, &str)] = &[
    (
        Rule::TooShort,
        None,
        40,
        1,
        "fault TooShort object none place 40",
    ),
    (
        Rule::RefHigh,
        Some(ObjectNo(0)),
        9,
        1,
        "fault RefHigh object 0 place 9",
    ),
    (
        Rule::KeyOrder,
        Some(ObjectNo(4294967295)),
        18446744073709551615,
        1,
        "fault KeyOrder object 4294967295 place 18446744073709551615",
    ),
    (Rule::Circle, None, 0, 1, "fault Circle object none place 0"),
    (
        Rule::TooLarge,
        None,
        0,
        1,
        "fault TooLarge object none place 0",
    ),
    (
        Rule::PathText,
        None,
        2,
        2,
        "fault PathText object none place 2",
    ),
];

#[test]
fn faults_of_rules(rt: HostRuntime) -> Result<(), Fail> {
    for (rule, object, place, status, want) in RULES {
        let fault = RunFault::Fault(Fault {
            rule: *rule,
            object: *object,
            place: *place,
        });
        says(&rt, rt.alloc(), fault, *status, want)?;
    }
    Ok(())
}

/// Faults that are not broken rules.
#[test]
fn other_faults(rt: HostRuntime) -> Result<(), Fail> {
    let alloc = rt.alloc();
    let circle = vec![in alloc; ObjectNo(2), ObjectNo(3), ObjectNo(40)]?;
    let rows = [
        (
            RunFault::Path { place: 3 },
            2,
            "fault PathText object none place 3",
        ),
        (RunFault::Circle(ObjectNos::new(circle)), 1, "circle 2 3 40"),
        (
            RunFault::NoAsciiForm(ObjectNo(2)),
            1,
            "form NoAsciiForm object 2",
        ),
        (RunFault::TooLong, 1, "form TooLong"),
        (RunFault::Read(ReadFault::Device), 3, "read Device"),
        (RunFault::Read(ReadFault::Ended), 3, "read Ended"),
        (
            RunFault::Read(ReadFault::TooManyTurns),
            3,
            "read TooManyTurns",
        ),
        (RunFault::Open, 3, "read Open"),
        (RunFault::InputTooLong, 3, "read TooLong"),
        (RunFault::Hex, 3, "read Hex"),
        (RunFault::Changed, 3, "changed"),
        (RunFault::Write { sent: 10 }, 3, "write 10"),
        (RunFault::Memory, 4, "memory"),
    ];
    for (fault, status, want) in rows {
        says(&rt, alloc, fault, status, want)?;
    }
    Ok(())
}
