//! The linter for C.

ghost use Rattle.std.specs.Prelude.{◌≡◌, ◌⊎◌, Err, MatchResult, Result, map};
ghost use Rattle.bplist_c.specs.Prelude.{Lint as lint_answer, LintRefusal as lint_refusal, IsFileFault, IsFileCircle};
ghost use Rattle.bplist_c.specs.Prelude.{IsLinted, Lints, number, Memory, PutsItems, items_of, circle_answer};
ghost use Rattle.bplist_c.specs.Prelude.{ShowsLint};

use crate::accepted::accept;
use crate::status::{Status, put_answer};
use crate::verdict::{BplistVerdict, refused};
use bplist_lint::{Lint, LintRefusal, lint};
use bplist_objects::ObjectNo;
use bplist_octets::SliceSource;
use std::alloc::Global;

pub(crate) fn lint_file(alloc: Global, file: &[u8]) -> Result<Lint, LintRefusal>
    ensures { Lints (IsLinted file.now) (IsFileFault file.now) (IsFileCircle file.now) result }
{
    lint(alloc, &mut SliceSource::new(file))
}

/// Decides whether a file holds a value.
#[unsafe(no_mangle)]
pub extern "C" fn bplist_lint(alloc: Global, file: &[u8], out: &mut BplistVerdict) -> u32
    ensures { (answer : Result lint_answer lint_refusal)
        × Lints (IsLinted file.now) (IsFileFault file.now) (IsFileCircle file.now) answer
        × ShowsLint file.now answer out.new result }
{
    let (status, verdict) = match accept(alloc, file, false) {
        Ok(accepted) => (0, accepted.verdict),
        Err((status, verdict)) => (status.number(), verdict),
    };
    *out = verdict;
    status
}

fn circle_of(alloc: Global, answer: Result<Lint, LintRefusal>) -> Result<Vec<u32>, Status>
    ensures { (items_of result ≡ circle_answer answer) ⊎ (result ≡ Err Memory) }
{
    match answer {
        Err(LintRefusal::Circle(circle)) => numbers_of(alloc, circle.as_slice()),
        Err(refusal) => Err(refused(&refusal).0),
        Ok(_) => Err(Status::NoRule),
    }
}

fn numbers_of(alloc: Global, objects: &[ObjectNo]) -> Result<Vec<u32>, Status>
    ensures { MatchResult result (λ numbers. numbers.items ≡ map number objects.now) (λ why. why ≡ Memory) }
{
    let mut numbers = Vec::new(alloc);
    for object in objects {
        if numbers.push(object.0).is_err() {
            return Err(Status::Memory);
        }
    }
    Ok(numbers)
}

/// Writes the objects of the circle for which the linter refuses a file.
#[unsafe(no_mangle)]
pub extern "C" fn bplist_circle(
    alloc: Global,
    file: &[u8],
    objects: &mut [u32],
    count: &mut u64,
) -> u32
    ensures { (linted : Result lint_answer lint_refusal)
        × Lints (IsLinted file.now) (IsFileFault file.now) (IsFileCircle file.now) linted
        × PutsItems (circle_answer linted) objects.old objects.new count.old count.new result }
{
    let linted = lint_file(alloc, file);
    let circle = circle_of(alloc, linted);
    put_answer(&circle, objects, count)
}
