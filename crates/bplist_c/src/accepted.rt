//! Files that are accepted, and the verdicts on them.
//!
//! The verdict names the kind of the top, so the top's marker is read again after the linter or the check. If somebody
//! writes to the file in between, the top may be no object any more. Such a file is refused as another file.

ghost use Rattle.std.specs.Prelude.{◌≡◌, MatchResult, Ok, Result};
ghost use Rattle.bplist_c.specs.Prelude.{Accepts, IsFileCircle, IsFileFault, IsLinted, Lint as lint_answer};
ghost use Rattle.bplist_c.specs.Prelude.{LintRefusal as lint_refusal, Lints, ShowsLint, lint_of};

use crate::object::{head_of_object, number_of};
use crate::status::Status;
use crate::verdict::{BplistVerdict, NO_VERDICT, Top, refused};
use bplist_cert::Checked;
use bplist_lint::{Keys, Tally, lint_checked};
use bplist_octets::SliceSource;
use std::alloc::Global;

/// A file with a certificate that vouches for it, and the verdict on it.
#[derive(Drop)]
pub(crate) struct Accepted<'a> {
    pub(crate) checked: Checked<SliceSource<'a>>,
    pub(crate) verdict: BplistVerdict,
}

/// Returns the status and the verdict of another file if the file has changed since the check.
pub(crate) fn with_verdict<'a>(
    checked: Checked<SliceSource<'a>>,
    tally: &Tally,
) -> Result<Accepted<'a>, (Status, BplistVerdict)>
    ensures { MatchResult result (λ accepted. (accepted.checked ≡ checked.entry) × ShowsLint checked.entry.source.octets
        (Ok (lint_of checked.entry.frame checked.entry.certificate tally.now)) accepted.verdict 0) (λ _. ⊥) }
{
    let _octets = checked.octets();
    let frame = checked.frame();
    let Ok(head) = head_of_object(&checked, frame.top.0) else {
        return Err((Status::OtherFile, NO_VERDICT));
    };
    let top = Top {
        objects: frame.objects,
        object: frame.top.0,
        kind: number_of(head.kind),
        height: checked.height(frame.top),
    };
    let verdict = BplistVerdict::of_top(top, tally.reached, tally.references);
    Ok(Accepted { checked, verdict })
}

pub(crate) fn accept<'a>(
    alloc: Global,
    file: &'a [u8],
    sorted: bool,
) -> Result<Accepted<'a>, (Status, BplistVerdict)>
    ensures { (answer : Result lint_answer lint_refusal)
        × Lints (IsLinted file.now) (IsFileFault file.now) (IsFileCircle file.now) answer
        × Accepts sorted file.entry answer result }
{
    match lint_checked(alloc, SliceSource::new(file), Keys::for_certificate(sorted)) {
        Ok((checked, tally)) => with_verdict(checked, &tally),
        Err((refusal, _)) => Err(refused(&refusal)),
    }
}
