//! A linted file as a `Checked`. The linter's certificate is valid, so it is not checked.

ghost use Rattle.std.specs.Prelude.{◌≡◌, ◌+◌, ◌≤◌, IsTrue, IfErr, IfOk, MatchResult};
ghost use Rattle.bplist_lint.specs.Prelude.{OnlyReads, Honestly, Value, FileHolds, Never, IsFileFault, IsFileCircle};
ghost use Rattle.bplist_lint.specs.Prelude.{IsLintedWith, HasNoHeights, IsSound, Refuses, lint_bytes, read_of_refusal, no_circle};

use crate::answer::LintRefusal;
use crate::linter::{Keys, lint_file};
use crate::tally::Tally;
use bplist_cert::Checked;
use bplist_octets::Source;
use std::alloc::Global;

/// Decides whether a file holds a value, as `lint` does. Returns the file with the certificate of the least heights,
/// and the tally of its reached objects, or else the first fault of the file. No check is needed. Every refusal hands
/// the source back.
///
/// With `Keys::Classes` the certificate is that of `lint`, and nothing more is read. With `Keys::Ranks` it also has the
/// key lists that `upgrade` makes, over one numbering of the keys.
///
/// Errors are those of `lint`. A source that gives other bytes than before, which an honest one never does, may be
/// refused with a fault of any rule.
pub fn lint_checked<S: Source>(
    alloc: Global,
    src: S,
    keys: Keys,
) -> Result<(Checked<S>, Tally), (LintRefusal, S)>
    ensures handed { MatchResult result
        (λ linted. linted.0.source ≡ S.means src)
        (λ refused. OnlyReads (read_of_refusal refused.0) (S.means src) (S.means refused.1)) }
    ensures asks { Honestly (S.means src) (λ f. MatchResult result
        (λ linted. linted.0.asked ≤ S.asked src + lint_bytes f)
        (λ refused. S.asked refused.1 ≤ S.asked src + lint_bytes f)) }
    ensures exact { IsTrue (S.means src).honest → MatchResult result
        (λ linted. IsLintedWith keys (S.means src).octets linted.0.frame linted.0.certificate linted.1)
        (λ refused. Refuses (IsFileFault (S.means src).octets) (IsFileCircle (S.means src).octets) refused.0) }
    ensures sound { Honestly (S.means src) (λ f. IfOk result (λ _. ∥ IsSound f ∥₁)) }
    ensures decisive { Honestly (S.means src) (λ f. IfErr result
        (λ refused. Refuses (λ _. HasNoHeights f) (λ _. HasNoHeights f) refused.0)) }
    ensures never { Honestly (S.means src) (λ f. (v : Value) → FileHolds f v → IfErr result
        (λ refused. Refuses Never no_circle refused.0)) }
{
    let mut src = src;
    match lint_file(alloc, &mut src, keys) {
        Ok((certificate, tally, frame)) => Ok((Checked::new(src, frame, certificate), tally)),
        Err(refusal) => Err((refusal, src)),
    }
}
