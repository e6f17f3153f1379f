//! A file together with a certificate that fits it: the caller's after `check`, or the linter's.

ghost use Rattle.std.specs.Prelude.{◌≡◌, IsTrue, ℕ, List, MatchResult};
ghost use Rattle.bplint_engine.specs.Prelude.{OnlyReads, IsRefusal, read_fault_of};
ghost use Rattle.bplint_engine.specs.Prelude.{CheckSays, IsDecoded, LintSays, IsVouchedFor, IsLeastFor};

use bplint_lines::RunFault;
use bplist_cert::{CertRefusal, Certificate, Checked, check};
use bplist_lint::{Keys, lint_checked};
use bplist_octets::Source;
use std::alloc::Global;

/// Checks the file against the decoded certificate. Returns the file with the certificate if it is accepted, or else
/// the first fault and the source.
pub(crate) fn check_decoded<S: Source>(
    alloc: Global,
    src: S,
    decoded: Result<Certificate, CertRefusal>,
) -> Result<Checked<S>, (RunFault, S)>
    ensures handed { MatchResult result
        (λ checked. checked.source ≡ S.means src)
        (λ refused. OnlyReads (read_fault_of refused.0) (S.means src) (S.means refused.1)) }
    ensures exact { IsTrue (S.means src).honest → (cert : List ℕ) → IsDecoded cert decoded → MatchResult result
        (λ checked. IsVouchedFor (S.means src).octets cert checked.frame checked.certificate)
        (λ refused. IsRefusal (CheckSays (S.means src).octets cert) refused.0) }
{
    let certificate = match decoded {
        Ok(certificate) => certificate,
        Err(refusal) => return Err((RunFault::from(refusal), src)),
    };
    match check(alloc, src, certificate) {
        Ok(checked) => Ok(checked),
        Err((refusal, src, _)) => Err((RunFault::from(refusal), src)),
    }
}

/// Lints the file. Returns the file with the certificate of its least heights if it holds a value, or else the fault
/// and the source. The linter's certificate is proved valid, so no check is needed.
pub(crate) fn checked_by_lint<S: Source>(alloc: Global, src: S) -> Result<Checked<S>, (RunFault, S)>
    ensures handed { MatchResult result
        (λ checked. checked.source ≡ S.means src)
        (λ refused. OnlyReads (read_fault_of refused.0) (S.means src) (S.means refused.1)) }
    ensures exact { IsTrue (S.means src).honest → MatchResult result
        (λ checked. IsLeastFor (S.means src).octets checked.frame checked.certificate)
        (λ refused. IsRefusal (LintSays (S.means src).octets) refused.0) }
{
    match lint_checked(alloc, src, Keys::Classes) {
        Ok((checked, _tally)) => Ok(checked),
        Err((refusal, src)) => Err((RunFault::from(refusal), src)),
    }
}

/// Lints the file, as [`checked_by_lint`] does. With `sorted` the certificate has key lists, for the order of keys.
pub(crate) fn linted<S: Source>(
    alloc: Global,
    src: S,
    sorted: bool,
) -> Result<Checked<S>, (RunFault, S)> {
    match lint_checked(alloc, src, Keys::for_certificate(sorted)) {
        Ok(linted) => Ok(linted.0),
        Err((refusal, src)) => Err((RunFault::from(refusal), src)),
    }
}
