//! The command `check`: says whether a certificate is valid for a file.

ghost use Rattle.std.specs.Prelude.{◌≡◌, ◌++◌, ℕ, List, IfErr, IfOk, IsTrue, codes, slice_index};
ghost use Rattle.bplint_engine.specs.Prelude.{OnlyReads, read_failed, Answers, CheckSays, IsDecoded, Leaves, check_line};

use crate::accepted::check_decoded;
use crate::output::{Output, send_made};
use bplint_lines::{RunFault, Said, add_check};
use bplist_cert::{CertRefusal, Certificate, Checked};
use bplist_octets::Source;
use std::alloc::Global;
use std::io::Write;

/// Writes the line of `check`. Returns the source too. Does what [`crate::run_on`] does for `Check` with the
/// certificate of these bytes, with the same errors.
pub fn check_on<S: Source, W: Write>(
    alloc: Global,
    src: S,
    decoded: Result<Certificate, CertRefusal>,
    out: &mut W,
) -> (Result<Said, RunFault>, S)
    ensures source { OnlyReads (read_failed result.0) (S.means src) (S.means result.1) }
    ensures exact { IsTrue (S.means src).honest → (cert : List ℕ) → IsDecoded cert decoded
        → Leaves (CheckSays (S.means src).octets cert) 0 (W.contents out.old) (W.contents out.new) result.0 }
{
    send_made(check_output(alloc, src, decoded), out)
}

fn check_output<S: Source>(
    alloc: Global,
    src: S,
    decoded: Result<Certificate, CertRefusal>,
) -> (Result<Output, RunFault>, S)
    ensures source { OnlyReads (read_failed result.0) (S.means src) (S.means result.1) }
    ensures exact { IsTrue (S.means src).honest → (cert : List ℕ) → IsDecoded cert decoded
        → Answers (CheckSays (S.means src).octets cert) result.0 }
{
    match check_decoded(alloc, src, decoded) {
        Ok(checked) => {
            let made = yes_of(alloc, &checked);
            (made, checked.into_parts().0)
        }
        Err((fault, src)) => (Err(fault), src),
    }
}

fn yes_of<S: Source>(alloc: Global, checked: &Checked<S>) -> Result<Output, RunFault>
    ensures made { IfOk result (λ output. (output.said ≡ Said.All) × (output.bytes.items
        ≡ check_line checked.now.frame.objects (slice_index checked.now.certificate.heights checked.now.frame.top.0) ++ codes "\n")) }
    ensures refused { IfErr result (λ fault. fault ≡ RunFault.Memory) }
{
    let frame = checked.frame();
    let mut bytes = Vec::new(alloc);
    add_check(alloc, frame.objects, checked.height(frame.top), &mut bytes)?;
    bytes.push(b'\n')?;
    Ok(Output {
        said: Said::All,
        bytes,
    })
}
