//! The command `certify`: writes a certificate of a file.

ghost use Rattle.std.specs.Prelude.{◌≡◌, IfOk, IsTrue, true};
ghost use Rattle.bplint_engine.specs.Prelude.{OnlyReads, octets_of, IsCertificate, read_failed};
ghost use Rattle.bplint_engine.specs.Prelude.{Leaves, CertifySays, SendsCertificate, written};

use crate::output::send;
use bplint_lines::{RunFault, Said};
use bplist_cert::Certificate;
use bplist_lint::{Keys, lint_checked};
use bplist_octets::Source;
use std::alloc::{AllocError, Global};
use std::io::Write;

/// Writes a certificate of the file: with `sorted` also its key lists, and with `hex` its hexadecimal text and a line
/// feed. Returns the source too. Does what [`crate::run_on`] does for `Certify`, with the same errors.
pub fn certify_on<S: Source, W: Write>(
    alloc: Global,
    src: S,
    sorted: bool,
    hex: bool,
    out: &mut W,
) -> (Result<Said, RunFault>, S)
    ensures source { OnlyReads (read_failed result.0) (S.means src) (S.means result.1) }
    ensures exact { IsTrue (S.means src).honest → Leaves (CertifySays sorted hex (S.means src).octets) 0
        (W.contents out.old) (W.contents out.new) result.0 }
{
    match lint_checked(alloc, src, Keys::for_certificate(sorted)) {
        Ok((checked, _tally)) => {
            let (src, certificate) = checked.into_parts();
            (send_certificate(alloc, &certificate, hex, out), src)
        }
        Err((refusal, src)) => (Err(RunFault::from(refusal)), src),
    }
}

/// With `hex` the hexadecimal text is made in memory first. A line feed follows it.
fn send_certificate<W: Write>(
    alloc: Global,
    certificate: &Certificate,
    hex: bool,
    out: &mut W,
) -> Result<Said, RunFault>
    ensures { SendsCertificate (W.contents out.old) (W.contents out.new) hex certificate.now result }
{
    if hex {
        let text = hex_text(alloc, certificate)?;
        send(out, &text)?;
    } else {
        certificate.write_to(out)?;
    }
    Ok(Said::All)
}

/// A line feed follows the text.
fn hex_text(alloc: Global, certificate: &Certificate) -> Result<Vec<u8>, AllocError>
    ensures { IfOk result (λ text. IsCertificate certificate.now × (text.items ≡ written true (octets_of certificate.now))) }
{
    let mut text = hex::encode(alloc, &certificate.to_octets(alloc)?)?;
    text.push('\n')?;
    Ok(text.into_bytes())
}
