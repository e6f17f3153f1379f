//! Makes each call of the library twice. If memory is refused in the first call, the second shows what is left.

use crate::counts::{accepted, upgraded};
use anyhow::{Result, anyhow, bail};
use bplist_cert::{CertRefusal, Certificate, Checked, Refusal, check};
use bplist_lint::lint;
use bplist_octets::SliceSource;
use bplist_samples::{Call, all_calls};
use std::alloc::Global;
use std::io::Write;

/// Written after a call is made for the first time, and after its answer is made into text.
const MADE: &[u8] = b"made\n";

/// Makes all calls on this file, with its certificate of version 1, and then with that of version 2. The file must hold
/// a value. The lines of a call are `call` and its name, `made`, its first answer, and the answer of the same call on
/// the same value.
pub(crate) fn make_twice<W: Write>(alloc: Global, file: &[u8], out: &mut W) -> Result<()> {
    let calls = all_calls(alloc).map_err(|fault| anyhow!("all_calls: {fault:?}"))?;
    by_both_versions(alloc, file, &calls, out)
}

fn by_both_versions<W: Write>(
    alloc: Global,
    file: &[u8],
    calls: &[Call],
    out: &mut W,
) -> Result<()> {
    let octets = linted(alloc, file)?;
    let checked = all_twice(alloc, file, &octets, "check-1", calls, out)?;
    let octets = sorted(alloc, checked)?;
    all_twice(alloc, file, &octets, "check-2", calls, out)?;
    Ok(())
}

fn linted(alloc: Global, file: &[u8]) -> Result<Vec<u8>> {
    match lint(alloc, &mut SliceSource::new(file)) {
        Ok(lint) => Ok(lint.certificate.to_octets(alloc)?),
        Err(refusal) => bail!("lint: {refusal:?}"),
    }
}

fn sorted(alloc: Global, mut checked: Checked<SliceSource<'_>>) -> Result<Vec<u8>> {
    let certificate = upgraded(alloc, &mut checked)?;
    Ok(certificate.to_octets(alloc)?)
}

/// The function has six parameters because every step needs `alloc` and `out`.
fn all_twice<'a, W: Write>(
    alloc: Global,
    file: &'a [u8],
    octets: &[u8],
    name: &str,
    calls: &[Call],
    out: &mut W,
) -> Result<Checked<SliceSource<'a>>> {
    let certificate = read_twice(alloc, octets, out)?;
    writeln!(out, "call {name}")?;
    let mut checked = check_twice(alloc, SliceSource::new(file), certificate, out)?;
    calls_twice(alloc, &mut checked, calls, out)?;
    Ok(checked)
}

fn read_twice<W: Write>(alloc: Global, octets: &[u8], out: &mut W) -> Result<Certificate> {
    out.write_all(b"call from_octets\n")?;
    let first = Certificate::from_octets(alloc, octets);
    out.write_all(MADE)?;
    match first {
        Ok(_) => out.write_all(b"Ok\nOk\n")?,
        Err(CertRefusal::Memory) => out.write_all(b"Err(Memory)\nOk\n")?,
        Err(CertRefusal::Fault(fault)) => bail!("from_octets: {fault:?}"),
    }
    Certificate::from_octets(alloc, octets).map_err(|refusal| anyhow!("from_octets: {refusal:?}"))
}

/// The second check takes what the first returned.
fn check_twice<'a, W: Write>(
    alloc: Global,
    source: SliceSource<'a>,
    certificate: Certificate,
    out: &mut W,
) -> Result<Checked<SliceSource<'a>>> {
    let first = check(alloc, source, certificate);
    out.write_all(MADE)?;
    let (said, source, certificate) = handed_back(first)?;
    writeln!(out, "{said}\nOk")?;
    accepted(alloc, source, certificate)
}

fn handed_back<'a>(
    first: Result<Checked<SliceSource<'a>>, (Refusal, SliceSource<'a>, Certificate)>,
) -> Result<(&'static str, SliceSource<'a>, Certificate)> {
    match first {
        Ok(checked) => {
            let (source, certificate) = checked.into_parts();
            Ok(("Ok", source, certificate))
        }
        Err((Refusal::Memory, source, certificate)) => Ok(("Err(Memory)", source, certificate)),
        Err((refusal, _, _)) => bail!("check: {refusal:?}"),
    }
}

fn calls_twice<W: Write>(
    alloc: Global,
    checked: &mut Checked<SliceSource<'_>>,
    calls: &[Call],
    out: &mut W,
) -> Result<()> {
    for call in calls {
        writeln!(out, "call {}", call.name())?;
        let first = call.answer_text(alloc, checked)?;
        out.write_all(MADE)?;
        let again = call.answer_text(alloc, checked)?;
        writeln!(out, "{first}\n{again}")?;
    }
    Ok(())
}
