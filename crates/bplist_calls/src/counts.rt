//! Counts what the calls that look at a whole file ask of it. The certificates here must be accepted, so a refusal is
//! an error of the program.

use anyhow::{Result, anyhow, bail};
use bplist_cert::{Certificate, Checked, check};
use bplist_lint::{lint, upgrade};
use bplist_octets::{CountingSource, SliceSource, Source};
use std::alloc::Global;
use std::io::Write;

/// Writes a line for `lint`. If the file holds a value, also writes a line each for `check` with its certificate, for
/// `upgrade`, and for `check` with the new certificate. A line has the name and the number of bytes that the call asked
/// its source for.
pub(crate) fn write_counts<W: Write>(alloc: Global, file: &[u8], out: &mut W) -> Result<()> {
    let mut source = CountingSource::new(SliceSource::new(file));
    let linted = lint(alloc, &mut source);
    writeln!(out, "lint {}", source.asked)?;
    match linted {
        Ok(lint) => write_checks(alloc, file, lint.certificate, out),
        Err(_) => Ok(()),
    }
}

/// Writes the lines after the first, for the certificate that `lint` gave.
fn write_checks<W: Write>(
    alloc: Global,
    file: &[u8],
    certificate: Certificate,
    out: &mut W,
) -> Result<()> {
    let source = CountingSource::new(SliceSource::new(file));
    let mut checked = accepted(alloc, source, certificate)?;
    let by_check = checked.source().asked;
    writeln!(out, "check-1 {by_check}")?;
    let sorted = upgraded(alloc, &mut checked)?;
    let by_both = checked.source().asked;
    writeln!(out, "upgrade {}", by_both.saturating_sub(by_check))?;
    let source = CountingSource::new(SliceSource::new(file));
    let checked = accepted(alloc, source, sorted)?;
    writeln!(out, "check-2 {}", checked.source().asked)?;
    Ok(())
}

pub(crate) fn accepted<S: Source + Drop>(
    alloc: Global,
    source: S,
    certificate: Certificate,
) -> Result<Checked<S>> {
    match check(alloc, source, certificate) {
        Ok(checked) => Ok(checked),
        Err((refusal, _, _)) => bail!("check: {refusal:?}"),
    }
}

pub(crate) fn upgraded<S: Source>(alloc: Global, checked: &mut Checked<S>) -> Result<Certificate> {
    upgrade(alloc, checked).map_err(|fault| anyhow!("upgrade: {fault:?}"))
}
