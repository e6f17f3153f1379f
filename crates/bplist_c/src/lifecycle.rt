//! Opens and closes handles.

ghost use Rattle.std.specs.Prelude.{◌≡◌, ◌≢◌, ⊤, ℕ, Bool, List, None, Ok, Result, IsSome, MatchResult, false};
ghost use Rattle.bplist_c.specs.Prelude.{source_over, IsVouchingFault, IsChecked, octets_of as certificate_octets};
ghost use Rattle.bplist_c.specs.Prelude.{IsCertificate, Lint as lint_answer, LintRefusal as lint_refusal};
ghost use Rattle.bplist_c.specs.Prelude.{IsFileFault, IsFileCircle, IsLinted, Lints, no_circle, Status as status};
ghost use Rattle.bplist_c.specs.Prelude.{Closed, Memory, Opened, CertificateSays, IsOpened, IsPair, IsSame};
ghost use Rattle.bplist_c.specs.Prelude.{PutsItems, items_of, status_number as number, NO_VERDICT, ShowsLint};
ghost use Rattle.bplist_c.specs.Prelude.{Accepts, KeepsHandle};
ghost use Rattle.bplist_cert.specs.declared.certificate.CertRefusal.TheVariants as refusals;

use crate::accepted::{Accepted, accept, with_verdict};
use crate::handle::{BplistHandle, Session};
use crate::status::{Status, put_answer};
use crate::verdict::{BplistVerdict, NO_VERDICT};
use bplist_cert::{CertRefusal, Certificate, Checked, Refusal, check};
use bplist_lint::{Tally, UpgradeFault, upgrade};
use bplist_octets::SliceSource;
use std::alloc::Global;
use std::mem;

/// Returns `OtherFile` if an object is not what the check found: then the file has changed.
fn with_keys(
    alloc: Global,
    checked: Checked<SliceSource<'_>>,
) -> Result<Checked<SliceSource<'_>>, Status>
    ensures { MatchResult result (λ keyed. (keyed.source ≡ checked.entry.source) × (keyed.frame ≡ checked.entry.frame)
        × (keyed.certificate.heights ≡ checked.entry.certificate.heights) × IsSome keyed.certificate.keys)
        (λ why. why ≡ Memory) }
{
    let mut checked = checked;
    let frame = checked.frame();
    match upgrade(alloc, &mut checked) {
        Ok(certificate) => {
            let (source, _) = checked.into_parts();
            Ok(Checked::new(source, frame, certificate))
        }
        Err(UpgradeFault::Memory) => Err(Status::Memory),
        Err(_) => Err(Status::OtherFile),
    }
}

fn handle_of(alloc: Global, checked: Checked<SliceSource<'_>>) -> Result<BplistHandle, Status>
    ensures { MatchResult result (IsOpened checked.entry.source.octets checked.entry.certificate false)
        (λ why. why ≡ Memory) }
{
    let length = checked.octets().len() as u64;
    let frame = checked.frame();
    let (_, certificate) = checked.into_parts();
    match Box::new(alloc, Session { frame, certificate }) {
        Ok(session) => Ok(BplistHandle::open(session, length)),
        Err(_) => Err(Status::Memory),
    }
}

fn sorted_handle(
    alloc: Global,
    checked: Checked<SliceSource<'_>>,
    sorted: bool,
) -> Result<BplistHandle, Status>
    ensures { MatchResult result (IsOpened checked.entry.source.octets checked.entry.certificate sorted)
        (λ why. why ≡ Memory) }
{
    if sorted && checked.certificate().keys.is_none() {
        return handle_of(alloc, with_keys(alloc, checked)?);
    }
    handle_of(alloc, checked)
}

/// If the file is refused, or memory is, the handle stays closed.
fn keep(
    alloc: Global,
    handle: &mut BplistHandle,
    answer: Result<Accepted<'_>, (Status, BplistVerdict)>,
    sorted: bool,
    out: &mut BplistVerdict,
) -> u32
    requires { handle.old.length ≡ 0 }
    ensures { KeepsHandle sorted handle.new out.new result answer.entry }
{
    let (status, verdict) = match answer {
        Ok(Accepted { checked, verdict }) => match sorted_handle(alloc, checked, sorted) {
            Ok(opened) => {
                *handle = opened;
                (0, verdict)
            }
            Err(status) => (status.number(), NO_VERDICT),
        },
        Err((status, verdict)) => (status.number(), verdict),
    };
    *out = verdict;
    status
}

/// Lints a file, and opens it if it holds a value.
#[unsafe(no_mangle)]
pub extern "C" fn bplist_open(
    alloc: Global,
    handle: &mut BplistHandle,
    file: &[u8],
    sorted: bool,
    out: &mut BplistVerdict,
) -> u32
    ensures opened { handle.old.length ≢ 0 → IsSame handle.old handle.new × (out.new ≡ NO_VERDICT) × (result ≡ number Opened) }
    ensures exact { handle.old.length ≡ 0 → (answer : Result lint_answer lint_refusal)
        × Lints (IsLinted file.now) (IsFileFault file.now) (IsFileCircle file.now) answer
        × ShowsLint file.now answer out.new result
        × MatchResult answer (λ lint. IsOpened file.now lint.certificate sorted handle.new) (λ _. handle.new.length ≡ 0) }
{
    if handle.length != 0 {
        *out = NO_VERDICT;
        return Status::Opened.number();
    }
    let accepted = accept(alloc, file, sorted);
    keep(alloc, handle, accepted, sorted, out)
}

fn check_pair<'a>(
    alloc: Global,
    file: &'a [u8],
    certificate: &[u8],
) -> Result<Checked<SliceSource<'a>>, CertRefusal>
    ensures { MatchResult result (λ checked. IsChecked checked × IsCertificate checked.certificate
        × (certificate.now ≡ certificate_octets checked.certificate) × (checked.source ≡ source_over file.entry))
        (λ why. elim why [ refusals.Fault x ↦ IsVouchingFault file.now certificate.now x | refusals.Memory ↦ ⊤ ]) }
{
    let certificate = Certificate::from_octets(alloc, certificate)?;
    match check(alloc, SliceSource::new(file), certificate) {
        Ok(checked) => {
            let _frame = checked.frame();
            Ok(checked)
        }
        Err((Refusal::Fault(fault), _, _)) => Err(CertRefusal::Fault(fault)),
        Err(_) => Err(CertRefusal::Memory),
    }
}

fn accept_pair<'a>(
    alloc: Global,
    file: &'a [u8],
    certificate: &[u8],
) -> Result<Accepted<'a>, (Status, BplistVerdict)>
    ensures { (answer : Result lint_answer lint_refusal)
        × Lints (IsPair file.now certificate.now) (IsVouchingFault file.now certificate.now) no_circle answer
        × ((sorted : Bool) → Accepts sorted file.entry answer result) }
{
    match check_pair(alloc, file, certificate) {
        Ok(checked) => with_verdict(checked, &Tally::new()),
        Err(CertRefusal::Fault(fault)) => Err((Status::Fault, BplistVerdict::of_fault(fault))),
        Err(CertRefusal::Memory) => Err((Status::Memory, NO_VERDICT)),
    }
}

/// Opens a file with the bytes of a certificate, which may come from anywhere.
#[unsafe(no_mangle)]
pub extern "C" fn bplist_open_certified(
    alloc: Global,
    handle: &mut BplistHandle,
    file: &[u8],
    certificate: &[u8],
    sorted: bool,
    out: &mut BplistVerdict,
) -> u32
    ensures opened { handle.old.length ≢ 0 → IsSame handle.old handle.new × (out.new ≡ NO_VERDICT) × (result ≡ number Opened) }
    ensures exact { handle.old.length ≡ 0 → (answer : Result lint_answer lint_refusal)
        × Lints (IsPair file.now certificate.now) (IsVouchingFault file.now certificate.now) no_circle answer
        × ShowsLint file.now answer out.new result
        × MatchResult answer (λ lint. IsOpened file.now lint.certificate sorted handle.new) (λ _. handle.new.length ≡ 0) }
{
    if handle.length != 0 {
        *out = NO_VERDICT;
        return Status::Opened.number();
    }
    let accepted = accept_pair(alloc, file, certificate);
    keep(alloc, handle, accepted, sorted, out)
}

/// Closes a handle, and frees what it holds.
#[unsafe(no_mangle)]
pub extern "C" fn bplist_close(alloc: Global, handle: &mut BplistHandle) -> u32
    ensures closed { handle.new.length ≡ 0 }
    ensures none { handle.old.length ≡ 0 → IsSame handle.old handle.new × (result ≡ number Closed) }
    ensures freed { handle.old.length ≢ 0 → (handle.new.held.value ≡ None) × (result ≡ 0) }
{
    if handle.length == 0 {
        return Status::Closed.number();
    }
    let _session = mem::replace(handle, BplistHandle::closed(alloc)).into_session();
    0
}

fn octets_in(alloc: Global, handle: &mut BplistHandle) -> Result<Vec<u8>, Status>
    ensures kept { IsSame handle.old handle.new }
    ensures exact { CertificateSays handle.old (items_of result) }
{
    if handle.length == 0 {
        return Err(Status::Closed);
    }
    let length = handle.length;
    let session = mem::replace(handle, BplistHandle::closed(alloc)).into_session();
    let octets = session.certificate.to_octets(alloc);
    *handle = BplistHandle::open(session, length);
    match octets {
        Ok(octets) => Ok(octets),
        Err(_) => Err(Status::Memory),
    }
}

/// Writes the bytes of the certificate of an open handle.
#[unsafe(no_mangle)]
pub extern "C" fn bplist_certificate(
    alloc: Global,
    handle: &mut BplistHandle,
    buffer: &mut [u8],
    count: &mut u64,
) -> u32
    ensures kept { IsSame handle.old handle.new }
    ensures exact { (octets : Result (List ℕ) status) × CertificateSays handle.old octets
        × PutsItems octets buffer.old buffer.new count.old count.new result }
{
    let octets = octets_in(alloc, handle);
    put_answer(&octets, buffer, count)
}
