//! Checks a file with its certificate and answers queries about it: the theorem of the library.

ghost use Rattle.std.specs.Prelude.{◌≡◌, IfOk, IfErr, Some};
ghost use Rattle.bplist_octets.specs.FaultLines.{read_line};
ghost use Rattle.bplist_objects.specs.FaultLines.{changed_line, fault_line, memory_line};
ghost use Rattle.bplist_cursor.specs.Prelude.{Honestly, OnlyReads, Frame as frame, IsAccepted, IsPairFault, Never};
ghost use Rattle.bplist_cursor.specs.Prelude.{IsAnswered, RefusesBy, answer_read};
ghost use Rattle.bplist_cert.specs.declared.refusal.Refusal.TheVariants as check;
ghost use Rattle.bplist_cursor.specs.declared.faults.CursorFault.TheVariants as cursor;
ghost use Rattle.bplist_cursor.specs.declared.certified_answers.AnswerFault.TheVariants.{Fault as is_fault, Read};
ghost use Rattle.bplist_cursor.specs.declared.certified_answers.AnswerFault.TheVariants.{Changed, Memory};

use crate::answers::answer_all;
use crate::faults::CursorFault;
use crate::replies::{Query, Reply};
use bplist_cert::{Certificate, Refusal, check};
use bplist_objects::Fault;
use bplist_octets::{ReadFault, Source};
use std::alloc::Global;
use std::error::Error;
use std::fmt;

/// Why a file and a certificate get no replies.
#[derive(Clone, Copy, Debug, PartialEq, Eq, Drop)]
pub enum AnswerFault {
    /// The file or the certificate breaks a rule, so the check refuses them.
    Fault(Fault),
    /// A read of the source failed.
    Read(ReadFault),
    /// The source now gives other bytes than those that were checked.
    Changed,
    /// An allocation was refused.
    Memory,
}

impl fmt::Display for AnswerFault {
    ghost output = { λ cause. Some (elim cause [
      | is_fault fault ↦ fault_line fault
      | Read error ↦ read_line error
      | Changed ↦ changed_line
      | Memory ↦ memory_line
    ]) };

    fn fmt<W: fmt::Write>(&self, f: &mut fmt::Formatter<W>) -> fmt::Result {
        match self {
            AnswerFault::Fault(fault) => write!(f, "{fault}"),
            AnswerFault::Read(error) => write!(f, "{error}"),
            AnswerFault::Changed => f.write_str("changed"),
            AnswerFault::Memory => f.write_str("memory"),
        }
    }
}

impl Error for AnswerFault {}

impl From<Refusal> for AnswerFault {
    ghost from_gives = { λ refusal e. e
        ≡ elim refusal [ check.Fault broken ↦ is_fault broken | check.Read failed ↦ Read failed | check.Memory ↦ Memory ] };

    fn from(refusal: Refusal) -> AnswerFault {
        match refusal {
            Refusal::Fault(fault) => AnswerFault::Fault(fault),
            Refusal::Read(fault) => AnswerFault::Read(fault),
            Refusal::Memory => AnswerFault::Memory,
        }
    }
}

impl From<CursorFault> for AnswerFault {
    ghost from_gives = { λ fault e. e
        ≡ elim fault [ cursor.Read failed ↦ Read failed | cursor.Changed ↦ Changed | cursor.Memory ↦ Memory ] };

    fn from(fault: CursorFault) -> AnswerFault {
        match fault {
            CursorFault::Read(fault) => AnswerFault::Read(fault),
            CursorFault::Changed => AnswerFault::Changed,
            CursorFault::Memory => AnswerFault::Memory,
        }
    }
}

/// Checks a file and a certificate, whoever made them, and answers queries about the file's value: one reply for each
/// query, in the order of the queries. Always hands back the source and the certificate. The source is only read, and
/// only inside the file.
///
/// The contract of this call is the theorem of the library. It holds over an honest source. If replies come, then the
/// file holds exactly one value by the grammar, no reference that the top reaches leaves the table or closes a circle,
/// and the replies are those of the value's tree (`theorem`). Replies come only if the certificate is accepted (`yes`),
/// and an accepted certificate always gets replies (`accepted`), unless a read fails or memory is refused.
///
/// Errors: `Fault` is the first fault of file and certificate; `Read` if a read of the source failed; `Memory` if an
/// allocation was refused; `Changed` only over a source that is not honest.
pub fn answer_certified<S: Source>(
    alloc: Global,
    src: S,
    cert: Certificate,
    queries: &[Query],
) -> (Result<Vec<Reply>, AnswerFault>, S, Certificate)
    ensures handed { (result.2 ≡ cert) × OnlyReads (answer_read result.0) (S.means src) (S.means result.1) }
    ensures theorem { Honestly (S.means src) (λ f. IfOk result.0 (λ replies. ∥ IsAnswered f queries.now replies.items ∥₁)) }
    ensures yes { Honestly (S.means src) (λ f. IfOk result.0 (λ _. ∥ ((F : frame) × IsAccepted f F cert) ∥₁)) }
    ensures accepted { Honestly (S.means src) (λ f. (F : frame) → IsAccepted f F cert → IfErr result.0 (RefusesBy Never)) }
    ensures refused { Honestly (S.means src) (λ f. IfErr result.0 (RefusesBy (IsPairFault f cert))) }
{
    match check(alloc, src, cert) {
        Ok(checked) => {
            let mut checked = checked;
            let told = answer_all(alloc, &mut checked, queries);
            let (src, cert) = checked.into_parts();
            match told {
                Ok(replies) => (Ok(replies), src, cert),
                Err(fault) => (Err(AnswerFault::from(fault)), src, cert),
            }
        }
        Err((refusal, src, cert)) => (Err(AnswerFault::from(refusal)), src, cert),
    }
}
