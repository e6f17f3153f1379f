//! The command `get`: one line for each path. Path texts become paths here, for this command and for all others that
//! take them.

ghost use Rattle.std.specs.Prelude.{◌≡◌, ◌++◌, ℕ, List, Err, IfOk, Ok, IsTrue, MatchResult, OnOk, map, string_bytes, ◌∷◌};
ghost use Rattle.std.specs.Prelude.{[]};
ghost use Rattle.std.specs.List.{flat_map, list_any, AllZip};
ghost use Rattle.bplint_engine.specs.Prelude.{OnlyReads, Holds, Value, OnlyReadsFile, reply, answer_read, answer_fault};
ghost use Rattle.bplint_engine.specs.Prelude.{read_failed, Answers, GivesOrIsExcused, CheckSays, IsDecoded, Leaves};
ghost use Rattle.bplint_engine.specs.Prelude.{IsRefusal, IsVouchedFor, LinesSay, Lists, found_line, read_fault_of};
ghost use Rattle.bplint_engine.specs.Prelude.{reply_line, IsPathOf, IsWrongAmong, OnPath};
ghost use Rattle.bplint_engine.specs.Get as spec;

use crate::accepted::check_decoded;
use crate::output::{Output, send_made};
use crate::sorting::{MANY, suited_to};
use bplint_lines::{RunFault, Said, Style, add_face, add_missing};
use bplist_cert::{CertRefusal, Certificate, Checked};
use bplist_cursor::{AnswerFault, Path, Query, Reply, answer_all, answer_certified};
use bplist_octets::Source;
use std::alloc::{AllocError, Global};
use std::io::Write;

/// Writes the lines of `get`, one for each path text. Returns the source too. Does what [`crate::run_on`] does for
/// `Get` with the certificate of these bytes, with the same errors.
pub fn get_on<S: Source, W: Write>(
    alloc: Global,
    src: S,
    decoded: Result<Certificate, CertRefusal>,
    paths: &[String],
    out: &mut W,
) -> (Result<Said, RunFault>, S)
    ensures source { OnlyReads (read_failed result.0) (S.means src) (S.means result.1) }
    ensures exact { IsTrue (S.means src).honest → (cert : List ℕ) → IsDecoded cert decoded
        → Leaves (LinesSay (found_line Style.OldStyle) (CheckSays (S.means src).octets cert) (S.means src).octets
        (map (λ text. string_bytes text) paths.now)) 0 (W.contents out.old) (W.contents out.new) result.0 }
{
    send_made(get_output(alloc, src, decoded, paths), out)
}

fn get_output<S: Source>(
    alloc: Global,
    src: S,
    decoded: Result<Certificate, CertRefusal>,
    texts: &[String],
) -> (Result<Output, RunFault>, S)
    ensures source { OnlyReads (read_failed result.0) (S.means src) (S.means result.1) }
    ensures exact { IsTrue (S.means src).honest → (cert : List ℕ) → IsDecoded cert decoded
        → ∥ Answers (LinesSay (found_line Style.OldStyle) (CheckSays (S.means src).octets cert) (S.means src).octets
        (map (λ text. string_bytes text) texts.now)) result.0 ∥₁ }
{
    let queries = match queries_of(alloc, texts) {
        Ok(queries) => queries,
        Err(fault) => return (Err(fault), src),
    };
    let certificate = match decoded {
        Ok(certificate) => certificate,
        Err(refusal) => return (Err(RunFault::from(refusal)), src),
    };
    if queries.len() < MANY || certificate.keys.is_some() {
        let (told, src, _certificate) = answer_certified(alloc, src, certificate, &queries);
        return (lines_told(alloc, told), src);
    }
    match checked_for(alloc, src, certificate, &queries) {
        Ok(mut checked) => {
            let made = lines_for(alloc, Style::OldStyle, &mut checked, &queries);
            (made, checked.into_parts().0)
        }
        Err((fault, src)) => (Err(fault), src),
    }
}

/// The certificate of what is returned suits these queries.
fn checked_for<S: Source>(
    alloc: Global,
    src: S,
    certificate: Certificate,
    queries: &[Query],
) -> Result<Checked<S>, (RunFault, S)>
    ensures handed { MatchResult result
        (λ checked. checked.source ≡ S.means src)
        (λ refused. OnlyReads (read_fault_of refused.0) (S.means src) (S.means refused.1)) }
    ensures exact { IsTrue (S.means src).honest → (cert : List ℕ) → IsDecoded cert (Ok certificate) → MatchResult result
        (λ checked. (lists : Lists) × IsVouchedFor (S.means src).octets cert checked.frame lists)
        (λ refused. IsRefusal (CheckSays (S.means src).octets cert) refused.0) }
{
    match check_decoded(alloc, src, Ok(certificate)) {
        Ok(checked) => suited_to(alloc, checked, queries),
        Err(refused) => Err(refused),
    }
}

/// A fault of the cursor becomes that of the run.
fn lines_told(alloc: Global, told: Result<Vec<Reply>, AnswerFault>) -> Result<Output, RunFault>
    ensures reads { read_failed result ≡ answer_read told }
    ensures exact { MatchResult told
        (λ replies. GivesOrIsExcused (λ output. (output.said ≡ spec.replies_said replies.items)
        × (output.bytes.items ≡ flat_map (reply_line Style.OldStyle) replies.items)) result)
        (λ fault. result ≡ Err (answer_fault fault)) }
{
    let replies = told?;
    Ok(lines_of(alloc, Style::OldStyle, &replies)?)
}

/// Answers the queries. Returns their lines, with texts in this style.
pub(crate) fn lines_for<S: Source>(
    alloc: Global,
    style: Style,
    checked: &mut Checked<S>,
    queries: &[Query],
) -> Result<Output, RunFault>
    ensures reads { OnlyReadsFile (read_failed result) checked.old checked.new }
    ensures exact { IsTrue checked.old.source.honest → GivesOrIsExcused (λ output. (v : Value)
        → Holds checked.old.source.octets checked.old.frame checked.old.frame.top.0 v
        → (output.said ≡ spec.replies_said (map (reply v) queries.now))
        × (output.bytes.items ≡ flat_map (reply_line style) (map (reply v) queries.now))) result }
{
    let replies = answer_all(alloc, checked, queries)?;
    Ok(lines_of(alloc, style, &replies)?)
}

/// It also says whether a path leads nowhere.
fn lines_of(alloc: Global, style: Style, replies: &[Reply]) -> Result<Output, AllocError>
    ensures { IfOk result (λ output. (output.said ≡ spec.replies_said replies.now)
        × (output.bytes.items ≡ flat_map (reply_line style) replies.now)) }
{
    let mut bytes = Vec::new(alloc);
    for reply in replies {
        add_reply(alloc, style, reply, &mut bytes)?;
    }
    Ok(Output {
        said: said_of(replies),
        bytes,
    })
}

fn said_of(replies: &[Reply]) -> Said
    ensures { result ≡ spec.replies_said replies.now }
{
    if have_missing(replies) {
        Said::SomeMissing
    } else {
        Said::All
    }
}

fn have_missing(replies: &[Reply]) -> bool
    ensures { result ≡ list_any spec.is_missing replies.now }
{
    replies.iter().any(|reply| is_missing(reply))
}

fn is_missing(reply: &Reply) -> bool
    ensures { result ≡ spec.is_missing reply.now }
{
    matches!(reply, Reply::Missing { .. })
}

/// Every query asks for a face, so the other replies do not occur; they add nothing.
fn add_reply(
    alloc: Global,
    style: Style,
    reply: &Reply,
    lines: &mut Vec<u8>,
) -> Result<(), AllocError>
    ensures { OnOk result (lines.new.items ≡ lines.old.items ++ reply_line style reply.now) }
{
    match reply {
        Reply::Face(face) => add_face(alloc, style, face, lines)?,
        Reply::Missing { step, why } => add_missing(alloc, *step, *why, lines)?,
        _ => return Ok(()),
    }
    Ok(lines.push(b'\n')?)
}

/// Makes one `Get` query for each path text, in order. Returns the fault of the first wrong text.
pub(crate) fn queries_of(alloc: Global, texts: &[String]) -> Result<Vec<Query>, RunFault>
    ensures { MatchResult result
        (λ queries. (paths : List (List (List ℕ))) × AllZip IsPathOf (map (λ text. string_bytes text) texts.now) paths
        × (queries.items ≡ map (λ path. Query.Get path) paths))
        (OnPath (IsWrongAmong (map (λ text. string_bytes text) texts.now))) }
{
    let mut queries = Vec::new(alloc);
    for text in texts {
        let path = Path::parse(alloc, text.as_str())?;
        queries.push(Query::Get(path))?;
    }
    Ok(queries)
}

/// Parses a path text.
pub(crate) fn path_in(alloc: Global, text: &str) -> Result<Path, RunFault>
    ensures { MatchResult result
        (λ path. AllZip IsPathOf (text.now ∷ []) (path ∷ []))
        (OnPath (IsWrongAmong (text.now ∷ []))) }
{
    Ok(Path::parse(alloc, text)?)
}
