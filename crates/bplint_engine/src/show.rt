//! The calls of `show`: values under paths of a file that has no certificate.

ghost use Rattle.std.specs.Prelude.{◌∷◌, ◌≡◌, [], IsTrue, MatchResult, Some, map, string_bytes};
ghost use Rattle.bplint_engine.specs.Prelude.{OnlyReads, Leaves, LeavesLed, read_failed, Answers, LinesSay, LintSays, PrintSays};
ghost use Rattle.bplint_engine.specs.Prelude.{found_line, IsLeastFor, IsRefusal, Lists, read_fault_of};

use crate::accepted::checked_by_lint;
use crate::get::{lines_for, path_in, queries_of};
use crate::output::{Led, Output, send_made};
use crate::print::text_path;
use crate::sorting::suited_to;
use bplint_lines::{RunFault, Said, Style};
use bplist_cert::Checked;
use bplist_cursor::Query;
use bplist_octets::Source;
use std::alloc::Global;
use std::io::Write;

/// Writes what `Get` writes for these path texts, with the certificate of the least heights, and with texts in this
/// style. Returns the source too.
///
/// These errors come before anything is written, in this order: `Path` for the first wrong path text, then `Fault` or
/// `Circle` as `Lint` returns it. `Read`, `Memory`, `Write` and `Changed` mean the same as in [`crate::run_on`].
pub fn show_on<S: Source, W: Write>(
    alloc: Global,
    src: S,
    paths: &[String],
    style: Style,
    out: &mut W,
) -> (Result<Said, RunFault>, S)
    ensures source { OnlyReads (read_failed result.0) (S.means src) (S.means result.1) }
    ensures exact { IsTrue (S.means src).honest
        → Leaves (LinesSay (found_line style) (LintSays (S.means src).octets) (S.means src).octets
        (map (λ text. string_bytes text) paths.now)) 0 (W.contents out.old) (W.contents out.new) result.0 }
{
    send_made(show_output(alloc, src, paths, style), out)
}

fn show_output<S: Source>(
    alloc: Global,
    src: S,
    texts: &[String],
    style: Style,
) -> (Result<Output, RunFault>, S)
    ensures source { OnlyReads (read_failed result.0) (S.means src) (S.means result.1) }
    ensures exact { IsTrue (S.means src).honest
        → ∥ Answers (LinesSay (found_line style) (LintSays (S.means src).octets) (S.means src).octets
        (map (λ text. string_bytes text) texts.now)) result.0 ∥₁ }
{
    let queries = match queries_of(alloc, texts) {
        Ok(queries) => queries,
        Err(fault) => return (Err(fault), src),
    };
    match checked_for(alloc, src, &queries) {
        Ok(mut checked) => {
            let made = lines_for(alloc, style, &mut checked, &queries);
            (made, checked.into_parts().0)
        }
        Err((fault, src)) => (Err(fault), src),
    }
}

/// The certificate of what is returned suits these queries.
fn checked_for<S: Source>(
    alloc: Global,
    src: S,
    queries: &[Query],
) -> Result<Checked<S>, (RunFault, S)>
    ensures handed { MatchResult result
        (λ checked. checked.source ≡ S.means src)
        (λ refused. OnlyReads (read_fault_of refused.0) (S.means src) (S.means refused.1)) }
    ensures exact { IsTrue (S.means src).honest → MatchResult result
        (λ checked. (lists : Lists) × IsLeastFor (S.means src).octets checked.frame lists)
        (λ refused. IsRefusal (LintSays (S.means src).octets) refused.0) }
{
    match checked_by_lint(alloc, src) {
        Ok(checked) => suited_to(alloc, checked, queries),
        other => other,
    }
}

/// Writes what `Print` writes for this path text and limit, with the certificate of the least heights. Returns the
/// source too. If the path leads nowhere, nothing is written, and `Nowhere` has the line of `Print`.
///
/// These errors come before anything is written, in this order: `Path` for a wrong path text; `Fault` or `Circle` as
/// `Lint` returns it; `NoAsciiForm`; `TooLong`. `Read`, `Memory`, `Write` and `Changed` mean the same as in
/// [`crate::run_on`] with `Print`.
pub fn show_text_on<S: Source, W: Write>(
    alloc: Global,
    src: S,
    path: &str,
    limit: u64,
    out: &mut W,
) -> (Result<Led, RunFault>, S)
    ensures source { OnlyReads (read_failed result.0) (S.means src) (S.means result.1) }
    ensures exact { IsTrue (S.means src).honest
        → ∥ LeavesLed (PrintSays limit (LintSays (S.means src).octets) (S.means src).octets (path.now ∷ [])) (Some limit)
        (W.contents out.old) (W.contents out.new) result.0 ∥₁ }
{
    let path = match path_in(alloc, path) {
        Ok(path) => path,
        Err(fault) => return (Err(fault), src),
    };
    match checked_by_lint(alloc, src) {
        Ok(mut checked) => {
            let led = text_path(alloc, &mut checked, &path, limit, out);
            (led, checked.into_parts().0)
        }
        Err((fault, src)) => (Err(fault), src),
    }
}
