//! The call of `show --raw`: writes the raw bytes of one value in a file that has no certificate.

ghost use Rattle.std.specs.Prelude.{◌≡◌, None, IsTrue};
ghost use Rattle.bplint_engine.specs.Prelude.{OnlyReads, Holds, Value, IsVouchedBy, OnlyReadsFile, LintSays};
ghost use Rattle.bplint_engine.specs.Raw.{LeadsToRawless, LeavesRawBy, IsRawless, NodeShowsRaw, PathShowsRaw, ShowsRaw};
ghost use Rattle.bplint_engine.specs.Raw.{raw_bytes, raw_read_failed};

use crate::accepted::checked_by_lint;
use crate::get::path_in;
use crate::output::Led;
use crate::print::missing_output;
use crate::raw_bytes::{raw_of, send_raw};
use bplint_lines::{RawFault, RunFault};
use bplist_cert::Checked;
use bplist_cursor::{Found, Node, Path, locate};
use bplist_octets::Source;
use std::alloc::Global;
use std::io::Write;

/// Writes the raw bytes of the value under a path, without a line feed. Returns the source too.
///
/// | value | raw bytes |
/// |---|---|
/// | data | its bytes |
/// | text | its UTF-8 |
/// | integer, UID | its digits |
/// | truth value | `true` or `false` |
///
/// Data and texts are written in parts, and never held in memory as a whole. If the path leads nowhere, nothing is
/// written, and `Nowhere` has the line of `Get`.
///
/// These errors come before anything is written, in this order: `Path` for a wrong path text; `Fault` or `Circle` as
/// `Lint` returns it; `NoRawForm` for a value of another kind, or for a text that has a surrogate without its other
/// half. `Write` and `Changed` mean the same as in [`crate::run_on`]. Before `Read` or `Memory`, a first part of the
/// bytes may have been written.
pub fn show_raw_on<S: Source, W: Write>(
    alloc: Global,
    src: S,
    path: &str,
    out: &mut W,
) -> (Result<Led, RawFault>, S)
    ensures source { OnlyReads (raw_read_failed result.0) (S.means src) (S.means result.1) }
    ensures exact { IsTrue (S.means src).honest
        → ∥ LeavesRawBy (ShowsRaw (LintSays (S.means src).octets) (S.means src).octets path.now)
        (IsRawless (LintSays (S.means src).octets) (S.means src).octets path.now)
        (W.contents out.old) (W.contents out.new) result.0 ∥₁ }
{
    let path = match path_in(alloc, path) {
        Ok(path) => path,
        Err(fault) => return (Err(RawFault::Run(fault)), src),
    };
    match checked_by_lint(alloc, src) {
        Ok(mut checked) => {
            let answer = raw_path(alloc, &mut checked, &path, out);
            (answer, checked.into_parts().0)
        }
        Err((fault, src)) => (Err(RawFault::Run(fault)), src),
    }
}

fn raw_path<S: Source, W: Write>(
    alloc: Global,
    checked: &mut Checked<S>,
    path: &Path,
    out: &mut W,
) -> Result<Led, RawFault>
    ensures reads { OnlyReadsFile (raw_read_failed result) checked.old checked.new }
    ensures exact { IsTrue checked.old.source.honest → (v : Value)
        → Holds checked.old.source.octets checked.old.frame checked.old.frame.top.0 v
        → LeavesRawBy (PathShowsRaw path.now v) (LeadsToRawless checked.old.source.octets checked.old.frame path.now v)
        (W.contents out.old) (W.contents out.new) result }
{
    match locate(checked, path)? {
        Found::At(node) => raw_node(alloc, checked, node, out),
        Found::Missing { step, why } => Ok(Led::Nowhere(missing_output(alloc, step, why)?.bytes)),
    }
}

fn raw_node<S: Source, W: Write>(
    alloc: Global,
    checked: &mut Checked<S>,
    node: Node,
    out: &mut W,
) -> Result<Led, RawFault>
    ensures reads { OnlyReadsFile (raw_read_failed result) checked.old checked.new }
    ensures exact { IsTrue checked.old.source.honest → IsVouchedBy checked.old.certificate.heights node.object.0
        → (w : Value) → Holds checked.old.source.octets checked.old.frame node.object.0 w
        → LeavesRawBy (NodeShowsRaw w) (λ n. (n ≡ node.object.0) × (raw_bytes w ≡ None))
        (W.contents out.old) (W.contents out.new) result }
{
    match raw_of(alloc, checked, node)? {
        Some(raw) => {
            send_raw(alloc, checked, &raw, out)?;
            Ok(Led::There)
        }
        None => Err(RawFault::NoRawForm(node.object)),
    }
}
