//! The command `ls`: lists the members of one value in a file that has no certificate.

ghost use Rattle.std.specs.Prelude.{◌∷◌, [], IsTrue, Ok};
ghost use Rattle.bplint_lines.specs.Answers.{LeavesSomeBy};
ghost use Rattle.bplint_engine.specs.Ls.{PathListed};
ghost use Rattle.bplint_engine.specs.Prelude.{OnlyReads, Holds, Value, IsVouchedBy, OnlyReadsFile};
ghost use Rattle.bplint_engine.specs.Prelude.{read_failed, LinesSay, LintSays, listed};
ghost use Rattle.bplint_engine.specs.Streams.{SendsAll};

use crate::accepted::checked_by_lint;
use crate::get::path_in;
use crate::output::send_output;
use crate::print::missing_output;
use crate::row_lines::{RowLines, write_rows};
use crate::walk::{Keys, Manner, Start, Walk};
use bplint_lines::{RunFault, Said, Style};
use bplist_cert::Checked;
use bplist_cursor::{Found, Node, Path, locate};
use bplist_octets::Source;
use std::alloc::Global;
use std::io::Write;

/// Lists the value under a path: writes one line for each member of an array or set, one for each pair of a dictionary,
/// or one for a leaf itself. Returns the source too.
///
/// A line has the member's own path text, a tab, and the line of `Get` for the member, with texts in this style. If the
/// member has no path text that can be shown, its index in brackets, counted from 0, replaces the path text. In UTF-8
/// style the key follows the index, as a text. That is so for each member of a set, which has no key, and for a key
/// whose path text contains
///
/// - a control character, including U+0080 to U+009F,
/// - a line or paragraph separator (U+2028, U+2029),
/// - a control of text direction (U+061C, U+200E, U+200F, U+202A to U+202E, U+2066 to U+2069), or
/// - a surrogate without its other half.
///
/// A path that leads nowhere gets the same line as with `Get`.
///
/// Lines are written as they are made. Memory grows with the number of objects and the length of a line.
///
/// These errors come before anything is written, in this order: `Path` for a wrong path text, then `Fault` or `Circle`
/// as `Lint` returns it. `Write` and `Changed` mean the same as in [`crate::run_on`]. Before `Read` or `Memory`, a
/// first part of the lines may have been written.
pub fn list_on<S: Source, W: Write>(
    alloc: Global,
    src: S,
    path: &str,
    style: Style,
    out: &mut W,
) -> (Result<Said, RunFault>, S)
    ensures source { OnlyReads (read_failed result.0) (S.means src) (S.means result.1) }
    ensures exact { IsTrue (S.means src).honest
        → ∥ LeavesSomeBy (LinesSay (listed style path.now) (LintSays (S.means src).octets) (S.means src).octets (path.now ∷ []))
        (W.contents out.old) (W.contents out.new) result.0 ∥₁ }
{
    let steps = match path_in(alloc, path) {
        Ok(steps) => steps,
        Err(fault) => return (Err(fault), src),
    };
    match checked_by_lint(alloc, src) {
        Ok(mut checked) => {
            let title = Title { path, style };
            let answer = list_path(alloc, &mut checked, &steps, title, out);
            (answer, checked.into_parts().0)
        }
        Err((fault, src)) => (Err(fault), src),
    }
}

/// What begins the lines of a value, and how they write texts.
#[derive(Clone, Copy, Drop)]
struct Title<'a> {
    /// The path text of the value.
    path: &'a str,
    style: Style,
}

fn list_path<S: Source, W: Write>(
    alloc: Global,
    checked: &mut Checked<S>,
    steps: &Path,
    title: Title<'_>,
    out: &mut W,
) -> Result<Said, RunFault>
    ensures reads { OnlyReadsFile (read_failed result) checked.old checked.new }
    ensures exact { IsTrue checked.old.source.honest → (v : Value)
        → Holds checked.old.source.octets checked.old.frame checked.old.frame.top.0 v
        → LeavesSomeBy (PathListed title.entry.style title.entry.path.now steps.now v) (W.contents out.old) (W.contents out.new) result }
{
    match locate(checked, steps)? {
        Found::At(node) => {
            list_node(alloc, checked, node, title, out)?;
            Ok(Said::All)
        }
        Found::Missing { step, why } => send_output(missing_output(alloc, step, why), out),
    }
}

fn list_node<S: Source, W: Write>(
    alloc: Global,
    checked: &mut Checked<S>,
    node: Node,
    title: Title<'_>,
    out: &mut W,
) -> Result<(), RunFault>
    ensures reads { OnlyReadsFile (read_failed result) checked.old checked.new }
    ensures exact { IsTrue checked.old.source.honest → IsVouchedBy checked.old.certificate.heights node.object.0 → (w : Value)
        → Holds checked.old.source.octets checked.old.frame node.object.0 w
        → SendsAll (W.contents out.old) (W.contents out.new) (listed title.entry.style title.entry.path.now (Ok w)) result }
{
    let manner = Manner {
        keys: Keys::Shown(title.style),
        deep: false,
        sorted: false,
    };
    let start = Start {
        node,
        path: title.path,
        manner,
        room: 0,
    };
    let walk = Walk::begin(alloc, checked, start)?;
    write_rows(checked, walk, RowLines::new(alloc, title.style), out)
}
