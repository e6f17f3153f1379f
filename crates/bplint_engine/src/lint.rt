//! The command `lint`: says whether a file holds a value.

ghost use Rattle.std.specs.Prelude.{◌≡◌, ◌++◌, IfOk, IsTrue, codes, slice_index};
ghost use Rattle.bplist_objects.specs.Heads.{Content, Spells};
ghost use Rattle.bplint_lines.specs.declared.fault.Said.TheVariants.{All};
ghost use Rattle.bplint_engine.specs.Prelude.{OnlyReads, read_failed, Answers, Leaves, LintSays, lint_line};
ghost use Rattle.bplint_engine.specs.Prelude.{GivesOrIsExcused, IsVouchedBy, OnlyReadsFile};

use crate::output::{Output, send_made};
use bplint_lines::{RunFault, Said, add_lint};
use bplist_cert::Checked;
use bplist_cursor::{Node, node_head};
use bplist_lint::{Keys, lint_checked};
use bplist_objects::Kind;
use bplist_octets::Source;
use std::alloc::{AllocError, Global};
use std::io::Write;

/// Writes the line of `lint`. Returns the source too. Does what [`crate::run_on`] does for `Lint`, with the same
/// errors.
pub fn lint_on<S: Source, W: Write>(
    alloc: Global,
    src: S,
    out: &mut W,
) -> (Result<Said, RunFault>, S)
    ensures source { OnlyReads (read_failed result.0) (S.means src) (S.means result.1) }
    ensures exact { IsTrue (S.means src).honest → Leaves (LintSays (S.means src).octets) 0
        (W.contents out.old) (W.contents out.new) result.0 }
{
    send_made(lint_output(alloc, src), out)
}

fn lint_output<S: Source>(alloc: Global, src: S) -> (Result<Output, RunFault>, S)
    ensures source { OnlyReads (read_failed result.0) (S.means src) (S.means result.1) }
    ensures exact { IsTrue (S.means src).honest → Answers (LintSays (S.means src).octets) result.0 }
{
    match lint_checked(alloc, src, Keys::Classes) {
        Ok((mut checked, tally)) => {
            let made = yes_output(alloc, &mut checked, tally.reached);
            (made, checked.into_parts().0)
        }
        Err((refusal, src)) => (Err(RunFault::from(refusal)), src),
    }
}

/// The linter does not keep the kind of the top, so the top's marker is read again.
fn yes_output<S: Source>(
    alloc: Global,
    checked: &mut Checked<S>,
    reached: u64,
) -> Result<Output, RunFault>
    ensures reads { OnlyReadsFile (read_failed result) checked.old checked.new }
    ensures exact { IsTrue checked.old.source.honest → (content : Content)
        → (spells : Spells checked.old.source.octets checked.old.frame checked.old.frame.top.0 content)
        → IsVouchedBy checked.old.certificate.heights checked.old.frame.top.0
        → GivesOrIsExcused (λ output. (output.said ≡ All) × (output.bytes.items ≡ lint_line reached
        (slice_index checked.old.certificate.heights checked.old.frame.top.0) spells.shape.kind ++ codes "\n")) result }
{
    let frame = checked.frame();
    let head = node_head(checked, Node { object: frame.top })?;
    let bytes = yes_of(alloc, reached, checked.height(frame.top), head.kind)?;
    Ok(Output {
        said: Said::All,
        bytes,
    })
}

fn yes_of(alloc: Global, reached: u64, height: u32, top: Kind) -> Result<Vec<u8>, AllocError>
    ensures { IfOk result (λ line. line.items ≡ lint_line reached height top ++ codes "\n") }
{
    let mut line = Vec::new(alloc);
    add_lint(alloc, reached, height, top, &mut line)?;
    line.push(b'\n')?;
    Ok(line)
}
