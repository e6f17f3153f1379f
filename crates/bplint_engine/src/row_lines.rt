//! The lines of a walk, on their way to a writer.

ghost use Rattle.std.specs.Prelude.{◌≡◌, ◌++◌, IsTrue, List, None, OnOk, codes, ℕ};
ghost use Rattle.bplint_engine.specs.Names.{IsNameIn};
ghost use Rattle.bplint_engine.specs.Prelude.{OnlyReadsFile, face_line, read_failed};
ghost use Rattle.bplint_engine.specs.Streams.{Puts, SendsAll, begun};
ghost use Rattle.bplint_engine.specs.Tree.{joined_lines};
ghost use Rattle.bplint_engine.specs.Walks.{IsReady, RowsLeftIn, row_line};

use crate::walk::{Row, Walk};
use bplint_lines::{RunFault, Style, add_face};
use bplist_cert::Checked;
use bplist_cursor::Face;
use bplist_octets::{Sink, Source};
use std::alloc::{AllocError, Global};
use std::io::Write;

/// Lines that go through a sink. One of them is held at a time.
#[derive(Drop)]
pub(crate) struct RowLines {
    alloc: Global,
    /// How lines write texts.
    style: Style,
    line: Vec<u8>,
    sink: Sink,
}

impl RowLines {
    pub(crate) fn new(alloc: Global, style: Style) -> RowLines
        ensures { (result.style ≡ style) × (result.sink ≡ begun) }
    {
        RowLines {
            alloc,
            style,
            line: Vec::new(alloc),
            sink: Sink::new(),
        }
    }

    /// Puts the line of a walk's last row into the sink.
    fn put<W: Write>(&mut self, walk: &Walk, row: &Row, out: &mut W) -> Result<(), RunFault>
        requires { IsNameIn walk.now.names row.now.name }
        ensures style { self.new.style ≡ self.old.style }
        ensures reads { read_failed result ≡ None }
        ensures exact { Puts (W.contents out.old) (W.contents out.new) self.old.sink self.new.sink
            (row_line self.old.style walk.now.names row.now) result }
    {
        self.line.clear();
        self.line.extend_from_slice(walk.name(row))?;
        add_value(self.alloc, self.style, &row.shown, &mut self.line)?;
        self.sink.put(out, &self.line)?;
        Ok(())
    }
}

/// Writes the lines of all rows of a walk.
pub(crate) fn write_rows<S: Source, W: Write>(
    checked: &mut Checked<S>,
    walk: Walk,
    lines: RowLines,
    out: &mut W,
) -> Result<(), RunFault>
    requires ready { IsReady checked.old.frame walk }
    requires begun { lines.sink ≡ begun }
    ensures reads { OnlyReadsFile (read_failed result) checked.old checked.new }
    ensures exact { IsTrue checked.old.source.honest → (left : List (List ℕ)) → RowsLeftIn lines.style checked.old walk left
        → SendsAll (W.contents out.old) (W.contents out.new) (joined_lines left) result }
{
    let (mut walk, mut lines) = (walk, lines);
    put_rows(checked, &mut walk, &mut lines, out)?;
    lines.sink.flush(out)?;
    Ok(())
}

/// Puts the lines of all rows of a walk into the sink.
fn put_rows<S: Source, W: Write>(
    checked: &mut Checked<S>,
    walk: &mut Walk,
    lines: &mut RowLines,
    out: &mut W,
) -> Result<(), RunFault>
    requires { IsReady checked.old.frame walk.old }
    ensures reads { OnlyReadsFile (read_failed result) checked.old checked.new }
    ensures exact { IsTrue checked.old.source.honest → (left : List (List ℕ)) → RowsLeftIn lines.old.style checked.old walk.old left
        → Puts (W.contents out.old) (W.contents out.new) lines.old.sink lines.new.sink (joined_lines left) result }
{
    while let Some(row) = walk.next(checked)? {
        lines.put(walk, &row, out)?;
    }
    Ok(())
}

fn add_value(
    alloc: Global,
    style: Style,
    shown: &Face,
    lines: &mut Vec<u8>,
) -> Result<(), AllocError>
    ensures { OnOk result (lines.new.items ≡ lines.old.items ++ codes "\t" ++ face_line style shown.now ++ codes "\n") }
{
    lines.push(b'\t')?;
    add_face(alloc, style, shown, lines)?;
    Ok(lines.push(b'\n')?)
}
