//! The forms of `ls` that are not proved: the members of a value, or the value and everything inside it, as JSON, with
//! the object of each value and its place, as people read values, indented, or in the order of keys.

ghost use Rattle.std.specs.Prelude.{◌≡◌, IfOk, None};
ghost use Rattle.bplist_cursor.specs.Causes.{cursor_read};
ghost use Rattle.bplist_cursor.specs.Kept.{OnlyReadsFile};
ghost use Rattle.bplint_engine.specs.Names.{IsNameIn};
ghost use Rattle.bplint_engine.specs.Walks.{IsReady};
ghost use Rattle.bplint_lines.specs.Answers.{read_failed};

use crate::accepted::linted;
use crate::columns::{Values, add_indented, add_line, add_site};
use crate::get::path_in;
use crate::json::rows::{JsonName, Site, missing_row, row_of, with_key};
use crate::print::missing_output;
use crate::tree::count_within;
use crate::walk::{Keys, Manner, Row, Start, Walk};
use bplint_lines::{RunFault, Said, Style};
use bplist_cert::Checked;
use bplist_cursor::{CursorFault, Face, Found, Node, Path, Why, face, locate};
use bplist_objects::offset_of;
use bplist_octets::{Sink, Source};
use std::alloc::Global;
use std::io::Write;

/// What to list of a value.
#[derive(Clone, Copy, Drop)]
pub enum Depth {
    /// Its members, or the value itself if it is a leaf.
    Members,
    /// The value and everything inside it, if it has at most so many nodes. Each key counts as a node.
    All(u64),
}

/// The form of a line.
#[derive(Clone, Copy, Drop)]
pub enum Form {
    /// A JSON object.
    Json,
    /// The line of `ls`.
    Lines(Values),
    /// The line of `ls`, and two more columns, each after a tab: the number of the object, and its place from the
    /// beginning of the file.
    Columns(Values),
    /// Two blanks for each container around the value, the name of the value in its container, a colon, and the value
    /// as people read it.
    Tree,
}

impl Form {
    /// How names have keys.
    fn keys(self) -> Keys {
        match self {
            Form::Json => Keys::Whole,
            Form::Lines(Values::Exact(style)) | Form::Columns(Values::Exact(style)) => {
                Keys::Shown(style)
            }
            _ => Keys::Shown(Style::Utf8),
        }
    }
}

/// What to list, and how.
#[derive(Clone, Copy, Drop)]
pub struct Listed<'a> {
    /// The path text of the value.
    pub path: &'a str,
    /// What to list of it.
    pub depth: Depth,
    /// The form of a line.
    pub form: Form,
    /// True if the pairs of a dictionary come in the order of their keys' units. Otherwise they come in the order of
    /// the file.
    pub sorted: bool,
}

/// Lists the value under a path: writes one line of the form for each value that `ls` has a line for. Returns the
/// source too. A path that leads nowhere gets a JSON object that says so, or in other forms the line of `ls`. If there
/// is a name of the file, each JSON object has it.
///
/// These errors come before anything is written, in this order: `Path` for a wrong path text; `Fault` or `Circle` as
/// `lint` returns it; `TooLong` if the value has more nodes than [`Depth::All`] allows. Before `Read`, `Memory`,
/// `Write` or `Changed`, a first part of the lines may have been written.
pub fn list_rows_on<S: Source, W: Write>(
    alloc: Global,
    src: S,
    listed: &Listed<'_>,
    file: Option<&str>,
    out: &mut W,
) -> (Result<Said, RunFault>, S) {
    let steps = match path_in(alloc, listed.path) {
        Ok(steps) => steps,
        Err(fault) => return (Err(fault), src),
    };
    match linted(alloc, src, listed.sorted) {
        Ok(mut checked) => {
            let mut rows = FormLines {
                alloc,
                form: listed.form,
                file,
                line: Vec::new(alloc),
                sink: Sink::new(),
                out,
            };
            let made = list_path(&mut checked, &steps, listed, &mut rows);
            (made, checked.into_parts().0)
        }
        Err((fault, src)) => (Err(fault), src),
    }
}

fn list_path<S: Source, W: Write>(
    checked: &mut Checked<S>,
    steps: &Path,
    listed: &Listed<'_>,
    rows: &mut FormLines<'_, '_, W>,
) -> Result<Said, RunFault> {
    let said = match locate(checked, steps)? {
        Found::At(node) => {
            let walk = walk_from(rows.alloc, checked, node, listed)?;
            put_rows(checked, walk, rows)?;
            Said::All
        }
        Found::Missing { step, why } => {
            rows.put_missing(listed.path, step, why)?;
            Said::SomeMissing
        }
    };
    rows.sink.flush(rows.out)?;
    Ok(said)
}

/// Returns a walk over the value of a node. If it is deep, the number of nodes bounds that of rows.
fn walk_from<S: Source>(
    alloc: Global,
    checked: &mut Checked<S>,
    node: Node,
    listed: &Listed<'_>,
) -> Result<Walk, RunFault>
    ensures { IfOk result (λ walk. IsReady checked.new.frame walk) }
{
    let (deep, room) = match listed.depth {
        Depth::Members => (false, 0),
        Depth::All(limit) => (true, count_within(alloc, checked, node, limit)?),
    };
    let manner = Manner {
        keys: listed.form.keys(),
        deep,
        sorted: listed.sorted,
    };
    let start = Start {
        node,
        path: listed.path,
        manner,
        room,
    };
    Ok(Walk::begin(alloc, checked, start)?)
}

/// Puts the lines of all rows of a walk.
fn put_rows<S: Source, W: Write>(
    checked: &mut Checked<S>,
    walk: Walk,
    rows: &mut FormLines<'_, '_, W>,
) -> Result<(), RunFault>
    requires { IsReady checked.old.frame walk }
{
    let mut walk = walk;
    while let Some(row) = walk.next(checked)? {
        rows.put(checked, &walk, &row)?;
    }
    Ok(())
}

/// Lines that go through a sink to a writer. One of them is held at a time.
#[derive(Drop)]
struct FormLines<'f, 'o, W> {
    alloc: Global,
    form: Form,
    /// The name of the file that JSON objects have.
    file: Option<&'f str>,
    line: Vec<u8>,
    sink: Sink,
    out: &'o mut W,
}

impl<'f, 'o, W: Write> FormLines<'f, 'o, W> {
    /// Puts the line of a walk's last row.
    fn put<S: Source>(
        &mut self,
        checked: &mut Checked<S>,
        walk: &Walk,
        row: &Row,
    ) -> Result<(), RunFault>
        requires { IsNameIn walk.now.names row.now.name }
        ensures { OnlyReadsFile (read_failed result) checked.old checked.new }
    {
        self.line.clear();
        self.add_row(checked, walk, row)?;
        self.put_line()
    }

    /// Adds the line of a walk's last row, without its line feed.
    fn add_row<S: Source>(
        &mut self,
        checked: &mut Checked<S>,
        walk: &Walk,
        row: &Row,
    ) -> Result<(), CursorFault>
        requires { IsNameIn walk.now.names row.now.name }
        ensures { OnlyReadsFile (cursor_read result) checked.old checked.new }
    {
        let name = walk.name(row);
        match self.form {
            Form::Json => self.line = self.json_row(checked, name, row)?,
            Form::Lines(values) => {
                add_line(self.alloc, values, name, &row.shown, &mut self.line)?;
            }
            Form::Columns(values) => {
                let site = site_of(checked, row.node)?;
                add_line(self.alloc, values, name, &row.shown, &mut self.line)?;
                add_site(self.alloc, site, &mut self.line)?;
            }
            Form::Tree => {
                let name = walk.own_name(row);
                add_indented(self.alloc, row.depth, name, &row.shown, &mut self.line)?;
            }
        }
        Ok(())
    }

    /// Returns the JSON object of a row, without its line feed. A key that no path can have is read again.
    fn json_row<S: Source>(
        &self,
        checked: &mut Checked<S>,
        name: &[u8],
        row: &Row,
    ) -> Result<Vec<u8>, CursorFault>
        ensures { OnlyReadsFile (cursor_read result) checked.old checked.new }
    {
        let site = site_of(checked, row.node)?;
        let name = std::str::from_utf8(name).unwrap_or("");
        let named = JsonName::new(self.file, Some(name), row.name.index);
        let line = row_of(self.alloc, named, &row.shown, site)?;
        let (Some(index), Some(key)) = (row.name.index, row.name.key) else {
            return Ok(line);
        };
        match face(self.alloc, checked, key)? {
            Face::Text(units) => {
                let key = units.as_slice();
                Ok(with_key(self.alloc, &line, self.file, index, key)?)
            }
            _ => Err(CursorFault::Changed),
        }
    }

    /// Puts the line for a path that leads nowhere.
    fn put_missing(&mut self, path: &str, step: u64, why: Why) -> Result<(), RunFault> {
        if let Form::Json = self.form {
            self.line = missing_row(self.alloc, self.file, path, step, why)?;
            return self.put_line();
        }
        let output = missing_output(self.alloc, step, why)?;
        Ok(self.sink.put(self.out, &output.bytes)?)
    }

    fn put_line(&mut self) -> Result<(), RunFault>
        ensures { read_failed result ≡ None }
    {
        self.line.push(b'\n')?;
        self.sink.put(self.out, &self.line)?;
        Ok(())
    }
}

fn site_of<S: Source>(checked: &mut Checked<S>, node: Node) -> Result<Site, CursorFault>
    ensures { OnlyReadsFile (cursor_read result) checked.old checked.new }
{
    let frame = checked.frame();
    if node.object.0 >= frame.objects {
        return Err(CursorFault::Changed);
    }
    let place = offset_of(checked, &frame, node.object)?;
    Ok(Site {
        object: node.object.0,
        place,
    })
}
