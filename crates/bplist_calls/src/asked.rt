//! Counts what the calls of lines ask their source for, beside the most that is proved of each.

use crate::answers::checked_of;
use crate::bounds::{LIMIT, bound_of};
use crate::requests::{Request, bytes_of_hex, request_of, words_of};
use anyhow::Result;
use bplist_ascii::print;
use bplist_cert::Checked;
use bplist_cursor::{Node, answer, count_nodes, face, measure, member};
use bplist_objects::ObjectNo;
use bplist_octets::{CountingSource, SliceSource, Source};
use std::alloc::Global;
use std::io::Write;

/// Writes a line for each of these lines, with a line feed. It has the number of bytes that the call asks for, and the
/// most that it may ask for; or `-` if no bound is proved. The first line gives the file and the certificate for all.
pub(crate) fn write_asked<W: Write>(alloc: Global, lines: &[String], out: &mut W) -> Result<()> {
    let Some(first) = lines.first() else {
        return Ok(());
    };
    let first = words_of(first)?;
    let file = bytes_of_hex(alloc, first.file)?;
    let source = CountingSource::new(SliceSource::new(&file));
    let mut checked = checked_of(alloc, source, first.certificate)?;
    write_each(alloc, &mut checked, lines, out)
}

fn write_each<W: Write>(
    alloc: Global,
    checked: &mut Checked<CountingSource<SliceSource<'_>>>,
    lines: &[String],
    out: &mut W,
) -> Result<()> {
    for line in lines {
        let request = request_of(alloc, words_of(line)?)?;
        match bound_of(alloc, checked, &request)? {
            Some(bound) => writeln!(out, "{} {bound}", asked_for(alloc, checked, &request))?,
            None => writeln!(out, "-")?,
        }
    }
    Ok(())
}

fn asked_for(
    alloc: Global,
    checked: &mut Checked<CountingSource<SliceSource<'_>>>,
    request: &Request,
) -> u64 {
    let before = checked.source().asked;
    make(alloc, checked, request);
    checked.source().asked.saturating_sub(before)
}

/// Makes the call, whose answer `answers` tests. For `form` it also prints, and for `bytes_of` it reads the face.
fn make<S: Source>(alloc: Global, checked: &mut Checked<S>, request: &Request) {
    match request {
        Request::Answer(query, _) => {
            let _ = answer(alloc, checked, query);
        }
        Request::Nodes(n) => {
            let _ = count_nodes(alloc, checked, Node { object: *n });
        }
        Request::Form(n) => make_text(alloc, checked, *n),
        Request::Member(node, i) => {
            let _ = member(checked, *node, *i);
        }
        Request::BytesOf(node) => {
            let _ = face(alloc, checked, *node);
        }
        Request::References => {}
    }
}

fn make_text<S: Source>(alloc: Global, checked: &mut Checked<S>, n: ObjectNo) {
    if let Ok(measures) = measure(alloc, checked) {
        let mut text: Vec<u8> = Vec::new(alloc);
        let _ = print(
            alloc,
            checked,
            &measures,
            Node { object: n },
            LIMIT,
            &mut text,
        );
    }
}
