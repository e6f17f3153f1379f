//! Answers the calls about one file.

use crate::counts::accepted;
use crate::requests::{Request, bytes_of_hex, request_of, words_of};
use anyhow::{Result, anyhow, bail, ensure};
use bplist_cert::{Certificate, Checked};
use bplist_cursor::{Form, List, Measures, Node, Query, Reply, answer, bytes_of, measure, member};
use bplist_lint::lint;
use bplist_objects::shape_of;
use bplist_octets::{SliceSource, Source};
use std::alloc::Global;
use std::fmt::Write as _;
use std::io::Write;

/// The first line gives the file and the certificate for all.
pub(crate) fn answer_lines<W: Write>(alloc: Global, lines: &[String], out: &mut W) -> Result<()> {
    let Some(first) = lines.first() else {
        return Ok(());
    };
    let first = words_of(first)?;
    let file = bytes_of_hex(alloc, first.file)?;
    let mut checked = checked_of(alloc, SliceSource::new(&file), first.certificate)?;
    answer_each(alloc, &mut checked, lines, out)
}

fn answer_each<W: Write>(
    alloc: Global,
    checked: &mut Checked<SliceSource<'_>>,
    lines: &[String],
    out: &mut W,
) -> Result<()> {
    let measures = measure(alloc, checked).map_err(|fault| anyhow!("measure: {fault:?}"))?;
    for line in lines {
        let answer = answer_to(alloc, checked, &measures, line)?;
        writeln!(out, "{answer}")?;
    }
    Ok(())
}

/// The bytes of the certificate are in hexadecimal.
pub(crate) fn checked_of<S: Source + Drop>(
    alloc: Global,
    source: S,
    certificate: &str,
) -> Result<Checked<S>> {
    let octets = bytes_of_hex(alloc, certificate)?;
    let certificate = Certificate::from_octets(alloc, &octets).map_err(|refusal| anyhow!(
        "from_octets: {refusal:?}"
    ))?;
    accepted(alloc, source, certificate)
}

fn answer_to(
    alloc: Global,
    checked: &mut Checked<SliceSource<'_>>,
    measures: &Measures,
    line: &str,
) -> Result<String> {
    let request = request_of(alloc, words_of(line)?)?;
    answer_text(alloc, checked, measures, &request)
}

fn answer_text(
    alloc: Global,
    checked: &mut Checked<SliceSource<'_>>,
    measures: &Measures,
    request: &Request,
) -> Result<String> {
    match request {
        Request::Answer(query, _) => reply_text(alloc, checked, query),
        Request::Nodes(n) => optional(alloc, measures.nodes(*n)),
        Request::Form(n) => form_text(alloc, measures.form(*n)),
        Request::Member(node, i) => member_text(alloc, checked, *node, *i),
        Request::BytesOf(node) => bytes_text(alloc, checked, *node),
        Request::References => references_text(alloc, checked.octets()),
    }
}

fn reply_text(
    alloc: Global,
    checked: &mut Checked<SliceSource<'_>>,
    query: &Query,
) -> Result<String> {
    match answer(alloc, checked, query) {
        Ok(Reply::Size(nodes)) => Ok(format!(in alloc; "{nodes}")?),
        Ok(Reply::Keys(keys)) => keys_text(alloc, keys.as_slice()),
        Ok(Reply::NoKeys) => Ok(String::from_str(alloc, "nokeys")?),
        Ok(Reply::Missing { step, why }) => Ok(format!(in alloc; "missing {step} {why:?}")?),
        Ok(Reply::Face(_)) => bail!("a face that nobody asked for"),
        Err(fault) => bail!("answer: {fault:?}"),
    }
}

fn keys_text(alloc: Global, keys: &[List<u16>]) -> Result<String> {
    let mut text = String::from_str(alloc, "keys")?;
    for key in keys {
        text.push(' ')?;
        if key.as_slice().is_empty() {
            text.push('-')?;
        }
        for unit in key.as_slice() {
            write!(text, "{unit:04x}")?;
        }
    }
    Ok(text)
}

fn optional(alloc: Global, number: Option<u64>) -> Result<String> {
    match number {
        Some(number) => Ok(format!(in alloc; "{number}")?),
        None => Ok(String::from_str(alloc, "none")?),
    }
}

fn form_text(alloc: Global, form: Option<Form>) -> Result<String> {
    match form {
        Some(Form::Length(length)) => Ok(format!(in alloc; "length {length}")?),
        Some(Form::NoForm) => Ok(String::from_str(alloc, "noform")?),
        None => Ok(String::from_str(alloc, "none")?),
    }
}

fn member_text(
    alloc: Global,
    checked: &mut Checked<SliceSource<'_>>,
    node: Node,
    i: u64,
) -> Result<String> {
    match member(checked, node, i) {
        Ok(found) => optional(alloc, found.map(|node| u64::from(node.object.0))),
        Err(fault) => bail!("member: {fault:?}"),
    }
}

fn bytes_text(alloc: Global, checked: &mut Checked<SliceSource<'_>>, node: Node) -> Result<String> {
    let Some(bytes) = bytes_of(checked, node) else {
        return Ok(String::from_str(alloc, "none")?);
    };
    let place = body_place(checked, node)?;
    let shown = hex_or_dash(alloc, bytes)?;
    Ok(format!(in alloc; "{place} {shown}")?)
}

fn body_place(checked: &mut Checked<SliceSource<'_>>, node: Node) -> Result<u64> {
    let frame = checked.frame();
    ensure!(node.object.0 < frame.objects, "bytes of an object outside");
    match shape_of(checked, &frame, node.object) {
        Ok(head) => Ok(head.body),
        Err(fault) => bail!("shape_of: {fault:?}"),
    }
}

fn hex_or_dash(alloc: Global, bytes: &[u8]) -> Result<String> {
    if bytes.is_empty() {
        return Ok(String::from_str(alloc, "-")?);
    }
    Ok(hex::encode(alloc, bytes)?)
}

fn references_text(alloc: Global, file: &[u8]) -> Result<String> {
    match lint(alloc, &mut SliceSource::new(file)) {
        Ok(lint) => Ok(format!(in alloc; "{}", lint.references)?),
        Err(refusal) => bail!("lint: {refusal:?}"),
    }
}
