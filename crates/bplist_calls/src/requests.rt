//! Lines of input: the words of a line, and the call that they ask for.

use anyhow::{Context, Result, anyhow, bail};
use bplist_cursor::{Node, Path, Query};
use bplist_objects::ObjectNo;
use std::alloc::Global;

/// A line of input, as words.
#[derive(Clone, Copy)]
pub(crate) struct Line<'a> {
    pub(crate) file: &'a str,
    pub(crate) certificate: &'a str,
    /// The name of the call.
    pub(crate) call: &'a str,
    /// What follows the name, with tabs in between.
    pub(crate) operands: &'a str,
}

/// The file and the certificate are those of the line before.
pub(crate) fn has_same_file(line: &str) -> bool {
    line.starts_with("=\t=\t")
}

pub(crate) fn words_of(line: &str) -> Result<Line<'_>> {
    let (file, rest) = line
        .split_once('\t')
        .context("a line without a certificate")?;
    let (certificate, call) = rest.split_once('\t').context("a line without a call")?;
    let (call, operands) = call.split_once('\t').unwrap_or((call, ""));
    Ok(Line {
        file,
        certificate,
        call,
        operands,
    })
}

/// One call of the library.
#[derive(Drop)]
pub(crate) enum Request {
    /// A query, and the text of its path.
    Answer(Query, String),
    Nodes(ObjectNo),
    Form(ObjectNo),
    Member(Node, u64),
    BytesOf(Node),
    References,
}

pub(crate) fn request_of(alloc: Global, line: Line<'_>) -> Result<Request> {
    let operands = line.operands;
    match line.call {
        "size" => {
            let text = path_text(alloc, operands)?;
            Ok(Request::Answer(Query::Size(path_of(alloc, &text)?), text))
        }
        "keys" => {
            let text = path_text(alloc, operands)?;
            Ok(Request::Answer(Query::Keys(path_of(alloc, &text)?), text))
        }
        "nodes" => Ok(Request::Nodes(object(operands)?)),
        "form" => Ok(Request::Form(object(operands)?)),
        "member" => member(operands),
        "bytes_of" => Ok(Request::BytesOf(Node {
            object: object(operands)?,
        })),
        "references" => Ok(Request::References),
        other => bail!("a call named {other}"),
    }
}

fn member(operands: &str) -> Result<Request> {
    let (number, i) = operands
        .split_once('\t')
        .context("a member without its number")?;
    let node = Node {
        object: object(number)?,
    };
    Ok(Request::Member(node, i.parse().context("the number of a member")?))
}

fn object(text: &str) -> Result<ObjectNo> {
    Ok(ObjectNo(text.parse().context("the number of an object")?))
}

fn path_text(alloc: Global, operands: &str) -> Result<String> {
    let bytes = bytes_of_hex(alloc, operands)?;
    let text = std::str::from_utf8(&bytes).context("a path that is no text")?;
    Ok(String::from_str(alloc, text)?)
}

pub(crate) fn path_of(alloc: Global, text: &str) -> Result<Path> {
    Path::parse(alloc, text).map_err(|fault| anyhow!("a path with the fault {fault:?}"))
}

pub(crate) fn bytes_of_hex(alloc: Global, text: &str) -> Result<Vec<u8>> {
    hex::decode(alloc, text).context("text that is not hexadecimal")
}
