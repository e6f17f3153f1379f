//! The most bytes that a call may ask its source for. For look-ups and measures this is what the clause `asks` of the
//! call's contract says: each function says which definition of bplist_cursor/specs/Asked.antt it computes. For `print`
//! it is tested alone, and these are the numbers.

use crate::requests::{Request, path_of};
use anyhow::{Result, anyhow};
use bplist_cert::Checked;
use bplist_cursor::{Form, Found, List, Node, Query, Reply, answer, locate, measure, node_head};
use bplist_objects::{Head, Kind, ObjectNo};
use bplist_octets::Source;
use std::alloc::Global;

/// The most bytes of a text that `print` is to write.
pub(crate) const LIMIT: u64 = 65536;

/// What the place, the marker and the count of an object ask for.
const HEAD: u64 = 28;

/// The same with the reference that names the object.
const MEMBER: u64 = 36;

pub(crate) fn bound_of<S: Source>(
    alloc: Global,
    checked: &mut Checked<S>,
    request: &Request,
) -> Result<Option<u64>> {
    match request {
        Request::Answer(query, path) => Ok(Some(reply_bytes(alloc, checked, query, path)?)),
        Request::Nodes(_) => Ok(Some(pass_bytes(checked))),
        Request::Form(n) => form_bytes(alloc, checked, *n),
        Request::Member(..) => Ok(Some(MEMBER)),
        Request::BytesOf(node) => Ok(face_bytes(checked, *node)),
        Request::References => Ok(None),
    }
}

/// `tries`
fn tries<S: Source>(checked: &Checked<S>, count: u64) -> u64 {
    match checked.certificate().keys {
        Some(_) => 64u64.saturating_sub(u64::from(count.leading_zeros())),
        None => count,
    }
}

/// What `path_bytes` adds for a step with so many units from an object with this head, `key_bytes` among it.
fn step_bytes<S: Source>(checked: &Checked<S>, head: &Head, units: u64) -> u64 {
    let key = match head.kind {
        Kind::Dict => tries(checked, head.count).saturating_mul(key_bytes(units)),
        _ => 0,
    };
    key.saturating_add(MEMBER)
}

/// What one comparison with a key of so many units asks for, and what reading such a key does.
fn key_bytes(units: u64) -> u64 {
    units.saturating_mul(2).saturating_add(MEMBER)
}

/// `path_bytes`, of the path with this text
fn path_bytes<S: Source>(alloc: Global, checked: &mut Checked<S>, path: &str) -> Result<u64> {
    let mut before = String::new(alloc);
    let mut sum = 0u64;
    for step in path.split('/').skip(1) {
        let Some(head) = head_at(alloc, checked, &before)? else {
            return Ok(sum);
        };
        sum = sum.saturating_add(step_bytes(checked, &head, units_in(step)));
        before.push('/')?;
        before.push_str(step)?;
    }
    Ok(sum)
}

/// `~0` and `~1` spell one unit.
fn units_in(step: &str) -> u64 {
    let units = step.encode_utf16().filter(|unit| *unit != 0x7E);
    units.count() as u64
}

fn head_at<S: Source>(alloc: Global, checked: &mut Checked<S>, path: &str) -> Result<Option<Head>> {
    match locate(checked, &path_of(alloc, path)?).map_err(|fault| anyhow!("locate: {fault:?}"))? {
        Found::At(node) => Ok(node_head(checked, node).ok()),
        Found::Missing { .. } => Ok(None),
    }
}

/// `reply_bytes`, and for a size `pass_bytes` too
fn reply_bytes<S: Source>(
    alloc: Global,
    checked: &mut Checked<S>,
    query: &Query,
    path: &str,
) -> Result<u64> {
    let told = match query {
        Query::Size(_) => pass_bytes(checked),
        _ => keys_bytes(alloc, checked, query)?,
    };
    Ok(told.saturating_add(path_bytes(alloc, checked, path)?))
}

/// `keys_bytes`, by the keys that are the reply; 0 if the path leads to no value
fn keys_bytes<S: Source>(alloc: Global, checked: &mut Checked<S>, query: &Query) -> Result<u64> {
    match answer(alloc, checked, query).map_err(|fault| anyhow!("answer: {fault:?}"))? {
        Reply::Keys(keys) => Ok(texts_bytes(keys.as_slice()).saturating_add(HEAD)),
        Reply::NoKeys => Ok(HEAD),
        _ => Ok(0),
    }
}

/// `texts_bytes`
fn texts_bytes(keys: &[List<u16>]) -> u64 {
    let mut sum = 0u64;
    for key in keys {
        sum = sum.saturating_add(key_bytes(key.as_slice().len() as u64));
    }
    sum
}

/// `face_bytes`, with `count_bytes`
fn face_bytes<S: Source>(checked: &mut Checked<S>, node: Node) -> Option<u64> {
    let head = node_head(checked, node).ok()?;
    let body = match head.kind {
        Kind::Int | Kind::Uid => 16,
        Kind::Real | Kind::Date | Kind::Bytes => head.count,
        Kind::Ascii | Kind::Wide => head.count.saturating_mul(2),
        _ => 0,
    };
    Some(body.saturating_add(HEAD))
}

/// `pass_bytes`
fn pass_bytes<S: Source>(checked: &Checked<S>) -> u64 {
    let frame = checked.frame();
    u64::from(frame.objects)
        .saturating_mul(HEAD)
        .saturating_add(frame.table)
}

/// `pass_bytes` for the measures. Then 36 for each node of the value, and 4 for each byte of its text. If the value has
/// no text, the search for the first object without one asks for 36 for each object, and 8 for each byte before the
/// offset table.
fn form_bytes<S: Source>(
    alloc: Global,
    checked: &mut Checked<S>,
    n: ObjectNo,
) -> Result<Option<u64>> {
    let measures = measure(alloc, checked).map_err(|fault| anyhow!("measure: {fault:?}"))?;
    let frame = checked.frame();
    let printed = match measures.form(n) {
        Some(Form::Length(long)) => {
            let nodes = measures.nodes(n).unwrap_or(u64::MAX);
            let text = LIMIT.min(long).saturating_mul(4);
            nodes.saturating_mul(MEMBER).saturating_add(text)
        }
        Some(Form::NoForm) => frame
            .table
            .saturating_mul(8)
            .saturating_add(u64::from(frame.objects).saturating_mul(MEMBER)),
        None => return Ok(None),
    };
    Ok(Some(printed.saturating_add(pass_bytes(checked))))
}
