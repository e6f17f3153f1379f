//! Answers queries about the value of a checked file. For many queries the file is measured at most once.

ghost use Rattle.std.specs.Prelude.{⊤, ◌≡◌, ◌<◌, ◌+◌, ◌≤◌, map, All, IsTrue, IfSome, OnOk};
ghost use Rattle.std.specs.List.{sum_by};
ghost use Rattle.bplist_cursor.specs.Prelude.{HonestlyChecked, Value, Holds, GivesCursor, cursor_read, OnlyReadsFile};
ghost use Rattle.bplist_cursor.specs.Prelude.{IsHeld, AreMeasuresOf, cap, nodes, reply, keys_reply, steps_in, reply_at};
ghost use Rattle.bplist_cursor.specs.Prelude.{IsUnsized, keys_bytes, pass_bytes, pass_left, reply_bytes, told_bytes};

use crate::bodies::node_head;
use crate::faults::CursorFault;
use crate::key_search::key_texts;
use crate::lookup::locate;
use crate::node::{Found, Node};
use crate::node_face::face;
use crate::path::Path;
use crate::replies::{Query, Reply};
use crate::sizes::{Measures, measure};
use bplist_cert::Checked;
use bplist_objects::Kind;
use bplist_octets::Source;
use std::alloc::Global;

fn keys_at<S: Source>(
    alloc: Global,
    checked: &mut Checked<S>,
    node: Node,
) -> Result<Reply, CursorFault>
    ensures reads { OnlyReadsFile (cursor_read result) checked.old checked.new }
    ensures asks { IsTrue checked.old.source.honest → (v : Value) → IsHeld checked.old node.object.0 v
        → checked.new.asked ≤ checked.old.asked + keys_bytes v }
    ensures exact { IsTrue checked.old.source.honest → (v : Value) → IsHeld checked.old node.object.0 v
        → GivesCursor (λ told. told ≡ keys_reply v) result }
{
    let head = node_head(checked, node)?;
    match head.kind {
        Kind::Dict => Ok(Reply::Keys(key_texts(alloc, checked, &head)?)),
        _ => Ok(Reply::NoKeys),
    }
}

fn measures_of<S: Source>(
    alloc: Global,
    checked: &mut Checked<S>,
    measures: Option<Measures>,
) -> Result<Measures, CursorFault>
    ensures reads { OnlyReadsFile (cursor_read result) checked.old checked.new }
    ensures asks { HonestlyChecked checked.old (λ f F. checked.new.asked ≤ checked.old.asked + pass_left F measures) }
    ensures exact { IsTrue checked.old.source.honest → IfSome measures (AreMeasuresOf checked.old)
        → GivesCursor (AreMeasuresOf checked.old) result }
{
    match measures {
        Some(measures) => Ok(measures),
        None => measure(alloc, checked),
    }
}

fn nodes_at<S: Source>(
    alloc: Global,
    checked: &mut Checked<S>,
    node: Node,
    measures: Option<Measures>,
) -> Result<(u64, Measures), CursorFault>
    ensures reads { OnlyReadsFile (cursor_read result) checked.old checked.new }
    ensures asks { HonestlyChecked checked.old (λ f F. checked.new.asked ≤ checked.old.asked + pass_left F measures) }
    ensures exact { IsTrue checked.old.source.honest → IfSome measures (AreMeasuresOf checked.old)
        → (v : Value) → IsHeld checked.old node.object.0 v
        → GivesCursor (λ told. (told.0 ≡ cap (nodes v)) × AreMeasuresOf checked.old told.1) result }
{
    let measures = measures_of(alloc, checked, measures)?;
    match measures.nodes(node.object) {
        Some(nodes) => Ok((nodes, measures)),
        None => Err(CursorFault::Changed),
    }
}

fn path_of(query: &Query) -> &Path
    ensures { result.now ≡ steps_in query.now }
{
    match query {
        Query::Get(path) | Query::Keys(path) | Query::Size(path) => path,
    }
}

/// Measures the file at the first query for a size, and keeps the measures for later ones.
fn answer_at<S: Source>(
    alloc: Global,
    checked: &mut Checked<S>,
    node: Node,
    query: &Query,
    measures: &mut Option<Measures>,
) -> Result<Reply, CursorFault>
    ensures reads { OnlyReadsFile (cursor_read result) checked.old checked.new }
    ensures asks { IsTrue checked.old.source.honest → IsUnsized query.now → (v : Value) → IsHeld checked.old node.object.0 v
        → checked.new.asked ≤ checked.old.asked + told_bytes v query.now }
    ensures asks_pass { HonestlyChecked checked.old (λ f F. (v : Value) → IsHeld checked.old node.object.0 v
        → checked.new.asked ≤ checked.old.asked + (told_bytes v query.now + pass_left F measures.old)) }
    ensures asks_left { OnOk result (HonestlyChecked checked.old (λ f F. (v : Value) → IsHeld checked.old node.object.0 v
        → checked.new.asked + pass_left F measures.new ≤ checked.old.asked + (told_bytes v query.now + pass_left F measures.old))) }
    ensures exact { IsTrue checked.old.source.honest → IfSome measures.old (AreMeasuresOf checked.old)
        → (v : Value) → IsHeld checked.old node.object.0 v
        → GivesCursor (λ told. (told ≡ reply_at v query.now) × IfSome measures.new (AreMeasuresOf checked.old)) result }
{
    match query {
        Query::Get(_) => Ok(Reply::Face(face(alloc, checked, node)?)),
        Query::Keys(_) => keys_at(alloc, checked, node),
        Query::Size(_) => {
            let (nodes, table) = nodes_at(alloc, checked, node, measures.take())?;
            *measures = Some(table);
            Ok(Reply::Size(nodes))
        }
    }
}

fn answer_by<S: Source>(
    alloc: Global,
    checked: &mut Checked<S>,
    query: &Query,
    measures: &mut Option<Measures>,
) -> Result<Reply, CursorFault>
    ensures reads { OnlyReadsFile (cursor_read result) checked.old checked.new }
    ensures asks { HonestlyChecked checked.old (λ f F. IsUnsized query.now → (v : Value) → Holds f F F.top.0 v
        → checked.new.asked ≤ checked.old.asked + reply_bytes checked.old.certificate.keys v query.now) }
    ensures asks_pass { HonestlyChecked checked.old (λ f F. (v : Value) → Holds f F F.top.0 v
        → checked.new.asked ≤ checked.old.asked + (reply_bytes checked.old.certificate.keys v query.now + pass_left F measures.old)) }
    ensures asks_left { OnOk result (HonestlyChecked checked.old (λ f F. (v : Value) → Holds f F F.top.0 v
        → checked.new.asked + pass_left F measures.new
        ≤ checked.old.asked + (reply_bytes checked.old.certificate.keys v query.now + pass_left F measures.old))) }
    ensures exact { HonestlyChecked checked.old (λ f F. IfSome measures.old (AreMeasuresOf checked.old) → (v : Value)
        → Holds f F F.top.0 v → GivesCursor (λ told. (told ≡ reply v query.now)
        × IfSome measures.new (AreMeasuresOf checked.old)) result) }
{
    match locate(checked, path_of(query))? {
        Found::At(node) => answer_at(alloc, checked, node, query, measures),
        Found::Missing { step, why } => Ok(Reply::Missing { step, why }),
    }
}

/// Returns the reply of the file's value to a query. A path that leads nowhere is no error: the reply is `Missing`.
///
/// Errors: `Read` if a read of the source failed; `Memory` if an allocation was refused; `Changed` if an object is not
/// what the check found, which never happens while the source is honest.
pub fn answer<S: Source>(
    alloc: Global,
    checked: &mut Checked<S>,
    query: &Query,
) -> Result<Reply, CursorFault>
    ensures reads { OnlyReadsFile (cursor_read result) checked.old checked.new }
    ensures asks { HonestlyChecked checked.old (λ f F. IsUnsized query.now → (v : Value) → Holds f F F.top.0 v
        → checked.new.asked ≤ checked.old.asked + reply_bytes checked.old.certificate.keys v query.now) }
    ensures asks_pass { HonestlyChecked checked.old (λ f F. (v : Value) → Holds f F F.top.0 v
        → checked.new.asked ≤ checked.old.asked + (reply_bytes checked.old.certificate.keys v query.now + pass_bytes F)) }
    ensures exact { HonestlyChecked checked.old (λ f F. (v : Value) → Holds f F F.top.0 v
        → GivesCursor (λ told. told ≡ reply v query.now) result) }
    ensures unchanged { IsTrue checked.old.source.honest → GivesCursor (λ _. ⊤) result }
{
    let _frame = checked.frame();
    answer_by(alloc, checked, query, &mut None)
}

/// Returns the replies of the file's value to these queries, one for each and in their order.
///
/// The file is measured at most once, and only if a query asks for a size. Errors: `Read` if a read of the source
/// failed; `Memory` if an allocation was refused; `Changed` if an object is not what the check found, which never
/// happens while the source is honest. After an error there are no replies at all.
pub fn answer_all<S: Source>(
    alloc: Global,
    checked: &mut Checked<S>,
    queries: &[Query],
) -> Result<Vec<Reply>, CursorFault>
    ensures reads { OnlyReadsFile (cursor_read result) checked.old checked.new }
    ensures asks { HonestlyChecked checked.old (λ f F. All IsUnsized queries.now → (v : Value) → Holds f F F.top.0 v
        → checked.new.asked ≤ checked.old.asked + sum_by (reply_bytes checked.old.certificate.keys v) queries.now) }
    ensures asks_pass { HonestlyChecked checked.old (λ f F. (v : Value) → Holds f F F.top.0 v
        → checked.new.asked ≤ checked.old.asked + (sum_by (reply_bytes checked.old.certificate.keys v) queries.now + pass_bytes F)) }
    ensures exact { HonestlyChecked checked.old (λ f F. (v : Value) → Holds f F F.top.0 v
        → GivesCursor (λ replies. replies.items ≡ map (reply v) queries.now) result) }
    ensures unchanged { IsTrue checked.old.source.honest → GivesCursor (λ _. ⊤) result }
{
    let _frame = checked.frame();
    let mut measures = None;
    let mut replies = Vec::with_capacity(alloc, queries.len())?;
    for k in 0..queries.len() {
        let told = answer_by(alloc, checked, &queries[k], &mut measures)?;
        replies.push(told)?;
    }
    Ok(replies)
}
