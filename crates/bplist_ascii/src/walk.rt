//! The walk that writes the text of a value. A stack holds the containers that are not written to their end.

ghost use Rattle.std.specs.Prelude.{◌≡◌, ◌<◌, ◌+◌, ◌++◌, [], ◌∷◌, List, ℕ, OnOk, IfErr, OnErr};
ghost use Rattle.bplist_ascii.specs.Prelude.{IsSafeHead, OnlyReadsFile, print_read, AddsSome, TakesWithin, FailsWithin};
ghost use Rattle.bplist_ascii.specs.Prelude.{StaysWithin, Takes, opening_of, separator_of, closing_of, AreSafe};
ghost use Rattle.bplist_ascii.specs.Prelude.{HonestlyLeft, HonestlyPlain, StackLeft, GoesOn};

use crate::leaves::{write_data, write_text};
use crate::output::write;
use crate::printer::PrintFault;
use bplist_cert::Checked;
use bplist_cursor::{Node, member_by_head, node_head};
use bplist_objects::{Head, Kind};
use bplist_octets::{Sink, Source};
use std::alloc::Global;
use std::io::Write;

/// An array or a dictionary on the stack. Its members before number `next` are written or begun.
#[derive(Clone, Copy, Drop)]
struct Opened {
    head: Head,
    next: u64,
}

/// The state of the walk: the containers that are not written to their end, the outermost first, and how many more
/// bytes may be written.
#[derive(Drop)]
pub(crate) struct PrintWalk {
    stack: Vec<Opened>,
    room: u64,
}

impl PrintWalk {
    pub(crate) fn new(alloc: Global, room: u64) -> PrintWalk
        ensures begins { result.stack.items ≡ [] }
        ensures room { result.room ≡ room }
    {
        PrintWalk {
            stack: Vec::new(alloc),
            room,
        }
    }
}

fn opening(kind: Kind) -> &'static [u8]
    ensures { result.now ≡ opening_of kind }
{
    match kind {
        Kind::Dict => b"{",
        _ => b"(",
    }
}

/// The separator stands before member `i`.
fn separator(kind: Kind, i: u64) -> &'static [u8]
    ensures { result.now ≡ separator_of kind i }
{
    match kind {
        _ if i == 0 => b"",
        Kind::Dict if i % 2 == 1 => b"=",
        Kind::Dict => b";",
        _ => b",",
    }
}

fn closing(kind: Kind, members: u64) -> &'static [u8]
    ensures { result.now ≡ closing_of kind members }
{
    match kind {
        Kind::Dict if members == 0 => b"}",
        Kind::Dict => b";}",
        _ => b")",
    }
}

/// Writes a text or data, or opens an array or a dictionary.
fn begin<S: Source, W: Write>(
    checked: &mut Checked<S>,
    node: Node,
    walk: &mut PrintWalk,
    sink: &mut Sink,
    out: &mut W,
) -> Result<(), PrintFault>
    requires heads { AreSafe checked.old.frame walk.old.stack.items }
    ensures reads { OnlyReadsFile (print_read result) checked.old checked.new }
    ensures heads { OnOk result (AreSafe checked.old.frame walk.new.stack.items) }
    ensures exact { OnOk result (HonestlyPlain checked.old node.object.0 (λ text. (left : List ℕ)
        → StackLeft checked.old walk.old.stack.items left → GoesOn checked.old (W.contents out.old) (W.contents out.new)
        sink.old sink.new walk.old.room walk.new.room walk.new.stack.items (text ++ left))) }
    ensures fails { IfErr result (λ e. HonestlyPlain checked.old node.object.0
        (λ text. FailsWithin (W.contents out.old) (W.contents out.new) sink.old walk.old.room text e)) }
    ensures adds { OnOk result (AddsSome (W.contents out.old) (W.contents out.new) sink.old sink.new walk.old.room walk.new.room) }
    ensures falls { OnOk result (walk.new.room < walk.old.room) }
    ensures bounded { OnErr result (StaysWithin (W.contents out.old) (W.contents out.new) sink.old walk.old.room) }
{
    let head = node_head(checked, node)?;
    match head.kind {
        Kind::Ascii | Kind::Wide => write_text(checked, &head, sink, out, &mut walk.room),
        Kind::Bytes => write_data(checked, &head, sink, out, &mut walk.room),
        Kind::Array | Kind::Dict => {
            write(sink, out, &mut walk.room, opening(head.kind))?;
            walk.stack.push(Opened { head, next: 0 })?;
            Ok(())
        }
        _ => Err(PrintFault::Changed),
    }
}

fn step<S: Source, W: Write>(
    checked: &mut Checked<S>,
    opened: Opened,
    walk: &mut PrintWalk,
    sink: &mut Sink,
    out: &mut W,
) -> Result<(), PrintFault>
    requires heads { AreSafe checked.old.frame walk.old.stack.items }
    requires head { IsSafeHead checked.old.frame opened.head }
    ensures reads { OnlyReadsFile (print_read result) checked.old checked.new }
    ensures heads { OnOk result (AreSafe checked.old.frame walk.new.stack.items) }
    ensures exact { OnOk result (HonestlyLeft checked.old (walk.old.stack.items ++ opened ∷ [])
        (GoesOn checked.old (W.contents out.old) (W.contents out.new) sink.old sink.new walk.old.room walk.new.room
        walk.new.stack.items)) }
    ensures fails { IfErr result (λ e. HonestlyLeft checked.old (walk.old.stack.items ++ opened ∷ [])
        (λ left. FailsWithin (W.contents out.old) (W.contents out.new) sink.old walk.old.room left e)) }
    ensures adds { OnOk result (AddsSome (W.contents out.old) (W.contents out.new) sink.old sink.new walk.old.room walk.new.room) }
    ensures falls { OnOk result (walk.new.room < walk.old.room) }
    ensures bounded { OnErr result (StaysWithin (W.contents out.old) (W.contents out.new) sink.old walk.old.room) }
{
    let head = &opened.head;
    let _bounds = (checked.frame(), checked.len());
    let Some(node) = member_by_head(checked, head, opened.next)? else {
        return write(sink, out, &mut walk.room, closing(head.kind, opened.next));
    };
    write(sink, out, &mut walk.room, separator(head.kind, opened.next))?;
    walk.stack.push(Opened {
        next: opened.next + 1,
        ..opened
    })?;
    begin(checked, node, walk, sink, out)
}

pub(crate) fn write_value<S: Source, W: Write>(
    checked: &mut Checked<S>,
    node: Node,
    walk: PrintWalk,
    sink: &mut Sink,
    out: &mut W,
) -> Result<(), PrintFault>
    requires begins { walk.stack.items ≡ [] }
    ensures reads { OnlyReadsFile (print_read result) checked.old checked.new }
    ensures exact { OnOk result (HonestlyPlain checked.old node.object.0
        (Takes (W.contents out.old) (W.contents out.new) sink.old sink.new)) }
    ensures fails { IfErr result (λ e. HonestlyPlain checked.old node.object.0
        (λ text. FailsWithin (W.contents out.old) (W.contents out.new) sink.old walk.room text e)) }
    ensures adds { OnOk result (TakesWithin (W.contents out.old) (W.contents out.new) sink.old sink.new walk.room) }
    ensures bounded { OnErr result (StaysWithin (W.contents out.old) (W.contents out.new) sink.old walk.room) }
{
    let mut walk = walk;
    begin(checked, node, &mut walk, sink, out)?;
    while let Some(opened) = walk.stack.pop() {
        step(checked, opened, &mut walk, sink, out)?;
    }
    Ok(())
}
