//! Writes the old-style text of a value to a writer, and says why not if it can't.
//!
//! The measures tell beforehand whether the value has a text and how long it is. So nothing is written if it has none,
//! or if the text is too long.

ghost use Rattle.std.specs.Prelude.{◌≡◌, ℕ, ◌+◌, ◌≤◌, List, Some, None, length, Err, OnOk, OnErr};
ghost use Rattle.bplist_octets.specs.FaultLines.{read_line, write_line};
ghost use Rattle.bplist_objects.specs.FaultLines.{changed_line, memory_line};
ghost use Rattle.bplist_cursor.specs.declared.faults.Unread.TheVariants.{Changed as unread_changed};
ghost use Rattle.bplist_ascii.specs.FormLines.{no_form_line, too_long_line};
ghost use Rattle.bplist_ascii.specs.Prelude.{Read as unread_read, PrintFault as print_fault, HonestlyChecked, Value};
ghost use Rattle.bplist_ascii.specs.Prelude.{Holds, HonestlyAt, VouchesFor, OnlyReadsFile, AreMeasures, AtMost, Takes, print_read};
ghost use Rattle.bplist_ascii.specs.Prelude.{IsPut, IsPrinted};
ghost use Rattle.bplist_ascii.specs.declared.printer.PrintFault.TheVariants as print_faults;
ghost use Rattle.bplist_ascii.specs.declared.printer.PrintFault.TheVariants.{Changed};

use crate::formless::first_formless;
use crate::walk::{PrintWalk, write_value};
use bplist_cert::Checked;
use bplist_cursor::{Form, Measures, Node, Unread};
use bplist_objects::{Head, ObjectNo};
use bplist_octets::{ReadFault, Sink, Source, WriteFault};
use std::alloc::{AllocFailed, Global};
use std::error::Error;
use std::fmt;
use std::io::Write;

/// Why a value was not printed as a whole.
#[derive(Clone, Copy, Debug, PartialEq, Eq, Drop)]
pub enum PrintFault {
    /// The value has no text. This is the first object, in the order of writing, whose kind has none.
    NoAsciiForm(ObjectNo),
    /// The text is longer than the limit, or has 18446744073709551615 bytes or more.
    TooLong,
    /// A write failed. A first part of the text was written, but not all of it.
    Write {
        /// The number of bytes that were written. For `print_into`, this counts all bytes of the sink.
        sent: u64,
    },
    /// A read of the source failed.
    Read(ReadFault),
    /// The node is not a vouched object of this file, or the source now gives other bytes than those that were checked.
    Changed,
    /// Memory was refused.
    Memory,
}

impl fmt::Display for PrintFault {
    ghost output = { λ fault. Some (elim fault [
      | print_faults.NoAsciiForm object ↦ no_form_line object
      | print_faults.TooLong ↦ too_long_line
      | print_faults.Write sent ↦ write_line sent
      | print_faults.Read error ↦ read_line error
      | print_faults.Changed ↦ changed_line
      | print_faults.Memory ↦ memory_line
    ]) };

    fn fmt<W: fmt::Write>(&self, f: &mut fmt::Formatter<W>) -> fmt::Result {
        match self {
            PrintFault::NoAsciiForm(object) => write!(f, "form NoAsciiForm object {object}"),
            PrintFault::TooLong => f.write_str("form TooLong"),
            PrintFault::Write { sent } => write!(f, "write {sent}"),
            PrintFault::Read(error) => write!(f, "{error}"),
            PrintFault::Changed => f.write_str("changed"),
            PrintFault::Memory => f.write_str("memory"),
        }
    }
}

impl Error for PrintFault {}

impl From<WriteFault> for PrintFault {
    ghost from_gives = { λ fault e. e ≡ print_faults.Write fault.sent };

    fn from(fault: WriteFault) -> PrintFault {
        PrintFault::Write { sent: fault.sent }
    }
}

impl From<ReadFault> for PrintFault {
    ghost from_gives = { λ fault e. e ≡ print_faults.Read fault };

    fn from(fault: ReadFault) -> PrintFault {
        PrintFault::Read(fault)
    }
}

impl From<Unread> for PrintFault {
    ghost from_gives = { λ cause e. e ≡ elim cause as (λ _. print_fault)
        [ unread_read fault ↦ print_faults.Read fault | unread_changed ↦ print_faults.Changed ] };

    fn from(unread: Unread) -> PrintFault {
        match unread {
            Unread::Read(fault) => PrintFault::Read(fault),
            Unread::Changed => PrintFault::Changed,
        }
    }
}

impl<T: Drop> From<AllocFailed<T>> for PrintFault {
    ghost from_gives = { λ _ e. e ≡ print_faults.Memory };

    fn from(_failed: AllocFailed<T>) -> PrintFault {
        PrintFault::Memory
    }
}

/// How the units of a text are written.
#[derive(Clone, Copy, Drop)]
pub(crate) enum Style {
    /// As they are.
    Unquoted,
    /// In quotes.
    Quoted,
}

/// The head of a text, and how its units are written.
#[derive(Clone, Copy, Drop)]
pub(crate) struct Styled {
    pub(crate) head: Head,
    pub(crate) style: Style,
}

/// Puts the old-style text of a node's value into a sink.
///
/// This is [`print`] for a caller who has more to write after the text. `Ok` means that the sink took the text; it may
/// still hold some of it. Conditions and errors are those of `print`, except that `sent` of `Write` counts all bytes of
/// the sink. `NoAsciiForm` and `TooLong` leave sink and writer unchanged. Before `Read` or `Memory`, a first part of
/// what the sink held and of the text may have been written.
pub fn print_into<S: Source, W: Write>(
    alloc: Global,
    checked: &mut Checked<S>,
    measures: &Measures,
    node: Node,
    limit: u64,
    sink: &mut Sink,
    out: &mut W,
) -> Result<(), PrintFault>
    requires measured { HonestlyChecked checked.old
        (λ f F. AreMeasures f F checked.old.certificate.heights measures.now) }
    ensures reads { OnlyReadsFile (print_read result) checked.old checked.new }
    ensures exact { HonestlyAt checked.old node.object.0 (λ f F n. (v : Value) → Holds f F n v
        → IsPut (W.contents out.old) (W.contents out.new) sink.old sink.new f F n v limit result) }
    ensures unvouched { (VouchesFor checked.old node.object.0 → ⊥) → result ≡ Err Changed }
    ensures bounded { OnErr result (AtMost (W.contents out.old) (W.contents out.new) (length sink.old.held + limit)) }
    ensures fits { OnOk result ((bytes : List ℕ) × Takes (W.contents out.old) (W.contents out.new) sink.old sink.new bytes
        × (length bytes ≤ limit)) }
{
    let _frame = checked.frame();
    if checked.height(node.object) == 0 {
        return Err(PrintFault::Changed);
    }
    match measures.form(node.object) {
        None => Err(PrintFault::Changed),
        Some(Form::NoForm) => {
            let part = first_formless(checked, measures, node)?;
            Err(PrintFault::NoAsciiForm(part))
        }
        Some(Form::Length(length)) => {
            if length > limit || length == u64::MAX {
                return Err(PrintFault::TooLong);
            }
            write_value(checked, node, PrintWalk::new(alloc, limit), sink, out)?;
            Ok(())
        }
    }
}

/// Writes the old-style text of a node's value if it has at most `limit` bytes.
///
/// The measures must be those that `measure` returns for this `Checked`, if its source is honest. A stack holds the
/// containers around the part that is being written, and texts and data are read and written in parts, so memory grows
/// only with the depth of the value. An interrupted write is repeated, up to 64 times in all.
///
/// - `NoAsciiForm` is decided first, and then `TooLong`. Nothing was written.
/// - `Write`: the first `sent` bytes of the text were written, but not all.
/// - `Read`, `Memory`: a first part of the text may have been written. If the value has no text, nothing was written.
/// - `Changed`: the object of the node is not vouched, or the source gives other bytes than those that were checked.
///   Some bytes may have been written.
///
/// Over any source, honest or not, at most `limit` bytes are written, and the `Checked` is unchanged except for the
/// failure count of its source.
pub fn print<S: Source, W: Write>(
    alloc: Global,
    checked: &mut Checked<S>,
    measures: &Measures,
    node: Node,
    limit: u64,
    out: &mut W,
) -> Result<(), PrintFault>
    requires measured { HonestlyChecked checked.old
        (λ f F. AreMeasures f F checked.old.certificate.heights measures.now) }
    ensures reads { OnlyReadsFile (print_read result) checked.old checked.new }
    ensures exact { HonestlyAt checked.old node.object.0 (λ f F n. (v : Value) → Holds f F n v
        → IsPrinted (W.contents out.old) (W.contents out.new) f F n v limit result) }
    ensures unvouched { (VouchesFor checked.old node.object.0 → ⊥) → result ≡ Err Changed }
    ensures bounded { AtMost (W.contents out.old) (W.contents out.new) limit }
{
    let mut sink = Sink::new();
    print_into(alloc, checked, measures, node, limit, &mut sink, out)?;
    sink.flush(out)?;
    Ok(())
}
