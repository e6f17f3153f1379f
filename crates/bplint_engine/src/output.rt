//! The answer of a command before it is written, and how it goes to the caller's writer. If the whole answer is made
//! first, each fault of the run comes before the first byte.

ghost use Rattle.std.specs.Prelude.{◌≡◌, MatchResult};
ghost use Rattle.std.specs.Io.KnownBytes.{Appends};
ghost use Rattle.bplint_engine.specs.Prelude.{SendsPart, read_failed, Sends};

use bplint_lines::{RunFault, Said};
use bplist_octets::{Sink, Source, WriteFault};
use std::io::Write;

/// The bytes of an answer, and whether each path led to a value.
#[derive(Drop)]
pub(crate) struct Output {
    /// `SomeMissing` if a path led to no value.
    pub said: Said,
    /// All bytes of the answer, with line feeds.
    pub bytes: Vec<u8>,
}

/// Whether a path led to a value, in a call that writes nothing but values.
#[derive(Drop)]
pub enum Led {
    /// It did, and the whole value was written.
    There,
    /// It led nowhere, and nothing was written. This is the line that says so, with its line feed.
    Nowhere(Vec<u8>),
}

/// Writes the output if there is one, and passes the source on.
pub(crate) fn send_made<S: Source, W: Write>(
    made: (Result<Output, RunFault>, S),
    out: &mut W,
) -> (Result<Said, RunFault>, S)
    ensures sent { Sends (W.contents out.old) (W.contents out.new) made.0 result.0 }
    ensures reads { read_failed result.0 ≡ read_failed made.0 }
    ensures source { S.means result.1 ≡ S.means made.1 }
{
    let (made, src) = made;
    (send_output(made, out), src)
}

/// Writes the output if there is one, or passes its fault on.
pub(crate) fn send_output<W: Write>(
    made: Result<Output, RunFault>,
    out: &mut W,
) -> Result<Said, RunFault>
    ensures sent { Sends (W.contents out.old) (W.contents out.new) made result }
    ensures reads { read_failed result ≡ read_failed made }
{
    let output = made?;
    send(out, &output.bytes)?;
    Ok(output.said)
}

/// Writes all of these bytes. The fault says how many were written.
pub(crate) fn send<W: Write>(out: &mut W, bytes: &[u8]) -> Result<(), WriteFault>
    ensures { MatchResult result
        (λ _. Appends (W.contents out.old) (W.contents out.new) bytes.now)
        (λ fault. SendsPart (W.contents out.old) (W.contents out.new) 0 bytes.now fault.sent) }
{
    let mut sink = Sink::new();
    sink.put(out, bytes)?;
    sink.flush(out)
}
