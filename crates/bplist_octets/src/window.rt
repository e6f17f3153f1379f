//! A source over another source, with one buffer of bytes that it has read.

ghost use Rattle.std.specs.Prelude.{◌≡◌, ◌↔◌, ◌+◌, ◌-◌, ◌/◌, ◌≤◌, length, take, min, max, IsTrue, MatchOption, OnOk, OnErr};
ghost use Rattle.std.specs.Result.{result_err};
ghost use Rattle.bplist_octets.specs.Octets.{part};
ghost use Rattle.bplist_octets.specs.Meaning.{OnlyReads};

use crate::source::{ReadFault, Source};

/// The largest number of bytes in the window.
const WINDOW: usize = 4096;

/// The number of bytes read after a jump, if the request is no longer: the reader may not go on from there.
pub(crate) const JUMP: usize = 1024;

/// A source over another source, with a window of 4,096 bytes. It has the bytes, the honesty, the count of failed reads
/// and the last fault of that source.
///
/// If the window has all bytes of a request, nothing is read. Otherwise the window moves to the place of the request.
/// It reads 4,096 bytes if that place is in the old window or up to 1,024 bytes after it, and otherwise 1,024 bytes or
/// the length of the request, whichever is greater. At the end of the source it may read fewer. A request of more than
/// 4,096 bytes goes straight to the source. After a failed read the window is empty. `asked` is the number of whole
/// windows that the source was asked for.
///
/// A reader that alternates between a few places is better served by `Pages`.
#[derive(Drop)]
pub struct Window<S: Source> {
    pub(crate) source: S,
    start: u64,
    filled: usize,
    octets: [u8; WINDOW],
    ghost fits: { filled ≤ 4096 },
    ghost inside: { start + filled ≤ length (S.means source).octets },
    ghost holds: { IsTrue (S.means source).honest →
        take filled octets ≡ part (S.means source).octets start filled },
}

pub(crate) fn index_in(start: u64, filled: usize, at: u64, count: usize) -> Option<usize>
    ensures { MatchOption result (start ≤ at → at + count ≤ start + filled → ⊥)
        (λ from. (start + from ≡ at) × (from + count ≤ filled)) }
{
    let from = at.checked_sub(start)?;
    if from > filled as u64 || count > filled - from as usize {
        return None;
    }
    Some(from as usize)
}

/// A place up to 1,024 bytes after the window suggests sequential reading. This decides only how much is read ahead,
/// never which bytes a call returns.
pub(crate) fn is_near(start: u64, filled: usize, at: u64) -> bool
    ensures { IsTrue result ↔ ((start ≤ at) × (at ≤ start + filled + 1024)) }
{
    at.checked_sub(start)
        .is_some_and(|from| from <= (filled as u64).saturating_add(JUMP as u64))
}

fn read_front<S: Source>(
    source: &mut S,
    at: u64,
    into: &mut [u8],
    count: usize,
) -> Result<(), ReadFault>
    requires room { count ≤ length into.old }
    requires inside { at + count ≤ length (S.means source.old).octets }
    ensures reads { OnlyReads (result_err result) (S.means source.old) (S.means source.new) }
    ensures asks { S.asked source.new ≤ S.asked source.old + count }
    ensures filled { OnOk result (IsTrue (S.means source.old).honest →
        take count into.new ≡ part (S.means source.old).octets at count) }
{
    source.read_at(at, &mut into[..count])
}

impl<S: Source> Window<S> {
    /// Returns a source over `source`, with an empty window.
    pub fn new(source: S) -> Window<S>
        ensures means { ⟦<Window<S> as Source>⟧.means result ≡ S.means source }
        ensures asked { ⟦<Window<S> as Source>⟧.asked result ≡ S.asked source / 4096 }
    {
        Window {
            source,
            start: 0,
            filled: 0,
            octets: [0; WINDOW],
        }
    }

    fn copy_part(&self, from: usize, into: &mut [u8])
        requires { from + length into.old ≤ self.now.filled }
        ensures { IsTrue (S.means self.now.source).honest →
            into.new ≡ part (S.means self.now.source).octets (self.now.start + from) (length into.old) }
    {
        into.copy_from_slice(&self.octets[from..from + into.len()]);
    }

    fn refill(&mut self, at: u64, room: usize) -> Result<(), ReadFault>
        requires inside { at ≤ length (S.means self.old.source).octets }
        requires fits { room ≤ 4096 }
        ensures reads { OnlyReads (result_err result) (S.means self.old.source) (S.means self.new.source) }
        ensures asks { S.asked self.new.source ≤ S.asked self.old.source + room }
        ensures start { self.new.start ≡ at }
        ensures filled { OnOk result
            (self.new.filled ≡ min (length (S.means self.old.source).octets - at) room) }
        ensures emptied { OnErr result (self.new.filled ≡ 0) }
    {
        self.filled = 0;
        self.start = at;
        let count = (self.source.len() - at).min(room as u64) as usize;
        read_front(&mut self.source, at, &mut self.octets, count)?;
        self.filled = count;
        Ok(())
    }

    fn read_past(&mut self, at: u64, into: &mut [u8]) -> Result<(), ReadFault>
        requires { at + length into.old ≤ length (S.means self.old.source).octets }
        ensures reads { OnlyReads (result_err result) (S.means self.old.source) (S.means self.new.source) }
        ensures asks { S.asked self.new.source ≤ S.asked self.old.source + length into.old }
        ensures filled { OnOk result (IsTrue (S.means self.old.source).honest →
            into.new ≡ part (S.means self.old.source).octets at (length into.old)) }
        ensures emptied { OnErr result (self.new.filled ≡ 0) }
    {
        let result = self.source.read_at(at, into);
        if result.is_err() {
            self.filled = 0;
        }
        result
    }
}

impl<S: Source> Source for Window<S> {
    ghost means = { λ w. S.means w.source };

    // In windows, since a request of a byte may read a whole one.
    ghost asked = { λ w. S.asked w.source / 4096 };

    fn len(&self) -> u64 {
        self.source.len()
    }

    fn read_at(&mut self, at: u64, into: &mut [u8]) -> Result<(), ReadFault>
        requires { at + length into.old ≤ length (S.means self.old.source).octets }
        ensures reads { OnlyReads (result_err result) (S.means self.old.source) (S.means self.new.source) }
        ensures filled { OnOk result (IsTrue (S.means self.old.source).honest →
            into.new ≡ part (S.means self.old.source).octets at (length into.old)) }
        ensures asks { S.asked self.new.source / 4096 ≤ S.asked self.old.source / 4096 + length into.old }
        ensures below { S.asked self.new.source ≤ S.asked self.old.source + max (length into.old) 4096 }
    {
        if into.len() > WINDOW {
            return self.read_past(at, into);
        }
        if let Some(from) = index_in(self.start, self.filled, at, into.len()) {
            self.copy_part(from, into);
            return Ok(());
        }
        if into.is_empty() {
            return Ok(());
        }
        let forward = is_near(self.start, self.filled, at);
        let room = if forward {
            WINDOW
        } else {
            into.len().max(JUMP)
        };
        self.refill(at, room)?;
        self.copy_part(0, into);
        Ok(())
    }
}
