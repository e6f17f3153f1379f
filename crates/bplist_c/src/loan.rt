//! Lends the checked file of a handle to one call.

ghost use Rattle.std.specs.Prelude.{◌≡◌, ◌<◌, length, Some, MatchResult, Result};
ghost use Rattle.std.specs.Fn.{FnOnceReturnsAtMut};
ghost use Rattle.bplist_cert.specs.CheckedFile.{CheckedFile};
ghost use Rattle.bplist_c.specs.Prelude.{IsFileOf, IsRefused, IsSame, IsSessionOf, OnHandle};
ghost use Rattle.bplist_c.specs.Prelude.{checked_of, Session as session, Status as status};

use crate::handle::{BplistHandle, Session};
use crate::status::Status;
use bplist_cert::{Certificate, Checked};
use bplist_octets::SliceSource;
use std::alloc::Global;
use std::mem;

impl Session {
    /// The certificate moves out of the session.
    pub(crate) fn lend<'a>(&mut self, alloc: Global, file: &'a [u8]) -> Checked<SliceSource<'a>>
        requires { IsSessionOf file.now self.old }
        ensures checked { result ≡ checked_of file.entry self.old }
        ensures frame { self.new.frame ≡ self.old.frame }
    {
        let none = Certificate {
            heights: Vec::new(alloc),
            keys: None,
        };
        let certificate = mem::replace(&mut self.certificate, none);
        Checked::new(SliceSource::new(file), self.frame, certificate)
    }

    pub(crate) fn give_back(&mut self, checked: Checked<SliceSource<'_>>)
        ensures certificate { self.new.certificate ≡ checked.entry.certificate }
        ensures frame { self.new.frame ≡ self.old.frame }
    {
        let (_, certificate) = checked.into_parts();
        self.certificate = certificate;
    }
}

/// The checked file of a handle and the bytes of its file. While it is lent, the session has no certificate.
#[derive(Drop)]
pub(crate) struct Lent<'a> {
    pub(crate) session: Box<Session>,
    pub(crate) checked: Checked<SliceSource<'a>>,
}

/// The session moves out of the handle.
pub(crate) fn lend<'a>(
    alloc: Global,
    handle: &mut BplistHandle,
    file: &'a [u8],
) -> Result<Lent<'a>, Status>
    requires same { IsFileOf file.now handle.old }
    ensures { MatchResult result
        (λ lent. (0 < handle.old.length) × (handle.old.length ≡ length file.now)
        × ((s : session) × (handle.old.held.value ≡ Some s) × (lent.checked ≡ checked_of file.entry s)
        × (lent.session.value.frame ≡ s.frame)))
        (λ why. (handle.new ≡ handle.old) × IsRefused file.now handle.old why) }
{
    if handle.length == 0 {
        return Err(Status::Closed);
    }
    if handle.length != file.len() as u64 {
        return Err(Status::OtherFile);
    }
    let mut session = mem::replace(handle, BplistHandle::closed(alloc)).into_session();
    let checked = session.lend(alloc, file);
    Ok(Lent { session, checked })
}

pub(crate) fn give_back(handle: &mut BplistHandle, lent: Lent<'_>)
    ensures length { handle.new.length ≡ length lent.entry.checked.source.octets }
    ensures session { handle.new.held.value ≡ Some (record {
      frame = lent.entry.session.value.frame;
      certificate = lent.entry.checked.certificate;
    }) }
{
    let Lent {
        mut session,
        checked,
    } = lent;
    let length = checked.octets().len() as u64;
    session.give_back(checked);
    *handle = BplistHandle::open(session, length);
}

pub(crate) fn with_checked<'a, T, F: FnOnce(&mut Checked<SliceSource<'a>>) -> Result<T, Status>>(
    alloc: Global,
    handle: &mut BplistHandle,
    file: &'a [u8],
    call: F,
) -> Result<T, Status>
    requires same { IsFileOf file.now handle.old }
    requires callable { F.IsAlwaysCallable call }
    requires reads { (old new : CheckedFile) (answer : Result T status) → FnOnceReturnsAtMut F.FnOnce call old answer new → new ≡ old }
    ensures kept { IsSame handle.old handle.new }
    ensures exact { OnHandle file.entry handle.old (λ checked answer. FnOnceReturnsAtMut F.FnOnce call checked answer checked) result }
{
    match lend(alloc, handle, file) {
        Ok(lent) => {
            let mut lent = lent;
            let answer = call(&mut lent.checked);
            give_back(handle, lent);
            answer
        }
        Err(status) => Err(status),
    }
}
