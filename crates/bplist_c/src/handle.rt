//! Handles: sessions in the form in which C holds them.

ghost use Rattle.std.specs.Prelude.{◌≡◌, ◌<◌, Option, Some, None, IsSome, is_some, true};
ghost use Rattle.bplist_c.specs.declared.handle.Session.{Session as session};

use bplist_cert::Certificate;
use bplist_objects::Frame;
use std::alloc::{Allocator, Global};
use std::marker::Model;

/// The frame and the certificate of a checked file, without the bytes of the file.
#[derive(Drop)]
pub struct Session {
    pub(crate) frame: Frame,
    pub(crate) certificate: Certificate,
}

/// A box as its pointer.
pub(crate) struct Loose<T, A: Allocator> {
    pub(crate) at: *mut T,
    pub(crate) alloc: A,
    pub(crate) ghost value: { T },
}

impl<T, A: Allocator> Model for Loose<T, A> {
    ghost use Rattle.std_alloc.specs.Box.Ownership.{box_owns};

    ghost also_owns = { λ l. box_owns (A.dealloc_token l.alloc) T.row l.at l.value };
}

impl<T: Drop, A: Allocator> Loose<T, A> {
    pub(crate) fn of(value: Box<T, A>) -> Loose<T, A>
        ensures { result.value ≡ value.value }
    {
        let (at, alloc) = Box::into_raw_with_allocator(value);
        Loose { at, alloc }
    }

    pub(crate) fn into_box(self) -> Box<T, A>
        ensures { result.value ≡ self.value }
    {
        let Loose { at, alloc } = self;
        unsafe { Box::from_raw(alloc, at) }
    }
}

/// A session, or none.
#[repr(C)]
#[derive(Drop)]
pub struct BplistHeld {
    // Points to a `Session`. It is a byte pointer because a type with a `Vec` cannot cross the border to C.
    pub(crate) at: *mut u8,
    pub(crate) alloc: Global,
    pub(crate) ghost value: { Option session },
}

impl Model for BplistHeld {
    ghost use Rattle.bplist_c.specs.Handles.{handle_owns};

    ghost also_owns = { λ h. handle_owns h.alloc h.at h.value };
}

impl BplistHeld {
    pub(crate) fn none(alloc: Global) -> BplistHeld
        ensures { result.value ≡ None }
    {
        BplistHeld {
            at: std::ptr::null_mut(),
            alloc,
        }
    }

    pub(crate) fn of_loose(loose: Loose<Session, Global>) -> BplistHeld
        ensures { result.value ≡ Some loose.value }
    {
        let Loose { at, alloc } = loose;
        BplistHeld {
            at: at as *mut u8,
            alloc,
        }
    }

    pub(crate) fn into_loose(self) -> Loose<Session, Global>
        requires { IsSome self.value }
        ensures { Some result.value ≡ self.value }
    {
        let BplistHeld { at, alloc } = self;
        Loose {
            at: at as *mut Session,
            alloc,
        }
    }
}

/// An open or closed file: the session, and the length of the file, which is 0 if the handle is closed.
#[repr(C)]
#[derive(Drop)]
pub struct BplistHandle {
    pub(crate) held: BplistHeld,
    pub(crate) length: u64,
    pub(crate) ghost open: { 0 < length → is_some held.value ≡ true },
}

impl BplistHandle {
    pub(crate) fn closed(alloc: Global) -> BplistHandle
        ensures closed { result.length ≡ 0 }
        ensures empty { result.held.value ≡ None }
    {
        BplistHandle {
            held: BplistHeld::none(alloc),
            length: 0,
        }
    }

    pub(crate) fn open(session: Box<Session>, length: u64) -> BplistHandle
        ensures length { result.length ≡ length }
        ensures session { result.held.value ≡ Some session.value }
    {
        BplistHandle {
            held: BplistHeld::of_loose(Loose::of(session)),
            length,
        }
    }

    pub(crate) fn into_session(self) -> Box<Session>
        requires { 0 < self.length }
        ensures { Some result.value ≡ self.held.value }
    {
        self.held.into_loose().into_box()
    }
}
