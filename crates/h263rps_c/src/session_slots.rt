//! What C keeps of a session, as [`handles`](crate::handles) keeps an end.
ghost use Rattle.std.specs.Prelude.{◌≡◌, ◌≢◌, IsSome, IfSome, is_some};
ghost use Rattle.std.specs.declared.option.Option.{Option};
ghost use Rattle.std.specs.declared.option.Option.TheVariants.{None, Some};
ghost use Rattle.std.specs.Coded.{coded_option};
ghost use Rattle.h263rps_c.specs.contracts.kept_session.KeptSession.{the_row};

use crate::handles::Loose;
use crate::kept_session::KeptSession;
use std::alloc::Global;
use std::marker::Model;
use std::mem::replace;
use std::ptr::null_mut;

/// The pointer of a session's box, or of nothing.
#[repr(C)]
pub struct SessionHandle {
    at: *mut u8,
    alloc: Global,
    ghost inside: { Option the_row.Denot } by { coded_option the_row.coded },
}

impl Model for SessionHandle {
    ghost use Rattle.h263rps_c.specs.SessionHolds.{holds_session};

    ghost also_owns = { λ h. holds_session h.alloc h.at h.inside };
}

impl SessionHandle {
    fn empty(at: *mut u8, alloc: Global) -> SessionHandle
        ensures { result.inside ≡ None }
    {
        SessionHandle { at, alloc }
    }

    fn full(loose: Loose<KeptSession, Global>) -> SessionHandle
        ensures { result.inside ≡ Some loose.value }
    {
        let Loose { at, alloc } = loose;
        SessionHandle {
            at: at as *mut u8,
            alloc,
        }
    }

    fn into_loose(self) -> Loose<KeptSession, Global>
        requires { IsSome self.inside }
        ensures { self.inside ≡ Some result.value }
    {
        let SessionHandle { at, alloc } = self;
        Loose {
            at: at as *mut KeptSession,
            alloc,
        }
    }

    fn done(self)
        requires { self.inside ≡ None }
    {
        let SessionHandle { at: _, alloc: _ } = self;
    }
}

impl SessionHandle {
    ghost use Rattle.std.specs.Borrow.{sem};
    ghost use Rattle.h263rps_c.specs.SessionLending.{LendsSession};

    /// Lends the session in it.
    pub fn session_mut(&mut self) -> &mut KeptSession
        requires { IsSome self.old.inside }
        ensures* writes_back { sem 𝓛 (LendsSession self.entry result) }
        ensures value { self.old.inside ≡ Some result.now }
    {
        unsafe { &mut *(self.at as *mut KeptSession) }
    }
}

fn fresh(alloc: Global) -> SessionHandle
    ensures { result.inside ≡ None }
{
    let at = null_mut();
    SessionHandle::empty(at, alloc)
}

/// What C keeps: all zeros before the start and after the finish. `kind` says whether there is a
/// session, so that the pointer is never compared with null.
#[repr(C)]
pub struct SessionSlot {
    kind: u32,
    pub handle: SessionHandle,
    ghost none: { kind ≡ 0 → handle.inside ≡ None },
    ghost some: { kind ≢ 0 → IsSome handle.inside },
}

impl SessionSlot {
    /// A slot before the start.
    pub fn vacant(alloc: Global) -> SessionSlot
        ensures kind { result.kind ≡ 0 }
        ensures inside { result.handle.inside ≡ None }
    {
        SessionSlot {
            kind: 0,
            handle: fresh(alloc),
        }
    }

    /// Whether there is a session in it.
    pub fn is_started(&self) -> bool
        ensures { result ≡ is_some self.now.handle.inside }
    {
        self.kind != 0
    }

    fn occupied(session: Box<KeptSession>) -> SessionSlot
        ensures inside { result.handle.inside ≡ Some session.value }
    {
        SessionSlot {
            kind: 1,
            handle: SessionHandle::full(Loose::of(session)),
        }
    }

    /// The session in it, if there is one.
    pub fn into_box(self) -> Option<Box<KeptSession>>
        ensures some { IfSome result (λ s. self.handle.inside ≡ Some s.value) }
        ensures none { result ≡ None → self.handle.inside ≡ None }
    {
        let SessionSlot { kind, handle } = self;
        if kind == 0 {
            handle.done();
            None
        } else {
            Some(handle.into_loose().into_box())
        }
    }
}

fn exchanged(slot: &mut SessionSlot, new: SessionSlot) -> SessionSlot
    ensures old { result ≡ slot.old }
    ensures new { slot.new ≡ new }
{
    replace(slot, new)
}

/// Takes the session out of a slot.
pub fn taken(alloc: Global, slot: &mut SessionSlot) -> Option<Box<KeptSession>>
    ensures empty { slot.new.handle.inside ≡ None }
    ensures some { IfSome result (λ s. slot.old.handle.inside ≡ Some s.value) }
    ensures none { result ≡ None → slot.old.handle.inside ≡ None }
{
    let new = SessionSlot::vacant(alloc);
    exchanged(slot, new).into_box()
}

/// Puts a session into a slot; what was in it is let go.
pub fn put(slot: &mut SessionSlot, session: Box<KeptSession>)
    ensures { slot.new.handle.inside ≡ Some session.value }
{
    let new = SessionSlot::occupied(session);
    let _old = exchanged(slot, new).into_box();
}
