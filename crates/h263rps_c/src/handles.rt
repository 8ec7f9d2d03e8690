//! What C keeps of an end. No export may take a type that holds a `Vec`, so an end lies in a box,
//! and C keeps the box's pointer.
ghost use Rattle.std.specs.Prelude.{◌≡◌, ◌≢◌, IsSome, IfSome, is_some};
ghost use Rattle.std.specs.declared.option.Option.{Option};
ghost use Rattle.std.specs.declared.option.Option.TheVariants.{None, Some};
ghost use Rattle.std.specs.Coded.{coded_option};
ghost use Rattle.std_alloc.specs.Box.Ownership.{box_owns};
ghost use Rattle.h263rps_c.specs.contracts.ends.End.{the_row};
ghost use Rattle.h263rps_c.specs.Counting as counts;

use crate::counting::Statistics;
use crate::ends::End;
use std::alloc::{Allocator, Global};
use std::marker::Model;
use std::mem::replace;
use std::ptr::null_mut;

/// The pointer of a box, or of nothing.
#[repr(C)]
pub struct Handle {
    at: *mut u8,
    alloc: Global,
    ghost inside: { Option the_row.Denot } by { coded_option the_row.coded },
}

impl Model for Handle {
    ghost use Rattle.h263rps_c.specs.Holds.{holds_end};

    ghost also_owns = { λ h. holds_end h.alloc h.at h.inside };
}

/// A box as its pointer.
pub(crate) struct Loose<T, A: Allocator> {
    pub(crate) at: *mut T,
    pub(crate) alloc: A,
    ghost value: { T },
}

impl<T, A: Allocator> Model for Loose<T, A> {
    ghost also_owns = { λ l. box_owns (A.dealloc_token l.alloc) T.row l.at l.value };
}

impl<T: Drop, A: Allocator> Loose<T, A> {
    pub(crate) fn of(value: Box<T, A>) -> Loose<T, A>
        ensures { result.value ≡ value.value }
    {
        let (at, alloc) = Box::into_raw_with_allocator(value);
        Loose { at, alloc }
    }

    pub(crate) fn into_box(self) -> Box<T, A>
        ensures { result.value ≡ self.value }
    {
        let Loose { at, alloc } = self;
        unsafe { Box::from_raw(alloc, at) }
    }
}

impl Handle {
    fn empty(at: *mut u8, alloc: Global) -> Handle
        ensures { result.inside ≡ None }
    {
        Handle { at, alloc }
    }

    fn full(loose: Loose<End, Global>) -> Handle
        ensures { result.inside ≡ Some loose.value }
    {
        let Loose { at, alloc } = loose;
        Handle {
            at: at as *mut u8,
            alloc,
        }
    }

    fn into_loose(self) -> Loose<End, Global>
        requires { IsSome self.inside }
        ensures { self.inside ≡ Some result.value }
    {
        let Handle { at, alloc } = self;
        Loose {
            at: at as *mut End,
            alloc,
        }
    }

    fn done(self)
        requires { self.inside ≡ None }
    {
        let Handle { at: _, alloc: _ } = self;
    }
}

impl Handle {
    ghost use Rattle.std.specs.Borrow.{sem};
    ghost use Rattle.h263rps_c.specs.Lending.{LendsEnd};

    /// Lends the end in it.
    pub fn end_mut(&mut self) -> &mut End
        requires { IsSome self.old.inside }
        ensures* writes_back { sem 𝓛 (LendsEnd self.entry result) }
        ensures value { self.old.inside ≡ Some result.now }
    {
        unsafe { &mut *(self.at as *mut End) }
    }
}

fn fresh(alloc: Global) -> Handle
    ensures { result.inside ≡ None }
{
    let at = null_mut();
    Handle::empty(at, alloc)
}

/// What C keeps: all zeros before the start and after the finish. `kind` says whether there is an
/// end, so that the pointer is never compared with null.
#[repr(C)]
pub struct Slot {
    kind: u32,
    pub handle: Handle,
    pub counted: Statistics,
    ghost none: { kind ≡ 0 → handle.inside ≡ None },
    ghost some: { kind ≢ 0 → IsSome handle.inside },
}

impl Slot {
    /// A slot before the start.
    pub fn vacant(alloc: Global) -> Slot
        ensures kind { result.kind ≡ 0 }
        ensures inside { result.handle.inside ≡ None }
        ensures counted { result.counted ≡ counts.no_statistics }
    {
        Slot {
            kind: 0,
            handle: fresh(alloc),
            counted: Statistics::none(),
        }
    }

    /// Whether there is an end in it.
    pub fn is_started(&self) -> bool
        ensures { result ≡ is_some self.now.handle.inside }
    {
        self.kind != 0
    }

    fn occupied(end: Box<End>) -> Slot
        ensures inside { result.handle.inside ≡ Some end.value }
        ensures counted { result.counted ≡ counts.no_statistics }
    {
        Slot {
            kind: 1,
            handle: Handle::full(Loose::of(end)),
            counted: Statistics::none(),
        }
    }

    /// The end in it, if there is one.
    pub fn into_box(self) -> Option<Box<End>>
        ensures some { IfSome result (λ end. self.handle.inside ≡ Some end.value) }
        ensures none { result ≡ None → self.handle.inside ≡ None }
    {
        let Slot {
            kind,
            handle,
            counted: _,
        } = self;
        if kind == 0 {
            handle.done();
            None
        } else {
            Some(handle.into_loose().into_box())
        }
    }
}

fn exchanged(slot: &mut Slot, new: Slot) -> Slot
    ensures old { result ≡ slot.old }
    ensures new { slot.new ≡ new }
{
    replace(slot, new)
}

/// Takes the end out of a slot.
pub fn taken(alloc: Global, slot: &mut Slot) -> Option<Box<End>>
    ensures empty { slot.new.handle.inside ≡ None }
    ensures counted { slot.new.counted ≡ counts.no_statistics }
    ensures some { IfSome result (λ end. slot.old.handle.inside ≡ Some end.value) }
    ensures none { result ≡ None → slot.old.handle.inside ≡ None }
{
    let new = Slot::vacant(alloc);
    exchanged(slot, new).into_box()
}

/// Puts an end into a slot, which has counted nothing then; what was in it is let go.
pub fn put(slot: &mut Slot, end: Box<End>)
    ensures inside { slot.new.handle.inside ≡ Some end.value }
    ensures counted { slot.new.counted ≡ counts.no_statistics }
{
    let new = Slot::occupied(end);
    let _old = exchanged(slot, new).into_box();
}
