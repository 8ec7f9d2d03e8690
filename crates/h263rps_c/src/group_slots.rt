//! What C keeps of a group, as [`handles`](crate::handles) keeps an end.
ghost use Rattle.std.specs.Prelude.{◌≡◌, ◌≢◌, IsSome, IfSome, is_some};
ghost use Rattle.std.specs.declared.option.Option.{Option};
ghost use Rattle.std.specs.declared.option.Option.TheVariants.{None, Some};
ghost use Rattle.std.specs.Coded.{coded_option};
ghost use Rattle.h263rps_c.specs.contracts.kept_group.KeptGroup.{the_row};
ghost use Rattle.h263rps_c.specs.Counting as counts;

use crate::counting::Statistics;
use crate::handles::Loose;
use crate::kept_group::KeptGroup;
use std::alloc::Global;
use std::marker::Model;
use std::mem::replace;
use std::ptr::null_mut;

/// The pointer of a group's box, or of nothing.
#[repr(C)]
pub struct GroupHandle {
    at: *mut u8,
    alloc: Global,
    ghost inside: { Option the_row.Denot } by { coded_option the_row.coded },
}

impl Model for GroupHandle {
    ghost use Rattle.h263rps_c.specs.GroupHolds.{holds_group};

    ghost also_owns = { λ h. holds_group h.alloc h.at h.inside };
}

impl GroupHandle {
    fn empty(at: *mut u8, alloc: Global) -> GroupHandle
        ensures { result.inside ≡ None }
    {
        GroupHandle { at, alloc }
    }

    fn full(loose: Loose<KeptGroup, Global>) -> GroupHandle
        ensures { result.inside ≡ Some loose.value }
    {
        let Loose { at, alloc } = loose;
        GroupHandle {
            at: at as *mut u8,
            alloc,
        }
    }

    fn into_loose(self) -> Loose<KeptGroup, Global>
        requires { IsSome self.inside }
        ensures { self.inside ≡ Some result.value }
    {
        let GroupHandle { at, alloc } = self;
        Loose {
            at: at as *mut KeptGroup,
            alloc,
        }
    }

    fn done(self)
        requires { self.inside ≡ None }
    {
        let GroupHandle { at: _, alloc: _ } = self;
    }
}

impl GroupHandle {
    ghost use Rattle.std.specs.Borrow.{sem};
    ghost use Rattle.h263rps_c.specs.GroupLending.{LendsGroup};

    /// Lends the group in it.
    pub fn group_mut(&mut self) -> &mut KeptGroup
        requires { IsSome self.old.inside }
        ensures* writes_back { sem 𝓛 (LendsGroup self.entry result) }
        ensures value { self.old.inside ≡ Some result.now }
    {
        unsafe { &mut *(self.at as *mut KeptGroup) }
    }
}

fn fresh(alloc: Global) -> GroupHandle
    ensures { result.inside ≡ None }
{
    let at = null_mut();
    GroupHandle::empty(at, alloc)
}

/// What C keeps: all zeros before the start and after the finish. `kind` says whether there is a
/// group, so that the pointer is never compared with null.
#[repr(C)]
pub struct GroupSlot {
    kind: u32,
    pub handle: GroupHandle,
    pub counted: Statistics,
    ghost none: { kind ≡ 0 → handle.inside ≡ None },
    ghost some: { kind ≢ 0 → IsSome handle.inside },
}

impl GroupSlot {
    /// A slot before the start.
    pub fn vacant(alloc: Global) -> GroupSlot
        ensures kind { result.kind ≡ 0 }
        ensures inside { result.handle.inside ≡ None }
        ensures counted { result.counted ≡ counts.no_statistics }
    {
        GroupSlot {
            kind: 0,
            handle: fresh(alloc),
            counted: Statistics::none(),
        }
    }

    /// Whether there is a group in it.
    pub fn is_started(&self) -> bool
        ensures { result ≡ is_some self.now.handle.inside }
    {
        self.kind != 0
    }

    fn occupied(group: Box<KeptGroup>) -> GroupSlot
        ensures inside { result.handle.inside ≡ Some group.value }
        ensures counted { result.counted ≡ counts.no_statistics }
    {
        GroupSlot {
            kind: 1,
            handle: GroupHandle::full(Loose::of(group)),
            counted: Statistics::none(),
        }
    }

    /// The group in it, if there is one.
    pub fn into_box(self) -> Option<Box<KeptGroup>>
        ensures some { IfSome result (λ g. self.handle.inside ≡ Some g.value) }
        ensures none { result ≡ None → self.handle.inside ≡ None }
    {
        let GroupSlot {
            kind,
            handle,
            counted: _,
        } = self;
        if kind == 0 {
            handle.done();
            None
        } else {
            Some(handle.into_loose().into_box())
        }
    }
}

fn exchanged(slot: &mut GroupSlot, new: GroupSlot) -> GroupSlot
    ensures old { result ≡ slot.old }
    ensures new { slot.new ≡ new }
{
    replace(slot, new)
}

/// Takes the group out of a slot.
pub fn taken(alloc: Global, slot: &mut GroupSlot) -> Option<Box<KeptGroup>>
    ensures empty { slot.new.handle.inside ≡ None }
    ensures counted { slot.new.counted ≡ counts.no_statistics }
    ensures some { IfSome result (λ g. slot.old.handle.inside ≡ Some g.value) }
    ensures none { result ≡ None → slot.old.handle.inside ≡ None }
{
    let new = GroupSlot::vacant(alloc);
    exchanged(slot, new).into_box()
}

/// Puts a group into a slot, which has counted nothing then; what was in it is let go.
pub fn put(slot: &mut GroupSlot, group: Box<KeptGroup>)
    ensures inside { slot.new.handle.inside ≡ Some group.value }
    ensures counted { slot.new.counted ≡ counts.no_statistics }
{
    let new = GroupSlot::occupied(group);
    let _old = exchanged(slot, new).into_box();
}
