//! The receivers of a group's call.
ghost use Rattle.std.specs.Prelude.{◌≡◌, ◌+◌, ◌-◌, ◌<◌, ◌≤◌, ℕ, List, [], true, IfErr, IfOk, IfSome, OnErr, OnOk};
ghost use Rattle.std.specs.Prelude.{is_some, length, replicate, slice_set};
ghost use Rattle.h263_types.specs.Clocks.{half_of, period_of};
ghost use Rattle.h263_types.specs.declared.params.Params.{Params};
ghost use Rattle.h263_types.specs.Params.{IsParams};
ghost use Rattle.h263_outside.specs.Desk.{OnlyWrites, Rose};
ghost use Rattle.h263_outside.specs.declared.desk.Role.TheVariants.{Report};
ghost use Rattle.call_model.specs.IdealCall.{Send};
ghost use Rattle.desk_program.specs.Ends.{Gains, GainsFronts, HasCause, IsStop};
ghost use Rattle.one_way.specs.Refused.{IsAllowed};
ghost use Rattle.group_sender.specs.Holding.{Groups};
ghost use Rattle.group_call.specs.Holding.{HoldsBroadcast, HoldsViewer, cast_period, sent_in};
ghost use Rattle.group_call.specs.Viewing.{ViewerRun, no_view};
ghost use Rattle.group_command.specs.Group.{counts_from, first_behind};
ghost use Rattle.group_command.specs.Standing.{AllWatch, AreViewing, IsViewing, Watches, and_then};
ghost use Rattle.group_command.specs.Turning.{KeepsCast, MayTake, OpensFor, OwnGives, counts_if};

use crate::event::{OwnLine, own_turn};
use crate::show::tell_counts;
use call_report::Status;
use desk_program::laws as desk_program_laws;
use group_call::{Broadcast, Viewer, check_next};
use h263_outside::{Desk, laws as outside_laws};
use h263_types::{OutOfMemory, Params};
use one_way::EventRefusal;
use std::alloc::Global;

/// One to three receivers, the first ones first. They must be finished.
pub struct Viewers {
    pub first: Viewer,
    pub second: Option<Viewer>,
    pub third: Option<Viewer>,
}

fn start_if(alloc: Global, params: &Params, wanted: bool) -> Result<Option<Viewer>, OutOfMemory>
    requires { IsParams params.now }
    ensures there { IfOk result (λ viewer. is_some viewer ≡ wanted) }
    ensures viewing { IfOk result (λ viewer. IfSome viewer (IsViewing 0 0)) }
    ensures holds { IfOk result (λ viewer. IfSome viewer (λ v. HoldsViewer params.now v no_view)) }
{
    if wanted {
        Ok(Some(Viewer::start(alloc, params)?))
    } else {
        Ok(None)
    }
}

fn finish_if(viewer: Option<Viewer>) {
    match viewer {
        Some(viewer) => viewer.finish(),
        None => {}
    }
}

fn one_if(viewer: &Option<Viewer>) -> u32
    ensures { result ≡ length (and_then viewer.now []) }
{
    match viewer {
        Some(_) => 1,
        None => 0,
    }
}

fn check_if(half: u32, cast: &Broadcast, viewer: &Option<Viewer>) -> Result<(), EventRefusal>
    requires few { IfSome viewer.now (λ v. v.receiver.played ≤ 1048576) }
    requires half { half ≤ 512 }
    ensures { (p : Params) (run : Groups) (views : List ViewerRun) → half ≡ half_of p.clock
        → HoldsBroadcast p cast.now run → AllWatch p run (and_then viewer.now []) views
        → IsAllowed result Send (first_behind p run views) }
{
    match viewer {
        Some(viewer) => check_next(half, cast, viewer),
        None => Ok(()),
    }
}

fn tell_if<D: Desk>(
    desk: &mut D,
    place: u32,
    cast: &Broadcast,
    viewer: &Option<Viewer>,
) -> Result<(), Status>
    requires place { place < 3 }
    requires report { (D.outside desk.old).attached Report ≡ true }
    ensures ok { (p : Params) (run : Groups) (view : ViewerRun) → HoldsBroadcast p cast.now run
        → IfSome viewer.now (λ v. Watches p run v view)
        → OnOk result (Gains (counts_if viewer.now p run place view)
        (D.outside desk.old).written (D.outside desk.new).written) }
    ensures err { (p : Params) (run : Groups) (view : ViewerRun) → HoldsBroadcast p cast.now run
        → IfSome viewer.now (λ v. Watches p run v view)
        → OnErr result (GainsFronts (counts_if viewer.now p run place view)
        (D.outside desk.old).written (D.outside desk.new).written) }
    ensures kind { IfErr result (λ status. status ≡ Status.WriteFault) }
    ensures cause { OnErr result
        (Rose (D.outside desk.old).faults.write (D.outside desk.new).faults.write) }
    ensures rest { OnlyWrites (D.outside desk.old) (D.outside desk.new) }
{
    desk_program_laws::turn_laws();
    match viewer {
        Some(viewer) => tell_counts(desk, place, cast, viewer),
        None => Ok(()),
    }
}

// An event of a receiver that is there.
fn turn_if<D: Desk>(
    desk: &mut D,
    half: u32,
    said: OwnLine,
    cast: &mut Broadcast,
    viewer: &mut Option<Viewer>,
) -> Result<(), Status>
    requires there { is_some viewer.old ≡ true }
    requires opens { OpensFor said.place (D.outside desk.old).attached }
    requires event { MayTake half said cast.old }
    requires viewing { IfSome viewer.old (IsViewing (sent_in cast.old) (said.line - 1)) }
    ensures there { is_some viewer.new ≡ true }
    ensures keeps { KeepsCast cast.old cast.new }
    ensures viewing { IfSome viewer.new (IsViewing (sent_in cast.old) said.line) }
    ensures gives { (p : Params) (run : Groups) (view : ViewerRun) → half ≡ half_of p.clock
        → cast_period cast.old ≡ period_of p.clock → HoldsBroadcast p cast.old run
        → IfSome viewer.old (λ v. Watches p run v view)
        → OwnGives result said p run view (λ run view. IfSome viewer.new (λ v. Watches p run v view))
        cast.new (D.outside desk.old).written (D.outside desk.new).written }
    ensures stop { IfErr result IsStop }
    ensures cause { IfErr result (λ status. HasCause status
        (D.outside desk.old).faults (D.outside desk.new).faults) }
    ensures rest { OnlyWrites (D.outside desk.old) (D.outside desk.new) }
{
    match viewer {
        Some(viewer) => own_turn(desk, half, said, cast, viewer),
        None => Ok(()),
    }
}

impl Viewers {
    ghost use Rattle.group_command.specs.Standing.{GroupOpens, viewers_in};
    ghost use Rattle.group_command.specs.Group.{view_in};

    /// So many receivers that have done nothing, 1 to 3.
    pub fn start(alloc: Global, params: &Params, count: u32) -> Result<Viewers, OutOfMemory>
        requires in_range { IsParams params.now }
        requires some { 1 ≤ count }
        requires few { count ≤ 3 }
        ensures count { IfOk result (λ viewers. length (viewers_in viewers) ≡ count) }
        ensures viewing { IfOk result (AreViewing 0 0) }
        ensures holds { (run : Groups) → length run.coded ≡ 0 → IfOk result (λ viewers.
            AllWatch params.now run (viewers_in viewers) (replicate count no_view)) }
    {
        let first = Viewer::start(alloc, params)?;
        match start_if(alloc, params, 2 <= count) {
            Ok(second) => match start_if(alloc, params, 3 <= count) {
                Ok(third) => Ok(Viewers {
                    first,
                    second,
                    third,
                }),
                Err(_) => {
                    first.finish();
                    finish_if(second);
                    Err(OutOfMemory)
                }
            },
            Err(_) => {
                first.finish();
                Err(OutOfMemory)
            }
        }
    }

    /// How many there are.
    pub fn count(&self) -> u32
        ensures { result ≡ length (viewers_in self.now) }
    {
        1 + one_if(&self.second) + one_if(&self.third)
    }

    /// Whether the next picture may be captured: not where any receiver is too far behind.
    pub fn check(&self, half: u32, cast: &Broadcast) -> Result<(), EventRefusal>
        requires sent { sent_in cast.now ≤ 1048576 }
        requires half { half ≤ 512 }
        requires viewing { (lines : ℕ) × AreViewing (sent_in cast.now) lines self.now }
        ensures { (p : Params) (run : Groups) (views : List ViewerRun) → half ≡ half_of p.clock
            → HoldsBroadcast p cast.now run → AllWatch p run (viewers_in self.now) views
            → IsAllowed result Send (first_behind p run views) }
    {
        check_next(half, cast, &self.first)?;
        check_if(half, cast, &self.second)?;
        check_if(half, cast, &self.third)
    }

    /// Writes the counts of all.
    pub fn tell<D: Desk>(&self, desk: &mut D, cast: &Broadcast) -> Result<(), Status>
        requires report { (D.outside desk.old).attached Report ≡ true }
        requires viewing { (sent lines : ℕ) × AreViewing sent lines self.now }
        ensures ok { (p : Params) (run : Groups) (views : List ViewerRun)
            → HoldsBroadcast p cast.now run → AllWatch p run (viewers_in self.now) views
            → OnOk result (Gains (counts_from p run 0 views)
            (D.outside desk.old).written (D.outside desk.new).written) }
        ensures err { (p : Params) (run : Groups) (views : List ViewerRun)
            → HoldsBroadcast p cast.now run → AllWatch p run (viewers_in self.now) views
            → OnErr result (GainsFronts (counts_from p run 0 views)
            (D.outside desk.old).written (D.outside desk.new).written) }
        ensures kind { IfErr result (λ status. status ≡ Status.WriteFault) }
        ensures cause { OnErr result
            (Rose (D.outside desk.old).faults.write (D.outside desk.new).faults.write) }
        ensures rest { OnlyWrites (D.outside desk.old) (D.outside desk.new) }
    {
        outside_laws::calls();
        desk_program_laws::turn_laws();
        tell_counts(desk, 0, cast, &self.first)?;
        tell_if(desk, 1, cast, &self.second)?;
        tell_if(desk, 2, cast, &self.third)
    }

    /// What the line says that was read last is done, or refused, of the receiver at its place.
    pub fn own_turn<D: Desk>(
        &mut self,
        desk: &mut D,
        half: u32,
        said: OwnLine,
        cast: &mut Broadcast,
    ) -> Result<(), Status>
        requires opens { GroupOpens (length (viewers_in self.old)) (D.outside desk.old).attached }
        requires event { MayTake half said cast.old }
        requires there { said.place < length (viewers_in self.old) }
        requires viewing { AreViewing (sent_in cast.old) (said.line - 1) self.old }
        ensures keeps { KeepsCast cast.old cast.new }
        ensures count { length (viewers_in self.new) ≡ length (viewers_in self.old) }
        ensures viewing { AreViewing (sent_in cast.old) said.line self.new }
        ensures gives { (p : Params) (run : Groups) (views : List ViewerRun) → half ≡ half_of p.clock
            → cast_period cast.old ≡ period_of p.clock → HoldsBroadcast p cast.old run
            → AllWatch p run (viewers_in self.old) views
            → OwnGives result said p run (view_in views said.place)
            (λ run view. AllWatch p run (viewers_in self.new) (slice_set views said.place view))
            cast.new (D.outside desk.old).written (D.outside desk.new).written }
        ensures stop { IfErr result IsStop }
        ensures cause { IfErr result (λ status. HasCause status
            (D.outside desk.old).faults (D.outside desk.new).faults) }
        ensures rest { OnlyWrites (D.outside desk.old) (D.outside desk.new) }
    {
        match said.place {
            0 => own_turn(desk, half, said, cast, &mut self.first),
            1 => turn_if(desk, half, said, cast, &mut self.second),
            _ => turn_if(desk, half, said, cast, &mut self.third),
        }
    }

    /// Gives back what they hold.
    pub fn finish(self) {
        let Viewers {
            first,
            second,
            third,
        } = self;
        first.finish();
        finish_if(second);
        finish_if(third);
    }
}
