//! How a group's call begins.
ghost use Rattle.std.specs.Prelude.{◌≡◌, ◌<◌, ◌≤◌, ℕ, true, IfErr, IfOk, OnErr, OnOk};
ghost use Rattle.h263_types.specs.declared.params.Params.{Params};
ghost use Rattle.h263_types.specs.Params.{IsParams};
ghost use Rattle.h263_types.specs.Clocks.{period_of};
ghost use Rattle.h263_outside.specs.Desk.{OnlyWrites, Rose};
ghost use Rattle.desk_program.specs.Ends.{Gains, GainsFronts};
ghost use Rattle.group_call.specs.Holding.{HoldsBroadcast, IsCasting, params_in, cast_period, sent_in};
ghost use Rattle.group_command.specs.Begin.{IsNewRoom};
ghost use Rattle.group_command.specs.Group.{viewers_heads, after_joins, pictures_at};

use crate::show::put_own_head;
use crate::{GroupTerms, Room, Viewers, laws};
use call_report::Status;
use desk_program::{Begins, laws as desk_program_laws};
use group_call::Broadcast;
use h263_outside::Desk;
use h263_types::{Format, OutOfMemory, Params};
use loss_trace::TraceReader;
use std::alloc::Global;
use y4m::Y4mReader;

// The group with so many receivers at its first places.
fn joined(alloc: Global, params: &Params, receivers: u32) -> Result<Broadcast, OutOfMemory>
    requires in_range { IsParams params.now }
    requires few { receivers ≤ 3 }
    ensures params { IfOk result (λ cast. params_in cast ≡ params.now) }
    ensures sent { IfOk result (λ cast. sent_in cast ≡ 0) }
    ensures kept { IfOk result (λ cast. cast_period cast ≡ period_of params.now.clock) }
    ensures ready { IfOk result IsCasting }
    ensures holds { IfOk result (λ cast. HoldsBroadcast params.now cast (after_joins receivers)) }
{
    let mut cast = Broadcast::start(alloc, params, params.clock.period())?;
    'places: for place in 0..receivers {
        cast.join(place);
    }
    Ok(cast)
}

// Starts the group and its receivers, for a video in the format of the parameters.
fn start_room(
    alloc: Global,
    params: &Params,
    receivers: u32,
    video: Y4mReader,
) -> Result<Room, OutOfMemory>
    requires in_range { IsParams params.now }
    requires some { 1 ≤ receivers }
    requires few { receivers ≤ 3 }
    ensures { IfOk result (IsNewRoom params.now receivers video) }
{
    let frame = vec![in alloc; 0; params.format.size() as usize]?;
    let cast = joined(alloc, params, receivers)?;
    match Viewers::start(alloc, params, receivers) {
        Ok(viewers) => Ok(Room {
            params: *params,
            cast,
            viewers,
            video,
            trace: TraceReader::new(),
            frame,
        }),
        Err(_) => {
            cast.finish();
            Err(OutOfMemory)
        }
    }
}

// Writes the lines that the pictures of all receivers begin with.
fn write_heads<D: Desk>(desk: &mut D, format: Format, receivers: u32) -> Result<(), Status>
    requires some { 1 ≤ receivers }
    requires few { receivers ≤ 3 }
    requires pictures { (k : ℕ) → k < receivers
        → (D.outside desk.old).attached (pictures_at k) ≡ true }
    ensures ok { OnOk result (Gains (viewers_heads format receivers)
        (D.outside desk.old).written (D.outside desk.new).written) }
    ensures err { OnErr result (GainsFronts (viewers_heads format receivers)
        (D.outside desk.old).written (D.outside desk.new).written) }
    ensures kind { IfErr result (λ status. status ≡ Status.WriteFault) }
    ensures cause { OnErr result
        (Rose (D.outside desk.old).faults.write (D.outside desk.new).faults.write) }
    ensures rest { OnlyWrites (D.outside desk.old) (D.outside desk.new) }
{
    laws::turning();
    put_own_head(desk, 0, format)?;
    if receivers < 2 {
        return Ok(());
    }
    put_own_head(desk, 1, format)?;
    if receivers < 3 {
        return Ok(());
    }
    put_own_head(desk, 2, format)
}

/// The command that plays a call of one sender and up to three receivers over a trace.
pub struct GroupCall;

impl Begins for GroupCall {
    ghost use Rattle.std.specs.Prelude.{Some};
    ghost use Rattle.h263_outside.specs.declared.desk.Role.TheVariants.{Events};
    ghost use Rattle.group_command.specs.Group.{group_call_run};
    ghost use Rattle.group_command.specs.Standing.{GroupMayBegin};

    type Setup = GroupTerms;

    type Machine = Room;

    ghost run = { group_call_run };

    ghost opens = { GroupMayBegin };

    ghost source = { λ _. Some Events };

    fn start<D: Desk>(alloc: Global, setup: &GroupTerms, desk: &mut D) -> Result<Room, Status> {
        laws::turning();
        desk_program_laws::run_laws::<Room>();
        let video = Y4mReader::head(desk)?;
        let params = Params {
            format: video.format(),
            ..setup.params
        };
        let room = start_room(alloc, &params, setup.receivers, video)?;
        if let Err(status) = write_heads(desk, params.format, setup.receivers) {
            room.finish();
            return Err(status);
        }
        Ok(room)
    }

    fn finish(machine: Room) {
        machine.finish();
    }
}
