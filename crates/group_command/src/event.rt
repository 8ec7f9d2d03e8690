//! What a line of a receiver says is done.
ghost use Rattle.std.specs.Prelude.{◌≡◌, ◌-◌, ◌<◌, IfErr};
ghost use Rattle.h263_types.specs.Clocks.{half_of, period_of};
ghost use Rattle.h263_types.specs.declared.params.Params.{Params};
ghost use Rattle.h263_outside.specs.Desk.{OnlyWrites};
ghost use Rattle.desk_program.specs.Ends.{HasCause, IsStop};
ghost use Rattle.group_sender.specs.Holding.{Groups};
ghost use Rattle.group_call.specs.Holding.{HoldsBroadcast, HoldsViewer, cast_period, sent_in};
ghost use Rattle.group_call.specs.Viewing.{ViewerRun, told_at};
ghost use Rattle.group_command.specs.Group.{group_heard};
ghost use Rattle.group_command.specs.Standing.{IsViewing, Watches};
ghost use Rattle.group_command.specs.Turning.{KeepsCast, MayTake, OpensFor, OwnGives};

use crate::line::OwnEvent;
use crate::show::play_next;
use call_command::allow;
use call_report::Status;
use desk_program::laws as desk_program_laws;
use group_call::{Broadcast, Viewer, check_message, check_number, check_shown};
use h263_outside::Desk;

/// What the line of this number says: an event of the receiver at this place.
#[derive(Clone, Copy)]
pub struct OwnLine {
    pub line: u32,
    pub place: u32,
    pub event: OwnEvent,
}

// The group hears a message of the receiver at this place, if it is kept.
fn hear(cast: &mut Broadcast, place: u32, viewer: &Viewer, message: u32)
    requires { place < 16 }
    ensures keeps { KeepsCast cast.old cast.new }
    ensures holds { (p : Params) (run : Groups) (view : ViewerRun) → HoldsBroadcast p cast.old run
        → HoldsViewer p viewer.now view
        → HoldsBroadcast p cast.new (group_heard p place run view (told_at view.told message)) }
{
    if let Some((_, said)) = viewer.message(message) {
        cast.hear(place, said.text());
    }
}

/// What the line says that was read last is done, or refused, of its receiver.
pub fn own_turn<D: Desk>(
    desk: &mut D,
    half: u32,
    said: OwnLine,
    cast: &mut Broadcast,
    viewer: &mut Viewer,
) -> Result<(), Status>
    requires opens { OpensFor said.place (D.outside desk.old).attached }
    requires event { MayTake half said cast.old }
    requires viewing { IsViewing (sent_in cast.old) (said.line - 1) viewer.old }
    ensures keeps { KeepsCast cast.old cast.new }
    ensures viewing { IsViewing (sent_in cast.old) said.line viewer.new }
    ensures gives { (p : Params) (run : Groups) (view : ViewerRun) → half ≡ half_of p.clock
        → cast_period cast.old ≡ period_of p.clock → HoldsBroadcast p cast.old run
        → Watches p run viewer.old view
        → OwnGives result said p run view (λ run view. Watches p run viewer.new view) cast.new
        (D.outside desk.old).written (D.outside desk.new).written }
    ensures stop { IfErr result IsStop }
    ensures cause { IfErr result (λ status. HasCause status
        (D.outside desk.old).faults (D.outside desk.new).faults) }
    ensures rest { OnlyWrites (D.outside desk.old) (D.outside desk.new) }
{
    desk_program_laws::turn_laws();
    match said.event {
        OwnEvent::Packet { number, place } => {
            allow(said.line, check_number(half, number, cast, viewer))?;
            viewer.deliver(cast, number, place);
            Ok(())
        }
        OwnEvent::All { number } => {
            allow(said.line, check_number(half, number, cast, viewer))?;
            viewer.deliver_all(cast, number);
            Ok(())
        }
        OwnEvent::Back { message } => {
            allow(said.line, check_message(half, message, cast, viewer))?;
            hear(cast, said.place, viewer, message);
            Ok(())
        }
        OwnEvent::Play => {
            allow(said.line, check_shown(cast, viewer))?;
            play_next(desk, said.place, cast, viewer)
        }
    }
}
