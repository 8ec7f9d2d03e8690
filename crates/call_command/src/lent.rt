//! A call with ends that are lent.
ghost use Rattle.std.specs.Prelude.{◌≡◌, ℕ, List, [], Option, Some};
ghost use Rattle.h263_outside.specs.declared.desk.Role.{Role};
ghost use Rattle.call_model.specs.Receiving.{ReceiverEntry};
ghost use Rattle.desk_program.specs.Ends.{AfterAll, HasCause, HasEnded, IsLater, IsReadOut};
ghost use Rattle.desk_program.specs.Ends.{KeepsRoles, Tells, silent};
ghost use Rattle.desk_program.specs.Run.{Run};
ghost use Rattle.desk_program.specs.UnderWay.{IsUnderWay};
ghost use Rattle.sender_end.specs.Stands as sender_end;
ghost use Rattle.receiver_end.specs.State.{Stands};
ghost use Rattle.one_way.specs.Both.{steady};
ghost use Rattle.call_command.specs.Call.{call_step, may_read, most_turns};
ghost use Rattle.call_command.specs.Converse.{IsCallStart, talk_end, talk_of};
ghost use Rattle.call_command.specs.Standing.{CallOpens, EndsStand, source_of};
ghost use Rattle.call_command.specs.Turning.{IsAnswer};

use crate::link::Link;
use crate::world::World;
use crate::{Begun, laws};
use call_report::Status;
use desk_program::{laws as desk_program_laws, take_turns};
use h263_outside::Desk;
use one_way::laws as one_way_laws;
use std::alloc::Global;

/// Takes the events of the trace, or of the plain trace, one after the other, writes the pictures
/// that are shown and their lines, and at the end the counts. The sender was just started, and the
/// receiver has played nothing, but may have heard anything. No frame and no line was read yet.
///
/// It is the call by both ends, after whatever the receiver had heard (`gives`). With a receiver
/// that had heard nothing it is the ideal call, which goes on with a run that is under way
/// (`alone`).
pub fn converse<D: Desk>(alloc: Global, desk: &mut D, call: &mut Begun) -> Status
    requires opens { CallOpens call.old.terms (D.outside desk.old).attached }
    requires format { call.old.video.format ≡ call.old.terms.params.format }
    requires frames { call.old.video.more ≡ 1048576 }
    requires sender_params { call.old.both.sender.params ≡ call.old.terms.params }
    requires receiver_params { call.old.both.receiver.params ≡ call.old.terms.params }
    requires quant { call.old.both.sender.pace.quant ≡ call.old.terms.params.quant }
    requires sent { call.old.both.sender.sent ≡ 0 }
    requires sends { sender_end.PacedStands (steady call.old.terms.params) call.old.both.sender [] }
    requires played { call.old.both.receiver.played ≡ 0 }
    ensures gives { (before : List ReceiverEntry) (inputs : Role → List ℕ)
        → Stands call.old.both.receiver before → Tells (D.outside desk.old) inputs
        → HasEnded (talk_of call.old.terms before call.old.video.at inputs) silent result inputs
        (D.outside desk.old).written (D.outside desk.new) }
    ensures alone { (run : Run) (inputs : Role → List ℕ) (start : Role → Option (List ℕ))
        → Stands call.old.both.receiver []
        → IsUnderWay call_step may_read run inputs start
        (IsCallStart call.old.terms call.old.video.at)
        (most_turns call.old.terms.plain) (D.outside desk.old)
        → HasEnded run silent result inputs start (D.outside desk.new) }
    ensures stands { (before : List ReceiverEntry) (inputs : Role → List ℕ)
        → Stands call.old.both.receiver before → Tells (D.outside desk.old) inputs
        → AfterAll result (EndsStand call.old.terms call.new.both.sender call.new.both.receiver
        (talk_end call.old.terms before call.old.video.at inputs)) }
    ensures whole_input { (before : List ReceiverEntry) (inputs : Role → List ℕ)
        → Stands call.old.both.receiver before → Tells (D.outside desk.old) inputs
        → IsReadOut result (Some (source_of call.old.terms)) (D.outside desk.new) }
    ensures answers { IsAnswer call.old.terms.plain result }
    ensures terms { call.new.terms ≡ call.old.terms }
    ensures pace { call.new.both.sender.pace ≡ call.old.both.sender.pace }
    ensures later { IsLater result }
    ensures cause { HasCause result (D.outside desk.old).faults (D.outside desk.new).faults }
    ensures rest { KeepsRoles (D.outside desk.old) (D.outside desk.new) }
{
    desk_program_laws::turn_laws();
    desk_program_laws::run_laws::<World>();
    laws::talks_agree();
    one_way_laws::way_laws();
    let Ok(link) = Link::start(alloc, &call.terms) else {
        return Status::OutOfMemory;
    };
    let mut world = World {
        terms: call.terms,
        video: &mut call.video,
        sender: &mut call.both.sender,
        receiver: &mut call.both.receiver,
        trace: link.trace,
        network: link.network,
        frame: link.frame,
    };
    let status = take_turns(desk, &mut world);
    let World {
        terms: _,
        video: _video,
        sender: _sender,
        receiver: _receiver,
        trace: _trace,
        network: _network,
        frame: _frame,
    } = world;
    status
}
