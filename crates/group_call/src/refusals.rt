//! Which events of a group's call are refused, by what the group and a receiver have done.
ghost use Rattle.std.specs.Prelude.{◌≡◌, ◌<◌, ◌≤◌, ℕ, OnOk};
ghost use Rattle.h263_types.specs.Clocks.{half_of};
ghost use Rattle.h263_types.specs.declared.params.Params.{Params};
ghost use Rattle.call_model.specs.IdealCall.{Send, Deliver, Play, Back};
ghost use Rattle.one_way.specs.Refused.{IsAllowed};
ghost use Rattle.group_sender.specs.Holding.{Groups};
ghost use Rattle.group_call.specs.Holding.{HoldsBroadcast, HoldsViewer, sent_in};
ghost use Rattle.group_call.specs.Refused.{view_refusal};
ghost use Rattle.group_call.specs.Viewing.{ViewerRun};

use crate::{Broadcast, Viewer};
use one_way::{EventRefusal, is_late};

/// Whether the next picture may be captured, as far as this receiver is behind: it may not where half
/// a period is on the way to it. A frame is looked for afterwards.
pub fn check_next(half: u32, cast: &Broadcast, viewer: &Viewer) -> Result<(), EventRefusal>
    requires few { viewer.now.receiver.played ≤ 1048576 }
    requires half { half ≤ 512 }
    ensures { (p : Params) (run : Groups) (view : ViewerRun) → half ≡ half_of p.clock
        → HoldsBroadcast p cast.now run → HoldsViewer p viewer.now view
        → IsAllowed result Send (view_refusal p run view Send) }
{
    let sent = cast.sent();
    let played = viewer.played();
    if played + half <= sent {
        return Err(EventRefusal::Far {
            given: sent,
            other: played,
        });
    }
    Ok(())
}

/// Whether packets of this picture may reach the receiver: it was sent, and lies less than half a
/// period behind the receiver's play.
pub fn check_number(
    half: u32,
    number: u32,
    cast: &Broadcast,
    viewer: &Viewer,
) -> Result<(), EventRefusal>
    requires few { sent_in cast.now ≤ 1048576 }
    requires half { half ≤ 512 }
    ensures sent { OnOk result (number < sent_in cast.now) }
    ensures refusal { (p : Params) (run : Groups) (view : ViewerRun) (place : ℕ) → half ≡ half_of p.clock
        → HoldsBroadcast p cast.now run → HoldsViewer p viewer.now view
        → IsAllowed result (Deliver number place) (view_refusal p run view (Deliver number place)) }
{
    let sent = cast.sent();
    let played = viewer.played();
    if sent <= number {
        return Err(EventRefusal::NotSent);
    }
    if number + half <= played {
        return Err(EventRefusal::Far {
            given: number,
            other: played,
        });
    }
    Ok(())
}

/// Whether the receiver may play the next picture: it was sent.
pub fn check_shown(cast: &Broadcast, viewer: &Viewer) -> Result<(), EventRefusal>
    ensures ahead { OnOk result (viewer.now.receiver.played < sent_in cast.now) }
    ensures refusal { (p : Params) (run : Groups) (view : ViewerRun)
        → HoldsBroadcast p cast.now run → HoldsViewer p viewer.now view
        → IsAllowed result Play (view_refusal p run view Play) }
{
    let sent = cast.sent();
    let played = viewer.played();
    if sent <= played {
        return Err(EventRefusal::PlayBeforeSend);
    }
    Ok(())
}

/// Whether the receiver's message may come back: it was said, is among the last 1,024, and its picture
/// lies less than half a period behind the capture.
pub fn check_message(
    half: u32,
    message: u32,
    cast: &Broadcast,
    viewer: &Viewer,
) -> Result<(), EventRefusal>
    ensures { (p : Params) (run : Groups) (view : ViewerRun) → half ≡ half_of p.clock
        → HoldsBroadcast p cast.now run → HoldsViewer p viewer.now view
        → IsAllowed result (Back message) (view_refusal p run view (Back message)) }
{
    let sent = cast.sent();
    if viewer.told() <= u64::from(message) {
        return Err(EventRefusal::NotSaid);
    }
    match viewer.message(message) {
        Some((about, _)) if !is_late(half, about, sent) => Ok(()),
        _ => Err(EventRefusal::Far {
            given: message,
            other: sent,
        }),
    }
}
