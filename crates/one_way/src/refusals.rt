//! Which events of a call are refused, by what both ends have done.
ghost use Rattle.std.specs.Prelude.{◌≡◌, ◌+◌, ◌<◌, ◌≤◌, ℕ, List, OnOk, nat_le};
ghost use Rattle.h263_types.specs.Clocks.{half_of};
ghost use Rattle.h263_types.specs.Params.{IsParams};
ghost use Rattle.h263_types.specs.declared.params.Params.{Params};
ghost use Rattle.call_model.specs.IdealCall.{Event, Send, Deliver, Play, Back};
ghost use Rattle.call_model.specs.Receiving.{ReceiverEntry};
ghost use Rattle.call_encoding.specs.Frames.{Frame};
ghost use Rattle.receiver_end.specs.State.{run_of};
ghost use Rattle.receiver_end.specs.declared.kept.Kept.{Kept};
ghost use Rattle.one_way.specs.Both.{AreJoined, steady};
ghost use Rattle.one_way.specs.Refused.{IsAllowed, refusal_after};
ghost use Rattle.one_way.specs.Way.{HoldsNetwork};

use crate::{Network, laws};
use h263_types::FixedPace;
use receiver_end::Receiver;
use sender_end::Sender;

/// Why an event is not done.
#[derive(Clone, Copy, Debug, PartialEq, Eq)]
pub enum EventRefusal {
    /// The picture was not sent.
    NotSent,
    /// The message was not said.
    NotSaid,
    /// What the event asks for, by its own number, lies half a period or more behind, or ahead of,
    /// this count.
    Far { given: u32, other: u32 },
    /// All pictures that were sent were played.
    PlayBeforeSend,
    /// No picture is left to be sent.
    NoFrame,
}

/// Whether the next picture may be captured: it may not where half a period is on the way. A frame
/// for it is looked for afterwards.
pub fn check_capture(
    half: u32,
    sender: &Sender<FixedPace>,
    receiver: &Receiver,
) -> Result<(), EventRefusal>
    requires few { receiver.now.played ≤ 1048576 }
    requires half { half ≤ 512 }
    ensures { (p : Params) (before : List ReceiverEntry) (frames : List Frame) (past : List Event)
        → half ≡ half_of p.clock
        → AreJoined p (steady p) sender.now receiver.now frames before past
        → IsAllowed result Send (refusal_after p before frames past Send) }
{
    laws::way_laws();
    let sent = sender.sent();
    let played = receiver.played();
    if played + half <= sent {
        return Err(EventRefusal::Far {
            given: sent,
            other: played,
        });
    }
    Ok(())
}

/// Whether packets of this picture may be delivered: it was sent, and lies less than half a period
/// behind the play.
pub fn check_packet(
    half: u32,
    number: u32,
    sender: &Sender<FixedPace>,
    receiver: &Receiver,
) -> Result<(), EventRefusal>
    requires few { sender.now.sent ≤ 1048576 }
    requires half { half ≤ 512 }
    ensures { (p : Params) (before : List ReceiverEntry) (frames : List Frame) (past : List Event)
        (place : ℕ) → half ≡ half_of p.clock
        → AreJoined p (steady p) sender.now receiver.now frames before past
        → IsAllowed result (Deliver number place)
        (refusal_after p before frames past (Deliver number place)) }
{
    laws::way_laws();
    let sent = sender.sent();
    let played = receiver.played();
    if sent <= number {
        return Err(EventRefusal::NotSent);
    }
    if number + half <= played {
        return Err(EventRefusal::Far {
            given: number,
            other: played,
        });
    }
    Ok(())
}

/// Whether the next picture may be played: it was sent.
pub fn check_play(sender: &Sender<FixedPace>, receiver: &Receiver) -> Result<(), EventRefusal>
    ensures ahead { OnOk result (receiver.now.played < sender.now.sent) }
    ensures refusal { (p : Params) (before : List ReceiverEntry) (frames : List Frame) (past : List Event)
        → AreJoined p (steady p) sender.now receiver.now frames before past
        → IsAllowed result Play (refusal_after p before frames past Play) }
{
    laws::way_laws();
    let sent = sender.sent();
    let played = receiver.played();
    if sent <= played {
        return Err(EventRefusal::PlayBeforeSend);
    }
    Ok(())
}

/// Whether a message about this picture comes back too late, where this many pictures were sent.
pub fn is_late(half: u32, about: u32, sent: u32) -> bool
    ensures { result ≡ nat_le (about + half) sent }
{
    half <= sent && about <= sent - half
}

/// Whether a message may come back: it was said, and its picture lies less than half a period
/// behind the capture. One that has left the ring does not.
pub fn check_back(
    half: u32,
    message: u32,
    sender: &Sender<FixedPace>,
    network: &Network,
) -> Result<(), EventRefusal>
    ensures { (p : Params) (receiver : Kept) (before : List ReceiverEntry) (frames : List Frame)
        (past : List Event) → IsParams p → half ≡ half_of p.clock → (run_of p before).played ≡ 0
        → HoldsNetwork p network.now sender.now receiver before frames past
        → IsAllowed result (Back message) (refusal_after p before frames past (Back message)) }
{
    laws::way_laws();
    laws::near_event_laws();
    let sent = sender.sent();
    if network.messages.said() <= u64::from(message) {
        return Err(EventRefusal::NotSaid);
    }
    match network.messages.get(message) {
        Some((about, _)) if !is_late(half, about, sent) => Ok(()),
        _ => Err(EventRefusal::Far {
            given: message,
            other: sent,
        }),
    }
}
