//! A frame captured with the quantiser that its sender's aim gives.
ghost use Rattle.std.specs.Prelude.{◌≡◌, ◌+◌, ◌<◌, ◌≤◌, length};
ghost use Rattle.h263_planes.specs.Lent.{picture};
ghost use Rattle.picture_header.specs.Ranges.{AreMessages};
ghost use Rattle.sender_end.specs.Stands.{Holds, SentRun};
ghost use Rattle.fitted_sender.specs.Aiming.{counted_bytes, kind_by, next_kind};
ghost use Rattle.fitted_sender.specs.Stands.{IsAim, IsCaptured};

use crate::Aim;
use back_messages::Message;
use h263_planes::PictureRef;
use h263_types::Kind;
use rate_control::SendPace;
use sender_end::{Coded, Sender};

fn kind_for(known: u32) -> Kind
    ensures { result ≡ kind_by known }
{
    if known == 0 { Kind::I } else { Kind::P }
}

// The kind of the next picture.
fn kind_of_next(sender: &Sender<SendPace>) -> Kind
    ensures { (run : SentRun) → Holds sender.now run → result ≡ next_kind sender.now.params run }
{
    kind_for(sender.known())
}

// The bytes of the packets of the last picture, which are this many.
fn bytes_of(sender: &Sender<SendPace>, count: u32) -> u32
    requires count { count ≡ length sender.now.packets }
    ensures { result ≡ counted_bytes sender.now.packets }
{
    let mut bytes: u32 = 0;
    for i in 0..count {
        bytes = bytes.saturating_add(sender.packet(i).len() as u32);
    }
    bytes
}

/// Captures a frame with these messages, by the quantiser of an aim, which is told of the picture.
pub fn capture(
    sender: &mut Sender<SendPace>,
    aim: &mut Aim,
    frame: PictureRef<'_>,
    back: &[Message],
) -> Coded
    requires frame { (picture frame).format ≡ sender.old.params.format }
    requires few { length back.now ≤ 4 }
    requires back { AreMessages sender.old.params.clock back.now }
    requires left { sender.old.sent < 1048576 }
    requires aim { IsAim aim.old }
    ensures params { sender.new.params ≡ sender.old.params }
    ensures sent { sender.new.sent ≡ sender.old.sent + 1 }
    ensures aim { IsAim aim.new }
    ensures count { result.packets ≡ length sender.new.packets }
    ensures captured { (run : SentRun) → Holds sender.old run → IsCaptured
        (record { picture = picture frame.entry; messages = back.now }) sender.old.params
        (record { run = run; aim = aim.old }) sender.new aim.new result }
{
    let kind = kind_of_next(sender);
    sender.set_pace(aim.pace(kind));
    let coded = sender.code(frame, back);
    aim.coded(kind, bytes_of(sender, coded.packets));
    coded
}
