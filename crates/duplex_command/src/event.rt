//! What a line says is done, for the party whose pictures it is about.
ghost use Rattle.std.specs.Prelude.{◌≡◌, ◌+◌, ℕ, length, true};
ghost use Rattle.h263_outside.specs.declared.desk.Role.TheVariants.{Pictures, Pictures2, Video, Video2};
ghost use Rattle.h263_types.specs.Sizes.{size_of_picture};
ghost use Rattle.duplex_ends.specs.Pair.{IsInCall};
ghost use Rattle.duplex_command.specs.declared.station.Station.{Station};
ghost use Rattle.duplex_command.specs.Standing.{DuplexOpens, PartyOpens, StationsReady};
ghost use Rattle.duplex_command.specs.Turning.{MayCapture, TakesEvent, TakesPartyFrame, TakesPartyLine};

use crate::show::play_next;
use crate::{Station, laws, second_result};
use call_command::allow;
use call_report::Status;
use duplex_call::Party;
use duplex_ends::{
    check_delivery, check_play, check_send, deliver, deliver_all, laws as duplex_ends_laws,
};
use h263_outside::{Desk, Second};
use h263_planes::PictureRef;
use loss_trace::{Event, TraceFault};

/// What the line of this number says: an event of a party's pictures.
#[derive(Clone, Copy)]
pub struct TraceLine {
    pub line: u32,
    pub party: Party,
    pub event: Event,
}

// `S`, which isn't too far ahead of the play: the party's next frame is read and sent.
fn send_frame<D: Desk>(
    desk: &mut D,
    said: TraceLine,
    own: &mut Station,
    planes: &mut [u8],
) -> Result<bool, Status>
    requires video { (D.outside desk.old).attached Video ≡ true }
    requires format { own.old.video.format ≡ own.old.ends.params.format }
    requires sent { own.old.ends.sender.sent + own.old.video.more ≡ 1048576 }
    requires size { length planes.old ≡ size_of_picture own.old.ends.params.format }
    requires held { IsInCall own.old.ends }
    ensures { (far : Station) (room : ℕ) → MayCapture own.old far room
        → TakesPartyFrame said.party own.old far own.new said.line result
        (D.outside desk.old) (D.outside desk.new) room }
{
    laws::turning();
    if !own.video.frame(desk, planes)? {
        return Err(Status::TraceRefused {
            fault: TraceFault::NoFrame { line: said.line },
        });
    }
    let picture = PictureRef::new(own.ends.params.format, planes);
    own.ends.send(picture);
    Ok(true)
}

// What the line says that was read last is done, or refused, over a desk where its party is the
// first one. The frame's room is for either video.
fn party_turn<D: Desk>(
    desk: &mut D,
    said: TraceLine,
    own: &mut Station,
    far: &mut Station,
    frame: &mut [u8],
) -> Result<bool, Status>
    requires opens { PartyOpens Video Pictures (D.outside desk.old).attached }
    requires ready { StationsReady own.old far.old (length frame.old) }
    ensures { TakesEvent Video Pictures Status.VideoRefused own.old far.old own.new far.new said
        result (D.outside desk.old) (D.outside desk.new) (length frame.old) }
{
    laws::turning();
    match said.event {
        Event::Nothing => Ok(true),
        Event::Send => {
            allow(said.line, check_send(&own.ends))?;
            let size = own.video.format().size() as usize;
            send_frame(desk, said, own, &mut frame[..size])
        }
        Event::Packet { number, place } => {
            allow(said.line, check_delivery(&own.ends, &far.ends, number))?;
            deliver(&mut own.ends, &mut far.ends, number, place);
            Ok(true)
        }
        Event::All { number } => {
            allow(said.line, check_delivery(&own.ends, &far.ends, number))?;
            deliver_all(&mut own.ends, &mut far.ends, number);
            Ok(true)
        }
        // Messages come back with packets alone.
        Event::Back { .. } => Err(Status::TraceRefused {
            fault: TraceFault::NotSaid { line: said.line },
        }),
        Event::Play => {
            allow(said.line, check_play(&own.ends))?;
            play_next(desk, said.party, &mut own.ends, &mut far.ends)?;
            Ok(true)
        }
    }
}

// The same where its party is the second one: it is a turn of the first on the desk with both
// exchanged.
fn second_turn<D: Desk>(
    desk: &mut D,
    said: TraceLine,
    own: &mut Station,
    far: &mut Station,
    frame: &mut [u8],
) -> Result<bool, Status>
    requires opens { PartyOpens Video2 Pictures2 (D.outside desk.old).attached }
    requires ready { StationsReady own.old far.old (length frame.old) }
    ensures { TakesEvent Video2 Pictures2 Status.Video2Refused own.old far.old own.new far.new said
        result (D.outside desk.old) (D.outside desk.new) (length frame.old) }
{
    let mut second = Second::new(desk);
    second_result(party_turn(&mut second, said, own, far, frame))
}

/// What the line says that was read last is done, or refused. The frame's room is for either video.
pub fn event_turn<D: Desk>(
    desk: &mut D,
    said: TraceLine,
    a: &mut Station,
    b: &mut Station,
    frame: &mut [u8],
) -> Result<bool, Status>
    requires opens { DuplexOpens (D.outside desk.old).attached }
    requires ready { StationsReady a.old b.old (length frame.old) }
    ensures { TakesPartyLine a.old b.old a.new b.new said result
        (D.outside desk.old) (D.outside desk.new) (length frame.old) }
{
    duplex_ends_laws::pair_laws();
    match said.party {
        Party::A => party_turn(desk, said, a, b, frame),
        Party::B => second_turn(desk, said, b, a, frame),
    }
}
