//! One turn of a call: a frame over the plain trace, a line over a recorded one.
ghost use Rattle.std.specs.Prelude.{◌≡◌, ◌+◌, ◌*◌, ◌≤◌, List, true, false};

use crate::show::{play_next, tell_counts};
use crate::{Terms, allow, laws};
use call_report::Status;
use desk_program::Turns;
use h263_outside::Desk;
use h263_planes::PictureRef;
use h263_types::FixedPace;
use loss_trace::{Event, TraceFault, TraceReader};
use one_way::{EventRefusal, Network, check_back, check_capture, check_packet, check_play};
use receiver_end::Receiver;
use sender_end::Sender;
use y4m::Y4mReader;

/// The machine of a call whose ends and video are lent.
pub struct World<'a> {
    pub terms: Terms,
    pub video: &'a mut Y4mReader,
    pub sender: &'a mut Sender<FixedPace>,
    pub receiver: &'a mut Receiver,
    pub trace: TraceReader,
    pub network: Network,
    pub frame: Vec<u8>,
}

impl<'a> World<'a> {
    ghost use Rattle.call_command.specs.Standing.{HasRoomToSay, PartsReady, call_parts};
    ghost use Rattle.call_command.specs.Turning.{TakesFrame, TakesLine, TakesTurn};

    // Over a recorded trace: its next line is done, or refused. False at the end of the trace.
    fn line_turn<D: Desk>(&mut self, desk: &mut D) -> Result<bool, Status>
        requires ready { PartsReady (call_parts self.old) (D.outside desk.old).attached }
        requires recorded { self.old.terms.plain ≡ false }
        ensures { TakesTurn self.old self.new result (D.outside desk.old) (D.outside desk.new) }
    {
        laws::turning();
        let Some((line, event)) = self.trace.next(desk)? else {
            tell_counts(desk, &self.network, self.sender, self.receiver)?;
            return Ok(false);
        };
        self.event_turn(desk, line, event)
    }

    // What the line says that was read last is done, or refused.
    fn event_turn<D: Desk>(&mut self, desk: &mut D, line: u32, event: Event) -> Result<bool, Status>
        requires ready { PartsReady (call_parts self.old) (D.outside desk.old).attached }
        requires recorded { self.old.terms.plain ≡ false }
        requires room { HasRoomToSay (call_parts self.old) }
        ensures { TakesLine self.old self.new line event result
            (D.outside desk.old) (D.outside desk.new) }
    {
        laws::turning();
        let half = self.terms.params.clock.half();
        match event {
            Event::Nothing => Ok(true),
            Event::Send => {
                allow(line, check_capture(half, self.sender, self.receiver))?;
                self.send_frame(desk, line)
            }
            Event::Packet { number, place } => {
                allow(line, check_packet(half, number, self.sender, self.receiver))?;
                self.network.deliver(self.receiver, number, place);
                Ok(true)
            }
            Event::All { number } => {
                allow(line, check_packet(half, number, self.sender, self.receiver))?;
                self.network.deliver_all(self.receiver, number);
                Ok(true)
            }
            Event::Back { message } => {
                allow(line, check_back(half, message, self.sender, &self.network))?;
                self.network.bring_back(self.sender, message);
                Ok(true)
            }
            Event::Play => {
                allow(line, check_play(self.sender, self.receiver))?;
                play_next(desk, &mut self.network, self.receiver)?;
                Ok(true)
            }
        }
    }

    // `S`, which isn't too far ahead of the play: the next frame is read and sent.
    fn send_frame<D: Desk>(&mut self, desk: &mut D, line: u32) -> Result<bool, Status>
        requires ready { PartsReady (call_parts self.old) (D.outside desk.old).attached }
        requires recorded { self.old.terms.plain ≡ false }
        ensures { TakesFrame self.old self.new line result
            (D.outside desk.old) (D.outside desk.new) }
    {
        laws::turning();
        if !self.video.frame(desk, &mut self.frame)? {
            return Err(Status::TraceRefused {
                fault: TraceFault::NoFrame { line },
            });
        }
        let frame = PictureRef::new(self.terms.params.format, &self.frame);
        self.network.send(self.sender, frame, &[]);
        Ok(true)
    }
}

impl<'a> Turns for World<'a> {
    ghost use Rattle.std.specs.Prelude.{Some};
    ghost use Rattle.call_command.specs.Call.{CallState, may_read, talk_step};
    ghost use Rattle.call_command.specs.Converse.{WorldAnswers, WorldReady, WorldStands, WorldStays};
    ghost use Rattle.call_command.specs.Standing.{more_of, call_parts, source_of};
    ghost use Rattle.call_command.specs.Turning.{LeavesEnds};

    ghost State = { CallState };

    ghost step = { talk_step };

    ghost reads = { may_read };

    ghost stands = { WorldStands };

    ghost more = { λ m. more_of (call_parts m) };

    ghost ready = { WorldReady };

    ghost reading = { λ m. Some (source_of m.terms) };

    ghost stays = { WorldStays };

    ghost leaves = { LeavesEnds };

    ghost answers = { WorldAnswers };

    // Over the plain trace the next frame is sent, its packets are delivered, and the next picture
    // is played.
    fn turn<D: Desk>(&mut self, desk: &mut D) -> Result<bool, Status> {
        if !self.terms.plain {
            return self.line_turn(desk);
        }
        laws::turning();
        if !self.video.frame(desk, &mut self.frame)? {
            tell_counts(desk, &self.network, self.sender, self.receiver)?;
            return Ok(false);
        }
        let frame = PictureRef::new(self.terms.params.format, &self.frame);
        let sent = self.network.send(self.sender, frame, &[]);
        self.network.deliver_all(self.receiver, sent);
        play_next(desk, &mut self.network, self.receiver)?;
        Ok(true)
    }
}
