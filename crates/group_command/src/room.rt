//! The machine of a group's call: one line of its trace is a turn.
ghost use Rattle.std.specs.Prelude.{◌≡◌, ◌<◌, ◌≤◌, IfOk, MatchResult, None, Some, length, take};
ghost use Rattle.group_command.specs.Lines.{group_line};
ghost use Rattle.group_command.specs.Turning.{IsThere};

use crate::event::OwnLine;
use crate::line::{GroupLine, group_line};
use crate::{Viewers, laws};
use call_command::allow;
use call_report::Status;
use desk_program::Turns;
use group_call::Broadcast;
use h263_outside::Desk;
use h263_planes::PictureRef;
use h263_types::Params;
use loss_trace::{BadLine, TraceFault, TraceReader};
use y4m::Y4mReader;

/// The machine of a group's call: the group, its receivers, the readers of its video and trace, and
/// room for a frame. It must be finished.
pub struct Room {
    pub params: Params,
    pub cast: Broadcast,
    pub viewers: Viewers,
    pub video: Y4mReader,
    pub trace: TraceReader,
    pub frame: Vec<u8>,
}

// What the line of this size says at the start of a buffer, where there are so many receivers. It fits
// where the desk tells what is left of the trace; of another desk nothing is known.
fn line_in(count: u32, bytes: &[u8], size: u32) -> Result<GroupLine, BadLine>
    requires { 1 ≤ count }
    ensures there { IfOk result (IsThere count) }
    ensures said { size ≤ length bytes.now → MatchResult result
        (λ said. group_line count (take size bytes.now) ≡ Some said)
        (λ _. group_line count (take size bytes.now) ≡ None) }
{
    group_line(count, &bytes[..bytes.len().min(size as usize)])
}

impl Room {
    ghost use Rattle.group_command.specs.Standing.{RoomReady, viewers_in};
    ghost use Rattle.group_command.specs.Turning.{HasLine, TakesGroupFrame, TakesGroupLine, RoomTakesTurn};

    /// Gives back what the ends hold.
    pub fn finish(self) {
        let Room {
            params: _,
            cast,
            viewers,
            video: _,
            trace: _,
            frame: _,
        } = self;
        cast.finish();
        viewers.finish();
    }

    // `S`, for which no receiver is too far behind: the next frame is read and sent.
    fn send_frame<D: Desk>(&mut self, desk: &mut D, line: u32) -> Result<bool, Status>
        requires { RoomReady self.old (D.outside desk.old).attached }
        ensures trace { self.new.trace ≡ self.old.trace }
        ensures takes { TakesGroupFrame self.old self.new line result (D.outside desk.old) (D.outside desk.new) }
    {
        laws::turning();
        if !self.video.frame(desk, &mut self.frame)? {
            return Err(Status::TraceRefused {
                fault: TraceFault::NoFrame { line },
            });
        }
        let frame = PictureRef::new(self.params.format, &self.frame);
        let _number = self.cast.send(frame);
        Ok(true)
    }

    // `S`: it is refused, or a frame is sent.
    fn capture<D: Desk>(&mut self, desk: &mut D, line: u32) -> Result<bool, Status>
        requires { RoomReady self.old (D.outside desk.old).attached }
        ensures trace { self.new.trace ≡ self.old.trace }
        ensures takes { TakesGroupLine self.old self.new line GroupLine.ForAll result
            (D.outside desk.old) (D.outside desk.new) }
    {
        laws::turning();
        let half = self.params.clock.half();
        allow(line, self.viewers.check(half, &self.cast))?;
        self.send_frame(desk, line)
    }

    // What the line says of a receiver that is there.
    fn own<D: Desk>(&mut self, desk: &mut D, said: OwnLine) -> Result<bool, Status>
        requires ready { RoomReady self.old (D.outside desk.old).attached }
        requires there { said.place < length (viewers_in self.old.viewers) }
        requires line { HasLine self.old said.line }
        ensures trace { self.new.trace ≡ self.old.trace }
        ensures takes { TakesGroupLine self.old self.new said.line (GroupLine.Of said.place said.event) result
            (D.outside desk.old) (D.outside desk.new) }
    {
        laws::turning();
        let half = self.params.clock.half();
        self.viewers.own_turn(desk, half, said, &mut self.cast)?;
        Ok(true)
    }

    // The next line is done, or refused. False at the end of the trace.
    fn line_turn<D: Desk>(&mut self, desk: &mut D) -> Result<bool, Status>
        requires { RoomReady self.old (D.outside desk.old).attached }
        ensures { RoomTakesTurn self.old self.new result (D.outside desk.old) (D.outside desk.new) }
    {
        laws::turning();
        let mut bytes = [0; 64];
        let Some((line, length)) = self.trace.raw(desk, &mut bytes)? else {
            self.viewers.tell(desk, &self.cast)?;
            return Ok(false);
        };
        match line_in(self.viewers.count(), &bytes, length) {
            Ok(GroupLine::Quiet) => Ok(true),
            Ok(GroupLine::ForAll) => self.capture(desk, line),
            Ok(GroupLine::Of { place, event }) => self.own(desk, OwnLine { line, place, event }),
            Err(_) => Err(Status::TraceRefused {
                fault: TraceFault::BadLine { line },
            }),
        }
    }
}

impl Turns for Room {
    ghost use Rattle.std.specs.Prelude.{Some};
    ghost use Rattle.h263_outside.specs.declared.desk.Role.TheVariants.{Events};
    ghost use Rattle.group_command.specs.Group.{GroupState, group_step, room_may_read};
    ghost use Rattle.group_command.specs.Standing.{RoomReady, RoomStandsAt, room_lines_left};

    ghost State = { GroupState };

    ghost step = { group_step };

    ghost reads = { room_may_read };

    ghost stands = { RoomStandsAt };

    ghost more = { room_lines_left };

    ghost ready = { RoomReady };

    ghost reading = { λ _. Some Events };

    fn turn<D: Desk>(&mut self, desk: &mut D) -> Result<bool, Status> {
        self.line_turn(desk)
    }
}
