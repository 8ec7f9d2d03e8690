//! The command as a machine.
ghost use Rattle.std.specs.Prelude.{◌≡◌, ◌+◌, ◌-◌, ◌<◌, ◌≤◌, ℕ, Bool, true, List, length, take};
ghost use Rattle.std.specs.Prelude.{OnOk, IfErr};
ghost use Rattle.h263_outside.specs.Desk.{Outside};
ghost use Rattle.h263_outside.specs.declared.desk.Role.{Role};
ghost use Rattle.h263_outside.specs.declared.desk.Role.TheVariants.{Video};

use crate::capture::put_picture;
use crate::{Sending, Tally};
use call_report::Status;
use desk_program::{Begins, Turns, laws as desk_program_laws, put_line};
use event_logs::{Entry, LogFault, LogReader, Side};
use fitted_sender::{Aim, capture};
use h263_outside::{Desk, laws as outside_laws};
use h263_planes::PictureRef;
use h263_types::{Kind, Params};
use rate_control::SendPace;
use sender_end::Sender;
use std::alloc::Global;
use y4m::Y4mReader;

// The most bytes of an entry.
const MAX_BYTES: usize = 65_535;

/// A sender alone: the readers of its video and of its log, what it counted, and room for a frame
/// and for the bytes of an entry.
pub struct Send {
    video: Y4mReader,
    log: LogReader,
    sender: Sender<SendPace>,
    aim: Aim,
    tally: Tally,
    frame: Vec<u8>,
    bytes: Vec<u8>,
}

impl Send {
    ghost use Rattle.desk_program.specs.Ends.{GivesUp, HasCause, IsStop, KeepsRoles, Went};
    ghost use Rattle.desk_program.specs.Ends.{start_status};
    ghost use Rattle.call_report.specs.Status.{phase};
    ghost use Rattle.send_command.specs.Send.{SendState, entry_capture_step, after_heard_feedback};
    ghost use Rattle.send_command.specs.Stands.{HasTakenEntry, IsAtEntry, IsFit, SendReady, SendStands};
    ghost use Rattle.send_command.specs.Stands.{SenderStoodBefore};
    ghost use Rattle.send_command.specs.Tally.{IsOf};

    // Does what the capture asks for that was read last, at this byte.
    fn take_frame<D: Desk>(&mut self, desk: &mut D, at: u64) -> Result<(), Status>
        requires { IsAtEntry self.old (D.outside desk.old).attached }
        ensures ok { (before : Outside) (s : SendState) (inputs : Role → List ℕ)
            → SenderStoodBefore self.old s 3 → HasTakenEntry 3 inputs before (D.outside desk.old)
            → OnOk result (Went (entry_capture_step s (inputs Video)) (SendStands self.new) (λ _. true)
            true inputs before (D.outside desk.new)) }
        ensures err { (before : Outside) (s : SendState) (inputs : Role → List ℕ)
            → SenderStoodBefore self.old s 3 → at ≡ s.at
            → HasTakenEntry 3 inputs before (D.outside desk.old)
            → IfErr result (λ status. GivesUp (phase status) status
            (entry_capture_step s (inputs Video)) true inputs before (D.outside desk.new)) }
        ensures log { self.new.log ≡ self.old.log }
        ensures ready { OnOk result (SendReady self.new (D.outside desk.new).attached) }
        ensures stop { IfErr result IsStop }
        ensures cause { HasCause (start_status result)
            (D.outside desk.old).faults (D.outside desk.new).faults }
        ensures rest { KeepsRoles (D.outside desk.old) (D.outside desk.new) }
    {
        desk_program_laws::turn_laws();
        outside_laws::calls();
        y4m::laws::cut_after();
        if !self.video.frame(desk, &mut self.frame)? {
            return Err(Status::LogRefused {
                fault: LogFault::NoFrame { at },
            });
        }
        let frame = PictureRef::new(self.video.format(), &self.frame);
        let coded = capture(&mut self.sender, &mut self.aim, frame, &[]);
        self.tally.picture(coded.packets);
        put_picture(desk, &self.sender, &coded)
    }

    // Takes the feedback that was read last, of this many bytes.
    fn take_feedback(&mut self, len: u32)
        requires bytes { length self.old.bytes.items ≡ 65535 }
        requires few { self.old.log.entries ≤ 16777216 }
        requires some { 0 < self.old.log.entries }
        requires tally { IsOf (self.old.log.entries - 1) self.old.tally }
        ensures stands { (s : SendState) (inputs : Role → List ℕ) → len ≤ 65535
            → SenderStoodBefore self.old s (3 + len)
            → SendStands self.new (after_heard_feedback s (take len self.old.bytes.items)) inputs }
        ensures log { self.new.log ≡ self.old.log }
        ensures fit { (attached : Role → Bool) → IsFit self.old attached → IsFit self.new attached }
        ensures tally { IsOf self.new.log.entries self.new.tally }
    {
        let len = self.bytes.len().min(len as usize);
        let answer = self.sender.feedback(&self.bytes[..len]);
        self.tally.feedback(answer);
    }
}

impl Turns for Send {
    ghost use Rattle.std.specs.Prelude.{◌-◌, true, Some};
    ghost use Rattle.h263_outside.specs.declared.desk.Role.TheVariants.{Events};
    ghost use Rattle.send_command.specs.Send.{SendState, most_entries, send_step};
    ghost use Rattle.send_command.specs.Stands.{SendReady, SendStands};

    ghost State = { SendState };

    ghost step = { send_step };

    ghost reads = { λ _. true };

    ghost stands = { SendStands };

    ghost more = { λ m. most_entries - m.log.entries };

    ghost ready = { SendReady };

    ghost reading = { λ _. Some Events };

    fn turn<D: Desk>(&mut self, desk: &mut D) -> Result<bool, Status> {
        desk_program_laws::turn_laws();
        outside_laws::calls();
        event_logs::laws::cut_after();
        let Some((at, entry)) = self.log.next(desk, &mut self.bytes)? else {
            put_line(desk, &self.tally.line())?;
            return Ok(false);
        };
        match entry {
            Entry::Capture => {
                self.take_frame(desk, at)?;
                Ok(true)
            }
            Entry::Back { len } => {
                self.take_feedback(len);
                Ok(true)
            }
            Entry::Packet { .. } | Entry::Play => Err(Status::LogRefused {
                fault: LogFault::BadRecord { at },
            }),
        }
    }
}

impl Begins for Send {
    ghost use Rattle.std.specs.Prelude.{Some};
    ghost use Rattle.h263_outside.specs.declared.desk.Role.TheVariants.{Events};
    ghost use Rattle.desk_program.specs.Run.{run_from};
    ghost use Rattle.send_command.specs.Send.{most_entries, send_begin, send_step};
    ghost use Rattle.send_command.specs.Stands.{SendOpens};

    type Setup = Sending;

    type Machine = Send;

    ghost run = { λ setup inputs. run_from (send_begin setup inputs) send_step most_entries
        inputs };

    ghost opens = { SendOpens };

    ghost source = { λ _. Some Events };

    fn start<D: Desk>(alloc: Global, setup: &Sending, desk: &mut D) -> Result<Send, Status> {
        desk_program_laws::turn_laws();
        desk_program_laws::run_laws::<Send>();
        y4m::laws::cut_after();
        let video = Y4mReader::head(desk)?;
        let params = Params {
            format: video.format(),
            ..setup.params
        };
        let frame = vec![in alloc; 0; params.format.size() as usize]?;
        let bytes = vec![in alloc; 0; MAX_BYTES]?;
        let aim = Aim::start(&params, setup.target, setup.fit);
        let sender = Sender::start_without_recon(alloc, &params, aim.pace(Kind::I))?;
        Ok(Send {
            video,
            log: LogReader::new(Side::Send),
            sender,
            aim,
            tally: Tally::new(),
            frame,
            bytes,
        })
    }

    fn finish(machine: Send) {
        let Send {
            video: _,
            log: _,
            sender,
            aim: _,
            tally: _,
            frame: _,
            bytes: _,
        } = machine;
        sender.finish();
    }
}
