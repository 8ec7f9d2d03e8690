//! The machine of a call of two parties: one line of its trace is a turn.
ghost use Rattle.std.specs.Prelude.{◌≡◌, ◌≤◌, MatchResult, None, Some, length, take};
ghost use Rattle.duplex_call.specs.Lines.{party_event};

use crate::event::{TraceLine, event_turn};
use crate::show::tell_counts;
use crate::{Station, laws};
use call_report::Status;
use desk_program::Turns;
use duplex_call::{Party, party_line};
use h263_outside::Desk;
use loss_trace::{BadLine, Event, TraceFault, TraceReader};

/// The machine of a call of two parties: both of them, the reader of its trace, and room for a
/// frame of either video. It must be finished.
pub struct Talk {
    pub a: Station,
    pub b: Station,
    pub trace: TraceReader,
    pub frame: Vec<u8>,
}

// What the line of this size says at the start of a buffer. It fits where the desk tells what is
// left of the trace; of another desk nothing is known.
fn line_in(bytes: &[u8], size: u32) -> Result<Option<(Party, Event)>, BadLine>
    ensures { size ≤ length bytes.now → MatchResult result
        (λ said. party_event (take size bytes.now) ≡ Some said)
        (λ _. party_event (take size bytes.now) ≡ None) }
{
    party_line(&bytes[..bytes.len().min(size as usize)])
}

impl Talk {
    ghost use Rattle.duplex_command.specs.Standing.{TalkReady};
    ghost use Rattle.duplex_command.specs.Turning.{TalkTakesTurn};

    /// Gives back what the ends hold.
    pub fn finish(self) {
        let Talk {
            a,
            b,
            trace: _,
            frame: _,
        } = self;
        a.finish();
        b.finish();
    }

    // The next line is done, or refused. False at the end of the trace.
    fn line_turn<D: Desk>(&mut self, desk: &mut D) -> Result<bool, Status>
        requires { TalkReady self.old (D.outside desk.old).attached }
        ensures { TalkTakesTurn self.old self.new result (D.outside desk.old) (D.outside desk.new) }
    {
        laws::turning();
        let mut bytes = [0; 64];
        let Some((line, length)) = self.trace.raw(desk, &mut bytes)? else {
            tell_counts(desk, &self.a.ends, &self.b.ends)?;
            return Ok(false);
        };
        match line_in(&bytes, length) {
            Ok(Some((party, event))) => {
                let said = TraceLine { line, party, event };
                event_turn(desk, said, &mut self.a, &mut self.b, &mut self.frame)
            }
            Ok(None) => Ok(true),
            Err(_) => Err(Status::TraceRefused {
                fault: TraceFault::BadLine { line },
            }),
        }
    }
}

impl Turns for Talk {
    ghost use Rattle.std.specs.Prelude.{Some};
    ghost use Rattle.h263_outside.specs.declared.desk.Role.TheVariants.{Events};
    ghost use Rattle.duplex_command.specs.Duplex.{DuplexState, duplex_step, talk_may_read};
    ghost use Rattle.duplex_command.specs.Standing.{TalkReady, TalkStands, talk_lines_left};

    ghost State = { DuplexState };

    ghost step = { duplex_step };

    ghost reads = { talk_may_read };

    ghost stands = { TalkStands };

    ghost more = { talk_lines_left };

    ghost ready = { TalkReady };

    ghost reading = { λ _. Some Events };

    fn turn<D: Desk>(&mut self, desk: &mut D) -> Result<bool, Status> {
        self.line_turn(desk)
    }
}
