//! The receiver over packets that a joiner gives: packets that follow on others, or that carry
//! several slices, become packets of one slice before the receiver gets them.
use crate::delivering::deliver_all;
use crate::{JoinTally, Receiving};
use call_report::Status;
use desk_program::{laws as desk_program_laws, put_line};
use event_logs::Side;
use h263_outside::{Desk, laws as outside_laws};
use h263_types::{Format, Params};
use log_command::{LogCommand, LogMachine};
use payload_join::{Joiner, laws as payload_join_laws};
use std::alloc::Global;

/// The machine of the command.
pub type Join = LogMachine<Joining>;

/// The joiner, the receiver after it, and what was counted.
pub struct Joining {
    joiner: Joiner,
    receiving: Receiving,
    took: JoinTally,
    // that of the receiver
    format: Format,
}

impl LogCommand for Joining {
    ghost use Rattle.h263_outside.specs.declared.desk.Role.TheVariants.{Pictures};
    ghost use Rattle.y4m.specs.Text.{head_text};
    ghost use Rattle.desk_program.specs.Texts.{on};
    ghost use Rattle.recv_command.specs.Recv.{RecvOpens};
    ghost use Rattle.recv_command.specs.Join.{JoinReady, JoinStands, JoinState};
    ghost use Rattle.recv_command.specs.Join.{join_rules, nothing_joined};

    type Setup = Params;

    ghost State = { JoinState };

    ghost first = { nothing_joined };

    ghost head = { λ setup. on Pictures (head_text setup.format) };

    ghost rules = { join_rules };

    ghost stands = { JoinStands };

    ghost played = { λ c. c.receiving.receiver.played };

    ghost opens = { RecvOpens };

    ghost ready = { JoinReady };

    fn start<D: Desk>(alloc: Global, setup: &Params, desk: &mut D) -> Result<Joining, Status> {
        let joiner = Joiner::start(alloc)?;
        match Receiving::start(alloc, setup, desk) {
            Ok(receiving) => Ok(Joining {
                joiner,
                receiving,
                took: JoinTally::new(),
                format: setup.format,
            }),
            Err(status) => {
                joiner.finish();
                Err(status)
            }
        }
    }

    fn side() -> Side {
        Side::Recv
    }

    fn packet<D: Desk>(&mut self, desk: &mut D, bytes: &[u8]) -> Result<(), Status> {
        payload_join_laws::few_given();
        let took = self.joiner.take(bytes, self.format);
        self.took.take(took);
        deliver_all(&mut self.joiner, &mut self.receiving, &mut self.took, desk)
    }

    fn plays(&self) -> u32 {
        self.receiving.plays()
    }

    fn other<D: Desk>(&mut self, desk: &mut D, _bytes: &[u8]) -> Result<(), Status> {
        self.receiving.play(desk)
    }

    fn close<D: Desk>(&self, desk: &mut D) -> Result<(), Status> {
        desk_program_laws::turn_laws();
        outside_laws::calls();
        put_line(desk, &self.took.line())?;
        self.receiving.tell(desk)
    }

    fn finish(self) {
        let Joining {
            joiner,
            receiving,
            took: _,
            format: _,
        } = self;
        joiner.finish();
        receiving.finish();
    }
}
