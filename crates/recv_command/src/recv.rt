//! `recv`: a receiver by itself, over the log of what came.
ghost use Rattle.std.specs.Prelude.{◌≡◌, ◌+◌, ◌<◌, ◌^◌, ℕ, true, List, IfErr, OnOk, OnErr};
ghost use Rattle.h263_outside.specs.Desk.{OnlyWrites, Rose};
ghost use Rattle.h263_outside.specs.declared.desk.Role.TheVariants.{Pictures, Report, Wire};
ghost use Rattle.desk_program.specs.Ends.{Gains, GainsFronts};
ghost use Rattle.receiver_end.specs.Answers.{SaysMessage, said_by};
ghost use Rattle.receiver_end.specs.State.{answer_after};
ghost use Rattle.recv_command.specs.Recv.{RecvStands, RecvState, recv_rules};
ghost use Rattle.recv_command.specs.Tally.{total_counted};

use crate::Tally;
use crate::parts::{say, show};
use back_messages::Said;
use call_report::Status;
use desk_program::{put_head, put_line};
use event_logs::Side;
use h263_outside::Desk;
use h263_types::Params;
use log_command::{LogCommand, LogMachine};
use receiver_end::{Receiver, laws as receiver_end_laws};
use std::alloc::Global;

/// The machine of the command.
pub type Recv = LogMachine<Receiving>;

/// The receiver, and what was counted.
pub struct Receiving {
    receiver: Receiver,
    tally: Tally,
}

impl Receiving {
    // Delivers a packet. The message acknowledges what the packet completes.
    pub(crate) fn deliver(&mut self, bytes: &[u8]) -> Option<Said>
        requires { total_counted self.old.tally < 2 ^ 47 }
        ensures stands { (s : RecvState) → RecvStands self.old s
            → RecvStands self.new (recv_rules.packet s bytes.now) }
        ensures says { (s : RecvState) → RecvStands self.old s → SaysMessage s.params.clock result
            (said_by (answer_after s.params s.past bytes.now)) }
        ensures total { total_counted self.new.tally ≡ total_counted self.old.tally + 1 }
    {
        receiver_end_laws::answers_say();
        let heard = self.receiver.packet(bytes);
        self.tally.count(&heard);
        heard.message()
    }

    // A play: the next picture is shown; where it isn't complete a message says so.
    pub(crate) fn play<D: Desk>(&mut self, desk: &mut D) -> Result<(), Status>
        requires played { self.old.receiver.played < 1048576 }
        requires room { total_counted self.old.tally < 2 ^ 47 }
        requires pictures { (D.outside desk.old).attached Pictures ≡ true }
        requires report { (D.outside desk.old).attached Report ≡ true }
        requires wire { (D.outside desk.old).attached Wire ≡ true }
        ensures stands { (s : RecvState) (bytes : List ℕ) → RecvStands self.old s
            → RecvStands self.new (recv_rules.other s bytes) }
        ensures total { total_counted self.new.tally ≡ total_counted self.old.tally + 1 }
        ensures ok { (s : RecvState) (bytes : List ℕ) → RecvStands self.old s
            → OnOk result (Gains (recv_rules.other_text s bytes)
            (D.outside desk.old).written (D.outside desk.new).written) }
        ensures err { (s : RecvState) (bytes : List ℕ) → RecvStands self.old s
            → OnErr result (GainsFronts (recv_rules.other_text s bytes)
            (D.outside desk.old).written (D.outside desk.new).written) }
        ensures kind { IfErr result (λ status. status ≡ Status.WriteFault) }
        ensures cause { OnErr result
            (Rose (D.outside desk.old).faults.write (D.outside desk.new).faults.write) }
        ensures rest { OnlyWrites (D.outside desk.old) (D.outside desk.new) }
    {
        let played = self.receiver.play();
        self.tally.play(played.mark);
        show(desk, self.receiver.shown(), played)
    }

    // Writes the line of what was played and counted.
    pub(crate) fn tell<D: Desk>(&self, desk: &mut D) -> Result<(), Status>
        requires { (D.outside desk.old).attached Report ≡ true }
        ensures ok { (s : RecvState) → RecvStands self.now s
            → OnOk result (Gains (recv_rules.end_text s)
            (D.outside desk.old).written (D.outside desk.new).written) }
        ensures err { (s : RecvState) → RecvStands self.now s
            → OnErr result (GainsFronts (recv_rules.end_text s)
            (D.outside desk.old).written (D.outside desk.new).written) }
        ensures kind { IfErr result (λ status. status ≡ Status.WriteFault) }
        ensures cause { OnErr result
            (Rose (D.outside desk.old).faults.write (D.outside desk.new).faults.write) }
        ensures rest { OnlyWrites (D.outside desk.old) (D.outside desk.new) }
    {
        put_line(desk, &self.tally.line(self.receiver.played()))
    }
}

impl LogCommand for Receiving {
    ghost use Rattle.h263_outside.specs.declared.desk.Role.TheVariants.{Pictures};
    ghost use Rattle.y4m.specs.Text.{head_text};
    ghost use Rattle.desk_program.specs.Texts.{on};
    ghost use Rattle.recv_command.specs.Recv.{RecvState, nothing_heard, recv_rules};
    ghost use Rattle.recv_command.specs.Recv.{RecvStands, RecvOpens, RecvReady};

    type Setup = Params;

    ghost State = { RecvState };

    ghost first = { nothing_heard };

    ghost head = { λ setup. on Pictures (head_text setup.format) };

    ghost rules = { recv_rules };

    ghost stands = { RecvStands };

    ghost played = { λ c. c.receiver.played };

    ghost opens = { RecvOpens };

    ghost ready = { RecvReady };

    fn start<D: Desk>(alloc: Global, setup: &Params, desk: &mut D) -> Result<Receiving, Status> {
        let receiver = Receiver::start(alloc, setup)?;
        if let Err(status) = put_head(desk, setup.format) {
            receiver.finish();
            return Err(status);
        }
        Ok(Receiving {
            receiver,
            tally: Tally::new(),
        })
    }

    fn side() -> Side {
        Side::Recv
    }

    fn packet<D: Desk>(&mut self, desk: &mut D, bytes: &[u8]) -> Result<(), Status> {
        let message = self.deliver(bytes);
        say(desk, message)
    }

    fn plays(&self) -> u32 {
        self.receiver.played()
    }

    fn other<D: Desk>(&mut self, desk: &mut D, _bytes: &[u8]) -> Result<(), Status> {
        self.play(desk)
    }

    fn close<D: Desk>(&self, desk: &mut D) -> Result<(), Status> {
        self.tell(desk)
    }

    fn finish(self) {
        let Receiving { receiver, tally: _ } = self;
        receiver.finish();
    }
}
