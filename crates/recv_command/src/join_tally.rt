//! What is counted of a joiner.
ghost use Rattle.std.specs.Prelude.{◌≡◌, ◌+◌, ◌<◌, ◌^◌};
ghost use Rattle.call_report.specs.View.{line_text};

use call_report::Line;
use payload_join::Took;

/// What became of a log's packets, and how many packets went out of the joiner.
#[derive(Clone, Copy)]
pub struct JoinTally {
    pub held: u64,
    pub too_old: u64,
    pub again: u64,
    pub refused: u64,
    pub joined: u64,
}

impl JoinTally {
    ghost use Rattle.recv_command.specs.JoinTally.{nothing_taken, packets_taken, with_took};
    ghost use Rattle.recv_command.specs.JoinTally.{with_joined, join_text};

    /// Nothing was counted.
    pub fn new() -> JoinTally
        ensures { result ≡ nothing_taken }
    {
        JoinTally {
            held: 0,
            too_old: 0,
            again: 0,
            refused: 0,
            joined: 0,
        }
    }

    /// Counts what became of a packet.
    pub fn take(&mut self, took: Took)
        requires { packets_taken self.old < 2 ^ 24 }
        ensures counts { self.new ≡ with_took took self.old }
        ensures packets { packets_taken self.new ≡ packets_taken self.old + 1 }
        ensures joined { self.new.joined ≡ self.old.joined }
    {
        match took {
            Took::Held => self.held += 1,
            Took::Old => self.too_old += 1,
            Took::Again => self.again += 1,
            Took::Refused(_) => self.refused += 1,
        }
    }

    /// Counts a packet that went out.
    pub fn join(&mut self)
        requires { self.old.joined < 2 ^ 47 }
        ensures { self.new ≡ with_joined 1 self.old }
    {
        self.joined += 1;
    }

    /// The line of what was taken and went out.
    pub fn line(&self) -> Line
        ensures { line_text result ≡ join_text self.now }
    {
        let mut line = Line::empty();
        line.pair("held", self.held);
        line.pair("old", self.too_old);
        line.pair("again", self.again);
        line.pair("refused", self.refused);
        line.pair("joined", self.joined);
        line.end();
        line
    }
}
