//! The counts of a run.
ghost use Rattle.std.specs.Prelude.{◌≡◌, ◌+◌, ◌<◌, ◌^◌};
ghost use Rattle.call_report.specs.View.{line_text};
ghost use Rattle.sender_end.specs.Stands.{reply_of};
ghost use Rattle.send_command.specs.Tally.{sender_counts, nothing_sent_counted, with_sent_picture, with_reply};

use call_report::Line;
use sender_end::Feedback;

/// How many pictures were sent, in how many packets, and what became of feedback.
#[derive(Clone, Copy)]
pub struct Tally {
    sent: u32,
    packets: u64,
    noted: u32,
    outdated: u32,
    refused: u32,
}

impl Tally {
    /// Nothing was counted.
    pub fn new() -> Tally
        ensures { result ≡ nothing_sent_counted }
    {
        Tally {
            sent: 0,
            packets: 0,
            noted: 0,
            outdated: 0,
            refused: 0,
        }
    }

    /// Counts a picture of this many packets.
    pub fn picture(&mut self, count: u32)
        requires sent { self.old.sent + 1 < 2 ^ 32 }
        requires packets { self.old.packets + count < 2 ^ 64 }
        ensures { self.new ≡ with_sent_picture count self.old }
    {
        self.sent += 1;
        self.packets += count as u64;
    }

    /// Counts what became of feedback.
    pub fn feedback(&mut self, answer: Feedback)
        requires noted { self.old.noted + 1 < 2 ^ 32 }
        requires outdated { self.old.outdated + 1 < 2 ^ 32 }
        requires refused { self.old.refused + 1 < 2 ^ 32 }
        ensures { self.new ≡ with_reply (reply_of answer) self.old }
    {
        match answer {
            Feedback::Noted => self.noted += 1,
            Feedback::Old => self.outdated += 1,
            Feedback::Refused(_) => self.refused += 1,
        }
    }

    /// The line of the counts.
    pub fn line(&self) -> Line
        ensures { line_text result ≡ sender_counts self.now }
    {
        let mut line = Line::empty();
        line.pair("sent", self.sent as u64);
        line.pair("packets", self.packets);
        line.pair("noted", self.noted as u64);
        line.pair("old", self.outdated as u64);
        line.pair("refused", self.refused as u64);
        line.end();
        line
    }
}
