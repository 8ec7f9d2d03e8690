//! What `recv` counts for the last line of its report.
ghost use Rattle.std.specs.Prelude.{◌≡◌, ◌+◌, ◌<◌, ◌^◌};
ghost use Rattle.call_report.specs.View.{line_text};

use call_report::Line;
use h263_types::Mark;
use receiver_end::Heard;

/// How many pictures were shown with each mark, and how many packets had each answer. A receiver
/// gets fewer than 2^47 packets: one packet of a log may be joined to 43,602.
#[derive(Clone, Copy)]
pub struct Tally {
    pub exact: u64,
    pub patched: u64,
    pub held: u64,
    pub taken: u64,
    pub late: u64,
    pub early: u64,
    pub repeat: u64,
    pub refused: u64,
}

impl Tally {
    ghost use Rattle.recv_command.specs.Tally.{nothing_heard_counted, total_counted, with_mark, with_heard, receiver_counts};

    /// Nothing was counted.
    pub fn new() -> Tally
        ensures { result ≡ nothing_heard_counted }
    {
        Tally {
            exact: 0,
            patched: 0,
            held: 0,
            taken: 0,
            late: 0,
            early: 0,
            repeat: 0,
            refused: 0,
        }
    }

    /// Counts a picture that is shown.
    pub fn play(&mut self, mark: Mark)
        requires { total_counted self.old < 2 ^ 47 }
        ensures counts { self.new ≡ with_mark mark self.old }
        ensures total { total_counted self.new ≡ total_counted self.old + 1 }
    {
        match mark {
            Mark::Exact => self.exact += 1,
            Mark::Patched => self.patched += 1,
            Mark::Held => self.held += 1,
        }
    }

    /// Counts the answer to a packet.
    pub fn count(&mut self, heard: &Heard)
        requires { total_counted self.old < 2 ^ 47 }
        ensures counts { self.new ≡ with_heard heard.now self.old }
        ensures total { total_counted self.new ≡ total_counted self.old + 1 }
    {
        match heard {
            Heard::Taken | Heard::Completed(_) => self.taken += 1,
            Heard::Late => self.late += 1,
            Heard::Early => self.early += 1,
            Heard::Repeat => self.repeat += 1,
            Heard::Refused(_) => self.refused += 1,
        }
    }

    /// The line of what was played and counted.
    pub fn line(&self, played: u32) -> Line
        ensures { line_text result ≡ receiver_counts played self.now }
    {
        let mut line = Line::empty();
        line.pair("played", played as u64);
        line.pair("exact", self.exact);
        line.pair("patched", self.patched);
        line.pair("held", self.held);
        line.pair("taken", self.taken);
        line.pair("late", self.late);
        line.pair("early", self.early);
        line.pair("repeat", self.repeat);
        line.pair("refused", self.refused);
        line.end();
        line
    }
}
