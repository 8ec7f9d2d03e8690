//! The reader of a trace.
use crate::input::{Came, LONGEST_LINE, read_byte, read_line};
use crate::{Event, TraceStop, line};
use h263_outside::Desk;
use std::marker::Model;

/// The most lines of a trace.
pub const MAX_LINES: u32 = 16_777_216;

/// The reader of a trace: how many lines it gave, and whether the last of them had no newline. It
/// keeps no bytes of the trace.
#[derive(Clone, Copy)]
pub struct TraceReader {
    lines: u32,
    ended: bool,
}

impl Model for TraceReader {
    ghost use Rattle.std.specs.Prelude.{◌≤◌};
    ghost use Rattle.loss_trace.specs.Place.{TracePlace};

    ghost Value = { TracePlace };

    ghost view = { λ r. record { lines = r.lines; ended = r.ended } };

    ghost invariant = { λ r. r.lines ≤ 16777216 };

    ghost inverse = { λ p. record { lines = p.lines; ended = p.ended } };
}

// A line that came to the start of a buffer: its length, and whether it had a newline.
#[derive(Clone, Copy)]
struct Fetched {
    len: usize,
    closed: bool,
}

impl TraceReader {
    ghost use Rattle.std.specs.Prelude.{◌≡◌, ◌≢◌, ◌<◌, ◌≤◌, ◌+◌, ℕ, List, length, not, true, false, OnErr, IfOk, IfSome, IsErrOf, Some, None, Ok};
    ghost use Rattle.h263_outside.specs.Desk.{Rose, OnlyReads};
    ghost use Rattle.h263_outside.specs.declared.desk.Role.{Role};
    ghost use Rattle.h263_outside.specs.declared.desk.Role.TheVariants.{Events};
    ghost use Rattle.loss_trace.specs.Reader.{MovesTrace, EventGives, BytesGive, FindsLine, FetchGives};

    /// A reader before the first line.
    pub fn new() -> TraceReader
        ensures lines { result.lines ≡ 0 }
        ensures ended { result.ended ≡ false }
    {
        TraceReader {
            lines: 0,
            ended: false,
        }
    }

    /// Reads the next line and answers its number, from 1 on, and the event that it says. None at
    /// the end of the trace. After a stop the reader is as it was.
    pub fn next<D: Desk>(&mut self, desk: &mut D) -> Result<Option<(u32, Event)>, TraceStop>
        requires { (D.outside desk.old).attached Events ≡ true }
        ensures gives { (rest : List ℕ) → (D.outside desk.old).left Events ≡ Some rest
            → EventGives result self.old rest self.new ((D.outside desk.new).left Events) }
        ensures moves { MovesTrace result self.old self.new }
        ensures silent { self.old.ended ≡ true
            → (result ≡ Ok None) × (D.outside desk.new ≡ D.outside desk.old) }
        ensures cause { IsErrOf result TraceStop.Read
            → Rose (D.outside desk.old).faults.read (D.outside desk.new).faults.read }
        ensures others { (r : Role)
            → r ≢ Events → (D.outside desk.new).left r ≡ (D.outside desk.old).left r }
        ensures rest { OnlyReads (D.outside desk.old) (D.outside desk.new) }
    {
        let mut buf = [0; LONGEST_LINE];
        let Some(fetched) = self.fetch(desk, &mut buf)? else {
            return Ok(None);
        };
        let Ok(event) = line(&buf[..fetched.len]) else {
            return Err(TraceStop::Bad {
                line: self.lines + 1,
            });
        };
        Ok(Some((self.pass(fetched), event)))
    }

    /// Reads the next line's bytes, without its newline, to the start of `buf`, and answers its
    /// number, from 1 on, and its length. None at the end of the trace. A line of more than 64
    /// bytes is bad.
    pub fn raw<D: Desk>(
        &mut self,
        desk: &mut D,
        buf: &mut [u8; 64],
    ) -> Result<Option<(u32, u32)>, TraceStop>
        requires { (D.outside desk.old).attached Events ≡ true }
        ensures gives { (rest : List ℕ) → (D.outside desk.old).left Events ≡ Some rest
            → BytesGive result self.old rest buf.new self.new ((D.outside desk.new).left Events) }
        ensures moves { MovesTrace result self.old self.new }
        ensures silent { self.old.ended ≡ true
            → (result ≡ Ok None) × (D.outside desk.new ≡ D.outside desk.old) }
        ensures cause { IsErrOf result TraceStop.Read
            → Rose (D.outside desk.old).faults.read (D.outside desk.new).faults.read }
        ensures others { (r : Role)
            → r ≢ Events → (D.outside desk.new).left r ≡ (D.outside desk.old).left r }
        ensures rest { OnlyReads (D.outside desk.old) (D.outside desk.new) }
    {
        let Some(fetched) = self.fetch(desk, buf)? else {
            return Ok(None);
        };
        Ok(Some((self.pass(fetched), fetched.len as u32)))
    }

    // Reads the next line to the start of a buffer, if one more may come. The reader stays where it
    // is.
    fn fetch<D: Desk>(&self, desk: &mut D, buf: &mut [u8]) -> Result<Option<Fetched>, TraceStop>
        requires attached { (D.outside desk.old).attached Events ≡ true }
        requires size { length buf.old ≡ 64 }
        ensures within { IfOk result (λ found. IfSome found (λ line. line.len ≤ 64)) }
        ensures finds { FindsLine result self.now }
        ensures gives { (rest : List ℕ) → (D.outside desk.old).left Events ≡ Some rest
            → FetchGives result self.now rest buf.new ((D.outside desk.new).left Events) }
        ensures silent { self.now.ended ≡ true
            → (result ≡ Ok None) × (D.outside desk.new ≡ D.outside desk.old) }
        ensures cause { IsErrOf result TraceStop.Read
            → Rose (D.outside desk.old).faults.read (D.outside desk.new).faults.read }
        ensures others { (r : Role)
            → r ≢ Events → (D.outside desk.new).left r ≡ (D.outside desk.old).left r }
        ensures rest { OnlyReads (D.outside desk.old) (D.outside desk.new) }
    {
        if self.ended {
            return Ok(None);
        }
        if self.lines == MAX_LINES {
            return match read_byte(desk)? {
                None => Ok(None),
                Some(_) => Err(TraceStop::TooMany {
                    line: MAX_LINES + 1,
                }),
            };
        }
        match read_line(desk, buf)? {
            Came::End => Ok(None),
            Came::Closed(len) => Ok(Some(Fetched { len, closed: true })),
            Came::Open(len) => Ok(Some(Fetched { len, closed: false })),
            Came::Long => Err(TraceStop::Bad {
                line: self.lines + 1,
            }),
        }
    }

    // Goes on after a line, and answers its number.
    fn pass(&mut self, line: Fetched) -> u32
        requires { self.old.lines < 16777216 }
        ensures number { result ≡ self.old.lines + 1 }
        ensures lines { self.new.lines ≡ self.old.lines + 1 }
        ensures ended { self.new.ended ≡ not line.closed }
    {
        self.lines += 1;
        self.ended = !line.closed;
        self.lines
    }
}
