//! The reader of a log.
use crate::entry::{HEAD, begun, bytes_of};
use crate::input::read;
use crate::{Entry, LogStop, Side};
use h263_outside::{Desk, laws as outside_laws};
use std::marker::Model;

/// The most entries of a log.
pub const MAX_ENTRIES: u32 = 16_777_216;

/// The reader of a log: whose it is, how many entries it gave, and the byte where the next one
/// begins. It keeps no bytes of the log. An entry has at most 65,538 bytes.
#[derive(Clone, Copy)]
pub struct LogReader {
    side: Side,
    entries: u32,
    at: u64,
}

impl Model for LogReader {
    ghost use Rattle.event_logs.specs.Place.{LogPlace, IsInLog};

    ghost Value = { LogPlace };

    ghost view = { λ r. record { side = r.side; entries = r.entries; at = r.at } };

    ghost invariant = { λ r.
        IsInLog (record { side = r.side; entries = r.entries; at = r.at }) };

    ghost inverse = { λ p. record { side = p.side; entries = p.entries; at = p.at } };
}

impl LogReader {
    ghost use Rattle.std.specs.Prelude.{◌≡◌, ◌≢◌, ◌<◌, ◌≤◌, ◌+◌, ℕ, List, length, true, IsErrOf, Some};
    ghost use Rattle.h263_outside.specs.Desk.{Rose, OnlyReads};
    ghost use Rattle.h263_outside.specs.declared.desk.Role.{Role};
    ghost use Rattle.h263_outside.specs.declared.desk.Role.TheVariants.{Events};
    ghost use Rattle.event_logs.specs.Entry.{entry_size};
    ghost use Rattle.event_logs.specs.Place.{IsInLog};
    ghost use Rattle.event_logs.specs.Reader.{MovesLog, EntryGives};

    /// A reader before the first entry.
    pub fn new(side: Side) -> LogReader
        ensures side { result.side ≡ side }
        ensures entries { result.entries ≡ 0 }
        ensures at { result.at ≡ 0 }
    {
        LogReader {
            side,
            entries: 0,
            at: 0,
        }
    }

    /// Reads the next entry, its bytes to the start of `buf`, and answers the byte where it begins.
    /// None at the end of the log. After a stop the reader is as it was.
    pub fn next<D: Desk>(
        &mut self,
        desk: &mut D,
        buf: &mut [u8],
    ) -> Result<Option<(u64, Entry)>, LogStop>
        requires attached { (D.outside desk.old).attached Events ≡ true }
        requires room { 65535 ≤ length buf.old }
        ensures gives { (rest : List ℕ) → (D.outside desk.old).left Events ≡ Some rest
            → EntryGives result self.old rest buf.new ((D.outside desk.new).left Events) }
        ensures moves { MovesLog result self.old self.new }
        ensures was_in { IsInLog self.old }
        ensures is_in { IsInLog self.new }
        ensures cause { IsErrOf result LogStop.Read
            → Rose (D.outside desk.old).faults.read (D.outside desk.new).faults.read }
        ensures others { (r : Role)
            → r ≢ Events → (D.outside desk.new).left r ≡ (D.outside desk.old).left r }
        ensures rest { OnlyReads (D.outside desk.old) (D.outside desk.new) }
    {
        outside_laws::calls();
        let at = self.at;
        let mut head = [0; HEAD];
        let came = read(desk, &mut head)?;
        if came == 0 {
            return Ok(None);
        }
        if self.entries == MAX_ENTRIES {
            return Err(LogStop::TooMany { at });
        }
        let Some(entry) = begun(self.side, &head[..came]) else {
            return Err(LogStop::BadRecord { at });
        };
        let len = bytes_of(entry) as usize;
        if read(desk, &mut buf[..len])? < len {
            return Err(LogStop::BadRecord { at });
        }
        self.pass(entry);
        Ok(Some((at, entry)))
    }

    // Goes on after an entry.
    fn pass(&mut self, entry: Entry)
        requires few { self.old.entries < 16777216 }
        requires size { entry_size entry ≤ 65535 }
        ensures side { self.new.side ≡ self.old.side }
        ensures entries { self.new.entries ≡ self.old.entries + 1 }
        ensures at { self.new.at ≡ self.old.at + (3 + entry_size entry) }
    {
        self.entries += 1;
        self.at += HEAD as u64 + bytes_of(entry) as u64;
    }
}
