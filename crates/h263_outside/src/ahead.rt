//! What was read of a file ahead of what was asked for.
ghost use Rattle.std.specs.Prelude.{◌≡◌, ◌≤◌, ◌-◌, ◌==◌, ◌++◌, min, [], length, take, OnOk};
ghost use Rattle.std.specs.Io.KnownBytes.{Keeps, IsAtEnd, prepend_known};

use crate::Failed;
use crate::files::read_some;
use std::io::Read;

/// The most bytes that are read ahead.
pub(crate) const MOST_AHEAD: usize = 4096;

/// Bytes that were read of a file and not yet asked for: those from `at` up to `end`.
#[derive(Drop)]
pub(crate) struct Ahead {
    bytes: [u8; 4096],
    at: usize,
    end: usize,
    ghost order: { at ≤ end },
    ghost room: { end ≤ 4096 },
}

impl Ahead {
    ghost use Rattle.h263_outside.specs.Host.{ahead_bytes};

    /// None.
    pub(crate) fn new() -> Ahead
        ensures { ahead_bytes result ≡ [] }
    {
        Ahead {
            bytes: [0; MOST_AHEAD],
            at: 0,
            end: 0,
        }
    }

    /// Whether nothing is left of them.
    pub(crate) fn is_empty(&self) -> bool
        ensures { result ≡ (self.now.end == self.now.at) }
    {
        self.end == self.at
    }

    /// Reads a file once, where nothing is left of what was read before.
    pub(crate) fn fill<F: Read>(&mut self, file: &mut F) -> Result<(), Failed>
        requires empty { self.old.end ≡ self.old.at }
        ensures bytes { Keeps (F.remaining file.old)
            (prepend_known (ahead_bytes self.new) (F.remaining file.new)) }
        ensures end { OnOk result (self.new.end ≡ self.new.at → IsAtEnd (F.remaining file.new)) }
    {
        self.at = 0;
        self.end = 0;
        self.end = read_some(file, &mut self.bytes)?;
        Ok(())
    }

    /// Moves the first bytes to the start of a buffer, as many as there are or it takes.
    pub(crate) fn give(&mut self, buf: &mut [u8]) -> usize
        ensures count { result ≡ min (self.old.end - self.old.at) (length buf.old) }
        ensures size { length buf.new ≡ length buf.old }
        ensures bytes { ahead_bytes self.old ≡ take result buf.new ++ ahead_bytes self.new }
    {
        let count = (self.end - self.at).min(buf.len());
        let end = self.at + count;
        buf[..count].copy_from_slice(&self.bytes[self.at..end]);
        self.at = end;
        count
    }
}
