//! What is wrong with a log.
ghost use Rattle.std.specs.Prelude.{◌≡◌};

use h263_outside::Failed;

/// Why the reading of a log stopped, at which byte, counted from 0.
#[derive(Clone, Copy, Debug, PartialEq, Eq)]
pub enum LogStop {
    /// A read failed.
    Read,
    /// No entry begins at this byte.
    BadRecord { at: u64 },
    /// Here an entry more begins than may come.
    TooMany { at: u64 },
}

impl From<Failed> for LogStop {
    ghost use Rattle.event_logs.specs.declared.fault.LogStop.{LogStop};

    ghost from_gives = { λ _ stop. stop ≡ LogStop.Read };

    fn from(_: Failed) -> Self {
        LogStop::Read
    }
}

/// Why a log is refused, at the byte of the entry, counted from 0.
#[derive(Clone, Copy, Debug, PartialEq, Eq)]
pub enum LogFault {
    /// No entry begins at this byte.
    BadRecord { at: u64 },
    /// The entry asks for a frame, and none is left.
    NoFrame { at: u64 },
    /// Here an entry or a play more begins than may come.
    TooMany { at: u64 },
}
