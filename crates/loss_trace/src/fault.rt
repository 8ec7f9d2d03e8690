//! What is wrong with a trace.
ghost use Rattle.std.specs.Prelude.{◌≡◌};

use h263_outside::Failed;

/// Why the reading of a trace stopped. Lines are numbered from 1.
#[derive(Clone, Copy, Debug, PartialEq, Eq)]
pub enum TraceStop {
    /// A read failed.
    Read,
    /// This line says no event.
    Bad { line: u32 },
    /// Here a line more begins than may come.
    TooMany { line: u32 },
}

impl From<Failed> for TraceStop {
    ghost use Rattle.loss_trace.specs.declared.fault.TraceStop.{TraceStop};

    ghost from_gives = { λ _ stop. stop ≡ TraceStop.Read };

    fn from(_: Failed) -> Self {
        TraceStop::Read
    }
}

/// Why a call refuses its trace, at which line, counted from 1.
#[derive(Clone, Copy, Debug, PartialEq, Eq)]
pub enum TraceFault {
    /// The line says no event.
    BadLine { line: u32 },
    /// Here a line more begins than may come.
    TooMany { line: u32 },
    /// A frame is asked for, and none is left.
    NoFrame { line: u32 },
    /// A packet of a picture that was not sent.
    NotSent { line: u32 },
    /// A message that was not said.
    NotSaid { line: u32 },
    /// A play with each sent picture played.
    PlayBeforeSend { line: u32 },
    /// What is asked for, `given`, is too far from the present, `other`.
    Far { line: u32, given: u32, other: u32 },
}
