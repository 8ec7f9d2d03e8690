//! How a run ends.
ghost use Rattle.std.specs.Prelude.{◌≡◌};
ghost use Rattle.call_report.specs.Status.{code_of};

use event_logs::{LogFault, LogStop};
use h263_outside::Role;
use h263_types::OutOfMemory;
use loss_trace::{TraceFault, TraceStop};
use std::alloc::AllocError;
use y4m::{VideoStop, Y4mFault};

/// How a run ends.
#[derive(Clone, Copy, Debug, PartialEq, Eq)]
pub enum Status {
    /// The input was read to its end, and all output was written.
    Ok,
    /// There was no memory.
    OutOfMemory,
    /// The words are no command.
    Usage,
    /// A read failed.
    ReadFault,
    /// A write failed.
    WriteFault,
    /// The video has this fault.
    VideoRefused { fault: Y4mFault },
    /// The trace has this fault.
    TraceRefused { fault: TraceFault },
    /// The log has this fault.
    LogRefused { fault: LogFault },
    /// This role could not be attached.
    OpenFault { role: Role },
    /// The video of the second party has this fault.
    Video2Refused { fault: Y4mFault },
}

impl Status {
    /// What the process ends with: 0 for `Ok`, and else a number from 1 to 9.
    pub fn code(&self) -> u8
        ensures { result ≡ code_of self.now }
    {
        match self {
            Status::Ok => 0,
            Status::OutOfMemory => 1,
            Status::Usage => 2,
            Status::ReadFault => 3,
            Status::WriteFault => 4,
            Status::VideoRefused { .. } => 5,
            Status::TraceRefused { .. } => 6,
            Status::LogRefused { .. } => 7,
            Status::OpenFault { .. } => 8,
            Status::Video2Refused { .. } => 9,
        }
    }
}

impl From<OutOfMemory> for Status {
    ghost use Rattle.call_report.specs.declared.status.Status.{Status};

    ghost from_gives = { λ _ s. s ≡ Status.OutOfMemory };

    fn from(_: OutOfMemory) -> Self {
        Status::OutOfMemory
    }
}

impl From<AllocError> for Status {
    ghost use Rattle.call_report.specs.declared.status.Status.{Status};

    ghost from_gives = { λ _ s. s ≡ Status.OutOfMemory };

    fn from(_: AllocError) -> Self {
        Status::OutOfMemory
    }
}

impl From<VideoStop> for Status {
    ghost use Rattle.call_report.specs.Status.{video_stop};

    ghost from_gives = { λ stop s. s ≡ video_stop stop };

    fn from(stop: VideoStop) -> Self {
        match stop {
            VideoStop::Read => Status::ReadFault,
            VideoStop::Refused(fault) => Status::VideoRefused { fault },
        }
    }
}

impl From<TraceStop> for Status {
    ghost use Rattle.call_report.specs.Status.{trace_stop};

    ghost from_gives = { λ stop s. s ≡ trace_stop stop };

    fn from(stop: TraceStop) -> Self {
        let fault = match stop {
            TraceStop::Read => return Status::ReadFault,
            TraceStop::Bad { line } => TraceFault::BadLine { line },
            TraceStop::TooMany { line } => TraceFault::TooMany { line },
        };
        Status::TraceRefused { fault }
    }
}

impl From<LogStop> for Status {
    ghost use Rattle.call_report.specs.Status.{log_stop};

    ghost from_gives = { λ stop s. s ≡ log_stop stop };

    fn from(stop: LogStop) -> Self {
        let fault = match stop {
            LogStop::Read => return Status::ReadFault,
            LogStop::BadRecord { at } => LogFault::BadRecord { at },
            LogStop::TooMany { at } => LogFault::TooMany { at },
        };
        Status::LogRefused { fault }
    }
}
