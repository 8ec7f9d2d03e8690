//! What a command is asked for: its files, options and numbers.
use h263_types::Params;

/// What the program is asked for. Each parameter is in its range; of `call`, `send`, `duplex` and
/// `group` the format is QCIF until the video is read.
#[derive(Clone, Copy, Debug, PartialEq, Eq)]
pub enum Command {
    /// Both ends over a trace, or over the plain trace of the video where `traced` is false.
    Call {
        params: Params,
        traced: bool,
    },
    /// The sender alone, with a target of 1 to 999,999 bytes per picture, if one is given, or with
    /// one that its pictures are to fit.
    Send {
        params: Params,
        target: Option<u32>,
        fit: Option<u32>,
    },
    /// The receiver alone, after a joiner where `join` is true.
    Recv {
        params: Params,
        join: bool,
    },
    /// The call on made input: a seed below 1,000,000,000, and 1 to 10,000 frames.
    Demo {
        params: Params,
        seed: u32,
        frames: u32,
    },
    /// The meter of a log: a target of 1 to 999,999 bytes per picture, and a bucket of 999,999
    /// bytes at most.
    Rate {
        target: u32,
        bucket: u32,
    },
    /// The audit of a log.
    Audit {
        params: Params,
    },
    /// The call of two parties over a trace.
    Duplex {
        params: Params,
    },
    /// The call of a group over a trace, with 1 to 3 receivers.
    Group {
        params: Params,
        receivers: u32,
    },
}
