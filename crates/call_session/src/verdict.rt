//! What a session answers.
use receiver_end::Played;
use session_intake::Cause;
use stream_choice::Run;

/// A packet that a run takes: the run, the SSRC of its stream, and the answer. Where its picture is
/// complete with it, the stream of a former or a tried run may be the one that is followed after it.
#[derive(Clone, Copy, Debug, PartialEq, Eq)]
pub struct Taken {
    pub run: Run,
    pub source: u32,
    /// Where it is ahead, the pictures that are due at once are to be played, and the datagram is
    /// to be handed in again.
    pub answer: stream_run::Arrived,
}

/// What becomes of a datagram.
#[derive(Clone, Copy, Debug, PartialEq, Eq)]
pub enum Verdict {
    Dropped(Cause),
    Taken(Taken),
}

/// The answer to a datagram.
#[derive(Clone, Copy, Debug, PartialEq, Eq)]
pub struct Arrived {
    pub verdict: Verdict,
    /// Another stream comes beside the one that is followed and live. It is told once a second.
    pub is_rival: bool,
}

/// A play of a run. It is shown where the run is of the stream that is followed.
#[derive(Clone, Copy, Debug, PartialEq, Eq)]
pub struct RunPlayed {
    pub run: Run,
    pub played: Played,
}
