//! A stream that is tried.
ghost use Rattle.std.specs.Prelude.{◌≡◌, ◌+◌, ◌<◌, ◌^◌};
ghost use Rattle.std.specs.Option.{option_map};
ghost use Rattle.stream_choice.specs.Choice.{is_over, is_tried, may_begin, touched};

// A trial has a second for its first complete picture, as long as its packets are no further apart
// than half a second; after it the stream waits half a second for the next one.
const TRIAL: u64 = 1_000_000_000;

const QUIET: u64 = 500_000_000;

const TURN: u64 = 500_000_000;

/// A stream that is tried: its SSRC, when that began, and when a packet of it came last.
#[derive(Clone, Copy)]
pub struct Trial {
    pub source: u32,
    pub began: u64,
    pub last: u64,
}

impl Trial {
    /// Whether it has been over for so long.
    pub fn is_over(&self, long: u64, now: u64) -> bool
        requires { long < 2 ^ 60 }
        ensures { result ≡ is_over long now self.now }
    {
        if TRIAL + long <= now.saturating_sub(self.began) {
            true
        } else {
            QUIET + long <= now.saturating_sub(self.last)
        }
    }
}

/// Whether this stream is tried.
pub fn is_tried(tried: Option<Trial>, source: u32, now: u64) -> bool
    ensures { result ≡ is_tried tried source now }
{
    match tried {
        Some(trial) => {
            if trial.source == source {
                !trial.is_over(0, now)
            } else {
                false
            }
        }
        None => false,
    }
}

/// Whether a trial of this stream may begin.
pub fn may_begin(tried: Option<Trial>, source: u32, now: u64) -> bool
    ensures { result ≡ may_begin tried source now }
{
    match tried {
        Some(trial) => {
            if trial.source == source {
                trial.is_over(TURN, now)
            } else {
                trial.is_over(0, now)
            }
        }
        None => true,
    }
}

/// A packet of the stream that is tried came.
pub fn touched(tried: Option<Trial>, now: u64) -> Option<Trial>
    ensures { result ≡ touched tried now }
{
    match tried {
        Some(trial) => Some(Trial {
            source: trial.source,
            began: trial.began,
            last: now,
        }),
        None => None,
    }
}

/// The SSRC of the stream that is tried, if there is one.
pub fn source_of(tried: Option<Trial>) -> Option<u32>
    ensures { result ≡ option_map (λ t. t.source) tried }
{
    match tried {
        Some(trial) => Some(trial.source),
        None => None,
    }
}
