//! The threshold of a rise.
ghost use Rattle.std.specs.Prelude.{◌≡◌, ◌<◌, ◌^◌};
ghost use Rattle.line_follower.specs.Trending.{first_threshold, lowered, raised, step_to, threshold_after, within};

// A threshold in microseconds: at first, and between which it stays.
const FIRST: u32 = 7_000;

const LEAST: u64 = 3_500;

const MOST: u64 = 440_000;
// A rise that is further above it is a queue, and doesn't raise it.
const FAR: u64 = 8_000;

/// The change of the round trip, in microseconds, above which it counts. It follows the changes, so
/// that it is above what jitter makes.
#[derive(Clone, Copy)]
pub struct Threshold {
    pub(crate) micros: u32,
    // When it was changed last.
    judged: u64,
}

impl Threshold {
    /// That of the start.
    pub fn first(now: u64) -> Threshold
        ensures { result ≡ first_threshold now }
    {
        Threshold {
            micros: FIRST,
            judged: now,
        }
    }

    // Microseconds since it was changed, up to a tenth of a second.
    fn step(&self, now: u64) -> u64
        ensures value { result ≡ step_to now self.now.judged }
        ensures small { result < 100001 }
    {
        now.saturating_sub(self.judged).min(100_000_000) / 1_000
    }

    /// After a change of the round trip.
    pub fn after(&self, change: u64, now: u64) -> Threshold
        requires { change < 2 ^ 32 }
        ensures { result ≡ threshold_after change now self.now }
    {
        let step = self.step(now);
        let micros = self.micros as u64;
        let next = if micros < change {
            raised(micros, change - micros, step)
        } else {
            lowered(micros, micros - change, step)
        };
        Threshold {
            micros: within(next),
            judged: now,
        }
    }
}

// It goes up by ten times what is above it, a second.
fn raised(micros: u64, above: u64, step: u64) -> u64
    requires micros { micros < 2 ^ 32 }
    requires step { step < 100001 }
    ensures { result ≡ raised micros above step }
{
    if above <= FAR {
        micros + step * 10 * above / 1_000_000
    } else {
        micros
    }
}

// It goes down by 18 hundredths of what is below it, a second.
fn lowered(micros: u64, below: u64, step: u64) -> u64
    requires micros { micros < 2 ^ 32 }
    requires below { below < 2 ^ 32 }
    requires step { step < 100001 }
    ensures { result ≡ lowered micros below step }
{
    micros.saturating_sub(step * 18 * below / 100_000_000)
}

fn within(micros: u64) -> u32
    ensures { result ≡ within micros }
{
    micros.max(LEAST).min(MOST) as u32
}
