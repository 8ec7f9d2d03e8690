//! A full line that is to drain.
ghost use Rattle.std.specs.Prelude.{◌≡◌};
ghost use Rattle.line_follower.specs.Rating.{drain_left, drain_of, is_drained};

// A fifth of what the round trip was above its least may be left, and 20 ms.
const LEFT: u64 = 5;

const EMPTY: u64 = 20_000;
// That is waited for so long: what still waits then is another flow's.
const PATIENCE: u64 = 2_000_000_000;

/// Until the round trip is down to this, in microseconds, or until then.
#[derive(Clone, Copy)]
pub struct Drain {
    trip: u64,
    until: u64,
}

/// That of a line with this round trip, and this least one.
pub fn of(least: u32, trip: u32, now: u64) -> Drain
    ensures { result ≡ drain_of least trip now }
{
    Drain {
        trip: least as u64 + trip.saturating_sub(least) as u64 / LEFT + EMPTY,
        until: now.saturating_add(PATIENCE),
    }
}

/// What is left of it with a further round trip.
pub fn left(drains: Option<Drain>, trip: u32, now: u64) -> Option<Drain>
    ensures { result ≡ drain_left drains trip now }
{
    match drains {
        None => None,
        Some(drain) => {
            if is_drained(&drain, trip, now) {
                None
            } else {
                drains
            }
        }
    }
}

fn is_drained(drain: &Drain, trip: u32, now: u64) -> bool
    ensures { result ≡ is_drained drain.now trip now }
{
    if (trip as u64) < drain.trip {
        return true;
    }
    drain.until < now
}
