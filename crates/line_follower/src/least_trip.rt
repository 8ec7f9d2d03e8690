//! The least round trip.
ghost use Rattle.std.specs.Prelude.{◌≡◌};
ghost use Rattle.line_follower.specs.Owing.{first_trip, is_trip_old, least_trip_of, trips_after};

const FIVE_SECONDS: u64 = 5_000_000_000;

/// The least round trip of the last five to ten seconds, in microseconds. Where there was none it is
/// the greatest number.
#[derive(Clone, Copy)]
pub struct LeastTrip {
    // When the present five seconds began.
    began: u64,
    // The least before these, and in these.
    before: u32,
    least: u32,
}

impl LeastTrip {
    /// Of no picture.
    pub fn first(now: u64) -> LeastTrip
        ensures { result ≡ first_trip now }
    {
        LeastTrip {
            began: now,
            before: u32::MAX,
            least: u32::MAX,
        }
    }

    fn is_old(&self, now: u64) -> bool
        ensures { result ≡ is_trip_old now self.now }
    {
        FIVE_SECONDS < now.saturating_sub(self.began)
    }

    /// The same with one more.
    pub fn after(&self, trip: u32, now: u64) -> LeastTrip
        ensures { result ≡ trips_after trip now self.now }
    {
        if self.is_old(now) {
            LeastTrip {
                began: now,
                before: self.least,
                least: trip,
            }
        } else {
            LeastTrip {
                began: self.began,
                before: self.before,
                least: self.least.min(trip),
            }
        }
    }

    /// The least of all.
    pub fn least(&self) -> u32
        ensures { result ≡ least_trip_of self.now }
    {
        self.before.min(self.least)
    }
}
