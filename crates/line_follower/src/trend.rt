//! Whether the round trip rises.
ghost use Rattle.std.specs.Prelude.{◌≡◌};
ghost use Rattle.line_follower.specs.Trending.{cleared_trend, first_trend, judged_trend, slope_by, slope_of, trend_after};

use crate::threshold::Threshold;
use crate::trips::{Thirds, Trips};

/// What becomes of the round trip.
#[derive(Clone, Copy, Debug, PartialEq, Eq)]
pub enum Slope {
    /// It rises, and did so a picture before.
    Rising,
    Falling,
    Level,
}

/// How the round trip changes over the latest twelve pictures.
#[derive(Clone, Copy)]
pub struct Trend {
    trips: Trips,
    threshold: Threshold,
    // Whether it rose with the picture before.
    is_rising: bool,
}

impl Trend {
    /// Of no picture.
    pub fn first(now: u64) -> Trend
        ensures { result ≡ first_trend now }
    {
        Trend {
            trips: Trips::none(),
            threshold: Threshold::first(now),
            is_rising: false,
        }
    }

    /// The round trips so far are of another rate.
    pub fn cleared(&self) -> Trend
        ensures { result ≡ cleared_trend self.now }
    {
        Trend {
            trips: Trips::none(),
            threshold: self.threshold,
            is_rising: false,
        }
    }

    /// The same with the round trip of one more picture, at this rate.
    pub fn after(&self, rate: u32, trip: u32, bytes: u32, now: u64) -> Trend
        ensures { result ≡ trend_after rate trip bytes now self.now }
    {
        let trips = self.trips.with(trip, bytes);
        self.judged(&trips.thirds(rate), &trips, now)
    }

    fn judged(&self, thirds: &Thirds, trips: &Trips, now: u64) -> Trend
        ensures { result ≡ judged_trend thirds.now trips.now now self.now }
    {
        if !trips.is_full() {
            return Trend {
                trips: *trips,
                threshold: self.threshold,
                is_rising: self.is_rising,
            };
        }
        let change = thirds.rise().max(thirds.fall());
        Trend {
            trips: *trips,
            threshold: self.threshold.after(change, now),
            is_rising: thirds.is_up(self.threshold.micros),
        }
    }

    /// What becomes of the round trip, with that of one more picture, at this rate.
    pub fn slope(&self, rate: u32, trip: u32, bytes: u32) -> Slope
        ensures { result ≡ slope_of rate trip bytes self.now }
    {
        let trips = self.trips.with(trip, bytes);
        self.slope_by(trips.is_full(), &trips.thirds(rate))
    }

    fn slope_by(&self, is_judged: bool, thirds: &Thirds) -> Slope
        ensures { result ≡ slope_by is_judged thirds.now self.now }
    {
        if !is_judged {
            return Slope::Level;
        }
        if thirds.is_down(self.threshold.micros) {
            return Slope::Falling;
        }
        if thirds.is_up(self.threshold.micros) {
            if self.is_rising {
                return Slope::Rising;
            }
        }
        Slope::Level
    }
}
