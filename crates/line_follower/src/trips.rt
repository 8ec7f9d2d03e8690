//! The round trips of the latest pictures.
ghost use Rattle.std.specs.Prelude.{◌≡◌, ◌<◌, ◌^◌};
ghost use Rattle.line_follower.specs.Trending.{eased, eased_four, fall_of, is_down, are_trips_full, is_up, no_trips, rise_of, thirds_at, trips_with};

use crate::four::Four;

/// The round trips of the latest twelve pictures, in microseconds, and their bytes, in thirds.
#[derive(Clone, Copy)]
pub struct Trips {
    // How many there are, up to twelve.
    count: u8,
    newest: Four,
    middle: Four,
    oldest: Four,
    newest_bytes: Four,
    middle_bytes: Four,
    oldest_bytes: Four,
}

/// The round trips of the newest third and of the oldest, less what the pictures' own bytes take.
#[derive(Clone, Copy)]
pub struct Thirds {
    newest: Four,
    oldest: Four,
}

impl Trips {
    /// None yet.
    pub fn none() -> Trips
        ensures { result ≡ no_trips }
    {
        Trips {
            count: 0,
            newest: Four::none(),
            middle: Four::none(),
            oldest: Four::none(),
            newest_bytes: Four::none(),
            middle_bytes: Four::none(),
            oldest_bytes: Four::none(),
        }
    }

    /// The same with that of one more picture.
    pub fn with(&self, trip: u32, bytes: u32) -> Trips
        ensures { result ≡ trips_with trip bytes self.now }
    {
        let count = if self.count < 12 { self.count + 1 } else { 12 };
        Trips {
            count,
            newest: self.newest.with(trip),
            middle: self.middle.with(self.newest.fourth),
            oldest: self.oldest.with(self.middle.fourth),
            newest_bytes: self.newest_bytes.with(bytes),
            middle_bytes: self.middle_bytes.with(self.newest_bytes.fourth),
            oldest_bytes: self.oldest_bytes.with(self.middle_bytes.fourth),
        }
    }

    /// Whether there are twelve.
    pub fn is_full(&self) -> bool
        ensures { result ≡ are_trips_full self.now }
    {
        self.count == 12
    }

    /// The newest third and the oldest, at this rate.
    pub fn thirds(&self, rate: u32) -> Thirds
        ensures { result ≡ thirds_at rate self.now }
    {
        Thirds {
            newest: eased_four(rate, &self.newest_bytes, &self.newest),
            oldest: eased_four(rate, &self.oldest_bytes, &self.oldest),
        }
    }
}

impl Thirds {
    /// By how much the median of the newest third is above that of the oldest, or 0.
    pub fn rise(&self) -> u64
        ensures value { result ≡ rise_of self.now }
        ensures small { result < 2 ^ 32 }
    {
        self.newest
            .middle_two()
            .saturating_sub(self.oldest.middle_two())
            / 2
    }

    /// By how much it is below, or 0.
    pub fn fall(&self) -> u64
        ensures value { result ≡ fall_of self.now }
        ensures small { result < 2 ^ 32 }
    {
        self.oldest
            .middle_two()
            .saturating_sub(self.newest.middle_two())
            / 2
    }

    /// Whether the round trip rises by more than a threshold.
    pub fn is_up(&self, threshold: u32) -> bool
        ensures { result ≡ is_up threshold self.now }
    {
        if !self.newest.is_above(&self.oldest) {
            return false;
        }
        if self.newest.first < self.newest.fourth {
            return false;
        }
        (threshold as u64) < self.rise()
    }

    /// Whether it falls by more than a threshold.
    pub fn is_down(&self, threshold: u32) -> bool
        ensures { result ≡ is_down threshold self.now }
    {
        if !self.oldest.is_above(&self.newest) {
            return false;
        }
        if self.newest.fourth < self.newest.first {
            return false;
        }
        (threshold as u64) < self.fall()
    }
}

// A round trip less what the picture's own bytes take at this rate, and a second more.
fn eased(rate: u32, bytes: u32, trip: u32) -> u32
    ensures { result ≡ eased rate bytes trip }
{
    let own = (bytes as u64 * 1_000_000 / rate.max(1) as u64).min(1_000_000);
    (trip as u64 + 1_000_000 - own).min(u32::MAX as u64) as u32
}

fn eased_four(rate: u32, bytes: &Four, trips: &Four) -> Four
    ensures { result ≡ eased_four rate bytes.now trips.now }
{
    Four {
        first: eased(rate, bytes.first, trips.first),
        second: eased(rate, bytes.second, trips.second),
        third: eased(rate, bytes.third, trips.third),
        fourth: eased(rate, bytes.fourth, trips.fourth),
    }
}
