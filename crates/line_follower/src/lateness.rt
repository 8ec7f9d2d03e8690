//! Pictures that are later than the ones before them.
ghost use Rattle.std.specs.Prelude.{◌≡◌, ◌≤◌};
ghost use Rattle.line_follower.specs.Choking.{late_count, lateness_with, no_lateness};

// Microseconds above the least round trip from which on a picture is late.
const LATE: u64 = 50_000;
// So many in a row count.
const MOST: u8 = 3;

/// How late pictures are, whole or not.
#[derive(Clone, Copy)]
pub struct Lateness {
    // When the picture went out that was told of last, and how many microseconds later that was.
    at: u64,
    trip: u32,
    // How many were late in a row, each later than the one before.
    pub(crate) count: u8,
}

impl Lateness {
    /// Of no picture.
    pub fn none() -> Lateness
        ensures { result ≡ no_lateness }
    {
        Lateness {
            at: 0,
            trip: 0,
            count: 0,
        }
    }

    /// None of them counts.
    pub fn cleared(&self) -> Lateness
        ensures { result ≡ record self.now { count = 0 } }
    {
        Lateness {
            at: self.at,
            trip: self.trip,
            count: 0,
        }
    }

    /// The same with one more picture, by when it went out.
    pub fn with(&self, least: u32, at: u64, trip: u32) -> Lateness
        ensures { result ≡ lateness_with least at trip self.now }
    {
        if at <= self.at {
            return *self;
        }
        Lateness {
            at,
            trip,
            count: self.count_with(least, at, trip),
        }
    }

    fn count_with(&self, least: u32, at: u64, trip: u32) -> u8
        ensures { result ≡ late_count least at trip self.now }
    {
        if trip as u64 <= least as u64 + LATE {
            return 0;
        }
        let before = 2 * self.trip as u64 + at.saturating_sub(self.at) / 1_000;
        if before < 2 * trip as u64 {
            self.count.saturating_add(1).min(MOST)
        } else {
            self.count
        }
    }
}
