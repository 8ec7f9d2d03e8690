//! A picture that was sent.
ghost use Rattle.std.specs.Prelude.{◌≡◌};
ghost use Rattle.line_follower.specs.Table.{came_at, is_untold_number, no_picture, picture_told, trip_of};

const HALF_SECOND: u64 = 500_000_000;
// A round trip counts as no more than ten seconds, in microseconds.
const MOST_TRIP: u64 = 10_000_000;

/// What was told of a picture.
#[derive(Clone, Copy, Debug, PartialEq, Eq)]
pub enum Fate {
    /// Nothing yet.
    Open,
    Lost,
    /// It is whole; when that was told.
    Whole(u64),
}

/// A picture that was sent, with the heads of IP and UDP.
#[derive(Clone, Copy)]
pub struct Picture {
    pub number: u32,
    pub bytes: u32,
    pub packets: u32,
    /// When it was sent.
    pub at: u64,
    pub fate: Fate,
}

impl Picture {
    /// None.
    pub fn none() -> Picture
        ensures { result ≡ no_picture }
    {
        Picture {
            number: 0,
            bytes: 0,
            packets: 0,
            at: 0,
            fate: Fate::Lost,
        }
    }

    /// Whether it has this number, and nothing was told of it yet.
    pub fn is_open(&self, number: u32) -> bool
        ensures { result ≡ is_untold_number number self.now }
    {
        if self.number != number {
            return false;
        }
        match self.fate {
            Fate::Open => true,
            Fate::Lost => false,
            Fate::Whole(_) => false,
        }
    }

    /// The same once something was told of it.
    pub fn told(&self, is_whole: bool, now: u64) -> Picture
        ensures { result ≡ picture_told is_whole now self.now }
    {
        let fate = if is_whole {
            Fate::Whole(now)
        } else {
            Fate::Lost
        };
        Picture {
            number: self.number,
            bytes: self.bytes,
            packets: self.packets,
            at: self.at,
            fate,
        }
    }

    /// Its round trip, in microseconds.
    pub fn trip(&self, now: u64) -> u32
        ensures { result ≡ trip_of now self.now }
    {
        (now.saturating_sub(self.at) / 1_000).min(MOST_TRIP) as u32
    }

    /// Its bytes, where they came in the last half second.
    pub fn came(&self, now: u64) -> u32
        ensures { result ≡ came_at now self.now }
    {
        match self.fate {
            Fate::Open => 0,
            Fate::Lost => 0,
            Fate::Whole(at) => {
                if now.saturating_sub(at) <= HALF_SECOND {
                    self.bytes
                } else {
                    0
                }
            }
        }
    }
}
