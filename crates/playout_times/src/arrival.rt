//! A packet that came.
ghost use Rattle.std.specs.Prelude.{◌≡◌, ◌+◌, ◌-◌, ◌<◌, ◌^◌};
ghost use Rattle.playout_times.specs.Ways.{transit};

/// A packet that came, by its picture and its times in nanoseconds, each below 2^62.
#[derive(Clone, Copy)]
pub struct Arrival {
    /// The number of its picture.
    pub picture: u32,
    /// When that was captured, as the packet says, by the sender's clock.
    pub captured: u64,
    /// When the packet came, by the receiver's clock.
    pub at: u64,
}

// By this much ways are counted up, so that none is negative.
const ORIGIN: u64 = 1 << 62;

impl Arrival {
    // Its time on the way.
    pub(crate) fn way(&self) -> u64
        requires captured { self.now.captured < 2 ^ 62 }
        requires at { self.now.at < 2 ^ 62 }
        ensures { result ≡ transit self.now }
    {
        self.at + ORIGIN - self.captured
    }
}
