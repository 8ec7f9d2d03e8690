//! The picture clock, which says how many numbers a temporal reference has.
ghost use Rattle.std.specs.Prelude.{◌≡◌};
ghost use Rattle.h263_types.specs.Clocks.{half_of, period_of};

/// The picture clock (H.263, 5.1.4.2): the standard one, by which a temporal reference has 8 bits,
/// or a custom one, by which it has 10 (5.1.8).
#[derive(Clone, Copy, Debug, PartialEq, Eq)]
pub enum Clock {
    /// Temporal references from 0 to 255.
    Standard,
    /// Temporal references from 0 to 1,023.
    Custom,
}

impl Clock {
    /// Half of the numbers of a temporal reference: so far two pictures may lie apart that one
    /// number tells apart.
    pub fn half(self) -> u32
        ensures { result ≡ half_of self }
    {
        match self {
            Clock::Standard => 128,
            Clock::Custom => 512,
        }
    }

    /// How many numbers a temporal reference has, 256 or 1,024.
    pub fn period(self) -> u32
        ensures { result ≡ period_of self }
    {
        2 * self.half()
    }
}
