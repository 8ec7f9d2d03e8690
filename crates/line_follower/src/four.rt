//! Four numbers of pictures in a row.
ghost use Rattle.std.specs.Prelude.{◌≡◌, ◌<◌, ◌^◌};
ghost use Rattle.line_follower.specs.Numbers.{greatest_of_four, is_above, least_of_four, middle_two, four_moved, four_zeros, total_of_four};

/// Numbers of four pictures in a row, the newest first.
#[derive(Clone, Copy)]
pub struct Four {
    pub first: u32,
    pub second: u32,
    pub third: u32,
    pub fourth: u32,
}

impl Four {
    /// Four zeros.
    pub fn none() -> Four
        ensures { result ≡ four_zeros }
    {
        Four {
            first: 0,
            second: 0,
            third: 0,
            fourth: 0,
        }
    }

    /// One picture later: this number is the newest, and the oldest is gone.
    pub fn with(&self, number: u32) -> Four
        ensures { result ≡ four_moved number self.now }
    {
        Four {
            first: number,
            second: self.first,
            third: self.second,
            fourth: self.third,
        }
    }

    /// The least of them.
    pub fn least(&self) -> u32
        ensures { result ≡ least_of_four self.now }
    {
        self.first.min(self.second.min(self.third.min(self.fourth)))
    }

    /// The greatest of them.
    pub fn greatest(&self) -> u32
        ensures { result ≡ greatest_of_four self.now }
    {
        self.first.max(self.second.max(self.third.max(self.fourth)))
    }

    /// Their sum.
    pub fn total(&self) -> u64
        ensures value { result ≡ total_of_four self.now }
        ensures small { result < 2 ^ 34 }
    {
        self.first as u64 + (self.second as u64 + (self.third as u64 + self.fourth as u64))
    }

    /// The sum of the two that are neither the greatest nor the least.
    pub fn middle_two(&self) -> u64
        ensures value { result ≡ middle_two self.now }
        ensures small { result < 2 ^ 33 }
    {
        self.total()
            .saturating_sub(self.greatest() as u64)
            .saturating_sub(self.least() as u64)
    }

    /// Whether each of them is greater than the median of those, and their median than each of those.
    pub fn is_above(&self, those: &Four) -> bool
        ensures { result ≡ is_above self.now those.now }
    {
        if those.middle_two() >= 2 * self.least() as u64 {
            return false;
        }
        2 * (those.greatest() as u64) < self.middle_two()
    }
}
