//! What was sent beyond the rate.
ghost use Rattle.std.specs.Prelude.{◌≡◌};
ghost use Rattle.line_follower.specs.Owing.{bytes_owed, capped, drained, first_debt, is_small, debt_with, with_queue};

// A billionth of a byte a nanosecond is a byte a second.
const BYTE: u64 = 1_000_000_000;
// A debt is small up to so many nanoseconds of the rate.
const SMALL: u64 = 200_000_000;
// A queue counts up to so many microseconds.
const LONGEST: u64 = 200_000;

/// Bytes that were sent and that the rate hasn't carried yet, in billionths of a byte.
#[derive(Clone, Copy)]
pub struct Debt {
    owed: u64,
    // When it was counted last.
    at: u64,
}

impl Debt {
    /// Nothing.
    pub fn first(now: u64) -> Debt
        ensures { result ≡ first_debt now }
    {
        Debt { owed: 0, at: now }
    }

    /// What is left of it by now, at this rate since.
    pub fn drained(&self, rate: u32, now: u64) -> Debt
        ensures { result ≡ drained rate now self.now }
    {
        let carried = now.saturating_sub(self.at).saturating_mul(rate as u64);
        Debt {
            owed: self.owed.saturating_sub(carried),
            at: now,
        }
    }

    /// With so many bytes more.
    pub fn with(&self, bytes: u32) -> Debt
        ensures { result ≡ debt_with bytes self.now }
    {
        Debt {
            owed: self.owed.saturating_add(bytes as u64 * BYTE),
            at: self.at,
        }
    }

    /// No more than a fifth of a second of this rate.
    pub fn capped(&self, rate: u32) -> Debt
        ensures { result ≡ capped rate self.now }
    {
        Debt {
            owed: self.owed.min(rate as u64 * SMALL),
            at: self.at,
        }
    }

    /// At least what this rate carries in so many microseconds, up to a fifth of a second.
    pub fn with_queue(&self, micros: u32, rate: u32) -> Debt
        ensures { result ≡ with_queue micros rate self.now }
    {
        let queue = (micros as u64).min(LONGEST) * rate as u64 * 1_000;
        Debt {
            owed: self.owed.max(queue),
            at: self.at,
        }
    }

    /// Whether it is no more than that.
    pub fn is_small(&self, rate: u32) -> bool
        ensures { result ≡ is_small rate self.now }
    {
        self.owed <= rate as u64 * SMALL
    }

    /// In bytes.
    pub fn bytes(&self) -> u64
        ensures { result ≡ bytes_owed self.now }
    {
        self.owed / BYTE
    }
}
