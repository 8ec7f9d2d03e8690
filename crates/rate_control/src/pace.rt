//! The rate controller of `send --target`: a quantiser by the level of a leaky bucket.
ghost use Rattle.std.specs.Prelude.{◌≡◌, ◌≤◌};

use crate::level::level_after;
use h263_types::Pace;

/// A pace that follows a target in bytes per picture: the further the level lies above an empty
/// bucket, the coarser the quantiser.
#[derive(Clone, Copy)]
pub struct BucketPace {
    /// Bytes per picture, 1 to 999,999.
    target: u32,
    /// The quantiser at an empty bucket, 1 to 31.
    first: u8,
    ghost some: { 1 ≤ target },
    ghost few: { target ≤ 999999 },
    ghost low: { 1 ≤ first },
    ghost high: { first ≤ 31 },
}

impl BucketPace {
    /// A pace with a target of 1 to 999,999 bytes per picture, whose first quantiser is from 1 to
    /// 31.
    pub fn new(target: u32, first: u8) -> BucketPace
        requires some { 1 ≤ target }
        requires few { target ≤ 999999 }
        requires low { 1 ≤ first }
        requires high { first ≤ 31 }
        ensures target { result.target ≡ target }
        ensures first { result.first ≡ first }
    {
        BucketPace { target, first }
    }

    /// The quantiser at an empty bucket.
    pub fn first(&self) -> u8
        ensures value { result ≡ self.now.first }
        ensures low { 1 ≤ result }
        ensures high { result ≤ 31 }
    {
        self.first
    }
}

impl Pace for BucketPace {
    ghost use Rattle.rate_control.specs.Level.{bucket_quant};

    ghost quant_of = { λ pace sizes. bucket_quant pace.target pace.first sizes };

    fn quant(&self, sizes: &[u32]) -> u8 {
        let level = level_after(self.target, sizes);
        let quant = self.first as u64 + 4 * level / self.target as u64;
        quant.min(31) as u8
    }
}
