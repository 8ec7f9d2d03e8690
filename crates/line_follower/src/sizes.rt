//! The sizes of the latest pictures, and what the sender makes of them.
ghost use Rattle.std.specs.Prelude.{◌≡◌, ◌+◌, ◌*◌, ◌<◌, ◌≤◌, ◌^◌};
ghost use Rattle.line_follower.specs.Bucket.{four_level, bucket_level, no_sizes, poured, quant_for, sizes_with};

use crate::four::Four;

/// Bytes of the latest sixteen pictures.
#[derive(Clone, Copy)]
pub struct Sizes {
    newest: Four,
    newer: Four,
    older: Four,
    oldest: Four,
}

impl Sizes {
    /// No picture.
    pub fn none() -> Sizes
        ensures { result ≡ no_sizes }
    {
        Sizes {
            newest: Four::none(),
            newer: Four::none(),
            older: Four::none(),
            oldest: Four::none(),
        }
    }

    /// The same with one more.
    pub fn with(&self, bytes: u32) -> Sizes
        ensures { result ≡ sizes_with bytes self.now }
    {
        Sizes {
            newest: self.newest.with(bytes),
            newer: self.newer.with(self.newest.fourth),
            older: self.older.with(self.newer.fourth),
            oldest: self.oldest.with(self.older.fourth),
        }
    }

    // The level of a bucket of which this target runs out with each picture.
    fn level(&self, target: u32) -> u64
        ensures value { result ≡ bucket_level target self.now }
        ensures small { result < 2 ^ 36 }
    {
        let level = four_level(0, &self.oldest, target);
        let level = four_level(level, &self.older, target);
        let level = four_level(level, &self.newer, target);
        four_level(level, &self.newest, target)
    }

    /// The quantiser that the sender takes with this target.
    pub fn quant(&self, finest: u8, target: u32) -> u64
        requires { 1 ≤ target }
        ensures { result ≡ quant_for finest target self.now }
    {
        (finest as u64 + 4 * self.level(target) / target as u64).min(31)
    }
}

fn poured(level: u64, bytes: u32, target: u32) -> u64
    requires { level < 2 ^ 36 }
    ensures value { result ≡ poured target level bytes }
    ensures more { result < level + 2 ^ 32 }
{
    (level + bytes as u64).saturating_sub(target as u64)
}

fn four_level(level: u64, four: &Four, target: u32) -> u64
    requires { level ≤ 3 * 2 ^ 34 }
    ensures value { result ≡ four_level target level four.now }
    ensures more { result < level + 2 ^ 34 }
{
    let level = poured(level, four.fourth, target);
    let level = poured(level, four.third, target);
    let level = poured(level, four.second, target);
    poured(level, four.first, target)
}
