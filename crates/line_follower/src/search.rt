//! The target that gives a quantiser.
ghost use Rattle.std.specs.Prelude.{◌≡◌, ◌≤◌};
ghost use Rattle.line_follower.specs.Bucket.{IsTargetFor};

use crate::sizes::Sizes;

/// The greatest target up to `most` at which the sender takes this quantiser or a coarser one, or 1.
pub fn target_for(quant: u32, finest: u8, most: u32, sizes: &Sizes) -> u32
    ensures { IsTargetFor quant finest most sizes.now result }
{
    let mut low = 1;
    let mut high = most.max(1);
    while low < high {
        let middle = high - (high - low) / 2;
        if quant as u64 <= sizes.quant(finest, middle) {
            low = middle;
        } else {
            high = middle - 1;
        }
    }
    low
}
