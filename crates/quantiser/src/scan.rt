//! The zigzag order of a block's levels (H.263, 6.2.3).
ghost use Rattle.std.specs.Prelude.{◌≡◌, ℕ, ◌<◌};
ghost use Rattle.quantiser.specs.Zigzag.{block_place_of, zigzag_place_of};

// For each place of the zigzag order its place in the block.
const ORDER: [u8; 64] = [
    0, 1, 8, 16, 9, 2, 3, 10, 17, 24, 32, 25, 18, 11, 4, 5, 12, 19, 26, 33, 40, 48, 41, 34, 27, 20,
    13, 6, 7, 14, 21, 28, 35, 42, 49, 56, 57, 50, 43, 36, 29, 22, 15, 23, 30, 37, 44, 51, 58, 59,
    52, 45, 38, 31, 39, 46, 53, 60, 61, 54, 47, 55, 62, 63,
];

// For each place in the block its place in the zigzag order.
const FIGURE: [u8; 64] = [
    0, 1, 5, 6, 14, 15, 27, 28, 2, 4, 7, 13, 16, 26, 29, 42, 3, 8, 12, 17, 25, 30, 41, 43, 9, 11,
    18, 24, 31, 40, 44, 53, 10, 19, 23, 32, 39, 45, 52, 54, 20, 22, 33, 38, 46, 51, 55, 60, 21, 34,
    37, 47, 50, 56, 59, 61, 35, 36, 48, 49, 57, 58, 62, 63,
];

/// The place in the block, 8 times its row and its column, of place `k`, below 64, of the zigzag
/// order.
pub fn block_place(k: usize) -> usize
    requires { k < 64 }
    ensures place { result ≡ block_place_of k }
    ensures range { result < 64 }
{
    usize::from(ORDER[k])
}

/// The place in the zigzag order of place `at` of the block, which is 8 times its row and its
/// column. The first place is first in both.
pub fn zigzag_place(at: usize) -> usize
    requires { at < 64 }
    ensures place { result ≡ zigzag_place_of at }
    ensures range { result < 64 }
    ensures later { 0 < at → 0 < result }
{
    usize::from(FIGURE[at])
}
