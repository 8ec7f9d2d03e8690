//! The levels of a block, put from the places where they are found into the zigzag order.
ghost use Rattle.std.specs.Prelude.{◌≡◌, ◌≢◌, ℕ, ◌≤◌, ◌<◌, pos, All, length, nat_lt, replicate, slice_index_or, slice_set, if◌then◌else◌};
ghost use Rattle.h263_types.specs.Blocks.{IsLevel};
ghost use Rattle.h263_types.specs.Marks.{marks_of};
ghost use Rattle.quantiser.specs.Zigzag.{zigzag_place_of};
ghost use Rattle.mode_choice.specs.Walk.{kept_level, order_of, standing_place, turned_place};

use h263_types::{Block, laws as types_laws};
use quantiser::{laws as quantiser_laws, zigzag_place};

// For each place by columns its place in the zigzag order.
const TURNED: [u8; 64] = [
    0, 2, 3, 9, 10, 20, 21, 35, 1, 4, 8, 11, 19, 22, 34, 36, 5, 7, 12, 18, 23, 33, 37, 48, 6, 13,
    17, 24, 32, 38, 47, 49, 14, 16, 25, 31, 39, 46, 50, 57, 15, 26, 30, 40, 45, 51, 56, 58, 27, 29,
    41, 44, 52, 55, 59, 62, 28, 42, 43, 53, 54, 60, 61, 63,
];

// How the levels of a block stand where they are found.
#[derive(Clone, Copy)]
pub(crate) enum Standing {
    ByRows,
    ByColumns,
}

// Puts levels into zeros, in the zigzag order: 0 from place `keep` on. Gives the marks of what it
// put. Goes from mark to mark, since most levels are 0.
#[inline(always)]
pub(crate) fn put_in_order(
    standing: Standing,
    levels: &[i16; 64],
    keep: u8,
    out: &mut [i16; 64],
) -> u64
    requires levels { All IsLevel levels.now }
    requires zeros { out.old ≡ replicate 64 (pos 0) }
    ensures long { length out.new ≡ 64 }
    ensures levels { (k : ℕ) → k < 64 → slice_index_or out.new k (pos 0)
        ≡ kept_level keep k (slice_index_or levels.now (standing_place standing k) (pos 0)) }
    ensures marks { result ≡ marks_of out.new }
{
    types_laws::lowest();
    types_laws::marks();
    quantiser_laws::one_order();
    let mut rest = Block { levels: *levels }.marks();
    let mut kept = 0;
    'marks: while rest != 0 {
        let at = rest.trailing_zeros() as usize;
        let k = place_in_order(standing, at);
        kept = put_level(levels[at], k, keep, kept, out);
        rest &= !(1 << at);
    }
    kept
}

// The place in the zigzag order of the level that stands at place `at`.
#[inline(always)]
fn place_in_order(standing: Standing, at: usize) -> usize
    requires { at < 64 }
    ensures place { result ≡ order_of standing at }
    ensures range { result < 64 }
{
    match standing {
        Standing::ByRows => zigzag_place(at),
        Standing::ByColumns => turned_zigzag_place(at),
    }
}

// The place in the zigzag order of a place by columns.
#[inline(always)]
fn turned_zigzag_place(at: usize) -> usize
    requires { at < 64 }
    ensures place { result ≡ zigzag_place_of (turned_place at) }
    ensures range { result < 64 }
{
    usize::from(TURNED[at])
}

// Puts a level at place `k`, where none stands yet, and its mark to the others; nothing from place
// `keep` on.
#[inline(always)]
fn put_level(level: i16, k: usize, keep: u8, marks: u64, out: &mut [i16; 64]) -> u64
    requires level { IsLevel level }
    requires some { level ≢ pos 0 }
    requires place { k < 64 }
    requires long { length out.old ≡ 64 }
    requires none { slice_index_or out.old k (pos 0) ≡ pos 0 }
    requires marks { marks ≡ marks_of out.old }
    ensures levels { out.new ≡ slice_set out.old k (kept_level keep k level) }
    ensures marks { result ≡ marks_of out.new }
{
    types_laws::marks();
    if k < usize::from(keep) {
        out[k] = level;
        return marks | 1 << k;
    }
    marks
}
