//! A difference of vectors by one look at its bits.
ghost use Rattle.std.specs.Prelude.{◌≡◌, ◌≢◌, ◌+◌, ◌<◌, ◌≤◌, ◌^◌, IfSome};
ghost use Rattle.code_tables.specs.Seen.{IsMagnitudeIn, IsDifferenceIn};

use crate::code::named_place;
use crate::event_bits::{len_at, with_sign};
use crate::tables::{MAGNITUDES, MAGNITUDES_FAST, MAGNITUDES_LONG};

/// A difference that bits begin with, and how many of them are its own.
#[derive(Clone, Copy)]
pub struct SeenDifference {
    pub value: i8,
    pub len: u32,
}

// A difference by the word that 13 bits begin with, and the sign after it, which 0 lacks.
fn seen_magnitude(seen: u32, size: u8, len: u32) -> SeenDifference
    requires len { len ≤ 12 }
    requires size { size < 32 }
    requires word { IsMagnitudeIn seen size len }
    ensures { IsDifferenceIn seen result }
{
    if size == 0 {
        return SeenDifference { value: 0, len };
    }
    let sign = (seen >> (12 - len)) % 2;
    SeenDifference {
        value: with_sign(sign, size),
        len: len + 1,
    }
}

/// The difference that 13 bits begin with, which are as many as the longest has. None leaves them
/// to be read part by part: they may begin with none, or with 32, which has a minus alone.
pub fn seen_difference(seen: u32) -> Option<SeenDifference>
    requires { seen < 2 ^ 13 }
    ensures { IfSome result (λ found. IsDifferenceIn seen found) }
{
    let place = named_place(&MAGNITUDES, &MAGNITUDES_FAST, &MAGNITUDES_LONG, seen >> 1)?;
    if place == 32 {
        return None;
    }
    Some(seen_magnitude(seen, place as u8, len_at(&MAGNITUDES, place)))
}
