//! Levels and the values that they stand for, by the quantiser (H.263, 6.2.1 and 6.2.2), the levels
//! of coefficients, and the zigzag order of a block's levels (6.2.3).
//!
//! [`value`] is of a level, [`level_intra`] and [`level_inter`] are of a coefficient; those
//! `_by_factor` find many levels of one quantiser, [`level_with_rest`] is of a coefficient that is
//! only bracketed; [`block_place`] and [`zigzag_place`] lead from one order to the other.
//!
//! ```rust
//! assert_eq!(rt; (value(8, 1), value(5, -2), value(31, -127)), (23, -25, -2048));
//! assert_eq!(rt; (level_inter(8, 25), level_inter(8, -19), level_intra(8, -19)), (1, 0, -1));
//! assert_eq!(rt; (block_place(2), zigzag_place(8)), (8, 2));
//! ```
//!
//! # Decisions
//!
//! - **Levels are products with a factor.** A division by 2Q becomes a product with 2^(16+s) / 2Q
//!   rounded up, 2^s being the least power of two not below Q. The factor fits 16 bits and is exact
//!   for sizes of up to 2^15 (`factors_are_exact`). Limiting coefficients to 16 bits changes no
//!   level (`limited_coefficients`).
#![tactic(auto)]

mod coefficients;
pub mod laws;
mod scan;

ghost use Rattle.std.specs.Prelude.{◌≡◌, ℕ, ◌-◌, ◌%◌, pos, ◌≤ℤ◌};
ghost use Rattle.h263_types.specs.Blocks.{IsLevel, IsQuant, IsValue};
ghost use Rattle.quantiser.specs.Levels.{value_of};

pub use coefficients::{
    Factor, factor_of, level_inter, level_inter_by_factor, level_intra, level_intra_by_factor,
    level_with_rest, limited,
};
pub use scan::{block_place, zigzag_place};

/// The value, -2048 to 2047, of a level from -127 to 127 that isn't an INTRADC value; `quant` is 1
/// to 31.
pub fn value(quant: u8, level: i16) -> i16
    requires quant { IsQuant quant }
    requires level { IsLevel level }
    ensures value { result ≡ value_of quant level }
    ensures range { IsValue result }
{
    let sign = i32::from(level.signum());
    let steps = 2 * i32::from(quant) * i32::from(level);
    (steps + sign * rest_of_value(quant)).clamp(-2048, 2047) as i16
}

// What the size of a level's value has more than its steps of twice the quantiser. There is no
// branch on the sign, since it is as often one as the other.
#[inline(always)]
fn rest_of_value(quant: u8) -> i32
    requires quant { IsQuant quant }
    ensures rest { result ≡ pos (quant - (1 - quant % 2)) }
    ensures most { result ≤ℤ pos 31 }
{
    i32::from(quant - (1 - quant % 2))
}
