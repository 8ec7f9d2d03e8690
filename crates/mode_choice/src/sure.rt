//! Levels that sixteenths of the coefficients tell, without the coefficients.
ghost use Rattle.std.specs.Prelude.{◌≡◌, ℕ, ◌+◌, ◌*◌, ◌<◌, ◌≤◌, ℤ, pos, All, IsTrue, false, length, replicate, slice_index_or, unsigned_abs};
ghost use Rattle.h263_types.specs.Blocks.{IsLevel, IsQuant};
ghost use Rattle.h263_types.specs.Marks.{marks_of};
ghost use Rattle.idct8.specs.Near.{IsBracketed};
ghost use Rattle.quantiser.specs.Factors.{IsFactor, IsWord};
ghost use Rattle.mode_choice.specs.declared.order.Standing.TheVariants.{ByColumns};
ghost use Rattle.mode_choice.specs.Walk.{half_quant, level_by, level_in, standing_place};

use crate::coefficients::{Coding, Quantisation, least_size};
use crate::order::{Standing, put_in_order};
use h263_types::laws as types_laws;
use quantiser::{laws as quantiser_laws, level_with_rest};

// Puts the levels into zeros, in the zigzag order, and says whether all are sure, with the marks of
// what it put; where one isn't sure, the zeros stay. The sixteenths stand by columns.
#[inline(always)]
pub(crate) fn sure_levels_in(
    coding: Coding,
    quantisation: Quantisation,
    sixteenths: &[i16; 64],
    out: &mut [i16; 64],
) -> (bool, u64)
    requires quant { IsQuant quantisation.quant }
    requires factor { IsFactor quantisation.quant quantisation.factor }
    requires words { All IsWord sixteenths.now }
    requires zeros { out.old ≡ replicate 64 (pos 0) }
    ensures unsure { result.0 ≡ false → out.new ≡ out.old }
    ensures long { length out.new ≡ 64 }
    ensures levels { IsTrue result.0 → (k : ℕ) (coefficient : ℤ) → k < 64
        → IsBracketed (slice_index_or sixteenths.now (standing_place ByColumns k) (pos 0)) coefficient
        → slice_index_or out.new k (pos 0)
        ≡ level_in coding quantisation.quant quantisation.keep coefficient k }
    ensures marks { result.1 ≡ marks_of out.new }
{
    if have_none(coding, quantisation.quant, sixteenths) {
        return (true, 0);
    }
    let mut levels = [0; 64];
    let sure = sure_levels(coding, quantisation, sixteenths, &mut levels);
    if sure {
        let marks = put_in_order(Standing::ByColumns, &levels, quantisation.keep, out);
        return (true, marks);
    }
    (false, 0)
}

// Whether no level is left, as of most residuals that are transformed. Of a block that is coded by
// itself it isn't asked, since the first coefficient is large.
#[inline(always)]
fn have_none(coding: Coding, quant: u8, sixteenths: &[i16; 64]) -> bool
    requires quant { IsQuant quant }
    requires words { All IsWord sixteenths.now }
    ensures { IsTrue result → (at : ℕ) (coefficient : ℤ) → at < 64
        → IsBracketed (slice_index_or sixteenths.now at (pos 0)) coefficient
        → level_by coding quant coefficient ≡ pos 0 }
{
    match coding {
        Coding::Intra => false,
        Coding::Inter => are_below(sixteenths, least_size(Coding::Inter, quant)),
    }
}

// Whether the most that each coefficient can be is below `least`.
#[inline(always)]
fn are_below(sixteenths: &[i16; 64], least: u32) -> bool
    requires words { All IsWord sixteenths.now }
    requires least { least ≤ 77 }
    ensures { IsTrue result → (at : ℕ) → at < 64
        → unsigned_abs (slice_index_or sixteenths.now at (pos 0)) + 9 < 16 * least }
{
    let largest = u32::from(largest(sixteenths));
    largest + 9 < 16 * least
}

// The largest size of the sixteenths.
#[inline(always)]
fn largest(sixteenths: &[i16; 64]) -> u16
    requires words { All IsWord sixteenths.now }
    ensures each { (at : ℕ)
        → at < 64 → unsigned_abs (slice_index_or sixteenths.now at (pos 0)) ≤ result }
    ensures most { result ≤ 32768 }
{
    let mut largest: u16 = 0;
    for at in 0..64 {
        largest = largest.max(sixteenths[at].unsigned_abs());
    }
    largest
}

// The levels where they stand, and whether all are sure: whether the most that is left of one is
// little enough. There is no branch on any of them, so that they are taken together, eight at a
// time. Of a block with one that isn't sure all are found again: that is rare, and costs less than
// to look for the one.
#[inline(always)]
fn sure_levels(
    coding: Coding,
    quantisation: Quantisation,
    sixteenths: &[i16; 64],
    levels: &mut [i16; 64],
) -> bool
    requires quant { IsQuant quantisation.quant }
    requires factor { IsFactor quantisation.quant quantisation.factor }
    requires words { All IsWord sixteenths.now }
    requires zeros { levels.old ≡ replicate 64 (pos 0) }
    ensures long { length levels.new ≡ 64 }
    ensures levels { IsTrue result → (at : ℕ) (coefficient : ℤ) → at < 64
        → IsBracketed (slice_index_or sixteenths.now at (pos 0)) coefficient
        → slice_index_or levels.new at (pos 0) ≡ level_by coding quantisation.quant coefficient }
    ensures range { All IsLevel levels.new }
{
    quantiser_laws::settled();
    quantiser_laws::rest_settles();
    types_laws::one_more::<i16>();
    let Quantisation { quant, factor, .. } = quantisation;
    let half = half_step(coding, quant);
    let mut most: u16 = 0;
    for at in 0..64 {
        let (level, rest) = level_with_rest(quant, factor, half, sixteenths[at]);
        levels[at] = level;
        most = most.max(rest);
    }
    most + 3 < 32 * u16::from(quant)
}

// What is taken from a coefficient's size before the steps are counted.
#[inline(always)]
fn half_step(coding: Coding, quant: u8) -> u16
    ensures { result ≡ half_quant coding quant }
{
    match coding {
        Coding::Intra => 0,
        Coding::Inter => u16::from(quant) / 2,
    }
}
