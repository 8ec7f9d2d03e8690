//! The levels of a block's coefficients.
ghost use Rattle.std.specs.Prelude.{◌≡◌, ℕ, ◌≤◌, ◌<◌, pos, All, length, replicate, slice_index_or};
ghost use Rattle.h263_types.specs.Blocks.{IsCoefficient, IsLevel, IsQuant};
ghost use Rattle.h263_types.specs.Marks.{marks_of};
ghost use Rattle.quantiser.specs.Factors.{IsFactor, IsWord, limited_to_word};
ghost use Rattle.quantiser.specs.Zigzag.{block_place_of};
ghost use Rattle.mode_choice.specs.Walk.{least_of, level_by, level_in};

use crate::order::{Standing, put_in_order};
use h263_types::laws as types_laws;
use quantiser::{
    Factor, laws as quantiser_laws, level_inter_by_factor, level_intra_by_factor, limited,
};

// How a block is coded: by itself, or as what a prediction leaves.
#[derive(Clone, Copy)]
pub(crate) enum Coding {
    Intra,
    Inter,
}

// What turns coefficients into levels: the quantiser, its factor, which is worked out once for a
// macroblock, and how many places of the zigzag order are kept.
#[derive(Clone, Copy)]
pub(crate) struct Quantisation {
    pub(crate) quant: u8,
    pub(crate) factor: Factor,
    pub(crate) keep: u8,
}

// The size from which on a coefficient has a level.
#[inline(always)]
pub(crate) fn least_size(coding: Coding, quant: u8) -> u32
    requires quant { IsQuant quant }
    ensures value { result ≡ least_of coding quant }
    ensures most { result ≤ 77 }
{
    let quant = u32::from(quant);
    match coding {
        Coding::Intra => 2 * quant,
        Coding::Inter => 2 * quant + quant / 2,
    }
}

// Puts the levels of coefficients that stand by rows into zeros, in the zigzag order: 0 from place
// `keep` on. The first one is a level as the others are. Gives the marks of what it put.
#[inline(always)]
pub(crate) fn levels_in(
    coding: Coding,
    quantisation: Quantisation,
    coefficients: &[i32; 64],
    out: &mut [i16; 64],
) -> u64
    requires quant { IsQuant quantisation.quant }
    requires factor { IsFactor quantisation.quant quantisation.factor }
    requires coefficients { (at : ℕ)
        → at < 64 → IsCoefficient (slice_index_or coefficients.now at (pos 0)) }
    requires zeros { out.old ≡ replicate 64 (pos 0) }
    ensures long { length out.new ≡ 64 }
    ensures levels { (k : ℕ) → k < 64 → slice_index_or out.new k (pos 0)
        ≡ level_in coding quantisation.quant quantisation.keep
        (slice_index_or coefficients.now (block_place_of k) (pos 0)) k }
    ensures marks { result ≡ marks_of out.new }
{
    let by_rows = levels_by_rows(coding, quantisation, coefficients);
    put_in_order(Standing::ByRows, &by_rows, quantisation.keep, out)
}

// The levels of all coefficients, by rows. There is no branch on any of them, so that they are
// taken together: eight at a time, since the coefficients are limited to 16 bits first.
#[inline(always)]
fn levels_by_rows(coding: Coding, quantisation: Quantisation, coefficients: &[i32; 64]) -> [i16; 64]
    requires quant { IsQuant quantisation.quant }
    requires factor { IsFactor quantisation.quant quantisation.factor }
    requires coefficients { (at : ℕ)
        → at < 64 → IsCoefficient (slice_index_or coefficients.now at (pos 0)) }
    ensures long { length result ≡ 64 }
    ensures levels { (at : ℕ) → at < 64 → slice_index_or result at (pos 0)
        ≡ level_by coding quantisation.quant (slice_index_or coefficients.now at (pos 0)) }
    ensures range { All IsLevel result }
{
    types_laws::one_more::<i16>();
    quantiser_laws::limited_coefficients();
    let limited = limited_by_rows(coefficients);
    let mut levels = [0; 64];
    for at in 0..64 {
        levels[at] = level(coding, quantisation, limited[at]);
    }
    levels
}

// The coefficients, each limited to 16 bits.
#[inline(always)]
fn limited_by_rows(coefficients: &[i32; 64]) -> [i16; 64]
    requires { (at : ℕ) → at < 64 → IsCoefficient (slice_index_or coefficients.now at (pos 0)) }
    ensures long { length result ≡ 64 }
    ensures limited { (at : ℕ) → at < 64 → slice_index_or result at (pos 0)
        ≡ limited_to_word (slice_index_or coefficients.now at (pos 0)) }
    ensures range { All IsWord result }
{
    types_laws::one_more::<i16>();
    let mut words = [0; 64];
    for at in 0..64 {
        words[at] = limited(coefficients[at]);
    }
    words
}

// The level of a coefficient of 16 bits, by the quantiser's factor.
#[inline(always)]
fn level(coding: Coding, quantisation: Quantisation, coefficient: i16) -> i16
    requires quant { IsQuant quantisation.quant }
    requires factor { IsFactor quantisation.quant quantisation.factor }
    requires coefficient { IsWord coefficient }
    ensures level { result ≡ level_by coding quantisation.quant coefficient }
    ensures range { IsLevel result }
{
    let Quantisation { quant, factor, .. } = quantisation;
    match coding {
        Coding::Intra => level_intra_by_factor(quant, factor, coefficient),
        Coding::Inter => level_inter_by_factor(quant, factor, coefficient),
    }
}
