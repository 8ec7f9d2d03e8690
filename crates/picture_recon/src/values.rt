//! The values and the samples of one block.
ghost use Rattle.std.specs.Prelude.{◌≡◌, ℕ, ◌+◌, ◌*◌, ◌<◌, ◌≤◌, pos, ◌+ℤ◌, ◌*ℤ◌, All, length, slice_index, slice_index_or};
ghost use Rattle.h263_types.specs.Blocks.{IsDc, IsInterBlock, IsIntraBlock, IsLevel, IsQuant, IsValue, level_at};
ghost use Rattle.idct8.specs.Ranges.{Within};
ghost use Rattle.idct8.specs.Transform.{inverse_at, rounded};
ghost use Rattle.picture_recon.specs.Coded.{intra_sample};
ghost use Rattle.picture_recon.specs.Samples.{block_in, inter_value, inter_values, limited};
ghost use Rattle.picture_recon.specs.Marks.{AreMarked, AreMarkedIn, HasMarkedValues};

use crate::classes::inverse_by_marks;
use h263_types::{Block, laws as types_laws};
use idct8::laws as idct8_laws;
use quantiser::{block_place, laws as quantiser_laws, value};

// The samples of block `first` of an intra macroblock and of the next one, by rows. The values of
// both are put down before one is transformed: what reads a row of values in lanes waits for each
// of them that was just written by itself.
#[inline(always)]
pub(crate) fn two_intra(
    quant: u8,
    blocks: &[Block; 6],
    marks: &[u64; 6],
    first: u32,
) -> ([u8; 64], [u8; 64])
    requires quant { IsQuant quant }
    requires blocks { All IsIntraBlock blocks.now }
    requires marks { AreMarkedIn blocks.now marks.now }
    requires first { first ≤ 4 }
    ensures one { (y x : ℕ) → y < 8 → x < 8 → slice_index result.0 (8 * y + x)
        ≡ intra_sample quant (block_in blocks.now first) y x }
    ensures next { (y x : ℕ) → y < 8 → x < 8 → slice_index result.1 (8 * y + x)
        ≡ intra_sample quant (block_in blocks.now (first + 1)) y x }
{
    idct8_laws::first_value_apart();
    let k = first as usize;
    let mut values = [0; 64];
    let mut others = [0; 64];
    put_values_but_first(quant, &blocks[k], marks[k], &mut values);
    put_values_but_first(quant, &blocks[k + 1], marks[k + 1], &mut others);
    let one = intra_samples(&blocks[k], marks[k], &mut values);
    let next = intra_samples(&blocks[k + 1], marks[k + 1], &mut others);
    (one, next)
}

// The samples of a block of an intra macroblock, by rows, from its values but for the first:
// INTRADC itself where it has no other level. Else INTRADC is added to what the others give, which
// are small: so the transform is quick.
#[inline(always)]
fn intra_samples(block: &Block, marks: u64, values: &mut [i16; 64]) -> [u8; 64]
    requires dc { IsDc (level_at block.now 0) }
    requires first { slice_index_or values.old 0 (pos 0) ≡ pos 0 }
    requires values { All IsValue values.old }
    requires marked { HasMarkedValues marks values.old }
    ensures { (y x : ℕ) → y < 8 → x < 8 → slice_index result (8 * y + x)
        ≡ limited (level_at block.now 0 +ℤ inverse_at values.old y x) }
{
    quantiser_laws::one_order();
    idct8_laws::zeros_give_zeros();
    let samples = flat(block.levels[0]);
    if marks == FIRST_ALONE {
        return samples;
    }
    inverse_by_marks(marks, values);
    limited_sums(&samples, values)
}

// A block of samples that are all INTRADC.
fn flat(dc: i16) -> [u8; 64]
    requires { IsDc dc }
    ensures { (at : ℕ) → at < 64 → pos (slice_index result at) ≡ dc }
{
    [dc as u8; 64]
}

// The samples of a block of an inter macroblock, by rows, from the predicted ones. Where it has the
// first level alone, the same number is added to all. It is not taken into its three callers, which
// mostly have no level.
#[inline(never)]
pub(crate) fn inter_samples(quant: u8, block: &Block, marks: u64, predicted: &[u8; 64]) -> [u8; 64]
    requires quant { IsQuant quant }
    requires block { IsInterBlock block.now }
    requires marked { AreMarked block.now.levels marks }
    ensures { (y x : ℕ) → y < 8 → x < 8 → slice_index result (8 * y + x)
        ≡ limited (pos (slice_index predicted.now (8 * y + x))
        +ℤ inverse_at (inter_values quant block.now) y x) }
{
    if marks == FIRST_ALONE {
        quantiser_laws::one_order();
        let number = number_of_first(value(quant, block.levels[0]));
        return limited_sums_with_one(predicted, number);
    }
    let mut numbers = [0; 64];
    put_values(quant, block, marks, &mut numbers);
    inverse_by_marks(marks, &mut numbers);
    limited_sums(predicted, &numbers)
}

// What the inverse transform gives at each place where all values but the first are 0.
#[inline(always)]
fn number_of_first(value: i16) -> i16
    requires { IsValue value }
    ensures value { result ≡ rounded (pos 2048 *ℤ pos 2048 *ℤ value) }
    ensures range { Within 32000 result }
{
    (value + 4) >> 3
}

// The marks of a block whose levels are 0 but for the first.
const FIRST_ALONE: u64 = 1;

// The marks of a macroblock's six blocks.
pub(crate) fn marks_of_six(blocks: &[Block; 6]) -> [u64; 6]
    ensures { AreMarkedIn blocks.now result }
{
    [
        marks_of(blocks[0]),
        marks_of(blocks[1]),
        marks_of(blocks[2]),
        marks_of(blocks[3]),
        marks_of(blocks[4]),
        marks_of(blocks[5]),
    ]
}

// The same where most blocks have no level, which is seen sooner.
pub(crate) fn marks_of_few(blocks: &[Block; 6]) -> [u64; 6]
    ensures { AreMarkedIn blocks.now result }
{
    [
        marks_or_none(&blocks[0]),
        marks_or_none(&blocks[1]),
        marks_or_none(&blocks[2]),
        marks_or_none(&blocks[3]),
        marks_or_none(&blocks[4]),
        marks_or_none(&blocks[5]),
    ]
}

// The marks of a block that may have no level.
#[inline(always)]
fn marks_or_none(block: &Block) -> u64
    ensures { AreMarked block.now.levels result }
{
    if bits_of_all(block.levels) == 0 {
        return 0;
    }
    marks_of(*block)
}

// The bits that any of the levels has.
#[inline(always)]
fn bits_of_all(levels: [i16; 64]) -> u16
    ensures { result ≡ 0 → (k : ℕ) → k < 64 → slice_index_or levels k (pos 0) ≡ pos 0 }
{
    let mut bits: u16 = 0;
    for at in 0..64 {
        bits |= levels[at].cast_unsigned();
    }
    bits
}

// Which levels aren't 0: bit k is for place k of the zigzag order.
#[inline(always)]
fn marks_of(block: Block) -> u64
    ensures { AreMarked block.levels result }
{
    types_laws::marks();
    block.marks()
}

// Puts down the values of a block of an inter macroblock, by rows.
#[inline(always)]
fn put_values(quant: u8, block: &Block, marks: u64, values: &mut [i16; 64])
    requires quant { IsQuant quant }
    requires block { IsInterBlock block.now }
    requires marked { AreMarked block.now.levels marks }
    ensures values { values.new ≡ inter_values quant block.now }
    ensures marked { HasMarkedValues marks values.new }
    ensures range { All IsValue values.new }
{
    put_values_but_first(quant, block, marks, values);
    values[0] = value(quant, block.levels[0]);
}

// Puts down the values of a block's levels, by rows, and 0 for the first one. Goes from mark to
// mark, since most levels are 0.
#[inline(always)]
fn put_values_but_first(quant: u8, block: &Block, marks: u64, values: &mut [i16; 64])
    requires quant { IsQuant quant }
    requires levels { (k : ℕ) → 1 ≤ k → k < 64 → IsLevel (level_at block.now k) }
    requires marked { AreMarked block.now.levels marks }
    ensures long { length values.new ≡ 64 }
    ensures first { slice_index_or values.new 0 (pos 0) ≡ pos 0 }
    ensures values { (at : ℕ) → 1 ≤ at → at < 64
        → slice_index_or values.new at (pos 0) ≡ inter_value quant block.now at }
    ensures marked { HasMarkedValues marks values.new }
    ensures range { All IsValue values.new }
{
    types_laws::lowest();
    quantiser_laws::one_order();
    *values = [0; 64];
    let mut rest = marks & !1;
    'marks: while rest != 0 {
        let k = rest.trailing_zeros() as usize;
        values[block_place(k)] = value(quant, block.levels[k]);
        rest &= !(1 << k);
    }
}

// The sum of each sample and the number at its place, limited to 0 to 255.
fn limited_sums(predicted: &[u8; 64], numbers: &[i16; 64]) -> [u8; 64]
    requires numbers { (at : ℕ)
        → at < 64 → Within 32000 (slice_index_or numbers.now at (pos 0)) }
    ensures { (at : ℕ) → at < 64 → slice_index result at
        ≡ limited (pos (slice_index predicted.now at) +ℤ slice_index_or numbers.now at (pos 0)) }
{
    let mut samples = [0; 64];
    for at in 0..64 {
        samples[at] = limited_sum(predicted[at], numbers[at]);
    }
    samples
}

// The sum of each sample and one number, limited to 0 to 255.
fn limited_sums_with_one(predicted: &[u8; 64], number: i16) -> [u8; 64]
    requires number { Within 32000 number }
    ensures { (at : ℕ)
        → at < 64 → slice_index result at ≡ limited (pos (slice_index predicted.now at) +ℤ number) }
{
    let mut samples = [0; 64];
    for at in 0..64 {
        samples[at] = limited_sum(predicted[at], number);
    }
    samples
}

// The sum of a sample and a number, limited to 0 to 255: in 16 bits and by `clamp`, as the compiler
// knows how to do in lanes.
fn limited_sum(sample: u8, number: i16) -> u8
    requires { Within 32000 number }
    ensures { result ≡ limited (pos sample +ℤ number) }
{
    limited_sample(i16::from(sample) + number)
}

fn limited_sample(number: i16) -> u8
    ensures { result ≡ limited number }
{
    number.clamp(0, 255) as u8
}
