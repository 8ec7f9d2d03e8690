//! The levels of what a prediction leaves of a block.
ghost use Rattle.std.specs.Prelude.{◌≡◌, ℕ, All, IsTrue, nat_eq, pos};
ghost use Rattle.std.specs.List.{list_all};
ghost use Rattle.h263_types.specs.Blocks.{IsQuant};
ghost use Rattle.h263_types.specs.Marks.{AreMarksOfFirst, marks_of};
ghost use Rattle.idct8.specs.Ranges.{IsSample};
ghost use Rattle.quantiser.specs.Factors.{IsFactor};
ghost use Rattle.quantiser.specs.Levels.{inter_level};
ghost use Rattle.mode_choice.specs.Choice as choice;
ghost use Rattle.mode_choice.specs.Walk.{zero_block};

use crate::coefficients::{Coding, Quantisation, least_size};
use crate::transformed::transformed;
use h263_types::Block;
use idct8::{are_below, laws as idct8_laws, sum_of_squares};

// Puts the levels of a block of residuals into a block of zeros, and gives their marks.
pub(crate) fn residual_block(
    quantisation: Quantisation,
    residuals: &[i16; 64],
    out: &mut Block,
) -> u64
    requires quant { IsQuant quantisation.quant }
    requires factor { IsFactor quantisation.quant quantisation.factor }
    requires residuals { All IsSample residuals.now }
    requires zeros { out.old ≡ zero_block }
    ensures levels { out.new
        ≡ choice.residual_levels_of quantisation.quant quantisation.keep residuals.now }
    ensures marks { result ≡ marks_of out.new.levels }
{
    if are_small(quantisation.quant, residuals) {
        return 0;
    }
    let (_first, marks) = transformed(Coding::Inter, quantisation, residuals, &mut out.levels);
    marks
}

// Whether residuals are so small that they leave no level, which needs no transform. Most blocks of
// a still picture pass the first test: but for its rounding, the square of a coefficient is at most
// the sum of the squares of the residuals. The second test looks at four parts of the block. Where
// the sum is four times too large or more, one of the parts is too large, and it isn't asked.
fn are_small(quant: u8, residuals: &[i16; 64]) -> bool
    requires quant { IsQuant quant }
    requires residuals { All IsSample residuals.now }
    ensures { IsTrue result
        → (k : ℕ) → inter_level quant (choice.coefficient_at residuals.now k) ≡ pos 0 }
{
    idct8_laws::small_squares();
    let least = least_size(Coding::Inter, quant);
    let squares = sum_of_squares(residuals);
    if squares + least + 1 < least * least {
        true
    } else if squares < 4 * least * least {
        are_below(residuals, least)
    } else {
        false
    }
}

// Whether no level of a macroblock's six blocks is left, as their marks tell.
pub(crate) fn are_empty(blocks: &[Block; 6], marks: &[u64; 6]) -> bool
    requires marks { AreMarksOfFirst 6 blocks.now marks.now }
    ensures { result ≡ choice.are_empty blocks.now }
{
    let blocks: &[Block] = blocks;
    let marks: &[u64] = marks;
    let (_blocks, _marks) = (blocks.len(), marks.len());
    are_none(marks)
}

fn are_none(marks: &[u64]) -> bool
    ensures { result ≡ list_all (λ m. nat_eq m 0) marks.now }
{
    marks.iter().all(is_none)
}

fn is_none(marks: &u64) -> bool
    ensures { result ≡ nat_eq marks.now 0 }
{
    *marks == 0
}
