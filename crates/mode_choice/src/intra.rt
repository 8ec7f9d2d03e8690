//! The levels of an intra block.
ghost use Rattle.std.specs.Prelude.{◌≡◌, All, pos, ◌+ℤ◌};
ghost use Rattle.std.specs.Int.{int_shr};
ghost use Rattle.h263_types.specs.Blocks.{IsCoefficient, IsDc, IsIntraBlock, IsQuant};
ghost use Rattle.h263_types.specs.Marks.{marks_of};
ghost use Rattle.idct8.specs.Ranges.{IsSample};
ghost use Rattle.quantiser.specs.Factors.{IsFactor};
ghost use Rattle.mode_choice.specs.Choice.{levels_of, limited_dc};
ghost use Rattle.mode_choice.specs.Walk.{zero_block};

use crate::coefficients::{Coding, Quantisation};
use crate::transformed::transformed;
use h263_types::{Block, laws as types_laws};

// Puts the levels of a block of samples into a block of zeros, and gives their marks.
pub(crate) fn intra_block(quantisation: Quantisation, samples: &[i16; 64], out: &mut Block) -> u64
    requires quant { IsQuant quantisation.quant }
    requires factor { IsFactor quantisation.quant quantisation.factor }
    requires samples { All IsSample samples.now }
    requires zeros { out.old ≡ zero_block }
    ensures levels { out.new ≡ levels_of quantisation.quant quantisation.keep samples.now }
    ensures range { IsIntraBlock out.new }
    ensures marks { result ≡ marks_of out.new.levels }
{
    types_laws::marks();
    let (first, marks) = transformed(Coding::Intra, quantisation, samples, &mut out.levels);
    out.levels[0] = intra_dc(first);
    // INTRADC is never 0.
    marks | 1
}

// The INTRADC value of a block's first coefficient.
fn intra_dc(coefficient: i32) -> i16
    requires { IsCoefficient coefficient }
    ensures value { result ≡ limited_dc (int_shr (coefficient +ℤ pos 4) 3) }
    ensures range { IsDc result }
{
    let dc = (coefficient + 4) >> 3;
    if dc < 1 {
        1
    } else if dc > 254 {
        254
    } else {
        dc as i16
    }
}
