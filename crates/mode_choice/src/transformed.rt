//! The levels of a block of samples, or of what a prediction leaves of them.
ghost use Rattle.std.specs.Prelude.{◌≡◌, ℕ, ◌<◌, pos, ◌+ℤ◌, All, length, replicate, slice_index_or};
ghost use Rattle.std.specs.Int.{int_shr};
ghost use Rattle.h263_types.specs.Blocks.{IsCoefficient, IsQuant};
ghost use Rattle.h263_types.specs.Marks.{marks_of};
ghost use Rattle.idct8.specs.Ranges.{IsSample, Within};
ghost use Rattle.idct8.specs.Transform.{forward_at};
ghost use Rattle.quantiser.specs.Factors.{IsFactor};
ghost use Rattle.mode_choice.specs.Choice.{coefficient_at};
ghost use Rattle.mode_choice.specs.Walk.{level_in};

use crate::coefficients::{Coding, Quantisation, levels_in};
use crate::sure::sure_levels_in;
use idct8::{forward, laws as idct8_laws, nearly};

// With smaller quantisers too many blocks would be transformed twice. Of a grainy picture that is
// coded by itself, one in five has a level that sixteenths don't tell at 5, one in thirteen at 8.
const LEAST_NEARLY: u8 = 5;

// Puts the levels of samples into zeros, in the zigzag order: 0 from place `keep` on. The first one
// is a level as the others are. Gives the first coefficient, of which INTRADC is made, and the marks
// of the levels.
#[inline(always)]
pub(crate) fn transformed(
    coding: Coding,
    quantisation: Quantisation,
    samples: &[i16; 64],
    out: &mut [i16; 64],
) -> (i32, u64)
    requires quant { IsQuant quantisation.quant }
    requires factor { IsFactor quantisation.quant quantisation.factor }
    requires samples { All IsSample samples.now }
    requires zeros { out.old ≡ replicate 64 (pos 0) }
    ensures first { result.0 ≡ forward_at samples.now 0 0 }
    ensures first_range { IsCoefficient result.0 }
    ensures long { length out.new ≡ 64 }
    ensures levels { (k : ℕ) → k < 64 → slice_index_or out.new k (pos 0)
        ≡ level_in coding quantisation.quant quantisation.keep (coefficient_at samples.now k) k }
    ensures marks { result.1 ≡ marks_of out.new }
{
    if quantisation.quant < LEAST_NEARLY {
        return exactly(coding, quantisation, samples, out);
    }
    idct8_laws::near_brackets();
    idct8_laws::first_is_exact();
    let sixteenths = nearly(samples);
    let (sure, marks) = sure_levels_in(coding, quantisation, &sixteenths, out);
    if sure {
        (first_coefficient(sixteenths[0]), marks)
    } else {
        exactly(coding, quantisation, samples, out)
    }
}

// The first coefficient by its sixteenths, of which neither pass has rounded the sums.
#[inline(always)]
fn first_coefficient(sixteenths: i16) -> i32
    requires { Within 32640 sixteenths }
    ensures value { result ≡ int_shr (sixteenths +ℤ pos 8) 4 }
    ensures range { IsCoefficient result }
{
    (i32::from(sixteenths) + 8) >> 4
}

// The same by the coefficients.
fn exactly(
    coding: Coding,
    quantisation: Quantisation,
    samples: &[i16; 64],
    out: &mut [i16; 64],
) -> (i32, u64)
    requires quant { IsQuant quantisation.quant }
    requires factor { IsFactor quantisation.quant quantisation.factor }
    requires samples { All IsSample samples.now }
    requires zeros { out.old ≡ replicate 64 (pos 0) }
    ensures first { result.0 ≡ forward_at samples.now 0 0 }
    ensures first_range { IsCoefficient result.0 }
    ensures long { length out.new ≡ 64 }
    ensures levels { (k : ℕ) → k < 64 → slice_index_or out.new k (pos 0)
        ≡ level_in coding quantisation.quant quantisation.keep (coefficient_at samples.now k) k }
    ensures marks { result.1 ≡ marks_of out.new }
{
    let coefficients = forward(samples);
    let marks = levels_in(coding, quantisation, &coefficients, out);
    (coefficients[0], marks)
}
