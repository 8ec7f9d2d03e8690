//! The levels of coefficients (H.263, 6.2.1 and 6.2.2 the other way). A level is a quotient by
//! twice the quantiser; many of one quantiser are found by a product in place of each division, in
//! numbers of 16 bits, of which a processor's lane holds twice as many as of 32.
ghost use Rattle.std.specs.Prelude.{◌≡◌, ℕ, ◌+◌, ◌-◌, ◌*◌, ◌/◌, ◌%◌, ◌≤◌, min, pos, unsigned_abs};
ghost use Rattle.h263_types.specs.Blocks.{IsCoefficient, IsLevel, IsQuant};
ghost use Rattle.quantiser.specs.Levels.{inter_level, intra_level, signed_of};
ghost use Rattle.quantiser.specs.Factors.{IsFactor, IsShift, IsWord, limited_to_word};
ghost use Rattle.quantiser.specs.Settled.{rest_of, steps_of};

/// What a size is multiplied by, and how far the product's upper 16 bits are then shifted, in the
/// place of a division by twice the quantiser.
#[derive(Clone, Copy)]
pub struct Factor {
    pub number: u16,
    pub shift: u32,
}

/// The level, -127 to 127, of a coefficient of an inter block, within 65,535 of 0 (H.263, 6.2.1 the
/// other way); `quant` is 1 to 31.
pub fn level_inter(quant: u8, coefficient: i32) -> i16
    requires quant { IsQuant quant }
    requires coefficient { IsCoefficient coefficient }
    ensures level { result ≡ inter_level quant coefficient }
    ensures range { IsLevel result }
{
    level_inter_by_factor(quant, factor_of(quant), limited(coefficient))
}

/// The level, -127 to 127, of a coefficient of an intra block other than its first, within 65,535
/// of 0; `quant` is 1 to 31.
pub fn level_intra(quant: u8, coefficient: i32) -> i16
    requires quant { IsQuant quant }
    requires coefficient { IsCoefficient coefficient }
    ensures level { result ≡ intra_level quant coefficient }
    ensures range { IsLevel result }
{
    level_intra_by_factor(quant, factor_of(quant), limited(coefficient))
}

/// A coefficient limited to 16 bits. It has the same levels, since none is beyond 127
/// ([`limited_coefficients`](crate::laws::limited_coefficients)).
#[inline(always)]
pub fn limited(coefficient: i32) -> i16
    requires { IsCoefficient coefficient }
    ensures value { result ≡ limited_to_word coefficient }
    ensures range { IsWord result }
{
    coefficient.clamp(-32_768, 32_767) as i16
}

/// The factor of a quantiser: 2^15 times the least power of two that isn't below the quantiser,
/// divided by the quantiser and rounded up.
pub fn factor_of(quant: u8) -> Factor
    requires { IsQuant quant }
    ensures { IsFactor quant result }
{
    let shift = shift(quant);
    let quant = u32::from(quant);
    Factor {
        number: (((32_768 << shift) + (quant - 1)) / quant) as u16,
        shift,
    }
}

// The exponent of the least power of two that isn't below the quantiser.
fn shift(quant: u8) -> u32
    requires { IsQuant quant }
    ensures { IsShift quant result }
{
    if quant <= 1 {
        0
    } else if quant <= 2 {
        1
    } else if quant <= 4 {
        2
    } else if quant <= 8 {
        3
    } else if quant <= 16 {
        4
    } else {
        5
    }
}

/// What [`level_inter`] gives for a coefficient that is limited to 16 bits, by the quantiser's
/// factor.
#[inline(always)]
pub fn level_inter_by_factor(quant: u8, factor: Factor, coefficient: i16) -> i16
    requires quant { IsQuant quant }
    requires factor { IsFactor quant factor }
    requires coefficient { IsWord coefficient }
    ensures level { result ≡ inter_level quant coefficient }
    ensures range { IsLevel result }
{
    let half = u16::from(quant) / 2;
    let size = coefficient.unsigned_abs().saturating_sub(half);
    signed(coefficient, steps(quant, factor, size) as i16)
}

/// What [`level_intra`] gives for a coefficient that is limited to 16 bits, by the quantiser's
/// factor.
#[inline(always)]
pub fn level_intra_by_factor(quant: u8, factor: Factor, coefficient: i16) -> i16
    requires quant { IsQuant quant }
    requires factor { IsFactor quant factor }
    requires coefficient { IsWord coefficient }
    ensures level { result ≡ intra_level quant coefficient }
    ensures range { IsLevel result }
{
    signed(
        coefficient,
        steps(quant, factor, coefficient.unsigned_abs()) as i16,
    )
}

// How many steps of twice the quantiser a size has, 127 at most.
#[inline(always)]
fn steps(quant: u8, factor: Factor, size: u16) -> u16
    requires quant { IsQuant quant }
    requires factor { IsFactor quant factor }
    requires size { size ≤ 32768 }
    ensures steps { result ≡ min (size / (2 * quant)) 127 }
    ensures most { result ≤ 127 }
{
    let product = u32::from(size) * u32::from(factor.number);
    let steps = (product >> 16) as u16 >> factor.shift;
    steps.min(127)
}

// How many steps of 32 times the quantiser sixteenths of a size have, 127 at most, and what is left
// of them after all their steps. The factor is exact for a little more than 2^15, too.
#[inline(always)]
fn steps_and_rest(quant: u8, factor: Factor, size: u16) -> (u16, u16)
    requires quant { IsQuant quant }
    requires factor { IsFactor quant factor }
    requires size { size ≤ 32774 }
    ensures steps { result.0 ≡ min (size / (32 * quant)) 127 }
    ensures most { result.0 ≤ 127 }
    ensures rest { result.1 ≡ size % (32 * quant) }
{
    let product = u32::from(size) * u32::from(factor.number);
    let steps = (product >> 16) as u16 >> (factor.shift + 4);
    (steps.min(127), size - steps * (32 * u16::from(quant)))
}

/// The level of a coefficient of which sixteenths are known that are off by one and a half at most,
/// less `half` of a step, and what is left of the sixteenths of the least that its size can be after
/// all its steps. The level is sure where no step begins within three sixteenths more
/// ([`rest_settles`](crate::laws::rest_settles)).
#[inline(always)]
pub fn level_with_rest(quant: u8, factor: Factor, half: u16, sixteenths: i16) -> (i16, u16)
    requires quant { IsQuant quant }
    requires factor { IsFactor quant factor }
    requires sixteenths { IsWord sixteenths }
    ensures level { result.0 ≡ signed_of sixteenths
        (pos (steps_of quant ((unsigned_abs sixteenths + 6) / 16 - half))) }
    ensures rest { result.1 ≡ rest_of quant half sixteenths }
    ensures range { IsLevel result.0 }
{
    let least = (sixteenths.unsigned_abs() + 6).saturating_sub(16 * half.min(4095));
    let (steps, rest) = steps_and_rest(quant, factor, least);
    (signed(sixteenths, steps as i16), rest)
}

// `size`, 0 to 127, with the sign of `number`.
#[inline(always)]
fn signed(number: i16, size: i16) -> i16
    requires number { IsWord number }
    requires size { IsLevel size }
    ensures value { result ≡ signed_of number size }
    ensures range { IsLevel result }
{
    if number < 0 { -size } else { size }
}
