//! Samples between samples.
ghost use Rattle.std.specs.Prelude.{◌<◌, ◌≤◌};
ghost use Rattle.h263_types.specs.Vectors.{InReach};
ghost use Rattle.h263_types.specs.declared.format.Format.TheVariants.{SubQcif};

use crate::pictures::picture;
use crate::samples::vector;
use h263_planes::{PictureRef, Plane};
use h263_types::{Format, Vector};
use half_sample::{chroma, luma};
use test_fixtures::answer::{Answer, Asked, WRONG};
use test_fixtures::codec::{SIZE, is_in_reach};

fn y_samples(bytes: &[u8; SIZE], mb: u32, vector: Vector, rounding: u8) -> [u8; 256]
    requires mb { mb < 48 }
    requires reach { InReach SubQcif mb vector.x vector.y }
    requires rounding { rounding ≤ 1 }
{
    let reference = PictureRef::new(Format::SubQcif, bytes);
    let mut out = [0; 256];
    luma(reference, mb, vector, rounding, &mut out);
    out
}

fn colour_samples(bytes: &[u8; SIZE], cr: bool, mb: u32, vector: Vector, rounding: u8) -> [u8; 64]
    requires mb { mb < 48 }
    requires reach { InReach SubQcif mb vector.x vector.y }
    requires rounding { rounding ≤ 1 }
{
    let reference = PictureRef::new(Format::SubQcif, bytes);
    let mut out = [0; 64];
    if cr {
        chroma(reference, Plane::Cr, mb, vector, rounding, &mut out);
    } else {
        chroma(reference, Plane::Cb, mb, vector, rounding, &mut out);
    }
    out
}

/// Answers a row of `half_sample.rows`: does the call of this name by the words after it.
pub fn answer(call: &str, asked: &mut Asked<'_>, answer: &mut Answer) {
    let bytes = picture(asked);
    let mb = asked.number(47);
    let vector = vector(asked);
    let rounding = asked.number(1) as u8;
    if !is_in_reach(Format::SubQcif, mb, vector) {
        answer.why = WRONG;
        return;
    }
    match call {
        "y" => answer.say_some(&y_samples(&bytes, mb, vector, rounding), asked),
        "cb" => answer.say_some(&colour_samples(&bytes, false, mb, vector, rounding), asked),
        "cr" => answer.say_some(&colour_samples(&bytes, true, mb, vector, rounding), asked),
        _ => answer.why = WRONG,
    }
}
