//! Samples that a row asks for.
ghost use Rattle.h263_types.specs.declared.format.Format.TheVariants.{SubQcif};
ghost use Rattle.h263_planes.specs.Samples.{Inside};

use h263_planes::{PictureRef, Plane};
use h263_types::{Format, Vector};
use test_fixtures::answer::{Answer, Asked};
use test_fixtures::codec::SIZE;

fn component(asked: &mut Asked<'_>) -> i8 {
    match asked.word().parse::<i8>() {
        Ok(number) => number,
        Err(_) => {
            asked.wrong = true;
            0
        }
    }
}

/// A vector by its components, in half samples.
pub fn vector(asked: &mut Asked<'_>) -> Vector {
    let x = component(asked);
    let y = component(asked);
    Vector { x, y }
}

/// The plane, the column and the row of a sample of a sub-QCIF picture.
pub fn sample(asked: &mut Asked<'_>) -> (Plane, u32, u32)
    ensures { Inside SubQcif result.0 result.1 result.2 1 }
{
    match asked.word() {
        "y" => (Plane::Y, asked.number(127), asked.number(95)),
        "cb" => (Plane::Cb, asked.number(63), asked.number(47)),
        "cr" => (Plane::Cr, asked.number(63), asked.number(47)),
        _ => {
            asked.wrong = true;
            (Plane::Y, 0, 0)
        }
    }
}

/// Says the sample of a picture that the row asks for.
pub fn say_sample(answer: &mut Answer, bytes: &[u8; SIZE], asked: &mut Asked<'_>) {
    let (plane, x, y) = sample(asked);
    let picture = PictureRef::new(Format::SubQcif, bytes);
    answer.say(&picture.sample(plane, x, y));
}
