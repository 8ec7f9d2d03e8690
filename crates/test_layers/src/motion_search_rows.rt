//! The vector and the cost that a search finds.
ghost use Rattle.std.specs.Prelude.{◌<◌, ◌≤◌};

use crate::pictures::picture;
use h263_planes::PictureRef;
use h263_types::{Format, Vector};
use motion_search::{KeptSums, search, search_from};
use test_fixtures::answer::{Answer, Asked, WRONG};
use test_fixtures::codec::SIZE;

// The search in pictures of these bytes, by itself and from a guess that is far off: each vector and
// its cost.
fn found(
    frame: &[u8; SIZE],
    reference: &[u8; SIZE],
    mb: u32,
    radius: u8,
    rounding: u8,
) -> [(i8, i8, i32); 2]
    requires mb { mb < 48 }
    requires radius { radius ≤ 15 }
    requires rounding { rounding ≤ 1 }
{
    let frame = PictureRef::new(Format::SubQcif, frame);
    let reference = PictureRef::new(Format::SubQcif, reference);
    let (vector, cost) = search(frame, reference, mb, radius, rounding);
    let mut sums = KeptSums::none();
    let guess = Vector { x: -27, y: 14 };
    let again = search_from(frame, reference, mb, radius, rounding, guess, &mut sums);
    [(vector.x, vector.y, cost), (again.0.x, again.0.y, again.1)]
}

// Says the vector and the cost; both searches' if the guess changes anything.
/// Answers a row of `motion_search.rows`: does the call of this name by the words after it.
pub fn answer(call: &str, asked: &mut Asked<'_>, answer: &mut Answer) {
    if call != "search" {
        answer.why = WRONG;
        return;
    }
    let frame = picture(asked);
    let reference = picture(asked);
    let mb = asked.number(47);
    let radius = asked.number(15) as u8;
    let rounding = asked.number(1) as u8;
    let [one, again] = found(&frame, &reference, mb, radius, rounding);
    answer.say(&one);
    if again != one {
        answer.say(&again);
    }
}
