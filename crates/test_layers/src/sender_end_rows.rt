//! Senders with a pace, and scripts as of both ends.
ghost use Rattle.std.specs.Prelude.{◌≡◌, length};

use crate::ends_rows;
use h263_planes::{PictureRef, Plane};
use h263_types::{FixedPace, Format, Pace, Params};
use rate_control::BucketPace;
use sender_end::Sender;
use std::alloc::Global;
use test_fixtures::answer::{Answer, Asked, NO_MEMORY};
use test_fixtures::codec::SIZE;

// Says the packet of the picture that was coded last, if it has one alone.
fn say_only<P: Pace>(sender: &Sender<P>, count: u32, answer: &mut Answer)
    requires { count ≡ length sender.now.packets }
{
    if count != 1 {
        answer.say(&count);
        return;
    }
    answer.say_bytes(sender.packet(0));
}

// Of two flat pictures, of which the first is acknowledged: says how many were sent before them, the
// second one's packet, and a sample of what a decoder makes of it.
fn two_flat<P: Pace>(alloc: Global, pace: P, answer: &mut Answer) {
    let params = Params::of(Format::SubQcif);
    let frame = [100; SIZE];
    let frame = PictureRef::new(Format::SubQcif, &frame);
    let Ok(mut sender) = Sender::start(alloc, &params, pace) else {
        answer.why = NO_MEMORY;
        return;
    };
    let before = sender.sent();
    sender.code(frame, &[]);
    sender.feedback(&[0xC0, 0x04, 0x00]);
    let coded = sender.code(frame, &[]);
    say_only(&sender, coded.packets, answer);
    let sample = sender.recon().sample(Plane::Y, 127, 95);
    sender.finish();
    answer.say(&(before, sample));
}

/// Answers a row of `sender_end.rows`: does the call of this name by the words after it.
pub fn answer(alloc: Global, call: &str, asked: &mut Asked<'_>, answer: &mut Answer) {
    match call {
        "two_flat" => two_flat(alloc, FixedPace { quant: 8 }, answer),
        "two_flat_by_target" => two_flat(alloc, BucketPace::new(100, 8), answer),
        _ => ends_rows::answer(alloc, call, asked, answer),
    }
}
