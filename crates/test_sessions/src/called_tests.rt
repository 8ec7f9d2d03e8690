//! A call of two receivers by hand: what one loses spoils no picture of the other, and a picture that
//! one lacks is no reference.
ghost use Rattle.std.specs.Prelude.{◌≡◌, ◌<◌};
ghost use Rattle.h263_types.specs.declared.format.Format.TheVariants.{SubQcif};
ghost use Rattle.group_call.specs.Holding.{IsCasting, params_in};

use group_call::{Broadcast, Viewer, check_message, check_number, check_shown};
use h263_planes::PictureRef;
use h263_types::{Clock, Format, Mark, OutOfMemory, Params};
use std::alloc::Global;
use std::test::Fail;

const PARAMS: Params = Params {
    format: Format::SubQcif,
    quant: 8,
    keep: 64,
    radius: 1,
    limit: 1400,
    slots: 6,
    lead: 1,
    messages: 1,
    clock: Clock::Standard,
};

// What happens, and what is wanted of it.
#[derive(Clone, Copy)]
enum Act {
    // The next picture is sent, with this reference.
    Send(Option<u32>),
    // All packets of a picture reach a receiver.
    Gets(u32),
    // It plays the next picture, with this mark.
    Plays(Mark),
    // Its message comes back.
    Says(u32),
    // It may play, a packet of this picture may reach it, this message of its may come back.
    MayPlay(bool),
    MayGet(u32, bool),
    MaySay(u32, bool),
}

// All packets of a picture reach a receiver.
fn bring(cast: &Broadcast, viewer: &mut Viewer, number: u32) {
    'packets: for place in 0..cast.count(number) {
        if viewer.told() < 1000 {
            viewer.deliver(cast, number, place);
        }
    }
}

// It plays the next picture. Whether with this mark.
fn plays(viewer: &mut Viewer, mark: Mark) -> bool {
    let tally = viewer.tally();
    if 1000 < tally.exact || 1000 < tally.patched {
        return false;
    }
    if 1000 < tally.held || 1000 < viewer.played() {
        return false;
    }
    if 1000 < viewer.told() {
        return false;
    }
    viewer.play().mark == mark
}

// A message of the receiver at this place comes back. Whether there is one.
fn says(cast: &mut Broadcast, place: u32, viewer: &Viewer, message: u32) -> bool
    requires place { place < 16 }
    requires ready { IsCasting cast.old }
    ensures ready { IsCasting cast.new }
    ensures params { params_in cast.new ≡ params_in cast.old }
{
    match viewer.message(message) {
        Some((_, said)) => {
            cast.hear(place, said.text());
            true
        }
        None => false,
    }
}

// The next picture is sent. Whether it has this reference.
fn sends(cast: &mut Broadcast, wanted: Option<u32>) -> bool
    requires format { (params_in cast.old).format ≡ SubQcif }
    requires ready { IsCasting cast.old }
    ensures ready { IsCasting cast.new }
    ensures params { params_in cast.new ≡ params_in cast.old }
{
    if 1000 < cast.sent() {
        return false;
    }
    let frame = [100; 18_432];
    let number = cast.send(PictureRef::new(Format::SubQcif, &frame));
    cast.reference_of(number) == wanted
}

// Whether a packet of this picture may reach the receiver.
fn may_get(cast: &Broadcast, viewer: &Viewer, number: u32) -> bool {
    if 1000 < cast.sent() {
        return false;
    }
    check_number(PARAMS.clock.half(), number, cast, viewer).is_ok()
}

// Whether an act of the receiver at this place comes out as wanted.
fn is_right(cast: &mut Broadcast, place: u32, viewer: &mut Viewer, act: Act) -> bool
    requires place { place < 16 }
    requires format { (params_in cast.old).format ≡ SubQcif }
    requires ready { IsCasting cast.old }
    ensures ready { IsCasting cast.new }
    ensures params { params_in cast.new ≡ params_in cast.old }
{
    match act {
        Act::Send(wanted) => sends(cast, wanted),
        Act::Gets(number) => {
            bring(cast, viewer, number);
            true
        }
        Act::Plays(mark) => plays(viewer, mark),
        Act::Says(message) => says(cast, place, viewer, message),
        Act::MayPlay(wanted) => check_shown(cast, viewer).is_ok() == wanted,
        Act::MayGet(number, wanted) => may_get(cast, viewer, number) == wanted,
        Act::MaySay(message, wanted) => {
            let half = PARAMS.clock.half();
            check_message(half, message, cast, viewer).is_ok() == wanted
        }
    }
}

// Whether an act comes out as wanted. Those of the first receiver are at place 0.
fn is_right_of(
    cast: &mut Broadcast,
    first: &mut Viewer,
    second: &mut Viewer,
    place: u32,
    act: Act,
) -> bool
    requires format { (params_in cast.old).format ≡ SubQcif }
    requires ready { IsCasting cast.old }
    ensures ready { IsCasting cast.new }
    ensures params { params_in cast.new ≡ params_in cast.old }
{
    if place == 0 {
        return is_right(cast, 0, first, act);
    }
    is_right(cast, 1, second, act)
}

// The place of the first act that comes out otherwise.
fn first_wrong(
    cast: &mut Broadcast,
    first: &mut Viewer,
    second: &mut Viewer,
    acts: &[(u32, Act)],
) -> Option<usize>
    requires format { (params_in cast.old).format ≡ SubQcif }
    requires ready { IsCasting cast.old }
{
    'acts: for at in 0..acts.len() {
        let (place, act) = acts[at];
        if !is_right_of(cast, first, second, place, act) {
            return Some(at);
        }
    }
    None
}

// The second receiver loses picture 1, and holds picture 0 in its place. No later picture refers to
// picture 1 until it plays what it was sent since; what the first one shows is exact throughout.
static TWO: [(u32, Act); 33] = [
    (0, Act::MayPlay(false)),
    (0, Act::MayGet(0, false)),
    (0, Act::Send(None)),
    (0, Act::MayGet(0, true)),
    (0, Act::MaySay(0, false)),
    (0, Act::Gets(0)),
    (0, Act::MaySay(0, true)),
    (0, Act::Says(0)),
    (0, Act::Plays(Mark::Exact)),
    // the second one hasn't said that it has picture 0
    (0, Act::Send(None)),
    (1, Act::Gets(0)),
    (1, Act::Says(0)),
    (0, Act::Send(Some(0))),
    (0, Act::Gets(1)),
    (0, Act::Says(1)),
    (0, Act::Plays(Mark::Exact)),
    (1, Act::Plays(Mark::Exact)),
    (1, Act::Plays(Mark::Held)),
    (1, Act::MaySay(1, true)),
    (1, Act::Says(1)),
    // picture 1 is lost to the second one, so both have picture 0 alone
    (0, Act::Send(Some(0))),
    (0, Act::Gets(2)),
    (0, Act::Says(2)),
    (1, Act::Gets(2)),
    (1, Act::Says(2)),
    (0, Act::Plays(Mark::Exact)),
    (1, Act::Plays(Mark::Exact)),
    (0, Act::Send(Some(2))),
    (1, Act::Gets(4)),
    (1, Act::Gets(3)),
    (1, Act::Plays(Mark::Exact)),
    (1, Act::Plays(Mark::Exact)),
    (1, Act::MayPlay(false)),
];

// What comes of these acts.
fn pass(
    alloc: Global,
    first: &mut Viewer,
    second: &mut Viewer,
) -> Result<Option<usize>, OutOfMemory> {
    let mut cast = Broadcast::start(alloc, &PARAMS, 256)?;
    cast.join(0);
    cast.join(1);
    let wrong = first_wrong(&mut cast, first, second, &TWO);
    cast.finish();
    Ok(wrong)
}

// The same with the second receiver.
fn pass_of_two(alloc: Global, first: &mut Viewer) -> Result<Option<usize>, OutOfMemory> {
    let mut second = Viewer::start(alloc, &PARAMS)?;
    let wrong = pass(alloc, first, &mut second);
    second.finish();
    wrong
}

#[test]
fn two_receivers(rt: HostRuntime) -> Result<(), Fail> {
    let mut first = Viewer::start(rt.alloc(), &PARAMS)?;
    let wrong = pass_of_two(rt.alloc(), &mut first);
    first.finish();
    assert!(rt; wrong?.is_none());
    Ok(())
}
