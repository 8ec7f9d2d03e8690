//! Three receivers, each of which loses other pictures: each shows exactly what it got.
ghost use Rattle.std.specs.Prelude.{◌≡◌, ◌<◌, ◌≤◌, ◌+◌, true, IfOk, length};
ghost use Rattle.h263_types.specs.declared.format.Format.TheVariants.{SubQcif};

use back_messages::Said;
use group_sender::Group;
use h263_planes::PictureRef;
use h263_types::{Clock, FixedPace, Format, Mark, OutOfMemory, Params};
use receiver_end::Receiver;
use std::alloc::Global;
use std::test::Fail;

const PARAMS: Params = Params {
    format: Format::SubQcif,
    quant: 8,
    keep: 64,
    radius: 1,
    limit: 1400,
    slots: 6,
    lead: 1,
    messages: 2,
    clock: Clock::Standard,
};

// How many pictures were coded when the third receiver joins.
const LATER: u32 = 5;

const PICTURES: u32 = 24;

struct Three {
    first: Receiver,
    second: Receiver,
    third: Receiver,
}

// Brings all packets of the last picture. Answers the message that the receiver says when it is
// complete.
fn carry(group: &Group<FixedPace>, receiver: &mut Receiver, count: u32) -> Option<Said>
    requires { count ≡ length group.now.sender.packets }
    ensures { receiver.new.played ≡ receiver.old.played }
{
    let mut said = None;
    'packets: for i in 0..count {
        if let Some(message) = receiver.packet(group.packet(i)).message() {
            said = Some(message);
        }
    }
    said
}

// Whether the picture on the screen is the one that was coded.
fn is_shown(group: &Group<FixedPace>, receiver: &Receiver) -> bool
    requires some { 0 < group.now.sender.sent }
    requires drawn { group.now.sender.draws_all ≡ true }
{
    group.recon().bytes() == receiver.shown().bytes()
}

// A receiver's turn with the last picture, which comes unless it is lost; what the receiver says
// goes back. Whether it shows the picture exactly where that came, and only there.
fn turn(
    group: &mut Group<FixedPace>,
    place: u32,
    receiver: &mut Receiver,
    count: u32,
    lost: bool,
) -> bool
    requires place { place < 16 }
    requires count { count ≡ length group.old.sender.packets }
    requires some { 0 < group.old.sender.sent }
    requires drawn { group.old.sender.draws_all ≡ true }
    requires left { receiver.old.played < 1048576 }
    ensures sender { group.new.sender ≡ group.old.sender }
    ensures params { group.new.params ≡ group.old.params }
    ensures played { receiver.new.played ≡ receiver.old.played + 1 }
{
    if !lost {
        if let Some(message) = carry(group, receiver, count) {
            group.feedback(place, message.text());
        }
    }
    let played = receiver.play();
    if let Some(message) = played.message {
        group.feedback(place, message.text());
    }
    let is_exact = played.mark == Mark::Exact;
    if lost {
        return !is_exact;
    }
    is_exact && is_shown(group, receiver)
}

// Whether the receiver at this place loses this picture.
fn loses(place: u32, number: u32) -> bool
    requires number { number ≤ 100 }
    requires few { place ≤ 2 }
{
    (number + 3 * place) % 7 == 2 || number % 11 == 9
}

// A picture is coded, and each receiver that is there has its turn. Whether all went as wanted.
fn is_right(group: &mut Group<FixedPace>, three: &mut Three, number: u32) -> bool
    requires number { number < 24 }
    requires format { group.old.params.format ≡ SubQcif }
    requires sent { group.old.sender.sent < 1000 }
    requires drawn { group.old.sender.draws_all ≡ true }
    requires first { three.old.first.played < 1000 }
    requires second { three.old.second.played < 1000 }
    requires third { three.old.third.played < 1000 }
    ensures format { group.new.params.format ≡ SubQcif }
    ensures sent { group.new.sender.sent ≤ group.old.sender.sent + 1 }
    ensures drawn { group.new.sender.draws_all ≡ true }
    ensures first { three.new.first.played ≤ three.old.first.played + 1 }
    ensures second { three.new.second.played ≤ three.old.second.played + 1 }
    ensures third { three.new.third.played ≤ three.old.third.played + 1 }
{
    let frame = [100 + 5 * number as u8; 18_432];
    let coded = group.code(PictureRef::new(Format::SubQcif, &frame), &[]);
    let first = turn(group, 0, &mut three.first, coded.packets, loses(0, number));
    let second = turn(group, 1, &mut three.second, coded.packets, loses(1, number));
    if number < LATER {
        return first && second;
    }
    let third = turn(group, 2, &mut three.third, coded.packets, loses(2, number));
    first && second && third
}

// The first picture of which something went otherwise.
fn first_wrong(group: &mut Group<FixedPace>, three: &mut Three) -> Option<u32>
    requires format { group.old.params.format ≡ SubQcif }
    requires sent { group.old.sender.sent ≡ 0 }
    requires drawn { group.old.sender.draws_all ≡ true }
    requires first { three.old.first.played ≡ 0 }
    requires second { three.old.second.played ≡ 0 }
    requires third { three.old.third.played ≡ 5 }
{
    group.join(0);
    group.join(1);
    'pictures: for number in 0..PICTURES {
        if number == LATER {
            group.join(2);
        }
        if !is_right(group, three, number) {
            return Some(number);
        }
    }
    None
}

impl Three {
    // The third one joins later.
    fn start(alloc: Global) -> Result<Three, OutOfMemory>
        ensures first { IfOk result (λ three. three.first.played ≡ 0) }
        ensures second { IfOk result (λ three. three.second.played ≡ 0) }
        ensures third { IfOk result (λ three. three.third.played ≡ 5) }
    {
        let first = Receiver::start(alloc, &PARAMS)?;
        match Receiver::start(alloc, &PARAMS) {
            Err(OutOfMemory) => {
                first.finish();
                Err(OutOfMemory)
            }
            Ok(second) => match Receiver::start_at(alloc, &PARAMS, LATER) {
                Err(OutOfMemory) => {
                    first.finish();
                    second.finish();
                    Err(OutOfMemory)
                }
                Ok(third) => Ok(Three {
                    first,
                    second,
                    third,
                }),
            },
        }
    }

    fn finish(self) {
        let Three {
            first,
            second,
            third,
        } = self;
        first.finish();
        second.finish();
        third.finish();
    }
}

// The answer of a whole call.
fn pass(alloc: Global, three: &mut Three) -> Result<Option<u32>, OutOfMemory>
    requires first { three.old.first.played ≡ 0 }
    requires second { three.old.second.played ≡ 0 }
    requires third { three.old.third.played ≡ 5 }
{
    let mut group = Group::start(alloc, &PARAMS, FixedPace { quant: 8 })?;
    let wrong = first_wrong(&mut group, three);
    group.finish();
    Ok(wrong)
}

#[test]
fn each_shows_what_it_got(rt: HostRuntime) -> Result<(), Fail> {
    let mut three = Three::start(rt.alloc())?;
    let wrong = pass(rt.alloc(), &mut three);
    three.finish();
    assert!(rt; wrong?.is_none());
    Ok(())
}
