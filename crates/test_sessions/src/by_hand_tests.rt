//! Which reference each picture has, by who is there and what was said.
ghost use Rattle.std.specs.Prelude.{◌≡◌, ◌<◌, ◌≤◌, ◌+◌, IfOk};
ghost use Rattle.h263_types.specs.declared.format.Format.TheVariants.{SubQcif};

use group_sender::Group;
use h263_planes::PictureRef;
use h263_types::{Clock, FixedPace, Format, Params};
use std::test::Fail;

// What is done, and what is wanted of it.
#[derive(Clone, Copy)]
enum Step {
    Join(u32),
    Leave(u32),
    // The receiver acknowledges a picture. Whether it is listened to.
    Has(u32, u8, bool),
    // A picture is coded, with this reference.
    Code(Option<u32>),
    // Who is waited for.
    Waits(Option<u32>),
}

// A window of three pictures.
const PARAMS: Params = Params {
    format: Format::SubQcif,
    quant: 8,
    keep: 64,
    radius: 1,
    limit: 1400,
    slots: 6,
    lead: 2,
    messages: 1,
    clock: Clock::Standard,
};

// An ACK of one of the first 32 pictures.
fn ack(number: u8) -> [u8; 3] {
    [0xC0, number % 32 * 8 + 4, number % 32]
}

// Whether a step answers what is wanted.
fn is_right(group: &mut Group<FixedPace>, step: Step) -> bool
    requires format { group.old.params.format ≡ SubQcif }
    requires left { group.old.sender.sent < 1048576 }
    ensures format { group.new.params.format ≡ SubQcif }
    ensures sent { group.new.sender.sent ≤ group.old.sender.sent + 1 }
{
    let frame = [100; 18_432];
    match step {
        Step::Join(receiver) => {
            group.join(receiver % 16);
            true
        }
        Step::Leave(receiver) => {
            group.leave(receiver % 16);
            true
        }
        Step::Has(receiver, number, wanted) => {
            group.feedback(receiver % 16, &ack(number)).is_some() == wanted
        }
        Step::Code(wanted) => {
            let coded = group.code(PictureRef::new(Format::SubQcif, &frame), &[]);
            coded.reference == wanted
        }
        Step::Waits(wanted) => group.waiting_for() == wanted,
    }
}

// The place of the first step that answers something else.
fn first_wrong(group: &mut Group<FixedPace>, steps: &[Step]) -> Option<usize>
    requires format { group.old.params.format ≡ SubQcif }
    requires none { group.old.sender.sent ≡ 0 }
{
    'steps: for place in 0..steps.len() {
        if place >= 1000 {
            return Some(place);
        }
        if !is_right(group, steps[place]) {
            return Some(place);
        }
    }
    None
}

// Three receivers: a picture that one lacks is no reference; one that leaves frees what the others
// have; one that joins has nothing of what came before, whatever it says.
static THREE: [Step; 39] = [
    Step::Waits(None),
    Step::Join(0),
    Step::Join(1),
    Step::Join(2),
    Step::Waits(Some(0)),
    Step::Code(None),
    Step::Has(0, 0, true),
    Step::Has(1, 0, true),
    Step::Waits(Some(2)),
    Step::Code(None),
    Step::Has(2, 0, true),
    Step::Waits(None),
    Step::Code(Some(0)),
    Step::Has(0, 2, true),
    Step::Has(1, 1, true),
    Step::Has(2, 2, true),
    Step::Code(Some(0)),
    Step::Has(1, 2, true),
    Step::Code(Some(2)),
    Step::Has(0, 4, true),
    Step::Code(Some(2)),
    Step::Code(None),
    Step::Waits(Some(1)),
    Step::Leave(1),
    Step::Has(1, 6, false),
    Step::Has(2, 4, true),
    Step::Code(Some(4)),
    Step::Join(1),
    Step::Has(1, 7, true),
    Step::Has(0, 7, true),
    Step::Has(2, 7, true),
    Step::Code(None),
    Step::Waits(Some(1)),
    Step::Has(1, 8, true),
    Step::Has(0, 8, true),
    Step::Has(2, 8, true),
    Step::Waits(None),
    Step::Code(Some(8)),
    Step::Has(3, 9, false),
];

#[test]
fn three_receivers(rt: HostRuntime) -> Result<(), Fail> {
    let mut group = Group::start(rt.alloc(), &PARAMS, FixedPace { quant: 8 })?;
    let wrong = first_wrong(&mut group, &THREE);
    group.finish();
    assert!(rt; wrong.is_none());
    Ok(())
}

// With nobody there, each picture refers to the one before it; one receiver alone is as with a
// sender.
static ALONE: [Step; 9] = [
    Step::Code(None),
    Step::Code(Some(0)),
    Step::Join(15),
    Step::Code(None),
    Step::Has(15, 2, true),
    Step::Code(Some(2)),
    Step::Leave(15),
    Step::Code(Some(3)),
    Step::Waits(None),
];

#[test]
fn nobody_and_one(rt: HostRuntime) -> Result<(), Fail> {
    let mut group = Group::start(rt.alloc(), &PARAMS, FixedPace { quant: 8 })?;
    let wrong = first_wrong(&mut group, &ALONE);
    group.finish();
    assert!(rt; wrong.is_none());
    Ok(())
}
