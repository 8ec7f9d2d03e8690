//! A stream of one picture, as another program writes it.
use h263_types::{Format, Mark, Params};
use receiver_end::Heard;
use std::test::Fail;
use stream_numbers::{Packet, Rate};
use stream_run::{Arrived, StreamRun};
use test_fixtures::codec::FLAT_PACKET;

const MILLISECOND: u64 = 1_000_000;

const RATE: Rate = Rate {
    period: 256,
    rate: 30_000,
    second: 1_001,
};

const PACKET: Packet = Packet {
    reference: 0,
    sequence: 7,
    timestamp: 0,
};

// It is due a wait after it came, and late once it was played.
#[test]
fn one_picture(rt: HostRuntime) -> Result<(), Fail> {
    let params = Params::of(Format::SubQcif);
    let mut run = StreamRun::start(rt.alloc(), &params, RATE, 100 * MILLISECOND)?;
    let nothing = run.due();
    let heard = run.arrival(&PACKET, &FLAT_PACKET, 30 * MILLISECOND);
    let due = run.due();
    let first = run.next();
    let played = run.play();
    let late = run.arrival(&PACKET, &FLAT_PACKET, 200 * MILLISECOND);
    run.finish();
    assert!(rt; nothing.is_none());
    assert!(rt; matches!(&heard, Arrived::Heard(Heard::Completed(_))));
    assert!(rt; (due, first) == (Some(130 * MILLISECOND), 0));
    assert!(rt; (played.number, played.mark) == (0, Mark::Exact));
    assert!(rt; late == Arrived::Heard(Heard::Late));
    Ok(())
}
