//! Streams whose way changes, packet by packet.
use playout_times::{Arrival, Times};
use std::process::Abort;

const MILLISECOND: u64 = 1_000_000;

const WAIT: u64 = 100 * MILLISECOND;

// A packet comes, by its times in milliseconds; then its picture is due.
fn hear(rt: &impl Abort, times: &mut Times, picture: u32, captured: u64, at: u64) -> Option<u64> {
    let arrival = Arrival {
        picture,
        captured: captured % 1_000_000 * MILLISECOND,
        at: at % 1_000_000 * MILLISECOND,
    };
    assert!(rt; times.may_come(&arrival));
    times.arrived(arrival);
    match times.due() {
        Some(time) => Some(time / MILLISECOND),
        None => None,
    }
}

// The next picture is played.
fn play(rt: &impl Abort, times: &mut Times) {
    assert!(rt; times.next() < 1_000_000);
    times.played();
}

// A picture a second, whose way is longer by a quarter of a second from the third one on.
#[test]
fn few_pictures_and_a_longer_way(rt: HostRuntime) {
    let table: [(u32, u64, u64, u64); 6] = [
        (0, 0, 30, 130),
        (1, 1_000, 1_030, 1_130),
        (2, 2_000, 2_280, 2_130),
        (3, 3_000, 3_280, 3_130),
        (4, 4_000, 4_280, 4_380),
        (5, 5_000, 5_280, 5_380),
    ];
    let mut times = Times::start(0, WAIT);
    for (picture, captured, at, due) in table {
        let told = hear(&rt, &mut times, picture, captured, at);
        assert!(rt; told == Some(due));
        play(&rt, &mut times);
    }
}

// Pictures that are lost, late, and ahead; a time that is ahead; nothing to play.
#[test]
fn lost_late_and_ahead(rt: HostRuntime) {
    let mut times = Times::start(7, WAIT);
    assert!(rt; times.due().is_none());
    let table: [(u32, u64, u64, Option<u64>); 6] = [
        (9, 1_000, 1_030, Some(1_130)),
        (8, 960, 1_040, Some(1_090)),
        (70, 900, 1_050, Some(1_030)),
        (9, 3_000, 1_060, Some(0)),
        (7, 1_040, 1_070, Some(0)),
        (2, 1_050, 1_080, Some(0)),
    ];
    for (picture, captured, at, due) in table {
        let told = hear(&rt, &mut times, picture, captured, at);
        assert!(rt; told == due);
    }
    assert!(rt; times.is_due(0));
}
