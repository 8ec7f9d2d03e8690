//! Streams of several senders, and what is granted of them.
use std::process::Abort;
use stream_choice::{Budget, Run, Streams, Taker};

const MILLISECOND: u64 = 1_000_000;

// What comes: a packet of a stream, and which run takes it; a complete picture; or a stream's end.
#[derive(Clone, Copy)]
enum Event {
    Packet(u32, Taker),
    Complete(Run),
    Ended(u32),
}

fn happen(rt: &impl Abort, streams: &mut Streams, event: Event, at: u64) {
    let now = at % 1_000_000 * MILLISECOND;
    match event {
        Event::Packet(source, taker) => {
            let taken = streams.packet(source, now);
            assert!(rt; taken == taker);
        }
        Event::Complete(run) => streams.completed(run, now),
        Event::Ended(source) => streams.ended(source, now),
    }
}

// A stranger is followed in a silence, and the stream that had more pictures returns.
#[test]
fn a_stranger_in_a_silence(rt: HostRuntime) {
    let events: [(u64, Event); 12] = [
        (0, Event::Packet(7, Taker::Begins)),
        (1, Event::Packet(7, Taker::Tried)),
        (2, Event::Complete(Run::Tried)),
        (33, Event::Packet(7, Taker::Followed)),
        (34, Event::Complete(Run::Followed)),
        (40, Event::Packet(9, Taker::NoRun)),
        (600, Event::Packet(9, Taker::Begins)),
        (610, Event::Complete(Run::Tried)),
        (620, Event::Packet(9, Taker::Followed)),
        (700, Event::Packet(7, Taker::Former)),
        (701, Event::Complete(Run::Former)),
        (702, Event::Packet(9, Taker::Former)),
    ];
    let mut streams = Streams::new();
    for (at, event) in events {
        happen(&rt, &mut streams, event, at);
    }
    assert!(rt; streams.followed() == Some(7));
}

// A stream that has ended makes way at once. After a trial that failed its stream waits as long with
// ends as without.
#[test]
fn ends_of_streams(rt: HostRuntime) {
    let events: [(u64, Event); 12] = [
        (1_000, Event::Packet(7, Taker::Begins)),
        (1_001, Event::Complete(Run::Tried)),
        (1_010, Event::Ended(9)),
        (1_011, Event::Packet(9, Taker::NoRun)),
        (1_012, Event::Ended(7)),
        (1_013, Event::Packet(9, Taker::Begins)),
        (1_014, Event::Packet(7, Taker::Followed)),
        (1_600, Event::Ended(9)),
        (1_601, Event::Ended(7)),
        (1_602, Event::Packet(9, Taker::NoRun)),
        (2_012, Event::Packet(9, Taker::NoRun)),
        (2_013, Event::Packet(9, Taker::Begins)),
    ];
    let mut streams = Streams::new();
    for (at, event) in events {
        happen(&rt, &mut streams, event, at);
    }
    assert!(rt; streams.followed() == Some(7));
}

// A trial ends after a second, or half a second without a packet; then another has its turn.
#[test]
fn trials_in_turn(rt: HostRuntime) {
    let events: [(u64, Event); 8] = [
        (0, Event::Packet(7, Taker::Begins)),
        (499, Event::Packet(7, Taker::Tried)),
        (998, Event::Packet(7, Taker::Tried)),
        (1_000, Event::Packet(7, Taker::NoRun)),
        (1_000, Event::Packet(8, Taker::Begins)),
        (1_001, Event::Packet(7, Taker::NoRun)),
        (1_500, Event::Packet(8, Taker::NoRun)),
        (1_500, Event::Packet(7, Taker::Begins)),
    ];
    let mut streams = Streams::new();
    for (at, event) in events {
        happen(&rt, &mut streams, event, at);
    }
    assert!(rt; streams.followed().is_none());
}

// Two in each second of the clock.
#[test]
fn two_a_second(rt: HostRuntime) {
    let mut budget = Budget::of(2);
    assert!(rt; budget.grants(0));
    assert!(rt; budget.grants(1));
    assert!(rt; !budget.grants(999 * MILLISECOND));
    assert!(rt; budget.grants(1_000 * MILLISECOND));
}
