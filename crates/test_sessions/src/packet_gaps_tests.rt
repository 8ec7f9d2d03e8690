//! Packets that are missing, and what is asked for.
use packet_gaps::{Gaps, Moment, Nack};
use std::process::Abort;

// What happens: a packet of a picture came; the pictures before this one were played; it is asked
// what to ask for, at this time.
#[derive(Clone, Copy)]
enum Event {
    Packet(u16, u32),
    Played(u32),
    Asked(u64, Option<Nack>),
}

// A round trip of 50 and a period of 33; picture 7 is due at 100.
fn happen(rt: &impl Abort, gaps: &mut Gaps, event: Event) {
    match event {
        Event::Packet(sequence, picture) => gaps.arrived(sequence, picture),
        Event::Played(next) => gaps.played(next),
        Event::Asked(time, nack) => {
            let moment = Moment {
                time,
                round_trip: 50,
                next: 7,
                due: 100,
                period: 33,
            };
            let asked = gaps.ask(&moment);
            assert!(rt; asked == nack);
        }
    }
}

const fn nack(packet: u16, following: u16) -> Option<Nack> {
    Some(Nack { packet, following })
}

// A packet that is missing is asked for twice, a round trip apart, while it can come in time.
#[test]
fn twice_in_time(rt: HostRuntime) {
    let events: [Event; 12] = [
        Event::Packet(9, 7),
        Event::Packet(11, 9),
        Event::Asked(0, nack(10, 0)),
        Event::Asked(0, None),
        Event::Asked(49, None),
        Event::Asked(50, nack(10, 0)),
        Event::Asked(100, None),
        Event::Packet(13, 9),
        Event::Asked(117, None),
        Event::Asked(116, nack(12, 0)),
        Event::Packet(15, 9),
        Event::Asked(117, None),
    ];
    let mut gaps = Gaps::new();
    for event in events {
        happen(&rt, &mut gaps, event);
    }
}

// The mask has the 16 packets after the first one; a repeat and a play end what is missing.
#[test]
fn masks_over_the_end(rt: HostRuntime) {
    let events: [Event; 10] = [
        Event::Packet(65_533, 7),
        Event::Packet(17, 8),
        Event::Packet(65_535, 7),
        Event::Packet(0, 8),
        Event::Asked(0, nack(65_534, 65_532)),
        Event::Asked(0, nack(15, 1)),
        Event::Asked(0, None),
        Event::Packet(65_534, 7),
        Event::Played(9),
        Event::Asked(50, None),
    ];
    let mut gaps = Gaps::new();
    for event in events {
        happen(&rt, &mut gaps, event);
    }
}

// The 64 nearest are kept; a packet half of 65,536 away is behind.
#[test]
fn nearest_are_kept(rt: HostRuntime) {
    let events: [Event; 8] = [
        Event::Packet(0, 7),
        Event::Packet(100, 7),
        Event::Packet(32_868, 7),
        Event::Asked(0, nack(36, 65_535)),
        Event::Asked(0, nack(53, 65_535)),
        Event::Asked(0, nack(70, 65_535)),
        Event::Asked(0, nack(87, 4_095)),
        Event::Asked(0, None),
    ];
    let mut gaps = Gaps::new();
    for event in events {
        happen(&rt, &mut gaps, event);
    }
}
