//! Packets that are kept, and what is found of them.
use packet_repeats::{Repeats, laws};
use std::process::Abort;
use std::test::Fail;

// A packet of 13 bytes, with this sequence number and this last byte.
fn packet(sequence: u16, last: u8) -> [u8; 13] {
    let [high, low] = sequence.to_be_bytes();
    [128, 96, high, low, 0, 0, 0, 0, 72, 50, 54, 51, last]
}

// The last byte of the packet that is found, and 0 where none is.
fn last(repeats: &Repeats, sequence: u16) -> u8 {
    let Some(packet) = repeats.find(sequence) else {
        return 0;
    };
    match packet.last() {
        None => 0,
        Some(byte) => *byte,
    }
}

// Three are asked for, so four are kept: also where the numbers begin again. A packet that comes
// again takes the place of the one before.
#[test]
fn the_last_four(rt: HostRuntime) -> Result<(), Fail> {
    laws::newest();
    laws::sent();
    laws::kept();
    laws::bounded();
    let mut repeats = Repeats::start(rt.alloc(), 3, 13)?;
    assert!(rt; last(&repeats, 65_534) == 0);
    repeats.keep(&packet(65_533, 1));
    repeats.keep(&packet(65_534, 2));
    repeats.keep(&packet(65_535, 3));
    repeats.keep(&packet(0, 4));
    repeats.keep(&packet(1, 5));
    repeats.keep(&packet(65_535, 6));
    let found = [
        last(&repeats, 65_533),
        last(&repeats, 65_534),
        last(&repeats, 65_535),
        last(&repeats, 0),
        last(&repeats, 1),
        last(&repeats, 4),
    ];
    assert!(rt; found == [0, 2, 6, 4, 5, 0]);
    repeats.finish();
    Ok(())
}

// A packet has 12 bytes at least, and here 13 at most.
#[test]
fn short_and_long_ones_are_not_kept(rt: HostRuntime) -> Result<(), Fail> {
    let mut repeats = Repeats::start(rt.alloc(), 1, 13)?;
    let long: [u8; 14] = [128, 96, 0, 8, 0, 0, 0, 0, 72, 50, 54, 51, 9, 9];
    repeats.keep(&packet(7, 1));
    repeats.keep(&packet(9, 2)[..11]);
    repeats.keep(&long);
    assert!(rt; (last(&repeats, 7), last(&repeats, 8), last(&repeats, 9)) == (1, 0, 0));
    repeats.keep(&packet(9, 3)[..12]);
    assert!(rt; repeats.find(7).is_none());
    let short: Option<&[u8]> = Some(&[128, 96, 0, 9, 0, 0, 0, 0, 72, 50, 54, 51]);
    assert!(rt; repeats.find(9) == short);
    repeats.finish();
    Ok(())
}
