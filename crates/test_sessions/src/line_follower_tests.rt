//! Lines that are followed, picture by picture.
use line_follower::{Bounds, Follower};

const MILLISECOND: u64 = 1_000_000;

// Ten pictures a second, of 1,800 bytes at first.
fn start() -> Follower {
    let bounds = Bounds {
        first: 1_800,
        least: 60,
        most: 999_999,
        finest: 8,
        period: 100_000_000,
    };
    Follower::start(&bounds, 0)
}

// A picture of 1,800 bytes goes out, and so many milliseconds later a message about it comes.
fn send(follower: &mut Follower, number: u32, trip: u64, is_whole: bool) {
    let at = number as u64 * 100 * MILLISECOND;
    follower.sent(number, 1_800, 2, at);
    follower.told(number, is_whole, at + trip % 1_000 * MILLISECOND);
}

// So many pictures with such a round trip, and the rate after them.
type Row = (u32, u64, bool, u32);

fn rate_after(follower: &mut Follower, first: u32, row: Row) -> u32 {
    let (count, trip, is_whole, _) = row;
    let mut number = first;
    for _ in 0..count {
        send(follower, number, trip, is_whole);
        number = number % 1_000 + 1;
    }
    follower.rate()
}

// The round trip rises with each picture: the line is full, and gets 85 % of what came.
#[test]
fn a_full_line(rt: HostRuntime) {
    let table: [Row; 7] = [
        (12, 20, true, 21_948),
        (1, 26, true, 22_466),
        (1, 32, true, 22_997),
        (1, 38, true, 23_540),
        (1, 44, true, 24_096),
        (1, 50, true, 16_867),
        (1, 56, true, 16_867),
    ];
    let mut follower = start();
    let mut number = 0;
    for row in table {
        assert!(rt; rate_after(&mut follower, number, row) == row.3);
        number = number % 1_000 + row.0 % 1_000;
    }
}

// One message is late, and the rate grows on.
#[test]
fn one_late_message(rt: HostRuntime) {
    let table: [Row; 4] = [
        (12, 20, true, 21_948),
        (2, 20, true, 22_937),
        (1, 95, true, 23_832),
        (2, 20, true, 24_498),
    ];
    let mut follower = start();
    let mut number = 0;
    for row in table {
        assert!(rt; rate_after(&mut follower, number, row) == row.3);
        number = number % 1_000 + row.0 % 1_000;
    }
}

// Of eight pictures one is whole: three eighths of the rate are left, after a pause of 200 ms.
#[test]
fn most_pictures_are_lost(rt: HostRuntime) {
    let table: [Row; 3] = [
        (2, 20, true, 18_000),
        (6, 20, false, 18_000),
        (1, 20, false, 6_750),
    ];
    let mut follower = start();
    let mut number = 0;
    for row in table {
        assert!(rt; rate_after(&mut follower, number, row) == row.3);
        number = number % 1_000 + row.0 % 1_000;
    }
    assert!(rt; !follower.has_room(1_019 * MILLISECOND));
    assert!(rt; follower.has_room(1_020 * MILLISECOND));
}

// Messages about pictures that weren't sent, and second ones.
#[test]
fn messages_that_say_nothing(rt: HostRuntime) {
    let mut follower = start();
    let before = rate_after(&mut follower, 0, (8, 20, true, 0));
    for number in 0..8 {
        follower.told(number, false, 800 * MILLISECOND);
        follower.told(number + 256, false, 800 * MILLISECOND);
    }
    assert!(rt; (before, follower.rate()) == (20_096, 20_096));
}

// A picture that is ten times too large is made good: the next ones are to be small, and no frame
// goes out for 0.8 s.
#[test]
fn a_large_picture(rt: HostRuntime) {
    let mut follower = start();
    follower.sent(0, 18_000, 1, 0);
    assert!(rt; (follower.size(), follower.wanted()) == (1_800, 60));
    assert!(rt; (follower.quant(), follower.target()) == (11, 10_285));
    assert!(rt; !follower.has_room(801 * MILLISECOND));
    assert!(rt; follower.has_room(802 * MILLISECOND));
}

// Three pictures come ever later, and less than half of the rate comes whole: with the third one that
// isn't whole a quarter is left, after a pause of 200 ms.
#[test]
fn a_choked_line(rt: HostRuntime) {
    let mut follower = start();
    assert!(rt; rate_after(&mut follower, 0, (8, 20, true, 0)) == 20_096);
    for number in 8..14 {
        follower.sent(number, 1_800, 2, number as u64 * 100 * MILLISECOND);
    }
    follower.told(8, false, 1_250 * MILLISECOND);
    assert!(rt; (follower.rate(), follower.quant()) == (20_096, 13));
    follower.told(9, false, 1_600 * MILLISECOND);
    assert!(rt; (follower.rate(), follower.quant()) == (20_096, 13));
    follower.told(10, false, 1_900 * MILLISECOND);
    assert!(rt; (follower.rate(), follower.quant()) == (5_024, 24));
    assert!(rt; !follower.has_room(2_099 * MILLISECOND));
    assert!(rt; follower.has_room(2_100 * MILLISECOND));
}

// Of a picture that went out at 400 ms nothing is told: a frame waits from 570 ms on, until something
// is told of a later one, or 200 ms after the last one went out.
#[test]
fn a_frame_waits(rt: HostRuntime) {
    let mut follower = start();
    assert!(rt; rate_after(&mut follower, 0, (4, 20, true, 0)) == 18_401);
    follower.sent(4, 600, 1, 400 * MILLISECOND);
    follower.sent(5, 600, 1, 500 * MILLISECOND);
    assert!(rt; follower.has_room(570 * MILLISECOND));
    assert!(rt; !follower.has_room(571 * MILLISECOND));
    assert!(rt; !follower.has_room(699 * MILLISECOND));
    assert!(rt; follower.has_room(700 * MILLISECOND));
    follower.told(5, true, 580 * MILLISECOND);
    assert!(rt; follower.has_room(581 * MILLISECOND));
}
