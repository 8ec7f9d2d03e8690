//! Packets whose numbers start anew.
use stream_numbers::{Numbers, Packet, Place, Rate};

// The time of a picture in ticks.
const PICTURE: u64 = 3_003;
// The first packet's time, shortly before the timestamps start anew.
const FIRST: u64 = 4_294_967_000;

// Packets by temporal reference, sequence number, ticks after the first one and arrival in
// milliseconds: the number of their picture, if it has a place.
#[test]
fn numbers_that_start_anew(rt: HostRuntime) {
    let table: [(u32, u16, u64, u64, Option<u32>); 7] = [
        (250, 65_535, 0, 0, Some(250)),
        (255, 3, 5 * PICTURE, 167, Some(255)),
        (0, 4, 6 * PICTURE, 200, Some(256)),
        (254, 2, 4 * PICTURE, 201, Some(254)),
        // The camera paused for ten seconds.
        (1, 5, 300 * PICTURE, 10_000, Some(257)),
        // Three hundred pictures were lost.
        (45, 305, 600 * PICTURE, 20_000, Some(557)),
        // Ninety pictures in ten milliseconds.
        (135, 306, 690 * PICTURE, 20_010, None),
    ];
    let mut numbers = Numbers::start(Rate {
        period: 256,
        rate: 30_000,
        second: 1_001,
    });
    for (reference, sequence, ticks, at, number) in table {
        let packet = Packet {
            reference,
            sequence,
            timestamp: ((FIRST + ticks % 10_000_000) % 4_294_967_296) as u32,
        };
        assert!(rt; packet.reference < numbers.period());
        let place = numbers.place(&packet, at % 100_000 * 1_000_000);
        let want = match number {
            Some(number) => Some(Place {
                number,
                captured: (4_294_967_296 + FIRST + ticks % 10_000_000) * 100_000 / 9,
            }),
            None => None,
        };
        assert!(rt; place == want);
    }
}
