//! Rings that wrap.
use back_messages::Said;
use call_rings::{MessageRing, SentPackets, laws};
use h263_types::OutOfMemory;
use std::alloc::Global;
use test_fixtures::answer::{Answer, NO_MEMORY, WRONG};

// Two of three pictures are kept. The second has no packet, and the first had more than the third.
fn three_pictures(alloc: Global) -> Result<[bool; 5], OutOfMemory> {
    laws::has_room();
    let bytes: [u8; 3] = [1, 2, 3];
    let mut ring = SentPackets::start(alloc, 2, 5, 2)?;
    let unbegun = ring.packet(0, 0).is_none();
    ring.begin();
    ring.push(&bytes);
    ring.push(&bytes[1..]);
    let first = ring.packet(0, 1) == Some(&bytes[1..]);
    ring.begin();
    ring.begin();
    ring.push(&bytes[2..]);
    let left = ring.count(0) == 0 && ring.packet(0, 0).is_none();
    let empty = ring.count(1) == 0;
    let third = ring.packet(2, 0) == Some(&bytes[2..]) && ring.packet(2, 1).is_none();
    Ok([unbegun, first, left, empty, third])
}

// Two messages more than are kept.
fn many_messages(alloc: Global) -> Result<[bool; 5], OutOfMemory> {
    let said = Said {
        bytes: [1, 2, 3, 0, 0],
        len: 3,
    };
    let mut ring = MessageRing::start(alloc)?;
    for about in 0..1026 {
        ring.push(about, said);
    }
    let left = ring.get(1).is_none();
    let oldest = ring.get(2) == Some((2, said));
    let newest = ring.get(1025) == Some((1025, said));
    let unsaid = ring.get(1026).is_none();
    Ok([left, oldest, newest, unsaid, ring.said() == 1026])
}

fn say_all(found: Result<[bool; 5], OutOfMemory>, answer: &mut Answer) {
    match found {
        Ok(found) => answer.say(&found.as_slice()),
        Err(OutOfMemory) => answer.why = NO_MEMORY,
    }
}

/// Answers a row of `call_rings.rows`: does the call of this name by the words after it.
pub fn answer(alloc: Global, call: &str, answer: &mut Answer) {
    match call {
        "three_pictures" => say_all(three_pictures(alloc), answer),
        "many_messages" => say_all(many_messages(alloc), answer),
        _ => answer.why = WRONG,
    }
}
