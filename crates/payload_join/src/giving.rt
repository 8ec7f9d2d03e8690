//! The parts of a unit whose coded bytes lie in the room of the ring, given one after the other.
ghost use Rattle.std.specs.Prelude.{◌≡◌, ℕ, ◌+◌, ◌-◌, ◌<◌, ◌≤◌, ◌++◌, [], ◌∷◌, true, false, ◌^◌, length, take, drop, is_some, IsNone, IfSome};
ghost use Rattle.h263_types.specs.declared.format.Format.{Format};
ghost use Rattle.payload_join.specs.Packet.{bytes_between};
ghost use Rattle.payload_join.specs.Split.{split_of};
ghost use Rattle.payload_join.specs.Outgoing.{begins_picture, coded_from, out_by, outgoing_of};
ghost use Rattle.payload_join.specs.Places.{place_at};
ghost use Rattle.payload_join.specs.Units.{IsWholeUnit};
ghost use Rattle.payload_join.specs.Fronts.{bytes_of_front};
ghost use Rattle.payload_join.specs.Giving.{IsGiving, left_in, left_of_unit};

use crate::front::{EMPTY, Front, find_end, front_with, padded_front};
use crate::ring::HeldPackets;
use crate::split::first_cut;
use crate::units::Span;
use h263_types::Format;

// The coded bytes lie from here on, so that RTP's header, the payload header and 63 bytes of a
// picture header fit before them.
const START: usize = 77;

// What is left to be given of a unit.
#[derive(Clone, Copy)]
pub(crate) struct Giving {
    pub(crate) is_left: bool,
    // Whether the coded bytes are split.
    pub(crate) splits: bool,
    // Where in the room they are, without those that were given.
    pub(crate) at: usize,
    pub(crate) to: usize,
    // What stands before the next part, and of each after that.
    pub(crate) front: Front,
    pub(crate) other: Front,
}

// Where the next part ends, if others come after it.
fn part_end(room: &[u8], giving: &Giving) -> Option<usize>
    requires is { IsGiving giving.now }
    requires size { length room.now ≡ 65535 }
    ensures none { let coded = bytes_between room.now giving.now.at giving.now.to in
        IsNone result → left_of_unit giving.now coded
        ≡ (bytes_of_front giving.now.front ++ coded) ∷ [] }
    ensures splits { IfSome result (λ _. giving.now.splits ≡ true) }
    ensures there { IfSome result (λ len. giving.now.at + len + 2 < giving.now.to) }
    ensures some { let coded = bytes_between room.now giving.now.at giving.now.to in
        IfSome result (λ len. split_of coded ≡ take len coded ∷ split_of (drop (len + 2) coded)) }
{
    if !giving.splits {
        return None;
    }
    first_cut(&room[giving.at..giving.to])
}

// The next outgoing packet is built, and lies in the room between these places.
pub(crate) fn build(ring: &mut HeldPackets, giving: &mut Giving) -> (usize, usize)
    requires left { giving.old.is_left ≡ true }
    requires is { IsGiving giving.old }
    ensures packet { left_in giving.old ring.old.room
        ≡ bytes_between ring.new.room result.0 result.1 ∷ left_in giving.new ring.new.room }
    ensures is { IsGiving giving.new }
    ensures order { result.0 ≤ result.1 }
    ensures end { result.1 ≤ 65535 }
    ensures top { ring.new.top ≡ ring.old.top }
    ensures packets { ring.new.packets ≡ ring.old.packets }
{
    let end = part_end(ring.room(), giving);
    let from = giving.at - giving.front.len;
    ring.write(from, &giving.front.bytes[..giving.front.len]);
    match end {
        Some(len) => {
            let to = giving.at + len;
            giving.at = to + 2;
            giving.front = giving.other;
            (from, to)
        }
        None => {
            giving.is_left = false;
            (from, giving.to)
        }
    }
}

// The coded bytes of so many packets are copied into the room, up to the place that is answered.
fn gather(ring: &mut HeldPackets, number: u32, count: u32) -> usize
    requires count { count ≤ 64 }
    requires fits { number + count < 2 ^ 32 }
    requires short { length (coded_from (place_at ring.old.packets) number count) ≤ 65400 }
    ensures coded { bytes_between ring.new.room 77 result
        ≡ coded_from (place_at ring.old.packets) number count }
    ensures end { result ≡ 77 + length (coded_from (place_at ring.old.packets) number count) }
    ensures top { ring.new.top ≡ ring.old.top }
    ensures packets { ring.new.packets ≡ ring.old.packets }
{
    let _size = ring.room().len();
    let mut at = START;
    'packets: for k in 0..count {
        at = ring.copy_coded(number + k, at);
    }
    at
}

impl Giving {
    // Nothing is left.
    pub(crate) const fn none() -> Giving
        ensures none { result.is_left ≡ false }
        ensures is { IsGiving result }
    {
        Giving {
            is_left: false,
            splits: false,
            at: START,
            to: START,
            front: EMPTY,
            other: EMPTY,
        }
    }

    // All of a unit is left, whose coded bytes lie in the room up to a place.
    fn all(to: usize, splits: bool, front: Front, other: Front) -> Giving
        ensures { result ≡ record {
          is_left = true;
          splits = splits;
          at = 77;
          to = to;
          front = front;
          other = other;
        } }
    {
        Giving {
            is_left: true,
            splits,
            at: START,
            to,
            front,
            other,
        }
    }
}

// The coded bytes of a whole unit are laid into the room: all that goes out of it is left.
pub(crate) fn lay(ring: &mut HeldPackets, unit: Span, format: Format) -> Giving
    requires { IsWholeUnit ring.old.packets unit }
    ensures left { left_in result ring.new.room
        ≡ outgoing_of format (place_at ring.old.packets) unit.number unit.follow }
    ensures is_left { result.is_left ≡ true }
    ensures is { IsGiving result }
    ensures top { ring.new.top ≡ ring.old.top }
    ensures packets { ring.new.packets ≡ ring.old.packets }
{
    let to = gather(ring, unit.number, unit.follow + 1);
    fronts(ring, unit.number, to, format)
}

// Whether the first two bits begin a picture.
fn begins_picture(coded: &[u8]) -> bool
    ensures { result ≡ begins_picture coded.now }
{
    match coded.first() {
        Some(byte) => byte / 64 == 2,
        None => false,
    }
}

// The fronts of a unit whose coded bytes lie in the room up to a place, and whose first packet has
// a number.
fn fronts(ring: &HeldPackets, number: u32, to: usize, format: Format) -> Giving
    requires order { 77 ≤ to }
    requires short { to ≤ 65477 }
    requires there { is_some (place_at ring.now.packets number) ≡ true }
    ensures left { left_in result ring.now.room
        ≡ out_by format (bytes_between ring.now.room 77 to) (place_at ring.now.packets number) }
    ensures is_left { result.is_left ≡ true }
    ensures is { IsGiving result }
{
    let Some(first) = ring.seen(number) else {
        // A whole unit is held.
        return Giving::all(to, false, EMPTY, EMPTY);
    };
    let coded = &ring.room()[START..to];
    if first.plen > 0 {
        let each = front_with(
            first.sequence,
            first.timestamp,
            ring.extra(number),
            first.pebit,
        );
        return Giving::all(to, true, each, each);
    }
    let plain = front_with(first.sequence, first.timestamp, &[], 0);
    if !begins_picture(coded) {
        return Giving::all(to, true, plain, plain);
    }
    if first_cut(coded).is_none() {
        return Giving::all(to, true, plain, plain);
    }
    match find_end(coded, format) {
        Some(bits) => {
            let other = padded_front(first.sequence, first.timestamp, coded, bits);
            Giving::all(to, true, plain, other)
        }
        None => Giving::all(to, false, plain, plain),
    }
}
