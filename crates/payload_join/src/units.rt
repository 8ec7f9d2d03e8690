//! Whole units among the packets that are held, from the newest packet outwards.
ghost use Rattle.std.specs.Prelude.{◌≡◌, ℕ, ◌+◌, ◌-◌, ◌%◌, ◌^◌, ◌*◌, ◌<◌, ◌≤◌, ◌++◌, List, Option, None, length, true, not, nat_le, nat_eq, ◌||◌, ◌&&◌, IsNone, IfSome};
ghost use Rattle.h263_types.specs.declared.format.Format.{Format};
ghost use Rattle.payload_join.specs.Packet.{Packet};
ghost use Rattle.payload_join.specs.Unit.{begins_one, is_marked, unit_at};
ghost use Rattle.payload_join.specs.Outgoing.{coded_from};
ghost use Rattle.payload_join.specs.Places.{place_at, window_packet};
ghost use Rattle.payload_join.specs.Units.{IsBefore, IsFirstUnit, IsSecond, IsWholeIf, number_by, out_made, unit_left};

use crate::ring::HeldPackets;

// More coded bytes than these are not given.
const MOST: u32 = 65_400;

// A whole unit: the number of its first packet, and how many follow.
#[derive(Clone, Copy)]
pub(crate) struct Span {
    pub(crate) number: u32,
    pub(crate) follow: u32,
}

// The unit that the packets before a number are in: its first packet, where all after that follow
// on. `low` is the least number that may be held.
pub(crate) fn start_before(ring: &HeldPackets, low: u32, number: u32) -> Option<u32>
    requires { low ≤ number }
    ensures some { IfSome result (IsBefore ring.now.packets low number) }
    ensures none { IsNone result → (x : ℕ) → IsBefore ring.now.packets low number x → ⊥ }
{
    'back: for back in 0..number - low {
        let at = number - 1 - back;
        if ring.begins(at) {
            return Some(at);
        }
        if !ring.follows(at) {
            return None;
        }
    }
    None
}

// How many packets follow in the whole unit that a packet begins, if there is one. `last` is the
// greatest number.
pub(crate) fn unit_from(ring: &HeldPackets, first: u32, last: u32) -> Option<u32>
    requires order { first ≤ last }
    requires few { last < first + 64 }
    requires fits { last < 2 ^ 31 }
    ensures exact { result ≡ unit_at (window_packet ring.now.packets last) first }
    ensures upto { IfSome result (λ follow. first + follow ≤ last) }
{
    if !ring.begins(first) {
        return None;
    }
    'next: for follow in 0..last - first {
        if ring.is_marked(first + follow) {
            return Some(follow);
        }
        if ring.begins(first + follow + 1) {
            return Some(follow);
        }
        if !ring.follows(first + follow + 1) {
            return None;
        }
    }
    if ring.is_marked(last) {
        return Some(last - first);
    }
    None
}

// How many coded bytes so many packets have.
fn coded_len(ring: &HeldPackets, number: u32, count: u32) -> u32
    requires few { count ≤ 64 }
    requires fits { number + count < 2 ^ 32 }
    ensures { result ≡ length (coded_from (place_at ring.now.packets) number count) }
{
    let mut len = 0;
    'packets: for k in 0..count {
        len += ring.coded_len(number + k);
    }
    len
}

// Whether the packet of a number makes a unit whole whose last packet is that of `end`: it is in
// it, or begins the next one where there is no marker.
fn makes(ring: &HeldPackets, number: u32, end: u32) -> bool
    requires { end < 2 ^ 31 }
    ensures { result ≡ (nat_le number end
        || (nat_eq number (end + 1) && not (is_marked (place_at ring.now.packets end)))) }
{
    if number <= end {
        return true;
    }
    if number != end + 1 {
        return false;
    }
    !ring.is_marked(end)
}

// The unit that a packet begins, where it is whole, the packet of a number made it so, and it is
// short enough to be given.
pub(crate) fn made_by(ring: &HeldPackets, number: u32, first: u32, last: u32) -> Option<Span>
    requires order { first ≤ number }
    requires upto { number ≤ last }
    requires few { last < first + 64 }
    requires fits { last < 2 ^ 31 }
    ensures out { (format : Format) → unit_left format ring.now.packets result
        ≡ out_made format (window_packet ring.now.packets last) number first
        (unit_at (window_packet ring.now.packets last) first) }
    ensures whole { IsWholeIf ring.now.packets result }
{
    let follow = unit_from(ring, first, last)?;
    let end = first + follow;
    if !makes(ring, number, end) {
        return None;
    }
    if coded_len(ring, first, follow + 1) > MOST {
        return None;
    }
    Some(Span {
        number: first,
        follow,
    })
}

// The unit that the packets before a number are in, if its packet made it whole.
fn first_made(ring: &HeldPackets, number: u32, last: u32) -> Option<Span>
    requires upto { number ≤ last }
    requires few { last < number + 64 }
    requires low { 65536 ≤ last }
    requires fits { last < 2 ^ 31 }
    ensures out { (format : Format) → IsFirstUnit format ring.now.packets last number result }
    ensures whole { IsWholeIf ring.now.packets result }
{
    match start_before(ring, last - 63, number) {
        Some(first) => made_by(ring, number, first, last),
        None => None,
    }
}

// The units that a packet made whole, in order: the one that the packets before it are in, and the
// one that it begins.
#[derive(Clone, Copy)]
pub(crate) struct Made {
    pub(crate) first: Option<Span>,
    pub(crate) second: Option<Span>,
}

// What the packet of a sequence number made whole. `top` is the greatest number's.
pub(crate) fn made_with(ring: &HeldPackets, top: u16, sequence: u16) -> Made
    requires { (top + 65536 - sequence) % 65536 < 64 }
    ensures first { (format : Format) → IsFirstUnit format ring.now.packets (top + 65536)
        (number_by (top + 65536) sequence) result.first }
    ensures second { (format : Format) → IsSecond format ring.now.packets (top + 65536)
        (number_by (top + 65536) sequence) result.second }
    ensures first_whole { IsWholeIf ring.now.packets result.first }
    ensures second_whole { IsWholeIf ring.now.packets result.second }
{
    let last = top as u32 + 65_536;
    let number = last - (last - sequence as u32) % 65_536;
    Made {
        first: first_made(ring, number, last),
        second: made_by(ring, number, number, last),
    }
}

// The first of two units, if there is one; it is taken out.
pub(crate) fn take_first(first: &mut Option<Span>, second: &mut Option<Span>) -> Option<Span>
    ensures out { (format : Format) (packets : List (Option Packet))
        → unit_left format packets first.old ++ unit_left format packets second.old
        ≡ unit_left format packets result
        ++ (unit_left format packets first.new ++ unit_left format packets second.new) }
    ensures whole { (packets : List (Option Packet))
        → IsWholeIf packets first.old → IsWholeIf packets second.old
        → IsWholeIf packets result × IsWholeIf packets first.new × IsWholeIf packets second.new }
    ensures none { IsNone result → (first.new ≡ None) × (second.new ≡ None) }
{
    if first.is_some() {
        return first.take();
    }
    second.take()
}
