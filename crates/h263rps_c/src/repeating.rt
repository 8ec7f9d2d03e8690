//! The packets that a sender sent last, for C.
ghost use Rattle.std.specs.Prelude.{◌≡◌, ◌≢◌, ◌≤◌, ℕ, List, [], ◌∷◌, None, Ok, Some, IfErr, IfOk};
ghost use Rattle.std.specs.Borrow.{sem};
ghost use Rattle.packet_repeats.specs.Sent.{ArePlaces, found_packet};
ghost use Rattle.packet_repeats.specs.Keeping.{KeepsSent, bytes_or_none};
ghost use Rattle.h263rps_c.specs.Counting as counts;
ghost use Rattle.h263rps_c.specs.Refusals.{end_refusal, refusal_number, status_of};
ghost use Rattle.h263rps_c.specs.Repeating.{FindsPacket, HoldsRepeats, is_between, may_keep, repeats_refusal};
ghost use Rattle.h263rps_c.specs.Returned.{KeepsEnd};
ghost use Rattle.h263rps_c.specs.Slots.{for_repeats};
ghost use Rattle.h263rps_c.specs.Stays.{Stays};
ghost use Rattle.h263rps_c.specs.declared.refusals.EndRefusal.TheVariants as refusals;

use crate::ends::{End, EndKind};
use crate::handles::{Slot, put, taken};
use crate::receiver::Lent;
use crate::refusals::{EndRefusal, OK};
use packet_repeats::Repeats;
use std::alloc::Global;

// As many as there are sequence numbers.
const MOST_PACKETS: u32 = 65_536;
// The header of a packet, and the most bytes that UDP carries over IPv4.
const SHORTEST: u32 = 12;

const LONGEST: u32 = 65_507;

/// Whether a number is one of these.
pub fn is_between(least: u32, most: u32, n: u32) -> bool
    ensures { result ≡ is_between least most n }
{
    if least <= n { n <= most } else { false }
}

// Whether so many packets of so many bytes may be kept.
fn may_keep(count: u32, longest: u32) -> bool
    ensures { result ≡ may_keep count longest }
{
    if is_between(1, MOST_PACKETS, count) {
        is_between(SHORTEST, LONGEST, longest)
    } else {
        false
    }
}

// The packet with this sequence number; no bytes where it isn't kept.
fn bytes_of(repeats: &Repeats, sequence: u16) -> &[u8]
    ensures { (places longest : ℕ) (sent : List (List ℕ))
        → KeepsSent places longest sent repeats.now
        → result.now ≡ bytes_or_none (found_packet places longest sequence sent) }
{
    match repeats.find(sequence) {
        None => &[],
        Some(packet) => packet,
    }
}

impl End {
    /// No packets yet, and room for at least the last `count`, of at most `longest` bytes each.
    pub fn repeats(alloc: Global, count: u32, longest: u32) -> Result<Box<End>, EndRefusal>
        requires { 1 ≤ count }
        ensures memory { IfErr result (λ why. why ≡ refusals.NoMemory) }
        ensures stands { IfOk result (λ end. (places : ℕ) × ArePlaces count places
            × HoldsRepeats places longest [] (Some end.value)) }
    {
        let Ok(repeats) = Repeats::start(alloc, count, longest) else {
            return Err(EndRefusal::NoMemory);
        };
        match Box::new(alloc, End::Repeats(repeats)) {
            Err(_) => Err(EndRefusal::NoMemory),
            Ok(end) => Ok(end),
        }
    }

    /// A packet was sent.
    pub fn keep(&mut self, packet: &[u8]) -> Result<(), EndRefusal>
        ensures refusal { end_refusal result ≡ for_repeats (Some self.old) }
        ensures same { IfErr result (λ why. self.new ≡ self.old) }
        ensures stands { (places longest : ℕ) (sent : List (List ℕ))
            → HoldsRepeats places longest sent (Some self.old)
            → HoldsRepeats places longest (packet.now ∷ sent) (Some self.new) }
    {
        match self {
            End::Sending(_) => Err(EndRefusal::OtherEnd),
            End::Receiving(_) => Err(EndRefusal::OtherEnd),
            End::Repeats(repeats) => {
                repeats.keep(packet);
                Ok(())
            }
            End::Line(_) => Err(EndRefusal::OtherEnd),
        }
    }

    /// The packet with this sequence number; no bytes where it isn't kept.
    pub fn find(&self, sequence: u16) -> Result<&[u8], EndRefusal>
        ensures refusal { end_refusal result ≡ for_repeats (Some self.now) }
        ensures found { IfOk result (λ packet. FindsPacket sequence (Some self.now) packet.now) }
    {
        match self {
            End::Sending(_) => Err(EndRefusal::OtherEnd),
            End::Receiving(_) => Err(EndRefusal::OtherEnd),
            End::Repeats(repeats) => Ok(bytes_of(repeats, sequence)),
            End::Line(_) => Err(EndRefusal::OtherEnd),
        }
    }
}

/// Starts to keep packets in an empty slot.
#[unsafe(no_mangle)]
pub extern "C" fn h263rps_raw_repeats_start(
    alloc: Global,
    slot: &mut Slot,
    count: u32,
    longest: u32,
) -> u32
    ensures result { result ≢ refusal_number refusals.NoMemory
        → result ≡ status_of (repeats_refusal count longest slot.old.handle.inside) }
    ensures memory { result ≡ refusal_number refusals.NoMemory
        → repeats_refusal count longest slot.old.handle.inside ≡ None }
    ensures same { result ≢ 0 → Stays slot.old slot.new }
    ensures nothing { result ≡ 0 → slot.new.counted ≡ counts.no_statistics }
    ensures stands { result ≡ 0 → (places : ℕ) × ArePlaces count places
        × HoldsRepeats places longest [] slot.new.handle.inside }
{
    if slot.is_started() {
        return EndRefusal::Started.number();
    }
    if !may_keep(count, longest) {
        return EndRefusal::BadParams.number();
    }
    match End::repeats(alloc, count, longest) {
        Err(refusal) => refusal.number(),
        Ok(end) => {
            put(slot, end);
            OK
        }
    }
}

/// Keeps a packet that was sent.
#[unsafe(no_mangle)]
pub extern "C" fn h263rps_raw_repeats_keep(slot: &mut Slot, packet: &[u8]) -> u32
    ensures result { result ≡ status_of (for_repeats slot.old.handle.inside) }
    ensures same { result ≢ 0 → Stays slot.old slot.new }
    ensures counts { slot.new.counted ≡ slot.old.counted }
    ensures stands { (places longest : ℕ) (sent : List (List ℕ))
        → HoldsRepeats places longest sent slot.old.handle.inside
        → HoldsRepeats places longest (packet.now ∷ sent) slot.new.handle.inside }
{
    if !slot.is_started() {
        return EndRefusal::NotStarted.number();
    }
    match slot.handle.end_mut().keep(packet) {
        Err(refusal) => refusal.number(),
        Ok(()) => OK,
    }
}

// The packet with this sequence number, lent. The slot keeps its end.
fn packet_in(slot: &mut Slot, sequence: u16) -> Result<&[u8], EndRefusal>
    ensures refusal { end_refusal result ≡ for_repeats slot.old.handle.inside }
    ensures found { IfOk result
        (λ packet. FindsPacket sequence slot.old.handle.inside packet.now) }
    ensures* same { sem 𝓛 (KeepsEnd slot.entry) }
{
    if !slot.is_started() {
        return Err(EndRefusal::NotStarted);
    }
    let end: &End = slot.handle.end_mut();
    end.find(sequence)
}

// Writes down what is lent, if anything is.
fn note_packet<'a>(packet: Result<&'a [u8], EndRefusal>, lent: &mut Lent<'a>) -> u32
    ensures result { result ≡ status_of (end_refusal packet.entry) }
    ensures unlent { result ≢ 0 → lent.new ≡ lent.old }
    ensures lent { result ≡ 0 → packet.entry ≡ Ok lent.new.samples }
{
    match packet {
        Err(refusal) => refusal.number(),
        Ok(packet) => {
            lent.samples = packet;
            OK
        }
    }
}

/// Lends the packet with this sequence number; no bytes where it isn't kept. They are good until the
/// next call with this slot, which keeps its packets.
#[unsafe(no_mangle)]
pub extern "C" fn h263rps_raw_repeats_find<'a>(
    slot: &'a mut Slot,
    sequence: u16,
    lent: &mut Lent<'a>,
) -> u32
    ensures result { result ≡ status_of (for_repeats slot.old.handle.inside) }
    ensures unlent { result ≢ 0 → lent.new ≡ lent.old }
    ensures found { result ≡ 0
        → FindsPacket sequence slot.old.handle.inside lent.new.samples.now }
    ensures* same { sem 𝓛 (KeepsEnd slot.entry) }
{
    note_packet(packet_in(slot, sequence), lent)
}

/// Gives the memory of the packets back, and leaves the slot empty.
#[unsafe(no_mangle)]
pub extern "C" fn h263rps_raw_repeats_finish(alloc: Global, slot: &mut Slot) -> u32
    ensures result { result ≡ status_of (for_repeats slot.old.handle.inside) }
    ensures same { result ≢ 0 → Stays slot.old slot.new }
    ensures empty { result ≡ 0 → slot.new.handle.inside ≡ None }
    ensures nothing { result ≡ 0 → slot.new.counted ≡ counts.no_statistics }
{
    if !slot.is_started() {
        return EndRefusal::NotStarted.number();
    }
    if !slot.handle.end_mut().is_of(EndKind::Repeats) {
        return EndRefusal::OtherEnd.number();
    }
    let _end = taken(alloc, slot);
    OK
}
