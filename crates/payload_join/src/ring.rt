//! The packets that are held, each at the place of its number, and the room of an outgoing packet,
//! all in one region of memory.
ghost use Rattle.std.specs.Prelude.{◌≡◌, ◌≢◌, ℕ, ◌+◌, ◌-◌, ◌%◌, ◌^◌, ◌<◌, ◌≤◌, [], length, slice_set, true, IfOk};
ghost use Rattle.std.specs.Vec.{vec_capacity};
ghost use Rattle.h263_region.specs.Slots.{count_of, out_of, bytes_in, IsOut};
ghost use Rattle.payload_join.specs.Run.{is_held};
ghost use Rattle.payload_join.specs.Unit.{begins_one, follows_one, is_marked};
ghost use Rattle.payload_join.specs.Outgoing.{coded_one};
ghost use Rattle.payload_join.specs.Packet.{bytes_between};
ghost use Rattle.payload_join.specs.Parts.{ArePartsInside, packet_from_parts};
ghost use Rattle.payload_join.specs.Places.{place_at, put_at, reach_above, packet_judged, forgotten, numbers_passed, top_after, left_at, holding};
ghost use Rattle.h263_region.specs.Claimed.{IsHeld};
ghost use Rattle.payload_join.specs.Ring.{IsEmptyRing, IsSeenPacket, extra_one};

use crate::parts::Parts;
use crate::took::Took;
use h263_region::{Region, Slot};
use h263_types::OutOfMemory;
use std::alloc::Global;
use std::marker::Model;

// The bytes of a slot, as many as a packet has at most.
const SIZE: u32 = 65_535;

// It has no `Drop`: it must be finished.
pub(crate) struct HeldPackets {
    top: Option<u16>,
    parts: Vec<Option<Parts>>,
    region: Region,
    // those of the places, and then that of the room
    slots: Vec<Slot>,
}

impl Model for HeldPackets {
    ghost use Rattle.payload_join.specs.Places.{PacketPlaces};
    ghost use Rattle.payload_join.specs.Ring.{IsRing, slot_packets, last_room};

    ghost Value = { PacketPlaces };

    ghost view = { λ r. record {
      top = r.top;
      packets = slot_packets r.region r.slots.items r.parts.items;
      room = last_room r.region r.slots.items;
    } };

    ghost invariant = { λ r. IsRing r.region r.slots.items r.parts.items };
}

impl HeldPackets {
    // A ring that holds nothing.
    pub(crate) fn start(alloc: Global) -> Result<HeldPackets, OutOfMemory>
        ensures { IfOk result IsEmptyRing }
    {
        let parts = Vec::from_array(alloc, [None; 64])?;
        let mut slots = Vec::with_capacity(alloc, 65)?;
        match Region::make(alloc, 65, SIZE) {
            Ok(mut region) => {
                claim_all(&mut region, &mut slots);
                Ok(HeldPackets {
                    top: None,
                    parts,
                    region,
                    slots,
                })
            }
            Err(e) => {
                slots.destroy_empty();
                Err(e)
            }
        }
    }

    // What becomes of a packet that can be read.
    pub(crate) fn judge(&self, sequence: u16) -> Took
        ensures answer { result ≡ packet_judged self.now.top self.now.packets sequence }
        ensures near { is_held result ≡ true
            → (top_after self.now.top sequence + 65536 - sequence) % 65536 < 64 }
        ensures many { length self.now.packets ≡ 64 }
    {
        let Some(top) = self.top else {
            return Took::Held;
        };
        let reach = reach(top, sequence);
        if reach + 64 <= 32_768 {
            return Took::Old;
        }
        if reach > 32_768 {
            return Took::Held;
        }
        if self.parts[(sequence % 64) as usize].is_some() {
            return Took::Again;
        }
        Took::Held
    }

    // A packet is held, and those that lie 64 and more below the greatest number are forgotten.
    // The greatest number is answered.
    pub(crate) fn hold(&mut self, bytes: &[u8], parts: Parts) -> u16
        requires { ArePartsInside bytes.now parts }
        ensures holds { self.new ≡ holding self.old parts.sequence (packet_from_parts bytes.now parts) }
        ensures top { result ≡ top_after self.old.top parts.sequence }
    {
        let sequence = parts.sequence;
        let place = (sequence % 64) as usize;
        forget(&mut self.parts, self.top, sequence);
        self.parts[place] = Some(parts);
        put(&mut self.region, &self.slots[place], 0, bytes);
        let top = greatest(self.top, sequence);
        self.top = Some(top);
        top
    }

    // Whether the packet of a number is held, and begins a unit.
    pub(crate) fn begins(&self, number: u32) -> bool
        ensures { result ≡ begins_one (place_at self.now.packets number) }
    {
        match self.parts[(number % 64) as usize] {
            Some(parts) => parts.begins,
            None => false,
        }
    }

    // Whether it is held, and follows on another.
    pub(crate) fn follows(&self, number: u32) -> bool
        ensures { result ≡ follows_one (place_at self.now.packets number) }
    {
        match self.parts[(number % 64) as usize] {
            Some(parts) => !parts.begins,
            None => false,
        }
    }

    // Whether it is held, and has the marker.
    pub(crate) fn is_marked(&self, number: u32) -> bool
        ensures { result ≡ is_marked (place_at self.now.packets number) }
    {
        match self.parts[(number % 64) as usize] {
            Some(parts) => parts.marker,
            None => false,
        }
    }

    // How many coded bytes it has.
    pub(crate) fn coded_len(&self, number: u32) -> u32
        ensures len { result ≡ length (coded_one (place_at self.now.packets number)) }
        ensures few { result ≤ 65535 }
    {
        match self.parts[(number % 64) as usize] {
            Some(parts) => parts.to - parts.coded_from,
            None => 0,
        }
    }

    // What was read of it.
    pub(crate) fn seen(&self, number: u32) -> Option<Parts>
        ensures { IsSeenPacket result (place_at self.now.packets number) }
    {
        self.parts[(number % 64) as usize]
    }

    // Its extra picture header.
    pub(crate) fn extra(&self, number: u32) -> &[u8]
        ensures { result.now ≡ extra_one (place_at self.now.packets number) }
    {
        let place = (number % 64) as usize;
        match self.parts[place] {
            Some(parts) => {
                let bytes = self.region.bytes(&self.slots[place]);
                &bytes[parts.extra_from as usize..parts.coded_from as usize]
            }
            None => &[],
        }
    }

    // The room.
    pub(crate) fn room(&self) -> &[u8]
        ensures value { result.now ≡ self.now.room }
        ensures size { length result.now ≡ 65535 }
    {
        self.region.bytes(&self.slots[64])
    }

    // Writes bytes into the room.
    pub(crate) fn write(&mut self, at: usize, bytes: &[u8])
        requires { at + length bytes.now ≤ 65535 }
        ensures { self.new ≡ record self.old { room = put_at self.old.room at bytes.now } }
    {
        put(&mut self.region, &self.slots[64], at, bytes);
    }

    // Copies the coded bytes of the packet of a number into the room, and answers where they end.
    pub(crate) fn copy_coded(&mut self, number: u32, at: usize) -> usize
        requires { at + length (coded_one (place_at self.old.packets number)) ≤ 65535 }
        ensures room { let coded = coded_one (place_at self.old.packets number) in
            self.new ≡ record self.old { room = put_at self.old.room at coded } }
        ensures end { result ≡ at + length (coded_one (place_at self.old.packets number)) }
    {
        let place = (number % 64) as usize;
        let parts = match self.parts[place] {
            Some(parts) => parts,
            None => return at,
        };
        let from = parts.coded_from as usize;
        let to = parts.to as usize;
        copy(
            &mut self.region,
            &self.slots[place],
            from,
            to,
            &self.slots[64],
            at,
        );
        at + (to - from)
    }

    // Gives all slots and the memory back.
    pub(crate) fn finish(self) {
        let HeldPackets {
            top: _,
            parts: _,
            mut region,
            mut slots,
        } = self;
        for _ in 0..slots.len() {
            let slot = slots.take_last();
            region.release(slot);
        }
        slots.destroy_empty();
        region.finish();
    }
}

// How far a sequence number lies above the number 32,768 below the greatest one.
fn reach(top: u16, sequence: u16) -> u32
    ensures exact { result ≡ reach_above top sequence }
    ensures below { result < 65536 }
{
    (sequence as u32 + 98_304 - top as u32) % 65_536
}

// The greatest number, with a packet's.
fn greatest(top: Option<u16>, sequence: u16) -> u16
    ensures { result ≡ top_after top sequence }
{
    match top {
        Some(top) => {
            if reach(top, sequence) > 32_768 {
                sequence
            } else {
                top
            }
        }
        None => sequence,
    }
}

// Forgets what lies 64 and more below the greatest number, once a packet is held.
fn forget(parts: &mut [Option<Parts>], top: Option<u16>, sequence: u16)
    requires { length parts.old ≡ 64 }
    ensures { parts.new ≡ left_at top parts.old sequence }
{
    let Some(top) = top else {
        return;
    };
    let above = reach(top, sequence).saturating_sub(32_768).min(64);
    clear(parts, top as u32 + 1, above);
}

// Clears the places of so many numbers.
fn clear(parts: &mut [Option<Parts>], from: u32, count: u32)
    requires places { length parts.old ≡ 64 }
    requires fits { from + count < 2 ^ 32 }
    ensures { parts.new ≡ forgotten parts.old from count }
{
    for k in 0..count {
        parts[((from + k) % 64) as usize] = None;
    }
}

// Writes bytes into a slot, from a place on.
fn put(region: &mut Region, slot: &Slot, at: usize, bytes: &[u8])
    requires out { IsOut region.old slot.now }
    requires room { at + length bytes.now ≤ region.old.size }
    ensures { region.new ≡ record region.old {
      bytes = slice_set region.old.bytes slot.now (put_at (bytes_in region.old slot.now) at bytes.now);
    } }
{
    let room = region.bytes_mut(slot);
    room[at..at + bytes.len()].copy_from_slice(bytes);
}

// Copies a part of a slot into another one.
fn copy(region: &mut Region, read: &Slot, from: usize, to: usize, write: &Slot, at: usize)
    requires read { IsOut region.old read.now }
    requires write { IsOut region.old write.now }
    requires differ { read.now ≢ write.now }
    requires order { from ≤ to }
    requires inside { to ≤ region.old.size }
    requires room { at + (to - from) ≤ region.old.size }
    ensures { region.new ≡ record region.old {
      bytes = slice_set region.old.bytes write.now
          (put_at (bytes_in region.old write.now) at (bytes_between (bytes_in region.old read.now) from to));
    } }
{
    let (source, room) = region.two(read, write);
    room[at..at + (to - from)].copy_from_slice(&source[from..to]);
}

// Claims all slots of a region of which none is out.
fn claim_all(region: &mut Region, slots: &mut Vec<Slot>)
    requires none { out_of region.old ≡ 0 }
    requires empty { slots.old.items ≡ [] }
    requires room { count_of region.old ≤ vec_capacity slots.old }
    ensures held { IsHeld region.new slots.new.items }
    ensures all { length slots.new.items ≡ count_of region.old }
    ensures size { region.new.size ≡ region.old.size }
    ensures bytes { region.new.bytes ≡ region.old.bytes }
    ensures count { count_of region.new ≡ count_of region.old }
{
    while let Some(slot) = region.claim() {
        slots.push_reserved(slot);
    }
}
