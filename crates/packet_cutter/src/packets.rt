//! The packets of one picture, in memory that is taken once.
ghost use Rattle.std.specs.Prelude.{◌≡◌, ℕ, ◌+◌, ◌*◌, ◌^◌, ◌<◌, ◌≤◌, ◌++◌, [], length, slice_index_or, slice_range, take, drop, All, IfOk};
ghost use Rattle.std.specs.Box.{boxed_slice_items};
ghost use Rattle.h263_types.specs.Sizes.{mbs_of};
ghost use Rattle.picture_header.specs.Ranges.{IsHeader};
ghost use Rattle.packet_cutter.specs.Taken.{IsTaken, ArePlaced, unmarked};

use crate::filling::write_packet;
use h263_types::MarkedMb;
use picture_header::Header;
use std::alloc::{AllocError, Global};
use std::boxed::BoxedSlice;

/// Packets one after the other, each of `limit` bytes at most.
#[derive(Drop)]
pub struct Packets {
    limit: u32,
    bytes: BoxedSlice<u8>,
    // Where each packet begins, and after the last one its end.
    places: [u32; 397],
    count: u32,
    ghost low: { 1200 ≤ limit },
    ghost high: { limit ≤ 9000 },
    ghost few: { count ≤ 396 },
    ghost room: { limit * count ≤ length (boxed_slice_items bytes) },
    ghost short: { length (boxed_slice_items bytes) < 2 ^ 31 },
    ghost placed: { ArePlaced limit places count },
}

fn part(bytes: &[u8], from: usize, to: usize) -> &[u8]
    requires order { from ≤ to }
    requires within { to ≤ length bytes.now }
    ensures { result.now ≡ slice_range bytes.now from to }
{
    &bytes[from..to]
}

impl Packets {
    ghost use Rattle.packet_cutter.specs.Kept.{most_bytes, room_for_packets, packet_count, kept_packets, AppendsPacket};

    /// Room for this many packets, and none in it.
    pub fn start(alloc: Global, limit: u32, most: u32) -> Result<Packets, AllocError>
        requires low { 1200 ≤ limit }
        requires high { limit ≤ 9000 }
        requires few { most ≤ 396 }
        ensures limit { IfOk result (λ p. most_bytes p ≡ limit) }
        ensures room { IfOk result (λ p. room_for_packets p ≡ limit * most) }
        ensures none { IfOk result (λ p. kept_packets p ≡ []) }
    {
        let size = limit as usize * most as usize;
        Ok(Packets {
            limit,
            bytes: vec![in alloc; 0; size]?.into_boxed_slice(),
            places: [0; 397],
            count: 0,
        })
    }

    /// How many packets there are.
    pub fn count(&self) -> u32
        ensures count { result ≡ packet_count self.now }
        ensures packets { result ≡ length (kept_packets self.now) }
        ensures few { result ≤ 396 }
    {
        self.count
    }

    /// Packet i.
    pub fn packet(&self, i: u32) -> &[u8]
        requires { i < length (kept_packets self.now) }
        ensures { result.now ≡ slice_index_or (kept_packets self.now) i [] }
    {
        let from = self.places[i as usize] as usize;
        let to = self.places[i as usize + 1] as usize;
        part(&self.bytes, from, to)
    }

    /// Forgets the packets.
    pub fn clear(&mut self)
        ensures none { kept_packets self.new ≡ [] }
        ensures count { packet_count self.new ≡ 0 }
        ensures limit { most_bytes self.new ≡ most_bytes self.old }
        ensures room { room_for_packets self.new ≡ room_for_packets self.old }
    {
        self.count = 0;
        self.places[0] = 0;
    }

    /// Writes the next packet after the others, with the longest slice from macroblock `first` on:
    /// `mbs` are those that are left of the picture. Answers how many it has.
    pub fn append(
        &mut self,
        header: &Header,
        first: u32,
        mbs: &[MarkedMb],
        number: u32,
        sequence: u16,
    ) -> u32
        requires few { packet_count self.old < 396 }
        requires room { most_bytes self.old * (packet_count self.old + 1) ≤ room_for_packets self.old }
        requires header { IsHeader header.now }
        requires some { 0 < length mbs.now }
        requires left { first + length mbs.now ≡ mbs_of header.now.format }
        requires each { All (IsTaken header.now.kind header.now.quant) mbs.now }
        ensures packet { AppendsPacket self.old self.new number sequence header.now first
            (unmarked mbs.now) result }
        ensures within { result ≤ length mbs.now }
        ensures some { 0 < result }
        ensures count { packet_count self.new ≡ packet_count self.old + 1 }
        ensures limit { most_bytes self.new ≡ most_bytes self.old }
        ensures room { room_for_packets self.new ≡ room_for_packets self.old }
    {
        let at = self.places[self.count as usize];
        let end = at + self.limit;
        let part = write_packet(
            &mut self.bytes[at as usize..end as usize],
            header,
            first,
            mbs,
            number,
            sequence,
        );
        self.places[self.count as usize + 1] = at + part.size;
        self.count += 1;
        part.count
    }
}
