//! Takes a picture's macroblocks and cuts them into packets.
ghost use Rattle.std.specs.Prelude.{◌≡◌, ℕ, ◌+◌, ◌*◌, ◌%◌, ◌<◌, ◌≤◌, ◌++◌, ◌∷◌, [], List, length, take, slice_index_or, All, IfOk};
ghost use Rattle.std.specs.Box.{boxed_slice_items};
ghost use Rattle.h263_types.specs.declared.blocks.Mb.{Mb};
ghost use Rattle.h263_types.specs.Blocks.{HasQuant, IsMb, IsOfKind};
ghost use Rattle.h263_types.specs.Params.{IsParams};
ghost use Rattle.h263_types.specs.Sizes.{mbs_of};
ghost use Rattle.picture_header.specs.declared.header.Header.{Header};
ghost use Rattle.picture_header.specs.Ranges.{IsHeader};
ghost use Rattle.h263_types.specs.Marks.{IsMarked};
ghost use Rattle.packet_cutter.specs.Kept.{most_bytes, room_for_packets, kept_packets};
ghost use Rattle.packet_cutter.specs.Packets as sent;
ghost use Rattle.packet_cutter.specs.Packets.{ArePacketsOf};
ghost use Rattle.packet_cutter.specs.Slices.{cut_of};
ghost use Rattle.packet_cutter.specs.Taken.{IsTaken, unmarked};

use crate::laws;
use crate::packets::Packets;
use h263_types::{MarkedMb, Mb, OutOfMemory, Params};
use picture_header::Header;
use std::alloc::Global;
use std::boxed::BoxedSlice;

// Cuts a picture: packet after packet.
fn cut(packets: &mut Packets, header: &Header, mbs: &[MarkedMb], number: u32, sequence: u16)
    requires room { most_bytes packets.old * length mbs.now ≤ room_for_packets packets.old }
    requires header { IsHeader header.now }
    requires whole { length mbs.now ≡ mbs_of header.now.format }
    requires each { All (IsTaken header.now.kind header.now.quant) mbs.now }
    ensures packets { ArePacketsOf number sequence header.now
        (most_bytes packets.old) (unmarked mbs.now) (kept_packets packets.new) }
    ensures limit { most_bytes packets.new ≡ most_bytes packets.old }
    ensures room { room_for_packets packets.new ≡ room_for_packets packets.old }
{
    packets.clear();
    let mut first = 0;
    'packets: while (first as usize) < mbs.len() {
        let next = sequence.wrapping_add(packets.count() as u16);
        let at = first as usize;
        first += packets.append(header, first, &mbs[at..], number, next);
    }
}

/// Cuts pictures into packets, each with the longest slice that keeps it within a limit of bytes
/// (RFC 4629). It has all its memory from the start.
#[derive(Drop)]
pub struct Cutter {
    number: u32,
    header: Header,
    // The picture's macroblocks: the first `added` ones are there.
    mbs: BoxedSlice<MarkedMb>,
    added: u32,
    // The number of the next packet.
    sequence: u16,
    packets: Packets,
    ghost whole: { length (boxed_slice_items mbs) ≡ mbs_of header.format },
    ghost within: { added ≤ length (boxed_slice_items mbs) },
    ghost room: { most_bytes packets * length (boxed_slice_items mbs) ≤ room_for_packets packets },
}

// Puts a macroblock in the place of another.
#[inline(always)]
fn put(place: &mut MarkedMb, mb: &MarkedMb)
    ensures { place.new ≡ mb.now }
{
    put_plain(&mut place.mb, &mb.mb);
    place.coded = mb.coded;
}

// The same without marks. One that is skipped has no blocks to copy.
#[inline(always)]
fn put_plain(place: &mut Mb, mb: &Mb)
    ensures { place.new ≡ mb.now }
{
    match mb {
        Mb::Skip => *place = Mb::Skip,
        _ => *place = *mb,
    }
}

impl Cutter {
    ghost use Rattle.packet_cutter.specs.Cutting.{cut_format, limit_of, cutter_kind, cutter_quant, added_of, sequence_of, cutter_packets, OnlyAdds, IsPictureBegun, HoldsMbs};

    /// A cutter of pictures of the parameters' format into packets of `limit` bytes at most.
    pub fn start(alloc: Global, params: &Params) -> Result<Cutter, OutOfMemory>
        requires { IsParams params.now }
        ensures format { IfOk result (λ c. cut_format c ≡ params.now.format) }
        ensures limit { IfOk result (λ c. limit_of c ≡ params.now.limit) }
        ensures none { IfOk result (λ c. cutter_packets c ≡ []) }
        ensures sequence { IfOk result (λ c. sequence_of c ≡ 0) }
        ensures added { IfOk result (λ c. added_of c ≡ 0) }
    {
        let count = params.format.mbs();
        Ok(Cutter {
            number: 0,
            header: Header::blank(params.format),
            mbs: vec![in alloc; MarkedMb::skip(); count as usize]?.into_boxed_slice(),
            added: 0,
            sequence: 0,
            packets: Packets::start(alloc, params.limit, count)?,
        })
    }

    /// Begins picture `number`, which has no macroblock yet. One that was begun before and not
    /// finished is dropped.
    pub fn begin(&mut self, number: u32, header: &Header)
        requires header { IsHeader header.now }
        requires format { header.now.format ≡ cut_format self.old }
        ensures begun { IsPictureBegun self.new }
        ensures holds { HoldsMbs self.new number header.now [] }
        ensures added { added_of self.new ≡ 0 }
        ensures kind { cutter_kind self.new ≡ header.now.kind }
        ensures quant { cutter_quant self.new ≡ header.now.quant }
        ensures format { cut_format self.new ≡ cut_format self.old }
        ensures limit { limit_of self.new ≡ limit_of self.old }
        ensures sequence { sequence_of self.new ≡ sequence_of self.old }
        ensures packets { cutter_packets self.new ≡ cutter_packets self.old }
    {
        self.added = 0;
        self.number = number;
        self.header = *header;
    }

    /// Adds the picture's next macroblock.
    pub fn add(&mut self, mb: &Mb)
        requires begun { IsPictureBegun self.old }
        requires mb { IsMb mb.now }
        requires kind { IsOfKind (cutter_kind self.old) mb.now }
        requires quant { HasQuant (cutter_quant self.old) mb.now }
        requires left { added_of self.old < mbs_of (cut_format self.old) }
        ensures begun { IsPictureBegun self.new }
        ensures holds { (number : ℕ) (h : Header) (mbs : List Mb)
            → HoldsMbs self.old number h mbs → HoldsMbs self.new number h (mbs ++ mb.now ∷ []) }
        ensures added { added_of self.new ≡ added_of self.old + 1 }
        ensures rest { OnlyAdds self.old self.new }
    {
        self.add_marked(&MarkedMb::of(mb));
    }

    /// The same as [`add`](Cutter::add), of a macroblock that has its marks beside it: so they
    /// aren't found again.
    pub fn add_marked(&mut self, mb: &MarkedMb)
        requires begun { IsPictureBegun self.old }
        requires mb { IsMb mb.now.mb }
        requires marks { IsMarked mb.now }
        requires kind { IsOfKind (cutter_kind self.old) mb.now.mb }
        requires quant { HasQuant (cutter_quant self.old) mb.now.mb }
        requires left { added_of self.old < mbs_of (cut_format self.old) }
        ensures begun { IsPictureBegun self.new }
        ensures holds { (number : ℕ) (h : Header) (mbs : List Mb)
            → HoldsMbs self.old number h mbs → HoldsMbs self.new number h (mbs ++ mb.now.mb ∷ []) }
        ensures added { added_of self.new ≡ added_of self.old + 1 }
        ensures rest { OnlyAdds self.old self.new }
    {
        put(&mut self.mbs[self.added as usize], mb);
        self.added += 1;
    }

    /// Cuts the picture, all of whose macroblocks were added, into its packets, which take the
    /// place of the earlier ones.
    pub fn finish(&mut self)
        requires begun { IsPictureBegun self.old }
        requires all { added_of self.old ≡ mbs_of (cut_format self.old) }
        ensures packets { (number : ℕ) (h : Header) (mbs : List Mb)
            → HoldsMbs self.old number h mbs → ArePacketsOf number
            (sequence_of self.old) h (limit_of self.old) mbs (cutter_packets self.new) }
        // As functions of the picture.
        ensures function { (number : ℕ) (h : Header) (mbs : List Mb) → HoldsMbs self.old number h mbs
            → cutter_packets self.new
            ≡ sent.packets_of number (sequence_of self.old) h (cut_of h (limit_of self.old) mbs) }
        // The numbers count on from picture to picture.
        ensures sequence { sequence_of self.new
            ≡ (sequence_of self.old + length (cutter_packets self.new)) % 65536 }
        ensures holds { (number : ℕ) (h : Header) (mbs : List Mb)
            → HoldsMbs self.old number h mbs → HoldsMbs self.new number h mbs }
        ensures added { added_of self.new ≡ added_of self.old }
        ensures format { cut_format self.new ≡ cut_format self.old }
        ensures limit { limit_of self.new ≡ limit_of self.old }
    {
        laws::by_functions();
        cut(
            &mut self.packets,
            &self.header,
            &self.mbs,
            self.number,
            self.sequence,
        );
        self.sequence = self.sequence.wrapping_add(self.packets.count() as u16);
    }

    /// Forgets its pictures and their packets, and counts packets from 0 again: as at the start, in
    /// the same memory.
    pub fn restart(&mut self)
        ensures format { cut_format self.new ≡ cut_format self.old }
        ensures limit { limit_of self.new ≡ limit_of self.old }
        ensures none { cutter_packets self.new ≡ [] }
        ensures sequence { sequence_of self.new ≡ 0 }
        ensures added { added_of self.new ≡ 0 }
    {
        self.added = 0;
        self.sequence = 0;
        self.packets.clear();
    }

    /// How many packets the picture has that was finished last: 0 before the first.
    pub fn count(&self) -> u32
        ensures count { result ≡ length (cutter_packets self.now) }
        ensures few { result ≤ 396 }
    {
        self.packets.count()
    }

    /// Packet i of the picture that was finished last.
    pub fn packet(&self, i: u32) -> &[u8]
        requires { i < length (cutter_packets self.now) }
        ensures { result.now ≡ slice_index_or (cutter_packets self.now) i [] }
    {
        self.packets.packet(i)
    }
}
