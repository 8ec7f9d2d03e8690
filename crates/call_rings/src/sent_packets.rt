//! The packets of the last pictures, in memory that is taken once.
ghost use Rattle.std.specs.Prelude.{◌≡◌, ℕ, ◌+◌, ◌*◌, ◌^◌, ◌<◌, ◌≤◌, List, [], ◌∷◌, ◌++◌, All};
ghost use Rattle.std.specs.Prelude.{length, slice_get, IfOk, IfSome};
ghost use Rattle.std.specs.Option.{option_copied, option_map};
ghost use Rattle.call_rings.specs.Kept.{TakesUpTo};

use crate::kept::KeptPackets;
use circular_buffer::HeapCircularBuffer;
use h263_types::OutOfMemory;
use std::alloc::Global;

/// The packets of the last pictures. The next picture takes the memory of the oldest.
#[derive(Drop)]
pub struct SentPackets {
    room: usize,
    most: usize,
    begun: u32,
    // always full: before its first picture is begun a place has no packet
    pictures: HeapCircularBuffer<KeptPackets>,
    ghost some: { 0 < pictures.capacity },
    ghost full: { length pictures.items ≡ pictures.capacity },
    ghost each: { All (TakesUpTo room most) pictures.items },
    ghost short: { room < 2 ^ 32 },
    ghost small: { most < 2 ^ 32 },
}

impl SentPackets {
    ghost use Rattle.call_rings.specs.Keeping.{PacketsOfPictures, ring_period, ring_room, most_of, begun_of};
    ghost use Rattle.call_rings.specs.Keeping.{HoldsPackets, kept_of, is_among_last, HasRoomForPacket, HasSizes};
    ghost use Rattle.call_rings.specs.Keeping.{HasMemory, ring_picture};

    /// A ring for `pictures` pictures, none begun yet, with room for `most` packets of each, of
    /// `room` bytes together.
    pub fn start(
        alloc: Global,
        pictures: u32,
        room: u32,
        most: u32,
    ) -> Result<SentPackets, OutOfMemory>
        requires some { 1 ≤ pictures }
        requires bytes { pictures * room < 2 ^ 63 }
        requires packets { pictures * (most + 1) < 2 ^ 60 }
        ensures none { IfOk result (λ ring. HoldsPackets ring []) }
        ensures sizes { IfOk result (λ ring. HasSizes ring pictures room most) }
        ensures begun { IfOk result (λ ring. begun_of ring ≡ 0) }
        ensures memory { IfOk result HasMemory }
    {
        let room = room as usize;
        let most = most as usize;
        let mut kept = HeapCircularBuffer::with_capacity(alloc, pictures as usize)?;
        'places: for _ in 0..pictures {
            kept.push_back(KeptPackets::start(alloc, room, most)?);
        }
        Ok(SentPackets {
            room,
            most,
            begun: 0,
            pictures: kept,
        })
    }

    /// Begins the next picture, which has no packet yet.
    pub fn begin(&mut self)
        requires { begun_of self.old + 1 < 2 ^ 32 }
        ensures begins { (pictures : PacketsOfPictures) → HoldsPackets self.old pictures
            → HoldsPackets self.new (pictures ++ [] ∷ []) }
        ensures sizes { let ring = self.old in
            HasSizes self.new (ring_period ring) (ring_room ring) (most_of ring) }
        ensures begun { begun_of self.new ≡ begun_of self.old + 1 }
        ensures memory { HasMemory self.new }
    {
        self.begun += 1;
        if let Some(mut oldest) = self.pictures.pop_front() {
            oldest.clear();
            self.pictures.push_back(oldest);
        }
    }

    /// One more packet of the newest picture.
    pub fn push(&mut self, packet: &[u8])
        requires { HasRoomForPacket self.old (length packet.now) }
        ensures pushes { (before : PacketsOfPictures) (packets : List (List ℕ))
            → HoldsPackets self.old (before ++ packets ∷ [])
            → HoldsPackets self.new (before ++ (packets ++ packet.now ∷ []) ∷ []) }
        ensures sizes { let ring = self.old in
            HasSizes self.new (ring_period ring) (ring_room ring) (most_of ring) }
        ensures begun { begun_of self.new ≡ begun_of self.old }
        ensures memory { HasMemory self.new }
    {
        if let Some(mut newest) = self.pictures.pop_back() {
            newest.push(packet);
            self.pictures.push_back(newest);
        }
    }

    /// How many packets there are of picture `n`: none where it isn't among the last ones.
    pub fn count(&self, n: u32) -> u32
        ensures packets { (pictures : PacketsOfPictures) → HoldsPackets self.now pictures
            → result ≡ length (kept_of (ring_period self.now) pictures n) }
        ensures few { result ≤ most_of self.now }
    {
        match self.kept(n) {
            Some(kept) => kept.count() as u32,
            None => 0,
        }
    }

    /// Packet `i` of picture `n`.
    pub fn packet(&self, n: u32, i: u32) -> Option<&[u8]>
        ensures { (pictures : PacketsOfPictures) → HoldsPackets self.now pictures
            → option_map (λ packet. packet.now) result
            ≡ slice_get (kept_of (ring_period self.now) pictures n) i }
    {
        self.kept(n)?.packet(i)
    }

    // The packets of picture `n`, where it is among the last ones.
    fn kept(&self, n: u32) -> Option<&KeptPackets>
        ensures { option_copied result ≡ ring_picture self.now n }
    {
        if self.has(n) {
            let place = n as usize + self.pictures.capacity() - self.begun as usize;
            self.pictures.get(place)
        } else {
            None
        }
    }

    // Picture `n` is among the last ones.
    fn has(&self, n: u32) -> bool
        ensures { result ≡ is_among_last (ring_period self.now) (begun_of self.now) n }
    {
        n < self.begun && (self.begun as usize) <= n as usize + self.pictures.capacity()
    }
}
