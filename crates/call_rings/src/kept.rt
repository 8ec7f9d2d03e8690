//! The packets of one picture, in memory that is taken once.
ghost use Rattle.std.specs.Prelude.{◌≡◌, ℕ, ◌+◌, ◌^◌, ◌<◌, ◌≤◌, List, [], ◌∷◌, ◌++◌, length};
ghost use Rattle.std.specs.Prelude.{slice_get, IfOk};
ghost use Rattle.std.specs.Option.{option_map};
ghost use Rattle.std.specs.Vec.{vec_capacity};

use std::alloc::{AllocError, Global};

/// The packets of one picture, one after the other.
#[derive(Drop)]
pub struct KeptPackets {
    bytes: Vec<u8>,
    // how many bytes each packet and those before it have
    ends: Vec<u32>,
}

impl KeptPackets {
    ghost use Rattle.call_rings.specs.Kept.{KeepsPackets, HasPlace, count_in, size_in, TakesUpTo};

    /// No packet yet, and room for `most` packets of `room` bytes together. No byte of it is
    /// touched before a packet lies on it.
    pub fn start(alloc: Global, room: usize, most: usize) -> Result<KeptPackets, AllocError>
        ensures place { IfOk result (TakesUpTo room most) }
    {
        Ok(KeptPackets {
            bytes: Vec::with_capacity(alloc, room)?,
            ends: Vec::with_capacity(alloc, most)?,
        })
    }

    /// Forgets all packets, and keeps the memory.
    pub fn clear(&mut self)
        ensures none { KeepsPackets self.new [] }
        ensures place { (room most : ℕ) → TakesUpTo room most self.old → TakesUpTo room most self.new }
    {
        self.bytes.clear();
        self.ends.clear();
    }

    /// One more packet.
    pub fn push(&mut self, packet: &[u8])
        requires { HasPlace self.old (length packet.now) }
        ensures pushes { (packets : List (List ℕ)) → KeepsPackets self.old packets
            → KeepsPackets self.new (packets ++ packet.now ∷ []) }
        ensures place { (room most : ℕ) → TakesUpTo room most self.old
            → size_in self.old + length packet.now ≤ room → count_in self.old < most
            → TakesUpTo room most self.new }
    {
        let _ = self.bytes.extend_from_slice(packet);
        self.ends.push_reserved(self.bytes.len() as u32);
    }

    /// How many packets there are.
    pub fn count(&self) -> usize
        ensures { result ≡ count_in self.now }
    {
        self.ends.len()
    }

    /// Packet `i`.
    pub fn packet(&self, i: u32) -> Option<&[u8]>
        ensures { (packets : List (List ℕ)) → KeepsPackets self.now packets
            → option_map (λ packet. packet.now) result ≡ slice_get packets i }
    {
        let to = *self.ends.get(i as usize)? as usize;
        let from = if i == 0 {
            0
        } else {
            self.ends[i as usize - 1] as usize
        };
        self.bytes.get(from..to)
    }
}
