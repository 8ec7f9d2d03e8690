//! The last messages, in memory that is taken once.
ghost use Rattle.std.specs.Prelude.{◌≡◌, ℕ, ◌+◌, ◌-◌, ◌^◌, ◌<◌, ◌≤◌, List, [], ◌∷◌};
ghost use Rattle.std.specs.Prelude.{◌++◌, length, IfOk};
ghost use Rattle.back_messages.specs.declared.writing.Said.{Said};

use back_messages::Said;
use circular_buffer::HeapCircularBuffer;
use h263_types::OutOfMemory;
use std::alloc::Global;

/// The last 1,024 messages, each with the number of the picture that it is about.
#[derive(Drop)]
pub struct MessageRing {
    said: u64,
    entries: HeapCircularBuffer<(u32, Said)>,
}

impl MessageRing {
    ghost use Rattle.call_rings.specs.Messages.{said_of, HoldsMessages, message_at};

    /// A ring with no message.
    pub fn start(alloc: Global) -> Result<MessageRing, OutOfMemory>
        ensures { IfOk result (λ ring. HoldsMessages ring []) }
    {
        let entries = HeapCircularBuffer::with_capacity(alloc, 1024)?;
        Ok(MessageRing { said: 0, entries })
    }

    /// One more message, about picture `about`.
    pub fn push(&mut self, about: u32, said: Said)
        requires { said_of self.old + 1 < 2 ^ 64 }
        ensures pushes { (messages : List (ℕ × Said)) → HoldsMessages self.old messages
            → HoldsMessages self.new (messages ++ (about, said) ∷ []) }
        ensures said { said_of self.new ≡ said_of self.old + 1 }
    {
        let _oldest = self.entries.push_back((about, said));
        self.said += 1;
    }

    /// How many messages were said.
    pub fn said(&self) -> u64
        ensures count { result ≡ said_of self.now }
        ensures messages { (messages : List (ℕ × Said)) → HoldsMessages self.now messages
            → result ≡ length messages }
    {
        self.said
    }

    /// Message `k`, counted from 0 in the order in which they were said: none where it has left, or
    /// isn't said yet.
    pub fn get(&self, k: u32) -> Option<(u32, Said)>
        ensures { (messages : List (ℕ × Said)) → HoldsMessages self.now messages
            → result ≡ message_at messages k }
    {
        let left = (self.said as usize).saturating_sub(self.entries.len());
        let place = (k as usize).checked_sub(left)?;
        self.entries.get(place).copied()
    }
}
