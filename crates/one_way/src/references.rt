//! The references of the last pictures, for the lines of their plays.
ghost use Rattle.std.specs.Prelude.{◌≡◌, ◌+◌, ◌<◌, ◌≤◌, ℕ, List, [], ◌∷◌, ◌++◌, length};
ghost use Rattle.std.specs.Prelude.{IfOk, Option, None, slice_index_or};

use circular_buffer::HeapCircularBuffer;
use h263_types::OutOfMemory;
use std::alloc::Global;

// At most this many pictures may be on their way.
const KEPT: usize = 512;

/// The references of the last 512 pictures.
#[derive(Drop)]
pub struct References {
    kept: HeapCircularBuffer<Option<u32>>,
    // the number of the picture that was noted last
    newest: u32,
}

impl References {
    ghost use Rattle.one_way.specs.References.{AreNoted};

    /// No picture was sent.
    pub fn start(alloc: Global) -> Result<References, OutOfMemory>
        ensures { IfOk result (λ references. AreNoted references []) }
    {
        Ok(References {
            kept: HeapCircularBuffer::with_capacity(alloc, KEPT)?,
            newest: 0,
        })
    }

    /// Notes the reference of the next picture, which has this number.
    pub fn note(&mut self, number: u32, reference: Option<u32>)
        ensures { (references : List (Option ℕ)) → AreNoted self.old references
            → number ≡ length references → AreNoted self.new (references ++ reference ∷ []) }
    {
        let _oldest = self.kept.push_back(reference);
        self.newest = number;
    }

    /// The reference of a picture that is among the last 512.
    pub fn get(&self, number: u32) -> Option<u32>
        ensures { (references : List (Option ℕ)) → AreNoted self.now references
            → number < length references → length references ≤ number + 512
            → result ≡ slice_index_or references number None }
    {
        let since = self.newest.saturating_sub(number);
        match self.kept.nth_back(since as usize) {
            Some(reference) => *reference,
            None => None,
        }
    }
}
