//! The messages of the last picture headers.
ghost use Rattle.std.specs.Prelude.{◌≡◌, ◌+◌, ◌<◌, ◌≤◌, ◌∷◌, ◌++◌, [], List, length};
ghost use Rattle.std.specs.Prelude.{IfOk, slice_index_or};
ghost use Rattle.duplex_call.specs.declared.queue.Carried.{Carried};
ghost use Rattle.duplex_call.specs.Waiting.{in_four_places};

use circular_buffer::HeapCircularBuffer;
use duplex_call::Carried;
use h263_types::OutOfMemory;
use std::alloc::Global;

/// Of each of the last pictures the messages that its header carries, at most four.
#[derive(Drop)]
pub struct CarriedRing {
    kept: HeapCircularBuffer<[Option<Carried>; 4]>,
    // the number of the picture that was noted last
    newest: u32,
}

impl CarriedRing {
    ghost use Rattle.duplex_ends.specs.Headers.{HoldsHeaders, kept_by};

    /// No picture was sent. This many are kept.
    pub fn start(alloc: Global, pictures: u32) -> Result<CarriedRing, OutOfMemory>
        requires { 1 ≤ pictures }
        ensures holds { IfOk result (λ ring. HoldsHeaders ring []) }
        ensures kept { IfOk result (λ ring. kept_by ring ≡ pictures) }
    {
        Ok(CarriedRing {
            kept: HeapCircularBuffer::with_capacity(alloc, pictures as usize)?,
            newest: 0,
        })
    }

    /// Keeps the messages of the next picture, which has this number.
    pub fn note(&mut self, number: u32, carried: [Option<Carried>; 4])
        ensures kept { kept_by self.new ≡ kept_by self.old }
        ensures holds { (headers : List (List Carried)) (messages : List Carried)
            → HoldsHeaders self.old headers → number ≡ length headers
            → carried ≡ in_four_places messages
            → HoldsHeaders self.new (headers ++ messages ∷ []) }
    {
        let _oldest = self.kept.push_back(carried);
        self.newest = number;
    }

    /// The messages of a picture that is among the last.
    pub fn get(&self, number: u32) -> [Option<Carried>; 4]
        ensures { (headers : List (List Carried)) → HoldsHeaders self.now headers
            → number < length headers → length headers ≤ number + kept_by self.now
            → result ≡ in_four_places (slice_index_or headers number []) }
    {
        let since = self.newest.saturating_sub(number);
        match self.kept.nth_back(since as usize) {
            Some(carried) => *carried,
            None => [None; 4],
        }
    }
}
