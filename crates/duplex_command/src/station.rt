//! One party of a call.
use duplex_ends::PartyEnds;
use y4m::Y4mReader;

/// One party of a call: the reader of its video, and the ends of its pictures, its own sender and
/// the other party's receiver. It must be finished.
pub struct Station {
    pub video: Y4mReader,
    pub ends: PartyEnds,
}

impl Station {
    /// Gives back what the ends hold.
    pub fn finish(self) {
        let Station { video: _, ends } = self;
        ends.finish();
    }
}
