//! A call before its first event.
use crate::Terms;
use one_way::Both;
use y4m::Y4mReader;

/// A call before its first event: its terms, with the format of its video, the reader of the video
/// after the head, and both ends. It must be finished.
pub struct Begun {
    pub terms: Terms,
    pub video: Y4mReader,
    pub both: Both,
}

impl Begun {
    /// Gives back what the ends hold.
    pub fn finish(self) {
        let Begun {
            terms: _,
            video: _,
            both,
        } = self;
        both.finish();
    }
}
