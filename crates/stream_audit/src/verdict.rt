//! Rules of a stream, and verdicts.

/// A rule of a stream.
#[derive(Clone, Copy, Debug, PartialEq, Eq)]
pub enum Rule {
    /// A packet has no fault, and is of the stream's picture clock.
    Packet,
    /// The temporal references count the pictures, from 0 and modulo their period (H.263, 5.1.2).
    Number,
    /// The packets of one picture have one picture header.
    Header,
    /// They have no macroblock twice.
    Overlap,
    /// They have all macroblocks.
    Gap,
    /// A predicted picture refers to one of the last `slots - lead - 1` pictures, which the
    /// feedback before it made known (H.263, Annex N).
    Reference,
}

/// A rule that is broken, and the number of the picture at which it is.
#[derive(Clone, Copy)]
pub struct Broken {
    pub number: u32,
    pub rule: Rule,
}

/// The verdict on a log.
#[derive(Clone, Copy, Debug, PartialEq, Eq)]
pub enum Verdict {
    /// No rule is broken; there are so many pictures.
    Yes { pictures: u32 },
    /// This is the first rule that is broken, and the number of the picture at which it is: the
    /// next one for `Number` and `Reference`, else the one that was going on, and 0 before the
    /// first.
    No { number: u32, rule: Rule },
}
