//! What is wrong with a video.
ghost use Rattle.std.specs.Prelude.{◌≡◌};

/// What is wrong with a video, and at which byte, counted from 0.
#[derive(Clone, Copy, Debug, PartialEq, Eq)]
pub enum Y4mFault {
    /// This byte, or the end of the input inside the head's line, can't go on with a line.
    NotY4m { at: u64 },
    /// At a tag's letter: it is no width or height of a format. At the newline of the head's line:
    /// width or height is missing, or both together are no format.
    Size { at: u64 },
    /// The tag with its letter here says that the video isn't progressive.
    Interlaced { at: u64 },
    /// The tag with its letter here names no sampling 4:2:0 of 8 bits.
    Colour { at: u64 },
    /// The input ends here, within a frame.
    ShortFrame { at: u64 },
    /// Here a frame more begins than may come.
    TooMany { at: u64 },
}

/// Why the reading of a video stopped.
#[derive(Clone, Copy, Debug, PartialEq, Eq)]
pub enum VideoStop {
    /// A read failed.
    Read,
    /// The video has this fault.
    Refused(Y4mFault),
}

impl From<Y4mFault> for VideoStop {
    ghost use Rattle.y4m.specs.declared.fault.VideoStop.{VideoStop};

    ghost from_gives = { λ fault stop. stop ≡ VideoStop.Refused fault };

    fn from(fault: Y4mFault) -> Self {
        VideoStop::Refused(fault)
    }
}
