//! The reader of a video.
use crate::frame::{LEAST_LINE, check_line};
use crate::head::{LEAST_HEAD, read_format};
use crate::input::{read_line, read_planes};
use crate::{VideoStop, Y4mFault};
use h263_outside::Desk;
use h263_types::Format;
use std::marker::Model;

/// The most frames of a video.
pub const MAX_FRAMES: u32 = 1_048_576;

/// The reader of a video whose head was read: the format, the byte where the next frame begins, and
/// how many frames may still come. It keeps no bytes of the video. A frame and its line have less
/// than 152,321 bytes.
#[derive(Clone, Copy)]
pub struct Y4mReader {
    format: Format,
    at: u64,
    more: u32,
}

impl Model for Y4mReader {
    ghost use Rattle.y4m.specs.Place.{Y4mPlace, IsInVideo};

    ghost Value = { Y4mPlace };

    ghost view = { λ r. record { format = r.format; at = r.at; more = r.more } };

    ghost invariant = { λ r.
        IsInVideo (record { format = r.format; at = r.at; more = r.more }) };

    ghost inverse = { λ p. record { format = p.format; at = p.at; more = p.more } };
}

impl Y4mReader {
    ghost use Rattle.std.specs.Prelude.{◌≡◌, ◌≢◌, ◌<◌, ◌≤◌, ◌+◌, ◌*◌, ◌^◌, ℕ, List, length, true, OnOk, OnErr, IfOk, IsErrOf, Some};
    ghost use Rattle.h263_types.specs.Sizes.{size_of_picture};
    ghost use Rattle.h263_outside.specs.Desk.{Rose, OnlyReads};
    ghost use Rattle.h263_outside.specs.declared.desk.Role.{Role};
    ghost use Rattle.h263_outside.specs.declared.desk.Role.TheVariants.{Video};
    ghost use Rattle.y4m.specs.Reader.{HeadGives, FrameGives, MovesVideo};
    ghost use Rattle.y4m.specs.Video.{most_frames};

    /// Reads the head's line, up to its newline.
    pub fn head<D: Desk>(desk: &mut D) -> Result<Y4mReader, VideoStop>
        requires { (D.outside desk.old).attached Video ≡ true }
        ensures gives { (video : List ℕ) → (D.outside desk.old).left Video ≡ Some video
            → HeadGives result video ((D.outside desk.new).left Video) }
        ensures more { IfOk result (λ reader. reader.more ≡ most_frames) }
        ensures cause { IsErrOf result VideoStop.Read
            → Rose (D.outside desk.old).faults.read (D.outside desk.new).faults.read }
        ensures ok_faults { OnOk result
            ((D.outside desk.new).faults ≡ (D.outside desk.old).faults) }
        ensures others { (r : Role)
            → r ≢ Video → (D.outside desk.new).left r ≡ (D.outside desk.old).left r }
        ensures rest { OnlyReads (D.outside desk.old) (D.outside desk.new) }
    {
        let mut line = [0; 256];
        let len = read_line(desk, LEAST_HEAD, &mut line)?;
        let format = read_format(&line[..len])?;
        Ok(Y4mReader {
            format,
            at: len as u64,
            more: MAX_FRAMES,
        })
    }

    /// The format of the frames.
    pub fn format(&self) -> Format
        ensures { result ≡ self.now.format }
    {
        self.format
    }

    /// Reads the next frame's line, and its planes to `out`, which has `format().size()` bytes.
    /// False at the end of the video. After a stop the bytes of `out` are left open, and after a
    /// refusal what is left of the video.
    pub fn frame<D: Desk>(&mut self, desk: &mut D, out: &mut [u8]) -> Result<bool, VideoStop>
        requires attached { (D.outside desk.old).attached Video ≡ true }
        requires size { length out.old ≡ size_of_picture self.old.format }
        ensures gives { (rest : List ℕ) → (D.outside desk.old).left Video ≡ Some rest
            → FrameGives result self.old rest out.new self.new ((D.outside desk.new).left Video) }
        ensures moves { MovesVideo result self.old self.new }
        ensures cause { IsErrOf result VideoStop.Read
            → Rose (D.outside desk.old).faults.read (D.outside desk.new).faults.read }
        ensures others { (r : Role)
            → r ≢ Video → (D.outside desk.new).left r ≡ (D.outside desk.old).left r }
        ensures rest { OnlyReads (D.outside desk.old) (D.outside desk.new) }
    {
        let from = self.at;
        // One byte more than a line may have, to tell a line that is too long from an end of the
        // input.
        let mut line = [0; 257];
        let len = read_line(desk, LEAST_LINE, &mut line)?;
        if len == 0 {
            return Ok(false);
        }
        if self.more == 0 {
            return Err(VideoStop::Refused(Y4mFault::TooMany { at: from }));
        }
        check_line(from, &line[..len])?;
        let at = from + len as u64;
        read_planes(desk, at, out)?;
        self.at = at + out.len() as u64;
        self.more -= 1;
        Ok(true)
    }
}
