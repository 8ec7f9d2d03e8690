//! What can be wrong with bits: the kind of a fault, and its place.
ghost use Rattle.std.specs.Prelude.{◌≡◌};

/// What is wrong with the bits, by the field or the rule that they break.
#[derive(Clone, Copy, Debug, PartialEq, Eq)]
pub enum FaultKind {
    /// The bits end inside a field or a word.
    Ended,
    /// No word of the table begins here.
    BadCode,
    /// INTRADC of 0 or 128 (H.263, 5.4.1).
    BadDc,
    /// An escape whose LEVEL is 0 or -128 (5.4.2).
    BadLevel,
    /// An event after the last coefficient of its block (5.4.2).
    PastEnd,
    /// A macroblock with four vectors (5.3.2).
    FourVectors,
    /// A vector that points out of its reach (5.3.7, 6.1.1).
    BadVector,
    /// A bit against start code emulation that is not as it must be (5.1.4, Annex K).
    Marker,
    /// A slice's macroblock address (MBA, Annex K).
    Address,
    /// A quantiser of 0 (PQUANT 5.1.19, SQUANT Annex K).
    Quant,
    /// A slice that names another reference than its picture (TRPI and TRP, Annex N).
    SliceReference,
    /// A back-channel indication that is neither `1` nor `01` (BCI 5.1.16).
    Bci,
    /// A slice with no macroblock.
    Empty,
    /// More than padding after the picture's last macroblock.
    Trailing,
    /// Not the rest of a start code (5.1.1, Annex K).
    NoStart,
    /// PTYPE is not the extended one (5.1.3).
    PictureType,
    /// UFEP is not `001` (5.1.4.1).
    Ufep,
    /// A source format that is none of the three (5.1.4.2).
    SourceFormat,
    /// A source format of the three that is not the expected one (5.1.4.2).
    OtherFormat,
    /// The optional modes are not Annexes K and N alone (5.1.4.2).
    Modes,
    /// A picture that is neither I nor P (5.1.4.3).
    PictureKind,
    /// Resampling, Annexes P and Q (5.1.4.3).
    Resampling,
    /// Continuous presence multipoint (CPM 5.1.20).
    Cpm,
    /// A custom picture clock whose divisor is 0 (CPCFC 5.1.7).
    Divisor,
    /// Slices that are rectangular or in any order (SSS 5.1.10).
    SliceMode,
    /// A mode of the back channel that is none of the four (RPSMF 5.1.13).
    Rpsmf,
    /// An I picture that names a reference (TRPI 5.1.14).
    IntraReference,
    /// A P picture that names none (TRPI 5.1.14).
    NoReference,
    /// A temporal reference of more than eight bits, in the standard clock (TRP 5.1.15).
    HighBits,
    /// A back-channel message with a fault (BCM 5.1.17, Annex N).
    Messages,
    /// A fifth message.
    ManyMessages,
    /// A packet that begins neither a picture nor a slice (RFC 4629, 5.1).
    FollowOn,
    /// An extra picture header in front of a picture, or one with bits left over (RFC 4629, 5.1).
    ExtraHeader,
    /// No extra picture header in front of a later slice (RFC 4629, 5.1).
    NoExtraHeader,
    /// A packet of more than 65,535 bytes.
    Long,
    /// A packet that ends inside its RTP header, the sources or the extension after it (RFC 3550,
    /// 5.1, 5.3.1).
    Short,
    /// Another version of RTP than 2.
    Version,
    /// RTP padding whose count does not fit.
    Padding,
    /// Another payload type.
    PayloadType,
    /// Another source.
    Source,
}

impl FaultKind {
    /// This fault, at a place.
    pub fn at(self, place: u32) -> Fault
        ensures { result ≡ record { kind = self; at = place } }
    {
        Fault {
            kind: self,
            at: place,
        }
    }
}

/// A fault, and the place of the bit at which it stands: 0 is the first bit of the first byte.
#[derive(Clone, Copy, Debug, PartialEq, Eq)]
pub struct Fault {
    pub kind: FaultKind,
    pub at: u32,
}
