//! A packet beside its macroblocks, and where it stands to what was taken.
use h263_types::SliceHead;
use picture_header::Header;

/// What a packet says beside its macroblocks: the header of its picture, and which of the picture's
/// macroblocks it holds.
#[derive(Clone, Copy, Debug)]
pub struct Piece {
    pub header: Header,
    pub head: SliceHead,
}

/// Where a piece stands to what was taken of its picture: the first of these that holds.
#[derive(Clone, Copy, Debug, PartialEq, Eq)]
pub enum Place {
    /// Something was taken with another header.
    HeaderDiffers,
    /// All of the piece's macroblocks were taken.
    Repeat,
    /// Some of them were taken.
    Overlap,
    /// None of them was taken.
    Fresh,
}
