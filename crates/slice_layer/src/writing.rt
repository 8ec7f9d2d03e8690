//! Writes a slice, macroblock by macroblock, while its packet has room (H.263, Annex K).
ghost use Rattle.std.specs.Prelude.{◌≡◌, ℕ, ◌+◌, ◌*◌, ◌/◌, ◌%◌, ◌<◌, ◌≤◌, ◌^◌, ◌++◌, [], ◌∷◌, length, take, drop, List, Bool};
ghost use Rattle.h263_bits.specs.Bits.{bits_of, spelled};
ghost use Rattle.h263_types.specs.Blocks.{IsQuant, IsMb, IsOfKind, HasWholeBlocks};
ghost use Rattle.h263_types.specs.Sizes.{mbs_of, columns_of};
ghost use Rattle.h263_types.specs.declared.blocks.Mb.{Mb};
ghost use Rattle.picture_header.specs.declared.header.Header.{Header};
ghost use Rattle.picture_header.specs.Ranges.{IsHeader};
ghost use Rattle.macroblock_layer.specs.Prediction.{predictor_of};
ghost use Rattle.h263_types.specs.Marks.{IsMarked};
ghost use Rattle.macroblock_layer.specs.Written.{IsStepped, mb_text};
ghost use Rattle.slice_layer.specs.Around.{vector_of, quant_after};

use crate::shared::{quant_after, vector_of};
use crate::writing_text::{LastBits, MbRoom, paste, write_apart, write_front};
use h263_bits::BitReader;
use h263_types::{Format, Kind, MarkedMb, Mb, Vector};
use macroblock_layer::predictor;
use picture_header::{Header, laws as picture_header_laws};

/// Whether a macroblock was added.
#[derive(Clone, Copy, Debug, PartialEq, Eq)]
pub enum Added {
    Fits,
    /// With it the slice would have more bytes than there is room for; it was not added.
    Full,
}

/// Writes a slice, macroblock after macroblock, into bytes that it was lent (H.263, Annex K). At
/// each time they begin with the text so far, padded with zero bits up to a whole byte.
#[derive(Drop)]
pub struct SliceWriter<'a> {
    bytes: &'a mut [u8],
    // How many bits are written.
    len: u32,
    kind: Kind,
    format: Format,
    quant: u8,
    first: u32,
    next: u32,
    // The vector of each macroblock at its number: none before the slice.
    vectors: [Vector; 396],
    ghost short: { length bytes.now ≤ 65535 },
    ghost inside: { len ≤ 8 * length bytes.now },
    ghost force: { IsQuant quant },
    ghost order: { first ≤ next },
    ghost within: { next ≤ 396 },
}

impl<'a> SliceWriter<'a> {
    ghost use Rattle.slice_layer.specs.Written.{slice_text, padded, bytes_filled_by, IsSlicePlace, IsPaddedFront};
    ghost use Rattle.slice_layer.specs.Writer.{slice_kind, slice_format, first_mb_of, next_mb_of, quant_of, bytes_lent, writer_loan, GoesOn, HoldsSlice, added_within};

    /// A writer of the slice that begins with macroblock `first`. It writes the slice header,
    /// after the picture header where the slice begins a picture.
    pub fn start(bytes: &'a mut [u8], header: &Header, begins: bool, first: u32) -> SliceWriter<'a>
        requires room { 1150 ≤ length bytes.old }
        requires short { length bytes.old ≤ 65535 }
        requires header { IsHeader header.now }
        requires place { IsSlicePlace header.now begins first }
        ensures holds { HoldsSlice result header.now begins first [] }
        ensures loan { writer_loan result ≡ bytes.entry.ghost_name }
        ensures room { length (bytes_lent result) ≡ length bytes.old }
    {
        let len = write_front(bytes, header, begins, first);
        SliceWriter {
            bytes,
            len,
            kind: header.kind,
            format: header.format,
            quant: header.quant,
            first,
            next: first,
            vectors: [Vector::ZERO; 396],
        }
    }

    // The prediction of the next macroblock's vector; any vector does where it has none.
    fn predictor(&self, mb: &Mb) -> Vector
        ensures { mb_text (slice_kind self.now) (quant_of self.now) result mb.now
            ≡ mb_text (slice_kind self.now) (quant_of self.now)
            (predictor_of (take (next_mb_of self.now) self.now.vectors)
            (first_mb_of self.now) (next_mb_of self.now) (columns_of (slice_format self.now))) mb.now }
    {
        match mb {
            Mb::Skip => Vector::ZERO,
            Mb::Intra { .. } => Vector::ZERO,
            Mb::Inter { .. } => predictor(
                &self.vectors[..self.next as usize],
                self.first,
                self.next,
                self.format.columns(),
            ),
        }
    }

    // The bits after the last whole byte.
    fn last_bits(&self) -> LastBits
        ensures bits { take (8 * (self.now.len / 8)) (bits_of (bytes_lent self.now))
            ++ spelled result.count result.number ≡ take self.now.len (bits_of (bytes_lent self.now)) }
        ensures below { result.number < 2 ^ result.count }
        ensures count { result.count ≡ self.now.len % 8 }
    {
        let count = self.len % 8;
        let number = BitReader::new(self.bytes, self.len - count, self.len).peek(count);
        LastBits { number, count }
    }

    // What the macroblocks after this one depend on.
    fn keep(&mut self, mb: &Mb)
        requires mb { IsMb mb.now }
        requires left { next_mb_of self.old < 396 }
        ensures slice { GoesOn self.old self.new }
        ensures bytes { bytes_lent self.new ≡ bytes_lent self.old }
        ensures len { self.new.len ≡ self.old.len }
        ensures next { next_mb_of self.new ≡ next_mb_of self.old + 1 }
        ensures quant { quant_of self.new ≡ quant_after (quant_of self.old) mb.now }
        ensures vectors { take (next_mb_of self.new) self.new.vectors
            ≡ take (next_mb_of self.old) self.old.vectors ++ vector_of mb.now ∷ [] }
    {
        self.vectors[self.next as usize] = vector_of(mb);
        self.quant = quant_after(self.quant, mb);
        self.next += 1;
    }

    /// Adds the next macroblock. Where the slice with it, up to a whole byte, would have more bytes
    /// than were lent, it answers `Full`, and nothing changes. Its text is first written into
    /// `apart`, which a caller makes once for many macroblocks.
    pub fn add(&mut self, mb: &Mb, apart: &mut MbRoom) -> Added
        requires mb { IsMb mb.now }
        requires kind { IsOfKind (slice_kind self.old) mb.now }
        requires step { IsStepped (quant_of self.old) mb.now }
        requires left { next_mb_of self.old < mbs_of (slice_format self.old) }
        ensures answer { (h : Header) (begins : Bool) (first : ℕ) (mbs : List Mb)
            → HoldsSlice self.old h begins first mbs → result ≡ added_within (length (bytes_lent self.old))
            (bytes_filled_by (slice_text h begins first (mbs ++ mb.now ∷ []))) }
        ensures fits { (h : Header) (begins : Bool) (first : ℕ) (mbs : List Mb)
            → HoldsSlice self.old h begins first mbs
            → result ≡ Added.Fits → HoldsSlice self.new h begins first (mbs ++ mb.now ∷ []) }
        ensures full { result ≡ Added.Full → self.new ≡ self.old }
        // There is room for the first macroblock.
        ensures first { (h : Header) (begins : Bool) (first : ℕ) → IsHeader h → 1150
            ≤ length (bytes_lent self.old) → HoldsSlice self.old h begins first [] → result ≡ Added.Fits }
        ensures slice { GoesOn self.old self.new }
        ensures next { result ≡ Added.Fits → next_mb_of self.new ≡ next_mb_of self.old + 1 }
        ensures quant { result ≡ Added.Fits
            → quant_of self.new ≡ quant_after (quant_of self.old) mb.now }
        ensures whole { HasWholeBlocks mb.now }
        ensures room { length (bytes_lent self.new) ≡ length (bytes_lent self.old) }
    {
        self.add_marked(&MarkedMb::of(mb), apart)
    }

    /// The same as [`add`](SliceWriter::add), of a macroblock that has its marks beside it: so they
    /// aren't found again.
    pub fn add_marked(&mut self, mb: &MarkedMb, apart: &mut MbRoom) -> Added
        requires mb { IsMb mb.now.mb }
        requires marks { IsMarked mb.now }
        requires kind { IsOfKind (slice_kind self.old) mb.now.mb }
        requires step { IsStepped (quant_of self.old) mb.now.mb }
        requires left { next_mb_of self.old < mbs_of (slice_format self.old) }
        ensures answer { (h : Header) (begins : Bool) (first : ℕ) (mbs : List Mb)
            → HoldsSlice self.old h begins first mbs → result ≡ added_within (length (bytes_lent self.old))
            (bytes_filled_by (slice_text h begins first (mbs ++ mb.now.mb ∷ []))) }
        ensures fits { (h : Header) (begins : Bool) (first : ℕ) (mbs : List Mb)
            → HoldsSlice self.old h begins first mbs
            → result ≡ Added.Fits → HoldsSlice self.new h begins first (mbs ++ mb.now.mb ∷ []) }
        ensures full { result ≡ Added.Full → self.new ≡ self.old }
        // There is room for the first macroblock.
        ensures first { (h : Header) (begins : Bool) (first : ℕ) → IsHeader h → 1150
            ≤ length (bytes_lent self.old) → HoldsSlice self.old h begins first [] → result ≡ Added.Fits }
        ensures slice { GoesOn self.old self.new }
        ensures next { result ≡ Added.Fits → next_mb_of self.new ≡ next_mb_of self.old + 1 }
        ensures quant { result ≡ Added.Fits
            → quant_of self.new ≡ quant_after (quant_of self.old) mb.now.mb }
        ensures whole { HasWholeBlocks mb.now.mb }
        ensures room { length (bytes_lent self.new) ≡ length (bytes_lent self.old) }
    {
        picture_header_laws::in_a_syntax();
        let predictor = self.predictor(&mb.mb);
        let last = self.last_bits();
        let len = write_apart(&mut apart.bytes, last, self.kind, self.quant, predictor, mb);
        let at = (self.len / 8) as usize;
        let size = ((len + 7) / 8) as usize;
        if self.bytes.len() < at + size {
            return Added::Full;
        }
        paste(self.bytes, at, &apart.bytes[..size]);
        self.len += len - last.count;
        self.keep(&mb.mb);
        Added::Fits
    }

    /// Ends the slice with zero bits up to a whole byte. Answers how many bytes it has: the first
    /// ones of those that were lent.
    pub fn finish(self) -> u32
        requires some { first_mb_of self < next_mb_of self }
        ensures bytes { (h : Header) (begins : Bool) (first : ℕ) (mbs : List Mb) → HoldsSlice
            self.entry h begins first mbs → result ≡ bytes_filled_by (slice_text h begins first mbs) }
        ensures text { (h : Header) (begins : Bool) (first : ℕ) (mbs : List Mb)
            → HoldsSlice self.entry h begins first mbs
            → bits_of (take result self.exit.0.now) ≡ padded (slice_text h begins first mbs) }
        ensures same { self.exit.0.now ≡ bytes_lent self.entry }
        ensures within { result ≤ length (bytes_lent self.entry) }
    {
        (self.len + 7) / 8
    }
}
