//! Whether a slice is taken.
ghost use Rattle.std.specs.Prelude.{◌≡◌, ◌↔◌, ◌+◌, ◌^◌, ◌<◌, ◌≤◌, true, Ok, IfOk, IfSome, is_some};
ghost use Rattle.std.specs.Prelude.{nat_le};
ghost use Rattle.h263_types.specs.declared.blocks.Mb.{Mb};
ghost use Rattle.h263_types.specs.Blocks.{IsHeadOf};
ghost use Rattle.call_model.specs.Coding as call;
ghost use Rattle.call_model.specs.Coding.{window};
ghost use Rattle.call_model.specs.Receiving.{piece_number};
ghost use Rattle.call_model.specs.Sending.{nearest_below};
ghost use Rattle.call_model.specs.ReceiverStanding.{heard_by_kept};
ghost use Rattle.call_model.specs.Stands.{judged, reference_is_kept};
ghost use Rattle.call_decoding.specs.Rules.{rules_of};
ghost use Rattle.call_decoding.specs.Styles.{Style, call_header_of};
ghost use Rattle.receiver_end.specs.declared.answers.Heard.TheVariants as heards;
ghost use Rattle.receiver_end.specs.Decoding.{decoding};

use crate::answers::{Heard, PacketFault};
use crate::kept::Kept;
use crate::numbers::nearest;
use call_decoding::laws as call_decoding_laws;
use h263_types::Clock;
use packet_collector::{Piece, Place};
use picture_header::Header;
use reference_selector::nearest_below;

/// A slice that may be taken: the number of its picture, and its reference, which is kept.
#[derive(Clone, Copy)]
pub struct Fresh {
    pub number: u32,
    pub reference: Option<u32>,
}

fn is_same_clock(a: Clock, b: Clock) -> bool
    ensures { (result ≡ true) ↔ (a ≡ b) }
{
    a == b
}

fn refused(fault: PacketFault) -> Heard
    ensures { result ≡ heards.Refused fault }
{
    Heard::Refused(fault)
}

impl Kept {
    ghost use Rattle.receiver_end.specs.State.{Fits, seen};
    ghost use Rattle.receiver_end.specs.Steps.{IsFreshPiece, IsFreshOf, IsJudged, IsReferenceOf};
    ghost use Rattle.receiver_end.specs.Steps.{IsUntaken, IsPieceOf};

    // The picture below an open one that a TRP names, if there is one.
    fn named_below(&self, number: u32, rest: u16) -> Option<u32>
        requires fits { Fits self.now }
        requires number { number ≤ 2 ^ 21 }
        ensures below { IfSome result (λ m. m < number) }
        ensures value { result ≡ nearest_below (rules_of self.now.params) number rest }
    {
        nearest_below(number, rest, self.params.clock)
    }

    // Whether a picture is in the window of an open one.
    fn reaches(&self, number: u32, m: u32) -> bool
        requires fits { Fits self.now }
        requires number { number ≤ 2 ^ 21 }
        requires below { m < number }
        ensures { result ≡ nat_le number (m + window (rules_of self.now.params)) }
    {
        number <= m + (self.params.slots - self.params.lead - 1)
    }

    // The reference that the header of an open picture names, if it names one. None where that one
    // isn't complete, or not in the window.
    fn reference_of(&self, number: u32, header: &Header) -> Option<Option<u32>>
        requires fits { Fits self.now }
        requires number { number ≤ 2 ^ 21 }
        ensures there { is_some result
            ≡ reference_is_kept (decoding self.now.params.format) (rules_of self.now.params)
            (seen self.now) number header.now.trp }
        ensures is { IfSome result (IsReferenceOf self.now number header.now.trp) }
    {
        let Some(rest) = header.trp else {
            return Some(None);
        };
        let m = self.named_below(number, rest)?;
        if !self.reaches(number, m) {
            return None;
        }
        if self.holds(m) {
            return Some(Some(m));
        }
        None
    }

    // What becomes of a slice of an open picture.
    fn judge_open(&self, number: u32, piece: &Piece) -> Result<Fresh, Heard>
        requires fits { Fits self.now }
        requires number { number ≤ 2 ^ 21 }
        requires low { self.now.played ≤ number }
        requires high { number ≤ self.now.played + self.now.params.lead }
        requires head { IsHeadOf self.now.params.format piece.now.head }
        ensures answer { (p : call.Piece Style Mb) → IsPieceOf piece.now p
            → IsJudged self.now result p (judged (decoding self.now.params.format)
            (rules_of self.now.params) (seen self.now) number p) }
        ensures fresh { IfOk result (IsFreshOf self.now number piece.now) }
        ensures untaken { IsUntaken result }
    {
        call_decoding_laws::whole_header();
        let place = self.collector.place(number, piece);
        let reference = self.reference_of(number, &piece.header);
        match (place, reference) {
            (Place::HeaderDiffers, _) => Err(refused(PacketFault::HeaderDiffers)),
            (_, None) => Err(refused(PacketFault::MissingReference)),
            (Place::Repeat, Some(_)) => Err(Heard::Repeat),
            (Place::Overlap, Some(_)) => Err(refused(PacketFault::Overlap)),
            (Place::Fresh, Some(reference)) => Ok(Fresh { number, reference }),
        }
    }

    /// The number of a slice's picture: the one nearest to the play. None where the slice is of the
    /// other picture clock, and where that would be before picture 0.
    pub fn number_of(&self, piece: &Piece) -> Option<u32>
        requires { Fits self.now }
        ensures { (p : call.Piece Style Mb) → p.header ≡ call_header_of piece.now.header
            → result ≡ piece_number (rules_of self.now.params) self.now.played p }
    {
        if !is_same_clock(piece.header.clock, self.params.clock) {
            return None;
        }
        nearest(self.played, piece.header.tr, self.params.clock)
    }

    /// What becomes of a slice: its picture and its reference where it may be taken, or the answer.
    pub fn judge(&self, piece: &Piece) -> Result<Fresh, Heard>
        requires fits { Fits self.now }
        requires head { IsHeadOf self.now.params.format piece.now.head }
        ensures answer { (p : call.Piece Style Mb) → IsPieceOf piece.now p
            → IsJudged self.now result p (heard_by_kept (decoding self.now.params.format)
            (rules_of self.now.params) (seen self.now) (Ok p)) }
        ensures fresh { IfOk result (IsFreshPiece self.now piece.now) }
        ensures untaken { IsUntaken result }
    {
        if !is_same_clock(piece.header.clock, self.params.clock) {
            return Err(refused(PacketFault::OtherClock));
        }
        let Some(number) = nearest(self.played, piece.header.tr, self.params.clock) else {
            return Err(Heard::Late);
        };
        if number < self.played {
            return Err(Heard::Late);
        }
        if number > self.played + self.params.lead {
            return Err(Heard::Early);
        }
        self.judge_open(number, piece)
    }
}
