//! A slice is taken.
ghost use Rattle.std.specs.Prelude.{◌≡◌, ◌^◌, ◌≤◌, ℕ, List, Ok, length, IfSome, IfNone, ◌∷◌, true};
ghost use Rattle.std.specs.Prelude.{false};
ghost use Rattle.h263_types.specs.Sizes.{mbs_of};
ghost use Rattle.packet_collector.specs.Collected.{IsInRow, has_in};
ghost use Rattle.packet_collector.specs.Filled.{IsPieceIn};
ghost use Rattle.call_model.specs.Numbers.{all_below};
ghost use Rattle.call_model.specs.Receiving.{ReceiverEntry, Packet};
ghost use Rattle.call_model.specs.ReceiverStanding.{IsAfterSlice, heard_by_kept};
ghost use Rattle.call_decoding.specs.Rules.{rules_of};
ghost use Rattle.receiver_end.specs.Answers.{IsHeard, IsSaid, takes};
ghost use Rattle.receiver_end.specs.Decoding.{decoding};

use crate::answers::Heard;
use crate::drawing::draw;
use crate::judging::Fresh;
use crate::kept::{Kept, work_of};
use crate::laws;
use back_messages::Said;
use call_decoding::{Pictured, Styled, laws as call_decoding_laws};
use call_model::laws as call_model_laws;
use h263_bits::Fault;
use h263_planes::laws as planes_laws;
use h263_types::Mb;
use packet_collector::Piece;

impl Kept {
    ghost use Rattle.receiver_end.specs.State.{Fits, Stands, seen};
    ghost use Rattle.receiver_end.specs.Steps.{IsAdded, IsCompleted, IsFreshPiece, ack_of, piece_in};
    ghost use Rattle.receiver_end.specs.Steps.{taking};

    // Draws a slice, and marks its macroblocks as taken.
    fn add(&mut self, piece: &Piece, fresh: Fresh, mbs: &[Mb])
        requires fits { Fits self.old }
        requires mbs { length mbs.now ≡ mbs_of self.old.params.format }
        requires piece { IsPieceIn self.old.params.format mbs.now piece.now }
        requires fresh { IsFreshPiece self.old piece.now fresh }
        ensures fits { Fits self.new }
        ensures added { IsAdded self.old self.new mbs.now piece.now fresh }
    {
        let w = work_of(&self.params, fresh.number);
        draw(
            &mut self.store,
            self.params.format,
            mbs,
            piece,
            fresh.reference,
            w,
        );
        self.collector.add(fresh.number, piece);
    }

    // Puts a picture that is complete now into its slot, and acknowledges it.
    fn complete(&mut self, number: u32) -> Option<Said>
        requires fits { Fits self.old }
        requires row { IsInRow self.old.collector number }
        ensures fits { Fits self.new }
        ensures part { IfNone result ((all_below (mbs_of self.old.params.format)
            (has_in self.old.collector number) ≡ false) × (self.new ≡ self.old)) }
        ensures whole { IfSome result (λ said. (all_below (mbs_of self.old.params.format)
            (has_in self.old.collector number) ≡ true)
            × IsSaid self.old.params.clock said (ack_of self.old.params self.old.store number)) }
        ensures kept { IfSome result (λ said. IsCompleted self.old self.new number) }
    {
        call_model_laws::searches();
        if !self.collector.whole(number) {
            return None;
        }
        let said = self.ack(number);
        self.store.keep(number, work_of(&self.params, number));
        Some(said)
    }

    // Takes a slice that may be taken.
    fn take(&mut self, piece: &Piece, fresh: Fresh, mbs: &[Mb]) -> Heard
        requires fits { Fits self.old }
        requires mbs { length mbs.now ≡ mbs_of self.old.params.format }
        requires piece { IsPieceIn self.old.params.format mbs.now piece.now }
        requires fresh { IsFreshPiece self.old piece.now fresh }
        ensures fits { Fits self.new }
        ensures params { self.new.params ≡ self.old.params }
        ensures played { self.new.played ≡ self.old.played }
        ensures taken { takes result ≡ true }
        ensures answer { IsHeard self.old.params.clock result (taking self.old fresh.number
            (piece_in piece.now mbs.now)) }
        ensures after { (past : List ReceiverEntry) → Stands self.old past
            → IsAfterSlice (decoding self.old.params.format) (rules_of self.old.params)
            (seen self.old) (seen self.new) fresh.number (piece_in piece.now mbs.now) }
    {
        planes_laws::numbered_samples();
        call_model_laws::searches();
        planes_laws::picture_by_samples();
        call_decoding_laws::are_rules();
        call_model_laws::slots::<Styled, Mb, Pictured, Fault>();
        self.add(piece, fresh, mbs);
        match self.complete(fresh.number) {
            Some(said) => Heard::Completed(said),
            None => Heard::Taken,
        }
    }

    /// Takes a slice, if it may be taken. `mbs` are its picture's macroblocks, among which are its
    /// own.
    pub fn packet(&mut self, piece: &Piece, mbs: &[Mb]) -> Heard
        requires fits { Fits self.old }
        requires mbs { length mbs.now ≡ mbs_of self.old.params.format }
        requires piece { IsPieceIn self.old.params.format mbs.now piece.now }
        ensures fits { Fits self.new }
        ensures params { self.new.params ≡ self.old.params }
        ensures played { self.new.played ≡ self.old.played }
        ensures same { takes result ≡ false → self.new ≡ self.old }
        ensures answer { IsHeard self.old.params.clock result (heard_by_kept
            (decoding self.old.params.format) (rules_of self.old.params) (seen self.old) (Ok
            (piece_in piece.now mbs.now))) }
        ensures stands { (past : List ReceiverEntry) (bytes : List ℕ) → Stands self.old past
            → (decoding self.old.params.format).read bytes ≡ Ok (piece_in piece.now mbs.now)
            → Stands self.new (Packet bytes ∷ past) }
    {
        laws::is_decoding();
        call_decoding_laws::are_rules();
        call_model_laws::receiver_stands::<Styled, Mb, Pictured, Fault>();
        match self.judge(piece) {
            Ok(fresh) => self.take(piece, fresh, mbs),
            Err(heard) => heard,
        }
    }
}
