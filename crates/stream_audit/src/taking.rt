//! What an audit takes.
ghost use Rattle.std.specs.Prelude.{false, ◌≡◌, ◌+◌, ◌-◌, ◌<◌, ◌≤◌, ◌^◌, List, ◌∷◌, Some, None, IsSome};
ghost use Rattle.h263_types.specs.Blocks.{IsHeadOf};
ghost use Rattle.h263_types.specs.declared.blocks.Mb.{Mb};
ghost use Rattle.call_decoding.specs.Styles.{Style};

use crate::kept::Kept;
use crate::verdict::Rule;
use back_messages::{MessageFault, read};
use call_decoding::{Pictured, Styled, laws as call_decoding_laws};
use call_model::laws as call_model_laws;
use h263_types::Mb;
use packet_collector::{Piece, laws as packet_collector_laws};
use receiver_end::laws as receiver_end_laws;

impl Kept {
    ghost use Rattle.packet_collector.specs.Collected.{Collects, IsFreshIn, format_of, row_of};
    ghost use Rattle.packet_collector.specs.Taken.{Taken, is_any_taken};
    ghost use Rattle.stream_audit.specs.Stream.{Feedback, StreamPart, Picture, StreamPicture};
    ghost use Rattle.stream_audit.specs.Stream.{begun_by, last_picture, items_with_part};
    ghost use Rattle.stream_audit.specs.Logs.{Stream};
    ghost use Rattle.stream_audit.specs.State.{AuditFits, IsPacketJudged, AuditKeeps, SpellsSlice};

    /// Takes what feedback makes known.
    pub fn note(&mut self, bytes: &[u8])
        requires { AuditFits self.old }
        ensures fits { AuditFits self.new }
        ensures same { self.new ≡ record self.old { selector = self.new.selector } }
        ensures keeps { (items : Stream) → AuditKeeps self.old items
            → AuditKeeps self.new (Feedback bytes.now ∷ items) }
    {
        if let Ok(message) = read(bytes, self.params.clock) {
            self.selector.note(&message, self.pictures);
        }
    }

    // Takes a packet of the last picture.
    fn add(&mut self, piece: &Piece)
        requires fits { AuditFits self.old }
        requires some { 0 < self.old.pictures }
        requires head { IsHeadOf self.old.params.format piece.now.head }
        requires fresh { IsFreshIn self.old.collector (self.old.pictures - 1) piece.now }
        ensures fits { AuditFits self.new }
        ensures same { self.new ≡ record self.old { collector = self.new.collector } }
        ensures keeps { (items : Stream) (p : StreamPicture Style Mb)
            (part : StreamPart Style Mb) → AuditKeeps self.old items → last_picture items ≡ Some p
            → SpellsSlice piece.now part.piece → part.piece.header ≡ p.header
            → AuditKeeps self.new (items_with_part items part) }
    {
        packet_collector_laws::what_is_taken();
        let number = self.present();
        self.collector.add(number, piece);
    }

    // Makes room for the next picture.
    fn make_room(&mut self)
        requires { AuditFits self.old }
        ensures same { self.new ≡ record self.old { collector = self.new.collector } }
        ensures format { format_of self.new.collector ≡ format_of self.old.collector }
        ensures row { row_of self.new.collector ≡ 1 }
        ensures collects { (taken : List Taken) → Collects self.old.collector
            (self.old.pictures - 1) taken → Collects self.new.collector self.old.pictures taken }
        ensures absent { (taken : List Taken)
            → Collects self.old.collector (self.old.pictures - 1) taken
            → (self.old.pictures ≡ 0 → is_any_taken taken 0 ≡ false)
            → is_any_taken taken self.old.pictures ≡ false }
    {
        packet_collector_laws::what_is_taken();
        if self.pictures > 0 {
            self.collector.advance();
        }
    }

    // Takes the first packet of the next picture.
    fn begin(&mut self, piece: &Piece)
        requires fits { AuditFits self.old }
        requires few { self.old.pictures < 2 ^ 24 }
        requires head { IsHeadOf self.old.params.format piece.now.head }
        ensures fits { AuditFits self.new }
        ensures params { self.new.params ≡ self.old.params }
        ensures pictures { self.new.pictures ≡ self.old.pictures + 1 }
        ensures broken { self.new.broken ≡ self.old.broken }
        ensures keeps { (items : Stream) (part : StreamPart Style Mb) → AuditKeeps self.old items
            → SpellsSlice piece.now part.piece → AuditKeeps self.new (Picture (begun_by part) ∷ items) }
    {
        packet_collector_laws::what_is_taken();
        call_decoding_laws::are_rules();
        call_model_laws::sender_stands::<Styled, Styled, Mb, Pictured, MessageFault>();
        call_model_laws::searches();
        self.make_room();
        let number = self.pictures;
        self.collector.add(number, piece);
        self.selector.coded(number, 0);
        self.pictures += 1;
        self.tr = Some(piece.header.tr);
    }

    /// Judges a packet that was read, where no rule was broken before.
    pub fn judge(&mut self, piece: &Piece)
        requires fits { AuditFits self.old }
        requires few { self.old.pictures < 2 ^ 24 }
        requires head { IsHeadOf self.old.params.format piece.now.head }
        requires going { self.old.broken ≡ None }
        ensures fits { AuditFits self.new }
        ensures params { self.new.params ≡ self.old.params }
        ensures pictures { self.new.pictures ≤ self.old.pictures + 1 }
        ensures broken { IsSome self.new.broken → self.new.pictures ≡ self.old.pictures }
        ensures judged { (items : Stream) (part : StreamPart Style Mb) → AuditKeeps self.old items
            → SpellsSlice piece.now part.piece → IsPacketJudged self.old.params items part self.new }
    {
        receiver_end_laws::is_decoding();
        if !self.is_of_clock(piece) {
            let number = self.present();
            self.breaks(number, Rule::Packet);
            return;
        }
        if self.is_of_last(piece) {
            match self.broken_within(piece) {
                Some(rule) => {
                    let number = self.present();
                    self.breaks(number, rule);
                }
                None => self.add(piece),
            }
            return;
        }
        match self.broken_next(piece) {
            Some(broken) => self.breaks(broken.number, broken.rule),
            None => self.begin(piece),
        }
    }
}
