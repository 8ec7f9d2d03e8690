//! What an audit judges by what it keeps.
ghost use Rattle.std.specs.Option.{option_map_or};
ghost use Rattle.std.specs.Prelude.{nat_eq, false, ◌≡◌, ◌-◌, ◌<◌, ◌^◌, ◌↔◌, Some, None, true};
ghost use Rattle.h263_types.specs.Blocks.{IsHeadOf};
ghost use Rattle.h263_types.specs.declared.blocks.Mb.{Mb};
ghost use Rattle.call_model.specs.Coding as call;
ghost use Rattle.call_decoding.specs.Rules.{rules_of};
ghost use Rattle.call_decoding.specs.Styles.{Style, call_header_of};
ghost use Rattle.call_encoding.specs.Messages.{read_message};
ghost use Rattle.receiver_end.specs.Decoding.{decoding};

use crate::kept::Kept;
use crate::verdict::{Broken, Rule};
use call_decoding::laws as call_decoding_laws;
use call_model::laws as call_model_laws;
use h263_types::Clock;
use packet_collector::{Piece, Place, laws as packet_collector_laws};
use picture_header::Header;
use receiver_end::laws as receiver_end_laws;
use reference_selector::nearest_below;

fn is_same_clock(a: Clock, b: Clock) -> bool
    ensures { (result ≡ true) ↔ (a ≡ b) }
{
    a == b
}

// Whether it is the temporal reference of the last picture.
fn is_last(tr: Option<u16>, number: u16) -> bool
    ensures { result ≡ option_map_or (λ n. nat_eq n number) tr false }
{
    match tr {
        Some(last) => last == number,
        None => false,
    }
}

impl Kept {
    ghost use Rattle.packet_collector.specs.Collected.{IsFreshIn};
    ghost use Rattle.stream_audit.specs.Logs.{Stream};
    ghost use Rattle.stream_audit.specs.State.{AuditFits, AuditKeeps, SpellsSlice};
    ghost use Rattle.stream_audit.specs.Stream.{StreamPicture, last_picture};
    ghost use Rattle.stream_audit.specs.Stream as stream;
    ghost use Rattle.stream_audit.specs.Verdict.{broken_within, broken_next, item_has_reference};
    ghost use Rattle.stream_audit.specs.Verdict.{last_is_whole};

    /// Whether a packet is of the picture clock.
    pub fn is_of_clock(&self, piece: &Piece) -> bool
        ensures { (result ≡ true) ↔ (piece.now.header.clock ≡ self.now.params.clock) }
    {
        is_same_clock(piece.header.clock, self.params.clock)
    }

    /// Whether a packet is of the last picture. There is one then.
    pub fn is_of_last(&self, piece: &Piece) -> bool
        requires { AuditFits self.now }
        ensures some { result ≡ true → 0 < self.now.pictures }
        ensures value { (items : Stream) (q : call.Piece Style Mb) → AuditKeeps self.now items
            → SpellsSlice piece.now q → result ≡ stream.is_of_piece (last_picture items) q }
    {
        is_last(self.tr, piece.header.tr)
    }

    /// The rule that a packet of the last picture breaks. One that breaks none may be added.
    pub fn broken_within(&self, piece: &Piece) -> Option<Rule>
        requires fits { AuditFits self.now }
        requires head { IsHeadOf self.now.params.format piece.now.head }
        ensures rule { (items : Stream) (p : StreamPicture Style Mb) (q : call.Piece Style Mb)
            → AuditKeeps self.now items → last_picture items ≡ Some p → SpellsSlice piece.now q
            → result ≡ broken_within (decoding self.now.params.format)
            (read_message self.now.params.clock) (rules_of self.now.params) (Some p) q }
        ensures fresh { result ≡ None
            → IsFreshIn self.now.collector (self.now.pictures - 1) piece.now }
    {
        receiver_end_laws::is_decoding();
        call_model_laws::searches();
        call_decoding_laws::whole_header();
        packet_collector_laws::what_is_taken();
        match self.collector.place(self.present(), piece) {
            Place::HeaderDiffers => Some(Rule::Header),
            Place::Repeat => Some(Rule::Overlap),
            Place::Overlap => Some(Rule::Overlap),
            Place::Fresh => None,
        }
    }

    /// Whether the last picture, if there is one, has all its macroblocks.
    pub fn is_whole(&self) -> bool
        requires { AuditFits self.now }
        ensures { (items : Stream) → AuditKeeps self.now items
            → result ≡ last_is_whole (rules_of self.now.params) items }
    {
        match self.tr {
            None => true,
            Some(_) => self.collector.whole(self.present()),
        }
    }

    /// The rule that the first packet of the next picture breaks, and where.
    pub fn broken_next(&self, piece: &Piece) -> Option<Broken>
        requires { AuditFits self.now }
        ensures { (items : Stream) (q : call.Piece Style Mb) → AuditKeeps self.now items
            → SpellsSlice piece.now q → result ≡ broken_next (decoding self.now.params.format)
            (read_message self.now.params.clock) (rules_of self.now.params) items q }
    {
        if !self.is_whole() {
            let number = self.present();
            return Some(Broken {
                number,
                rule: Rule::Gap,
            });
        }
        let number = self.pictures;
        if u32::from(piece.header.tr) != number % self.params.clock.period() {
            return Some(Broken {
                number,
                rule: Rule::Number,
            });
        }
        if !self.has_reference(&piece.header) {
            return Some(Broken {
                number,
                rule: Rule::Reference,
            });
        }
        None
    }

    // Whether the next picture may have the reference that its header names, if it names one.
    fn has_reference(&self, header: &Header) -> bool
        requires { AuditFits self.now }
        ensures { (items : Stream) → AuditKeeps self.now items → result
            ≡ item_has_reference (decoding self.now.params.format) (read_message self.now.params.clock)
            (rules_of self.now.params) items (call_header_of header.now) }
    {
        let Some(rest) = header.trp else {
            return true;
        };
        let Some(m) = nearest_below(self.pictures, rest, self.params.clock) else {
            return false;
        };
        if self.pictures > m + (self.params.slots - self.params.lead - 1) {
            return false;
        }
        self.selector.knows(m)
    }
}
