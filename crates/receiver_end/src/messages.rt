//! The messages that a receiver says (H.263, Annex N).
ghost use Rattle.std.specs.Prelude.{◌≡◌, ◌%◌, ◌<◌, ◌≤◌, ◌^◌, cond};
ghost use Rattle.h263_types.specs.Clocks.{period_of};
ghost use Rattle.picture_store.specs.Pictures.{slots_of};
ghost use Rattle.back_messages.specs.Text.{AreMarks};
ghost use Rattle.reference_selector.specs.Messages.{flags_in, is_flagged};
ghost use Rattle.call_model.specs.Coding as call;
ghost use Rattle.call_model.specs.Numbers.{flags_of};
ghost use Rattle.call_model.specs.Receiving.{nack};
ghost use Rattle.call_model.specs.ReceiverStanding.{offer_by_kept};
ghost use Rattle.call_decoding.specs.Rules.{rules_of};
ghost use Rattle.receiver_end.specs.Decoding.{decoding};
ghost use Rattle.receiver_end.specs.Answers.{IsSaid};

use crate::kept::Kept;
use back_messages::{Message, Said, write};
use call_model::laws as call_model_laws;

fn bit(flag: bool) -> u16
    ensures { result ≡ cond flag 1 0 }
{
    if flag { 1 } else { 0 }
}

impl Kept {
    ghost use Rattle.receiver_end.specs.State.{Fits, slot_holds, seen};
    ghost use Rattle.receiver_end.specs.Steps.{ack_of};

    // The flags of the 14 numbers after `number`, of the last one first.
    fn flags(&self, number: u32) -> u16
        requires slots { slots_of self.now.store ≡ self.now.params.slots }
        requires number { number ≤ 2 ^ 21 }
        ensures few { result < 2 ^ 14 }
        ensures flags { flags_of 14 (is_flagged result) 0
            ≡ flags_of 14 (slot_holds self.now.params self.now.store) number }
    {
        let mut flags = 0;
        for j in 0..14u32 {
            flags = 2 * flags + bit(self.holds(number + 14 - j));
        }
        flags
    }

    // The flags of a message about a picture: none in version 1.
    fn marks(&self, number: u32) -> Option<u16>
        requires slots { slots_of self.now.store ≡ self.now.params.slots }
        requires number { number ≤ 2 ^ 21 }
        ensures few { AreMarks result }
        ensures flags { flags_in result
            ≡ flags_of (call.Rules.flags (rules_of self.now.params))
            (slot_holds self.now.params self.now.store) number }
    {
        if self.params.messages == 2 {
            Some(self.flags(number))
        } else {
            None
        }
    }

    /// The message that acknowledges a picture.
    pub fn ack(&self, number: u32) -> Said
        requires slots { slots_of self.now.store ≡ self.now.params.slots }
        requires number { number ≤ 2 ^ 21 }
        ensures { IsSaid self.now.params.clock result
            (ack_of self.now.params self.now.store number) }
    {
        write(&Message::Ack {
            tr: (number % self.params.clock.period()) as u16,
            marks: self.marks(number),
        })
    }

    // The greatest complete number above `played - slots`.
    fn offer(&self) -> Option<u32>
        requires fits { Fits self.now }
        ensures { result ≡ offer_by_kept (decoding self.now.params.format)
            (rules_of self.now.params) (seen self.now) }
    {
        call_model_laws::searches();
        let top = self.played + self.params.lead;
        'scan: for i in 0..self.params.slots + self.params.lead {
            if i > top {
                return None;
            }
            if self.holds(top - i) {
                return Some(top - i);
            }
        }
        None
    }

    /// The message that the next picture isn't complete. It offers another one, or names that one
    /// again.
    pub fn nack(&self) -> Said
        requires fits { Fits self.now }
        ensures { IsSaid self.now.params.clock result (nack
            (rules_of self.now.params) self.now.played (offer_by_kept
            (decoding self.now.params.format) (rules_of self.now.params) (seen self.now))
            (flags_of (call.Rules.flags (rules_of self.now.params))
            (slot_holds self.now.params self.now.store) self.now.played)) }
    {
        let period = self.params.clock.period();
        let offered = self.offer().unwrap_or(self.played);
        write(&Message::Nack {
            tr: (self.played % period) as u16,
            rtr: (offered % period) as u16,
            marks: self.marks(self.played),
        })
    }
}
