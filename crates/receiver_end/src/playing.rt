//! A picture is played.
ghost use Rattle.std.specs.Prelude.{◌≡◌, ◌+◌, ◌^◌, ◌<◌, List, ◌∷◌, if◌then◌else◌, is_some};
ghost use Rattle.h263_types.specs.declared.Mark.TheVariants as marks;
ghost use Rattle.packet_collector.specs.Collected.{header_in};
ghost use Rattle.call_model.specs.Receiving.{ReceiverEntry, PlayNext};
ghost use Rattle.call_model.specs.ReceiverStanding.{mark_by_kept, message_by_kept};
ghost use Rattle.call_decoding.specs.Rules.{rules_of};
ghost use Rattle.receiver_end.specs.Answers.{IsPlayed};
ghost use Rattle.receiver_end.specs.Decoding.{decoding};

use crate::answers::Played;
use crate::kept::{Kept, last_work, work_of};
use crate::laws;
use crate::numbers::named;
use crate::patching::{patch_by_kept, patch_by_work};
use call_decoding::{Pictured, Styled, laws as call_decoding_laws};
use call_model::laws as call_model_laws;
use h263_bits::Fault;
use h263_planes::laws as planes_laws;
use h263_types::{Mark, Mb};

impl Kept {
    ghost use Rattle.receiver_end.specs.State.{Fits, Stands, reference_kept, seen};
    ghost use Rattle.receiver_end.specs.Steps.{IsPatched, IsShown};

    // The mark of a picture that isn't complete.
    fn part(&self) -> Mark
        requires fits { Fits self.now }
        ensures { result ≡ (if is_some (header_in self.now.collector self.now.played)
            then marks.Patched else marks.Held) }
    {
        if self.collector.any(self.played) {
            return Mark::Patched;
        }
        Mark::Held
    }

    // The picture to which the next one refers, by the header of what was taken of it.
    fn reference(&self) -> Option<u32>
        requires { Fits self.now }
        ensures { result ≡ reference_kept self.now }
    {
        match self.collector.header(self.played) {
            None => None,
            Some(header) => named(self.played, header.trp, self.params.clock),
        }
    }

    // What the next play says.
    fn told(&self) -> Played
        requires fits { Fits self.now }
        ensures number { result.number ≡ self.now.played }
        ensures reference { result.reference ≡ reference_kept self.now }
        ensures told { IsPlayed self.now.params.clock result (mark_by_kept
            (decoding self.now.params.format) (rules_of self.now.params) (seen self.now))
            (message_by_kept (decoding self.now.params.format) (rules_of self.now.params)
            (seen self.now)) }
    {
        let reference = self.reference();
        if self.holds(self.played) {
            return Played {
                number: self.played,
                mark: Mark::Exact,
                reference,
                message: None,
            };
        }
        Played {
            number: self.played,
            mark: self.part(),
            reference,
            message: Some(self.nack()),
        }
    }

    // The macroblocks of the next picture that were not taken become those on the screen.
    fn patch(&mut self)
        requires fits { Fits self.old }
        ensures { IsPatched self.old self.new }
    {
        call_model_laws::searches();
        let w = work_of(&self.params, self.played);
        if self.exact {
            patch_by_kept(
                &mut self.store,
                self.params.format,
                &self.collector,
                self.played,
                self.played - 1,
                w,
            );
        } else {
            let last = last_work(&self.params, self.played);
            patch_by_work(
                &mut self.store,
                self.params.format,
                &self.collector,
                self.played,
                last,
                w,
            );
        }
    }

    // Puts the next picture on the screen.
    fn show(&mut self)
        requires fits { Fits self.old }
        ensures { IsShown self.old self.new }
    {
        if self.holds(self.played) {
            self.exact = true;
            return;
        }
        self.patch();
        self.exact = false;
    }

    /// Plays the next picture.
    pub fn play(&mut self) -> Played
        requires fits { Fits self.old }
        requires few { self.old.played < 2 ^ 20 }
        ensures fits { Fits self.new }
        ensures params { self.new.params ≡ self.old.params }
        ensures played { self.new.played ≡ self.old.played + 1 }
        ensures number { result.number ≡ self.old.played }
        ensures reference { result.reference ≡ reference_kept self.old }
        ensures told { IsPlayed self.old.params.clock result (mark_by_kept
            (decoding self.old.params.format) (rules_of self.old.params) (seen self.old))
            (message_by_kept (decoding self.old.params.format) (rules_of self.old.params)
            (seen self.old)) }
        ensures stands { (past : List ReceiverEntry) → Stands self.old past
            → Stands self.new (PlayNext ∷ past) }
    {
        planes_laws::numbered_samples();
        planes_laws::picture_by_samples();
        call_model_laws::searches();
        laws::is_decoding();
        call_decoding_laws::are_rules();
        call_model_laws::receiver_stands::<Styled, Mb, Pictured, Fault>();
        let played = self.told();
        self.show();
        self.collector.advance();
        self.played += 1;
        played
    }
}
