//! The receiver of a call: packets in, pictures and messages out.
ghost use Rattle.std.specs.Prelude.{◌≡◌, ◌+◌, ◌^◌, ◌<◌, ◌≤◌, List, [], ◌∷◌, IfOk, false};
ghost use Rattle.h263_types.specs.Params.{IsParams};
ghost use Rattle.picture_store.specs.Pictures.{room_for};

use crate::answers::{Arrival, Heard, PacketFault, Played};
use crate::kept::Kept;
use crate::laws;
use call_decoding::{Pictured, Styled, laws as call_decoding_laws};
use call_model::laws as call_model_laws;
use h263_bits::Fault;
use h263_planes::PictureRef;
use h263_types::{Mb, OutOfMemory, Params};
use packet_collector::read_packet;
use std::alloc::Global;
use std::boxed::BoxedSlice;
use std::marker::Model;

/// The receiving end of a call. It must be finished, since it has no `Drop`.
pub struct Receiver {
    kept: Kept,
    // Room for the macroblocks of a packet, which has that of a whole picture.
    mbs: BoxedSlice<Mb>,
}

impl Model for Receiver {
    ghost use Rattle.std.specs.Prelude.{◌≡◌};
    ghost use Rattle.std.specs.Box.{boxed_slice_len};
    ghost use Rattle.h263_types.specs.Sizes.{mbs_of};
    ghost use Rattle.receiver_end.specs.declared.kept.Kept.{Kept};
    ghost use Rattle.receiver_end.specs.State.{Fits};

    ghost Value = { Kept };

    ghost view = { λ r. r.kept };

    ghost invariant = { λ r. Fits r.kept × (boxed_slice_len r.mbs ≡ mbs_of r.kept.params.format) };
}

impl Receiver {
    ghost use Rattle.h263_planes.specs.Lent.{picture};
    ghost use Rattle.h263_planes.specs.Samples.{IsPicture};
    ghost use Rattle.call_model.specs.Receiving.{ReceiverEntry, Packet, PlayNext};
    ghost use Rattle.receiver_end.specs.Answers.{IsHeard, IsPlayed, takes};
    ghost use Rattle.receiver_end.specs.State.{Stands, answer_after, mark_after, message_after};
    ghost use Rattle.receiver_end.specs.State.{number_after, plays_alone, reference_after, run_of};

    /// Nothing was heard or played. All memory of the receiver is taken here.
    pub fn start(alloc: Global, params: &Params) -> Result<Receiver, OutOfMemory>
        requires { IsParams params.now }
        ensures params { IfOk result (λ r. r.params ≡ params.now) }
        ensures played { IfOk result (λ r. r.played ≡ 0) }
        ensures room { IfOk result (λ r. r.store.room
            ≡ room_for params.now.format (params.now.slots + (params.now.lead + 2))) }
        ensures stands { IfOk result (λ r. Stands r []) }
    {
        Receiver::start_at(alloc, params, 0)
    }

    /// Nothing was heard, and this many pictures were played, 1,048,576 at most: a receiver that
    /// joins a call whose other end is there already. All memory of the receiver is taken here.
    pub fn start_at(alloc: Global, params: &Params, number: u32) -> Result<Receiver, OutOfMemory>
        requires in_range { IsParams params.now }
        requires few { number ≤ 2 ^ 20 }
        ensures params { IfOk result (λ r. r.params ≡ params.now) }
        ensures played { IfOk result (λ r. r.played ≡ number) }
        ensures room { IfOk result (λ r. r.store.room
            ≡ room_for params.now.format (params.now.slots + (params.now.lead + 2))) }
        ensures stands { IfOk result (λ r. Stands r (plays_alone number)) }
    {
        let mbs = vec![in alloc; Mb::Skip; params.format.mbs() as usize]?.into_boxed_slice();
        let kept = Kept::start(alloc, params, number)?;
        Ok(Receiver { kept, mbs })
    }

    /// Begins a call anew in the memory that it has: nothing was heard, and this many pictures were
    /// played, 1,048,576 at most.
    pub fn restart(&mut self, number: u32)
        requires { number ≤ 2 ^ 20 }
        ensures params { self.new.params ≡ self.old.params }
        ensures played { self.new.played ≡ number }
        ensures room { self.new.store.room ≡ self.old.store.room }
        ensures stands { Stands self.new (plays_alone number) }
    {
        self.kept.restart(number);
    }

    /// Reads a packet. Only where it is taken is anything changed.
    pub fn packet(&mut self, bytes: &[u8]) -> Heard
        ensures params { self.new.params ≡ self.old.params }
        ensures played { self.new.played ≡ self.old.played }
        ensures same { takes result ≡ false → self.new ≡ self.old }
        ensures answer { (past : List ReceiverEntry) → Stands self.old past
            → IsHeard self.old.params.clock result (answer_after self.old.params past bytes.now) }
        ensures stands { (past : List ReceiverEntry) → Stands self.old past
            → Stands self.new (Packet bytes.now ∷ past) }
    {
        self.arrival(bytes).heard
    }

    /// Reads a packet as `packet` does, and says of which picture it is.
    pub fn arrival(&mut self, bytes: &[u8]) -> Arrival
        ensures params { self.new.params ≡ self.old.params }
        ensures played { self.new.played ≡ self.old.played }
        ensures same { takes result.heard ≡ false → self.new ≡ self.old }
        ensures number { (past : List ReceiverEntry) → Stands self.old past
            → result.number ≡ number_after self.old.params past bytes.now }
        ensures answer { (past : List ReceiverEntry) → Stands self.old past
            → IsHeard self.old.params.clock result.heard
            (answer_after self.old.params past bytes.now) }
        ensures stands { (past : List ReceiverEntry) → Stands self.old past
            → Stands self.new (Packet bytes.now ∷ past) }
    {
        laws::is_decoding();
        call_decoding_laws::are_rules();
        call_model_laws::receiver_stands::<Styled, Mb, Pictured, Fault>();
        match read_packet(bytes, self.kept.params.format, &mut self.mbs) {
            Err(fault) => Arrival {
                heard: Heard::Refused(PacketFault::Bytes(fault)),
                number: None,
            },
            Ok(piece) => Arrival {
                number: self.kept.number_of(&piece),
                heard: self.kept.packet(&piece, &self.mbs),
            },
        }
    }

    /// Plays the next picture, which is on the screen then. At most 1,048,576 are played.
    pub fn play(&mut self) -> Played
        requires { self.old.played < 2 ^ 20 }
        ensures params { self.new.params ≡ self.old.params }
        ensures played { self.new.played ≡ self.old.played + 1 }
        ensures number { result.number ≡ self.old.played }
        ensures run { (past : List ReceiverEntry) → Stands self.old past → result.number
            ≡ (run_of self.old.params past).played }
        ensures reference { (past : List ReceiverEntry) → Stands self.old past
            → result.reference ≡ reference_after self.old.params past }
        ensures told { (past : List ReceiverEntry) → Stands self.old past
            → IsPlayed self.old.params.clock result (mark_after self.old.params past)
            (message_after self.old.params past) }
        ensures stands { (past : List ReceiverEntry) → Stands self.old past
            → Stands self.new (PlayNext ∷ past) }
    {
        laws::is_decoding();
        call_decoding_laws::are_rules();
        call_model_laws::receiver_stands::<Styled, Mb, Pictured, Fault>();
        self.kept.play()
    }

    /// The picture on the screen: the one played last, and before the first all samples are 128.
    pub fn shown(&self) -> PictureRef<'_>
        ensures run { (past : List ReceiverEntry) → Stands self.now past → picture result
            ≡ (run_of self.now.params past).screen }
        ensures format { (picture result).format ≡ self.now.params.format }
        ensures whole { IsPicture (picture result) }
    {
        self.kept.screen()
    }

    /// How many pictures were played.
    pub fn played(&self) -> u32
        ensures count { result ≡ self.now.played }
        ensures run { (past : List ReceiverEntry) → Stands self.now past → result
            ≡ (run_of self.now.params past).played }
    {
        self.kept.played
    }

    /// Gives the memory back.
    pub fn finish(self) {
        let Receiver { kept, mbs: _ } = self;
        kept.finish();
    }
}
