//! A receiver before its first packet.
ghost use Rattle.std.specs.Prelude.{◌≡◌, ◌+◌, ◌^◌, ◌<◌, ◌≤◌, [], length, IfOk};
ghost use Rattle.h263_types.specs.Params.{IsParams};
ghost use Rattle.h263_types.specs.Sizes.{size_of_picture};
ghost use Rattle.h263_planes.specs.Layout.{picture_of};
ghost use Rattle.h263_planes.specs.Spots.{picture_by};
ghost use Rattle.picture_store.specs.Pictures.{room_for, work_in, works_of};
ghost use Rattle.receiver_end.specs.Steps.{IsSameBut};

use crate::kept::{Kept, last_work};
use crate::laws;
use call_decoding::{Pictured, Styled, laws as call_decoding_laws};
use call_model::laws as call_model_laws;
use h263_bits::Fault;
use h263_planes::laws as planes_laws;
use h263_types::{Format, Mb, OutOfMemory, Params};
use packet_collector::Collector;
use picture_store::PictureStore;
use std::alloc::Global;

// Makes all samples of a picture 128.
fn grey(format: Format, bytes: &mut [u8])
    requires { length bytes.old ≡ size_of_picture format }
    ensures size { length bytes.new ≡ size_of_picture format }
    ensures picture { picture_of format bytes.new ≡ picture_by format (λ s. 128) }
{
    planes_laws::planes_are_bytes();
    planes_laws::samples_are_picture();
    bytes.fill(128);
}

// The same of a work picture.
#[tactic(auto, using(crate::proofs::Works::same_but, crate::proofs::Works::work_is))]
fn clear(store: &mut PictureStore, format: Format, w: u32)
    requires format { format ≡ store.old.format }
    requires inside { w < works_of store.old }
    ensures rest { IsSameBut store.old store.new w }
    ensures picture { work_in store.new w ≡ picture_by format (λ s. 128) }
{
    grey(format, store.work(w));
}

impl Kept {
    ghost use Rattle.receiver_end.specs.State.{Fits, Stands, plays_alone};

    /// Nothing was taken, and this many pictures were played. All memory is taken here.
    pub fn start(alloc: Global, params: &Params, number: u32) -> Result<Kept, OutOfMemory>
        requires in_range { IsParams params.now }
        requires few { number ≤ 2 ^ 20 }
        ensures fits { IfOk result Fits }
        ensures params { IfOk result (λ r. r.params ≡ params.now) }
        ensures played { IfOk result (λ r. r.played ≡ number) }
        ensures room { IfOk result (λ r. r.store.room
            ≡ room_for params.now.format (params.now.slots + (params.now.lead + 2))) }
        ensures stands { IfOk result (λ r. Stands r (plays_alone number)) }
    {
        let collector = Collector::start(alloc, params)?;
        let store = PictureStore::start(alloc, params.format, params.slots, params.lead + 2)?;
        let mut kept = Kept {
            params: *params,
            played: 0,
            exact: false,
            collector,
            store,
        };
        kept.restart(number);
        Ok(kept)
    }

    /// Nothing was taken, and this many pictures were played, in the memory that is there.
    pub fn restart(&mut self, number: u32)
        requires fits { Fits self.old }
        requires few { number ≤ 2 ^ 20 }
        ensures fits { Fits self.new }
        ensures params { self.new.params ≡ self.old.params }
        ensures played { self.new.played ≡ number }
        ensures room { self.new.store.room ≡ self.old.store.room }
        ensures stands { Stands self.new (plays_alone number) }
    {
        laws::is_decoding();
        call_decoding_laws::are_rules();
        call_model_laws::receiver_stands::<Styled, Mb, Pictured, Fault>();
        self.collector.restart(number);
        self.store.clear();
        let last = last_work(&self.params, number);
        clear(&mut self.store, self.params.format, last);
        self.played = number;
        self.exact = false;
    }
}
