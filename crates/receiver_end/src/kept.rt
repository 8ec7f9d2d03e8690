//! What a receiver keeps.
ghost use Rattle.std.specs.Prelude.{◌≡◌, ◌↔◌, true};
ghost use Rattle.std.specs.Prelude.{◌≤◌, ◌^◌};
ghost use Rattle.picture_store.specs.Pictures.{IsKept};
ghost use Rattle.receiver_end.specs.State.{last_work, work_of};

use h263_planes::PictureRef;
use h263_types::Params;
use packet_collector::Collector;
use picture_store::PictureStore;

/// What a receiver keeps of its run. It has no `Drop`, since its store must be finished.
pub struct Kept {
    pub params: Params,
    pub played: u32,
    // Whether the picture on the screen is a kept one. Else it is a work picture.
    pub exact: bool,
    pub collector: Collector,
    pub store: PictureStore,
}

fn is_there(store: &PictureStore, number: u32) -> bool
    ensures { (result ≡ true) ↔ IsKept store.now number }
{
    store.view(number).is_some()
}

/// The place of a number's work picture.
pub(crate) fn work_of(params: &Params, number: u32) -> u32
    requires { params.now.lead ≤ 62 }
    ensures { result ≡ work_of params.now number }
{
    number % (params.lead + 2)
}

/// The place of the work picture that was played last, where this many were played.
pub(crate) fn last_work(params: &Params, played: u32) -> u32
    requires few { played ≤ 2 ^ 20 }
    requires lead { params.now.lead ≤ 62 }
    ensures { result ≡ last_work params.now played }
{
    (played + params.lead + 1) % (params.lead + 2)
}

impl Kept {
    ghost use Rattle.h263_planes.specs.Lent.{picture};
    ghost use Rattle.h263_planes.specs.Samples.{IsPicture};
    ghost use Rattle.picture_store.specs.Pictures.{slots_of};
    ghost use Rattle.receiver_end.specs.State.{Fits, slot_holds, screen_in};

    /// The picture on the screen.
    pub fn screen(&self) -> PictureRef<'_>
        requires { Fits self.now }
        ensures picture { picture result
            ≡ screen_in self.now.params self.now.store self.now.exact self.now.played }
        ensures format { (picture result).format ≡ self.now.params.format }
        ensures whole { IsPicture (picture result) }
    {
        if self.exact {
            if let Some(picture) = self.store.view(self.played - 1) {
                return picture;
            }
        }
        self.store.work_seen(last_work(&self.params, self.played))
    }

    /// Gives the memory of the store back.
    pub fn finish(self) {
        let Kept {
            params: _,
            played: _,
            exact: _,
            collector: _,
            store,
        } = self;
        store.finish();
    }

    /// Whether the slot of a picture has it.
    pub fn holds(&self, number: u32) -> bool
        requires { slots_of self.now.store ≡ self.now.params.slots }
        ensures value { result ≡ slot_holds self.now.params self.now.store number }
        ensures kept { (result ≡ true) ↔ IsKept self.now.store number }
    {
        is_there(&self.store, number)
    }
}
