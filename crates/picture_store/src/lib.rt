//! Pictures by their numbers: those that are kept, one for each rest modulo the number of slots,
//! and those that are at work, all in one region of memory.
//!
//! A [`PictureStore`] takes its memory at the start. A work picture that is kept changes places
//! with the one that the slot held, so no sample is copied.
//!
//! ```rust
//! let mut store = PictureStore::start(alloc, Format::SubQcif, 4, 1)?;
//! store.work(0).fill(7);
//! store.keep(0, 0);
//! let sample = store.view(0).map_or(0, |p| p.bytes()[0]);
//! store.finish();
//! assert_eq!(rt; sample, 7);
//! ```
//!
//! # Decisions
//!
//! - **Loans of a store are bytes.** A function that takes bytes makes the `PictureMut` inside, and
//!   its caller needs no proof file. Workaround: of `pair -> (PictureRef, PictureMut)` the checker
//!   says "the borrow checker does not cover this function yet: a type argument holds a `&mut` and
//!   a struct that has a ghost field". It covers a struct of both, but then callers learn nothing
//!   of what was written.
#![tactic(auto)]

ghost use Rattle.std.specs.Prelude.{◌≡◌, ◌≢◌, ◌+◌, ◌<◌, ◌≤◌, ◌↔◌, [], length, vec_len, IsSome, IfSome, IfOk};
ghost use Rattle.std.specs.Vec.{vec_capacity};
ghost use Rattle.h263_region.specs.Slots.{count_of, out_of};
ghost use Rattle.h263_region.specs.Claimed.{IsHeld};
ghost use Rattle.std.specs.Borrow.{sem};

use h263_planes::PictureRef;
use h263_region::{Region, Slot};
use h263_types::{Format, OutOfMemory};
use std::alloc::Global;
use std::boxed::BoxedSlice;
use std::marker::Model;

/// Kept pictures and work pictures of one format. It has no `Drop`: it must be finished.
pub struct PictureStore {
    format: Format,
    numbers: BoxedSlice<Option<u32>>,
    region: Region,
    // those of the kept pictures first
    slots: BoxedSlice<Slot>,
}

impl Model for PictureStore {
    ghost use Rattle.std.specs.Box.{boxed_slice_items};
    ghost use Rattle.picture_store.specs.Pictures.{StoredPictures};
    ghost use Rattle.picture_store.specs.Holding.{IsStore, slot_pictures, region_room};

    ghost Value = { StoredPictures };

    ghost view = { λ s. record {
      format = s.format;
      numbers = boxed_slice_items s.numbers;
      pictures = slot_pictures s.format s.region (boxed_slice_items s.slots);
      room = region_room s.region;
    } };

    ghost invariant = { λ s. IsStore s.format (boxed_slice_items s.numbers) s.region (boxed_slice_items s.slots) };
}

impl PictureStore {
    ghost use Rattle.h263_planes.specs.Lent.{picture};
    ghost use Rattle.h263_planes.specs.Samples.{IsPicture};
    ghost use Rattle.picture_store.specs.Pictures.{works_of, slots_of, slot_of, picture_in, work_in, IsKept, IsEmpty, Keeps};
    ghost use Rattle.picture_store.specs.Lending.{LendsWork};
    ghost use Rattle.h263_planes.specs.Layout.{picture_of};
    ghost use Rattle.h263_types.specs.Sizes.{size_of_picture};

    /// A store of `slots` kept pictures, none there yet, and `works` work pictures.
    pub fn start(
        alloc: Global,
        format: Format,
        slots: u32,
        works: u32,
    ) -> Result<PictureStore, OutOfMemory>
        requires slots { (1 ≤ slots) × (slots ≤ 64) }
        requires works { (1 ≤ works) × (works ≤ 66) }
        ensures { IfOk result (IsEmpty format slots works) }
    {
        let count = slots + works;
        let numbers = vec![in alloc; None; slots as usize]?.into_boxed_slice();
        let mut held = Vec::with_capacity(alloc, count as usize)?;
        match Region::make(alloc, count, format.size()) {
            Ok(mut region) => {
                claim_all(&mut region, &mut held);
                Ok(PictureStore {
                    format,
                    numbers,
                    region,
                    slots: held.into_boxed_slice(),
                })
            }
            Err(e) => {
                held.destroy_empty();
                Err(e)
            }
        }
    }

    /// The picture of a number, where its slot keeps that one.
    pub fn view(&self, number: u32) -> Option<PictureRef<'_>>
        ensures there { IsSome result ↔ IsKept self.now number }
        ensures picture { IfSome result (λ r.
            picture r ≡ picture_in self.now (slot_of self.now number)) }
        ensures format { IfSome result (λ r. (picture r).format ≡ self.now.format) }
        ensures whole { IfSome result (λ r. IsPicture (picture r)) }
    {
        let slot = number as usize % self.numbers.len();
        if self.numbers[slot] == Some(number) {
            Some(PictureRef::new(self.format, self.region.bytes(&self.slots[slot])))
        } else {
            None
        }
    }

    /// The bytes of work picture `w`, to be written.
    pub fn work(&mut self, w: u32) -> &mut [u8]
        requires { w < works_of self.old }
        ensures* writes_back { sem 𝓛 (LendsWork self.entry w result) }
        ensures picture { picture_of self.old.format result.now ≡ work_in self.old w }
        ensures size { length result.now ≡ size_of_picture self.old.format }
    {
        let at = self.numbers.len() + w as usize;
        self.region.bytes_mut(&self.slots[at])
    }

    /// Work picture `w`.
    pub fn work_seen(&self, w: u32) -> PictureRef<'_>
        requires { w < works_of self.now }
        ensures picture { picture result ≡ work_in self.now w }
        ensures format { (picture result).format ≡ self.now.format }
        ensures whole { IsPicture (picture result) }
    {
        let at = self.numbers.len() + w as usize;
        PictureRef::new(self.format, self.region.bytes(&self.slots[at]))
    }

    /// The bytes of the kept picture of a number, to be read, and those of work picture `w`, to be
    /// written.
    pub fn pair(&mut self, number: u32, w: u32) -> (&[u8], &mut [u8])
        requires kept { IsKept self.old number }
        requires inside { w < works_of self.old }
        ensures* writes_back { sem 𝓛 (LendsWork self.entry w result.1) }
        ensures reference { picture_of self.old.format result.0.now
            ≡ picture_in self.old (slot_of self.old number) }
        ensures work { picture_of self.old.format result.1.now ≡ work_in self.old w }
        ensures reference_size { length result.0.now ≡ size_of_picture self.old.format }
        ensures work_size { length result.1.now ≡ size_of_picture self.old.format }
    {
        let slot = number as usize % self.numbers.len();
        let at = self.numbers.len() + w as usize;
        self.region.two(&self.slots[slot], &self.slots[at])
    }

    /// The bytes of one work picture, to be read, and those of another, to be written.
    pub fn works(&mut self, read: u32, write: u32) -> (&[u8], &mut [u8])
        requires read { read < works_of self.old }
        requires write { write < works_of self.old }
        requires differ { read ≢ write }
        ensures* writes_back { sem 𝓛 (LendsWork self.entry write result.1) }
        ensures seen { picture_of self.old.format result.0.now ≡ work_in self.old read }
        ensures work { picture_of self.old.format result.1.now ≡ work_in self.old write }
        ensures seen_size { length result.0.now ≡ size_of_picture self.old.format }
        ensures work_size { length result.1.now ≡ size_of_picture self.old.format }
    {
        let from = self.numbers.len() + read as usize;
        let at = self.numbers.len() + write as usize;
        self.region.two(&self.slots[from], &self.slots[at])
    }

    /// Makes work picture `w` the kept one of the number. What the slot held before is work picture
    /// `w` then.
    pub fn keep(&mut self, number: u32, w: u32)
        requires { w < works_of self.old }
        ensures { Keeps self.old self.new number w }
    {
        let slot = number as usize % self.numbers.len();
        let at = self.numbers.len() + w as usize;
        self.numbers[slot] = Some(number);
        self.slots.swap(slot, at);
    }

    /// Keeps no picture any more, in the same memory: as a store of as many slots and work pictures
    /// is at its start.
    pub fn clear(&mut self)
        ensures empty { IsEmpty self.old.format (slots_of self.old) (works_of self.old) self.new }
        ensures room { self.new.room ≡ self.old.room }
    {
        self.numbers.fill(None);
    }

    /// Gives all slots and the memory back.
    pub fn finish(self) {
        let PictureStore {
            format: _,
            numbers: _,
            mut region,
            slots,
        } = self;
        let mut slots = slots.into_vec();
        for _ in 0..slots.len() {
            let slot = slots.take_last();
            region.release(slot);
        }
        slots.destroy_empty();
        region.finish();
    }
}

// Claims all slots of a region of which none is out.
fn claim_all(region: &mut Region, slots: &mut Vec<Slot>)
    requires none { out_of region.old ≡ 0 }
    requires empty { slots.old.items ≡ [] }
    requires room { count_of region.old ≤ vec_capacity slots.old }
    ensures held { IsHeld region.new slots.new.items }
    ensures all { length slots.new.items ≡ count_of region.old }
    ensures size { region.new.size ≡ region.old.size }
    ensures bytes { region.new.bytes ≡ region.old.bytes }
    ensures count { count_of region.new ≡ count_of region.old }
{
    while let Some(slot) = region.claim() {
        slots.push_reserved(slot);
    }
}
