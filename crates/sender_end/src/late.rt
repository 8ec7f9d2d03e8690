//! A store whose intra pictures may be drawn late: once they are predicted from.
ghost use Rattle.std.specs.Prelude.{◌≡◌, ◌≢◌, ◌+◌, ◌%◌, ◌<◌, ◌≤◌, ℕ, None, Some, true, false, length};
ghost use Rattle.std.specs.Prelude.{IfOk, IfSome, IsSome, ◌↔◌};
ghost use Rattle.std.specs.Option.{option_map};
ghost use Rattle.h263_types.specs.Blocks.{IsMb};
ghost use Rattle.h263_types.specs.Params.{IsParams};
ghost use Rattle.h263_types.specs.Sizes.{mbs_of, size_of_picture};
ghost use Rattle.h263_types.specs.declared.Kind.TheVariants.{I};
ghost use Rattle.h263_planes.specs.Layout.{picture_of};
ghost use Rattle.h263_planes.specs.Lent.{picture};
ghost use Rattle.h263_planes.specs.References.{HasReferenceOnlyInP};
ghost use Rattle.h263_planes.specs.Samples.{IsPicture};
ghost use Rattle.picture_header.specs.Ranges.{IsHeader};
ghost use Rattle.mode_choice.specs.Choice.{choices_of};
ghost use Rattle.picture_recon.specs.Samples.{reconstruction};
ghost use Rattle.picture_recon.specs.Undrawn.{undrawn_mb, undrawn_mbs};
ghost use Rattle.packet_cutter.specs.Cutting.{cut_format, limit_of, cutter_packets, sequence_of};
ghost use Rattle.packet_cutter.specs.Packets.{ArePacketsOf};
ghost use Rattle.picture_store.specs.Pictures.{IsEmpty, IsKept, Keeps, picture_in, slot_of, slots_of, works_of};
ghost use Rattle.sender_end.specs.Coding.{HasKept, IsCodedInto, kept_picture};
ghost use Rattle.sender_end.specs.Late.{AreKeptAs, CanBeDrawn, once_drawn, quant_at};

use h263_planes::{PictureMut, PictureRef};
use h263_types::{Format, OutOfMemory, Params};
use packet_cutter::Cutter;
use picture_coder::{code_picture, code_undrawn};
use picture_header::Header;
use picture_recon::draw_undrawn;
use picture_store::PictureStore;
use std::alloc::Global;
use std::boxed::BoxedSlice;
use std::marker::Model;

/// The pictures of the last numbers, and one that is coded. It has no `Drop`: it must be finished.
pub struct LateStore {
    // Whether each picture is drawn as it is coded.
    draws_all: bool,
    store: PictureStore,
    // Of each picture, the one that is coded last: its quantiser while it isn't drawn, else 0.
    quants: BoxedSlice<u8>,
}

impl Model for LateStore {
    ghost use Rattle.std.specs.Box.{boxed_slice_items};
    ghost use Rattle.sender_end.specs.Late.{IsLateStore, LatePictures, store_once_drawn};

    ghost Value = { LatePictures };

    ghost view = { λ s. record {
      draws_all = s.draws_all;
      quants = boxed_slice_items s.quants;
      store = store_once_drawn (boxed_slice_items s.quants) s.store;
    } };

    ghost invariant = { λ s. IsLateStore s.draws_all (boxed_slice_items s.quants) s.store };
}

/// A picture's number and its header.
#[derive(Clone, Copy)]
pub struct Heading {
    pub number: u32,
    pub header: Header,
}

// Codes a picture into bytes, from its reference if it has one.
fn code_into(
    params: &Params,
    frame: PictureRef<'_>,
    reference: Option<PictureRef<'_>>,
    heading: &Heading,
    cutter: &mut Cutter,
    bytes: &mut [u8],
)
    requires header { IsHeader heading.now.header }
    requires params { IsParams params.now }
    requires header_format { heading.now.header.format ≡ params.now.format }
    requires frame_format { (picture frame).format ≡ params.now.format }
    requires reference { HasReferenceOnlyInP heading.now.header.kind params.now.format
        (option_map picture reference) }
    requires cutter_format { cut_format cutter.old ≡ params.now.format }
    requires cutter_limit { limit_of cutter.old ≡ params.now.limit }
    requires size { length bytes.old ≡ size_of_picture params.now.format }
    ensures packets { ArePacketsOf heading.now.number (sequence_of cutter.old) heading.now.header params.now.limit
        (choices_of (picture frame.entry) (option_map picture reference.entry) heading.now.header
        params.now) (cutter_packets cutter.new) }
    ensures sequence { sequence_of cutter.new
        ≡ (sequence_of cutter.old + length (cutter_packets cutter.new)) % 65536 }
    ensures cutter_format { cut_format cutter.new ≡ params.now.format }
    ensures cutter_limit { limit_of cutter.new ≡ params.now.limit }
    ensures reconstruction { picture_of params.now.format bytes.new
        ≡ reconstruction params.now.format heading.now.header.rounding
        (option_map picture reference.entry)
        (choices_of (picture frame.entry) (option_map picture reference.entry) heading.now.header
        params.now) }
{
    let mut work = PictureMut::new(params.format, bytes);
    code_picture(
        frame,
        reference,
        heading.number,
        &heading.header,
        params,
        cutter,
        &mut work,
    );
}

// Codes an I picture, whose levels it leaves in bytes.
fn code_levels_into(
    params: &Params,
    frame: PictureRef<'_>,
    heading: &Heading,
    cutter: &mut Cutter,
    bytes: &mut [u8],
)
    requires header { IsHeader heading.now.header }
    requires intra { heading.now.header.kind ≡ I }
    requires params { IsParams params.now }
    requires header_format { heading.now.header.format ≡ params.now.format }
    requires frame_format { (picture frame).format ≡ params.now.format }
    requires cutter_format { cut_format cutter.old ≡ params.now.format }
    requires cutter_limit { limit_of cutter.old ≡ params.now.limit }
    requires size { length bytes.old ≡ size_of_picture params.now.format }
    ensures packets { ArePacketsOf heading.now.number (sequence_of cutter.old) heading.now.header params.now.limit
        (choices_of (picture frame.entry) None heading.now.header params.now) (cutter_packets cutter.new) }
    ensures sequence { sequence_of cutter.new
        ≡ (sequence_of cutter.old + length (cutter_packets cutter.new)) % 65536 }
    ensures cutter_format { cut_format cutter.new ≡ params.now.format }
    ensures cutter_limit { limit_of cutter.new ≡ params.now.limit }
    ensures undrawn { undrawn_mbs heading.now.header.quant (picture_of params.now.format bytes.new)
        ≡ choices_of (picture frame.entry) None heading.now.header params.now }
    ensures in_range { (at : ℕ) → at < mbs_of params.now.format
        → IsMb (undrawn_mb heading.now.header.quant (picture_of params.now.format bytes.new) at) }
{
    let mut work = PictureMut::new(params.format, bytes);
    code_undrawn(
        frame,
        heading.number,
        &heading.header,
        params,
        cutter,
        &mut work,
    );
}

// Draws a picture into bytes.
fn draw_into(format: Format, quant: u8, undrawn: &[u8], bytes: &mut [u8])
    requires undrawn { CanBeDrawn quant (picture_of format undrawn.now) }
    requires undrawn_size { length undrawn.now ≡ size_of_picture format }
    requires size { length bytes.old ≡ size_of_picture format }
    ensures { picture_of format bytes.new
        ≡ reconstruction format 0 None (undrawn_mbs quant (picture_of format undrawn.now)) }
{
    let mut work = PictureMut::new(format, bytes);
    draw_undrawn(quant, PictureRef::new(format, undrawn), &mut work);
}

// Draws the kept picture of a number, which has this quantiser.
fn draw_kept(store: &mut PictureStore, format: Format, quant: u8, number: u32)
    requires kept { IsKept store.old number }
    requires format { store.old.format ≡ format }
    requires works { 0 < works_of store.old }
    requires some { 0 < slots_of store.old }
    requires undrawn { CanBeDrawn quant (picture_in store.old (slot_of store.old number)) }
    ensures format { store.new.format ≡ store.old.format }
    ensures numbers { store.new.numbers ≡ store.old.numbers }
    ensures pictures { length store.new.pictures ≡ length store.old.pictures }
    ensures room { store.new.room ≡ store.old.room }
    ensures drawn { picture_in store.new (slot_of store.old number)
        ≡ once_drawn quant (picture_in store.old (slot_of store.old number)) }
    ensures others { (k : ℕ) → k < slots_of store.old → k ≢ slot_of store.old number
        → picture_in store.new k ≡ picture_in store.old k }
{
    let (undrawn, bytes) = store.pair(number, 0);
    draw_into(format, quant, undrawn, bytes);
    store.keep(number, 0);
}

impl LateStore {
    /// A store of `slots` kept pictures, none there yet, which draws each picture as it is coded, or
    /// only those that need it.
    pub fn start(
        alloc: Global,
        format: Format,
        slots: u32,
        draws_all: bool,
    ) -> Result<LateStore, OutOfMemory>
        requires { (1 ≤ slots) × (slots ≤ 64) }
        ensures draws_all { IfOk result (λ late. late.draws_all ≡ draws_all) }
        ensures empty { IfOk result (λ late. IsEmpty format slots 1 late.store) }
    {
        let quants = vec![in alloc; 0; slots as usize + 1]?.into_boxed_slice();
        let store = PictureStore::start(alloc, format, slots, 1)?;
        Ok(LateStore {
            draws_all,
            store,
            quants,
        })
    }

    /// The picture of a number, where its slot keeps that one. Each is drawn as it is coded.
    pub fn view(&self, number: u32) -> Option<PictureRef<'_>>
        requires { self.now.draws_all ≡ true }
        ensures there { IsSome result ↔ IsKept self.now.store number }
        ensures picture { IfSome result (λ r.
            picture r ≡ picture_in self.now.store (slot_of self.now.store number)) }
        ensures format { IfSome result (λ r. (picture r).format ≡ self.now.store.format) }
        ensures whole { IfSome result (λ r. IsPicture (picture r)) }
    {
        self.store.view(number)
    }

    // Draws the kept picture of a number, unless it is drawn. Nothing is left of the one that was
    // coded and isn't kept.
    fn draw(&mut self, format: Format, number: u32)
        requires kept { IsKept self.old.store number }
        requires format { self.old.store.format ≡ format }
        ensures drawn { quant_at self.new.quants (slot_of self.old.store number) ≡ 0 }
        ensures work { quant_at self.new.quants (slots_of self.old.store) ≡ 0 }
        ensures same { AreKeptAs self.old.store self.new.store }
        ensures draws_all { self.new.draws_all ≡ self.old.draws_all }
    {
        let work = self.quants.len() - 1;
        let slot = number as usize % work;
        self.quants[work] = 0;
        let quant = self.quants[slot];
        if quant > 0 {
            self.quants[slot] = 0;
            draw_kept(&mut self.store, format, quant, number);
        }
    }

    // Codes an I picture.
    fn code_intra(
        &mut self,
        cutter: &mut Cutter,
        params: &Params,
        frame: PictureRef<'_>,
        heading: &Heading,
    )
        requires header { IsHeader heading.now.header }
        requires intra { heading.now.header.kind ≡ I }
        requires rounding { heading.now.header.rounding ≡ 0 }
        requires params { IsParams params.now }
        requires header_format { heading.now.header.format ≡ params.now.format }
        requires frame_format { (picture frame).format ≡ params.now.format }
        requires cutter_format { cut_format cutter.old ≡ params.now.format }
        requires cutter_limit { limit_of cutter.old ≡ params.now.limit }
        requires store_format { self.old.store.format ≡ params.now.format }
        ensures packets { ArePacketsOf heading.now.number (sequence_of cutter.old) heading.now.header params.now.limit
            (choices_of (picture frame.entry) None heading.now.header params.now) (cutter_packets cutter.new) }
        ensures sequence { sequence_of cutter.new
            ≡ (sequence_of cutter.old + length (cutter_packets cutter.new)) % 65536 }
        ensures cutter_format { cut_format cutter.new ≡ params.now.format }
        ensures cutter_limit { limit_of cutter.new ≡ params.now.limit }
        ensures store { IsCodedInto self.old.store self.new.store
            (reconstruction params.now.format heading.now.header.rounding None
            (choices_of (picture frame.entry) None heading.now.header params.now)) }
        ensures draws_all { self.new.draws_all ≡ self.old.draws_all }
    {
        if self.draws_all {
            code_into(params, frame, None, heading, cutter, self.store.work(0));
        } else {
            let work = self.quants.len() - 1;
            self.quants[work] = heading.header.quant;
            code_levels_into(params, frame, heading, cutter, self.store.work(0));
        }
    }

    // Codes a P picture, from the kept picture of this number.
    fn code_predicted(
        &mut self,
        cutter: &mut Cutter,
        params: &Params,
        frame: PictureRef<'_>,
        reference: u32,
        heading: &Heading,
    )
        requires header { IsHeader heading.now.header }
        requires params { IsParams params.now }
        requires header_format { heading.now.header.format ≡ params.now.format }
        requires kept { HasKept heading.now.header.kind self.old.store (Some reference) }
        requires frame_format { (picture frame).format ≡ params.now.format }
        requires cutter_format { cut_format cutter.old ≡ params.now.format }
        requires cutter_limit { limit_of cutter.old ≡ params.now.limit }
        requires store_format { self.old.store.format ≡ params.now.format }
        ensures packets { ArePacketsOf heading.now.number (sequence_of cutter.old) heading.now.header params.now.limit
            (choices_of (picture frame.entry) (kept_picture self.old.store (Some reference))
            heading.now.header params.now) (cutter_packets cutter.new) }
        ensures sequence { sequence_of cutter.new
            ≡ (sequence_of cutter.old + length (cutter_packets cutter.new)) % 65536 }
        ensures cutter_format { cut_format cutter.new ≡ params.now.format }
        ensures cutter_limit { limit_of cutter.new ≡ params.now.limit }
        ensures store { IsCodedInto self.old.store self.new.store
            (reconstruction params.now.format heading.now.header.rounding
            (kept_picture self.old.store (Some reference)) (choices_of (picture frame.entry)
            (kept_picture self.old.store (Some reference)) heading.now.header params.now)) }
        ensures draws_all { self.new.draws_all ≡ self.old.draws_all }
    {
        self.draw(params.format, reference);
        let (kept, work) = self.store.pair(reference, 0);
        let kept = PictureRef::new(params.format, kept);
        code_into(params, frame, Some(kept), heading, cutter, work);
    }

    /// Codes a picture into the work picture. A P picture refers to the kept picture of this number.
    pub fn code(
        &mut self,
        cutter: &mut Cutter,
        params: &Params,
        frame: PictureRef<'_>,
        reference: Option<u32>,
        heading: &Heading,
    )
        requires header { IsHeader heading.now.header }
        requires rounding { reference ≡ None → heading.now.header.rounding ≡ 0 }
        requires params { IsParams params.now }
        requires header_format { heading.now.header.format ≡ params.now.format }
        requires kept { HasKept heading.now.header.kind self.old.store reference }
        requires frame_format { (picture frame).format ≡ params.now.format }
        requires cutter_format { cut_format cutter.old ≡ params.now.format }
        requires cutter_limit { limit_of cutter.old ≡ params.now.limit }
        requires store_format { self.old.store.format ≡ params.now.format }
        ensures packets { ArePacketsOf heading.now.number (sequence_of cutter.old) heading.now.header params.now.limit
            (choices_of (picture frame.entry) (kept_picture self.old.store reference) heading.now.header
            params.now) (cutter_packets cutter.new) }
        ensures sequence { sequence_of cutter.new
            ≡ (sequence_of cutter.old + length (cutter_packets cutter.new)) % 65536 }
        ensures cutter_format { cut_format cutter.new ≡ params.now.format }
        ensures cutter_limit { limit_of cutter.new ≡ params.now.limit }
        ensures store { IsCodedInto self.old.store self.new.store
            (reconstruction params.now.format heading.now.header.rounding
            (kept_picture self.old.store reference) (choices_of (picture frame.entry)
            (kept_picture self.old.store reference) heading.now.header params.now)) }
        ensures draws_all { self.new.draws_all ≡ self.old.draws_all }
    {
        match reference {
            None => self.code_intra(cutter, params, frame, heading),
            Some(m) => self.code_predicted(cutter, params, frame, m, heading),
        }
    }

    /// Makes the work picture the kept one of the number.
    pub fn keep(&mut self, number: u32)
        ensures keeps { Keeps self.old.store self.new.store number 0 }
        ensures draws_all { self.new.draws_all ≡ self.old.draws_all }
    {
        let work = self.quants.len() - 1;
        let slot = number as usize % work;
        self.store.keep(number, 0);
        self.quants[slot] = self.quants[work];
        self.quants[work] = 0;
    }

    /// Keeps no picture any more, in the same memory.
    pub fn clear(&mut self)
        ensures empty { IsEmpty self.old.store.format (slots_of self.old.store) 1 self.new.store }
        ensures room { self.new.store.room ≡ self.old.store.room }
        ensures draws_all { self.new.draws_all ≡ self.old.draws_all }
    {
        self.store.clear();
        self.quants.fill(0);
    }

    /// Gives all memory back.
    pub fn finish(self) {
        let LateStore {
            draws_all: _,
            store,
            quants: _,
        } = self;
        store.finish();
    }
}
