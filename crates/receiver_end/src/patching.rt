//! A picture that isn't complete is shown over the one on the screen.
ghost use Rattle.std.specs.Prelude.{◌≡◌, ◌≢◌, ◌<◌, ◌&&◌, ℕ, length, nat_eq, not, if◌then◌else◌};
ghost use Rattle.h263_types.specs.Sizes.{mbs_of, size_of_picture};
ghost use Rattle.h263_types.specs.declared.Kind.TheVariants.{P};
ghost use Rattle.h263_planes.specs.declared.Plane.{Plane};
ghost use Rattle.h263_planes.specs.Blocks.{mb_of};
ghost use Rattle.h263_planes.specs.Layout.{picture_of};
ghost use Rattle.h263_planes.specs.Lent.{picture};
ghost use Rattle.h263_planes.specs.Samples.{Inside, IsPicture, sample_at};
ghost use Rattle.h263_planes.specs.Work.{loan_of, work};
ghost use Rattle.picture_header.specs.Ranges.{IsHeader};
ghost use Rattle.picture_store.specs.Pictures.{IsKept, picture_in, slot_of, work_in, works_of};
ghost use Rattle.packet_collector.specs.Collected.{IsInRow, format_of, has_in};
ghost use Rattle.receiver_end.specs.Steps.{Counts, IsSameBut, IsWholeOf, Patches};

use h263_planes::{PictureMut, PictureRef, laws as planes_laws};
use h263_types::{Format, Kind, Mb};
use packet_collector::Collector;
use picture_header::Header;
use picture_recon::recon_mb;
use picture_store::PictureStore;

// A header by which a skipped macroblock is that of the reference.
fn header_of_copies(format: Format) -> Header
    ensures format { result.format ≡ format }
    ensures kind { result.kind ≡ P }
    ensures rounding { result.rounding ≡ 0 }
{
    Header {
        kind: Kind::P,
        trp: Some(0),
        ..Header::blank(format)
    }
}

// Copies macroblock `at`, unless it was taken.
fn copy_missing(
    header: &Header,
    collector: &Collector,
    number: u32,
    at: u32,
    screen: PictureRef<'_>,
    out: &mut PictureMut<'_>,
)
    requires kind { header.now.kind ≡ P }
    requires rounding { header.now.rounding ≡ 0 }
    requires format { header.now.format ≡ format_of collector.now }
    requires row { IsInRow collector.now number }
    requires counts { Counts collector.now }
    requires at { at < mbs_of header.now.format }
    requires screen { (picture screen).format ≡ header.now.format }
    requires out { (work out.old).format ≡ header.now.format }
    requires whole { IsPicture (work out.old) }
    ensures same_loan { loan_of out.new ≡ loan_of out.old }
    ensures format { (work out.new).format ≡ header.now.format }
    ensures whole { IsPicture (work out.new) }
    ensures samples { (plane : Plane) (x y : ℕ) → Inside header.now.format plane x y 1
        → sample_at (work out.new) plane x y
        ≡ (if nat_eq (mb_of header.now.format plane x y) at && not
        (has_in collector.now number at) then sample_at (picture screen.entry) plane x y
        else sample_at (work out.old) plane x y) }
{
    if !collector.has(number, at) {
        recon_mb(&Mb::Skip, at, header, Some(screen), out);
    }
}

// Copies each macroblock that was not taken.
fn copy_all_missing(
    format: Format,
    collector: &Collector,
    number: u32,
    screen: PictureRef<'_>,
    out: &mut PictureMut<'_>,
)
    requires format { format ≡ format_of collector.now }
    requires row { IsInRow collector.now number }
    requires counts { Counts collector.now }
    requires screen { (picture screen).format ≡ format }
    requires out { (work out.old).format ≡ format }
    requires whole { IsPicture (work out.old) }
    ensures same_loan { loan_of out.new ≡ loan_of out.old }
    ensures format { (work out.new).format ≡ format }
    ensures whole { IsPicture (work out.new) }
    ensures patches { Patches format (has_in collector.now number) (picture screen.entry)
        (work out.old) (work out.new) }
{
    planes_laws::numbered_samples();
    let header = header_of_copies(format);
    for at in 0..format.mbs() {
        copy_missing(&header, collector, number, at, screen, out);
    }
}

// The same of bytes.
fn patch_bytes(format: Format, collector: &Collector, number: u32, screen: &[u8], bytes: &mut [u8])
    requires format { format ≡ format_of collector.now }
    requires row { IsInRow collector.now number }
    requires counts { Counts collector.now }
    requires screen { length screen.now ≡ size_of_picture format }
    requires bytes { length bytes.old ≡ size_of_picture format }
    ensures size { length bytes.new ≡ size_of_picture format }
    ensures whole { IsWholeOf format (picture_of format bytes.new) }
    ensures patches { Patches format (has_in collector.now number) (picture_of format screen.now)
        (picture_of format bytes.old) (picture_of format bytes.new) }
{
    let screen = PictureRef::new(format, screen);
    let mut out = PictureMut::new(format, bytes);
    copy_all_missing(format, collector, number, screen, &mut out);
}

// The macroblocks of work picture `w` that were not taken of picture `number` become those of kept
// picture `m`.
#[tactic(auto, using(crate::proofs::Works::same_but, crate::proofs::Works::work_is))]
pub(crate) fn patch_by_kept(
    store: &mut PictureStore,
    format: Format,
    collector: &Collector,
    number: u32,
    m: u32,
    w: u32,
)
    requires format { format ≡ store.old.format }
    requires collected { format ≡ format_of collector.now }
    requires row { IsInRow collector.now number }
    requires counts { Counts collector.now }
    requires inside { w < works_of store.old }
    requires kept { IsKept store.old m }
    ensures rest { IsSameBut store.old store.new w }
    ensures whole { IsWholeOf format (work_in store.new w) }
    ensures patches { Patches format (has_in collector.now number) (picture_in store.old
        (slot_of store.old m)) (work_in store.old w) (work_in store.new w) }
{
    let (screen, work) = store.pair(m, w);
    patch_bytes(format, collector, number, screen, work);
}

// The same, of another work picture.
#[tactic(auto, using(crate::proofs::Works::same_but, crate::proofs::Works::work_is))]
pub(crate) fn patch_by_work(
    store: &mut PictureStore,
    format: Format,
    collector: &Collector,
    number: u32,
    from: u32,
    w: u32,
)
    requires format { format ≡ store.old.format }
    requires collected { format ≡ format_of collector.now }
    requires row { IsInRow collector.now number }
    requires counts { Counts collector.now }
    requires from { from < works_of store.old }
    requires inside { w < works_of store.old }
    requires differ { from ≢ w }
    ensures rest { IsSameBut store.old store.new w }
    ensures whole { IsWholeOf format (work_in store.new w) }
    ensures patches { Patches format (has_in collector.now number) (work_in store.old from)
        (work_in store.old w) (work_in store.new w) }
{
    let (screen, work) = store.works(from, w);
    patch_bytes(format, collector, number, screen, work);
}
