//! Slices reconstructed into a work picture of the store.
ghost use Rattle.std.specs.Prelude.{◌≡◌, ◌<◌, length};
ghost use Rattle.std.specs.Option.{option_map};
ghost use Rattle.h263_types.specs.Sizes.{mbs_of, size_of_picture};
ghost use Rattle.h263_planes.specs.Layout.{picture_of};
ghost use Rattle.h263_planes.specs.Lent.{picture};
ghost use Rattle.h263_planes.specs.References.{HasReference};
ghost use Rattle.picture_store.specs.Pictures.{work_in, works_of};
ghost use Rattle.packet_collector.specs.Filled.{IsPieceIn};
ghost use Rattle.receiver_end.specs.Steps.{HasItsReference, IsSameBut, IsWholeOf, SetsPiece};
ghost use Rattle.receiver_end.specs.Steps.{picture_of_reference};

use h263_planes::{PictureMut, PictureRef};
use h263_types::{Format, Mb};
use packet_collector::Piece;
use picture_recon::recon_slice;
use picture_store::PictureStore;

// Reconstructs a slice, by its reference if it has one, into bytes.
fn set_slice(
    format: Format,
    mbs: &[Mb],
    piece: &Piece,
    reference: Option<PictureRef<'_>>,
    bytes: &mut [u8],
)
    requires mbs { length mbs.now ≡ mbs_of format }
    requires piece { IsPieceIn format mbs.now piece.now }
    requires reference { HasReference piece.now.header.kind format (option_map picture reference) }
    requires bytes { length bytes.old ≡ size_of_picture format }
    ensures size { length bytes.new ≡ size_of_picture format }
    ensures whole { IsWholeOf format (picture_of format bytes.new) }
    ensures sets { SetsPiece format mbs.now piece.now (option_map picture reference.entry)
        (picture_of format bytes.old) (picture_of format bytes.new) }
{
    let mut picture = PictureMut::new(format, bytes);
    recon_slice(mbs, piece.head, &piece.header, reference, &mut picture);
}

// The same into work picture `w`, by the kept picture that is its reference.
#[tactic(auto, using(crate::proofs::Works::same_but, crate::proofs::Works::work_is))]
pub(crate) fn draw(
    store: &mut PictureStore,
    format: Format,
    mbs: &[Mb],
    piece: &Piece,
    reference: Option<u32>,
    w: u32,
)
    requires format { format ≡ store.old.format }
    requires inside { w < works_of store.old }
    requires mbs { length mbs.now ≡ mbs_of format }
    requires piece { IsPieceIn format mbs.now piece.now }
    requires kept { HasItsReference store.old piece.now.header.kind reference }
    ensures rest { IsSameBut store.old store.new w }
    ensures whole { IsWholeOf format (work_in store.new w) }
    ensures sets { SetsPiece format mbs.now piece.now (picture_of_reference store.old reference)
        (work_in store.old w) (work_in store.new w) }
{
    match reference {
        Some(m) => {
            let (reference, work) = store.pair(m, w);
            let reference = PictureRef::new(format, reference);
            set_slice(format, mbs, piece, Some(reference), work);
        }
        None => set_slice(format, mbs, piece, None, store.work(w)),
    }
}
