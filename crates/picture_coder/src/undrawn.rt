//! The way of an intra picture's macroblocks that isn't drawn: chosen, added to the cutter, kept.
ghost use Rattle.std.specs.Prelude.{◌≡◌, ◌+◌, ◌<◌, ◌%◌, ℕ, None, length};
ghost use Rattle.h263_types.specs.Blocks.{IsMb};
ghost use Rattle.h263_types.specs.Params.{IsParams};
ghost use Rattle.h263_types.specs.Sizes.{mbs_of};
ghost use Rattle.h263_types.specs.declared.Kind.TheVariants.{I};
ghost use Rattle.h263_planes.specs.Lent.{picture};
ghost use Rattle.h263_planes.specs.Samples.{IsPicture};
ghost use Rattle.h263_planes.specs.Work.{loan_of};
ghost use Rattle.h263_planes.specs.Work as lent;
ghost use Rattle.picture_header.specs.Ranges.{IsHeader};
ghost use Rattle.mode_choice.specs.Choice.{choices_of};
ghost use Rattle.picture_recon.specs.Undrawn.{undrawn_mb, undrawn_mbs};
ghost use Rattle.packet_cutter.specs.Cutting.{HoldsMbs, added_of, cut_format, limit_of, cutter_packets, sequence_of};
ghost use Rattle.packet_cutter.specs.Packets.{ArePacketsOf};

use h263_planes::{PictureMut, PictureRef};
use h263_types::Params;
use mode_choice::{Chosen, choose_into, laws as mode_choice_laws};
use packet_cutter::Cutter;
use picture_header::Header;
use picture_recon::put_undrawn;

/// The same as [`code_picture`](crate::code_picture) for an I picture, which isn't drawn: `work`
/// holds its levels where its samples are to stand. So it is drawn when it is wanted
/// ([`draw_undrawn`](picture_recon::draw_undrawn)), by the quantiser of this header.
pub fn code_undrawn(
    frame: PictureRef<'_>,
    number: u32,
    header: &Header,
    params: &Params,
    cutter: &mut Cutter,
    work: &mut PictureMut<'_>,
)
    requires header { IsHeader header.now }
    requires intra { header.now.kind ≡ I }
    requires params { IsParams params.now }
    requires header_format { header.now.format ≡ params.now.format }
    requires frame_format { (picture frame).format ≡ params.now.format }
    requires cutter_format { cut_format cutter.old ≡ params.now.format }
    requires cutter_limit { limit_of cutter.old ≡ params.now.limit }
    requires work_format { (lent.work work.old).format ≡ params.now.format }

    ensures packets { ArePacketsOf number (sequence_of cutter.old) header.now params.now.limit
        (choices_of (picture frame.entry) None header.now params.now) (cutter_packets cutter.new) }
    ensures sequence { sequence_of cutter.new
        ≡ (sequence_of cutter.old + length (cutter_packets cutter.new)) % 65536 }
    ensures cutter_format { cut_format cutter.new ≡ params.now.format }
    ensures cutter_limit { limit_of cutter.new ≡ params.now.limit }
    // No other picture is begun: the cutter holds all macroblocks of this one.
    ensures held { HoldsMbs cutter.new number header.now
        (choices_of (picture frame.entry) None header.now params.now) }
    ensures all_added { added_of cutter.new ≡ mbs_of params.now.format }

    ensures undrawn { undrawn_mbs header.now.quant (lent.work work.new)
        ≡ choices_of (picture frame.entry) None header.now params.now }
    ensures in_range { (at : ℕ) → at < mbs_of params.now.format
        → IsMb (undrawn_mb header.now.quant (lent.work work.new) at) }
    ensures same_loan { loan_of work.new ≡ loan_of work.old }
    ensures format { (lent.work work.new).format ≡ params.now.format }
    ensures whole { IsPicture (lent.work work.new) }
{
    mode_choice_laws::one_for_each_place();
    mode_choice_laws::chosen_is_in_range();
    work.is_picture();
    cutter.begin(number, header);
    let mut chosen = Chosen::new();
    for at in 0..params.format.mbs() {
        choose_into(frame, None, at, header, params, &mut chosen);
        cutter.add_marked(&chosen.marked);
        put_undrawn(&chosen.marked.mb, at, params.format, work);
    }
    cutter.finish();
}
