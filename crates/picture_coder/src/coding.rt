//! The way of a picture's macroblocks: chosen, added to the cutter, reconstructed.
ghost use Rattle.std.specs.Prelude.{◌≡◌, ◌+◌, ◌%◌, length};
ghost use Rattle.std.specs.Option.{option_map};
ghost use Rattle.h263_types.specs.Params.{IsParams};
ghost use Rattle.h263_types.specs.Sizes.{mbs_of};
ghost use Rattle.h263_planes.specs.Lent.{picture};
ghost use Rattle.h263_planes.specs.References.{HasReferenceOnlyInP};
ghost use Rattle.h263_planes.specs.Samples.{IsPicture};
ghost use Rattle.h263_planes.specs.Work.{loan_of};
ghost use Rattle.h263_planes.specs.Work as lent;
ghost use Rattle.picture_header.specs.Ranges.{IsHeader};
ghost use Rattle.mode_choice.specs.Choice.{choices_of};
ghost use Rattle.picture_recon.specs.Samples.{reconstruction};
ghost use Rattle.packet_cutter.specs.Cutting.{HoldsMbs, added_of, cut_format, limit_of, cutter_packets, sequence_of};
ghost use Rattle.packet_cutter.specs.Packets.{ArePacketsOf};

use h263_planes::{PictureMut, PictureRef};
use h263_types::Params;
use mode_choice::{Chosen, choose_into, laws as mode_choice_laws};
use packet_cutter::Cutter;
use picture_header::Header;
use picture_recon::{laws as picture_recon_laws, recon_predicted};

/// Codes `frame` as picture `number` with this header. `cutter`, which was started with these
/// parameters, then holds the picture's packets of at most `params.limit` bytes, one slice each,
/// and `work` the picture that a decoder makes of them (H.263, 6). A P picture, and no other, has a
/// reference, in which vectors of up to `params.radius` whole samples are searched. All pictures
/// have the parameters' format; what `work` held before doesn't count.
pub fn code_picture(
    frame: PictureRef<'_>,
    reference: Option<PictureRef<'_>>,
    number: u32,
    header: &Header,
    params: &Params,
    cutter: &mut Cutter,
    work: &mut PictureMut<'_>,
)
    requires header { IsHeader header.now }
    requires params { IsParams params.now }
    requires header_format { header.now.format ≡ params.now.format }
    requires frame_format { (picture frame).format ≡ params.now.format }
    requires reference { HasReferenceOnlyInP header.now.kind params.now.format
        (option_map picture reference) }
    requires cutter_format { cut_format cutter.old ≡ params.now.format }
    requires cutter_limit { limit_of cutter.old ≡ params.now.limit }
    requires work_format { (lent.work work.old).format ≡ params.now.format }

    ensures packets { ArePacketsOf number
        (sequence_of cutter.old) header.now params.now.limit (choices_of (picture frame.entry)
        (option_map picture reference.entry) header.now params.now) (cutter_packets cutter.new) }
    ensures sequence { sequence_of cutter.new
        ≡ (sequence_of cutter.old + length (cutter_packets cutter.new)) % 65536 }
    ensures cutter_format { cut_format cutter.new ≡ params.now.format }
    ensures cutter_limit { limit_of cutter.new ≡ params.now.limit }
    // No other picture is begun: the cutter holds all macroblocks of this one.
    ensures held { HoldsMbs cutter.new number header.now
        (choices_of (picture frame.entry) (option_map picture reference.entry)
        header.now params.now) }
    ensures all_added { added_of cutter.new ≡ mbs_of params.now.format }

    ensures reconstruction { lent.work work.new ≡ reconstruction
        params.now.format header.now.rounding (option_map picture reference.entry)
        (choices_of (picture frame.entry) (option_map picture reference.entry)
        header.now params.now) }
    ensures same_loan { loan_of work.new ≡ loan_of work.old }
    ensures format { (lent.work work.new).format ≡ params.now.format }
    ensures whole { IsPicture (lent.work work.new) }
{
    // There is one choice for each place, and a picture that shows them all is their
    // reconstruction.
    mode_choice_laws::one_for_each_place();
    picture_recon_laws::shown_one_by_one();
    work.is_picture();
    cutter.begin(number, header);
    let mut chosen = Chosen::new();
    for at in 0..params.format.mbs() {
        choose_into(frame, reference, at, header, params, &mut chosen);
        let marked = &chosen.marked;
        cutter.add_marked(marked);
        recon_predicted(marked, &chosen.predicted, at, header, reference, work);
    }
    cutter.finish();
}
