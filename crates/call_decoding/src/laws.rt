//! What the laws of a call ask of decoding. Each is the contract of a function that does nothing
//! else.
ghost use Rattle.std.specs.Prelude.{◌≡◌, List, Option};
ghost use Rattle.h263_types.specs.declared.format.Format.{Format};
ghost use Rattle.h263_types.specs.declared.blocks.Mb.{Mb};
ghost use Rattle.h263_types.specs.declared.params.Params.{Params};
ghost use Rattle.h263_types.specs.Params.{IsParams};
ghost use Rattle.h263_planes.specs.Picture.{Picture};
ghost use Rattle.h263_planes.specs.Samples.{IsWhole};
ghost use Rattle.picture_header.specs.declared.header.Header.{Header};
ghost use Rattle.picture_recon.specs.Samples as recon;
ghost use Rattle.call_model.specs.Coding.{decoded_picture};
ghost use Rattle.call_model.specs.Lawful.{IsMade, IsPictures, IsRules};
ghost use Rattle.call_decoding.specs.Rules.{rules_of};
ghost use Rattle.call_decoding.specs.Samples.{pictures};
ghost use Rattle.call_decoding.specs.Styles.{Style, header_from, call_header_of};

use h263_planes::laws::{numbered_samples, picture_by_samples};
use picture_recon::laws::samples_are_reconstruction;

/// Parameters in their ranges are those of a call.
pub fn are_rules()
    ensures { (p : Params) → IsParams p → IsRules (rules_of p) }
{}

/// A call sees all of a picture header.
pub fn whole_header()
    ensures { (h : Header) → header_from (call_header_of h) ≡ h }
{}

/// A picture is its samples (`pictures`), each whole one is made of samples (`made`), and a picture
/// of macroblocks is their reconstruction (`reconstructed`).
pub fn are_pictures()
    ensures pictures { (p : Params) → IsPictures (pictures p.format) (rules_of p) }
    ensures made { (f : Format) (p : Picture) → p.format ≡ f → IsWhole p
        → IsMade (pictures f) p }
    ensures reconstructed { (f : Format) (style : Style) (reference : Option Picture)
        (mbs : List Mb) → decoded_picture (pictures f) style reference mbs
        ≡ recon.reconstruction f style.rounding reference mbs }
{
    numbered_samples();
    picture_by_samples();
    samples_are_reconstruction();
}
