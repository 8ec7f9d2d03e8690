//! What is chosen can be coded. Each law is the contract of a function that does nothing, or calls
//! laws of the crates below.
ghost use Rattle.std.specs.Prelude.{◌≡◌, ℕ, ◌+◌, ◌<◌, ◌≤◌, [], ◌∷◌, ◌++◌, length, slice_index_or, take, Option};
ghost use Rattle.h263_types.specs.declared.blocks.Mb.TheVariants.{Skip};
ghost use Rattle.h263_types.specs.declared.params.Params.{Params};
ghost use Rattle.h263_types.specs.Blocks.{HasQuant, IsMb, IsOfKind, IsQuant, HasWholeBlocks};
ghost use Rattle.h263_types.specs.References.{ReachesInside};
ghost use Rattle.h263_types.specs.Sizes.{mbs_of};
ghost use Rattle.h263_planes.specs.Picture.{Picture};
ghost use Rattle.h263_planes.specs.References.{HasReferenceOnlyInP};
ghost use Rattle.picture_header.specs.declared.header.Header.{Header};
ghost use Rattle.mode_choice.specs.Choice.{choice_of, choices_of};

use motion_search::laws::{best_is_a_candidate, none_before_the_least, reach_is_tested};

/// What is chosen has its numbers in the ranges that the texts of macroblocks have and all levels
/// of its blocks, may stand in a picture of the header's kind, has its quantiser, and refers to
/// samples of the reference.
pub fn chosen_is_in_range()
    ensures in_range { (frame : Picture) (reference : Option Picture) (h : Header) (params : Params)
        (mb : ℕ) → IsQuant h.quant → IsMb (choice_of frame reference h params mb) }
    ensures of_kind { (frame : Picture) (reference : Option Picture)
        (h : Header) (params : Params) (mb : ℕ) → HasReferenceOnlyInP h.kind frame.format reference
        → IsOfKind h.kind (choice_of frame reference h params mb) }
    ensures plain { (frame : Picture) (reference : Option Picture) (h : Header)
        (params : Params) (mb : ℕ) → HasQuant h.quant (choice_of frame reference h params mb) }
    ensures whole { (frame : Picture) (reference : Option Picture)
        (h : Header) (params : Params) (mb : ℕ) → HasWholeBlocks (choice_of frame reference h params mb) }
    ensures reach { (frame : Picture) (reference : Option Picture) (h : Header) (params : Params)
        (mb : ℕ) → HasReferenceOnlyInP h.kind frame.format reference → mb < mbs_of frame.format
        → ReachesInside frame.format mb (choice_of frame reference h params mb) }
{
    reach_is_tested();
    none_before_the_least();
    best_is_a_candidate();
}

/// The macroblocks that are chosen for a frame are those of a whole picture.
pub fn one_for_each_place()
    ensures count { (frame : Picture) (reference : Option Picture) (h : Header) (params : Params)
        → length (choices_of frame reference h params) ≡ mbs_of frame.format }
    ensures each { (frame : Picture) (reference : Option Picture)
        (h : Header) (params : Params) (mb : ℕ) → mb < mbs_of frame.format → slice_index_or
        (choices_of frame reference h params) mb Skip ≡ choice_of frame reference h params mb }
    ensures next { (frame : Picture) (reference : Option Picture)
        (h : Header) (params : Params) (mb : ℕ)
        → mb < mbs_of frame.format → take (mb + 1) (choices_of frame reference h params) ≡ take mb
        (choices_of frame reference h params) ++ choice_of frame reference h params mb ∷ [] }
    ensures all { (frame : Picture) (reference : Option Picture) (h : Header) (params : Params)
        → take (mbs_of frame.format) (choices_of frame reference h params)
        ≡ choices_of frame reference h params }
{}

/// A choice depends on the header by its rounding bit and its quantiser alone, and on the
/// parameters by the radius of the search and by how many coefficients are kept.
pub fn choices_depend_on()
    ensures { (frame : Picture) (reference : Option Picture) (h g : Header) (params others : Params)
        → h.rounding ≡ g.rounding → h.quant ≡ g.quant → params.radius ≡ others.radius → params.keep
        ≡ others.keep → choices_of frame reference h params ≡ choices_of frame reference g others }
{}
