//! Calls of two parties that are worked through.
#![tactic(auto, unfolding(call_model::specs::Computing::small_calls))]

ghost use Rattle.std.specs.Prelude.{◌≡◌, None, Some, [], ◌∷◌, true};
ghost use Rattle.call_model.specs.Coding.{Exact};
ghost use Rattle.call_model.specs.IdealCall.{Back, Deliver, Play, Send};
ghost use Rattle.call_model.specs.Refusals.{Far};
ghost use Rattle.duplex_call.specs.declared.line.Party.TheVariants.{A, B};
ghost use Rattle.duplex_call.specs.Rows.{row_ends_marks, row_ends_references, row_marks};
ghost use Rattle.duplex_call.specs.Rows.{far_refusal, no_packet_ways, row_passes, row_references};
ghost use Rattle.duplex_call.specs.Rows.{row_ways, five_ways};

/// The ACK of a's picture 0 rides in the header of b's picture 0, whose two packets bring it twice.
/// So a's picture 1 refers to picture 0. The ACK of b's picture 0 rides in a's picture 1.
pub fn message_in_a_header()
    ensures near { row_passes ≡ true }
    ensures a_events { row_ways.a.past
        ≡ Play ∷ Play ∷ Deliver 1 1 ∷ Deliver 1 0 ∷ Send ∷ Back 0 ∷ Back 0
        ∷ Deliver 0 1 ∷ Deliver 0 0 ∷ Send ∷ [] }
    ensures b_events { row_ways.b.past
        ≡ Play ∷ Back 0 ∷ Back 0 ∷ Deliver 0 1 ∷ Deliver 0 0 ∷ Send ∷ [] }
    ensures a_carries { row_ways.a.carried ≡ [] ∷ (0 ∷ []) ∷ [] }
    ensures b_carries { row_ways.b.carried ≡ (0 ∷ []) ∷ [] }
    ensures a_references { row_references A ≡ None ∷ Some 0 ∷ [] }
    ensures b_references { row_references B ≡ None ∷ [] }
    ensures a_marks { row_marks A ≡ Exact ∷ Exact ∷ [] }
    ensures b_marks { row_marks B ≡ Exact ∷ [] }
    ensures a_sender { row_ends_references A ≡ None ∷ Some 0 ∷ [] }
    ensures a_receiver { row_ends_marks A ≡ Exact ∷ Exact ∷ [] }
{}

/// Of five messages that were said before a capture the last four ride in its header, and of those
/// said since then all, in the next one.
pub fn four_of_five()
    ensures carried { five_ways.b.carried ≡ (1 ∷ 2 ∷ 3 ∷ 4 ∷ []) ∷ (5 ∷ []) ∷ [] }
    ensures loaded { five_ways.b.loaded ≡ 6 }
{}

/// A delivery at a place where the picture has no packet brings none of its messages.
pub fn no_packet_brings_nothing()
    ensures carried { no_packet_ways.b.carried ≡ (0 ∷ []) ∷ [] }
    ensures a_events { no_packet_ways.a.past ≡ Deliver 0 1 ∷ Deliver 0 0 ∷ Send ∷ [] }
    ensures b_events { no_packet_ways.b.past ≡ Deliver 0 9 ∷ Send ∷ [] }
{}

/// With half a period of three pictures, a message about picture 0 is too far once three were sent:
/// so the delivery of the picture that carries it is refused, with the message's picture and what
/// its party has sent, at a place without a packet too.
pub fn far_message()
    ensures packet { far_refusal 0 ≡ Some (Far 0 3) }
    ensures no_packet { far_refusal 9 ≡ Some (Far 0 3) }
{}
