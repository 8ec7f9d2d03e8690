//! Logs that are judged: over pictures of two macroblocks what the definitions say of them,
//! computed.
#![tactic(auto, unfolding(crate::specs::Computing::small_logs))]

ghost use Rattle.std.specs.Prelude.{◌≡◌, List, [], ◌∷◌};
ghost use Rattle.stream_audit.specs.declared.verdict.Rule.TheVariants as rule;
ghost use Rattle.stream_audit.specs.declared.verdict.Verdict.TheVariants.{Yes, No};
ghost use Rattle.stream_audit.specs.Stream.{Sent};
ghost use Rattle.stream_audit.specs.Worked.{MayHappenAll, ack, half_entry, intra_entry, worked_verdict, nack_entry};
ghost use Rattle.stream_audit.specs.Worked.{of_two_slots, predicted, short_period, wide};

/// Each rule, broken by itself; and streams of no picture and of two.
pub fn each_rule()
    ensures empty { worked_verdict wide [] ≡ Yes 0 }
    ensures two { worked_verdict wide (predicted wide 1 0 ∷ ack 0 ∷ intra_entry wide 0 ∷ []) ≡ Yes 2 }
    ensures packet { worked_verdict wide (Sent [] ∷ intra_entry wide 0 ∷ []) ≡ No 0 rule.Packet }
    ensures clock { worked_verdict wide (intra_entry short_period 1 ∷ intra_entry wide 0 ∷ []) ≡ No 0 rule.Packet }
    ensures number { worked_verdict wide (predicted wide 1 0 ∷ []) ≡ No 0 rule.Number }
    ensures header { worked_verdict wide (predicted wide 0 0 ∷ half_entry wide 0 0 ∷ [])
        ≡ No 0 rule.Header }
    ensures overlap { worked_verdict wide (intra_entry wide 0 ∷ intra_entry wide 0 ∷ []) ≡ No 0 rule.Overlap }
    ensures gap { worked_verdict wide (half_entry wide 0 0 ∷ []) ≡ No 0 rule.Gap }
    ensures reference { worked_verdict wide (predicted wide 1 0 ∷ intra_entry wide 0 ∷ [])
        ≡ No 1 rule.Reference }
{}

/// The first rule that is broken decides, with the number of the picture that was going on; and
/// what is missing of a picture comes before what is wrong with the next.
pub fn first_rule()
    ensures later { worked_verdict wide (Sent [] ∷ intra_entry wide 1 ∷ intra_entry wide 0 ∷ []) ≡ No 1 rule.Packet }
    ensures before { worked_verdict wide (intra_entry wide 7 ∷ Sent [] ∷ []) ≡ No 0 rule.Packet }
    ensures gap { worked_verdict wide (intra_entry wide 7 ∷ half_entry wide 0 0 ∷ []) ≡ No 0 rule.Gap }
{}

/// Feedback counts from its own place on: it may stand inside a picture, and comes too late after
/// the packet that refers to its picture. An ACK of a picture to come is one of a period before,
/// or of none.
pub fn feedback_in_its_place()
    ensures inside { worked_verdict wide
        (predicted wide 1 0 ∷ half_entry wide 0 1 ∷ ack 0 ∷ half_entry wide 0 0 ∷ []) ≡ Yes 2 }
    ensures late { worked_verdict wide (ack 0 ∷ predicted wide 1 0 ∷ intra_entry wide 0 ∷ [])
        ≡ No 1 rule.Reference }
    ensures ahead { worked_verdict wide (predicted wide 1 0 ∷ ack 1 ∷ intra_entry wide 0 ∷ [])
        ≡ No 1 rule.Reference }
    ensures offered { worked_verdict wide (predicted wide 2 0 ∷ nack_entry 1 0 ∷ intra_entry wide 1 ∷ intra_entry wide
        0 ∷ [])
        ≡ Yes 3 }
{}

/// With temporal references of two bits picture 4 has that of picture 0 again, and may refer to
/// picture 3. With a window of one picture, picture 2 may not refer to picture 0; and a message
/// about picture 0 is old then.
pub fn numbers_wrap()
    ensures wraps { worked_verdict of_two_slots (predicted of_two_slots 0 3 ∷ ack 3
        ∷ intra_entry of_two_slots 3 ∷ intra_entry of_two_slots 2 ∷ intra_entry of_two_slots 1
        ∷ intra_entry of_two_slots 0 ∷ []) ≡ Yes 5 }
    ensures window { worked_verdict of_two_slots (predicted of_two_slots 2 0 ∷ intra_entry of_two_slots 1
        ∷ ack 0 ∷ intra_entry of_two_slots 0 ∷ []) ≡ No 2 rule.Reference }
    ensures old { worked_verdict short_period (predicted short_period 2 0 ∷ ack 0 ∷ intra_entry short_period 1
        ∷ intra_entry short_period 0 ∷ []) ≡ No 2 rule.Reference }
{}

/// A near call of a stream, in which a message is brought back and another is passed over: what the
/// laws ask can be met.
pub fn near_call()
    ensures { MayHappenAll }
{}
