//! Calls that are worked through over pictures of two samples: what the definitions give, computed.
//! In each the ideal call and both ends come out the same.
#![tactic(auto, unfolding(crate::specs::Computing::small_calls))]

ghost use Rattle.std.specs.Prelude.{◌≡◌, ℕ, None, Some, List, [], ◌∷◌, slice_get, true};
ghost use Rattle.call_model.specs.Coding.{Ack, Exact, Held, Nack, Patched, Rules};
ghost use Rattle.call_model.specs.CodedPictures.{is_among};
ghost use Rattle.call_model.specs.IdealCall.{Deliver, Got, Lost};
ghost use Rattle.call_model.specs.Lawful.{IsCoding};
ghost use Rattle.call_model.specs.Receiving.{Completed, Early, HeaderDiffers, Late};
ghost use Rattle.call_model.specs.Receiving.{MissingReference};
ghost use Rattle.call_model.specs.Receiving.{OtherClock, Overlap, Refused, Repeat, Taken};
ghost use Rattle.call_model.specs.Refusals.{Far, first_refusal};
ghost use Rattle.call_model.specs.Sending.{last_numbers, Noted, Old};
ghost use Rattle.call_model.specs.SmallCoding.{small, small_decoding, Unread};
ghost use Rattle.call_model.specs.Store.{store_slot};
ghost use Rattle.call_model.specs.Worked.{all_near, scene_answers, texts_of_said, worked_call, depths, scene_ends};
ghost use Rattle.call_model.specs.Worked.{flat};
ghost use Rattle.call_model.specs.Worked.{marks, pictures_shown, quants, references, scene_rules};
ghost use Rattle.call_model.specs.Worked.{ScenesAgree, ScenesAreLawful};
ghost use Rattle.call_model.specs.Worked.{worked_reply, first_flag, half_packet, no_flags};
ghost use Rattle.call_model.specs.Worked.{other_clock_packet, sender_after, then_heard};
ghost use Rattle.call_model.specs.Worked.{whole_packet};
ghost use Rattle.call_model.specs.Worked.{chain_scene, far_offer_scene, flags_scene, late_scene};
ghost use Rattle.call_model.specs.Worked.{newer_offer_scene, offer_scene, paced_scene};
ghost use Rattle.call_model.specs.Worked.{own_answers, own_scene, patched_scene};
ghost use Rattle.call_model.specs.Worked.{shuffled_scene, wide_late_scene, wide_window_scene};
ghost use Rattle.call_model.specs.Worked.{window_scene, wrap_scene};

/// The window of four slots and a lead of one has two pictures: picture 2 may still refer to
/// picture 0, picture 3 may not.
pub fn window_ends()
    ensures near { all_near window_scene ≡ true }
    ensures references { references (worked_call window_scene).coded
        ≡ None ∷ Some 0 ∷ Some 0 ∷ None ∷ [] }
    ensures marks { marks (worked_call window_scene).plays ≡ Exact ∷ Held ∷ Held ∷ Exact ∷ [] }
    ensures sender { references (scene_ends window_scene).sender.coded
        ≡ None ∷ Some 0 ∷ Some 0 ∷ None ∷ [] }
    ensures receiver { marks (scene_ends window_scene).plays ≡ Exact ∷ Held ∷ Held ∷ Exact ∷ [] }
{}

/// A NACK of picture 1 offers picture 0, whose ACK has not come back: picture 2 refers to picture
/// 0.
pub fn nack_offers_older_picture()
    ensures near { all_near offer_scene ≡ true }
    ensures said { (worked_call offer_scene).said ≡ Got 0 [] ∷ Lost 1 (Some 0) [] ∷ Got 2 [] ∷ [] }
    ensures references { references (worked_call offer_scene).coded ≡ None ∷ None ∷ Some 0 ∷ [] }
    ensures bytes { texts_of_said (scene_ends offer_scene).said
        ≡ (0 ∷ 0 ∷ []) ∷ (1 ∷ 1 ∷ 0 ∷ []) ∷ (0 ∷ 2 ∷ []) ∷ [] }
    ensures sender { references (scene_ends offer_scene).sender.coded ≡ None ∷ None ∷ Some 0 ∷ [] }
    ensures receiver { marks (scene_ends offer_scene).plays ≡ Exact ∷ Held ∷ Exact ∷ [] }
{}

/// With four slots the NACK of picture 3 is the last that offers picture 0. The one of picture 4
/// has none to offer, and names picture 4 itself.
pub fn offers_end()
    ensures near { all_near far_offer_scene ≡ true }
    ensures said { (worked_call far_offer_scene).said
        ≡ Got 0 [] ∷ Lost 1 (Some 0) [] ∷ Lost 2 (Some 0) [] ∷ Lost 3 (Some 0) []
        ∷ Lost 4 None [] ∷ [] }
    ensures bytes { texts_of_said (scene_ends far_offer_scene).said
        ≡ (0 ∷ 0 ∷ []) ∷ (1 ∷ 1 ∷ 0 ∷ []) ∷ (1 ∷ 2 ∷ 0 ∷ []) ∷ (1 ∷ 3 ∷ 0 ∷ []) ∷ (1 ∷ 4 ∷ 4
        ∷ []) ∷ [] }
{}

/// A chain of 131 references does not grow: picture 132 is coded intra, though picture 131 is
/// known.
pub fn chain_limit()
    ensures near { all_near chain_scene ≡ true }
    ensures last { slice_get (references (worked_call chain_scene).coded) 131 ≡ Some (Some 130) }
    ensures depth { slice_get (depths (worked_call chain_scene).coded) 131 ≡ Some 131 }
    ensures known { is_among (worked_call chain_scene).known 131 ≡ true }
    ensures intra { slice_get (references (worked_call chain_scene).coded) 132 ≡ Some None }
    ensures sender { slice_get (references (scene_ends chain_scene).sender.coded) 132 ≡ Some None }
    ensures receiver { slice_get (marks (scene_ends chain_scene).plays) 132 ≡ Some Exact }
{}

/// A packet that comes after its picture's play is late, and changes nothing: the picture stays
/// patched, its first half as decoded and its second grey, and a NACK of it is all that is said.
pub fn late_packet()
    ensures near { all_near late_scene ≡ true }
    ensures answers { scene_answers late_scene ≡ Taken ∷ Late ∷ [] }
    ensures said { (worked_call late_scene).said ≡ Lost 0 None [] ∷ [] }
    ensures marks { marks (worked_call late_scene).plays ≡ Patched ∷ [] }
    ensures pictures { pictures_shown (worked_call late_scene).plays
        ≡ record { left = 100; right = 128 } ∷ [] }
    ensures receiver { pictures_shown (scene_ends late_scene).plays
        ≡ record { left = 100; right = 128 } ∷ [] }
    ensures bytes { texts_of_said (scene_ends late_scene).said ≡ (1 ∷ 0 ∷ 0 ∷ []) ∷ [] }
{}

/// The packets of a picture may come in any order and more than once: each is taken once, and one
/// ACK is said.
pub fn any_order()
    ensures near { all_near shuffled_scene ≡ true }
    ensures answers { scene_answers shuffled_scene ≡ Taken ∷ Repeat ∷ Completed (Ack 0 []) ∷ Repeat ∷ [] }
    ensures said { (worked_call shuffled_scene).said ≡ Got 0 [] ∷ [] }
    ensures pictures { pictures_shown (worked_call shuffled_scene).plays ≡ flat 100 ∷ [] }
    ensures receiver { pictures_shown (scene_ends shuffled_scene).plays ≡ flat 100 ∷ [] }
{}

/// The sender has four slots and a lead of one, so its picture 2 refers to picture 0. A receiver with
/// a smaller lead takes it, and so does one with a greater lead and as many slots more. With the
/// greater lead alone its window has one picture, and it refuses the packets.
pub fn own_windows()
    ensures near { all_near own_scene ≡ true }
    ensures references { references (worked_call own_scene).coded ≡ None ∷ Some 0 ∷ Some 0 ∷ [] }
    ensures smaller_lead { own_answers 4 0 own_scene
        ≡ Taken ∷ Completed (Ack 0 []) ∷ Taken ∷ Completed (Ack 2 []) ∷ [] }
    ensures both_greater { own_answers 5 2 own_scene
        ≡ Taken ∷ Completed (Ack 0 []) ∷ Taken ∷ Completed (Ack 2 []) ∷ [] }
    ensures greater_lead { own_answers 4 2 own_scene
        ≡ Taken ∷ Completed (Ack 0 []) ∷ MissingReference ∷ MissingReference ∷ [] }
{}

/// Half of picture 1 comes: it is shown patched, and a NACK of it offers picture 0. So picture 2
/// refers to picture 0 and not to picture 1, and is exact.
pub fn patched_picture_kept_out()
    ensures near { all_near patched_scene ≡ true }
    ensures said { (worked_call patched_scene).said ≡ Got 0 [] ∷ Lost 1 (Some 0) [] ∷ Got 2 [] ∷ [] }
    ensures known { (worked_call patched_scene).known ≡ 0 ∷ 0 ∷ [] }
    ensures references { references (worked_call patched_scene).coded ≡ None ∷ Some 0 ∷ Some 0 ∷ [] }
    ensures marks { marks (worked_call patched_scene).plays ≡ Exact ∷ Patched ∷ Exact ∷ [] }
    ensures sender { (scene_ends patched_scene).sender.known ≡ 0 ∷ 0 ∷ [] }
    ensures receiver { pictures_shown (scene_ends patched_scene).plays
        ≡ flat 100 ∷ record { left = 50; right = 100 } ∷ flat 100 ∷ [] }
{}

/// Two pictures were played, picture 0 is complete, and half of picture 2 was taken, which refers
/// to picture 0. To the other half picture 2 is complete. The same half again is a repeat. With
/// another header it is refused, and so are bytes that spell nothing. Picture 3 may not refer to
/// picture 0, which is out of its window, nor to picture 1, which is not complete. Picture 1 is
/// late, and picture 4 is early. A packet of both halves overlaps. One of the other picture clock
/// is refused as such, even of picture 1.
pub fn each_answer()
    ensures completed { then_heard (half_packet 2 (Some 0) 1 1) ≡ Completed (Ack 2 []) }
    ensures repeat { then_heard (half_packet 2 (Some 0) 1 0) ≡ Repeat }
    ensures other_header { then_heard (half_packet 2 (Some 0) 2 1) ≡ HeaderDiffers }
    ensures unread { then_heard [] ≡ Refused Unread }
    ensures out_of_window { then_heard (half_packet 3 (Some 0) 1 0) ≡ MissingReference }
    ensures not_complete { then_heard (half_packet 3 (Some 1) 1 0) ≡ MissingReference }
    ensures late { then_heard (half_packet 1 (Some 0) 1 0) ≡ Late }
    ensures early { then_heard (half_packet 4 None 0 0) ≡ Early }
    ensures overlap { then_heard (whole_packet 2 (Some 0) 1) ≡ Overlap }
    ensures other_clock { then_heard (other_clock_packet 1 0) ≡ OtherClock }
{}

/// Picture 259 has the temporal reference of picture 3, which the receiver still keeps, after a
/// wrap of 256. Picture 260 names it, and is decoded from picture 259.
pub fn same_trp_after_wrap()
    ensures near { all_near wrap_scene ≡ true }
    ensures kept { store_slot small_decoding wrap_scene.rules (scene_ends wrap_scene).receiver 3
        ≡ Some 3 }
    ensures reference { slice_get (references (worked_call wrap_scene).coded) 260 ≡ Some (Some 259) }
    ensures sender { slice_get (references (scene_ends wrap_scene).sender.coded) 260
        ≡ Some (Some 259) }
    ensures mark { slice_get (marks (scene_ends wrap_scene).plays) 260 ≡ Some Exact }
    ensures picture { slice_get (pictures_shown (scene_ends wrap_scene).plays) 260 ≡ Some (flat 100) }
{}

/// Picture 1 arrives and picture 0 doesn't: the NACK of picture 0 offers picture 1, above its own,
/// and picture 2 refers to it.
pub fn nack_offers_newer_picture()
    ensures near { all_near newer_offer_scene ≡ true }
    ensures said { (worked_call newer_offer_scene).said
        ≡ Got 1 [] ∷ Lost 0 (Some 1) [] ∷ Got 2 [] ∷ [] }
    ensures bytes { texts_of_said (scene_ends newer_offer_scene).said
        ≡ (0 ∷ 1 ∷ []) ∷ (1 ∷ 0 ∷ 1 ∷ []) ∷ (0 ∷ 2 ∷ []) ∷ [] }
    ensures references { references (worked_call newer_offer_scene).coded ≡ None ∷ None ∷ Some 1 ∷ [] }
    ensures sender { references (scene_ends newer_offer_scene).sender.coded
        ≡ None ∷ None ∷ Some 1 ∷ [] }
    ensures marks { marks (worked_call newer_offer_scene).plays ≡ Held ∷ Exact ∷ Exact ∷ [] }
    ensures receiver { marks (scene_ends newer_offer_scene).plays ≡ Held ∷ Exact ∷ Exact ∷ [] }
{}

/// Of pictures 0 and 1 both are complete, and the ACK of picture 1 is lost. With version 2 the ACK
/// of picture 0 flags picture 1, and picture 3 refers to picture 1.
pub fn flags_tell_of_later_picture()
    ensures near { all_near (flags_scene 14) ≡ true }
    ensures said { (worked_call (flags_scene 14)).said
        ≡ Got 1 (no_flags 14) ∷ Got 0 (first_flag 14) ∷ Got 3 (no_flags 14)
        ∷ Lost 2 (Some 3) (first_flag 14) ∷ [] }
    ensures known { (worked_call (flags_scene 14)).known ≡ 0 ∷ 1 ∷ [] }
    ensures bytes { slice_get (texts_of_said (scene_ends (flags_scene 14)).said) 1
        ≡ Some (0 ∷ 0 ∷ 1 ∷ 0 ∷ 0 ∷ 0 ∷ 0 ∷ 0 ∷ 0 ∷ 0 ∷ 0 ∷ 0 ∷ 0 ∷ 0 ∷ 0 ∷ 0 ∷ []) }
    ensures references { references (worked_call (flags_scene 14)).coded
        ≡ None ∷ None ∷ None ∷ Some 1 ∷ [] }
    ensures sender { references (scene_ends (flags_scene 14)).sender.coded
        ≡ None ∷ None ∷ None ∷ Some 1 ∷ [] }
    ensures marks { marks (worked_call (flags_scene 14)).plays ≡ Exact ∷ Exact ∷ Held ∷ Exact ∷ [] }
    ensures receiver { marks (scene_ends (flags_scene 14)).plays ≡ Exact ∷ Exact ∷ Held ∷ Exact ∷ [] }
{}

/// With version 1 nothing tells of picture 1: picture 3 refers to picture 0.
pub fn no_flags_tell_nothing()
    ensures near { all_near (flags_scene 0) ≡ true }
    ensures said { (worked_call (flags_scene 0)).said
        ≡ Got 1 [] ∷ Got 0 [] ∷ Got 3 [] ∷ Lost 2 (Some 3) [] ∷ [] }
    ensures known { (worked_call (flags_scene 0)).known ≡ 0 ∷ [] }
    ensures references { references (worked_call (flags_scene 0)).coded
        ≡ None ∷ None ∷ None ∷ Some 0 ∷ [] }
    ensures sender { references (scene_ends (flags_scene 0)).sender.coded
        ≡ None ∷ None ∷ None ∷ Some 0 ∷ [] }
    ensures receiver { marks (scene_ends (flags_scene 0)).plays ≡ Exact ∷ Exact ∷ Held ∷ Exact ∷ [] }
{}

/// With temporal references of ten bits and 200 slots, picture 198 may still refer to picture 0,
/// and picture 199 may not.
pub fn wide_window_ends()
    ensures near { all_near wide_window_scene ≡ true }
    ensures last { slice_get (references (worked_call wide_window_scene).coded) 198 ≡ Some (Some 0) }
    ensures past { slice_get (references (worked_call wide_window_scene).coded) 199 ≡ Some None }
    ensures sender { slice_get (references (scene_ends wide_window_scene).sender.coded) 198
        ≡ Some (Some 0) }
    ensures receiver { slice_get (marks (scene_ends wide_window_scene).plays) 198 ≡ Some Exact }
{}

/// With temporal references of ten bits a packet of picture 0 is near after 511 plays, and late.
/// With eight bits it is far, as from the 128th play on.
pub fn wide_late_packet()
    ensures near { all_near wide_late_scene ≡ true }
    ensures answer { slice_get (scene_answers wide_late_scene) 1020 ≡ Some Late }
    ensures mark { slice_get (marks (scene_ends wide_late_scene).plays) 0 ≡ Some Held }
    ensures far { first_refusal (scene_rules 4 1) 511 511 511 [] (Deliver 0 0) ≡ Some (Far 0 511) }
    ensures near_enough { first_refusal (scene_rules 4 1) 511 511 127 [] (Deliver 0 0) ≡ None }
    ensures just_far { first_refusal (scene_rules 4 1) 511 511 128 [] (Deliver 0 0)
        ≡ Some (Far 0 128) }
{}

/// A pace that follows the sizes: picture 0 has two packets of seven numbers, the others have two
/// of six.
pub fn pace_follows_sizes()
    ensures near { all_near paced_scene ≡ true }
    ensures quants { quants (worked_call paced_scene).coded ≡ 1 ∷ 15 ∷ 27 ∷ 8 ∷ [] }
    ensures sender { quants (scene_ends paced_scene).sender.coded ≡ 1 ∷ 15 ∷ 27 ∷ 8 ∷ [] }
    ensures references { references (scene_ends paced_scene).sender.coded
        ≡ None ∷ Some 0 ∷ Some 1 ∷ Some 2 ∷ [] }
    ensures receiver { marks (scene_ends paced_scene).plays ≡ Exact ∷ Exact ∷ Exact ∷ Exact ∷ [] }
{}

/// The sizes that a pace is asked with are those of the last 16 pictures, or of all where there are
/// fewer.
pub fn last_sixteen()
    ensures few { last_numbers 2 ≡ 0 ∷ 1 ∷ [] }
    ensures many { last_numbers 18
        ≡ 2 ∷ 3 ∷ 4 ∷ 5 ∷ 6 ∷ 7 ∷ 8 ∷ 9 ∷ 10 ∷ 11 ∷ 12 ∷ 13 ∷ 14 ∷ 15 ∷ 16 ∷ 17 ∷ [] }
{}

/// A message about a picture that is half a period back or more is old, and makes nothing known.
pub fn old_feedback()
    ensures noted { worked_reply 127 (Ack 0 []) ≡ Noted }
    ensures old { worked_reply 128 (Ack 0 []) ≡ Old }
    ensures known { (sender_after 127 (Ack 0 [] ∷ [])).known ≡ 0 ∷ [] }
    ensures nothing { (sender_after 128 (Ack 0 [] ∷ [])).known ≡ [] }
{}

/// A sender believes what it is told, but nothing of a picture that it did not send: of two
/// pictures an ACK makes picture 1 known. An ACK of picture 5 is old, and the offer of picture 7
/// and the flags of pictures 2 and 3 make nothing known.
pub fn lying_feedback()
    ensures believed { (sender_after 2 (Ack 1 [] ∷ [])).known ≡ 1 ∷ [] }
    ensures unsent { worked_reply 2 (Ack 5 []) ≡ Old }
    ensures offered { worked_reply 2 (Nack 1 7 []) ≡ Noted }
    ensures nothing { (sender_after 2 (Nack 1 7 [] ∷ Ack 5 [] ∷ [])).known ≡ [] }
    ensures flags { (sender_after 2 (Ack 0 (true ∷ true ∷ true ∷ []) ∷ [])).known ≡ 0 ∷ 1 ∷ [] }
{}

/// In any of these calls whose events are near both ends do what the ideal call says (`agree`): all
/// of them meet what the laws ask (`lawful`), and of each it is computed that its events are near.
pub fn ends_agree()
    ensures agree { ScenesAgree }
    ensures lawful { ScenesAreLawful }
{}

/// The laws that are asked of a coding can be met: that of pictures of two samples meets them.
pub fn small_coding_is_lawful()
    ensures { (rules : Rules) → rules.mbs ≡ 2 → IsCoding small rules }
{}
