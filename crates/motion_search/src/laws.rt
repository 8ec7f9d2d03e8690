//! What the best vector is, without the lists that define it. Each law is the contract of a
//! function that does nothing.
ghost use Rattle.std.specs.Prelude.{◌≡◌, ℕ, ◌<◌, ◌↔◌, List, ◌∷◌, IsTrue, IsFalse};
ghost use Rattle.std.specs.List.{All, Contains};
ghost use Rattle.std.specs.Cmp.{IsTotalOrder};
ghost use Rattle.h263_types.specs.declared.format.Format.{Format};
ghost use Rattle.h263_types.specs.declared.vector.Vector.{Vector};
ghost use Rattle.h263_types.specs.Sizes.{mbs_of};
ghost use Rattle.h263_types.specs.Vectors.{InReach};
ghost use Rattle.h263_planes.specs.Picture.{Picture};
ghost use Rattle.motion_search.specs.declared.candidate.Candidate.{Candidate};
ghost use Rattle.motion_search.specs.Order.{before, compared, least};
ghost use Rattle.motion_search.specs.Cost.{candidate_of, samples_of};
ghost use Rattle.motion_search.specs.Vectors.{in_reach, IsHalfAround, IsWholeSample};
ghost use Rattle.motion_search.specs.Best.{best_near, best_vector, best_whole, IsCandidate, IsWholeCandidate};

/// The order of candidates is total, and tells any two apart.
pub fn order_is_total()
    ensures total { IsTotalOrder compared }
    ensures apart { (c d : Candidate) → IsFalse (before c d) → IsFalse (before d c) → c ≡ d }
{}

/// The least of a list is one of its candidates, and none of them comes before it.
pub fn none_before_the_least()
    ensures one_of_them { (first : Candidate) (cs : List Candidate)
        → Contains (first ∷ cs) (least first cs) }
    ensures none_before { (first : Candidate) (cs : List Candidate)
        → All (λ c. IsFalse (before c (least first cs))) (first ∷ cs) }
{}

/// The test of reach answers what H.263 asks of a vector.
pub fn reach_is_tested()
    ensures { (f : Format) (mb : ℕ) (v : Vector) → IsTrue (in_reach f mb v) ↔ InReach f mb v.x v.y }
{}

/// The answer of the first step is a vector of whole samples within the radius and in reach, with
/// its cost, and none of these vectors comes before it.
pub fn whole_step_is_best()
    ensures candidate { (block : List ℕ) (reference : Picture) (mb radius rounding : ℕ)
        → mb < mbs_of reference.format → IsWholeCandidate block reference mb radius rounding
        (best_whole block reference mb radius rounding) }
    ensures none_before { (block : List ℕ) (reference : Picture) (mb radius rounding : ℕ)
        (v : Vector) → IsWholeSample radius v → InReach reference.format mb v.x v.y
        → IsFalse (before (candidate_of block reference mb rounding v)
        (best_whole block reference mb radius rounding)) }
{}

/// The answer of the second step from a candidate is this or a neighbour half a sample away in
/// reach, with its cost, and none of these vectors comes before it.
pub fn half_step_is_best()
    ensures candidate { (block : List ℕ) (reference : Picture) (mb rounding : ℕ) (from : Candidate)
        → IsCandidate block reference mb rounding from
        → IsCandidate block reference mb rounding (best_near block reference mb rounding from) }
    ensures near { (block : List ℕ) (reference : Picture) (mb rounding : ℕ) (from : Candidate)
        → IsCandidate block reference mb rounding from
        → IsHalfAround from.vector (best_near block reference mb rounding from).vector }
    ensures none_before { (block : List ℕ) (reference : Picture) (mb rounding : ℕ)
        (from : Candidate) (v : Vector) → IsCandidate block reference mb rounding from
        → IsHalfAround from.vector v → InReach reference.format mb v.x v.y
        → IsFalse (before (candidate_of block reference mb rounding v)
        (best_near block reference mb rounding from)) }
{}

/// The best vector is in reach, and its cost is what its prediction leaves of the frame.
pub fn best_is_a_candidate()
    ensures { (frame reference : Picture) (mb radius rounding : ℕ)
        → mb < mbs_of reference.format → IsCandidate (samples_of frame mb) reference mb rounding
        (best_vector frame reference mb radius rounding) }
{}
