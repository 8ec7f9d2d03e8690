//! What ties the faults and frames of a text to the videos that are spelled. Each law is the
//! contract of a function that does nothing.
ghost use Rattle.std.specs.Prelude.{◌≡◌, ◌<◌, ◌≤◌, suc, ◌++◌, ◌+◌, ◌∷◌, [], ℕ, List, length, take, map, All, None, Ok, Err};
ghost use Rattle.std.specs.List.{flat_map};
ghost use Rattle.h263_types.specs.declared.format.Format.{Format};
ghost use Rattle.h263_types.specs.declared.Mark.{Mark};
ghost use Rattle.h263_planes.specs.Picture.{Picture};
ghost use Rattle.h263_planes.specs.Samples.{IsWhole, bytes_of};
ghost use Rattle.y4m.specs.Head.{head_of, head_size};
ghost use Rattle.y4m.specs.Video.{most_frames, video_fault, video_frames};
ghost use Rattle.y4m.specs.Frame.{frame_of, frame_size};
ghost use Rattle.y4m.specs.Line.{tags_of};
ghost use Rattle.y4m.specs.Spelled.{IsVideo, Word, IsHeadWord, spaced};
ghost use Rattle.y4m.specs.declared.fault.Y4mFault.TheVariants.{NotY4m, ShortFrame};
ghost use Rattle.y4m.specs.Begun.{BeginsVideo, BeginsFrame};
ghost use Rattle.y4m.specs.Text.{head_text, frame_text};
ghost use Rattle.y4m.specs.Laws.{FrameLaws};

use h263_planes::laws::planes_are_bytes;

/// A text with no fault is a video of some format, with its frames.
pub fn accepted_is_a_video()
    ensures { (video : List ℕ)
        → video_fault video ≡ None → (f : Format) × IsVideo video f (video_frames video) }
{}

/// A video has no fault, and its format and frames are these.
pub fn a_video_is_accepted()
    ensures fault { (video : List ℕ) (f : Format) (frames : List (List ℕ))
        → IsVideo video f frames → video_fault video ≡ None }
    ensures format { (video : List ℕ) (f : Format) (frames : List (List ℕ))
        → IsVideo video f frames → head_of video ≡ Ok f }
    ensures frames { (video : List ℕ) (f : Format) (frames : List (List ℕ))
        → IsVideo video f frames → video_frames video ≡ frames }
{}

/// What `write_head` and `write_frame` write is a video of the head's format, whose frames are
/// those pictures.
pub fn written_is_a_video()
    ensures { (f : Format) (shown : List (Mark × Picture))
        → All (λ s. IsWhole s.1 × (s.1.format ≡ f)) shown → length shown ≤ most_frames
        → IsVideo (head_text f ++ flat_map (λ s. frame_text s.0 s.1) shown) f
        (map (λ s. bytes_of s.1) shown) }
{
    planes_are_bytes();
}

/// The tags of a line are its words after the first one, in their order.
pub fn tags_are_words()
    ensures { (word : List ℕ) (words : List Word) (n : ℕ)
        → IsHeadWord word → All (λ w. IsHeadWord w.text) words → map
        (λ tag. tag.text) (tags_of (word ++ spaced words n ++ 10 ∷ [])) ≡ map (λ w. w.text) words }
{}

/// A frame that is cut short has its fault where the input ends.
pub fn short_at_the_end()
    ensures { (f : Format) (at place : ℕ) (rest : List ℕ)
        → frame_of f at rest ≡ Err (ShortFrame place) → place ≡ at + length rest }
{}

/// Where a head's or a frame's line can't go on inside its first word or just after it, the bytes
/// before that one begin some video, or some frame of the format, and with it they begin none.
pub fn place_of_not_y4m()
    ensures head { (video : List ℕ) (n : ℕ) → head_of video ≡ Err (NotY4m n) → n < length video
        → n < 10 → BeginsVideo (take n video) × (BeginsVideo (take (suc n) video) → ⊥) }
    ensures frame { (f : Format) (at n : ℕ) (rest : List ℕ)
        → frame_of f at rest ≡ Err (NotY4m (at + n)) → n < length rest
        → n < 6 → BeginsFrame f (take n rest) × (BeginsFrame f (take (suc n) rest) → ⊥) }
{}

/// A whole head or frame stays what it is where the text after it is cut.
pub fn cut_after()
    ensures head { (video : List ℕ) (f : Format) (k : ℕ) → head_of video ≡ Ok f → head_size video
        ≤ k → (head_of (take k video) ≡ Ok f) × (head_size (take k video) ≡ head_size video) }
    ensures frame { (f : Format) (at k : ℕ) (rest planes : List ℕ) → frame_of f at rest ≡ Ok planes
        → frame_size f rest ≤ k → (frame_of f at (take k rest) ≡ Ok planes)
        × (frame_size f (take k rest) ≡ frame_size f rest) }
{}

/// The frames of a video and its first fault, frame by frame.
pub fn frame_by_frame()
    ensures { FrameLaws }
{}
