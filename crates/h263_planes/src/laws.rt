//! What ties a picture to its samples and to its bytes. Each law is the contract of a function that
//! does nothing.
ghost use Rattle.std.specs.Prelude.{◌≡◌, ◌<◌, ℕ, List, length};
ghost use Rattle.h263_types.specs.declared.format.Format.{Format};
ghost use Rattle.h263_types.specs.Sizes.{size_of_picture};
ghost use Rattle.h263_planes.specs.Picture.{Picture};
ghost use Rattle.h263_planes.specs.Layout.{picture_of};
ghost use Rattle.h263_planes.specs.declared.Plane.{Plane};
ghost use Rattle.h263_planes.specs.Samples.{AreSamples, HasSameSamples, Inside, IsPicture, IsWhole, bytes_of, sample_at};
ghost use Rattle.h263_planes.specs.Given.{picture_with};
ghost use Rattle.h263_planes.specs.Spots.{AreSpots, ArePicturesBySamples};

/// Bytes are samples: what a slice says of itself where it is handed over, and a field doesn't.
pub fn are_samples(bytes: &[u8])
    ensures { AreSamples bytes.now }
{}

/// Two pictures of one format that have the same sample at every place are the same picture.
pub fn same_samples()
    ensures { (p q : Picture)
        → IsWhole p → IsWhole q → p.format ≡ q.format → HasSameSamples p q → p ≡ q }
{}

/// A picture's bytes are its planes Y, Cb and Cr one after the other.
pub fn bytes_are_planes()
    ensures planes { (f : Format) (bytes : List ℕ)
        → length bytes ≡ size_of_picture f → bytes_of (picture_of f bytes) ≡ bytes }
    ensures whole { (f : Format) (bytes : List ℕ)
        → length bytes ≡ size_of_picture f → IsWhole (picture_of f bytes) }
    ensures samples { (f : Format) (bytes : List ℕ) → length bytes ≡ size_of_picture f
        → AreSamples bytes → IsPicture (picture_of f bytes) }
{}

/// The planes of a picture one after the other are bytes that hold it.
pub fn planes_are_bytes()
    ensures picture { (p : Picture) → IsWhole p → picture_of p.format (bytes_of p) ≡ p }
    ensures size { (p : Picture) → IsWhole p → length (bytes_of p) ≡ size_of_picture p.format }
{}

/// There is one picture of a format whose samples are given ones.
pub fn samples_are_picture()
    ensures whole { (f : Format) (sample : Plane → ℕ → ℕ → ℕ) → IsWhole (picture_with f sample) }
    ensures picture { (f : Format) (sample : Plane → ℕ → ℕ → ℕ)
        → ((plane : Plane) (x y : ℕ) → sample plane x y < 256)
        → IsPicture (picture_with f sample) }
    ensures format { (f : Format) (sample : Plane → ℕ → ℕ → ℕ)
        → (picture_with f sample).format ≡ f }
    ensures samples { (f : Format) (sample : Plane → ℕ → ℕ → ℕ) (plane : Plane) (x y : ℕ)
        → Inside f plane x y 1 → sample_at (picture_with f sample) plane x y ≡ sample plane x y }
    ensures only { (p : Picture) (sample : Plane → ℕ → ℕ → ℕ)
        → IsWhole p → ((plane : Plane) (x y : ℕ) → Inside p.format plane x y 1
        → sample_at p plane x y ≡ sample plane x y) → p ≡ picture_with p.format sample }
{}

/// Each sample of a picture has one number, and a macroblock of the picture holds it.
#[tactic(auto, using(crate::proofs::Spots::spots))]
pub fn numbered_samples()
    ensures { AreSpots }
{}

/// A picture is its samples by their numbers.
#[tactic(auto, using(crate::proofs::Spots::by_samples))]
pub fn picture_by_samples()
    ensures { ArePicturesBySamples }
{}
