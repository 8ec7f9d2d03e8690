//! How far the luma samples of a macroblock lie from their mean.
ghost use Rattle.std.specs.Prelude.{◌≡◌, ℕ, ◌<◌, ◌≤◌, replicate};
ghost use Rattle.h263_types.specs.Sizes.{mbs_of};
ghost use Rattle.h263_planes.specs.Lent.{picture};
ghost use Rattle.sad_kernel.specs.Differences.{differences};
ghost use Rattle.motion_search.specs.Cost.{samples_of};
ghost use Rattle.mode_choice.specs.Choice.{deviation_of, mean_of};

use h263_planes::PictureRef;
use h263_types::Vector;
use half_sample::luma;
use sad_kernel::sad;

// The sum of the absolute differences of a macroblock's luma samples from their mean.
pub(crate) fn deviation(samples: &[u8; 256]) -> u32
    ensures value { result ≡ deviation_of samples.now }
    ensures most { result ≤ 65280 }
{
    differences_from(samples, mean(samples))
}

// How far the first half of a macroblock's luma samples lies from the second half, sample by
// sample: all of them together lie at least as far from any one number.
pub(crate) fn halves_apart(samples: &[u8; 256]) -> u32
    ensures less { (n : ℕ) → result ≤ differences samples.now (replicate 256 n) }
    ensures most { result ≤ 32640 }
{
    sad(&samples[..128], &samples[128..])
}

// The luma samples of a macroblock, by rows from the top: what the zero vector predicts from the
// frame itself.
pub(crate) fn luma_samples(frame: PictureRef<'_>, mb: u32) -> [u8; 256]
    requires mb { mb < mbs_of (picture frame).format }
    ensures { result ≡ samples_of (picture frame.entry) mb }
{
    let mut samples = [0; 256];
    luma(frame, mb, Vector::ZERO, 0, &mut samples);
    samples
}

// The mean of the samples, rounded down. Their sum is that of their differences from 0, which `sad`
// gives by lanes.
fn mean(samples: &[u8; 256]) -> u8
    ensures { result ≡ mean_of samples.now }
{
    (differences_from(samples, 0) / 256) as u8
}

// The sum of the absolute differences of the samples from one number.
fn differences_from(samples: &[u8; 256], number: u8) -> u32
    ensures value { result ≡ differences samples.now (replicate 256 number) }
    ensures most { result ≤ 65280 }
{
    sad(samples, &[number; 256])
}
