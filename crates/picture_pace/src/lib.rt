//! A pace that uses its target: the next picture's quantiser by the bytes that it would have.
//!
//! A [`FitPace`] is told of each picture that was coded, by its kind, its quantiser and its bytes,
//! and says what the next one of a kind is to be coded with. The bytes of a picture fall as the
//! quantiser grows, so their product, the picture's difficulty, is nearly that of the pictures of
//! its kind before it. A bucket counts what is sent beyond the target: each picture pours its bytes
//! in and lets the target out. Intra pictures fill half of the room; predicted ones keep to the
//! target from wherever that has left the level. Whole numbers alone, and no memory.
//!
//! ```rust
//! let mut pace = FitPace::start(Format::Qcif, 1_000, 8_000);
//! pace.coded(Kind::I, 9, 3_000);
//! assert_eq!(rt; pace.quant(Kind::I), 11);
//! ```
//!
//! # Decisions
//!
//! - **Bytes fall as 1/Q.** Of five contents they fell by the power of 0.7 to 1.6. What the model
//!   lacks the next picture makes good.
//! - **Predicted pictures have a bucket of their own**, the excess, led to one target. If they were to
//!   fill half of the room as well, a content that becomes difficult slowly would exceed its target by
//!   30 % in its second second. With two targets, or a third made good, seconds are up to 5 % off.
//! - **Half of what the excess is off is made good with each predicted picture**, since quantiser 2 has
//!   a third more bytes than 3. An intra picture takes two thirds of what is left: its quality stays
//!   for seconds (half loses 0.5 dB, all leaves the second picture nothing).
//! - **A difficulty is the mean of the last one and the new one.** A reference that lies further
//!   back is so felt within two pictures; which one it will be isn't known before a picture is coded.
//! - **Never finer than 2.** A level reaches to 127 (H.263, 5.4.2), so quantiser 1 can't carry the
//!   coefficients of a sharp edge: in QCIF it was worse than 2 by 3 to 6 dB in four of six contents.
//! - **A full bucket takes 31**, whatever the difficulty. So its level has a bound.
//!
//! # Measured
//!
//! By `tools/pace_table --room 30`: at 15 pictures a second, nothing lost, messages after two pictures,
//! all of the seconds after the first. The bytes are those of the least second and of the greatest, over
//! the target; the quantiser and PSNR of Y are means. Beside them is the bucket's pace with the first
//! quantiser that is best, of those whose bytes exceed the target by 3 % at most, and its PSNR.
//!
//! | Content | Format | kbit/s | Bytes | Quantiser | PSNR | Best first | its PSNR |
//! |---|---|---|---|---|---|---|---|
//! | textures | QCIF | 64 | 0.997 to 1.004 | 10.2 | 39.1 | 8 | 37.8 |
//! | textures | QCIF | 128 | 0.989 to 1.007 | 4.2 | 45.0 | 3 | 44.2 |
//! | textures | QCIF | 256 | 0.811 to 0.854 | 2.0 | 47.7 | 2 | 47.2 |
//! | textures | QCIF | 512 | 0.406 to 0.427 | 2.0 | 47.7 | 2 | 47.1 |
//! | textures | CIF | 64 | 1.035 to 1.116 | 31.0 | 32.0 | none | |
//! | textures | CIF | 128 | 0.994 to 1.010 | 14.2 | 36.8 | 11 | 36.0 |
//! | textures | CIF | 256 | 0.990 to 1.010 | 6.0 | 42.5 | 4 | 41.9 |
//! | textures | CIF | 512 | 0.990 to 1.007 | 2.2 | 47.8 | 2 | 47.5 |
//! | mandelbrot | QCIF | 64 | 0.981 to 1.018 | 20.0 | 28.2 | 18 | 28.2 |
//! | mandelbrot | QCIF | 128 | 0.983 to 1.012 | 12.9 | 30.4 | 12 | 30.5 |
//! | mandelbrot | QCIF | 256 | 0.993 to 1.004 | 8.2 | 33.7 | 7 | 33.8 |
//! | mandelbrot | QCIF | 512 | 0.992 to 1.009 | 4.7 | 38.3 | 4 | 38.3 |
//! | mandelbrot | CIF | 64 | 1.558 to 1.616 | 31.0 | 27.9 | none | |
//! | mandelbrot | CIF | 128 | 0.993 to 1.006 | 25.9 | 28.5 | 24 | 28.5 |
//! | mandelbrot | CIF | 256 | 0.992 to 1.009 | 17.0 | 30.5 | 16 | 30.5 |
//! | mandelbrot | CIF | 512 | 0.998 to 1.006 | 10.9 | 33.3 | 10 | 33.4 |
//! | testsrc2 | QCIF | 64 | 0.994 to 1.011 | 27.1 | 27.2 | 25 | 26.9 |
//! | testsrc2 | QCIF | 128 | 0.993 to 1.005 | 16.0 | 29.9 | 15 | 29.7 |
//! | testsrc2 | QCIF | 256 | 0.995 to 1.015 | 9.4 | 32.9 | 8 | 32.9 |
//! | testsrc2 | QCIF | 512 | 0.993 to 1.002 | 5.2 | 35.9 | 4 | 36.0 |
//! | testsrc2 | CIF | 64 | 1.918 to 2.933 | 31.0 | 30.2 | none | |
//! | testsrc2 | CIF | 128 | 0.999 to 1.460 | 30.7 | 30.4 | none | |
//! | testsrc2 | CIF | 256 | 0.988 to 1.010 | 20.0 | 32.2 | 18 | 31.9 |
//! | testsrc2 | CIF | 512 | 0.994 to 1.010 | 11.1 | 34.6 | 10 | 34.5 |
//!
//! Every second is within 3 %, and PSNR within 0.1 dB of the best first quantiser's or above it, but where
//! the target can't be kept: where the mean is 2 pictures at 2 are smaller than it, and where it is 31, or
//! nearly, those at 31 are larger.
#![tactic(auto)]

mod fit;
pub mod laws;

pub use fit::FitPace;
