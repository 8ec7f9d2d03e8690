//! The pace of a sender, with a rate controller or without one.
ghost use Rattle.std.specs.Prelude.{◌≡◌, ◌≤◌, IfSome};
ghost use Rattle.rate_control.specs.Pace.{first_quant, target_of};

use crate::pace::BucketPace;
use h263_types::{FixedPace, Pace};

/// The pace of a sender: one quantiser for all pictures, or a target that is followed.
#[derive(Clone, Copy)]
pub enum SendPace {
    Fixed(FixedPace),
    Bucket(BucketPace),
}

impl SendPace {
    /// The pace with this target, if there is one, and this quantiser, 1 to 31, for the first
    /// picture.
    pub fn choose(target: Option<u32>, quant: u8) -> SendPace
        requires some { IfSome target (λ n. 1 ≤ n) }
        requires few { IfSome target (λ n. n ≤ 999999) }
        requires low { 1 ≤ quant }
        requires high { quant ≤ 31 }
        ensures target { target_of result ≡ target }
        ensures first { first_quant result ≡ quant }
    {
        match target {
            None => SendPace::Fixed(FixedPace { quant }),
            Some(target) => SendPace::Bucket(BucketPace::new(target, quant)),
        }
    }

    // The quantiser of the first picture.
    fn first(&self) -> u8
        ensures value { result ≡ first_quant self.now }
        ensures low { 1 ≤ result }
        ensures high { result ≤ 31 }
    {
        match self {
            SendPace::Fixed(pace) => pace.quant,
            SendPace::Bucket(pace) => pace.first(),
        }
    }

    /// Follows this target from the next picture on, if there is one. The first quantiser stays.
    pub fn set_target(&mut self, target: Option<u32>)
        requires some { IfSome target (λ n. 1 ≤ n) }
        requires few { IfSome target (λ n. n ≤ 999999) }
        ensures target { target_of self.new ≡ target }
        ensures first { first_quant self.new ≡ first_quant self.old }
    {
        *self = SendPace::choose(target, self.first());
    }
}

impl Pace for SendPace {
    ghost use Rattle.rate_control.specs.Pace.{first_quant, quant_after_sizes, target_of};

    ghost quant_of = { λ pace. quant_after_sizes (target_of pace) (first_quant pace) };

    fn quant(&self, sizes: &[u32]) -> u8 {
        match self {
            SendPace::Fixed(pace) => pace.quant(sizes),
            SendPace::Bucket(pace) => pace.quant(sizes),
        }
    }
}
