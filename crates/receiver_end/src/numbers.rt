//! Numbers of pictures by their temporal references.
ghost use Rattle.std.specs.Prelude.{◌≡◌, ◌^◌, ◌<◌, ◌≤◌, IfSome, option_and_then};
ghost use Rattle.h263_types.specs.declared.params.Params.{Params};
ghost use Rattle.call_model.specs.Sending.{nearest, nearest_below};
ghost use Rattle.call_decoding.specs.Rules.{rules_of};

use h263_types::Clock;
use reference_selector::nearest_below;

// The number of a packet's picture: the one nearest to the play, if there is one.
pub(crate) fn nearest(played: u32, rest: u16, clock: Clock) -> Option<u32>
    requires { played ≤ 2 ^ 20 }
    ensures value { (p : Params) → p.clock ≡ clock → result ≡ nearest (rules_of p) played rest }
    ensures small { IfSome result (λ m. m ≤ 2 ^ 21) }
{
    nearest_below(played + clock.half(), rest, clock)
}

// The number of the reference that the header of a picture names, if it names one.
pub(crate) fn named(number: u32, trp: Option<u16>, clock: Clock) -> Option<u32>
    requires { number < 2 ^ 31 }
    ensures { (p : Params) → p.clock ≡ clock
        → result ≡ option_and_then (nearest_below (rules_of p) number) trp }
{
    match trp {
        None => None,
        Some(rest) => nearest_below(number, rest, clock),
    }
}
