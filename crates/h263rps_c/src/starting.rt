//! What C may ask before an end is there.
ghost use Rattle.std.specs.Prelude.{◌≡◌, ◌≢◌, IfSome, None};
ghost use Rattle.h263_types.specs.Params.{default_params};
ghost use Rattle.h263_types.specs.Sizes.{size_of_picture};
ghost use Rattle.std.specs.Option.{option_map_or};
ghost use Rattle.h263rps_c.specs.Asked.{asked_with, format_numbered};
ghost use Rattle.h263rps_c.specs.declared.refusals.EndRefusal.TheVariants as refusals;
ghost use Rattle.h263rps_c.specs.Numbers.{library_version};
ghost use Rattle.h263rps_c.specs.Refusals.{refusal_number};

use crate::asked::{Asked, format_of};
use crate::refusals::{EndRefusal, OK};

const VERSION: u32 = 20300;

/// The version of the library: 10,000 times its major number and 100 times its minor one.
#[unsafe(no_mangle)]
pub extern "C" fn h263rps_raw_version() -> u32
    ensures { result ≡ library_version }
{
    VERSION
}

/// The parameters of a call in a format where nothing else is asked for.
#[unsafe(no_mangle)]
pub extern "C" fn h263rps_raw_defaults(format: u32, asked: &mut Asked) -> u32
    ensures none { format_numbered format ≡ None → result ≡ refusal_number refusals.BadParams }
    ensures same { format_numbered format ≡ None → asked.new ≡ asked.old }
    ensures some { IfSome (format_numbered format) (λ f. result ≡ 0) }
    ensures value { IfSome (format_numbered format) (λ f.
        asked.new ≡ asked_with format (default_params f)) }
{
    match format_of(format) {
        None => EndRefusal::BadParams.number(),
        Some(chosen) => {
            *asked = Asked::of(format, chosen);
            OK
        }
    }
}

/// How many bytes a picture of a format has, and 0 where the number is none of a format.
#[unsafe(no_mangle)]
pub extern "C" fn h263rps_raw_picture_size(format: u32) -> u32
    ensures { result ≡ option_map_or size_of_picture (format_numbered format) 0 }
{
    match format_of(format) {
        None => 0,
        Some(format) => format.size(),
    }
}
