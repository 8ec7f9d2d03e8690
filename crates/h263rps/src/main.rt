//! The picture half of a video telephone: a call from a Y4M video to the Y4M video that is shown.
//! What it does with its arguments is `h263rps_run`'s.
#![tactic(auto)]

use h263_outside::HostDesk;
use h263rps_run::code_for;
use std::env;
use std::process::ExitCode;

fn main(rt: HostRuntime) -> ExitCode {
    code_for(rt.alloc(), env::args(&rt), &mut HostDesk::new(rt))
}
