//! Calls with ends that are lent: what is shown is the receiver's, which may have heard the packets
//! of another sender before; and what a call leaves of its video.
ghost use Rattle.std.specs.Prelude.{◌≡◌, true, length, OnOk};
ghost use Rattle.h263_types.specs.Params.{IsParams};
ghost use Rattle.h263_outside.specs.Desk.{NoneAttached};
ghost use Rattle.h263_outside.specs.declared.desk.Role.TheVariants.{Video, Events, Pictures};
ghost use Rattle.h263_outside.specs.declared.desk.Role.TheVariants.{Report};

use crate::case::{Case, Outcome};
use crate::desks::{compare_desk, desk_of};
use call_command::{Begun, Terms, converse};
use call_report::Status;
use desk_program::attach_all;
use h263_outside::{Desk, MemoryDesk, Role};
use h263_planes::PictureRef;
use h263_types::{FixedPace, Params};
use one_way::Both;
use receiver_end::Receiver;
use sender_end::Sender;
use std::alloc::Global;
use y4m::Y4mReader;

// The receiver gets the packets of another sender, which codes this frame; of none it gets none.
fn deliver_another(alloc: Global, params: &Params, frame: &[u8], receiver: &mut Receiver)
    requires { IsParams params.now }
    ensures params { receiver.new.params ≡ receiver.old.params }
    ensures played { receiver.new.played ≡ receiver.old.played }
{
    if frame.len() != params.format.size() as usize {
        return;
    }
    let pace = FixedPace {
        quant: params.quant,
    };
    let Ok(mut other) = Sender::start(alloc, params, pace) else {
        return;
    };
    let coded = other.code(PictureRef::new(params.format, frame), &[]);
    'packets: for place in 0..coded.packets {
        let _answer = receiver.packet(other.packet(place));
    }
    other.finish();
}

// Attaches the roles of a call on a desk on which nothing is attached.
fn attach_roles<D: Desk>(desk: &mut D) -> Result<(), Status>
    requires { NoneAttached (D.outside desk.old).attached }
    ensures video { OnOk result ((D.outside desk.new).attached Video ≡ true) }
    ensures events { OnOk result ((D.outside desk.new).attached Events ≡ true) }
    ensures pictures { OnOk result ((D.outside desk.new).attached Pictures ≡ true) }
    ensures report { OnOk result ((D.outside desk.new).attached Report ≡ true) }
{
    let order = &[
        (Role::Report, ""),
        (Role::Video, "in"),
        (Role::Events, "trace"),
        (Role::Pictures, "out"),
    ];
    match attach_all(desk, order) {
        Ok(()) => Ok(()),
        Err(status) => Err(status),
    }
}

/// A call over the plain trace, or by the lines of a trace: how it ends, what it shows and tells,
/// and what the next read finds of its video.
pub fn converse_with(case: &Case<'_>, out: &mut Outcome) {
    let alloc = out.alloc;
    let heard = case.bytes("heard", out);
    let plain = case.text("trace").starts_with("plain");
    let Some(mut desk) = desk_of(case, out) else {
        return;
    };
    let Ok(()) = attach_roles(&mut desk) else {
        return;
    };
    let Ok(video) = Y4mReader::head(&mut desk) else {
        return;
    };
    let params = Params::of(video.format());
    let Ok(both) = Both::start(alloc, &params) else {
        return;
    };
    let mut call = Begun {
        terms: Terms { params, plain },
        video,
        both,
    };
    deliver_another(alloc, &params, &heard, &mut call.both.receiver);
    let ends = converse(alloc, &mut desk, &mut call);
    call.finish();
    let mut left = [0; 40_000];
    let count = desk.read(Role::Video, &mut left).unwrap_or(0);
    out.say(&ends);
    case.compare_told("ends", out);
    compare_desk(case, &desk, out);
    case.compare("left", left.get(..count).unwrap_or(&[]), out);
}
