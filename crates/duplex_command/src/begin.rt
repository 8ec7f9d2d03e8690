//! How a call of two parties begins.
ghost use Rattle.std.specs.Prelude.{◌≤◌, IfOk};
ghost use Rattle.h263_types.specs.Params.{IsParams};
ghost use Rattle.h263_types.specs.Sizes.{size_of_picture};
ghost use Rattle.duplex_command.specs.Begin.{IsNewTalk};

use crate::heads::{Heads, read_heads, write_heads};
use crate::{Station, Talk};
use call_report::Status;
use desk_program::{Begins, laws as desk_program_laws};
use duplex_ends::{PartyEnds, laws as duplex_ends_laws};
use h263_outside::Desk;
use h263_types::{Format, OutOfMemory, Params};
use loss_trace::TraceReader;
use std::alloc::Global;

// Room for a picture of either format.
fn room_for(a: Format, b: Format) -> u32
    ensures first { size_of_picture a ≤ result }
    ensures second { size_of_picture b ≤ result }
{
    a.size().max(b.size())
}

// Starts the ends of both parties, each with the format of its video.
fn start_talk(alloc: Global, setup: &Params, heads: &Heads) -> Result<Talk, OutOfMemory>
    requires { IsParams setup.now }
    ensures { IfOk result (IsNewTalk setup.now heads.now) }
{
    let a = Params {
        format: heads.a.format(),
        ..*setup
    };
    let b = Params {
        format: heads.b.format(),
        ..*setup
    };
    let frame = vec![in alloc; 0; room_for(a.format, b.format) as usize]?;
    let first = PartyEnds::start(alloc, &a)?;
    match PartyEnds::start(alloc, &b) {
        Ok(second) => Ok(Talk {
            a: Station {
                video: heads.a,
                ends: first,
            },
            b: Station {
                video: heads.b,
                ends: second,
            },
            trace: TraceReader::new(),
            frame,
        }),
        Err(_) => {
            first.finish();
            Err(OutOfMemory)
        }
    }
}

/// The command that plays a call of two parties over a recorded trace.
pub struct Duplex;

impl Begins for Duplex {
    ghost use Rattle.std.specs.Prelude.{Some};
    ghost use Rattle.h263_outside.specs.declared.desk.Role.TheVariants.{Events};
    ghost use Rattle.duplex_command.specs.Begin.{DuplexMayBegin, duplex_run};

    type Setup = Params;

    type Machine = Talk;

    ghost run = { duplex_run };

    ghost opens = { DuplexMayBegin };

    ghost source = { λ _. Some Events };

    fn start<D: Desk>(alloc: Global, setup: &Params, desk: &mut D) -> Result<Talk, Status> {
        desk_program_laws::turn_laws();
        desk_program_laws::run_laws::<Talk>();
        duplex_ends_laws::pair_laws();
        let heads = read_heads(desk)?;
        let talk = start_talk(alloc, setup, &heads)?;
        if let Err(status) = write_heads(desk, heads.a.format(), heads.b.format()) {
            talk.finish();
            return Err(status);
        }
        Ok(talk)
    }

    fn finish(machine: Talk) {
        machine.finish();
    }
}
