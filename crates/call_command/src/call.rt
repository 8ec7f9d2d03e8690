//! A call, from its video's head on.
ghost use Rattle.std.specs.Prelude.{◌≡◌, ℕ, List, IfErr, IfOk, OnOk};
ghost use Rattle.h263_outside.specs.declared.desk.Role.{Role};
ghost use Rattle.desk_program.specs.Ends.{HasCause, IsUnstarted, KeepsRoles, StartGives, Tells};
ghost use Rattle.desk_program.specs.Ends.{start_status};
ghost use Rattle.call_command.specs.Call.{call_begin, may_read};
ghost use Rattle.call_command.specs.Converse.{IsCallStart, MayConverse};
ghost use Rattle.call_command.specs.Standing.{CallOpens};

use crate::world::World;
use crate::{Begun, Terms, converse, laws};
use call_report::Status;
use desk_program::{Acts, laws as desk_program_laws, put_head};
use h263_outside::{Desk, laws as outside_laws};
use h263_types::Params;
use one_way::Both;
use std::alloc::Global;
use y4m::Y4mReader;

// Reads the head, starts both ends, and writes the head of the pictures.
fn begin<D: Desk>(alloc: Global, setup: &Terms, desk: &mut D) -> Result<Begun, Status>
    requires { CallOpens setup.now (D.outside desk.old).attached }
    ensures gives { (inputs : Role → List ℕ) → Tells (D.outside desk.old) inputs
        → StartGives result (call_begin setup.now inputs)
        (λ begun. IsCallStart begun.terms begun.video.at)
        may_read inputs (D.outside desk.old) (D.outside desk.new) }
    ensures plain { IfOk result (λ begun. begun.terms.plain ≡ setup.now.plain) }
    ensures ready { IfOk result (MayConverse (D.outside desk.new).attached) }
    ensures stop { IfErr result IsUnstarted }
    ensures cause { HasCause (start_status result)
        (D.outside desk.old).faults (D.outside desk.new).faults }
    ensures ok_faults { OnOk result
        ((D.outside desk.new).faults ≡ (D.outside desk.old).faults) }
    ensures rest { KeepsRoles (D.outside desk.old) (D.outside desk.new) }
{
    desk_program_laws::turn_laws();
    laws::video_laws();
    let video = Y4mReader::head(desk)?;
    let params = Params {
        format: video.format(),
        ..setup.params
    };
    let both = Both::start(alloc, &params)?;
    if let Err(status) = put_head(desk, params.format) {
        both.finish();
        return Err(status);
    }
    Ok(Begun {
        terms: Terms {
            params,
            plain: setup.plain,
        },
        video,
        both,
    })
}

/// The command that plays a whole call: both ends, over the plain trace of its video or over a
/// recorded one.
pub struct Call;

impl Acts for Call {
    ghost use Rattle.std.specs.Prelude.{Some};
    ghost use Rattle.desk_program.specs.Run.{run_from};
    ghost use Rattle.call_command.specs.Call.{call_begin, call_step, most_turns};
    ghost use Rattle.call_command.specs.Standing.{CallOpens, source_of};

    type Setup = Terms;

    ghost run = { λ t inputs. run_from (call_begin t inputs) call_step (most_turns t.plain)
        inputs };

    ghost opens = { CallOpens };

    ghost source = { λ t. Some (source_of t) };

    fn act<D: Desk>(alloc: Global, setup: &Terms, desk: &mut D) -> Status {
        outside_laws::calls();
        desk_program_laws::step_laws();
        desk_program_laws::run_laws::<World>();
        match begin(alloc, setup, desk) {
            Ok(mut begun) => {
                let status = converse(alloc, desk, &mut begun);
                begun.finish();
                status
            }
            Err(status) => status,
        }
    }
}
