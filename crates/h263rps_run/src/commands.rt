//! Each command with its roles, on a desk with the report alone attached.
ghost use Rattle.std.specs.Prelude.{◌≡◌, IsTrue, List, [], ◌∷◌, Bool, false, true};
ghost use Rattle.h263_outside.specs.Desk.{Outside, with_role};
ghost use Rattle.h263_outside.specs.declared.desk.Role.TheVariants.{Report};
ghost use Rattle.command_words.specs.Asked.{IsCommand};
ghost use Rattle.command_words.specs.declared.command.Command.TheVariants as commands;
ghost use Rattle.desk_program.specs.Attached.{AreAttached, are_free, names};
ghost use Rattle.desk_program.specs.Promises.{IsNotUsage};
ghost use Rattle.h263rps_run.specs.Output.{AreRolesOf, run_of_command, source_of_command};
ghost use Rattle.h263_types.specs.Params.{IsParams};
ghost use Rattle.h263rps_run.specs.Promises.{IsRunOf};

use crate::Status;
use audit_command::Audit;
use call_command::{Call, Terms};
use command_words::Command;
use demo_command::{Demo, DemoTerms};
use desk_program::{Acts, perform};
use duplex_command::Duplex;
use group_command::{GroupCall, GroupTerms};
use h263_outside::{Desk, Role};
use h263_types::Params;
use rate_command::{Bucket, Rate};
use recv_command::{Join, Recv};
use send_command::{Send, Sending};
use std::alloc::Global;

// What `perform` promises, as it is promised of a run.
fn carry_out<D: Desk, A: Acts>(
    alloc: Global,
    setup: &A::Setup,
    roles: &[(Role, &str)],
    desk: &mut D,
) -> Status
    requires report { AreAttached ((Report, []) ∷ []) (D.outside desk.old) }
    requires free { IsTrue (are_free (with_role (λ _. false) Report true) (names roles.now)) }
    requires opens { (now : Outside) → AreAttached ((Report, []) ∷ names roles.now) now
        → A.opens setup.now now.attached }
    ensures run { IsRunOf (A.run setup.now) ((Report, []) ∷ names roles.now)
        (A.source setup.now) result (D.outside desk.old) (D.outside desk.new) }
    ensures words { IsNotUsage result }
{
    perform::<D, A>(alloc, setup, roles, desk)
}

fn call<D: Desk>(
    alloc: Global,
    params: Params,
    traced: bool,
    roles: &[(Role, &str)],
    desk: &mut D,
) -> Status
    requires report { AreAttached ((Report, []) ∷ []) (D.outside desk.old) }
    requires ready { IsParams params }
    requires roles { AreRolesOf (commands.Call params traced) (names roles.now) }
    ensures run { IsRunOf (run_of_command (commands.Call params traced)) ((Report, []) ∷ names roles.now)
        (source_of_command (commands.Call params traced)) result
        (D.outside desk.old) (D.outside desk.new) }
    ensures words { IsNotUsage result }
{
    let plain = !traced;
    carry_out::<D, Call>(alloc, &Terms { params, plain }, roles, desk)
}

fn receive<D: Desk>(
    alloc: Global,
    params: Params,
    join: bool,
    roles: &[(Role, &str)],
    desk: &mut D,
) -> Status
    requires report { AreAttached ((Report, []) ∷ []) (D.outside desk.old) }
    requires ready { IsParams params }
    requires roles { AreRolesOf (commands.Recv params join) (names roles.now) }
    ensures run { IsRunOf (run_of_command (commands.Recv params join)) ((Report, []) ∷ names roles.now)
        (source_of_command (commands.Recv params join)) result
        (D.outside desk.old) (D.outside desk.new) }
    ensures words { IsNotUsage result }
{
    if join {
        carry_out::<D, Join>(alloc, &params, roles, desk)
    } else {
        carry_out::<D, Recv>(alloc, &params, roles, desk)
    }
}

/// Performs a command with its roles.
pub fn perform_command<D: Desk>(
    alloc: Global,
    command: Command,
    roles: &[(Role, &str)],
    desk: &mut D,
) -> Status
    requires report { AreAttached ((Report, []) ∷ []) (D.outside desk.old) }
    requires ready { IsCommand command }
    requires roles { AreRolesOf command (names roles.now) }
    ensures run { IsRunOf (run_of_command command) ((Report, []) ∷ names roles.now) (source_of_command command)
        result (D.outside desk.old) (D.outside desk.new) }
    ensures words { IsNotUsage result }
{
    match command {
        Command::Call { params, traced } => call(alloc, params, traced, roles, desk),
        Command::Send {
            params,
            target,
            fit,
        } => {
            let setup = Sending {
                params,
                target,
                fit,
            };
            carry_out::<D, Send>(alloc, &setup, roles, desk)
        }
        Command::Recv { params, join } => receive(alloc, params, join, roles, desk),
        Command::Demo {
            params,
            seed,
            frames,
        } => {
            let terms = DemoTerms {
                params,
                seed,
                frames,
            };
            carry_out::<D, Demo>(alloc, &terms, roles, desk)
        }
        Command::Rate { target, bucket } => {
            carry_out::<D, Rate>(alloc, &Bucket { target, bucket }, roles, desk)
        }
        Command::Audit { params } => carry_out::<D, Audit>(alloc, &params, roles, desk),
        Command::Duplex { params } => carry_out::<D, Duplex>(alloc, &params, roles, desk),
        Command::Group { params, receivers } => {
            carry_out::<D, GroupCall>(alloc, &GroupTerms { params, receivers }, roles, desk)
        }
    }
}
