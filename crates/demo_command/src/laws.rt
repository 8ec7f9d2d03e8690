//! What a call on made input comes to, and what its machine rests on. Each law is the contract of a
//! function that does nothing else.
ghost use Rattle.std.specs.Prelude.{◌≡◌, ℕ, List};
ghost use Rattle.h263_outside.specs.declared.desk.Role.{Role};
ghost use Rattle.h263_types.specs.Params.{IsParams};
ghost use Rattle.call_report.specs.declared.status.Status.TheVariants.{Ok as Fine};
ghost use Rattle.desk_program.specs.Run.{run_from};
ghost use Rattle.demo_command.specs.declared.terms.DemoTerms.{DemoTerms};
ghost use Rattle.demo_command.specs.Demo.{demo_begin, demo_step, made_turns};
ghost use Rattle.demo_command.specs.Laws.{MadeLaws, TellsCounts};

use back_messages::MessageFault;
use call_decoding::laws::are_rules;
use call_decoding::{Pictured, Styled};
use call_encoding::Framed;
use call_model::laws::encoder_is_sound;
use coded_call::laws::is_coding;
use h263_bits::Fault;
use h263_types::Mb;
use make_input::laws::made_calls_are_near;

/// Whatever its inputs hold, the command ends with `Ok`, and tells the counts of the ideal call of
/// the made video over the made trace, and nothing else.
pub fn counts_are_told()
    ensures { (t : DemoTerms) (inputs : Role → List ℕ)
        → TellsCounts t (run_from (demo_begin t inputs) demo_step (made_turns t) inputs) }
{}

/// No line of the made trace is refused in the call of the made video: each of its events is in
/// place and near. And each picture that is sent has a slice.
pub fn made_laws()
    ensures { (t : DemoTerms) → IsParams t.params → MadeLaws t }
{
    is_coding();
    are_rules();
    made_calls_are_near::<Framed, Styled, Mb, Pictured, Fault, MessageFault>();
    encoder_is_sound::<Framed, Styled, Mb, Pictured, Fault, MessageFault>();
}

/// A call on made input is never refused, and ends with `Ok`.
pub fn ends_well()
    ensures { (t : DemoTerms) (inputs : Role → List ℕ)
        → (run_from (demo_begin t inputs) demo_step (made_turns t) inputs).last.status ≡ Fine }
{}
