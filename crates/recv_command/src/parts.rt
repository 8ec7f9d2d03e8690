//! The parts of an entry: a picture is shown, and a message is said.
ghost use Rattle.std.specs.Prelude.{◌≡◌, true, Option, OnOk, OnErr, IfErr};
ghost use Rattle.h263_outside.specs.Desk.{OnlyWrites, Rose};
ghost use Rattle.h263_outside.specs.declared.desk.Role.TheVariants.{Pictures, Wire, Report};
ghost use Rattle.h263_types.specs.declared.clock.Clock.{Clock};
ghost use Rattle.h263_planes.specs.Lent.{picture as lent};
ghost use Rattle.desk_program.specs.Ends.{Gains, GainsFronts};
ghost use Rattle.call_model.specs.Coding.{Message};
ghost use Rattle.receiver_end.specs.Answers.{SaysMessage};
ghost use Rattle.coded_call.specs.Bytes.{AreBytes};
ghost use Rattle.recv_command.specs.Said.{said_message_text, shown_play_text};

use back_messages::Said;
use call_report::{Status, picture_line};
use coded_call::laws as coded_call_laws;
use desk_program::{laws as desk_program_laws, put_entry, put_line, put_picture};
use h263_outside::{Desk, laws as outside_laws};
use h263_planes::PictureRef;
use receiver_end::Played;

// The letter of a message's entry.
const BACK: u8 = b'B';

// What a slice holds are bytes: a law that speaks of numbers asks for it.
fn are_bytes(bytes: &[u8])
    ensures { AreBytes bytes.now }
{}

/// Writes a message, if there is one.
pub fn say<D: Desk>(desk: &mut D, said: Option<Said>) -> Result<(), Status>
    requires { (D.outside desk.old).attached Wire ≡ true }
    ensures ok { (clock : Clock) (message : Option Message)
        → SaysMessage clock said message → OnOk result
        (Gains (said_message_text message) (D.outside desk.old).written (D.outside desk.new).written) }
    ensures err { (clock : Clock) (message : Option Message)
        → SaysMessage clock said message → OnErr result (GainsFronts
        (said_message_text message) (D.outside desk.old).written (D.outside desk.new).written) }
    ensures kind { IfErr result (λ status. status ≡ Status.WriteFault) }
    ensures cause { OnErr result
        (Rose (D.outside desk.old).faults.write (D.outside desk.new).faults.write) }
    ensures rest { OnlyWrites (D.outside desk.old) (D.outside desk.new) }
{
    coded_call_laws::said_bytes();
    desk_program_laws::turn_laws();
    match said {
        Some(said) => {
            let text = said.text();
            are_bytes(text);
            put_entry(desk, BACK, text)
        }
        None => Ok(()),
    }
}

/// Writes a picture with its mark and its line, and what is said of it.
pub fn show<D: Desk>(desk: &mut D, picture: PictureRef<'_>, played: Played) -> Result<(), Status>
    requires pictures { (D.outside desk.old).attached Pictures ≡ true }
    requires report { (D.outside desk.old).attached Report ≡ true }
    requires wire { (D.outside desk.old).attached Wire ≡ true }
    ensures ok { (clock : Clock) (message : Option Message) → SaysMessage clock played.message message
        → OnOk result (Gains (shown_play_text played.number played.mark (lent picture.entry) message)
        (D.outside desk.old).written (D.outside desk.new).written) }
    ensures err { (clock : Clock) (message : Option Message)
        → SaysMessage clock played.message message
        → OnErr result (GainsFronts (shown_play_text played.number played.mark (lent picture.entry) message)
        (D.outside desk.old).written (D.outside desk.new).written) }
    ensures kind { IfErr result (λ status. status ≡ Status.WriteFault) }
    ensures cause { OnErr result
        (Rose (D.outside desk.old).faults.write (D.outside desk.new).faults.write) }
    ensures rest { OnlyWrites (D.outside desk.old) (D.outside desk.new) }
{
    outside_laws::calls();
    desk_program_laws::turn_laws();
    put_picture(desk, played.mark, picture)?;
    let line = picture_line(played.number, Some(played.mark), None, None);
    put_line(desk, &line)?;
    say(desk, played.message)
}
