//! A picture told: its packets on the wire, and a line on the report.
ghost use Rattle.std.specs.Prelude.{◌≡◌, true, length, Some, None};
ghost use Rattle.std.specs.Prelude.{OnOk, OnErr, IfErr};
ghost use Rattle.h263_outside.specs.Desk.{OnlyWrites, Rose};
ghost use Rattle.h263_outside.specs.declared.desk.Role.TheVariants.{Wire, Report};
ghost use Rattle.desk_program.specs.Ends.{Gains, GainsFronts};
ghost use Rattle.desk_program.specs.Texts.{on};
ghost use Rattle.send_command.specs.Send.{packets_text, picture_texts};

use call_report::{Status, picture_line};
use desk_program::{laws as desk_program_laws, put_entry, put_line};
use h263_outside::{Desk, laws as outside_laws};
use rate_control::SendPace;
use sender_end::{Coded, Sender};

// Writes the packets of the last picture, which are this many.
fn put_packets<D: Desk>(desk: &mut D, sender: &Sender<SendPace>, count: u32) -> Result<(), Status>
    requires attached { (D.outside desk.old).attached Wire ≡ true }
    requires count { count ≡ length sender.now.packets }
    ensures ok { OnOk result (Gains (on Wire (packets_text sender.now.packets))
        (D.outside desk.old).written (D.outside desk.new).written) }
    ensures err { OnErr result (GainsFronts (on Wire (packets_text sender.now.packets))
        (D.outside desk.old).written (D.outside desk.new).written) }
    ensures kind { IfErr result (λ status. status ≡ Status.WriteFault) }
    ensures cause { OnErr result
        (Rose (D.outside desk.old).faults.write (D.outside desk.new).faults.write) }
    ensures rest { OnlyWrites (D.outside desk.old) (D.outside desk.new) }
{
    outside_laws::calls();
    desk_program_laws::turn_laws();
    for i in 0..count {
        put_entry(desk, b'K', sender.packet(i))?;
    }
    Ok(())
}

/// Writes the packets of the last picture, and its line.
pub fn put_picture<D: Desk>(
    desk: &mut D,
    sender: &Sender<SendPace>,
    coded: &Coded,
) -> Result<(), Status>
    requires wire { (D.outside desk.old).attached Wire ≡ true }
    requires report { (D.outside desk.old).attached Report ≡ true }
    requires count { coded.now.packets ≡ length sender.now.packets }
    ensures ok { OnOk result (Gains (picture_texts sender.now.packets
        coded.now.number coded.now.reference)
        (D.outside desk.old).written (D.outside desk.new).written) }
    ensures err { OnErr result (GainsFronts (picture_texts sender.now.packets
        coded.now.number coded.now.reference)
        (D.outside desk.old).written (D.outside desk.new).written) }
    ensures kind { IfErr result (λ status. status ≡ Status.WriteFault) }
    ensures cause { OnErr result
        (Rose (D.outside desk.old).faults.write (D.outside desk.new).faults.write) }
    ensures rest { OnlyWrites (D.outside desk.old) (D.outside desk.new) }
{
    outside_laws::calls();
    desk_program_laws::turn_laws();
    put_packets(desk, sender, coded.packets)?;
    let line = picture_line(coded.number, None, Some(coded.reference), None);
    put_line(desk, &line)
}
