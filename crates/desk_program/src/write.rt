//! Writes on one output, with the answers of a machine.
ghost use Rattle.std.specs.Prelude.{◌≡◌, ◌≤◌, length, true, OnOk, OnErr, IfErr};
ghost use Rattle.h263_outside.specs.Desk.{IsOutput, OnlyWrites, Rose};
ghost use Rattle.h263_outside.specs.declared.desk.Role.TheVariants.{Pictures, Wire, Report};
ghost use Rattle.h263_planes.specs.Lent.{picture as lent};
ghost use Rattle.y4m.specs.Text.{head_text, frame_text};
ghost use Rattle.event_logs.specs.Text.{entry_text};
ghost use Rattle.call_report.specs.View.{line_text};
ghost use Rattle.desk_program.specs.Ends.{Gains, GainsFronts};
ghost use Rattle.desk_program.specs.Texts.{on};

use call_report::{Line, Status};
use event_logs::write_entry;
use h263_outside::{Desk, Role, write_all};
use h263_planes::PictureRef;
use h263_types::{Format, Mark};
use y4m::{write_frame, write_head};

/// Writes all the bytes. After `WriteFault` some prefix of them was written.
pub fn put<D: Desk>(desk: &mut D, role: Role, bytes: &[u8]) -> Result<(), Status>
    requires output { IsOutput role }
    requires attached { (D.outside desk.old).attached role ≡ true }
    ensures ok { OnOk result
        (Gains (on role bytes.now) (D.outside desk.old).written (D.outside desk.new).written) }
    ensures err { OnErr result (GainsFronts
        (on role bytes.now) (D.outside desk.old).written (D.outside desk.new).written) }
    ensures kind { IfErr result (λ status. status ≡ Status.WriteFault) }
    ensures cause { OnErr result
        (Rose (D.outside desk.old).faults.write (D.outside desk.new).faults.write) }
    ensures rest { OnlyWrites (D.outside desk.old) (D.outside desk.new) }
{
    match write_all(desk, role, bytes) {
        Ok(()) => Ok(()),
        Err(_) => Err(Status::WriteFault),
    }
}

/// Writes the line that pictures of a format begin with.
pub fn put_head<D: Desk>(desk: &mut D, format: Format) -> Result<(), Status>
    requires { (D.outside desk.old).attached Pictures ≡ true }
    ensures ok { OnOk result (Gains (on Pictures (head_text format))
        (D.outside desk.old).written (D.outside desk.new).written) }
    ensures err { OnErr result (GainsFronts (on Pictures (head_text format))
        (D.outside desk.old).written (D.outside desk.new).written) }
    ensures kind { IfErr result (λ status. status ≡ Status.WriteFault) }
    ensures cause { OnErr result
        (Rose (D.outside desk.old).faults.write (D.outside desk.new).faults.write) }
    ensures ok_faults { OnOk result
        ((D.outside desk.new).faults ≡ (D.outside desk.old).faults) }
    ensures rest { OnlyWrites (D.outside desk.old) (D.outside desk.new) }
{
    match write_head(desk, format) {
        Ok(()) => Ok(()),
        Err(_) => Err(Status::WriteFault),
    }
}

/// Writes a picture with the line of its mark.
pub fn put_picture<D: Desk>(desk: &mut D, mark: Mark, picture: PictureRef<'_>) -> Result<(), Status>
    requires { (D.outside desk.old).attached Pictures ≡ true }
    ensures ok { OnOk result (Gains (on Pictures (frame_text mark (lent picture.entry)))
        (D.outside desk.old).written (D.outside desk.new).written) }
    ensures err { OnErr result (GainsFronts (on Pictures (frame_text mark (lent picture.entry)))
        (D.outside desk.old).written (D.outside desk.new).written) }
    ensures kind { IfErr result (λ status. status ≡ Status.WriteFault) }
    ensures cause { OnErr result
        (Rose (D.outside desk.old).faults.write (D.outside desk.new).faults.write) }
    ensures rest { OnlyWrites (D.outside desk.old) (D.outside desk.new) }
{
    match write_frame(desk, mark, picture) {
        Ok(()) => Ok(()),
        Err(_) => Err(Status::WriteFault),
    }
}

/// Writes the entry of a log, with its letter and its bytes.
pub fn put_entry<D: Desk>(desk: &mut D, letter: u8, bytes: &[u8]) -> Result<(), Status>
    requires attached { (D.outside desk.old).attached Wire ≡ true }
    requires size { length bytes.now ≤ 65535 }
    ensures ok { OnOk result (Gains (on Wire (entry_text letter bytes.now))
        (D.outside desk.old).written (D.outside desk.new).written) }
    ensures err { OnErr result (GainsFronts (on Wire (entry_text letter bytes.now))
        (D.outside desk.old).written (D.outside desk.new).written) }
    ensures kind { IfErr result (λ status. status ≡ Status.WriteFault) }
    ensures cause { OnErr result
        (Rose (D.outside desk.old).faults.write (D.outside desk.new).faults.write) }
    ensures rest { OnlyWrites (D.outside desk.old) (D.outside desk.new) }
{
    match write_entry(desk, letter, bytes) {
        Ok(()) => Ok(()),
        Err(_) => Err(Status::WriteFault),
    }
}

/// Writes a line of the report.
pub fn put_line<D: Desk>(desk: &mut D, line: &Line) -> Result<(), Status>
    requires { (D.outside desk.old).attached Report ≡ true }
    ensures ok { OnOk result (Gains
        (on Report (line_text line.now)) (D.outside desk.old).written (D.outside desk.new).written) }
    ensures err { OnErr result (GainsFronts
        (on Report (line_text line.now)) (D.outside desk.old).written (D.outside desk.new).written) }
    ensures kind { IfErr result (λ status. status ≡ Status.WriteFault) }
    ensures cause { OnErr result
        (Rose (D.outside desk.old).faults.write (D.outside desk.new).faults.write) }
    ensures rest { OnlyWrites (D.outside desk.old) (D.outside desk.new) }
{
    match write_all(desk, Role::Report, line.text()) {
        Ok(()) => Ok(()),
        Err(_) => Err(Status::WriteFault),
    }
}
