//! The heads of both videos, and those of the pictures.
ghost use Rattle.std.specs.Prelude.{◌≡◌, ◌≢◌, ℕ, List, Some, true, IfErr, IfOk, IsErrOf, OnErr, OnOk};
ghost use Rattle.h263_outside.specs.Desk.{OnlyReads, OnlyWrites, Rose};
ghost use Rattle.h263_outside.specs.declared.desk.Role.{Role};
ghost use Rattle.h263_outside.specs.declared.desk.Role.TheVariants.{Video, Pictures, Video2, Pictures2};
ghost use Rattle.h263_types.specs.declared.params.Params.{Params};
ghost use Rattle.y4m.specs.Reader.{HeadGives};
ghost use Rattle.y4m.specs.Text.{head_text};
ghost use Rattle.y4m.specs.Video.{most_frames};
ghost use Rattle.call_report.specs.Status.{phase};
ghost use Rattle.desk_program.specs.Ends.{Gains, GainsFronts, GivesUp, HasCause, IsStop, Tells, start_status};
ghost use Rattle.desk_program.specs.Texts.{on};
ghost use Rattle.duplex_command.specs.Begin.{HaveHeads, duplex_begin, both_heads};

use call_report::Status;
use desk_program::{laws as desk_program_laws, put_head};
use h263_outside::{Desk, Second, laws as outside_laws};
use h263_types::Format;
use y4m::{VideoStop, Y4mReader, laws as y4m_laws};

/// The readers of both videos after their heads.
#[derive(Clone, Copy)]
pub struct Heads {
    pub a: Y4mReader,
    pub b: Y4mReader,
}

// Reads the head of the second video.
fn second_head<D: Desk>(desk: &mut D) -> Result<Y4mReader, VideoStop>
    requires { (D.outside desk.old).attached Video2 ≡ true }
    ensures gives { (video : List ℕ) → (D.outside desk.old).left Video2 ≡ Some video
        → HeadGives result video ((D.outside desk.new).left Video2) }
    ensures more { IfOk result (λ reader. reader.more ≡ most_frames) }
    ensures cause { IsErrOf result VideoStop.Read
        → Rose (D.outside desk.old).faults.read (D.outside desk.new).faults.read }
    ensures ok_faults { OnOk result
        ((D.outside desk.new).faults ≡ (D.outside desk.old).faults) }
    ensures others { (r : Role)
        → r ≢ Video2 → (D.outside desk.new).left r ≡ (D.outside desk.old).left r }
    ensures rest { OnlyReads (D.outside desk.old) (D.outside desk.new) }
{
    let mut second = Second::new(desk);
    Y4mReader::head(&mut second)
}

/// Reads both heads. The first video's fault is told before the second's.
pub fn read_heads<D: Desk>(desk: &mut D) -> Result<Heads, Status>
    requires video { (D.outside desk.old).attached Video ≡ true }
    requires video2 { (D.outside desk.old).attached Video2 ≡ true }
    ensures reads { (inputs : Role → List ℕ) → Tells (D.outside desk.old) inputs
        → IfOk result (λ heads. HaveHeads heads inputs (D.outside desk.new)) }
    ensures more_a { IfOk result (λ heads. heads.a.more ≡ most_frames) }
    ensures more_b { IfOk result (λ heads. heads.b.more ≡ most_frames) }
    ensures stops { (p : Params) (inputs : Role → List ℕ) → Tells (D.outside desk.old) inputs
        → IfErr result (λ status. GivesUp (phase status) status (duplex_begin p inputs) true inputs
        (D.outside desk.old) (D.outside desk.new)) }
    ensures stop { IfErr result IsStop }
    ensures cause { HasCause (start_status result)
        (D.outside desk.old).faults (D.outside desk.new).faults }
    ensures ok_faults { OnOk result
        ((D.outside desk.new).faults ≡ (D.outside desk.old).faults) }
    ensures rest { OnlyReads (D.outside desk.old) (D.outside desk.new) }
{
    desk_program_laws::turn_laws();
    outside_laws::calls();
    y4m_laws::cut_after();
    let a = Y4mReader::head(desk)?;
    match second_head(desk) {
        Ok(b) => Ok(Heads { a, b }),
        Err(VideoStop::Read) => Err(Status::ReadFault),
        Err(VideoStop::Refused(fault)) => Err(Status::Video2Refused { fault }),
    }
}

// Writes the line that the second party's pictures begin with.
fn put_second_head<D: Desk>(desk: &mut D, format: Format) -> Result<(), Status>
    requires { (D.outside desk.old).attached Pictures2 ≡ true }
    ensures ok { OnOk result (Gains (on Pictures2 (head_text format))
        (D.outside desk.old).written (D.outside desk.new).written) }
    ensures err { OnErr result (GainsFronts (on Pictures2 (head_text format))
        (D.outside desk.old).written (D.outside desk.new).written) }
    ensures kind { IfErr result (λ status. status ≡ Status.WriteFault) }
    ensures cause { OnErr result
        (Rose (D.outside desk.old).faults.write (D.outside desk.new).faults.write) }
    ensures rest { OnlyWrites (D.outside desk.old) (D.outside desk.new) }
{
    let mut second = Second::new(desk);
    put_head(&mut second, format)
}

/// Writes both lines, in the formats of the first and of the second party's pictures.
pub fn write_heads<D: Desk>(desk: &mut D, a: Format, b: Format) -> Result<(), Status>
    requires pictures { (D.outside desk.old).attached Pictures ≡ true }
    requires pictures2 { (D.outside desk.old).attached Pictures2 ≡ true }
    ensures ok { OnOk result (Gains (both_heads a b)
        (D.outside desk.old).written (D.outside desk.new).written) }
    ensures err { OnErr result (GainsFronts (both_heads a b)
        (D.outside desk.old).written (D.outside desk.new).written) }
    ensures kind { IfErr result (λ status. status ≡ Status.WriteFault) }
    ensures cause { OnErr result
        (Rose (D.outside desk.old).faults.write (D.outside desk.new).faults.write) }
    ensures rest { OnlyWrites (D.outside desk.old) (D.outside desk.new) }
{
    desk_program_laws::turn_laws();
    outside_laws::calls();
    put_head(desk, a)?;
    put_second_head(desk, b)
}
