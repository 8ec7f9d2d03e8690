//! What a call writes: of a picture that is played the picture and its line, and at the end the
//! counts.
ghost use Rattle.std.specs.Prelude.{◌≡◌, ◌+◌, ◌^◌, ◌<◌, ◌≤◌, List, ◌∷◌, true, OnOk, OnErr, IfErr, IfSome};
ghost use Rattle.h263_outside.specs.Desk.{GainsFront, IsOutput, OnlyWrites, Rose, appended};
ghost use Rattle.h263_outside.specs.declared.desk.Role.TheVariants.{Pictures, Report};
ghost use Rattle.h263_planes.specs.Lent.{picture as lent};
ghost use Rattle.h263_types.specs.declared.params.Params.{Params};
ghost use Rattle.call_model.specs.IdealCall.{Event, Play};
ghost use Rattle.call_model.specs.Receiving.{ReceiverEntry};
ghost use Rattle.call_encoding.specs.Frames.{Frame};
ghost use Rattle.receiver_end.specs.State as receiver_end;
ghost use Rattle.y4m.specs.Text.{frame_text, mark_text};
ghost use Rattle.desk_program.specs.Ends.{Gains, GainsFronts};
ghost use Rattle.desk_program.specs.Texts.{on};
ghost use Rattle.one_way.specs.Both.{State, both_after, steady};
ghost use Rattle.one_way.specs.Counts.{total_of};
ghost use Rattle.one_way.specs.Seen.{in_both};
ghost use Rattle.one_way.specs.Way.{HoldsNetwork, MayHappenNow, OnlyCounts};
ghost use Rattle.one_way.specs.Way.{said_in, tally_of, way_of};
ghost use Rattle.call_command.specs.Call.{play_texts};
ghost use Rattle.call_command.specs.Counts.{counts_of};
ghost use Rattle.call_command.specs.Rows.{row_texts};

use crate::counts_line;
use call_report::{Status, picture_line};
use desk_program::{laws as desk_program_laws, put_line};
use h263_outside::{Desk, Failed, Role, laws as outside_laws, write_all};
use h263_planes::PictureRef;
use h263_types::{FixedPace, Mark};
use one_way::{Network, laws as one_way_laws};
use receiver_end::Receiver;
use sender_end::Sender;

/// What is told of a picture that is shown: the output that it goes to, whose it is where there are
/// several, its number, its mark, and the reference of the picture that was sent.
#[derive(Clone, Copy)]
pub struct Row {
    pub role: Role,
    pub letter: Option<u8>,
    pub number: u32,
    pub mark: Mark,
    pub reference: Option<u32>,
}

// The line that a picture with this mark begins with.
fn mark_line(mark: Mark) -> &'static [u8]
    ensures { result.now ≡ mark_text mark }
{
    match mark {
        Mark::Exact => b"FRAME XEXACT\n",
        Mark::Patched => b"FRAME XPATCHED\n",
        Mark::Held => b"FRAME XHELD\n",
    }
}

// Writes a picture with the line of its mark.
fn write_shown<D: Desk>(
    desk: &mut D,
    role: Role,
    mark: Mark,
    picture: PictureRef<'_>,
) -> Result<(), Failed>
    requires output { IsOutput role }
    requires attached { (D.outside desk.old).attached role ≡ true }
    ensures text { OnOk result ((D.outside desk.new).written ≡ appended
        (D.outside desk.old).written role (frame_text mark (lent picture.entry))) }
    ensures prefix { OnErr result (GainsFront role (frame_text mark (lent picture.entry))
        (D.outside desk.old).written (D.outside desk.new).written) }
    ensures cause { OnErr result
        (Rose (D.outside desk.old).faults.write (D.outside desk.new).faults.write) }
    ensures rest { OnlyWrites (D.outside desk.old) (D.outside desk.new) }
{
    outside_laws::calls();
    outside_laws::fronts_of_two();
    write_all(desk, role, mark_line(mark))?;
    write_all(desk, role, picture.bytes())
}

fn put_shown<D: Desk>(
    desk: &mut D,
    role: Role,
    mark: Mark,
    picture: PictureRef<'_>,
) -> Result<(), Status>
    requires output { IsOutput role }
    requires attached { (D.outside desk.old).attached role ≡ true }
    ensures ok { OnOk result (Gains (on role (frame_text mark (lent picture.entry)))
        (D.outside desk.old).written (D.outside desk.new).written) }
    ensures err { OnErr result (GainsFronts (on role (frame_text mark (lent picture.entry)))
        (D.outside desk.old).written (D.outside desk.new).written) }
    ensures kind { IfErr result (λ status. status ≡ Status.WriteFault) }
    ensures cause { OnErr result
        (Rose (D.outside desk.old).faults.write (D.outside desk.new).faults.write) }
    ensures rest { OnlyWrites (D.outside desk.old) (D.outside desk.new) }
{
    desk_program_laws::turn_laws();
    match write_shown(desk, role, mark, picture) {
        Ok(()) => Ok(()),
        Err(_) => Err(Status::WriteFault),
    }
}

/// Writes a picture that is shown, and its line.
pub fn show_row<D: Desk>(desk: &mut D, row: &Row, picture: PictureRef<'_>) -> Result<(), Status>
    requires output { IsOutput row.now.role }
    requires pictures { (D.outside desk.old).attached row.now.role ≡ true }
    requires report { (D.outside desk.old).attached Report ≡ true }
    requires letter { IfSome row.now.letter (λ letter. letter < 128) }
    ensures ok { OnOk result (Gains (row_texts row.now (lent picture.entry))
        (D.outside desk.old).written (D.outside desk.new).written) }
    ensures err { OnErr result (GainsFronts (row_texts row.now (lent picture.entry))
        (D.outside desk.old).written (D.outside desk.new).written) }
    ensures kind { IfErr result (λ status. status ≡ Status.WriteFault) }
    ensures cause { OnErr result (Rose (D.outside desk.old).faults.write
        (D.outside desk.new).faults.write) }
    ensures rest { OnlyWrites (D.outside desk.old) (D.outside desk.new) }
{
    outside_laws::calls();
    desk_program_laws::turn_laws();
    put_shown(desk, row.role, row.mark, picture)?;
    let line = picture_line(row.number, Some(row.mark), Some(row.reference), row.letter);
    put_line(desk, &line)
}

/// Plays the next picture, which was sent, and writes it with its line.
pub fn play_next<D: Desk>(
    desk: &mut D,
    network: &mut Network,
    receiver: &mut Receiver,
) -> Result<(), Status>
    requires pictures { (D.outside desk.old).attached Pictures ≡ true }
    requires report { (D.outside desk.old).attached Report ≡ true }
    requires played { receiver.old.played < 2 ^ 20 }
    requires counted { total_of (tally_of (way_of network.old)) ≡ receiver.old.played }
    requires said { said_in network.old + 1 < 2 ^ 64 }
    ensures params { receiver.new.params ≡ receiver.old.params }
    ensures played { receiver.new.played ≡ receiver.old.played + 1 }
    ensures counted { total_of (tally_of (way_of network.new)) ≡ receiver.new.played }
    ensures few { said_in network.new ≤ said_in network.old + 1 }
    ensures way { OnlyCounts (way_of network.old) (way_of network.new) }
    ensures holds { (p : Params) (sender : State) (before : List ReceiverEntry)
        (frames : List Frame) (past : List Event)
        → HoldsNetwork p network.old sender receiver.old before frames past
        → MayHappenNow p before frames past Play
        → HoldsNetwork p network.new sender receiver.new before frames (Play ∷ past) }
    ensures ok { (p : Params) (sender : State) (before : List ReceiverEntry)
        (frames : List Frame) (past : List Event)
        → (receiver_end.run_of p before).played ≡ 0
        → HoldsNetwork p network.old sender receiver.old before frames past
        → MayHappenNow p before frames past Play
        → OnOk result (Gains (play_texts
        (in_both (both_after p (steady p) frames before (Play ∷ past))) receiver.old.played)
        (D.outside desk.old).written (D.outside desk.new).written) }
    ensures err { (p : Params) (sender : State) (before : List ReceiverEntry)
        (frames : List Frame) (past : List Event)
        → (receiver_end.run_of p before).played ≡ 0
        → HoldsNetwork p network.old sender receiver.old before frames past
        → MayHappenNow p before frames past Play
        → OnErr result (GainsFronts (play_texts
        (in_both (both_after p (steady p) frames before (Play ∷ past))) receiver.old.played)
        (D.outside desk.old).written (D.outside desk.new).written) }
    ensures kind { IfErr result (λ status. status ≡ Status.WriteFault) }
    ensures cause { OnErr result (Rose (D.outside desk.old).faults.write
        (D.outside desk.new).faults.write) }
    ensures rest { OnlyWrites (D.outside desk.old) (D.outside desk.new) }
{
    one_way_laws::way_laws();
    let reference = network.reference_of(receiver);
    let played = network.play(receiver);
    let row = Row {
        role: Role::Pictures,
        letter: None,
        number: played.number,
        mark: played.mark,
        reference,
    };
    show_row(desk, &row, receiver.shown())
}

/// Writes the counts, at the end of the trace.
pub fn tell_counts<D: Desk>(
    desk: &mut D,
    network: &Network,
    sender: &Sender<FixedPace>,
    receiver: &Receiver,
) -> Result<(), Status>
    requires { (D.outside desk.old).attached Report ≡ true }
    ensures ok { OnOk result (Gains (on Report (counts_of (tally_of (way_of network.now))
        receiver.now.played sender.now.sent))
        (D.outside desk.old).written (D.outside desk.new).written) }
    ensures err { OnErr result (GainsFronts (on Report (counts_of (tally_of (way_of network.now))
        receiver.now.played sender.now.sent))
        (D.outside desk.old).written (D.outside desk.new).written) }
    ensures kind { IfErr result (λ status. status ≡ Status.WriteFault) }
    ensures cause { OnErr result (Rose (D.outside desk.old).faults.write
        (D.outside desk.new).faults.write) }
    ensures rest { OnlyWrites (D.outside desk.old) (D.outside desk.new) }
{
    let tally = network.tally();
    let line = counts_line("played", tally, receiver.played(), sender.sent());
    put_line(desk, &line)
}
