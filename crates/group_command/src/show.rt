//! What a group's call writes.
ghost use Rattle.std.specs.Prelude.{◌≡◌, ◌+◌, ◌^◌, ◌<◌, ◌≤◌, ◌∷◌, codes, length, true, OnOk, OnErr, IfErr};
ghost use Rattle.h263_outside.specs.Desk.{IsOutput, OnlyWrites, Rose};
ghost use Rattle.h263_outside.specs.declared.desk.Role.TheVariants.{Report};
ghost use Rattle.h263_types.specs.declared.params.Params.{Params};
ghost use Rattle.y4m.specs.Text.{head_text};
ghost use Rattle.desk_program.specs.Ends.{Gains, GainsFronts};
ghost use Rattle.desk_program.specs.Texts.{on};
ghost use Rattle.receiver_end.specs.State.{run_of};
ghost use Rattle.one_way.specs.Counts.{total_of};
ghost use Rattle.group_sender.specs.Holding.{Groups};
ghost use Rattle.group_call.specs.Holding.{HoldsBroadcast, HoldsViewer, told_count};
ghost use Rattle.group_call.specs.Viewing.{ViewerRun, view_play};
ghost use Rattle.group_command.specs.Group.{counts_of_view, pictures_at, played_texts};
ghost use Rattle.group_command.specs.Turning.{OpensFor};

use call_command::{Row, counts_line, show_row};
use call_report::Status;
use desk_program::{put, put_line};
use group_call::{Broadcast, Viewer};
use h263_outside::{Desk, Role};
use h263_types::Format;

// Where the pictures go of the receiver at this place.
fn pictures_at(place: u32) -> Role
    ensures value { result ≡ pictures_at place }
    ensures output { IsOutput result }
{
    match place {
        0 => Role::Pictures,
        1 => Role::Pictures2,
        _ => Role::Wire,
    }
}

fn head_of(format: Format) -> &'static [u8]
    ensures { result.now ≡ head_text format }
{
    match format {
        Format::SubQcif => b"YUV4MPEG2 W128 H96 F30000:1001 Ip C420jpeg\n",
        Format::Qcif => b"YUV4MPEG2 W176 H144 F30000:1001 Ip C420jpeg\n",
        Format::Cif => b"YUV4MPEG2 W352 H288 F30000:1001 Ip C420jpeg\n",
    }
}

/// Writes the line that the pictures of the receiver at this place begin with.
pub fn put_own_head<D: Desk>(desk: &mut D, place: u32, format: Format) -> Result<(), Status>
    requires { (D.outside desk.old).attached (pictures_at place) ≡ true }
    ensures ok { OnOk result (Gains (on (pictures_at place) (head_text format))
        (D.outside desk.old).written (D.outside desk.new).written) }
    ensures err { OnErr result (GainsFronts (on (pictures_at place) (head_text format))
        (D.outside desk.old).written (D.outside desk.new).written) }
    ensures kind { IfErr result (λ status. status ≡ Status.WriteFault) }
    ensures cause { OnErr result
        (Rose (D.outside desk.old).faults.write (D.outside desk.new).faults.write) }
    ensures rest { OnlyWrites (D.outside desk.old) (D.outside desk.new) }
{
    put(desk, pictures_at(place), head_of(format))
}

// Its number, from 1 on, as a digit.
fn digit_of(place: u32) -> u8
    requires { place < 3 }
    ensures value { result ≡ 49 + place }
    ensures ascii { result < 128 }
{
    match place {
        0 => b'1',
        1 => b'2',
        _ => b'3',
    }
}

/// Plays the next picture of the receiver at this place, which was sent, and writes it with its line.
pub fn play_next<D: Desk>(
    desk: &mut D,
    place: u32,
    cast: &Broadcast,
    viewer: &mut Viewer,
) -> Result<(), Status>
    requires place { place < 3 }
    requires opens { OpensFor place (D.outside desk.old).attached }
    requires played { viewer.old.receiver.played < 2 ^ 20 }
    requires counted { total_of viewer.old.tally < 1048576 }
    requires told { told_count viewer.old + 1 < 2 ^ 64 }
    ensures params { viewer.new.receiver.params ≡ viewer.old.receiver.params }
    ensures played { viewer.new.receiver.played ≡ viewer.old.receiver.played + 1 }
    ensures counted { total_of viewer.new.tally ≡ total_of viewer.old.tally + 1 }
    ensures few { told_count viewer.new ≤ told_count viewer.old + 1 }
    ensures holds { (p : Params) (view : ViewerRun) → HoldsViewer p viewer.old view
        → HoldsViewer p viewer.new (view_play p view) }
    ensures ok { (p : Params) (run : Groups) (view : ViewerRun) → HoldsBroadcast p cast.now run
        → HoldsViewer p viewer.old view → (run_of p view.entries).played < length run.coded
        → length run.coded ≤ (run_of p view.entries).played + 512
        → OnOk result (Gains (played_texts p place run view)
        (D.outside desk.old).written (D.outside desk.new).written) }
    ensures err { (p : Params) (run : Groups) (view : ViewerRun) → HoldsBroadcast p cast.now run
        → HoldsViewer p viewer.old view → (run_of p view.entries).played < length run.coded
        → length run.coded ≤ (run_of p view.entries).played + 512
        → OnErr result (GainsFronts (played_texts p place run view)
        (D.outside desk.old).written (D.outside desk.new).written) }
    ensures kind { IfErr result (λ status. status ≡ Status.WriteFault) }
    ensures cause { OnErr result
        (Rose (D.outside desk.old).faults.write (D.outside desk.new).faults.write) }
    ensures rest { OnlyWrites (D.outside desk.old) (D.outside desk.new) }
{
    let reference = cast.reference_of(viewer.played());
    let played = viewer.play();
    let row = Row {
        role: pictures_at(place),
        letter: Some(digit_of(place)),
        number: played.number,
        mark: played.mark,
        reference,
    };
    show_row(desk, &row, viewer.shown())
}

// What the line of its counts begins with.
fn word_of(place: u32) -> &'static str
    requires { place < 3 }
    ensures value { result.now ≡ (49 + place) ∷ codes " played" }
    ensures short { length result.now ≤ 16 }
{
    match place {
        0 => "1 played",
        1 => "2 played",
        _ => "3 played",
    }
}

/// Writes the counts of the receiver at this place.
pub fn tell_counts<D: Desk>(
    desk: &mut D,
    place: u32,
    cast: &Broadcast,
    viewer: &Viewer,
) -> Result<(), Status>
    requires place { place < 3 }
    requires report { (D.outside desk.old).attached Report ≡ true }
    ensures ok { (p : Params) (run : Groups) (view : ViewerRun) → HoldsBroadcast p cast.now run
        → HoldsViewer p viewer.now view
        → OnOk result (Gains (on Report (counts_of_view p run place view))
        (D.outside desk.old).written (D.outside desk.new).written) }
    ensures err { (p : Params) (run : Groups) (view : ViewerRun) → HoldsBroadcast p cast.now run
        → HoldsViewer p viewer.now view
        → OnErr result (GainsFronts (on Report (counts_of_view p run place view))
        (D.outside desk.old).written (D.outside desk.new).written) }
    ensures kind { IfErr result (λ status. status ≡ Status.WriteFault) }
    ensures cause { OnErr result
        (Rose (D.outside desk.old).faults.write (D.outside desk.new).faults.write) }
    ensures rest { OnlyWrites (D.outside desk.old) (D.outside desk.new) }
{
    let line = counts_line(word_of(place), viewer.tally(), viewer.played(), cast.sent());
    put_line(desk, &line)
}
