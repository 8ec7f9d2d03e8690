//! What a call of two parties writes: of a picture that is played the picture and its line, and at
//! the end the counts of both parties.
ghost use Rattle.std.specs.Prelude.{◌≡◌, ◌<◌, ◌≤◌, ◌+◌, ℕ, true, length, OnOk, OnErr, IfErr};
ghost use Rattle.h263_outside.specs.Desk.{OnlyWrites, Rose};
ghost use Rattle.h263_outside.specs.declared.desk.Role.TheVariants.{Pictures, Report};
ghost use Rattle.h263_types.specs.declared.params.Params.{Params};
ghost use Rattle.call_report.specs.View.{line_text};
ghost use Rattle.call_command.specs.Counts.{call_text_of};
ghost use Rattle.call_model.specs.IdealCall.{Play};
ghost use Rattle.call_encoding.specs.Frames.{Frame};
ghost use Rattle.desk_program.specs.Ends.{Gains, GainsFronts};
ghost use Rattle.one_way.specs.Seen.{in_call};
ghost use Rattle.duplex_call.specs.declared.line.Party.{Party};
ghost use Rattle.duplex_call.specs.declared.line.Party.TheVariants.{A};
ghost use Rattle.duplex_call.specs.Duplex.{MayHappenOf, WayRuns, with_play};
ghost use Rattle.duplex_ends.specs.Keeping.{KeepsInPlay};
ghost use Rattle.duplex_ends.specs.Pair.{AreInCall, HoldsPair, MayHappenToParty};
ghost use Rattle.duplex_ends.specs.Ways.{call_in, sides};
ghost use Rattle.duplex_command.specs.Duplex.{both_counts, letter_of, party_play_texts};

use call_command::{Row, counts_line, show_row};
use call_report::{Line, Status};
use desk_program::{laws as desk_program_laws, put_line};
use duplex_call::Party;
use duplex_ends::{PartyEnds, laws as duplex_ends_laws, play};
use h263_outside::{Desk, Role, laws as outside_laws};

// The letter of a party.
fn letter(party: Party) -> u8
    ensures value { result ≡ letter_of party }
    ensures ascii { result < 128 }
{
    match party {
        Party::A => b'a',
        Party::B => b'b',
    }
}

/// Plays the party's next picture, which was sent, and writes it with its line.
pub fn play_next<D: Desk>(
    desk: &mut D,
    party: Party,
    own: &mut PartyEnds,
    far: &mut PartyEnds,
) -> Result<(), Status>
    requires pictures { (D.outside desk.old).attached Pictures ≡ true }
    requires report { (D.outside desk.old).attached Report ≡ true }
    requires near { MayHappenToParty own.old far.old Play }
    ensures ready { AreInCall own.new far.new }
    ensures keeps { KeepsInPlay own.old far.old own.new far.new }
    ensures holds { (p : Party → Params) (x : Party) (ways : WayRuns Frame) (left : ℕ)
        → HoldsPair p x own.old far.old ways → MayHappenOf (sides p) left x Play ways
        → HoldsPair p x own.new far.new (with_play (sides p) x ways) }
    ensures ok { (p : Party → Params) (ways : WayRuns Frame) (left : ℕ)
        → HoldsPair p party own.old far.old ways → MayHappenOf (sides p) left party Play ways
        → OnOk result (Gains (party_play_texts Pictures party
        (in_call (call_in p party (with_play (sides p) party ways))) (call_in p party ways).played)
        (D.outside desk.old).written (D.outside desk.new).written) }
    ensures err { (p : Party → Params) (ways : WayRuns Frame) (left : ℕ)
        → HoldsPair p party own.old far.old ways → MayHappenOf (sides p) left party Play ways
        → OnErr result (GainsFronts (party_play_texts Pictures party
        (in_call (call_in p party (with_play (sides p) party ways))) (call_in p party ways).played)
        (D.outside desk.old).written (D.outside desk.new).written) }
    ensures kind { IfErr result (λ status. status ≡ Status.WriteFault) }
    ensures cause { OnErr result (Rose (D.outside desk.old).faults.write
        (D.outside desk.new).faults.write) }
    ensures rest { OnlyWrites (D.outside desk.old) (D.outside desk.new) }
{
    duplex_ends_laws::pair_laws();
    duplex_ends_laws::after_a_play();
    let reference = own.reference_of_next();
    let played = play(own, far);
    let row = Row {
        role: Role::Pictures,
        letter: Some(letter(party)),
        number: played.number,
        mark: played.mark,
        reference,
    };
    show_row(desk, &row, own.shown())
}

// The line of a party's counts, with this word for the pictures that were played.
fn party_line(word: &str, ends: &PartyEnds) -> Line
    requires { length word.now ≤ 16 }
    ensures { (p : Party → Params) (x : Party) (far : PartyEnds) (ways : WayRuns Frame)
        → HoldsPair p x ends.now far ways
        → line_text result ≡ call_text_of word.now (in_call (call_in p x ways)) }
{
    duplex_ends_laws::pair_laws();
    counts_line(word, ends.tally(), ends.played(), ends.sent())
}

/// Writes the counts of both parties, at the end of the trace.
pub fn tell_counts<D: Desk>(desk: &mut D, a: &PartyEnds, b: &PartyEnds) -> Result<(), Status>
    requires { (D.outside desk.old).attached Report ≡ true }
    ensures ok { (p : Party → Params) (ways : WayRuns Frame) → HoldsPair p A a.now b.now ways
        → OnOk result (Gains (both_counts p ways)
        (D.outside desk.old).written (D.outside desk.new).written) }
    ensures err { (p : Party → Params) (ways : WayRuns Frame) → HoldsPair p A a.now b.now ways
        → OnErr result (GainsFronts (both_counts p ways)
        (D.outside desk.old).written (D.outside desk.new).written) }
    ensures kind { IfErr result (λ status. status ≡ Status.WriteFault) }
    ensures cause { OnErr result (Rose (D.outside desk.old).faults.write
        (D.outside desk.new).faults.write) }
    ensures rest { OnlyWrites (D.outside desk.old) (D.outside desk.new) }
{
    outside_laws::calls();
    desk_program_laws::turn_laws();
    duplex_ends_laws::pair_laws();
    put_line(desk, &party_line("a played", a))?;
    put_line(desk, &party_line("b played", b))
}
