//! The packets that a joiner gives are delivered to the receiver, one after the other.
ghost use Rattle.std.specs.Prelude.{◌≡◌, ◌+◌, ◌<◌, ◌^◌, ℕ, true, List, [], ◌∷◌, length, Option};
ghost use Rattle.h263_outside.specs.Desk.{Outside};
ghost use Rattle.h263_outside.specs.declared.desk.Role.{Role};
ghost use Rattle.h263_outside.specs.declared.desk.Role.TheVariants.{Wire};
ghost use Rattle.h263_types.specs.declared.clock.Clock.{Clock};
ghost use Rattle.call_model.specs.Coding.{Message};
ghost use Rattle.receiver_end.specs.Answers.{SaysMessage};
ghost use Rattle.desk_program.specs.Texts.{then_also};
ghost use Rattle.recv_command.specs.Join.{HasWritten, Delivering, IsDelivering, Wrote, delivers};
ghost use Rattle.recv_command.specs.JoinTally.{with_joined};
ghost use Rattle.recv_command.specs.Recv.{RecvStands, RecvState};
ghost use Rattle.recv_command.specs.Said.{said_message_text};
ghost use Rattle.recv_command.specs.Tally.{total_counted};

use crate::parts::say;
use crate::{JoinTally, Receiving};
use back_messages::Said;
use call_report::Status;
use desk_program::laws as desk_program_laws;
use h263_outside::{Desk, laws as outside_laws};
use payload_join::Joiner;

// Writes a message, if there is one, unless a write failed before.
fn say_after<D: Desk>(
    desk: &mut D,
    message: Option<Said>,
    before: Result<(), Status>,
) -> Result<(), Status>
    requires { (D.outside desk.old).attached Wire ≡ true }
    ensures has_written { (old : Outside)
        → HasWritten before old (D.outside desk.old) → HasWritten result old (D.outside desk.new) }
    ensures said { (old : Role → Option (List ℕ)) (texts : Role → List ℕ) (clock : Clock)
        (said : Option Message) → SaysMessage clock message said
        → Wrote texts before old (D.outside desk.old).written
        → Wrote (then_also texts (said_message_text said)) result old (D.outside desk.new).written }
    ensures wire { (D.outside desk.new).attached Wire ≡ true }
{
    desk_program_laws::turn_laws();
    outside_laws::calls();
    match before {
        Ok(()) => say(desk, message),
        Err(status) => Err(status),
    }
}

// Delivers one packet, and says what it completes, unless a write failed before.
fn deliver_one<D: Desk>(
    receiving: &mut Receiving,
    desk: &mut D,
    bytes: &[u8],
    before: Result<(), Status>,
) -> Result<(), Status>
    requires wire { (D.outside desk.old).attached Wire ≡ true }
    requires room { total_counted receiving.old.tally < 2 ^ 47 }
    ensures has_written { (old : Outside)
        → HasWritten before old (D.outside desk.old) → HasWritten result old (D.outside desk.new) }
    ensures delivering { (left : List (List ℕ)) (all : Delivering) (old : Role → Option (List ℕ))
        → IsDelivering receiving.old (bytes.now ∷ left) before all old (D.outside desk.old).written
        → IsDelivering receiving.new left result all old (D.outside desk.new).written }
    ensures total { total_counted receiving.new.tally ≡ total_counted receiving.old.tally + 1 }
    ensures wire { (D.outside desk.new).attached Wire ≡ true }
{
    let message = receiving.deliver(bytes);
    say_after(desk, message, before)
}

// Delivers all that is left in the joiner. Where a write fails, nothing more is written, and the
// receiver gets the rest all the same.
pub(crate) fn deliver_all<D: Desk>(
    joiner: &mut Joiner,
    receiving: &mut Receiving,
    took: &mut JoinTally,
    desk: &mut D,
) -> Result<(), Status>
    requires wire { (D.outside desk.old).attached Wire ≡ true }
    requires room { total_counted receiving.old.tally + length joiner.old.left < 2 ^ 47 }
    requires joined { took.old.joined + length joiner.old.left < 2 ^ 47 }
    ensures left { joiner.new.left ≡ [] }
    ensures top { joiner.new.top ≡ joiner.old.top }
    ensures packets { joiner.new.packets ≡ joiner.old.packets }
    ensures total { total_counted receiving.new.tally
        ≡ total_counted receiving.old.tally + length joiner.old.left }
    ensures took { took.new ≡ with_joined (length joiner.old.left) took.old }
    ensures has_written { HasWritten result (D.outside desk.old) (D.outside desk.new) }
    ensures stands { (s : RecvState) → RecvStands receiving.old s
        → RecvStands receiving.new (delivers s joiner.old.left).state }
    ensures said { (s : RecvState) → RecvStands receiving.old s
        → Wrote (delivers s joiner.old.left).texts result
        (D.outside desk.old).written (D.outside desk.new).written }
{
    desk_program_laws::turn_laws();
    let mut outcome = Ok(());
    while let Some(packet) = joiner.next() {
        outcome = deliver_one(receiving, desk, packet, outcome);
        took.join();
    }
    outcome
}
