//! Messages on their way into a picture header, and out of it.
ghost use Rattle.std.specs.Prelude.{◌≡◌, ◌++◌, ◌≤◌, List, map, take};
ghost use Rattle.back_messages.specs.Said.{text_of_said};
ghost use Rattle.back_messages.specs.Text.{IsMessage};
ghost use Rattle.call_encoding.specs.Messages.{written_message};
ghost use Rattle.duplex_call.specs.declared.queue.Carried.{Carried};
ghost use Rattle.duplex_call.specs.Waiting.{Waits};
ghost use Rattle.duplex_ends.specs.Bringing.{carried_in, carried_message, said_as};

use back_messages::{Message, Said, read, write};
use coded_call::laws as coded_call_laws;
use duplex_call::{Carried, Carrier};
use h263_types::Clock;
use one_way::are_bytes;

/// What was said of picture `about`, if anything was, waits for the next header.
pub fn put_by(waiting: &mut Carrier, clock: Clock, about: u32, said: Option<Said>)
    ensures { (before : List Carried) → Waits waiting.old before
        → Waits waiting.new (before ++ said_as clock about said) }
{
    let Some(said) = said else {
        return;
    };
    if let Ok(message) = read(said.text(), clock) {
        waiting.say(Carried { about, message });
    }
}

/// The bytes of a message of a picture header: those that are written of it.
pub fn bytes_of(message: &Message, clock: Clock) -> Said
    requires { IsMessage clock message.now }
    ensures { text_of_said result ≡ written_message message.now }
{
    coded_call_laws::said_bytes();
    let said = write(message);
    are_bytes(said.text());
    said
}

/// Puts the messages of a picture header into these places, and answers how many there are.
pub fn put_messages(header: &[Option<Carried>; 4], messages: &mut [Message; 4]) -> usize
    ensures few { result ≤ 4 }
    ensures messages { take result messages.new ≡ map carried_message (carried_in header.now) }
{
    let mut count = 0;
    'header: for place in header {
        if let Some(carried) = place {
            messages[count] = carried.message;
            count += 1;
        }
    }
    count
}
