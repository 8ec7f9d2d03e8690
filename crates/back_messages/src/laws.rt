//! Laws over the definitions alone.
ghost use Rattle.std.specs.Prelude.{◌≡◌, ◌↔◌, ℕ, ◌+◌, ◌++◌, List, Bool, Ok, Err};
ghost use Rattle.h263_bits.specs.declared.fault.Fault.{Fault};
ghost use Rattle.h263_bits.specs.Bits.{bits_of};
ghost use Rattle.h263_bits.specs.Reading.{Bits};
ghost use Rattle.h263_bits.specs.Syntax.{Spells, reading};
ghost use Rattle.h263_types.specs.declared.clock.Clock.{Clock};
ghost use Rattle.back_messages.specs.Text.{IsMessage, message_text, message_in, message};
ghost use Rattle.back_messages.specs.Laws.{MessageLaws};
ghost use Rattle.back_messages.specs.Rows.{IsMessageFault, IsMessageFieldFault};
ghost use Rattle.back_messages.specs.declared.message.Message.{Message};
ghost use Rattle.back_messages.specs.declared.message.MessageFault.{MessageFault};

/// Bytes are read as a message exactly where they are its text.
pub fn exact_text()
    ensures written { (clock : Clock) (m : Message) (bytes : List ℕ)
        → IsMessage clock m → bits_of bytes ≡ message_text m → message_in clock bytes ≡ Ok m }
    ensures read { (clock : Clock) (m : Message) (bytes : List ℕ) → message_in clock bytes ≡ Ok m
        → IsMessage clock m × (bits_of bytes ≡ message_text m) }
{}

/// Bytes are refused for a fault exactly where a row of the table of faults has it. So are the bits
/// in a picture header that a message stands in, there with its place.
pub fn first_faults()
    ensures bytes { (clock : Clock) (bytes : List ℕ) (fault : MessageFault)
        → (message_in clock bytes ≡ Err fault) ↔ IsMessageFault clock bytes fault }
    ensures field { (clock : Clock) (b : Bits) (fault : Fault)
        → (reading (message clock) b ≡ Err fault)
        ↔ ((place : ℕ) × (fault.at ≡ b.at + place) × IsMessageFieldFault clock b.bits fault.kind place) }
{}

/// In a header the text of a message is the same bits.
pub fn field_text()
    ensures written { (clock : Clock) (m : Message)
        → IsMessage clock m → Spells (message clock) m (message_text m) }
    ensures read { (clock : Clock) (m : Message) (bits : List Bool) → Spells (message clock) m bits
        → IsMessage clock m × (bits ≡ message_text m) }
{}

/// Of two texts of which one begins the other both are the same, and spell the same message.
pub fn one_reading()
    ensures { (clock : Clock) (m n : Message) (x y more : List Bool) → Spells (message clock) m x
        → Spells (message clock) n y → x ++ more ≡ y → (x ≡ y) × (m ≡ n) }
{}

/// What a syntax that has messages in it needs to know of them.
pub fn in_a_syntax()
    ensures { MessageLaws }
{}
