//! Laws about the payload header, over the definitions alone.
ghost use Rattle.std.specs.Prelude.{◌≡◌, ◌↔◌, ℕ, ◌+◌, ◌<◌, [], ◌∷◌, ◌++◌, Bool, true, false, List, length, Option, Some, None, Ok, Err};
ghost use Rattle.h263_bits.specs.declared.fault.Fault.{Fault};
ghost use Rattle.h263_bits.specs.declared.fault.FaultKind.TheVariants as faults;
ghost use Rattle.h263_bits.specs.Bits.{fields};
ghost use Rattle.h263_bits.specs.Elements.{HasFault};
ghost use Rattle.h263_bits.specs.Reading.{Bits};
ghost use Rattle.h263_types.specs.declared.format.Format.{Format};
ghost use Rattle.picture_header.specs.declared.header.Header.{Header};
ghost use Rattle.picture_header.specs.Ranges.{IsHeader};
ghost use Rattle.h263_payload.specs.Text.{leading, IsPayload};
ghost use Rattle.h263_payload.specs.Faults.{payload_at};
ghost use Rattle.h263_payload.specs.Rows.{IsPayloadFault};
ghost use Rattle.h263_payload.specs.Written.{written_payload, payload_bits};
ghost use Rattle.h263_payload.specs.declared.payload.Payload.{Payload};

use picture_header::laws::in_a_syntax;

/// Bits are read as a payload exactly where they spell it: there is no fault exactly where there is
/// a text.
pub fn exact_text()
    ensures read { (format : Format) (p : Payload) (b : Bits)
        → payload_at format b ≡ Ok p → IsPayload format p b }
    ensures written { (format : Format) (p : Payload) (b : Bits)
        → IsPayload format p b → payload_at format b ≡ Ok p }
{
    in_a_syntax();
}

/// A payload is refused for a fault exactly where a row of the table of faults has it there. Of the
/// first fields P alone is refused, where it is 0.
pub fn first_faults()
    ensures whole { (format : Format) (b : Bits) (fault : Fault)
        → (payload_at format b ≡ Err fault) ↔ IsPayloadFault format b fault.kind fault.at }
    ensures follow_on { (rr : ℕ) → rr < 32
        → HasFault leading (fields ((5, rr) ∷ (1, 0) ∷ [])) faults.FollowOn 5 }
{
    in_a_syntax();
}

/// Bits spell one payload header.
pub fn one_reading()
    ensures { (format : Format) (p q : Payload) (b : Bits)
        → IsPayload format p b → IsPayload format q b → p ≡ q }
{
    in_a_syntax();
}

/// What is written in front of a picture's first data, or of a later slice with its header, is read
/// again.
pub fn read_again()
    ensures picture { (format : Format) (at : ℕ) (rest : List Bool)
        → payload_at format (record { at = at; bits = written_payload None ++ true ∷ false ∷ rest })
        ≡ Ok (record { extra = None; begins = true; from = at + length (written_payload None) }) }
    ensures slice { (h : Header) (at : ℕ) (rest : List Bool) → IsHeader h → payload_at h.format
        (record { at = at; bits = written_payload (Some h) ++ true ∷ true ∷ rest }) ≡ Ok
        (record { extra = Some h; begins = false; from = at + length (written_payload (Some h)) }) }
    ensures many { (extra : Option Header) → length (written_payload extra) ≡ payload_bits extra }
{
    in_a_syntax();
}
