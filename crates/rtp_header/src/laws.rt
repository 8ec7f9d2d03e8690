//! Laws about an RTP packet, over the definitions alone.
ghost use Rattle.std.specs.Prelude.{◌≡◌, ◌↔◌, ℕ, ◌<◌, ◌≤◌, ◌++◌, List, Bool, length, Ok, Err};
ghost use Rattle.h263_bits.specs.Bits.{bits_of, fields};
ghost use Rattle.h263_bits.specs.declared.fault.Fault.{Fault};
ghost use Rattle.rtp_header.specs.Text.{IsRtp};
ghost use Rattle.rtp_header.specs.Faults.{rtp_in};
ghost use Rattle.rtp_header.specs.Rows.{IsRtpFault};
ghost use Rattle.rtp_header.specs.Written.{rtp_fields, written_rtp, IsPayloadWithin};
ghost use Rattle.rtp_header.specs.declared.rtp.Rtp.{Rtp};

/// Bytes are read as a packet exactly where they spell it: there is no fault exactly where there is
/// a text.
pub fn exact_text()
    ensures read { (r : Rtp) (bytes : List ℕ) → rtp_in bytes ≡ Ok r → IsRtp r bytes }
    ensures written { (r : Rtp) (bytes : List ℕ) → IsRtp r bytes → rtp_in bytes ≡ Ok r }
{}

/// A packet is refused for a fault exactly where a row of the table of faults has it there.
pub fn first_faults()
    ensures { (bytes : List ℕ) (fault : Fault)
        → (rtp_in bytes ≡ Err fault) ↔ IsRtpFault bytes fault.kind fault.at }
{}

/// Bytes spell one packet.
pub fn one_reading()
    ensures { (r s : Rtp) (bytes : List ℕ) → IsRtp r bytes → IsRtp s bytes → r ≡ s }
{}

/// The payload lies in the packet, after 12 bytes at least.
pub fn payload_within()
    ensures { (r : Rtp) (bytes : List ℕ) → rtp_in bytes ≡ Ok r → IsPayloadWithin r bytes }
{}

/// What is written of a header is read again, whatever payload follows.
pub fn read_again()
    ensures { (bytes payload : List ℕ) (marker : Bool) (sequence timestamp : ℕ)
        → sequence < 65536 → timestamp < 4294967296
        → bits_of bytes ≡ fields (rtp_fields marker sequence timestamp) → length payload ≤ 65523
        → rtp_in (bytes ++ payload) ≡ Ok (written_rtp marker sequence timestamp (length payload)) }
{}
