//! Laws about the start of a packet, over the definitions alone.
ghost use Rattle.std.specs.Prelude.{◌≡◌, ◌↔◌, ℕ, List, Ok, Some};
ghost use Rattle.h263_types.specs.declared.format.Format.{Format};
ghost use Rattle.picture_header.specs.declared.header.Header.{Header};
ghost use Rattle.packet_collector.specs.Packet.{PacketSlice, packet_at};
ghost use Rattle.packet_start.specs.Start.{start_at, start_in};

/// A packet that is read has the start that is read of it.
pub fn starts_as_read()
    ensures { (format : Format) (bytes : List ℕ) (s : PacketSlice)
        → packet_at format bytes ≡ Ok s → start_at format bytes ≡ Ok s.header }
{}

/// A start that is read is of the expected format.
pub fn start_is_of_format()
    ensures { (format : Format) (bytes : List ℕ) (h : Header)
        → start_at format bytes ≡ Ok h → h.format ≡ format }
{
    h263_payload::laws::exact_text();
}

/// Bytes have a start in one format at most: the one that is found.
pub fn one_format()
    ensures one { (a b : Format) (bytes : List ℕ) (h k : Header)
        → start_at a bytes ≡ Ok h → start_at b bytes ≡ Ok k → a ≡ b }
    ensures found { (bytes : List ℕ) (h : Header)
        → (start_in bytes ≡ Some h) ↔ (start_at h.format bytes ≡ Ok h) }
{
    start_is_of_format();
}
