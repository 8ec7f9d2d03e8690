//! Laws about packets, over the definitions alone.
ghost use Rattle.std.specs.Prelude.{◌≡◌, ◌↔◌, ℕ, ◌+◌, ◌<◌, ◌≤◌, List, length, Ok, Err, None};
ghost use Rattle.h263_bits.specs.declared.fault.Fault.{Fault};
ghost use Rattle.h263_types.specs.declared.format.Format.{Format};
ghost use Rattle.h263_types.specs.Sizes.{mbs_of};
ghost use Rattle.packet_collector.specs.declared.collector.Collector.{Collector};
ghost use Rattle.packet_collector.specs.declared.piece.Piece.{Piece};
ghost use Rattle.packet_collector.specs.declared.piece.Place.{Place};
ghost use Rattle.packet_collector.specs.Collected.{Collects, from_number};
ghost use Rattle.packet_collector.specs.Laws.{PartLaws, FaultLaws};
ghost use Rattle.packet_collector.specs.Packet.{PacketSlice, IsPacket, packet_at, packet_fault};
ghost use Rattle.packet_collector.specs.Rows.{IsPacketFault};
ghost use Rattle.packet_collector.specs.Taken.{Taken, IsPlace, TakenLaws};

use picture_header::laws::in_a_syntax;

// Each part of a packet is read exactly where it is spelled.
pub(crate) fn part_laws()
    ensures { PartLaws }
{
    in_a_syntax();
    rtp_header::laws::exact_text();
    h263_payload::laws::exact_text();
    slice_layer::laws::exact_text();
}

/// Bytes are read as a packet exactly where they are one, and there is no first fault exactly where
/// they are a packet of some slice.
pub fn exact_text()
    ensures read { (format : Format) (s : PacketSlice) (bytes : List ℕ)
        → (packet_at format bytes ≡ Ok s) ↔ IsPacket format s bytes }
    ensures no_fault { (format : Format) (bytes : List ℕ)
        → (packet_fault format bytes ≡ None) ↔ ((s : PacketSlice) × IsPacket format s bytes) }
{
    part_laws();
}

// The faults of a packet's parts, each by its own table.
pub(crate) fn faults_of_the_parts()
    ensures { FaultLaws }
{
    rtp_header::laws::first_faults();
    h263_payload::laws::first_faults();
    picture_header::laws::first_faults();
    slice_layer::laws::first_faults();
}

/// A packet is refused for a fault exactly where a row of the table of faults has it there: the
/// faults of its parts, each after the parts before it.
pub fn first_faults()
    ensures { (format : Format) (bytes : List ℕ) (fault : Fault)
        → (packet_at format bytes ≡ Err fault) ↔ IsPacketFault format bytes fault.kind fault.at }
{
    part_laws();
    faults_of_the_parts();
}

/// A whole packet spells one slice, its header, its first macroblock and its macroblocks; and there
/// is no first fault exactly where bytes are a packet of some slice.
pub fn one_reading()
    ensures no_fault { (format : Format) (bytes : List ℕ)
        → (packet_fault format bytes ≡ None) ↔ ((s : PacketSlice) × IsPacket format s bytes) }
    ensures one { (format : Format) (s other : PacketSlice) (bytes : List ℕ)
        → IsPacket format s bytes → IsPacket format other bytes → s ≡ other }
{
    part_laws();
}

/// What is read is of the expected format, and has a macroblock and none past the picture.
pub fn read_inside()
    ensures format { (format : Format) (s : PacketSlice) (bytes : List ℕ) → packet_at format bytes ≡ Ok s
        → s.header.format ≡ format }
    ensures inside { (format : Format) (s : PacketSlice) (bytes : List ℕ) → packet_at format bytes ≡ Ok s
        → (0 < length s.mbs) × (s.first + length s.mbs ≤ mbs_of format) }
{
    part_laws();
}

/// A slice stands at one place to those that were taken.
pub fn one_place()
    ensures { (taken : List Taken) (n : ℕ) (piece : Piece) (p q : Place)
        → IsPlace taken n piece p → IsPlace taken n piece q → p ≡ q }
{}

/// What was taken of the pictures before the row is forgotten: a collector stands for the others
/// alone as well.
pub fn forgets()
    ensures { (c : Collector) (first : ℕ) (taken : List Taken)
        → Collects c first taken → Collects c first (from_number first taken) }
{}

/// Of which pictures and macroblocks something is in a list of slices that were taken, and in one
/// with a slice more.
pub fn what_is_taken()
    ensures { TakenLaws }
{}
