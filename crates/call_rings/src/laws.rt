//! What is known of rings by their definitions alone. Each law is the contract of a function that
//! does nothing else.
ghost use Rattle.std.specs.Prelude.{ℕ, ◌+◌, ◌*◌, ◌<◌, ◌≤◌, List, [], ◌∷◌, ◌++◌};
ghost use Rattle.std.specs.Prelude.{length, take, slice_index_or, All};
ghost use Rattle.h263_types.specs.declared.blocks.Mb.{Mb};
ghost use Rattle.h263_types.specs.Blocks.{HasWholeBlocks};
ghost use Rattle.picture_header.specs.declared.header.Header.{Header};
ghost use Rattle.picture_header.specs.Ranges.{IsHeader};
ghost use Rattle.packet_cutter.specs.Packets.{ArePacketsOf};
ghost use Rattle.call_rings.specs.declared.sent_packets.SentPackets.{SentPackets};
ghost use Rattle.call_rings.specs.Parts.{total_size};
ghost use Rattle.call_rings.specs.Keeping.{PacketsOfPictures, ring_room, most_of, HoldsPackets, HasRoomForPacket};

use packet_cutter::laws::packet_is_text;

/// There is room for a packet where the newest picture has fewer than the most, and its bytes with
/// the packet's are no more than a picture's room.
pub fn has_room()
    ensures { (ring : SentPackets) (before : PacketsOfPictures) (packets : List (List ℕ))
        (size : ℕ)
        → HoldsPackets ring (before ++ packets ∷ []) → length packets < most_of ring
        → total_size packets + size ≤ ring_room ring → HasRoomForPacket ring size }
{}

/// A picture's packets have at most 1,200 bytes together for each of its macroblocks, and are no
/// more than these.
pub fn room_of_a_picture()
    ensures bytes { (number sequence : ℕ) (h : Header) (limit : ℕ) (mbs : List Mb)
        (packets : List (List ℕ))
        → IsHeader h → All HasWholeBlocks mbs → ArePacketsOf number sequence h limit mbs packets
        → total_size packets ≤ 1200 * length mbs }
    ensures count { (number sequence : ℕ) (h : Header) (limit : ℕ) (mbs : List Mb)
        (packets : List (List ℕ))
        → IsHeader h → All HasWholeBlocks mbs → ArePacketsOf number sequence h limit mbs packets
        → length packets ≤ length mbs }
{
    picture_header::laws::longest_text();
    macroblock_layer::laws::longest_text();
    slice_layer::laws::longest_text();
    packet_is_text();
}

/// Packets one after the other have room where all of them together have.
pub fn one_after_the_other()
    ensures { (packets : List (List ℕ)) (i : ℕ) → i < length packets
        → total_size (take i packets) + length (slice_index_or packets i []) ≤ total_size packets }
{}
