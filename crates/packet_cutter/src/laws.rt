//! Laws about the cut of a picture and its packets, over the definitions alone.
ghost use Rattle.std.specs.Prelude.{◌≡◌, ℕ, ◌+◌, ◌%◌, ◌^◌, ◌<◌, ◌≤◌, ◌==◌, [], Bool, List};
ghost use Rattle.std.specs.Prelude.{length, slice_get, Some, None, All};
ghost use Rattle.call_model.specs.Coding.{Slice};
ghost use Rattle.call_model.specs.Lawful.{Divides};
ghost use Rattle.h263_types.specs.declared.blocks.Mb.{Mb};
ghost use Rattle.h263_types.specs.declared.blocks.Mb.TheVariants.{Skip};
ghost use Rattle.h263_types.specs.Blocks.{HasWholeBlocks};
ghost use Rattle.h263_types.specs.Sizes.{mbs_of};
ghost use Rattle.h263_bits.specs.Bits.{bits_of};
ghost use Rattle.picture_header.specs.declared.header.Header.{Header};
ghost use Rattle.picture_header.specs.Ranges.{IsHeader};
ghost use Rattle.slice_layer.specs.Around.{around};
ghost use Rattle.slice_layer.specs.Written.{mbs_text, AreWritable};
ghost use Rattle.packet_cutter.specs.Cut.{packet_bytes, IsCut, runs_joined, Fit};
ghost use Rattle.packet_cutter.specs.Parts.{HasShortParts};
ghost use Rattle.packet_cutter.specs.Slices.{cut_of, runs_as_slices};
ghost use Rattle.packet_cutter.specs.Packets.{packet_text, packet_of, packets_of};
ghost use Rattle.packet_cutter.specs.Packets.{ArePackets, ArePacketsOf};
ghost use Rattle.packet_cutter.specs.Forms.{HaveOneForm};
ghost use Rattle.packet_cutter.specs.Again.{IsReadAs};

use call_model::laws::searches;
use picture_header::laws::{in_a_syntax, longest_text};

/// Slices cover the macroblocks one after the other, none is empty, and each keeps its packet
/// within the limit: so the packets are as many as the slices, and each has at most `limit` bytes.
pub fn cut_parts()
    ensures covers { (h : Header) (limit first : ℕ) (mbs : List Mb) (runs : List (List Mb))
        → IsCut h limit first mbs runs → runs_joined runs ≡ mbs }
    ensures each { (h : Header) (limit first : ℕ) (mbs : List Mb) (runs : List (List Mb))
        → IsCut h limit first mbs runs → Fit h limit first runs }
    ensures count { (number sequence : ℕ)
        (h : Header) (first : ℕ) (runs : List (List Mb)) (packets : List (List ℕ))
        → ArePackets number sequence h first runs packets → length packets ≡ length runs }
    ensures packets { (number sequence : ℕ) (h : Header) (limit first : ℕ) (mbs : List Mb)
        (runs : List (List Mb)) (packets : List (List ℕ)) → IsCut h limit first mbs runs
        → ArePackets number sequence h first runs packets → All (λ p. length p ≤ limit) packets }
{}

/// There is one cut at most.
pub fn one_cut()
    ensures { (h : Header) (limit first : ℕ) (mbs : List Mb) (runs others : List (List Mb))
        → IsCut h limit first mbs runs → IsCut h limit first mbs others → runs ≡ others }
{}

/// Where a packet may have 1,200 bytes there is a cut.
pub fn cut_exists()
    ensures { (h : Header) (limit first : ℕ) (mbs : List Mb) → IsHeader h
        → 1200 ≤ limit → All HasWholeBlocks mbs → (runs : List (List Mb)) × IsCut h limit first mbs runs }
{
    longest_text();
    slice_layer::laws::longest_text();
}

/// The cut is the same for headers of one style: it depends on no temporal reference.
pub fn by_style()
    ensures { (h g : Header) (limit first : ℕ) (mbs : List Mb) (runs : List (List Mb))
        → HaveOneForm h g → IsCut h limit first mbs runs → IsCut g limit first mbs runs }
{
    slice_layer::laws::longest_text();
}

/// The cut is `cut_of`, and its packets are `packets_of`.
pub fn by_functions()
    ensures cut { (h : Header) (limit : ℕ) (mbs : List Mb) (runs : List (List Mb))
        → IsCut h limit 0 mbs runs → runs_as_slices 0 runs ≡ cut_of h limit mbs }
    ensures packets { (number sequence : ℕ) (h : Header) (limit : ℕ) (mbs : List Mb)
        (packets : List (List ℕ)) → ArePacketsOf number sequence h limit mbs packets
        → packets ≡ packets_of number sequence h (cut_of h limit mbs) }
    ensures whole { (number sequence : ℕ) (h : Header) (limit : ℕ) (mbs : List Mb)
        → IsHeader h → 1200 ≤ limit → All HasWholeBlocks mbs
        → ArePacketsOf number sequence h limit mbs
        (packets_of number sequence h (cut_of h limit mbs)) }
{
    longest_text();
    slice_layer::laws::longest_text();
    searches();
}

/// The slices of a cut divide the picture: each macroblock is in one of them, as it is in the
/// picture (`divides`). They are the same for headers of one style (`style`), and each keeps its
/// packet within a limit that has room (`fits`).
pub fn cut_divides()
    ensures divides { (h : Header) (limit : ℕ) (mbs : List Mb)
        → Divides Skip (length mbs) (cut_of h limit mbs) mbs }
    ensures style { (h g : Header) (limit : ℕ) (mbs : List Mb) → HaveOneForm h g
        → cut_of h limit mbs ≡ cut_of g limit mbs }
    ensures fits { (h : Header) (limit : ℕ) (mbs : List Mb) (j : ℕ) (slice : Slice Mb)
        → IsHeader h → 1200 ≤ limit → All HasWholeBlocks mbs
        → slice_get (cut_of h limit mbs) j ≡ Some slice
        → packet_bytes h slice.first slice.mbs ≤ limit }
{
    longest_text();
    slice_layer::laws::longest_text();
    searches();
}

/// Slice j has packet j, the last one with the marker, and there are no other packets. Their
/// sequence numbers count modulo 2^16.
pub fn packet_of_each()
    ensures count { (number sequence : ℕ) (h : Header) (slices : List (Slice Mb))
        → length (packets_of number sequence h slices) ≡ length slices }
    ensures each { (number sequence : ℕ) (h : Header) (slices : List (Slice Mb)) (j : ℕ)
        (slice : Slice Mb) → slice_get slices j ≡ Some slice
        → slice_get (packets_of number sequence h slices) j ≡ Some (packet_of number (sequence + j)
        (j + 1 == length slices) h slice.first slice.mbs) }
    ensures none { (number sequence : ℕ) (h : Header) (slices : List (Slice Mb)) (j : ℕ)
        → slice_get slices j ≡ None
        → slice_get (packets_of number sequence h slices) j ≡ None }
    ensures wraps { (number sequence : ℕ) (h : Header) (slices : List (Slice Mb))
        → packets_of number (sequence % 2 ^ 16) h slices ≡ packets_of number sequence h slices }
{}

/// A packet is its text, in whole bytes.
pub fn packet_is_text()
    ensures bits { (number sequence : ℕ) (marker : Bool) (h : Header) (first : ℕ) (run : List Mb)
        → bits_of (packet_of number sequence marker h first run)
        ≡ packet_text number sequence marker h first run }
    ensures bytes { (number sequence : ℕ) (marker : Bool) (h : Header) (first : ℕ) (run : List Mb)
        → length (packet_of number sequence marker h first run) ≡ packet_bytes h first run }
{
    h263_payload::laws::read_again();
}

/// A packet's parts other than its macroblocks, which are the headers before them and the zero bits
/// after them, have at most 51 bytes.
pub fn other_parts()
    ensures { (number sequence : ℕ) (marker : Bool) (h : Header) (first : ℕ) (run : List Mb)
        → IsHeader h → HasShortParts (mbs_text (around h first) h.quant [] run)
        (bits_of (packet_of number sequence marker h first run)) }
{
    longest_text();
    slice_layer::laws::longest_text();
    h263_payload::laws::read_again();
}

/// What is written of a packet is read as its header and its slice, where the slice's macroblocks
/// may be written one after the other.
pub fn written_again()
    ensures { (number sequence : ℕ) (marker : Bool)
        (h : Header) (first : ℕ) (run : List Mb) (bytes : List ℕ) → IsHeader h → 0 < length run
        → first + length run ≤ mbs_of h.format → AreWritable (around h first) h.quant [] run
        → bits_of bytes ≡ packet_text number sequence marker h first run
        → length bytes ≤ 65535 → IsReadAs number sequence marker h first run bytes }
{
    in_a_syntax();
    rtp_header::laws::read_again();
    h263_payload::laws::read_again();
    slice_layer::laws::written_is_text();
}
