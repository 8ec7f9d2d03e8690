//! What the program cites of a whole call. Each law is the contract of a function that does nothing
//! else.
ghost use Rattle.std.specs.Prelude.{◌≡◌, ℕ, ◌+◌, ◌<◌, ◌≤◌, [], Bool, List, length, slice_get};
ghost use Rattle.std.specs.Prelude.{Some, Ok};
ghost use Rattle.h263_types.specs.declared.blocks.Mb.{Mb};
ghost use Rattle.h263_types.specs.declared.clock.Clock.{Clock};
ghost use Rattle.h263_types.specs.declared.params.Params.{Params};
ghost use Rattle.h263_types.specs.Params.{IsParams};
ghost use Rattle.h263_types.specs.Sizes.{mbs_of};
ghost use Rattle.back_messages.specs.Said.{text_of_said};
ghost use Rattle.back_messages.specs.Text.{IsMessage};
ghost use Rattle.back_messages.specs.declared.message.Message.{Message as BackMessage};
ghost use Rattle.back_messages.specs.declared.writing.Said.{Said};
ghost use Rattle.picture_header.specs.declared.header.Header.{Header};
ghost use Rattle.picture_header.specs.Ranges.{IsHeader};
ghost use Rattle.slice_layer.specs.Around.{around};
ghost use Rattle.slice_layer.specs.Written.{AreWritable};
ghost use Rattle.packet_cutter.specs.Cut.{packet_bytes};
ghost use Rattle.packet_cutter.specs.Packets.{packet_of, packets_of};
ghost use Rattle.packet_cutter.specs.Slices.{cut_of};
ghost use Rattle.packet_collector.specs.Packet.{packet_at};
ghost use Rattle.call_model.specs.Coding.{Message, Slice};
ghost use Rattle.call_model.specs.IdealCall.{AllMayHappen, Event, ideal};
ghost use Rattle.call_model.specs.JoinedRun.{joined, new_receiver};
ghost use Rattle.call_model.specs.Lawful.{IsCoding, IsPace};
ghost use Rattle.call_model.specs.TwoStores.{EndsFollow};
ghost use Rattle.call_decoding.specs.Rules.{rules_of};
ghost use Rattle.call_encoding.specs.Frames.{Frame};
ghost use Rattle.call_encoding.specs.Messages.{marked_message, write_message};
ghost use Rattle.coded_call.specs.Bytes.{AreBytes};
ghost use Rattle.coded_call.specs.Coding.{coding};
ghost use Rattle.coded_call.specs.OfOnePicture.{SentAreOfOne, SentInAnyOrder};
ghost use Rattle.coded_call.specs.Sent.{AreSent};
ghost use Rattle.receiver_end.specs.Answers.{IsSaid};
ghost use Rattle.reference_selector.specs.Messages.{message_of};

use back_messages::MessageFault;
use back_messages::laws::{exact_text, in_a_syntax};
use call_decoding::laws::are_rules;
use call_decoding::{Pictured, Styled};
use call_encoding::Framed;
use call_encoding::laws::{header_in_range, is_encoding, written_packets};
use h263_bits::Fault;
use h263_planes::laws::samples_are_picture;
use h263_types::Mb;
use mode_choice::laws::{chosen_is_in_range, one_for_each_place};
use packet_cutter::laws::packet_of_each;
use receiver_end::laws::{is_decoding, order};

/// A packet is read as its header and its slice, where the slice's macroblocks may be written one
/// after the other and RTP has room for it.
pub fn packet_again()
    ensures { (number sequence : ℕ) (marker : Bool) (h : Header) (first : ℕ) (run : List Mb)
        → IsHeader h → 0 < length run → first + length run ≤ mbs_of h.format
        → AreWritable (around h first) h.quant [] run
        → packet_bytes h first run ≤ 65535
        → packet_at h.format (packet_of number sequence marker h first run)
        ≡ Ok (record { header = h; first = first; mbs = run }) }
{
    packet_cutter::laws::packet_is_text();
    packet_cutter::laws::written_again();
    packet_collector::laws::exact_text();
    rtp_header::laws::exact_text();
    h263_payload::laws::exact_text();
}

/// Slice j of a cut has packet j, and it is read as this slice with the picture's header.
pub fn read_again()
    ensures { (number sequence : ℕ) (h : Header) (limit : ℕ) (mbs : List Mb) (j : ℕ)
        (slice : Slice Mb) → IsHeader h → 1200 ≤ limit → limit ≤ 65535 → AreSent h mbs
        → slice_get (cut_of h limit mbs) j ≡ Some slice
        → (bytes : List ℕ)
        × (slice_get (packets_of number sequence h (cut_of h limit mbs)) j ≡ Some bytes)
        × (packet_at h.format bytes
        ≡ Ok (record { header = h; first = slice.first; mbs = slice.mbs })) }
{
    packet_again();
    packet_cutter::laws::cut_divides();
    packet_cutter::laws::packet_of_each();
    slice_layer::laws::reaches();
}

/// The coding is what the laws of a call ask: each layer's definitions meet its laws, and each
/// packet is read as its slice with its picture's header.
pub fn is_coding()
    ensures { (p : Params) → IsParams p → IsCoding (coding p) (rules_of p) }
{
    is_decoding();
    is_encoding();
    header_in_range();
    written_packets();
    samples_are_picture();
    chosen_is_in_range();
    one_for_each_place();
    packet_of_each();
    read_again();
}

/// Where each event is near, the two ends do what the ideal call says: each reference,
/// reconstruction, message and known number is the ideal call's, and each play shows its picture
/// with its mark.
pub fn two_stores()
    ensures { (p : Params) (pace : List ℕ → ℕ) (frames : List Frame) (past : List Event)
        → IsParams p → IsPace pace → AllMayHappen (coding p) (rules_of p) pace frames past
        → EndsFollow (coding p) (rules_of p) (ideal (coding p) (rules_of p) pace frames past)
        (joined (coding p) (rules_of p) (new_receiver (coding p) (rules_of p)) pace frames past) }
{
    is_coding();
    are_rules();
    call_model::laws::two_stores::<Framed, Styled, Mb, Pictured, Fault, MessageFault>();
}

/// In a near call the packets of a picture that was sent are of one, as `order` of `receiver_end`
/// asks, in whatever order and number they come while it is open and its reference complete.
pub fn packets_are_of_one()
    ensures { (p : Params) → IsParams p → SentAreOfOne (coding p) (rules_of p) }
{
    is_coding();
    are_rules();
    call_model::laws::nearest();
    call_model::laws::encoder_is_sound::<Framed, Styled, Mb, Pictured, Fault, MessageFault>();
    call_model::laws::two_stores::<Framed, Styled, Mb, Pictured, Fault, MessageFault>();
}

/// The packets of an open picture may come in any order, and more than once: two lists of what
/// arrives until its play, which differ in nothing else and have the same packets of it, show the
/// same pictures with the same marks.
pub fn any_order()
    ensures { (p : Params) → IsParams p → SentInAnyOrder (coding p) (rules_of p) }
{
    is_coding();
    are_rules();
    packets_are_of_one();
    order();
    call_model::laws::nearest();
    call_model::laws::encoder_is_sound::<Framed, Styled, Mb, Pictured, Fault, MessageFault>();
    call_model::laws::each_end_runs::<Framed, Styled, Mb, Pictured, Fault, MessageFault>();
    call_model::laws::receiver_stands::<Styled, Mb, Pictured, Fault>();
    call_model::laws::two_stores::<Framed, Styled, Mb, Pictured, Fault, MessageFault>();
}

/// The bytes that a receiver says of a message are those that are written of it (`written`). A
/// message of the program, as a call has it, is that message again (`marked_again`).
pub fn said_bytes()
    ensures written { (clock : Clock) (said : Said) (message : Message) → AreBytes (text_of_said said)
        → IsSaid clock said message → text_of_said said ≡ write_message message }
    ensures marked_again { (clock : Clock) (m : BackMessage)
        → IsMessage clock m → marked_message (message_of m) ≡ m }
{
    exact_text();
    in_a_syntax();
}
