//! What the laws of a call ask of encoding. Each is the contract of a function that does nothing
//! else.
ghost use Rattle.std.specs.Prelude.{◌≡◌, ◌≤◌, ℕ, All, Bool, List, Option, length};
ghost use Rattle.h263_bits.specs.Bits.{bits_of};
ghost use Rattle.h263_types.specs.declared.blocks.Mb.{Mb};
ghost use Rattle.h263_types.specs.declared.clock.Clock.{Clock};
ghost use Rattle.h263_types.specs.declared.format.Format.{Format};
ghost use Rattle.h263_types.specs.declared.params.Params.{Params};
ghost use Rattle.h263_types.specs.Blocks.{IsQuant};
ghost use Rattle.h263_planes.specs.Picture.{Picture};
ghost use Rattle.back_messages.specs.declared.message.Message.{Message};
ghost use Rattle.back_messages.specs.Text.{message_text};
ghost use Rattle.picture_header.specs.declared.header.Header as picture;
ghost use Rattle.picture_header.specs.Ranges.{AreMessages, IsHeader};
ghost use Rattle.mode_choice.specs.Choice.{choices_of};
ghost use Rattle.packet_cutter.specs.Packets.{ArePacketsOf};
ghost use Rattle.packet_cutter.specs.Slices.{cut_of};
ghost use Rattle.call_model.specs.Coding.{Header, Slice};
ghost use Rattle.call_model.specs.Lawful.{FitsHeader, IsEncoding};
ghost use Rattle.call_decoding.specs.Rules.{rules_of};
ghost use Rattle.call_decoding.specs.Samples.{pictures};
ghost use Rattle.call_decoding.specs.Styles.{Style, header_from};
ghost use Rattle.call_encoding.specs.Encoding.{encoding};
ghost use Rattle.call_encoding.specs.Frames.{Frame, carried, in_format, kind_of, style_with};
ghost use Rattle.call_encoding.specs.Messages.{written_message};

use back_messages::laws::{exact_text, in_a_syntax};
use mode_choice::laws::one_for_each_place;
use packet_cutter::laws::{by_functions, cut_divides, cut_parts, packet_of_each};

/// Encoding is what the laws of a call ask: what is chosen is divided into slices, sequence numbers
/// count modulo 2^16, and a message that was written is read again.
pub fn is_encoding()
    ensures { (p : Params) → IsEncoding (pictures p.format) (encoding p) (rules_of p) }
{
    one_for_each_place();
    cut_divides();
    packet_of_each();
    exact_text();
    in_a_syntax();
}

/// The bytes that are written of a message are its text.
pub fn written_text()
    ensures { (m : Message) → bits_of (written_message m) ≡ message_text m }
{
    in_a_syntax();
}

/// The frames of a call are coded as they are: such messages are all carried (`messages`), and a
/// picture of the format is that picture (`picture`).
pub fn carried_as_they_are()
    ensures messages { (clock : Clock) (messages : List Message) → length messages ≤ 4
        → AreMessages clock messages → carried clock messages ≡ messages }
    ensures picture { (f : Format) (picture : Picture) → picture.format ≡ f
        → in_format f picture ≡ picture }
{}

/// A header of the call with the style of a picture may be written.
pub fn header_in_range()
    ensures { (p : Params) (messages : List Message) (predicted : Bool) (depth quant : ℕ)
        (h : Header Style) → IsQuant quant → h.style ≡ style_with p messages predicted depth quant
        → FitsHeader (rules_of p) predicted h → IsHeader (header_from h) }
{}

/// The macroblocks that are chosen for a frame, with a header of the call, their slices and their
/// packets are those of the encoding, since choice and cut depend on no temporal reference
/// (`choice`, `cut`, `packets`). There is a packet for each slice (`count`), and none has more
/// bytes than the limit (`small`).
pub fn written_packets()
    ensures choice { (p : Params) (frame : Frame) (reference : Option Picture) (h : Header Style)
        → frame.picture.format ≡ p.format → choices_of frame.picture reference (header_from h) p
        ≡ (encoding p).choice frame reference h.style }
    ensures cut { (p : Params) (predicted : Bool) (h : Header Style) (mbs : List Mb)
        → FitsHeader (rules_of p) predicted h → h.style.kind ≡ kind_of predicted
        → cut_of (header_from h) p.limit mbs ≡ (encoding p).cut h.style mbs }
    ensures packets { (p : Params) (predicted : Bool) (number sequence : ℕ) (h : Header Style)
        (mbs : List Mb) (packets : List (List ℕ)) → FitsHeader (rules_of p) predicted h
        → h.style.kind ≡ kind_of predicted
        → ArePacketsOf number sequence (header_from h) p.limit mbs packets
        → packets ≡ (encoding p).packets number sequence h ((encoding p).cut h.style mbs) }
    ensures count { (p : Params) (number sequence : ℕ) (h : Header Style) (slices : List (Slice Mb))
        → length ((encoding p).packets number sequence h slices) ≡ length slices }
    ensures small { (number sequence : ℕ) (h : picture.Header) (limit : ℕ) (mbs : List Mb)
        (packets : List (List ℕ)) → ArePacketsOf number sequence h limit mbs packets
        → All (λ packet. length packet ≤ limit) packets }
{
    cut_divides();
    by_functions();
    packet_of_each();
    cut_parts();
}
