//! Laws about the texts of slices.
ghost use Rattle.std.specs.Prelude.{◌≡◌, ◌↔◌, ℕ, List, Bool, None};
ghost use Rattle.h263_bits.specs.Reading.{Bits};
ghost use Rattle.h263_types.specs.declared.blocks.Mb.{Mb};
ghost use Rattle.picture_header.specs.declared.header.Header.{Header};
ghost use Rattle.slice_layer.specs.Text.{IsSliceText, slice_fault};
ghost use Rattle.slice_layer.specs.Faults.{SliceFaults};
ghost use Rattle.slice_layer.specs.Laws.{AreRead, AreSlicesSpelt, AreSlicesShort, IsOneMore, AreReached, SliceLaws};

/// Bits are read as a slice exactly where they are its text, and there is no first fault exactly
/// where they are the text of one.
pub fn exact_text()
    ensures read { AreRead }
    ensures no_fault { (h : Header) (begins : Bool) (b : Bits) → (slice_fault h begins b ≡ None)
        ↔ ((first : ℕ) × (mbs : List Mb) × IsSliceText h begins first mbs b.bits) }
{
    macroblock_layer::laws::in_a_syntax();
}

/// Bits are the text of one slice at most, and there is no first fault exactly where they are the
/// text of one.
pub fn one_reading()
    ensures no_fault { (h : Header) (begins : Bool) (b : Bits) → (slice_fault h begins b ≡ None)
        ↔ ((first : ℕ) × (mbs : List Mb) × IsSliceText h begins first mbs b.bits) }
    ensures one { (h : Header) (begins : Bool) (first other : ℕ)
        (mbs others : List Mb) (bits : List Bool) → IsSliceText h begins first mbs bits
        → IsSliceText h begins other others bits → (first ≡ other) × (mbs ≡ others) }
{
    macroblock_layer::laws::in_a_syntax();
}

/// The first faults of a slice: field by field in its header, Empty and Trailing before a
/// macroblock, and those of the macroblocks one after another.
pub fn first_faults()
    ensures { SliceFaults }
{
    macroblock_layer::laws::in_a_syntax();
}

/// What is written of a slice is a text of it.
pub fn written_is_text()
    ensures { AreSlicesSpelt }
{
    macroblock_layer::laws::in_a_syntax();
}

/// What stands before a slice's macroblocks has 262 bits at most, and a slice of one macroblock has
/// 1,095 bytes at most.
pub fn longest_text()
    ensures { AreSlicesShort }
{
    picture_header::laws::in_a_syntax();
    macroblock_layer::laws::in_a_syntax();
}

/// Macroblocks may be written one after the other where each one may after those before it.
pub fn one_more()
    ensures { IsOneMore }
{}

/// The reach of a macroblock, in its closed form, has the vectors whose block lies in the picture.
pub fn reaches()
    ensures { AreReached }
{}

/// What a packet that has a slice in it needs to know of slices.
pub fn in_a_syntax()
    ensures { SliceLaws }
{
    picture_header::laws::in_a_syntax();
    macroblock_layer::laws::in_a_syntax();
}
