//! Laws about the text of a header.
ghost use Rattle.std.specs.Prelude.{◌≡◌, ℕ, ◌+◌, ◌++◌, length, List, Bool, Ok};
ghost use Rattle.h263_bits.specs.Syntax.{reading};
ghost use Rattle.h263_types.specs.declared.format.Format.{Format};
ghost use Rattle.picture_header.specs.declared.header.Header.{Header};
ghost use Rattle.picture_header.specs.Text.{header, IsHeaderText};
ghost use Rattle.picture_header.specs.Ranges.{IsHeader};
ghost use Rattle.picture_header.specs.Faults.{HeaderFaults};
ghost use Rattle.picture_header.specs.Laws.{HeaderLaws, IsShort};
ghost use Rattle.picture_header.specs.Written.{written_header};

/// What a syntax that has a header in it needs to know of it.
pub fn in_a_syntax()
    ensures { HeaderLaws }
{
    back_messages::laws::in_a_syntax();
}

/// How much room a header takes at most: 251 bits of its own, 262 of what begins a picture, 46
/// bytes in front of the data of a later slice, and even in the smallest packet more than 1,150
/// bytes are left after these.
pub fn longest_text()
    ensures { (h : Header) → IsHeader h → IsShort h }
{}

/// Of two texts of which one begins the other both are the same, and spell the same header.
pub fn one_reading()
    ensures { (format : Format) (a b : Header) (x y more : List Bool)
        → IsHeaderText format a x → IsHeaderText format b y → x ++ more ≡ y → (x ≡ y) × (a ≡ b) }
{
    back_messages::laws::in_a_syntax();
}

/// What is written of a header is read again, whatever follows, and reading stops after it.
pub fn read_again()
    ensures { (h : Header) (at : ℕ) (rest : List Bool) → IsHeader h
        → reading (header h.format) (record { at = at; bits = written_header h ++ rest })
        ≡ Ok (h, record { at = at + length (written_header h); bits = rest }) }
{
    back_messages::laws::in_a_syntax();
}

/// The first faults of a header, field by field: which values of a field have which fault, after
/// fields that have none, and that it stands at the field's first bit.
pub fn first_faults()
    ensures { HeaderFaults }
{
    back_messages::laws::in_a_syntax();
}
