//! Laws over the definitions alone.
ghost use Rattle.std.specs.Prelude.{◌≡◌, ◌↔◌, ℕ, ◌*◌, ◌^◌, ◌<◌, List, Bool, true, length, Err};
ghost use Rattle.h263_bits.specs.declared.fault.Fault.{Fault};
ghost use Rattle.h263_bits.specs.Bits.{bits_of, number, spelled};
ghost use Rattle.h263_bits.specs.Reading.{Bits};
ghost use Rattle.h263_bits.specs.Syntax.{Allowed, field_at, is_prefix_free, word_at};
ghost use Rattle.h263_bits.specs.Elements.{IsFieldFault, IsWordFault, IsWordOf};

/// A number and its bits are one another's.
pub fn spelling()
    ensures number_of_bits { (n value : ℕ) → value < 2 ^ n → number (spelled n value) ≡ value }
    ensures bits_of_number { (bits : List Bool) → spelled (length bits) (number bits) ≡ bits }
    ensures many { (n value : ℕ) → length (spelled n value) ≡ n }
    ensures whole { (bytes : List ℕ) → length (bits_of bytes) ≡ 8 * length bytes }
{}

/// A field or a word that is not read: it is cut by the end of the bits, its number is refused, or
/// no word begins there. The fault stands at its first bit. A word is cut exactly where the bits
/// that are left are a proper prefix of one, and there is none exactly where none begins them and
/// none goes on from them.
pub fn first_faults()
    ensures field { (n : ℕ) (allowed : Allowed ℕ) (b : Bits) (d : Fault)
        → (field_at n allowed b ≡ Err d) ↔ ((d.at ≡ b.at) × IsFieldFault n allowed b.bits d.kind) }
    ensures word { (words : List (List Bool × ℕ)) (b : Bits) (d : Fault)
        → is_prefix_free words ≡ true → (word_at words b ≡ Err d)
        ↔ ((d.at ≡ b.at) × IsWordFault (λ w. IsWordOf words w) b.bits d.kind) }
{}
