//! Laws over the definitions alone.
ghost use Rattle.std.specs.Prelude.{◌≡◌, ◌↔◌, ℕ, ℤ, ◌+◌, ◌++◌, List, [], ◌∷◌, Bool, length, map, Err};
ghost use Rattle.h263_types.specs.declared.Kind.{Kind};
ghost use Rattle.h263_bits.specs.declared.fault.Fault.{Fault};
ghost use Rattle.h263_bits.specs.Reading.{Bits};
ghost use Rattle.h263_bits.specs.Syntax.{Spells, reading};
ghost use Rattle.code_tables.specs.Mcbpc.{mcbpc, dquant};
ghost use Rattle.code_tables.specs.Tables.{cbpy, mvd, tcoef_words, words_of_length, event, Coefficient};
ghost use Rattle.code_tables.specs.EventWords.{IsEventFault};
ghost use Rattle.code_tables.specs.Faults.{WordFaults};
ghost use Rattle.code_tables.specs.Laws.{AreTablesSpelt, TableLaws};
ghost use Rattle.code_tables.specs.declared.macroblock.Mcbpc.{Mcbpc};

/// Of two texts of which one begins the other both are the same, and spell the same value: in each
/// table, with the signs and the escape after its words.
pub fn one_reading()
    ensures mcbpc { (kind : Kind) (a b : Mcbpc) (x y more : List Bool)
        → Spells (mcbpc kind) a x → Spells (mcbpc kind) b y → x ++ more ≡ y → (x ≡ y) × (a ≡ b) }
    ensures cbpy { (intra : Bool) (a b : ℕ) (x y more : List Bool)
        → Spells (cbpy intra) a x → Spells (cbpy intra) b y → x ++ more ≡ y → (x ≡ y) × (a ≡ b) }
    ensures dquant { (a b : ℤ) (x y more : List Bool)
        → Spells dquant a x → Spells dquant b y → x ++ more ≡ y → (x ≡ y) × (a ≡ b) }
    ensures mvd { (a b : ℤ) (x y more : List Bool)
        → Spells mvd a x → Spells mvd b y → x ++ more ≡ y → (x ≡ y) × (a ≡ b) }
    ensures event { (a b : Coefficient) (x y more : List Bool)
        → Spells event a x → Spells event b y → x ++ more ≡ y → (x ≡ y) × (a ≡ b) }
{}

/// What is written for a value is a text of it.
pub fn written_is_text()
    ensures { AreTablesSpelt }
{}

/// The first faults of words: each word is cut or there is none, MVD by its words with their signs;
/// and an escape whose LEVEL is 0 or -128. Each stands at the first bit of its word.
pub fn first_faults()
    ensures { WordFaults }
{}

/// The first fault of an event, by the words with their signs and the escapes with all their
/// fields: the bits end inside one, an escape has LEVEL 0 or -128, or there is none; each at the
/// first bit.
pub fn event_faults()
    ensures { (b : Bits) (d : Fault)
        → (reading event b ≡ Err d) ↔ ((d.at ≡ b.at) × IsEventFault b.bits d.kind) }
{}

/// What a syntax that has words of these tables in it needs to know of them.
pub fn in_a_syntax()
    ensures { TableLaws }
{}

/// There are 102 words of events, and this many of each length from 2 to 12 bits.
pub fn event_words()
    ensures lengths { map words_of_length (2 ∷ 3 ∷ 4 ∷ 5 ∷ 6 ∷ 7 ∷ 8 ∷ 9 ∷ 10 ∷ 11 ∷ 12 ∷ [])
        ≡ 1 ∷ 1 ∷ 3 ∷ 3 ∷ 10 ∷ 8 ∷ 13 ∷ 21 ∷ 14 ∷ 12 ∷ 16 ∷ [] }
    ensures all { length tcoef_words ≡ 102 + 1 }
{}
