//! Laws about the texts of macroblocks.
ghost use Rattle.std.specs.Prelude.{◌≡◌, ℕ, ◌++◌, List, Bool};
ghost use Rattle.h263_types.specs.declared.Kind.{Kind};
ghost use Rattle.h263_types.specs.declared.vector.Vector.{Vector};
ghost use Rattle.h263_types.specs.declared.vector.Reach.{Reach};
ghost use Rattle.h263_types.specs.declared.blocks.Mb.{Mb};
ghost use Rattle.macroblock_layer.specs.Text.{IsMbText};
ghost use Rattle.macroblock_layer.specs.Faults.{MbFaults};
ghost use Rattle.macroblock_layer.specs.Laws.{AreMbsSpelt, AreMbsShort, MbLaws};

/// Of two texts of which one begins the other both are the same, and spell the same macroblock.
pub fn one_reading()
    ensures { (kind : Kind) (quant : ℕ) (reach : Reach) (predictor : Vector)
        (a b : Mb) (x y more : List Bool) → IsMbText kind quant reach predictor a x
        → IsMbText kind quant reach predictor b y → x ++ more ≡ y → (x ≡ y) × (a ≡ b) }
{
    code_tables::laws::in_a_syntax();
    block_layer::laws::in_a_syntax();
}

/// What is written of a macroblock is a text of it, where its vector, if it has one, is in reach.
pub fn written_is_text()
    ensures { AreMbsSpelt }
{
    code_tables::laws::in_a_syntax();
    block_layer::laws::in_a_syntax();
}

/// The first faults of a macroblock, element by element. Four vectors stand at MCBPC, a vector out
/// of reach at the first bit of its first difference.
pub fn first_faults()
    ensures { MbFaults }
{
    code_tables::laws::in_a_syntax();
    block_layer::laws::in_a_syntax();
}

/// No text that is written of a macroblock has more than 8,492 bits.
pub fn longest_text()
    ensures { AreMbsShort }
{
    block_layer::laws::in_a_syntax();
}

/// What a syntax that has macroblocks in it needs to know of them.
pub fn in_a_syntax()
    ensures { MbLaws }
{
    code_tables::laws::in_a_syntax();
    block_layer::laws::in_a_syntax();
}
