//! Laws about the texts of blocks.
ghost use Rattle.std.specs.Prelude.{◌≡◌, ℤ, ◌++◌, List, Bool};
ghost use Rattle.block_layer.specs.Text.{IsIntraText, IsInterText};
ghost use Rattle.block_layer.specs.Faults.{BlockFaults};
ghost use Rattle.block_layer.specs.Laws.{AreBlocksSpelt, AreBlocksShort, BlockLaws};

/// Of two texts of which one begins the other both are the same, and spell the same levels.
pub fn one_reading()
    ensures intra { (coded : Bool) (a b : List ℤ) (x y more : List Bool)
        → IsIntraText coded a x → IsIntraText coded b y → x ++ more ≡ y → (x ≡ y) × (a ≡ b) }
    ensures inter { (a b : List ℤ) (x y more : List Bool)
        → IsInterText a x → IsInterText b y → x ++ more ≡ y → (x ≡ y) × (a ≡ b) }
{
    code_tables::laws::in_a_syntax();
}

/// What is written of a block is a text of it.
pub fn written_is_text()
    ensures { AreBlocksSpelt }
{
    code_tables::laws::in_a_syntax();
}

/// The first faults of a block, element by element: INTRADC, and each event after those before
/// it.
pub fn first_faults()
    ensures { BlockFaults }
{
    code_tables::laws::in_a_syntax();
}

/// How long a block's text is at most.
pub fn longest_text()
    ensures { AreBlocksShort }
{}

/// What a syntax that has blocks in it needs to know of them.
pub fn in_a_syntax()
    ensures { BlockLaws }
{
    code_tables::laws::in_a_syntax();
}
