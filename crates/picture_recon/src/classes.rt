//! The inverse transform of a block by where its levels stand: the fewer rows, the less work, and
//! one row or one column needs a single pass.
ghost use Rattle.std.specs.Prelude.{◌≡◌, ℕ, true, ◌<◌, All, bit_and, length};
ghost use Rattle.h263_types.specs.Blocks.{IsValue};
ghost use Rattle.idct8.specs.Ranges.{Within};
ghost use Rattle.idct8.specs.Transform.{entry, inverse_at};
ghost use Rattle.picture_recon.specs.Marks.{HasMarkedValues};

use idct8::{inverse_by_rows, inverse_of_column, inverse_of_row, narrow_inverse};

// The places of the zigzag order that aren't in the block's first row, in its first column, in its
// first two rows, and in its first four.
const PAST_ROW: u64 = 0xffff_ffff_e7ff_3f9c;

const PAST_COLUMN: u64 = 0xffff_fff7_ffcf_f9f2;

const PAST_TWO_ROWS: u64 = 0xffff_fbff_c3fe_1f08;

const PAST_FOUR_ROWS: u64 = 0xffdf_e0ff_00f8_0400;

// The inverse transform of the values of the marked levels, in their place.
#[inline(always)]
pub(crate) fn inverse_by_marks(marks: u64, values: &mut [i16; 64])
    requires values { All IsValue values.old }
    requires marked { HasMarkedValues marks values.old }
    ensures numbers { (y x : ℕ)
        → y < 8 → x < 8 → entry values.new y x ≡ inverse_at values.old y x }
    ensures range { (y x : ℕ) → y < 8 → x < 8 → Within 32000 (entry values.new y x) }
{
    if are_clear(marks, PAST_ROW) {
        inverse_of_row(values);
    } else if are_clear(marks, PAST_COLUMN) {
        inverse_of_column(values);
    } else if are_clear(marks, PAST_TWO_ROWS) {
        inverse_by_rows(values, 2);
    } else if are_clear(marks, PAST_FOUR_ROWS) {
        inverse_by_rows(values, 4);
    } else {
        narrow_inverse(values);
    }
}

// Whether none of these places has a mark.
#[inline(always)]
fn are_clear(marks: u64, places: u64) -> bool
    ensures { result ≡ true → bit_and marks places ≡ 0 }
{
    marks & places == 0
}
