//! The prediction of vectors.
ghost use Rattle.std.specs.Prelude.{◌≡◌, ◌≤◌, ◌≤ℤ◌, length, negsuc, pos};
ghost use Rattle.macroblock_layer.specs.Prediction.{median, left_of, above_of, above_right_of, median_of, predictor_of};

use h263_types::Vector;

const NO_VECTOR: Vector = Vector { x: 0, y: 0 };

/// The prediction of macroblock `mb`'s vector, in half samples: component by component the median
/// of the vectors on the left, above and above on the right (H.263, 6.1.1), in a picture of this
/// many columns of macroblocks and a slice that begins with macroblock `first`. `vectors` has the
/// vectors of the slice's earlier macroblocks at their places, and (0, 0) where a macroblock has
/// none.
pub fn predictor(vectors: &[Vector], first: u32, mb: u32, columns: u32) -> Vector
    requires columns { 1 ≤ columns }
    requires order { first ≤ mb }
    requires vectors { mb ≤ length vectors.now }
    ensures { result ≡ predictor_of vectors.now first mb columns }
{
    let left = left(vectors, first, mb, columns);
    let above = above(vectors, first, mb, columns, left);
    let above_right = above_right(vectors, first, mb, columns, left);
    median_of(left, above, above_right)
}

// Component by component the one in the middle.
fn median_of(a: Vector, b: Vector, c: Vector) -> Vector
    ensures { result ≡ median_of a b c }
{
    Vector {
        x: median(a.x, b.x, c.x),
        y: median(a.y, b.y, c.y),
    }
}

fn median(a: i8, b: i8, c: i8) -> i8
    ensures median { result ≡ median a b c }
    ensures low { negsuc 127 ≤ℤ result }
    ensures high { result ≤ℤ pos 127 }
{
    a.min(b).max(a.max(b).min(c))
}

fn left(vectors: &[Vector], first: u32, mb: u32, columns: u32) -> Vector
    requires columns { 1 ≤ columns }
    requires order { first ≤ mb }
    requires vectors { mb ≤ length vectors.now }
    ensures { result ≡ left_of vectors.now first mb columns }
{
    if mb % columns == 0 || mb == first {
        return NO_VECTOR;
    }
    vectors[mb as usize - 1]
}

fn above(vectors: &[Vector], first: u32, mb: u32, columns: u32, left: Vector) -> Vector
    requires columns { 1 ≤ columns }
    requires vectors { mb ≤ length vectors.now }
    requires left { left ≡ left_of vectors.now first mb columns }
    ensures { result ≡ above_of vectors.now first mb columns }
{
    if mb < columns || mb - columns < first {
        return left;
    }
    vectors[(mb - columns) as usize]
}

fn above_right(vectors: &[Vector], first: u32, mb: u32, columns: u32, left: Vector) -> Vector
    requires columns { 1 ≤ columns }
    requires vectors { mb ≤ length vectors.now }
    requires left { left ≡ left_of vectors.now first mb columns }
    ensures { result ≡ above_right_of vectors.now first mb columns }
{
    if mb % columns + 1 == columns {
        return NO_VECTOR;
    }
    if mb < columns || mb - (columns - 1) < first {
        return left;
    }
    vectors[(mb - (columns - 1)) as usize]
}
