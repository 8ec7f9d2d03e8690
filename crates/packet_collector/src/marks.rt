//! Which macroblocks of a picture have come: one mark for each.
ghost use Rattle.std.specs.Prelude.{◌≡◌, ◌⊎◌, ℕ, ◌+◌, ◌<◌, ◌≤◌, true, false, not, length, replicate, slice_index_or};
ghost use Rattle.std.specs.List.{list_all};

// Sets or clears some marks in a row.
pub(crate) fn put(marks: &mut [bool], from: usize, count: usize, value: bool)
    requires { from + count ≤ length marks.old }
    ensures inside { (i : ℕ)
        → from ≤ i → i < from + count → slice_index_or marks.new i false ≡ value }
    ensures others { (i : ℕ) → (i < from) ⊎ (from + count ≤ i)
        → slice_index_or marks.new i false ≡ slice_index_or marks.old i false }
    ensures size { length marks.new ≡ length marks.old }
{
    put_all(&mut marks[from..from + count], value);
}

fn put_all(marks: &mut [bool], value: bool)
    ensures { marks.new ≡ replicate (length marks.old) value }
{
    marks.fill(value);
}

pub(crate) fn all(marks: &[bool]) -> bool
    ensures { result ≡ list_all (λ mark. mark) marks.now }
{
    marks.iter().all(|mark| *mark)
}

pub(crate) fn none(marks: &[bool]) -> bool
    ensures { result ≡ list_all not marks.now }
{
    marks.iter().all(|mark| !*mark)
}
