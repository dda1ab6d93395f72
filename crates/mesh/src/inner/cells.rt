// Rows 5 and 6, over records of 3 or 4 corners by the same routines.
ghost use Rattle.std.specs.Prelude.{◌≡◌, ℕ, ◌+◌, ◌*◌, ◌/◌, ◌≤◌, ◌<◌, eqb, length, get_or};
ghost use Rattle.mesh.specs.Cells.{not_below, corners_row, classes_row, some, names_twice, twice_row};

use crate::inner::first::refuse_first;
use refusal::Refusal;

// Rows 1 and 2 have let through a list within the limit.
#[tactic(auto, unfolding(crate::specs::Cells::corners_row, crate::specs::Cells::not_below))]
pub fn corners_row(cells: &[u32], corners: usize) -> Result<(), Refusal>
    requires { length cells.now < 4294967296 }
    ensures { result ≡ corners_row corners cells.now }
{
    refuse_first(
        cells.len(),
        |k| corners <= cells[k] as usize,
        Refusal::NoSuchCorner,
    )
}

// Rows 1 and 2 have let through a list within the limit.
#[tactic(auto, unfolding(crate::specs::Cells::classes_row, crate::specs::Cells::not_below))]
pub fn classes_row(classes: &[u32]) -> Result<(), Refusal>
    requires { length classes.now < 4294967296 }
    ensures { result ≡ classes_row classes.now }
{
    refuse_first(classes.len(), |k| 3 <= classes[k], Refusal::NoSuchClass)
}

// Whether one of the i corners from `at` on is the corner at `at + i`.
fn named_before(cells: &[u32], at: usize, i: usize) -> bool
    requires { at + i < length cells.now }
    ensures { result ≡ some i (λ (j : ℕ). eqb (get_or cells.now (at + j) 0) (get_or cells.now (at + i) 0)) }
{
    (0..i).any(|j| cells[at + j] == cells[at + i])
}

// Whether record r of the size names a corner twice.
fn names_twice(cells: &[u32], size: usize, r: usize) -> bool
    requires { r * size + size ≤ length cells.now }
    ensures { result ≡ names_twice size cells.now r }
{
    (0..size).any(|i| named_before(cells, r * size, i))
}

// The size is 3 or 4, by every caller's own record; row 2 has let through a list within the limit.
#[tactic(auto, using(crate::proofs::Records::record_in), unfolding(crate::specs::Cells::twice_row))]
pub fn twice_row(cells: &[u32], size: usize) -> Result<(), Refusal>
    requires { (0 < size) × (length cells.now < 4294967296) }
    ensures { result ≡ twice_row size cells.now }
{
    refuse_first(
        cells.len() / size,
        |r| names_twice(cells, size, r),
        Refusal::CornerTwice,
    )
}
