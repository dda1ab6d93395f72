// A frame's lists, unpacked from the words of its lines: eight words a corner (x, y, angle, mark, spread, angle, mark, spread) and six a
// triangle (three corners, three twins). Callers see to it that so many lines stand there. Each function is its words,
// its room and its place in a line, told by its own `Front`; one for all would take these as parameters, and have no fewer calls.
// The turns are those of the lines that there are: `array::from_fn` goes over the whole room, which took small texts a fifth longer.
ghost use Rattle.std.specs.Prelude.{◌*◌, ◌≤◌, ◌<◌, length, get_or};
ghost use Rattle.measure.specs.Float.{bits};
ghost use Rattle.gridtext.specs.inner.Rows.{corner_size, triangle_size};
ghost use Rattle.gridtext.specs.Text.{most_corner_lines, most_triangle_lines};
ghost use Rattle.gridtext.specs.inner.Unpacked.{position_at, slot_at, triple_at, Front};

use crate::inner::room;
use measure::inner::float_of;

// A position of n corners: their x from word 0, their y from word 1.
pub(crate) fn positions(corners: &[u32], n: usize, start: usize) -> [f32; room::MOST_CORNER_LINES]
    requires { (n ≤ most_corner_lines) × (corner_size * n ≤ length corners.now) × (start < corner_size) }
    ensures { Front n most_corner_lines (bits 0) (λ t. bits (get_or corners.now (position_at start t) 0)) result }
{
    let mut out = [0.0f32; room::MOST_CORNER_LINES];
    for t in 0..n {
        out[t] = float_of(corners[room::CORNER_SIZE * t + start]);
    }
    out
}

// The two slots of n corners: their angles from word 2, their spreads from word 4.
pub(crate) fn slots(corners: &[u32], n: usize, start: usize) -> [f32; 2 * room::MOST_CORNER_LINES]
    requires { (n ≤ most_corner_lines) × (corner_size * n ≤ length corners.now) × (start < 5) }
    ensures { Front (2 * n) (2 * most_corner_lines) (bits 0) (λ t. bits (get_or corners.now (slot_at start t) 0)) result }
{
    let mut out = [0.0f32; 2 * room::MOST_CORNER_LINES];
    for t in 0..2 * n {
        out[t] = float_of(corners[room::CORNER_SIZE * (t / 2) + 3 * (t % 2) + start]);
    }
    out
}

// The marks of n corners' spreads.
pub(crate) fn marks(corners: &[u32], n: usize) -> [u32; 2 * room::MOST_CORNER_LINES]
    requires { (n ≤ most_corner_lines) × (corner_size * n ≤ length corners.now) }
    ensures { Front (2 * n) (2 * most_corner_lines) 0 (λ t. get_or corners.now (slot_at 3 t) 0) result }
{
    let mut out = [0u32; 2 * room::MOST_CORNER_LINES];
    for t in 0..2 * n {
        out[t] = corners[room::CORNER_SIZE * (t / 2) + 3 * (t % 2) + 3];
    }
    out
}

// Three words of n triangles: their corners from word 0, their twins from word 3.
pub(crate) fn triples(
    triangles: &[u32],
    n: usize,
    start: usize,
) -> [u32; 3 * room::MOST_TRIANGLE_LINES]
    requires { (n ≤ most_triangle_lines) × (triangle_size * n ≤ length triangles.now) × (start < 4) }
    ensures { Front (3 * n) (3 * most_triangle_lines) 0 (λ t. get_or triangles.now (triple_at start t) 0) result }
{
    let mut out = [0u32; 3 * room::MOST_TRIANGLE_LINES];
    for t in 0..3 * n {
        out[t] = triangles[room::TRIANGLE_SIZE * (t / 3) + t % 3 + start];
    }
    out
}
