// Groups of cells across shared sides, for the calls that lay cells out.
ghost use Rattle.std.specs.Prelude.{◌≤◌, length};
ghost use Rattle.cells.specs.inner.Table.{groups_end, Sound};
ghost use Rattle.cells.specs.inner.Sides.{Grouped};

use crate::sides::{self, Cells};

// Each of n cells of `size` corners is given its group: of those whose mark is 0, at the workspace's front, all that are linked across
// shared sides, named by the lowest; a marked cell is a group of its own. The ordered table of the sides stays in the workspace. The rows
// of a caller ensure what is asked (rows 1, 2, 5, 6 and 8). It takes what `Cells` holds one by one: its callers have no other use for one.
pub fn groups(cells: &[u32], size: usize, n: usize, work: &mut [u32])
    requires sound { Sound size cells.now n }
    requires n_in_bounds { groups_end size n ≤ length work.old }
    ensures { Grouped size cells.now n work.old work.new }
{
    let cells = Cells {
        corners: cells,
        size,
        count: n,
    };
    cells.list_sides(work);
    sides::unite(work, n, size * n);
}
