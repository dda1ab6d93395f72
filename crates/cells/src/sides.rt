// The table of the sides of cells of 3 or 4 corners: two words for each, a key that says its ends and a number that says whose it is. In
// order of keys, the sides of one key stand together, and their cells are made one group. In the workspace marks stand at 0, groups at n,
// the table at 2 * n, and room for its ordering after it.
ghost use Rattle.std.specs.Prelude.{◌≡◌, List, ℕ, ◌+◌, ◌*◌, ◌-◌, ◌%◌, ◌≤◌, ◌<◌, length};
ghost use Rattle.cells.specs.Cells.{Has};
ghost use Rattle.cells.specs.inner.Forest.{Classes};
ghost use Rattle.cells.specs.inner.Table.{Sound, groups_end};
ghost use Rattle.cells.specs.inner.Sides.{ends_key, side_key, table_key, Tabled, Tabulated, Adjacent, Ready, groups_of, United, Named};

use crate::forest;
use words::inner::order::{order_keys, put};

// How many corners there may be, so that two make a key of 24 bits.
const CORNERS: u32 = 4096;

// The side after i, counted round.
fn next_side(size: usize, i: usize) -> usize
    requires { i < size }
    ensures { (result ≡ (i + 1) % size) × (result < size) }
{
    if i + 1 == size { 0 } else { i + 1 }
}

// The same whichever way a side runs.
fn ends_key(a: u32, b: u32) -> u32
    requires { (a < 4096) × (b < 4096) }
    ensures { result ≡ ends_key a b }
{
    a.min(b) * CORNERS + a.max(b)
}

// Cells of `size` corners, as many as `count`; a caller's rows ensure what is known of them.
#[derive(Clone, Copy, Drop)]
pub(crate) struct Cells<'a> {
    pub corners: &'a [u32],
    pub size: usize,
    pub count: usize,
    ghost sound: { Sound size corners.now count },
}

impl<'a> Cells<'a> {
    fn side_key(self, q: usize, i: usize) -> u32
        requires { (i < self.size) × Has self.size self.corners.now q }
        ensures { let z = self.entry in result ≡ side_key z.size z.corners.now q i }
    {
        let at = self.size * q;
        let next = next_side(self.size, i);
        ends_key(self.corners[at + i], self.corners[at + next])
    }

    // No side has the key 0: it is that of a marked cell's, a word of the lent table.
    fn table_key(self, work: &[u32], q: usize, i: usize) -> u32
        requires { (i < self.size) × Has self.size self.corners.now q × (q < length work.now) }
        ensures { let z = self.entry in result ≡ table_key z.size z.corners.now work.now q i }
    {
        if work[q] != 0 {
            return 0;
        }
        self.side_key(q, i)
    }

    // The records of one cell's sides, in order, behind those of the cells before it; xs is the list on which the table was begun.
    fn put_sides(self, work: &mut [u32], q: usize)
        requires has { (q < self.count) × Has self.size self.corners.now q }
        requires n_in_bounds { groups_end self.size self.count ≤ length work.old }
        ensures { let z = self.entry in (xs : List ℕ) →
            Tabled z.size z.corners.now z.count xs work.old (z.size * q) → Tabled z.size z.corners.now z.count xs work.new (z.size * (q + 1)) }
    {
        for i in 0..self.size {
            let key = self.table_key(work, q, i);
            let at = 2 * self.count + 2 * (self.size * q + i);
            put(work, at, key, (4 * q + i) as u32);
        }
    }

    // The table by cells.
    fn fill(self, work: &mut [u32])
        requires { groups_end self.size self.count ≤ length work.old }
        ensures { let z = self.entry in Tabled z.size z.corners.now z.count work.old work.new (z.size * z.count) }
    {
        for q in 0..self.count {
            self.put_sides(work, q);
        }
    }

    // The table in order of keys, so that the sides of one key stand together.
    pub(crate) fn list_sides(self, work: &mut [u32])
        requires { groups_end self.size self.count ≤ length work.old }
        ensures { let z = self.entry in Tabulated z.size z.corners.now z.count work.old work.new }
    {
        self.fill(work);
        let n = self.count;
        let m = self.size * n;
        order_keys(work, 2 * n, 2 * n + 2 * m, m);
    }
}

// Records h and h + 1: where they have one key, and it is a side's, their cells are joined. This and the two below take the workspace and n
// as they are: what is asked of them (`Ready`) is a fact of the workspace, which they change, and of no value of its own.
fn link_at(work: &mut [u32], n: usize, h: usize)
    requires ready { Ready n (h + 2) work.old }
    requires classes { Classes (Adjacent n work.old h) n (groups_of n work.old) }
    ensures { United n (h + 1) work.old work.new }
{
    let at = 2 * n + 2 * h;
    if work[at] == 0 {
        return;
    }
    if work[at] != work[at + 2] {
        return;
    }
    let a = work[at + 1] as usize / 4;
    let b = work[at + 3] as usize / 4;
    forest::join(&mut work[n..2 * n], a, b);
}

fn link(work: &mut [u32], n: usize, m: usize)
    requires ready { Ready n m work.old }
    requires classes { Classes (Adjacent n work.old 0) n (groups_of n work.old) }
    ensures { United n (m - 1) work.old work.new }
{
    for h in 0..m.saturating_sub(1) {
        link_at(work, n, h);
    }
}

// Of m records, the cells of neighbours of one key are made one group, and each group is named by its lowest cell.
pub(crate) fn unite(work: &mut [u32], n: usize, m: usize)
    requires { Ready n m work.old }
    ensures { Named n (m - 1) work.old work.new }
{
    forest::alone(&mut work[n..2 * n]);
    link(work, n, m);
    forest::flatten(&mut work[n..2 * n]);
}
