// Of records of two words (key, corner and seed), those that no other has the seed and key of: once the records are in order, such ones
// differ from both neighbours. They go, in order, to the place of the table of the sides. The routines
// take places and numbers of the workspace one by one, as those of `words` do that they call.
ghost use Rattle.std.specs.Prelude.{◌+◌, ◌*◌, ◌≤◌, ◌<◌, ◌↔◌, IsTrue, length};
ghost use Rattle.words.specs.inner.Order.{Room};
ghost use Rattle.words.specs.inner.Regions.{Kept};
ghost use Rattle.fates.specs.inner.Fates.{records_at, lone_at};
ghost use Rattle.fates.specs.inner.Singles.{Follows, Unique, SeedOrder, Picked, Batch, LoneFrom};

use laying::inner::layout::{RECORDS, SEEDS};
use words::inner::order::{carry, order_in_groups};

// Whether record k of those from a on has the seed and key of the one before it.
pub(crate) fn follows(work: &[u32], a: usize, k: usize) -> bool
    requires { a + 2 * k + 1 < length work.now }
    ensures { IsTrue result ↔ Follows work.now a k }
{
    if k == 0 {
        return false;
    }
    let at = a + 2 * k;
    let before = a + 2 * (k - 1);
    work[before] == work[at] && work[before + 1] % SEEDS == work[at + 1] % SEEDS
}

// Whether no other of the m ordered records from a on has the seed and key of record k.
fn is_lone(work: &[u32], a: usize, m: usize, k: usize) -> bool
    requires m_in_bounds { (a + 2 * m ≤ length work.now) × (k < m) }
    requires seed_order { SeedOrder work.now a m }
    ensures { IsTrue result ↔ Unique work.now a m k }
{
    !follows(work, a, k) && (k + 1 == m || !follows(work, a, k + 1))
}

// The lone ones of the m ordered records from a on go to b, in order; answers how many they are.
fn keep_lone(work: &mut [u32], a: usize, b: usize, m: usize) -> usize
    requires room { Room work.old a b m }
    requires seed_order { SeedOrder work.old a m }
    ensures { Kept work.old work.new b (2 * m) × Picked work.old work.new a b m m result }
{
    let mut r = 0;
    for k in 0..m {
        if is_lone(work, a, m, k) {
            carry(work, a + 2 * k, b + 2 * r);
            r += 1;
        }
    }
    r
}

// The m records of n quads are put in order, and the lone ones of them go to their own place; answers how many these are.
pub(crate) fn list_lone(work: &mut [u32], span: usize, n: usize, m: usize) -> usize
    requires { Batch span n m work.old }
    ensures { LoneFrom work.old work.new (records_at span n) (lone_at span) m result }
{
    let a = 4 * span + RECORDS * n;
    let b = 4 * span;
    order_in_groups(work, a, b, m);
    keep_lone(work, a, b, m)
}
