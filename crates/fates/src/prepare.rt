// What the walks ask of the workspace, from the quads alone: the groups, how many quads each has, the table of the sides in order of
// keys, and for each side the place where its run of equal keys begins.
// The routines that take a list and the numbers of its layout do so since it is one lent list, which they write.
// A caller may rely on zero marks, words and flags; the place of the corners' records may hold anything.
ghost use Rattle.std.specs.Prelude.{◌≡◌, ℕ, ◌+◌, ◌*◌, ◌-◌, ◌≤◌, ◌<◌, length, get_or};
ghost use Rattle.mesh.specs.Lists.{most_corners};
ghost use Rattle.words.specs.inner.Regions.{Filled};
ghost use Rattle.words.specs.Sorting.{equal};
ghost use Rattle.laying.specs.inner.Layout.{key_at};
ghost use Rattle.fates.specs.inner.Fates.{groups_at};
ghost use Rattle.fates.specs.inner.Runs.{Rising, Told, Started};
ghost use Rattle.fates.specs.inner.Prepared.{Counted, Sided, Ready};

use cells::inner::groups;
use laying::inner::layout::{FLAGS, GROUPS, RUNS};
use laying::inner::sheet::Sheet;

// The groups, with no quad marked, and the ordered table after them. Their part of the workspace begins inside the second words, so
// that the table stands where the walk reads it.
fn list_groups(sheet: Sheet<'_>, work: &mut [u32])
    requires { 4 * sheet.span + 26 * sheet.count ≤ length work.old }
    ensures { let s = sheet.entry in Sided s.span s.quads.now s.count work.old work.new }
{
    let n = sheet.count;
    let at = 4 * sheet.span - 2 * n;
    work[at..at + n].fill(0);
    groups(sheet.quads, 4, n, &mut work[at..at + 18 * n]);
}

// From right before the table to their own place.
fn move_groups(work: &mut [u32], span: usize, n: usize)
    requires { (4 * span + 26 * n ≤ length work.old) × (n ≤ span) × (span ≤ most_corners) }
    ensures { Filled work.old work.new (groups_at span n) n n (λ (q : ℕ). get_or work.old (4 * span - n + q) 0) }
{
    work.copy_within(4 * span - n..4 * span, 4 * span + GROUPS * n);
}

// Where the run of place i begins, with the last run begun at f.
fn run_start(work: &[u32], span: usize, f: usize, i: usize) -> usize
    requires { (4 * span + 2 * i < length work.now) × (4 * span + 2 * f < length work.now) }
    ensures { Started (key_at span work.now) f i result }
{
    if work[4 * span + 2 * i] != work[4 * span + 2 * f] {
        return i;
    }
    f
}

// Each side is told where its run begins.
fn tell_runs(work: &mut [u32], span: usize, n: usize)
    requires { Rising span n work.old }
    ensures { Told span n work.old work.new (4 * n) }
{
    let mut f = 0;
    for i in 0..4 * n {
        f = run_start(work, span, f, i);
        let e = work[4 * span + 2 * i + 1] as usize;
        work[4 * span + RUNS * n + e] = f as u32;
    }
}

// By the numbers of the quads' groups, how many quads each group has.
fn tally_groups(numbers: &[u32], counts: &mut [u32])
    requires few { (length counts.old ≡ length numbers.now) × (length numbers.now ≤ most_corners) }
    requires by_index { (q : ℕ) → q < length numbers.now → get_or numbers.now q 0 < length numbers.now }
    ensures { Counted numbers.now (length numbers.now) counts.new }
{
    counts.fill(0);
    for s in numbers {
        counts[*s as usize] += 1;
    }
}

// How many quads each group has, behind the numbers of the n quads' groups.
#[tactic(auto, using(crate::proofs::Members::counted_behind))]
fn count_members(part: &mut [u32], n: usize)
    requires n_in_bounds { (length part.old ≡ 2 * n) × (n ≤ most_corners) }
    requires by_index { (q : ℕ) → q < n → get_or part.old q 0 < n }
    ensures { Filled part.old part.new n n n (equal (λ (q : ℕ). get_or part.old q 0) n) }
{
    let (numbers, counts) = part.split_at_mut(n);
    tally_groups(numbers, counts);
}

// The front is made zero last, since the groups were listed at its end.
pub(crate) fn prepare(sheet: Sheet<'_>, work: &mut [u32])
    requires { 4 * sheet.span + 26 * sheet.count ≤ length work.old }
    ensures { let s = sheet.entry in Ready s.span s.quads.now s.count work.new }
{
    let n = sheet.count;
    let table = 4 * sheet.span;
    let numbers = table + GROUPS * n;
    let flags = table + FLAGS * n;
    list_groups(sheet, work);
    tell_runs(work, sheet.span, n);
    move_groups(work, sheet.span, n);
    count_members(&mut work[numbers..numbers + 2 * n], n);
    work[..table].fill(0);
    work[flags..flags + 4 * n].fill(0);
}
