// The records of corners: from each group's lowest quad in turn the walk, how many quads it reached, and a record for each corner that it
// gave words. After each walk marks and words are blank again, and the sizes of the groups are still there.
ghost use Rattle.std.specs.Prelude.{◌≡◌, ◌+◌, ◌*◌, ◌≤◌, ◌<◌, length};
ghost use Rattle.mesh.specs.Lists.{most_corners};
ghost use Rattle.laying.specs.inner.Layout.{first_word};
ghost use Rattle.laying.specs.inner.Answers.{Fitted};
ghost use Rattle.fates.specs.inner.Prepared.{Ready};
ghost use Rattle.fates.specs.inner.Gathering.{Worded, Drawn, Emptied, Taken, numbers_in, Begun, Advances, Gathers};

use laying::inner::clear::{clear, wipe};
use laying::inner::label::label;
use laying::inner::layout::{GROUPS, KEYS, RECORDS, SEEDS, WALKED};
use laying::inner::sheet::Sheet;

// Corner c has no words; it is of any workspace with room, not of a sheet alone. Where it had, a record of them follows the m records.
fn take_corner(work: &mut [u32], span: usize, n: usize, seed: usize, m: usize, c: usize) -> usize
    requires n_in_bounds { (4 * span + 26 * n ≤ length work.old) × (span ≤ most_corners) × (n ≤ span) }
    requires c_lt_span { (c < span) × (seed < n) × (m < 4 * n) }
    requires worded { Worded span work.old }
    ensures { Drawn span n seed work.old work.new m result × (result ≤ m + 1) × (first_word span work.new c ≡ 0) }
{
    let x = work[2 * span + c];
    if x == 0 {
        return m;
    }
    let y = work[3 * span + c];
    let at = 4 * span + RECORDS * n + 2 * m;
    work[at] = x * KEYS + y;
    work[at + 1] = (c as u32) * SEEDS + (seed as u32);
    wipe(work, span, c);
    m + 1
}

// Quad q has no mark, and its corners have no words; those that had have records.
fn take_quad(sheet: Sheet<'_>, work: &mut [u32], seed: usize, m: usize, q: usize) -> usize
    requires n_in_bounds { 4 * sheet.span + 26 * sheet.count ≤ length work.old }
    requires q_lt_n { (q < sheet.count) × (seed < sheet.count) × (m + 4 ≤ 4 * sheet.count) }
    requires worded { Worded sheet.span work.old }
    ensures { let s = sheet.entry in Emptied s.span s.quads.now s.count seed work.old work.new m result q }
{
    work[q] = 0;
    let mut r = m;
    for k in 0..4 {
        let c = sheet.corner(q, k);
        r = take_corner(work, sheet.span, sheet.count, seed, r, c);
    }
    r
}

// The `tail` quads of the queue have no marks and no corner has words; those that had have records.
fn take(sheet: Sheet<'_>, work: &mut [u32], seed: usize, m: usize, tail: usize) -> usize
    requires n_in_bounds { 4 * sheet.span + 26 * sheet.count ≤ length work.old }
    requires seed_lt_n { (seed < sheet.count) × (m + 4 * tail ≤ 4 * sheet.count) }
    requires fitted { Fitted sheet.span sheet.quads.now sheet.count seed work.old tail }
    ensures { let s = sheet.entry in Taken s.span s.count seed work.old work.new m result tail }
{
    let mut r = m;
    for i in 0..tail {
        let q = work[sheet.span + i] as usize;
        r = take_quad(sheet, work, seed, r, q);
    }
    r
}

// The walk from a group's lowest quad: how many quads it reached, with the records of their corners, or 0 where there is no labelling (a word
// of the lent workspace holds no Option).
fn walk_from(sheet: Sheet<'_>, work: &mut [u32], seed: usize, m: usize) -> usize
    requires seed_lt_n { seed < sheet.count }
    requires begun { Begun sheet.span sheet.quads.now sheet.count seed m work.old }
    requires seed_value { numbers_in sheet.span sheet.count work.old seed ≡ seed }
    ensures { let s = sheet.entry in Advances s.span s.quads.now s.count seed m result work.old work.new }
{
    let at = 4 * sheet.span + WALKED * sheet.count + seed;
    match label(sheet, work, seed) {
        Ok(reached) => {
            let r = take(sheet, work, seed, m, reached);
            work[at] = reached as u32;
            r
        }
        Err(clash) => {
            clear(sheet, work, clash.queued);
            work[at] = 0;
            m
        }
    }
}

// The walk from one quad, where it is its group's lowest.
fn gather_seed(sheet: Sheet<'_>, work: &mut [u32], seed: usize, m: usize) -> usize
    requires seed_lt_n { seed < sheet.count }
    requires begun { Begun sheet.span sheet.quads.now sheet.count seed m work.old }
    ensures { let s = sheet.entry in Advances s.span s.quads.now s.count seed m result work.old work.new }
{
    if work[4 * sheet.span + GROUPS * sheet.count + seed] as usize != seed {
        return m;
    }
    walk_from(sheet, work, seed, m)
}

// All quads in order: every walk, and the records, of which the number is answered.
pub(crate) fn gather(sheet: Sheet<'_>, work: &mut [u32]) -> usize
    requires n_in_bounds { 4 * sheet.span + 27 * sheet.count ≤ length work.old }
    requires ready { Ready sheet.span sheet.quads.now sheet.count work.old }
    ensures { let s = sheet.entry in Gathers s.span s.quads.now s.count result work.old work.new }
{
    let mut m = 0;
    for seed in 0..sheet.count {
        m = gather_seed(sheet, work, seed, m);
    }
    m
}
