// The fate of every quad, which is its group's where it is the lowest: by the number of the group's quads, the walk's answer and the number
// of lone corners. Beside it the place of the group's records, and the number of pairs that several corners claim.
// The routines take the workspace and the numbers of its layout one by one: it is a lent list, written while it is read.
ghost use Rattle.std.specs.Prelude.{◌≡◌, ◌+◌, ◌*◌, ◌≤◌, ◌<◌, ◌↔◌, IsTrue, length};
ghost use Rattle.cells.specs.Counted.{Exactly};
ghost use Rattle.fates.specs.inner.Index.{Stretch};
ghost use Rattle.fates.specs.inner.Judging.{Lined, Cursor, Begins, Falls, with_fate, with_runs, Spacious, Inside, Settled, Tabled, Judges};

use crate::fate_words::FateWords;
use crate::lone::follows;
use crate::{Fate, LabelParams, Run, Runs};
use laying::inner::layout::{FATES, INDEX, RECORDS, SEEDS, WALKED};

// Where the records of quad s end, which begin at `from`, among m records from `at` on in order.
fn run_end(work: &[u32], at: usize, m: usize, s: usize, from: usize) -> usize
    requires { Lined work.now at m × Cursor work.now at m s from }
    ensures { Stretch work.now at m s from result }
{
    (from..m)
        .find(|&i| (work[at + 2 * i + 1] % SEEDS) as usize != s)
        .unwrap_or(m)
}

// Whether record k of the `count` from a on is the first of several with its pair.
fn begins_claim(work: &[u32], a: usize, k: usize, count: usize) -> bool
    requires { (a + 2 * count ≤ length work.now) × (k < count) }
    ensures { IsTrue result ↔ Begins work.now a count k }
{
    !follows(work, a, k) && k + 1 < count && follows(work, a, k + 1)
}

// How many pairs several of the run's records have. A loop: `Exactly` grows with it, where `filter` and `count` had to be read back into it.
fn claimed(work: &[u32], run: Run) -> u32
    requires { (run.at + 2 * run.count ≤ length work.now) × (run.count < 4294967296) }
    ensures { Exactly (Begins work.now run.at run.count) result }
{
    let a = run.at;
    let mut claims = 0;
    for k in 0..run.count {
        if begins_claim(work, a, k, run.count) {
            claims += 1;
        }
    }
    claims
}

// The fate of a quad with so many quads in its group, so many of them reached, so many lone corners and so many claimed pairs.
#[tactic(auto, using(crate::proofs::ByNumbers::applies))]
fn fate_by(size: u32, reached: u32, lone: usize, claims: u32, params: LabelParams) -> Fate
    ensures { Falls params size reached lone claims result }
{
    if size == 0 {
        return Fate::NotLowest;
    }
    if size < params.quads {
        return Fate::TooFewQuads;
    }
    if reached == 0 {
        return Fate::NoLabelling;
    }
    if lone < params.corners as usize {
        return Fate::TooFewLone(claims);
    }
    Fate::Kept(claims)
}

// The fate of quad s as two words.
fn store_fate(work: &mut [u32], span: usize, n: usize, s: usize, fate: Fate)
    requires { Spacious span n s work.old }
    ensures { work.new ≡ with_fate span n s fate work.old }
{
    let words = FateWords::from(fate);
    work[4 * span + FATES * n + s] = words.number;
    work[4 * span + WALKED * n + s] = words.claims;
}

// The place of quad s's records as four words.
fn store_runs(work: &mut [u32], span: usize, n: usize, s: usize, runs: Runs)
    requires spacious { Spacious span n s work.old }
    requires inside { Inside span n runs.lone × Inside span n runs.all }
    ensures { work.new ≡ with_runs span n s runs work.old }
{
    let at = 4 * span + INDEX * n + 4 * s;
    work[at] = runs.lone.at as u32;
    work[at + 1] = runs.lone.count as u32;
    work[at + 2] = runs.all.at as u32;
    work[at + 3] = runs.all.count as u32;
}

// Quad s by its runs: its fate, and both as words.
fn judge_quad(work: &mut [u32], span: usize, n: usize, s: usize, runs: Runs, params: LabelParams)
    requires spacious { Spacious span n s work.old }
    requires inside { Inside span n runs.lone × Inside span n runs.all }
    ensures { Settled span n params s runs work.old work.new }
{
    let claims = claimed(work, runs.all);
    let size = work[4 * span + FATES * n + s];
    let reached = work[4 * span + WALKED * n + s];
    let fate = fate_by(size, reached, runs.lone.count, claims, params);
    store_fate(work, span, n, s, fate);
    store_runs(work, span, n, s, runs);
}

// Every quad in order. Records of all corners and of the lone ones are in the order of the quads, so that each run begins where the last
// ended.
pub(crate) fn judge_groups(
    work: &mut [u32],
    span: usize,
    n: usize,
    all: usize,
    m: usize,
    params: LabelParams,
)
    requires { Tabled span n all m work.old }
    ensures { Judges span n params all m n work.old work.new }
{
    let a = 4 * span + RECORDS * n;
    let b = 4 * span;
    let mut i = 0;
    let mut j = 0;
    for s in 0..n {
        let after = run_end(work, a, all, s, i);
        let lone_after = run_end(work, b, m, s, j);
        let runs = Runs {
            lone: Run {
                at: b + 2 * j,
                count: lone_after - j,
            },
            all: Run {
                at: a + 2 * i,
                count: after - i,
            },
        };
        judge_quad(work, span, n, s, runs, params);
        i = after;
        j = lone_after;
    }
}
