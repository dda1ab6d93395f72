// What becomes of the groups, without a call's checks. A `requires` here is what the rows of the calls above have let through (1, 2, 5, 6
// and 8), or what `compute` has left, which callers read by the numbers of its layout.
ghost use Rattle.std.specs.Prelude.{◌≡◌, ◌+◌, ◌*◌, ◌≤◌, ◌<◌, max, length};
ghost use Rattle.fates.specs.inner.Computed.{Computed};
ghost use Rattle.fates.specs.inner.FateWords.{fate_at};
ghost use Rattle.fates.specs.inner.Index.{runs_at};

use crate::fate_words::FateWords;
use crate::gather::gather;
use crate::judge::judge_groups;
use crate::lone::list_lone;
use crate::prepare::prepare;
use crate::{Fate, LabelParams, Run, Runs};
use laying::inner::layout::{FATES, INDEX, WALKED};
use laying::inner::sheet::Sheet;

// The words of a region: one for each quad, and for each corner.
pub fn span_of(quads: usize, corners: usize) -> usize
    ensures { result ≡ max quads corners }
{
    quads.max(corners)
}

// The groups, their walks, the records of their corners and the fate of each.
pub fn compute(sheet: Sheet<'_>, work: &mut [u32], params: LabelParams)
    requires { 4 * sheet.span + 27 * sheet.count ≤ length work.old }
    ensures { let s = sheet.entry in Computed s.span s.quads.now s.count params work.old work.new }
{
    prepare(sheet, work);
    let all = gather(sheet, work);
    let m = list_lone(work, sheet.span, sheet.count, all);
    judge_groups(work, sheet.span, sheet.count, all, m, params);
}

// What became of the group of quad s, in the workspace that `compute` has left.
pub fn fate_at(work: &[u32], span: usize, n: usize, s: usize) -> Fate
    requires { (4 * span + 27 * n ≤ length work.now) × (s < n) }
    ensures { result ≡ fate_at span n work.now s }
{
    Fate::from(FateWords {
        number: work[4 * span + FATES * n + s],
        claims: work[4 * span + WALKED * n + s],
    })
}

// Where the records of quad s's group stand.
pub fn runs_at(work: &[u32], span: usize, n: usize, s: usize) -> Runs
    requires { (4 * span + 27 * n ≤ length work.now) × (s < n) }
    ensures { result ≡ runs_at span n work.now s }
{
    let at = 4 * span + INDEX * n + 4 * s;
    Runs {
        lone: Run {
            at: work[at] as usize,
            count: work[at + 1] as usize,
        },
        all: Run {
            at: work[at + 2] as usize,
            count: work[at + 3] as usize,
        },
    }
}
