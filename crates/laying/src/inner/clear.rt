// Taking the marks and words of a walk away again, at the cost of its own quads.
ghost use Rattle.std.specs.Prelude.{◌≡◌, ◌+◌, ◌*◌, ◌≤◌, ◌<◌, length, set};
ghost use Rattle.mesh.specs.Lists.{most_corners};
ghost use Rattle.laying.specs.inner.Invariant.{Cover};
ghost use Rattle.laying.specs.inner.Answers.{Wiped, Cleared};

use crate::inner::sheet::Sheet;

// Corner c has no words, in any workspace with room for the region.
pub fn wipe(work: &mut [u32], span: usize, c: usize)
    requires { (4 * span ≤ length work.old) × (c < span) × (span ≤ most_corners) }
    ensures { work.new ≡ set (set work.old (2 * span + c) 0) (3 * span + c) 0 }
{
    work[2 * span + c] = 0;
    work[3 * span + c] = 0;
}

// Quad q has no mark, and its corners have no words.
fn wipe_quad(sheet: Sheet<'_>, work: &mut [u32], q: usize)
    requires { (q < sheet.count) × (4 * sheet.span ≤ length work.old) }
    ensures { let s = sheet.entry in Wiped s.span s.quads.now s.count work.old work.new q }
{
    work[q] = 0;
    for k in 0..4 {
        let c = sheet.corner(q, k);
        wipe(work, sheet.span, c);
    }
}

// The `tail` quads of the queue have no marks, and no corner has words.
pub fn clear(sheet: Sheet<'_>, work: &mut [u32], tail: usize)
    requires span_in_bounds { 4 * sheet.span ≤ length work.old }
    requires cover { Cover sheet.span sheet.quads.now sheet.count work.old tail }
    ensures { Cleared sheet.entry.span sheet.entry.count work.old work.new }
{
    for i in 0..tail {
        let q = work[sheet.span + i] as usize;
        wipe_quad(sheet, work, q);
    }
}
