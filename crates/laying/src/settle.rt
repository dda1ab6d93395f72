// Words for corners: a corner takes them when it has none, and else says whether it has the same. The workspace, the span and a corner go
// one by one: what is asked of them speaks of the list, which is written.
ghost use Rattle.std.specs.Prelude.{◌≡◌, ◌≢◌, ◌*◌, ◌≤◌, ◌<◌, length};
ghost use Rattle.mesh.specs.Lists.{most_corners};
ghost use Rattle.laying.specs.inner.Layout.{first_word, second_word};
ghost use Rattle.laying.specs.inner.Settling.{Settled, Placed, Ends, EndsAt, Spread, SpreadAt};

use crate::inner::labels::{outward, step_from};
use crate::inner::sheet::Sheet;

// The two words of a corner.
#[derive(Clone, Copy, PartialEq, Eq)]
pub(crate) struct Spot {
    pub x: u32,
    pub y: u32,
}

// The words of corner c.
fn spot_of(work: &[u32], span: usize, c: usize) -> Spot
    requires { (4 * span ≤ length work.now) × (c < span) × (span ≤ most_corners) }
    ensures { (result.x ≡ first_word span work.now c) × (result.y ≡ second_word span work.now c) }
{
    Spot {
        x: work[2 * span + c],
        y: work[3 * span + c],
    }
}

// Corner c is given the words of a spot, or has them; false where it has others.
fn settle(work: &mut [u32], span: usize, c: usize, to: Spot) -> bool
    requires { (4 * span ≤ length work.old) × (c < span) × (span ≤ most_corners) }
    ensures { Settled span work.old work.new c to.x to.y result }
{
    // no words yet: labels are words of the lent list, and 0 is none
    if work[2 * span + c] == 0 {
        work[2 * span + c] = to.x;
        work[3 * span + c] = to.y;
        return true;
    }
    spot_of(work, span, c) == to
}

// Two corners, one after the other.
pub(crate) fn place(
    work: &mut [u32],
    span: usize,
    c: usize,
    at_c: Spot,
    d: usize,
    at_d: Spot,
) -> bool
    requires span_in_bounds { (4 * span ≤ length work.old) × (c < span) × (d < span) × (span ≤ most_corners) }
    requires apart { c ≢ d }
    ensures { Placed span work.old work.new c d at_c.x at_c.y at_d.x at_d.y result }
{
    settle(work, span, c, at_c) && settle(work, span, d, at_d)
}

// Corners c and d, after a and b of one quad, are given what the words of a and b force.
fn spread(work: &mut [u32], span: usize, c: usize, d: usize, a: Spot, b: Spot) -> bool
    requires span_in_bounds { (4 * span ≤ length work.old) × (c < span) × (d < span) × (span ≤ most_corners) }
    requires apart { c ≢ d }
    requires ends { Ends a.x a.y b.x b.y }
    ensures { Spread span work.old work.new c d a.x a.y b.x b.y result }
{
    // The step from a to b, turned: (x, y) becomes (-y, x).
    let x = -step_from(a.y, b.y);
    let y = step_from(a.x, b.x);
    let at_c = Spot {
        x: outward(b.x, x),
        y: outward(b.y, y),
    };
    let at_d = Spot {
        x: outward(a.x, x),
        y: outward(a.y, y),
    };
    place(work, span, c, at_c, d, at_d)
}

// The far corners of the quad of side g are given what the words of the side's ends force.
pub(crate) fn lay(sheet: Sheet<'_>, work: &mut [u32], g: usize) -> bool
    requires g_bound { (g < 4 * sheet.count) × (4 * sheet.span ≤ length work.old) }
    requires ends_at { EndsAt sheet.span sheet.quads.now work.old g }
    ensures { let s = sheet.entry in SpreadAt s.span s.quads.now g work.old work.new result }
{
    let q = g / 4;
    let a = spot_of(work, sheet.span, sheet.corner(q, g));
    let b = spot_of(work, sheet.span, sheet.corner(q, g + 1));
    let c = sheet.corner(q, g + 2);
    let d = sheet.corner(q, g + 3);
    spread(work, sheet.span, c, d, a, b)
}
