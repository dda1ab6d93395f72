// The stage without its checks, for a frame whose rows have let it through: one triangle, all of them into the class list, and all of them
// into the lists of classes and of fits. And rows 1 and 2 of lists that go with triangles.
ghost use Rattle.std.specs.Prelude.{◌≡◌, ◌⊎◌, ◌+◌, ◌*◌, ◌<◌, length};
ghost use Rattle.classify.specs.inner.Triangle.{Sound, sides_at, judgement_of, class_words, fits_by, AllFit};
ghost use Rattle.classify.specs.inner.Three.{stored};
ghost use Rattle.classify.specs.Classes.{angle_between, classes_of, given};
ghost use Rattle.classify.specs.Call.{lengths_given};

use crate::half_edge::{class_of, fit_of, judge_side, side_of};
use crate::three::Three;
use crate::{EdgeParams, Judged, Side};
use axis::Axes;
use axis::inner::cache_at;
use mesh::Positions;
use mesh::inner::lists::{
    MOST_CORNERS, MOST_HALF_EDGES, doubled_row, limit_row, paired_row, whole_row,
};
use refusal::Refusal;

// Rows 1 and 2, where a list has as many words as `paired`, one for each half-edge: classes here, twins in a frame.
#[tactic(auto, unfolding(crate::specs::Call::lengths_gate))]
pub fn lengths_gate(
    corners: Positions<'_>,
    axes: Axes<'_>,
    triangles: &[u32],
    paired: usize,
) -> Result<(), Refusal>
    ensures { result ≡ lengths_given corners.entry axes.entry triangles.entry paired }
{
    paired_row(corners.y.len(), corners.x.len())?;
    doubled_row(axes.angles.len(), corners.x.len())?;
    doubled_row(axes.marks.len(), corners.x.len())?;
    doubled_row(axes.spreads.len(), corners.x.len())?;
    whole_row(triangles.len(), 3)?;
    paired_row(paired, triangles.len())?;
    limit_row(corners.x.len(), MOST_CORNERS)?;
    limit_row(triangles.len(), MOST_HALF_EDGES)
}

// The angle from corner a to corner b.
#[tactic(auto, unfolding(crate::specs::Classes::angle_between))]
fn angle_between(corners: Positions<'_>, a: usize, b: usize) -> f32
    requires { (length corners.y.now ≡ length corners.x.now) × (a < length corners.x.now) × (b < length corners.x.now) }
    ensures { result ≡ angle_between corners.entry.x.now corners.entry.y.now a b }
{
    measure::inner::angle_rule(corners.x[b] - corners.x[a], corners.y[b] - corners.y[a])
}

// Triangle t's sides, each with both slots and both distances. `write_triangles` hands on what is asked.
// `Sound` stands in three contracts and not in a type: this one and `classify_triangles` are told by the lists (docs/CALLS.md), and a type
// would ask more of their callers. A struct of the lists and the parameters would be the call's own parameters under another name.
pub fn judge_triangle(
    corners: Positions<'_>,
    axes: Axes<'_>,
    triangles: &[u32],
    params: EdgeParams,
    t: usize,
) -> Three<Side>
    requires { Sound (given corners axes triangles params) × (3 * t + 2 < length triangles.now) }
    ensures { result ≡ sides_at (given corners.entry axes.entry triangles.entry params) t }
{
    let rule = params.spread;
    let a = triangles[3 * t] as usize;
    let b = triangles[3 * t + 1] as usize;
    let c = triangles[3 * t + 2] as usize;
    let at_a = cache_at(axes, a, rule);
    let at_b = cache_at(axes, b, rule);
    let at_c = cache_at(axes, c, rule);
    Three {
        first: side_of(at_a, at_b, angle_between(corners, a, b)),
        second: side_of(at_b, at_c, angle_between(corners, b, c)),
        third: side_of(at_c, at_a, angle_between(corners, c, a)),
    }
}

#[tactic(auto, unfolding(crate::specs::inner::Triangle::judgement_of))]
fn judge_sides(sides: Three<Side>, tolerance: f32) -> Three<Judged>
    ensures { result ≡ judgement_of tolerance sides }
{
    sides.map(|side| judge_side(side, tolerance))
}

#[tactic(auto, unfolding(crate::specs::inner::Triangle::class_words))]
fn class_words(judged: Three<Judged>) -> Three<u32>
    ensures { result ≡ class_words judged }
{
    let Three {
        first: a,
        second: b,
        third: c,
    } = judged;
    Three {
        first: u32::from(class_of(a, b, c)),
        second: u32::from(class_of(b, c, a)),
        third: u32::from(class_of(c, a, b)),
    }
}

#[tactic(auto, unfolding(crate::specs::inner::Triangle::fits_by))]
fn fits_by(judged: Three<Judged>) -> Three<f32>
    ensures { result ≡ fits_by judged }
{
    judged.map(|own| fit_of(own))
}

// A triangle's fits into the fit list: `write_triangles` has one without places, or with every place. An `Option` of a list is no plainer:
// what becomes of the list behind it a contract can say only of its `exit`, by nested sums.
fn tell_fits(fits: &mut [f32], e: usize, judged: Three<Judged>)
    requires { (length fits.old ≡ 0) ⊎ (e + 2 < length fits.old) }
    ensures { fits.new ≡ stored fits.old e (fits_by judged) }
{
    if !fits.is_empty() {
        fits_by(judged).store(fits, e);
    }
}

// Every half-edge's class into the class list, and its fit into the fit list where that has places. `classify_all_edges` shows what is
// asked by its rows, and `classify_triangles` hands it on.
pub(crate) fn write_triangles(
    corners: Positions<'_>,
    axes: Axes<'_>,
    triangles: &[u32],
    params: EdgeParams,
    classes: &mut [u32],
    fits: &mut [f32],
)
    requires { Sound (given corners axes triangles params) × (length classes.old ≡ length triangles.now) × ((length fits.old ≡ 0) ⊎ (length fits.old ≡ length triangles.now)) }
    ensures { (classes.new ≡ classes_of (given corners.entry axes.entry triangles.entry params))
        × AllFit (given corners.entry axes.entry triangles.entry params) fits.new }
{
    for t in 0..triangles.len() / 3 {
        let sides = judge_triangle(corners, axes, triangles, params, t);
        let judged = judge_sides(sides, params.tolerance);
        class_words(judged).store(classes, 3 * t);
        tell_fits(fits, 3 * t, judged);
    }
}

// Every half-edge's class into the class list, and no fits. A frame shows what is asked by its rows.
pub fn classify_triangles(
    corners: Positions<'_>,
    axes: Axes<'_>,
    triangles: &[u32],
    params: EdgeParams,
    classes: &mut [u32],
)
    requires { Sound (given corners axes triangles params) × (length classes.old ≡ length triangles.now) }
    ensures { classes.new ≡ classes_of (given corners.entry axes.entry triangles.entry params) }
{
    write_triangles(corners, axes, triangles, params, classes, &mut []);
}
