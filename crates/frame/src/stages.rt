// The stages up to the quads that the filters keep. Classes and marks stand in the workspace; quads stand apart from it, since a stage reads
// them while it writes there, and in one list: those kept take the place of those made.
ghost use Rattle.std.specs.Prelude.{◌≡◌, ◌*◌, ◌≤◌, length, take};
ghost use Rattle.mesh.specs.Lists.{most_quads, quad_words};
ghost use Rattle.filter.specs.inner.Steps.{Sound};
ghost use Rattle.frame.specs.Stages.{filtering, given};
ghost use Rattle.frame.specs.Call.{judge_of, entry_gate};
ghost use Rattle.frame.specs.inner.Steps.{Made, Sifted};

use crate::{Frame, Params};
use classify::inner::classify_triangles;
use filter::FilterParams;
use filter::inner::{keep_marked, mark_quads};
use mesh::Positions;
use quads::Mesh;
use quads::inner::write_quads;

// The quads made of the triangles, at the front of their list; answers how many. Rows 1, 2, 4 and 5 show what classes ask, rows 1, 2 and
// 4 to 7 what merging asks; quads are at most a sixth of the half-edges, so there is room for them.
fn make_quads(frame: Frame<'_>, params: Params, classes: &mut [u32], quads: &mut [u32]) -> usize
    requires rows_open { judge_of (given frame params) ≡ Ok tt }
    requires classes_len { (length classes.old ≡ length frame.triangles.now) × (4 * most_quads ≤ length quads.old) }
    ensures { Made (given frame.entry params) classes.new result quads.new }
{
    classify_triangles(
        frame.corners,
        frame.axes,
        frame.triangles,
        params.edges,
        classes,
    );
    let mesh = Mesh {
        triangles: frame.triangles,
        twins: frame.twins,
        classes,
    };
    write_quads(frame.corners, mesh, quads)
}

// Of the first n quads of a list those that the filters keep, at its front; answers how many. `quads_of` shows what the filters ask.
fn keep_quads(
    corners: Positions<'_>,
    quads: &mut [u32],
    n: usize,
    params: FilterParams,
    work: &mut [u32],
) -> usize
    requires { Sound (record { xs = corners.x.now; ys = corners.y.now; quads = take (4 * n) quads.old; params = params }) × (quad_words n (length corners.x.now) ≤ length work.old) × (4 * n ≤ length quads.old) }
    ensures { Sifted (record { xs = corners.entry.x.now; ys = corners.entry.y.now; quads = take (4 * n) quads.old; params = params }) result quads.new × (length work.new ≡ length work.old) }
{
    mark_quads(corners, &quads[..4 * n], params, work);
    keep_marked(quads, work, n)
}

// The quads that the filters keep of those made. The quads made are sound for the filters: four different corners that exist in each, and at
// most 4,096 of them. A frame's workspace is longer than what its quads want.
pub(crate) fn quads_of(
    frame: Frame<'_>,
    params: Params,
    work: &mut [u32],
    quads: &mut [u32],
) -> usize
    requires { (entry_gate (given frame params) (length work.old) ≡ Ok tt) × (4 * most_quads ≤ length quads.old) }
    ensures { Sifted (filtering (given frame.entry params)) result quads.new × (length work.new ≡ length work.old) }
{
    let edges = frame.triangles.len();
    let n = make_quads(frame, params, &mut work[..edges], quads);
    keep_quads(frame.corners, quads, n, params.filters, work)
}
