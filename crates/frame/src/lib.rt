// A whole frame: classes, quads, the three filters, labelling, in one call.
// `label_frame` is the call; `inner` has its rows and its work apart.
#![tactic(auto)]

ghost use Rattle.frame.specs.Stages.{given};
ghost use Rattle.frame.specs.Call.{Allowed};

use axis::Axes;
use classify::EdgeParams;
use fates::LabelParams;
use fates::inner::span_of;
use filter::FilterParams;
use inner::{compute_frame, judge, work_gate};
use mesh::Positions;
use refusal::Refusal;
use walk::Labelled;
use walk::inner::write_components;

mod gate;
pub mod inner;
mod stages;

// A frame: where its corners stand, and their axes; its half-edges' corners, three to a triangle, and their twins.
#[derive(Clone, Copy)]
pub struct Frame<'a> {
    pub corners: Positions<'a>,
    pub axes: Axes<'a>,
    pub triangles: &'a [u32],
    pub twins: &'a [u32],
}

// All parameters: of the edges' classes, of the filters and of labelling.
#[derive(Clone, Copy)]
pub struct Params {
    pub edges: EdgeParams,
    pub filters: FilterParams,
    pub labels: LabelParams,
}

// Writes the components of a frame in order of their lowest quads, and their entries in order of u, then v.
pub fn label_frame(
    frame: Frame<'_>,
    params: Params,
    work: &mut [u32],
    components: &mut [u32],
    entries: &mut [u32],
) -> Result<Labelled, Refusal>
    ensures { Allowed (given frame.entry params)
        work.old components.old entries.old
        (record { answer = result; work = work.new; components = components.new; entries = entries.new }) }
{
    judge(frame, params)?;
    work_gate(work.len(), frame.triangles.len(), frame.corners.x.len())?;
    let counts = compute_frame(frame, params, work);
    let n = counts.quads;
    let span = span_of(n, frame.corners.x.len());
    write_components(work, span, n, counts.totals, components, entries)
}
