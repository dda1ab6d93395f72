// Rows 3 to 7 of a frame, with 18, by what they look at: parameters, and what the lists hold. Rows 1 and 2 are those of the classes.
ghost use Rattle.std.specs.Prelude.{◌≡◌, ◌%◌, ◌≤◌, length};
ghost use Rattle.mesh.specs.Lists.{most_corners, most_half_edges};
ghost use Rattle.frame.specs.Call.{params_gate, values_gate};

use crate::{Frame, Params};
use axis::inner::rule_row;
use measure::inner::parameter_row;
use mesh::inner::cells::{corners_row, twice_row};
use mesh::inner::positions::positions_row;
use mesh::inner::twins::twins_row;
use refusal::Refusal;

// Rows 3 and 18. The stages have some of these rows in gates of their own; a frame has all of a row before the next, so it names them anew.
#[tactic(auto, unfolding(crate::specs::Call::params_gate))]
pub(crate) fn params_gate(params: Params) -> Result<(), Refusal>
    ensures { result ≡ params_gate params }
{
    parameter_row(params.edges.tolerance, 0)?;
    parameter_row(params.filters.ratio, 1)?;
    parameter_row(params.filters.least, 2)?;
    parameter_row(params.filters.greatest, 3)?;
    parameter_row(params.edges.spread.limit, 4)?;
    rule_row(params.edges.spread)
}

// Rows 4 to 7, for lists that rows 1 and 2 let through.
#[tactic(auto, unfolding(crate::specs::Call::values_gate))]
pub(crate) fn values_gate(frame: Frame<'_>) -> Result<(), Refusal>
    requires { (length frame.corners.y.now ≡ length frame.corners.x.now) × (length frame.corners.x.now ≤ most_corners) × (length frame.triangles.now ≤ most_half_edges) × (length frame.triangles.now % 3 ≡ 0) × (length frame.twins.now ≡ length frame.triangles.now) }
    ensures { result ≡ values_gate frame.entry.corners.x.now frame.entry.corners.y.now frame.entry.triangles.now frame.entry.twins.now }
{
    positions_row(frame.corners)?;
    corners_row(frame.triangles, frame.corners.x.len())?;
    twice_row(frame.triangles, 3)?;
    twins_row(frame.triangles, frame.twins)
}
