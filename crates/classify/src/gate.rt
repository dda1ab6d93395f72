// The rows of the call in order: those on lengths first, of them that on the fit list, then those on the parameters and on what the lists
// hold.
ghost use Rattle.std.specs.Prelude.{◌≡◌, ◌≤◌, length};
ghost use Rattle.mesh.specs.Lists.{most_corners, most_half_edges};
ghost use Rattle.classify.specs.Classes.{given};
ghost use Rattle.classify.specs.Call.{values_gate, gate_of, fitted_gate};

use crate::EdgeParams;
use crate::inner::lengths_gate;
use axis::Axes;
use axis::inner::rule_row;
use measure::inner::parameter_row;
use mesh::Positions;
use mesh::inner::cells::{corners_row, twice_row};
use mesh::inner::lists::paired_row;
use mesh::inner::positions::positions_row;
use refusal::Refusal;

// Rows 3, 18 and 4 to 6, for lists that rows 1 and 2 let through.
#[tactic(auto, unfolding(crate::specs::Call::values_gate))]
fn values_gate(corners: Positions<'_>, triangles: &[u32], params: EdgeParams) -> Result<(), Refusal>
    requires { (length corners.y.now ≡ length corners.x.now) × (length corners.x.now ≤ most_corners) × (length triangles.now ≤ most_half_edges) }
    ensures { result ≡ values_gate corners.entry.x.now corners.entry.y.now triangles.entry.now params }
{
    parameter_row(params.tolerance, 0)?;
    parameter_row(params.spread.limit, 4)?;
    rule_row(params.spread)?;
    positions_row(corners)?;
    corners_row(triangles, corners.x.len())?;
    twice_row(triangles, 3)
}

#[tactic(auto, using(crate::proofs::Sound::lengths_open), unfolding(crate::specs::Call::gate_of))]
fn judge(
    corners: Positions<'_>,
    axes: Axes<'_>,
    triangles: &[u32],
    params: EdgeParams,
    classes: usize,
) -> Result<(), Refusal>
    ensures { result ≡ gate_of (given corners.entry axes.entry triangles.entry params) classes }
{
    lengths_gate(corners, axes, triangles, classes)?;
    values_gate(corners, triangles, params)
}

// All rows, for lists of classes and of fits of those lengths.
#[tactic(auto, unfolding(crate::specs::Call::fitted_gate))]
pub(crate) fn judge_fitted(
    corners: Positions<'_>,
    axes: Axes<'_>,
    triangles: &[u32],
    params: EdgeParams,
    classes: usize,
    fits: usize,
) -> Result<(), Refusal>
    ensures { result ≡ fitted_gate (given corners.entry axes.entry triangles.entry params) classes fits }
{
    paired_row(fits, triangles.len())?;
    judge(corners, axes, triangles, params, classes)
}
