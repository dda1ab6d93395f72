// The rows of the call in order, but for the room, which depends on the answer: those on lengths, then those on what the lists hold.
ghost use Rattle.std.specs.Prelude.{◌≡◌, ◌%◌, ◌≤◌, length};
ghost use Rattle.mesh.specs.Lists.{most_corners, most_half_edges};
ghost use Rattle.quads.specs.Merge.{given};
ghost use Rattle.quads.specs.Call.{lengths_gate, values_gate, gate_of};

use crate::Mesh;
use mesh::Positions;
use mesh::inner::cells::{classes_row, corners_row, twice_row};
use mesh::inner::lists::{MOST_CORNERS, MOST_HALF_EDGES, limit_row, paired_row, whole_row};
use mesh::inner::positions::positions_row;
use mesh::inner::twins::twins_row;
use refusal::Refusal;

// Rows 1 and 2.
#[tactic(auto, unfolding(crate::specs::Call::lengths_gate))]
fn lengths_gate(corners: Positions<'_>, mesh: Mesh<'_>) -> Result<(), Refusal>
    ensures { result ≡ lengths_gate (length corners.entry.x.now) (length corners.entry.y.now) (length mesh.entry.triangles.now) (length mesh.entry.twins.now) (length mesh.entry.classes.now) }
{
    paired_row(corners.y.len(), corners.x.len())?;
    whole_row(mesh.triangles.len(), 3)?;
    paired_row(mesh.twins.len(), mesh.triangles.len())?;
    paired_row(mesh.classes.len(), mesh.triangles.len())?;
    limit_row(corners.x.len(), MOST_CORNERS)?;
    limit_row(mesh.triangles.len(), MOST_HALF_EDGES)
}

// Rows 4 to 7, for lists that rows 1 and 2 let through.
#[tactic(auto, unfolding(crate::specs::Call::values_gate))]
fn values_gate(corners: Positions<'_>, mesh: Mesh<'_>) -> Result<(), Refusal>
    requires { (length corners.y.now ≡ length corners.x.now) × (length corners.x.now ≤ most_corners) × (length mesh.triangles.now ≤ most_half_edges) × (length mesh.triangles.now % 3 ≡ 0) × (length mesh.twins.now ≡ length mesh.triangles.now) × (length mesh.classes.now ≡ length mesh.triangles.now) }
    ensures { result ≡ values_gate (given corners.entry mesh.entry) }
{
    positions_row(corners)?;
    corners_row(mesh.triangles, corners.x.len())?;
    classes_row(mesh.classes)?;
    twice_row(mesh.triangles, 3)?;
    twins_row(mesh.triangles, mesh.twins)
}

#[tactic(auto, unfolding(crate::specs::Call::gate_of))]
pub(crate) fn judge(corners: Positions<'_>, mesh: Mesh<'_>) -> Result<(), Refusal>
    ensures { result ≡ gate_of (given corners.entry mesh.entry) }
{
    lengths_gate(corners, mesh)?;
    values_gate(corners, mesh)
}
