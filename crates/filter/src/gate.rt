// The rows of the call in order, but for the room, which depends on the answer: 1 to 6, and the workspace's apart.
ghost use Rattle.std.specs.Prelude.{◌≡◌, ◌/◌, ◌≤◌, length};
ghost use Rattle.mesh.specs.Lists.{most_corners, most_quads};
ghost use Rattle.filter.specs.Input.{given};
ghost use Rattle.filter.specs.Call.{lengths_gate, params_gate, values_gate, gate_of, entry_gate};

use crate::FilterParams;
use measure::inner::parameter_row;
use mesh::Positions;
use mesh::inner::cells::{corners_row, twice_row};
use mesh::inner::lists::{
    MOST_CORNERS, MOST_QUADS, limit_row, paired_row, quad_words, whole_row, work_row,
};
use mesh::inner::positions::positions_row;
use refusal::Refusal;

// Rows 1 and 2, by the lengths alone: a call tells that of its workspace apart.
#[tactic(auto, unfolding(crate::specs::Call::lengths_gate))]
fn lengths_gate(x: usize, y: usize, quads: usize) -> Result<(), Refusal>
    ensures { result ≡ lengths_gate x y quads }
{
    paired_row(y, x)?;
    whole_row(quads, 4)?;
    limit_row(x, MOST_CORNERS)?;
    limit_row(quads / 4, MOST_QUADS)
}

// Row 3.
#[tactic(auto, unfolding(crate::specs::Call::params_gate))]
fn params_gate(params: FilterParams) -> Result<(), Refusal>
    ensures { result ≡ params_gate params }
{
    parameter_row(params.ratio, 1)?;
    parameter_row(params.least, 2)?;
    parameter_row(params.greatest, 3)
}

// Rows 4 to 6, for lists that rows 1 and 2 let through.
#[tactic(auto, unfolding(crate::specs::Call::values_gate))]
fn values_gate(corners: Positions<'_>, quads: &[u32]) -> Result<(), Refusal>
    requires { (length corners.y.now ≡ length corners.x.now) × (length corners.x.now ≤ most_corners) × (length quads.now / 4 ≤ most_quads) }
    ensures { result ≡ values_gate corners.entry.x.now corners.entry.y.now quads.now }
{
    positions_row(corners)?;
    corners_row(quads, corners.x.len())?;
    twice_row(quads, 4)
}

// Rows 1 to 6.
#[tactic(auto, using(crate::proofs::Sound::lengths_open), unfolding(crate::specs::Call::gate_of))]
fn judge(corners: Positions<'_>, quads: &[u32], params: FilterParams) -> Result<(), Refusal>
    ensures { result ≡ gate_of (given corners.entry quads.entry params) }
{
    lengths_gate(corners.x.len(), corners.y.len(), quads.len())?;
    params_gate(params)?;
    values_gate(corners, quads)
}

// All rows but the ninth.
#[tactic(auto, unfolding(crate::specs::Call::entry_gate))]
pub(crate) fn entry(
    corners: Positions<'_>,
    quads: &[u32],
    params: FilterParams,
    words: usize,
) -> Result<(), Refusal>
    ensures { result ≡ entry_gate (given corners.entry quads.entry params) words }
{
    judge(corners, quads, params)?;
    work_row(words, quad_words(quads.len() / 4, corners.x.len()))
}
