// The rows of the call in order, but for the rooms, which depend on the answer: 1, 2, 5, 6, and the workspace's apart.
ghost use Rattle.std.specs.Prelude.{◌≡◌, ◌/◌, ◌≤◌, length};
ghost use Rattle.refusal.specs.Rows.{◌then◌};
ghost use Rattle.mesh.specs.Lists.{whole_row, limit_row, most_corners, most_quads, work_row, quad_words};
ghost use Rattle.mesh.specs.Cells.{corners_row, twice_row};
ghost use Rattle.fates.specs.declared.LabelParams.{LabelParams};
ghost use Rattle.walk.specs.Input.{given};
ghost use Rattle.walk.specs.Call.{entry_gate};

use mesh::inner::cells::{corners_row, twice_row};
use mesh::inner::lists::{MOST_CORNERS, MOST_QUADS, limit_row, quad_words, whole_row, work_row};
use refusal::Refusal;

// All rows but the ninth and the tenth.
#[tactic(auto, unfolding(crate::specs::Call::entry_gate, crate::specs::Call::gate_of))]
pub(crate) fn entry(quads: &[u32], corners: usize, words: usize) -> Result<(), Refusal>
    ensures { (p : LabelParams) → result ≡ entry_gate (given quads.entry corners p) words }
{
    whole_row(quads.len(), 4)?;
    limit_row(corners, MOST_CORNERS)?;
    limit_row(quads.len() / 4, MOST_QUADS)?;
    corners_row(quads, corners)?;
    twice_row(quads, 4)?;
    work_row(words, quad_words(quads.len() / 4, corners))
}
