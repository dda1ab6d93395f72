// Row 4: positions in range.
ghost use Rattle.std.specs.Prelude.{◌≡◌, ◌<◌, length};
ghost use Rattle.mesh.specs.Positions.{positions_row};

use crate::Positions;
use crate::inner::first::refuse_first;
use measure::inner::is_position;
use refusal::Refusal;

// Rows 1 and 2 have let through lists of one length within the limit.
#[tactic(auto, unfolding(crate::specs::Positions::positions_row, crate::specs::Positions::misplaced))]
pub fn positions_row(corners: Positions<'_>) -> Result<(), Refusal>
    requires { (length corners.y.now ≡ length corners.x.now) × (length corners.x.now < 4294967296) }
    ensures { result ≡ positions_row corners.entry.x.now corners.entry.y.now }
{
    refuse_first(
        corners.x.len(),
        |k| !(is_position(corners.x[k]) && is_position(corners.y[k])),
        Refusal::OutOfRange,
    )
}
