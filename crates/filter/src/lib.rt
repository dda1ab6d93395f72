// The three filters of quads: crowded corners, uneven opposing sides, and cells of the wrong size in their group.
// `filter_quads` is the call; `inner` has the stage without its checks.
#![tactic(auto)]

ghost use Rattle.filter.specs.Input.{given};
ghost use Rattle.filter.specs.Call.{Allowed};

use mesh::Positions;
use refusal::Refusal;

mod checked;
mod gate;
pub mod inner;
mod layout;
mod lengths;
mod opposing;
mod size;
mod standing;
mod topology;

// The limits: of the ratio of opposing sides, and of a side's length over its group's median.
#[derive(Clone, Copy, Debug, PartialEq)]
pub struct FilterParams {
    pub ratio: f32,
    pub least: f32,
    pub greatest: f32,
}

// Writes the quads that all three rules keep, in their order; answers how many.
pub fn filter_quads(
    corners: Positions<'_>,
    quads: &[u32],
    params: FilterParams,
    work: &mut [u32],
    kept: &mut [u32],
) -> Result<u32, Refusal>
    ensures { Allowed (given corners.entry quads.entry params)
        work.old kept.old (record { answer = result; work = work.new; kept = kept.new }) }
{
    gate::entry(corners, quads, params, work.len())?;
    inner::mark_quads(corners, quads, params, work);
    let count = inner::count_kept(work, quads.len() / 4);
    if kept.len() / 4 < count {
        work.fill(0);
        return Err(Refusal::RecordsShort(count as u32));
    }
    inner::write_kept(quads, work, kept);
    work.fill(0);
    Ok(count as u32)
}
