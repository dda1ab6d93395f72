// Quads from a mesh: two triangles that meet at the only diagonal of both, their four corners in order.
// `merge_triangle_pairs` is the call; `inner` has the stage without its checks.
#![tactic(auto)]

ghost use Rattle.std.specs.Prelude.{◌≡◌};
ghost use Rattle.quads.specs.Merge.{given};
ghost use Rattle.quads.specs.Call.{Outcome, call_of};

use mesh::Positions;
use refusal::Refusal;

mod diagonal;
mod gate;
pub mod inner;
mod order;
mod pair;

// Four corners.
#[derive(Clone, Copy, Debug, PartialEq, Eq)]
pub struct Quad {
    pub a: u32,
    pub b: u32,
    pub c: u32,
    pub d: u32,
}

// The half-edges with their corners, three to a triangle, their twins and their classes: three lists, since C lends them apart.
#[derive(Clone, Copy)]
pub struct Mesh<'a> {
    pub triangles: &'a [u32],
    pub twins: &'a [u32],
    pub classes: &'a [u32],
}

// Writes a quad, four corners, for each pair of triangles, in order of the lower one; answers how many.
#[tactic(auto, unfolding(crate::specs::Call::call_of))]
pub fn merge_triangle_pairs(
    corners: Positions<'_>,
    mesh: Mesh<'_>,
    quads: &mut [u32],
) -> Result<u32, Refusal>
    ensures { ◌≡◌ {A = Outcome} (record { answer = result; quads = quads.new })
        (call_of (given corners.entry mesh.entry) quads.old) }
{
    gate::judge(corners, mesh)?;
    let count = inner::count_quads(mesh);
    if quads.len() / 4 < count {
        return Err(Refusal::RecordsShort(count as u32));
    }
    inner::write_quads(corners, mesh, quads);
    Ok(count as u32)
}
