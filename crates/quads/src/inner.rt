// The stage without its checks: counting the quads, for the call, and writing them, for the call and for a frame.
ghost use Rattle.std.specs.Prelude.{◌≡◌, [], ◌∷◌, ◌++◌, ◌+◌, ◌*◌, ◌≤◌, ◌<◌, length, take, drop};
ghost use Rattle.quads.specs.inner.Merging.{MeshSound, Sound, count_to, Writes};
ghost use Rattle.quads.specs.Merge.{merged_of, triangle_count, given, mesh_of};

use crate::order::order_corners;
use crate::pair::next_pair;
use crate::{Mesh, Quad};
use mesh::Positions;

// How many quads the mesh makes. This and `write_quads` go from pair to pair alike; one loop for both would take a closure whose contract is
// what the loop keeps, which is no plainer. `merge_triangle_pairs` shows what is asked by its rows.
#[tactic(auto, using(crate::proofs::Made::count_le, crate::proofs::Made::count_next, crate::proofs::Made::count_passed), unfolding(crate::specs::inner::Merging::count_to))]
pub(crate) fn count_quads(mesh: Mesh<'_>) -> usize
    requires { MeshSound (mesh_of mesh) }
    ensures { result ≡ count_to (mesh_of mesh.entry) (triangle_count (mesh_of mesh.entry)) }
{
    let mut made = 0;
    let mut from = 0;
    while let Some((t, _)) = next_pair(mesh, from) {
        made += 1;
        from = t + 1;
    }
    made
}

// Four words of a list from `at` on, in the words of a splice. A caller has room for the record.
pub fn store(quads: &mut [u32], at: usize, q: Quad)
    requires { at + 3 < length quads.old }
    ensures { quads.new ≡ take at quads.old ++ ((q.a ∷ q.b ∷ q.c ∷ q.d ∷ []) ++ drop (at + 4) quads.old) }
{
    quads[at..at + 4].copy_from_slice(&[q.a, q.b, q.c, q.d]);
}

// The quads at the front of their list; answers how many. `merge_triangle_pairs` and a frame show what is asked by their rows.
pub fn write_quads(corners: Positions<'_>, mesh: Mesh<'_>, quads: &mut [u32]) -> usize
    requires { Sound (given corners mesh) × (4 * length (merged_of (given corners mesh)) ≤ length quads.old) }
    ensures { Writes (given corners.entry mesh.entry) quads.old quads.new result }
{
    let mut made = 0;
    let mut from = 0;
    while let Some((t, quad)) = next_pair(mesh, from) {
        store(quads, 4 * made, order_corners(corners, quad));
        made += 1;
        from = t + 1;
    }
    made
}
