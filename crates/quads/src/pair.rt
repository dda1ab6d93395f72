// The pairing of a triangle with the one across its only diagonal, and the search for the next triangle that has one.
ghost use Rattle.std.specs.Prelude.{◌≡◌, ◌∷◌, [], ◌+◌, ◌*◌, ◌<◌, length};
ghost use Rattle.quads.specs.Union.{is_in, union_of, four_from};
ghost use Rattle.quads.specs.inner.Merging.{MeshSound, NextPair};
ghost use Rattle.quads.specs.Merge.{paired_at, mesh_of};

use crate::diagonal::only_diagonal;
use crate::{Mesh, Quad};
use mesh::inner::twins::NO_TWIN;

// Whether x is one of the three corners. They are three words of a list read once, and `contains` of a list made of them is no plainer.
#[tactic(auto, unfolding(crate::specs::Union::is_in))]
fn is_one(x: u32, a: u32, b: u32, c: u32) -> bool
    ensures { result ≡ is_in x (a ∷ b ∷ c ∷ []) }
{
    x == a || x == b || x == c
}

// The union of triangles t and u, if it has four corners: then one of u's is new.
#[tactic(auto, unfolding(crate::specs::Union::union_of, crate::specs::Union::new_to, crate::specs::Union::four_from))]
fn union_of(triangles: &[u32], t: usize, u: usize) -> Option<Quad>
    requires { (3 * t + 2 < length triangles.now) × (3 * u + 2 < length triangles.now) }
    ensures { result ≡ four_from (union_of triangles.now t u) }
{
    let a = triangles[3 * t];
    let b = triangles[3 * t + 1];
    let c = triangles[3 * t + 2];
    let x = triangles[3 * u];
    let y = triangles[3 * u + 1];
    let z = triangles[3 * u + 2];
    match (is_one(x, a, b, c), is_one(y, a, b, c), is_one(z, a, b, c)) {
        (false, true, true) => Some(Quad { a, b, c, d: x }),
        (true, false, true) => Some(Quad { a, b, c, d: y }),
        (true, true, false) => Some(Quad { a, b, c, d: z }),
        _ => None,
    }
}

// Triangle t's pairing with a higher one, across the only diagonal of both. `MeshSound` stands in the contracts of three functions and in no
// type: a `Mesh` is what a caller lends, sound or not, and a type of sound ones would be made and taken apart for these three alone.
#[tactic(auto, using(crate::proofs::Side::only_own, crate::proofs::Side::same_at), unfolding(crate::specs::Merge::paired_at, crate::specs::Merge::paired_across, crate::specs::Merge::paired_by))]
pub(crate) fn pair_at(mesh: Mesh<'_>, t: usize) -> Option<Quad>
    requires { MeshSound (mesh_of mesh) × (3 * t + 2 < length mesh.triangles.now) }
    ensures { result ≡ paired_at (mesh_of mesh.entry) t }
{
    let e = only_diagonal(mesh.classes, t)?;
    let w = mesh.twins[e];
    let twin = w as usize;
    let other = twin / 3;
    if w == NO_TWIN || other <= t {
        return None;
    }
    if only_diagonal(mesh.classes, other) == Some(twin) {
        return union_of(mesh.triangles, t, other);
    }
    None
}

// The first triangle from `from` on that makes a quad, with the quad's corners.
pub(crate) fn next_pair(mesh: Mesh<'_>, from: usize) -> Option<(usize, Quad)>
    requires { MeshSound (mesh_of mesh) }
    ensures { NextPair (mesh_of mesh.entry) from result }
{
    let mut found = None;
    // The label and the early exit are the form that document 01 names for this search.
    'pairs: for t in from..mesh.triangles.len() / 3 {
        if let Some(quad) = pair_at(mesh, t) {
            found = Some((t, quad));
            break 'pairs;
        }
    }
    found
}
