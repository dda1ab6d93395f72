// The half-edge convention in code.
ghost use Rattle.std.specs.Prelude.{◌≡◌, ◌<◌};
ghost use Rattle.mesh.specs.HalfEdge.{next_of};

// The half-edge after e in its triangle. Callers hold e below the length of a list, which is far below the bound.
#[tactic(auto, unfolding(crate::specs::HalfEdge::next_of))]
pub fn next_edge(e: usize) -> usize
    requires { e < 4294967296 }
    ensures { result ≡ next_of e }
{
    if e % 3 == 2 { e - 2 } else { e + 1 }
}
