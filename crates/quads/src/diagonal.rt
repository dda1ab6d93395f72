// A triangle's only diagonal. The search over its sides stops at the first Spurious one or the second Diagonal.
ghost use Rattle.std.specs.Prelude.{◌≡◌, ◌+◌, ◌*◌, ◌≤◌, length};
ghost use Rattle.quads.specs.Diagonal.{only_at};

use classify::Class;

// The half-edge that is triangle t's one Diagonal side, where its other two are Grid.
#[tactic(auto, using(crate::proofs::Search::seen_more, crate::proofs::Search::found_all), unfolding(crate::specs::inner::Search::seen_to))]
pub(crate) fn only_diagonal(classes: &[u32], t: usize) -> Option<usize>
    requires { 3 * t + 3 ≤ length classes.now }
    ensures { result ≡ only_at classes.now t }
{
    let base = 3 * t;
    let mut found = None;
    // The label and the early exit are the form that document 01 names for this search.
    'sides: for side in base..base + 3 {
        match (Class::from(classes[side]), found) {
            (Class::Grid, _) => {}
            (Class::Diagonal, None) => found = Some(side),
            _ => {
                found = None;
                break 'sides;
            }
        }
    }
    found
}
