// Classes of half-edges: Grid where both ends have an axis near enough, Diagonal across two such sides, else Spurious; and how well the
// Grid ones fit.
// `classify_all_edges` is the call; `inner` has the stage without its checks, the judgement of one triangle, and rows 1 and 2.
#![tactic(auto)]

ghost use Rattle.std.specs.Prelude.{◌≡◌};
ghost use Rattle.classify.specs.Classes.{given};
ghost use Rattle.classify.specs.Call.{Outcome, call_of};

use axis::{Axes, SpreadRule};
use gate::judge_fitted;
use inner::write_triangles;
use mesh::Positions;
use refusal::Refusal;

mod gate;
mod half_edge;
pub mod inner;
mod numbers;
pub mod three;

#[derive(Clone, Copy, Debug, PartialEq, Eq)]
pub enum Class {
    Spurious,
    Grid,
    Diagonal,
}

// An informative axis at a corner, the nearest there: its slot and its distance.
#[derive(Clone, Copy, Debug, PartialEq)]
pub struct Near {
    pub slot: u32,
    pub distance: f32,
}

// A half-edge with what is nearest at the corner it runs from and at the one it runs to.
#[derive(Clone, Copy, Debug, PartialEq)]
pub struct Side {
    pub start: Option<Near>,
    pub end: Option<Near>,
}

// A half-edge that is Grid: the slots at its start and its end, and the greater of its distances there.
#[derive(Clone, Copy, Debug, PartialEq)]
pub struct GridSide {
    pub start: u32,
    pub end: u32,
    pub fit: f32,
}

// A half-edge for itself. Both cases are classes, and neither is a lack, so it is no `Option`.
#[derive(Clone, Copy)]
pub enum Judged {
    Spurious,
    Grid(GridSide),
}

#[derive(Clone, Copy)]
pub struct EdgeParams {
    pub tolerance: f32,
    pub spread: SpreadRule,
}

// Writes the class of every half-edge, 0 Spurious, 1 Grid, 2 Diagonal, and its fit: the greater of the distances at the ends of a Grid
// one, the start's where neither is greater, and -1 of any other.
pub fn classify_all_edges(
    corners: Positions<'_>,
    axes: Axes<'_>,
    triangles: &[u32],
    params: EdgeParams,
    classes: &mut [u32],
    fits: &mut [f32],
) -> Result<(), Refusal>
    ensures { ◌≡◌ {A = Outcome} (record { answer = result; classes = classes.new; fits = fits.new })
        (call_of (given corners.entry axes.entry triangles.entry params) classes.old fits.old) }
{
    judge_fitted(corners, axes, triangles, params, classes.len(), fits.len())?;
    write_triangles(corners, axes, triangles, params, classes, fits);
    Ok(())
}
