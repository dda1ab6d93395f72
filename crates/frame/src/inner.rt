// The rows of a frame apart from its work, row 8 apart from the rows before it, and the work up to the fates and their counts apart from
// writing.
ghost use Rattle.std.specs.Prelude.{◌≡◌, ◌≤◌, length};
ghost use Rattle.mesh.specs.Lists.{most_corners, most_half_edges, work_row, frame_words};
ghost use Rattle.frame.specs.Stages.{given};
ghost use Rattle.frame.specs.Call.{judge_of, entry_gate};
ghost use Rattle.frame.specs.inner.Steps.{Fated, CountedFates};

use crate::gate::{params_gate, values_gate};
use crate::stages::quads_of;
use crate::{Frame, Params};
use classify::inner::lengths_gate;
use fates::inner::{compute, span_of};
use laying::inner::sheet::Sheet;
use mesh::inner::lists::{MOST_QUADS, frame_words, work_row};
use refusal::Refusal;
use walk::inner::{Totals, count_components};

// How many quads are kept, and how many components and entries their groups make.
#[derive(Drop)]
pub struct FrameCounts {
    pub quads: usize,
    pub totals: Totals,
}

// Rows 1 to 7, with 18.
#[tactic(auto, unfolding(crate::specs::Call::judge_of))]
pub fn judge(frame: Frame<'_>, params: Params) -> Result<(), Refusal>
    ensures { result ≡ judge_of (given frame.entry params) }
{
    lengths_gate(
        frame.corners,
        frame.axes,
        frame.triangles,
        frame.twins.len(),
    )?;
    params_gate(params)?;
    values_gate(frame)
}

// Row 8, for counts that row 2 let through.
pub fn work_gate(words: usize, edges: usize, corners: usize) -> Result<(), Refusal>
    requires { (edges ≤ most_half_edges) × (corners ≤ most_corners) }
    ensures { result ≡ work_row words (frame_words edges corners) }
{
    work_row(words, frame_words(edges, corners))
}

// The stages up to the fate of every group of the quads kept, for a frame that rows 1 to 8 let through; answers the counts, and writes no
// component.
pub fn compute_frame(frame: Frame<'_>, params: Params, work: &mut [u32]) -> FrameCounts
    requires { entry_gate (given frame params) (length work.old) ≡ Ok tt }
    ensures fated { Fated (given frame.entry params) result.quads work.old work.new }
    ensures counted_fates { CountedFates (length frame.entry.corners.x.now) result work.new }
{
    let mut quads = [0u32; 4 * MOST_QUADS];
    let n = quads_of(frame, params, work, &mut quads);
    let span = span_of(n, frame.corners.x.len());
    let sheet = Sheet {
        quads: &quads[..4 * n],
        span,
        count: n,
    };
    compute(sheet, work, params.labels);
    FrameCounts {
        quads: n,
        totals: count_components(work, span, n),
    }
}
